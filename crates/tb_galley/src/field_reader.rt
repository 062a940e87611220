//! Reads the fields of a line.
ghost use Rattle.std.specs.Prelude.{◌≡◌, ◌<◌, ◌≤◌, ◌+◌, [], map, ◌≤ℤ◌, true, IfOk, nat_abs, not, ◌==◌, codes, false, Option, Some, None, if◌then◌else◌, IsTrue};
ghost use Rattle.std.specs.List.{list_all, list_any};
ghost use Rattle.tb_galley.specs.Faults.{is_printable};
ghost use Rattle.tb_galley.specs.Fields.{text_cause, are_places, is_place_byte, is_foot_class, class_slot};
ghost use Rattle.tb_galley.specs.Words.{number_in};
ghost use Rattle.tb_galley.specs.Grammar.{has_byte, places_at};
ghost use Rattle.tb_galley.specs.FieldReader.{left_of, Gives, GivesBy, next_left, end_left, field_read, dimension_left, stretch_left, least_left, range_left, stretch_part, shrink_part, glue_left, next_is_by, is_end, fraction_left, choice_left, word_left, version_left, places_left, sized_left, name_left};
ghost use Rattle.tb_text.specs.Lines.{begins_with};

use crate::fields::{At, Fields};
use crate::glue_words::{after_minus, after_plus};
use crate::words::version_of;
use crate::{Cause, ClassLine};
use tb_node::{FOOTNOTES, Name, Places, name_of};
use tb_scaled::{Glue, Order};
use tb_text::{TextFault, dimension, fraction, integer, split_amount, split_field, stretch};

/// Whether each byte of a field is one of ASCII's 94 printable ones.
pub(crate) fn is_printable(field: &[u8]) -> bool
    ensures { result ≡ list_all is_printable field.now }
{
    field.iter().all(|b| *b >= 33 && *b <= 126)
}

/// Whether a first field has printable bytes only. If it is a word, it has no others.
pub fn is_visible(head: &[u8], is_word: bool) -> bool
    requires { IsTrue is_word → list_all is_printable head.now ≡ true }
    ensures { result ≡ list_all is_printable head.now }
{
    is_word || is_printable(head)
}

/// Whether a field begins a comment.
pub fn begins_comment(field: &[u8]) -> bool
    ensures { result ≡ begins_with 35 field.now }
{
    match field {
        [first, ..] => *first == b'#',
        [] => false,
    }
}

fn text_cause(fault: TextFault) -> Cause
    ensures { result ≡ text_cause fault }
{
    match fault {
        TextFault::BadNumber => Cause::BadNumber,
        TextFault::BadUnit => Cause::BadUnit,
        TextFault::Dimension => Cause::Dimension,
    }
}

impl<'a> Fields<'a> {
    /// The fault if no field is left.
    pub fn no_field(&self) -> At
        ensures { result ≡ record { field = self.now.number; cause = self.now.missing } }
    {
        At {
            field: self.number,
            cause: self.missing,
        }
    }

    /// The next field.
    pub fn next(&mut self) -> Result<&'a [u8], At>
        ensures { GivesBy (λ f. f.now) result (left_of self.new) (next_left (left_of self.old)) }
    {
        let number = self.number;
        let Some((field, rest)) = split_field(self.rest) else {
            return Err(self.no_field());
        };
        if !is_printable(field) {
            return Err(At {
                field: number,
                cause: Cause::NotAscii,
            });
        }
        self.rest = rest;
        self.number = number + 1;
        Ok(field)
    }

    /// No field is left.
    pub fn end(&mut self) -> Result<(), At>
        ensures { Gives result (left_of self.new) (end_left (left_of self.old)) }
    {
        if self.rest.is_empty() {
            return Ok(());
        }
        let number = self.number;
        let Some((field, _)) = split_field(self.rest) else {
            return Ok(());
        };
        if is_printable(field) {
            Err(At {
                field: number,
                cause: Cause::ExtraField,
            })
        } else {
            Err(At {
                field: number,
                cause: Cause::NotAscii,
            })
        }
    }

    /// The next field as a dimension, in scaled points.
    #[inline(always)]
    #[tactic(auto, unfolding(crate::specs::FieldReader::dimension_left))]
    pub fn dimension(&mut self) -> Result<i64, At>
        ensures { Gives result (left_of self.new) (dimension_left (left_of self.old)) }
    {
        match split_amount(self.rest) {
            Some((value, rest)) => {
                self.rest = rest;
                self.number += 1;
                Ok(value)
            }
            None => self.other_dimension(),
        }
    }

    // The same of a field of any form.
    #[inline(never)]
    #[tactic(auto, unfolding(crate::specs::FieldReader::dimension_left))]
    fn other_dimension(&mut self) -> Result<i64, At>
        ensures { Gives result (left_of self.new) (dimension_left (left_of self.old)) }
    {
        let number = self.number;
        let field = self.next()?;
        match dimension(field) {
            Ok(value) => Ok(value),
            Err(fault) => Err(At {
                field: number,
                cause: text_cause(fault),
            }),
        }
    }

    #[inline(always)]
    #[tactic(auto, unfolding(crate::specs::FieldReader::stretch_left))]
    fn stretch(&mut self) -> Result<(i64, Order), At>
        ensures { Gives result (left_of self.new) (stretch_left (left_of self.old)) }
    {
        match split_amount(self.rest) {
            Some((value, rest)) => {
                self.rest = rest;
                self.number += 1;
                Ok((value, Order::Normal))
            }
            None => self.other_stretch(),
        }
    }

    // The same of a field of any form.
    #[inline(never)]
    #[tactic(auto, unfolding(crate::specs::FieldReader::stretch_left))]
    fn other_stretch(&mut self) -> Result<(i64, Order), At>
        ensures { Gives result (left_of self.new) (stretch_left (left_of self.old)) }
    {
        let number = self.number;
        let field = self.next()?;
        match stretch(field) {
            Ok(value) => Ok(value),
            Err(fault) => Err(At {
                field: number,
                cause: text_cause(fault),
            }),
        }
    }

    /// A dimension that is at least this.
    #[inline(always)]
    #[tactic(auto, unfolding(crate::specs::FieldReader::least_left))]
    pub fn dimension_from(&mut self, low: i64, cause: Cause) -> Result<i64, At>
        ensures { Gives result (left_of self.new) (least_left low cause (left_of self.old)) }
    {
        match split_amount(self.rest) {
            Some((value, rest)) if low <= value => {
                self.rest = rest;
                self.number += 1;
                Ok(value)
            }
            Some(_) => Err(At::new(self.number, cause)),
            None => self.decimal_from(low, cause),
        }
    }

    /// A dimension that is at least this, as `dimension_from` reads it, of a field that is seldom a few digits alone or with
    /// `pt` behind: most have a point. What is read as a dimension has printable bytes only, so only other fields are
    /// tested for them.
    #[inline(never)]
    #[tactic(auto, unfolding(crate::specs::FieldReader::least_left))]
    pub fn decimal_from(&mut self, low: i64, cause: Cause) -> Result<i64, At>
        ensures { Gives result (left_of self.new) (least_left low cause (left_of self.old)) }
    {
        let number = self.number;
        let Some((field, rest)) = split_field(self.rest) else {
            return Err(self.no_field());
        };
        match dimension(field) {
            Ok(value) if low <= value => {
                self.rest = rest;
                self.number = number + 1;
                Ok(value)
            }
            Ok(_) => Err(At::new(number, cause)),
            Err(fault) => Err(At::new(number, cause_in(field, text_cause(fault)))),
        }
    }

    /// An integer in this range.
    #[tactic(auto, unfolding(crate::specs::FieldReader::range_left))]
    pub fn integer_within(&mut self, low: i64, high: i64, cause: Cause) -> Result<i64, At>
        ensures read { Gives result (left_of self.new) (range_left low high cause (left_of self.old)) }
        ensures range { IfOk result (λ n. (low ≤ℤ n) × (n ≤ℤ high)) }
    {
        let number = self.number;
        let field = self.next()?;
        match integer(field) {
            Ok(value) if low <= value && value <= high => Ok(value),
            Ok(_) => Err(At {
                field: number,
                cause,
            }),
            Err(fault) => Err(At {
                field: number,
                cause: text_cause(fault),
            }),
        }
    }

    /// The next field as the class of a footnote: 254, or the number of one of these.
    pub fn class_among(&mut self, classes: &[ClassLine]) -> Result<u8, At>
        ensures { Gives result (left_of self.new)
            (field_read (class_slot (map (λ c. c.number) classes.now)) number_in (left_of self.old)) }
    {
        let number = self.number;
        let field = self.next()?;
        match integer(field) {
            Ok(value) => class_of(classes, value).ok_or(At {
                field: number,
                cause: Cause::Class,
            }),
            Err(fault) => Err(At {
                field: number,
                cause: text_cause(fault),
            }),
        }
    }

    /// Whether no field is left in the line.
    pub fn is_at_end(&self) -> bool
        ensures { result ≡ is_end (left_of self.now).fields }
    {
        self.rest.is_empty() || split_field(self.rest).is_none()
    }

    #[inline(always)]
    #[tactic(auto, unfolding(crate::specs::FieldReader::stretch_part))]
    fn stretch_part(&mut self) -> Result<(i64, Order), At>
        ensures { Gives result (left_of self.new) (stretch_part (left_of self.old)) }
    {
        match after_plus(self.rest) {
            Some(rest) => {
                self.rest = rest;
                self.number += 1;
                self.stretch()
            }
            None => Ok((0, Order::Normal)),
        }
    }

    #[inline(always)]
    #[tactic(auto, unfolding(crate::specs::FieldReader::shrink_part))]
    fn shrink_part(&mut self, cause: Cause) -> Result<i64, At>
        ensures { Gives result (left_of self.new) (shrink_part cause (left_of self.old)) }
    {
        if self.rest.is_empty() {
            return Ok(0);
        }
        match after_minus(self.rest) {
            Some(rest) => {
                self.rest = rest;
                self.number += 1;
                self.dimension()
            }
            None => self.without_shrink(cause),
        }
    }

    // The end of glue without a shrink.
    #[tactic(auto, unfolding(crate::specs::FieldReader::shrink_part))]
    fn without_shrink(&mut self, cause: Cause) -> Result<i64, At>
        requires { next_is_by (codes "minus") (left_of self.old).fields ≡ false }
        ensures { Gives result (left_of self.new) (shrink_part cause (left_of self.old)) }
    {
        if self.is_at_end() {
            return Ok(0);
        }
        let number = self.number;
        let _ = self.next()?;
        Err(At {
            field: number,
            cause,
        })
    }

    /// Glue; any other word in it is a fault with this cause.
    #[inline(always)]
    #[tactic(auto, unfolding(crate::specs::FieldReader::glue_left))]
    pub fn glue(&mut self, cause: Cause) -> Result<Glue, At>
        ensures { Gives result (left_of self.new) (glue_left cause (left_of self.old)) }
    {
        let width = self.dimension()?;
        let (stretch, order) = self.stretch_part()?;
        let shrink = self.shrink_part(cause)?;
        Ok(Glue {
            width,
            stretch,
            order,
            shrink,
        })
    }

    /// The next field as a fraction from 0 to 1, in 65536ths.
    #[tactic(auto, unfolding(crate::specs::FieldReader::fraction_left))]
    pub fn fraction(&mut self) -> Result<i64, At>
        ensures { Gives result (left_of self.new) (fraction_left (left_of self.old)) }
    {
        let number = self.number;
        let field = self.next()?;
        match fraction(field) {
            Ok(value) if 0 <= value && value <= 65536 => Ok(value),
            Ok(_) => Err(At {
                field: number,
                cause: Cause::Parameter,
            }),
            Err(fault) => Err(At {
                field: number,
                cause: text_cause(fault),
            }),
        }
    }

    /// One of two words: whether it is the second.
    #[tactic(auto, unfolding(crate::specs::FieldReader::choice_left))]
    pub fn choice(&mut self, first: &[u8], second: &[u8], cause: Cause) -> Result<bool, At>
        ensures { Gives result (left_of self.new) (choice_left first.now second.now cause (left_of self.old)) }
    {
        let number = self.number;
        let field = self.next()?;
        if field == second {
            Ok(true)
        } else if field == first {
            Ok(false)
        } else {
            Err(At {
                field: number,
                cause,
            })
        }
    }

    /// This word: true, since any other is a fault.
    #[tactic(auto, unfolding(crate::specs::FieldReader::word_left))]
    pub fn word(&mut self, text: &[u8], cause: Cause) -> Result<bool, At>
        ensures { Gives result (left_of self.new) (word_left text.now cause (left_of self.old)) }
    {
        let number = self.number;
        let field = self.next()?;
        if field == text {
            Ok(true)
        } else {
            Err(At {
                field: number,
                cause,
            })
        }
    }

    /// The next field as the version of a galley.
    #[tactic(auto, unfolding(crate::specs::FieldReader::version_left))]
    pub fn version(&mut self) -> Result<u8, At>
        ensures { Gives result (left_of self.new) (version_left (left_of self.old)) }
    {
        let number = self.number;
        let field = self.next()?;
        match version_of(field) {
            Some(version) => Ok(version),
            None => Err(At {
                field: number,
                cause: Cause::NoHeader,
            }),
        }
    }

    /// The next field as the places of a float, and whether it has the mark `!`.
    #[tactic(auto, unfolding(crate::specs::FieldReader::places_left))]
    pub fn places(&mut self) -> Result<(Places, bool), At>
        ensures { Gives result (left_of self.new) (places_left (left_of self.old)) }
    {
        let number = self.number;
        let field = self.next()?;
        if !are_places(field) {
            return Err(At {
                field: number,
                cause: Cause::BadPlace,
            });
        }
        Ok((places_in(field), has_byte(b'!', field)))
    }

    /// The next three fields as a name, a height and a depth, both in scaled points and at least 0.
    #[inline(always)]
    #[tactic(auto, unfolding(crate::specs::FieldReader::sized_left))]
    pub fn sized(&mut self) -> Result<(Name, i64, i64), At>
        ensures { Gives result (left_of self.new) (sized_left (left_of self.old)) }
    {
        let name = self.name()?;
        let height = self.dimension_from(0, Cause::Dimension)?;
        let depth = self.dimension_from(0, Cause::Dimension)?;
        Ok((name, height, depth))
    }

    /// The next field as a name. The bytes of a name are printable, so they are tested once. It is inlined, so that a name is
    /// copied once less.
    #[inline(always)]
    #[tactic(auto, unfolding(crate::specs::FieldReader::name_left))]
    pub fn name(&mut self) -> Result<Name, At>
        ensures { Gives result (left_of self.new) (name_left (left_of self.old)) }
    {
        let number = self.number;
        let Some((field, rest)) = split_field(self.rest) else {
            return Err(self.no_field());
        };
        match name_of(field) {
            Some(name) => {
                self.rest = rest;
                self.number = number + 1;
                Ok(name)
            }
            None => Err(At {
                field: number,
                cause: cause_in(field, Cause::BadName),
            }),
        }
    }
}

/// Why a field is refused: its bytes, or else this cause.
pub(crate) fn cause_in(field: &[u8], cause: Cause) -> Cause
    ensures { result ≡ if list_all is_printable field.now then cause else Cause.NotAscii }
{
    if is_printable(field) {
        cause
    } else {
        Cause::NotAscii
    }
}

// The class of this number, if it is 254 or one of these has it.
fn class_of(classes: &[ClassLine], number: i64) -> Option<u8>
    ensures { result ≡ if is_foot_class (map (λ c. c.number) classes.now) number then Some (nat_abs number) else None }
{
    if number == i64::from(FOOTNOTES) {
        return Some(FOOTNOTES);
    }
    for class in classes {
        if i64::from(class.number) == number {
            return Some(class.number);
        }
    }
    None
}

fn are_places(field: &[u8]) -> bool
    ensures { result ≡ are_places field.now }
{
    are_place_bytes(field) && has_place(field)
}

fn are_place_bytes(field: &[u8]) -> bool
    ensures { result ≡ list_all is_place_byte field.now }
{
    field.iter().all(|b| is_place(*b))
}

fn has_place(field: &[u8]) -> bool
    ensures { result ≡ list_any (λ b. not (b == 33)) field.now }
{
    field.iter().any(|b| *b != b'!')
}

fn is_place(byte: u8) -> bool
    ensures { result ≡ is_place_byte byte }
{
    byte == b'h' || byte == b't' || byte == b'b' || byte == b'p' || byte == b'!'
}

fn has_byte(byte: u8, field: &[u8]) -> bool
    ensures { result ≡ has_byte byte field.now }
{
    field.iter().any(|b| *b == byte)
}

fn places_in(field: &[u8]) -> Places
    ensures { result ≡ places_at field.now }
{
    Places {
        h: has_byte(b'h', field),
        t: has_byte(b't', field),
        b: has_byte(b'b', field),
        p: has_byte(b'p', field),
    }
}
