//! The words of a float that are one of two, read by their bytes.
ghost use Rattle.std.specs.Prelude.{◌≡◌, ◌<◌, ◌∷◌, true, length, codes, IfSome};
ghost use Rattle.tb_galley.specs.FieldReader.{left_of, Gives, choice_left, ends_word};
ghost use Rattle.tb_text.specs.Lines.{fields_of};

use crate::Cause;
use crate::fields::{At, Fields};

impl Fields<'_> {
    /// Whether it is as wide as two columns: `single` or `double`.
    #[inline(always)]
    #[tactic(auto, unfolding(crate::specs::FieldReader::choice_left))]
    pub(crate) fn is_double(&mut self) -> Result<bool, At>
        ensures { Gives result (left_of self.new) (choice_left (codes "single") (codes "double") Cause.UnknownWord (left_of self.old)) }
    {
        if let Some(rest) = past_single(self.rest) {
            self.rest = rest;
            self.number += 1;
            return Ok(false);
        }
        if let Some(rest) = past_double(self.rest) {
            self.rest = rest;
            self.number += 1;
            return Ok(true);
        }
        self.choice(b"single", b"double", Cause::UnknownWord)
    }

    /// Whether it is between paragraphs: `par` or `vert`.
    #[inline(always)]
    #[tactic(auto, unfolding(crate::specs::FieldReader::choice_left))]
    pub(crate) fn is_vert(&mut self) -> Result<bool, At>
        ensures { Gives result (left_of self.new) (choice_left (codes "par") (codes "vert") Cause.UnknownWord (left_of self.old)) }
    {
        if let Some(rest) = past_par(self.rest) {
            self.rest = rest;
            self.number += 1;
            return Ok(false);
        }
        if let Some(rest) = past_vert(self.rest) {
            self.rest = rest;
            self.number += 1;
            return Ok(true);
        }
        self.choice(b"par", b"vert", Cause::UnknownWord)
    }
}

// Whether a word ends before these bytes. A tab says nothing: it is left to the reading of a field.
fn ends_word(rest: &[u8]) -> bool
    ensures { result ≡ ends_word rest.now }
{
    match rest {
        [first, ..] => *first == b' ',
        [] => true,
    }
}

// What follows a space and `single`, if the field ends there; `None` says nothing of other lines.
#[inline(always)]
fn past_single(line: &[u8]) -> Option<&[u8]>
    ensures fields { IfSome result (λ r. fields_of line.now ≡ codes "single" ∷ fields_of r.now) }
    ensures shorter { IfSome result (λ r. length r.now < length line.now) }
{
    match line {
        [b' ', b's', b'i', b'n', b'g', b'l', b'e', rest @ ..] if ends_word(rest) => Some(rest),
        _ => None,
    }
}

// What follows a space and `double`, if the field ends there; `None` says nothing of other lines.
#[inline(always)]
fn past_double(line: &[u8]) -> Option<&[u8]>
    ensures fields { IfSome result (λ r. fields_of line.now ≡ codes "double" ∷ fields_of r.now) }
    ensures shorter { IfSome result (λ r. length r.now < length line.now) }
{
    match line {
        [b' ', b'd', b'o', b'u', b'b', b'l', b'e', rest @ ..] if ends_word(rest) => Some(rest),
        _ => None,
    }
}

// What follows a space and `par`, if the field ends there; `None` says nothing of other lines.
#[inline(always)]
fn past_par(line: &[u8]) -> Option<&[u8]>
    ensures fields { IfSome result (λ r. fields_of line.now ≡ codes "par" ∷ fields_of r.now) }
    ensures shorter { IfSome result (λ r. length r.now < length line.now) }
{
    match line {
        [b' ', b'p', b'a', b'r', rest @ ..] if ends_word(rest) => Some(rest),
        _ => None,
    }
}

// What follows a space and `vert`, if the field ends there; `None` says nothing of other lines.
#[inline(always)]
fn past_vert(line: &[u8]) -> Option<&[u8]>
    ensures fields { IfSome result (λ r. fields_of line.now ≡ codes "vert" ∷ fields_of r.now) }
    ensures shorter { IfSome result (λ r. length r.now < length line.now) }
{
    match line {
        [b' ', b'v', b'e', b'r', b't', rest @ ..] if ends_word(rest) => Some(rest),
        _ => None,
    }
}
