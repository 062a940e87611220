//! Lines of the most frequent kinds, read by their first bytes. `None` or `false` says nothing of a line: it is then read by
//! its word.
ghost use Rattle.std.specs.Prelude.{◌≡◌, ◌≤◌, ◌∷◌, negsuc, pos, true, codes, length, IfSome, Ok};
ghost use Rattle.tb_text.specs.Lines.{begins_with, fields_of, is_skipped};
ghost use Rattle.tb_galley.specs.FieldReader.{left_of, finished, dimension_left, range_left, glue_left, sized_left, float_left, margin_left, foot_left, set_left};
ghost use Rattle.tb_galley.specs.declared.contents.Content.TheVariants.{Set};
ghost use Rattle.tb_galley.specs.GalleyReader.{known_in, takes_leaf, takes_item, takes_setting, past_word, bare_item, phase_behind, IsBoxLine, IsLineOf, IsBareItem};

use crate::contents::{float, foot, margin};
use crate::draft::Draft;
use crate::fields::Fields;
use crate::glue_words::begins_with_space;
use crate::settings::setting;
use crate::words::{MAX_ITEMS, Phase};
use crate::{Cause, ItemKind, Word};
use tb_node::{Float, Margin, Name};
use tb_param::{Field, Value};
use tb_scaled::Glue;

/// Whether what may be in a footnote may come here, and leaves the phase as it is.
pub(crate) fn takes_leaf(phase: Phase, count: u32) -> bool
    ensures { result ≡ takes_leaf phase count }
{
    match phase {
        Phase::Items | Phase::Inside => count < MAX_ITEMS,
        _ => false,
    }
}

/// Whether an item of one line that needs no other before it may come here, outside a footnote.
pub(crate) fn takes_item(phase: Phase, count: u32) -> bool
    ensures { result ≡ takes_item phase count }
{
    match phase {
        Phase::Items | Phase::AfterClear | Phase::AfterTwo => count < MAX_ITEMS,
        _ => false,
    }
}

/// Whether a line of `set` may come here before the items. After them it is looked at with more care.
pub(crate) fn takes_setting(phase: Phase, count: u32) -> bool
    ensures { result ≡ takes_setting phase count }
{
    match phase {
        Phase::Sets => count < MAX_ITEMS,
        _ => false,
    }
}

// The fields of a line after a word that is no header.
#[inline(always)]
fn fields_after(rest: &[u8]) -> Fields<'_>
    requires { length rest.now ≤ 255 }
    ensures { left_of result ≡ past_word rest.now }
{
    Fields {
        rest,
        number: 2,
        missing: Cause::MissingField,
    }
}

// What follows `box` and a space.
fn after_box(line: &[u8]) -> Option<&[u8]>
    ensures { IfSome result (λ r. line.now ≡ 98 ∷ 111 ∷ 120 ∷ 32 ∷ r.now) }
{
    match line {
        [b'b', b'o', b'x', b' ', rest @ ..] => Some(rest),
        _ => None,
    }
}

// What follows `glue`, which is a space and more.
fn after_glue(line: &[u8]) -> Option<&[u8]>
    ensures { IfSome result (λ r. (line.now ≡ 103 ∷ 108 ∷ 117 ∷ 101 ∷ r.now) × (begins_with 32 r.now ≡ true)) }
{
    match line {
        [b'g', b'l', b'u', b'e', rest @ ..] if begins_with_space(rest) => Some(rest),
        _ => None,
    }
}

// What follows `kern`, which is a space and more.
fn after_kern(line: &[u8]) -> Option<&[u8]>
    ensures { IfSome result (λ r. (line.now ≡ 107 ∷ 101 ∷ 114 ∷ 110 ∷ r.now) × (begins_with 32 r.now ≡ true)) }
{
    match line {
        [b'k', b'e', b'r', b'n', rest @ ..] if begins_with_space(rest) => Some(rest),
        _ => None,
    }
}

// What follows `penalty`, which is a space and more.
fn after_penalty(line: &[u8]) -> Option<&[u8]>
    ensures { IfSome result (λ r. (line.now ≡ 112 ∷ 101 ∷ 110 ∷ 97 ∷ 108 ∷ 116 ∷ 121 ∷ r.now) × (begins_with 32 r.now ≡ true)) }
{
    match line {
        [b'p', b'e', b'n', b'a', b'l', b't', b'y', rest @ ..] if begins_with_space(rest) => Some(
            rest,
        ),
        _ => None,
    }
}

// What follows `float`, which is a space and more.
fn after_float(line: &[u8]) -> Option<&[u8]>
    ensures { IfSome result (λ r. (line.now ≡ 102 ∷ 108 ∷ 111 ∷ 97 ∷ 116 ∷ r.now) × (begins_with 32 r.now ≡ true)) }
{
    match line {
        [b'f', b'l', b'o', b'a', b't', rest @ ..] if begins_with_space(rest) => Some(rest),
        _ => None,
    }
}

// What follows `margin`, which is a space and more.
fn after_margin(line: &[u8]) -> Option<&[u8]>
    ensures { IfSome result (λ r. (line.now ≡ 109 ∷ 97 ∷ 114 ∷ 103 ∷ 105 ∷ 110 ∷ r.now) × (begins_with 32 r.now ≡ true)) }
{
    match line {
        [b'm', b'a', b'r', b'g', b'i', b'n', rest @ ..] if begins_with_space(rest) => Some(rest),
        _ => None,
    }
}

// What follows `foot`, which is a space and more.
fn after_foot(line: &[u8]) -> Option<&[u8]>
    ensures { IfSome result (λ r. (line.now ≡ 102 ∷ 111 ∷ 111 ∷ 116 ∷ r.now) × (begins_with 32 r.now ≡ true)) }
{
    match line {
        [b'f', b'o', b'o', b't', rest @ ..] if begins_with_space(rest) => Some(rest),
        _ => None,
    }
}

// What follows `set`, which is a space and more.
fn after_set(line: &[u8]) -> Option<&[u8]>
    ensures { IfSome result (λ r. (line.now ≡ 115 ∷ 101 ∷ 116 ∷ r.now) × (begins_with 32 r.now ≡ true)) }
{
    match line {
        [b's', b'e', b't', rest @ ..] if begins_with_space(rest) => Some(rest),
        _ => None,
    }
}

/// The amounts of a box, if that is what the line says.
#[inline(always)]
pub(crate) fn read_box(line: &[u8]) -> Option<(Name, i64, i64)>
    requires { length line.now ≤ 255 }
    ensures { IfSome result (λ b. IsBoxLine line.now b) }
{
    let mut fields = fields_after(after_box(line)?);
    match fields.sized() {
        Ok(read) if fields.is_at_end() => Some(read),
        _ => None,
    }
}

/// Glue, if that is what the line says.
#[inline(always)]
pub(crate) fn read_glue(line: &[u8]) -> Option<Glue>
    requires { length line.now ≤ 255 }
    ensures { IfSome result (λ g. IsLineOf (codes "glue") (glue_left Cause.UnknownWord) line.now g) }
{
    let mut fields = fields_after(after_glue(line)?);
    match fields.glue(Cause::UnknownWord) {
        Ok(glue) if fields.is_at_end() => Some(glue),
        _ => None,
    }
}

/// The width of a kern, if that is what the line says.
#[inline(always)]
pub(crate) fn read_kern(line: &[u8]) -> Option<i64>
    requires { length line.now ≤ 255 }
    ensures { IfSome result (λ w. IsLineOf (codes "kern") dimension_left line.now w) }
{
    lone_dimension(after_kern(line)?)
}

// The dimension that is all that follows a word. It is kept out of the way of other lines, as those below are.
#[inline(never)]
fn lone_dimension(rest: &[u8]) -> Option<i64>
    requires { length rest.now ≤ 255 }
    ensures { IfSome result (λ w. finished (dimension_left (past_word rest.now)) ≡ Ok w) }
{
    let mut fields = fields_after(rest);
    match fields.dimension() {
        Ok(width) if fields.is_at_end() => Some(width),
        _ => None,
    }
}

/// A penalty, if that is what the line says.
#[inline(always)]
pub(crate) fn read_penalty(line: &[u8]) -> Option<i64>
    requires { length line.now ≤ 255 }
    ensures { IfSome result (λ p. IsLineOf (codes "penalty") (range_left (negsuc 9999) (pos 10000) Cause.Penalty) line.now p) }
{
    lone_penalty(after_penalty(line)?)
}

#[inline(never)]
fn lone_penalty(rest: &[u8]) -> Option<i64>
    requires { length rest.now ≤ 255 }
    ensures { IfSome result (λ p. finished (range_left (negsuc 9999) (pos 10000) Cause.Penalty (past_word rest.now)) ≡ Ok p) }
{
    let mut fields = fields_after(rest);
    match fields.integer_within(-10_000, 10_000, Cause::Penalty) {
        Ok(penalty) if fields.is_at_end() => Some(penalty),
        _ => None,
    }
}

/// A float and whether it is between paragraphs, if that is what the line of this number says.
#[inline(always)]
pub(crate) fn read_float(version: u8, number: u32, line: &[u8]) -> Option<(Float, bool)>
    requires { length line.now ≤ 255 }
    ensures { IfSome result (λ f. IsLineOf (codes "float") (float_left version number) line.now f) }
{
    lone_float(version, number, after_float(line)?)
}

#[inline(never)]
fn lone_float(version: u8, number: u32, rest: &[u8]) -> Option<(Float, bool)>
    requires { length rest.now ≤ 255 }
    ensures { IfSome result (λ f. finished (float_left version number (past_word rest.now)) ≡ Ok f) }
{
    let mut fields = fields_after(rest);
    match float(version, number, &mut fields) {
        Ok(read) if fields.is_at_end() => Some(read),
        _ => None,
    }
}

/// A marginal note and whether it is between paragraphs, if that is what the line of this number says.
#[inline(always)]
pub(crate) fn read_margin(version: u8, number: u32, line: &[u8]) -> Option<(Margin, bool)>
    requires { length line.now ≤ 255 }
    ensures { IfSome result (λ m. IsLineOf (codes "margin") (margin_left version number) line.now m) }
{
    lone_margin(version, number, after_margin(line)?)
}

#[inline(never)]
fn lone_margin(version: u8, number: u32, rest: &[u8]) -> Option<(Margin, bool)>
    requires { length rest.now ≤ 255 }
    ensures { IfSome result (λ m. finished (margin_left version number (past_word rest.now)) ≡ Ok m) }
{
    let mut fields = fields_after(rest);
    match margin(version, number, &mut fields) {
        Ok(read) if fields.is_at_end() => Some(read),
        _ => None,
    }
}

/// The class of a footnote, if that is what the line says.
#[inline(always)]
pub(crate) fn read_foot(draft: &Draft, line: &[u8]) -> Option<u8>
    requires { length line.now ≤ 255 }
    ensures { IfSome result (λ c. IsLineOf (codes "foot") (foot_left (known_in draft.now)) line.now c) }
{
    lone_foot(draft, after_foot(line)?)
}

#[inline(never)]
fn lone_foot(draft: &Draft, rest: &[u8]) -> Option<u8>
    requires { length rest.now ≤ 255 }
    ensures { IfSome result (λ c. finished (foot_left (known_in draft.now) (past_word rest.now)) ≡ Ok c) }
{
    let mut fields = fields_after(rest);
    match foot(draft, &mut fields) {
        Ok(class) if fields.is_at_end() => Some(class),
        _ => None,
    }
}

/// A parameter and its value, if that is what the line says.
#[inline(always)]
pub(crate) fn read_setting(version: u8, line: &[u8]) -> Option<(Field, Value)>
    requires { length line.now ≤ 255 }
    ensures { IfSome result (λ r. IsLineOf (codes "set") (set_left version) line.now (Set r.0 r.1)) }
{
    lone_setting(version, after_set(line)?)
}

#[inline(never)]
fn lone_setting(version: u8, rest: &[u8]) -> Option<(Field, Value)>
    requires { length rest.now ≤ 255 }
    ensures { IfSome result (λ r. finished (set_left version (past_word rest.now)) ≡ Ok (Set r.0 r.1)) }
{
    let mut fields = fields_after(rest);
    match setting(version, &mut fields) {
        Ok(read) if fields.is_at_end() => Some(read),
        _ => None,
    }
}

/// The word of an item of one word, if it may come here and the word is all that the line says.
#[inline(always)]
pub(crate) fn read_bare_word(phase: Phase, line: &[u8]) -> Option<Word>
    ensures phase { IfSome result (λ w. phase ≡ Phase.Items) }
    ensures line { IfSome result (λ w. IsBareItem line.now (bare_item w)) }
{
    let Phase::Items = phase else {
        return None;
    };
    if line == b"newpage".as_slice() {
        Some(Word::Newpage)
    } else if line == b"clearpage".as_slice() {
        Some(Word::Clearpage)
    } else if line == b"onecolumn".as_slice() {
        Some(Word::Onecolumn)
    } else if line == b"twocolumn".as_slice() {
        Some(Word::Twocolumn)
    } else if line == b"suppressfloats".as_slice() {
        Some(Word::Suppressfloats)
    } else {
        None
    }
}

/// The phase after an item of one word or a float, outside a footnote.
pub(crate) fn phase_behind(kind: &ItemKind) -> Phase
    ensures { result ≡ phase_behind kind.now }
{
    match kind {
        ItemKind::ClearPage | ItemKind::OneColumn => Phase::AfterClear,
        ItemKind::TwoColumn => Phase::AfterTwo,
        _ => Phase::Items,
    }
}

/// Whether a line is `foot` alone and begins a footnote.
pub(crate) fn begins_foot(phase: Phase, line: &[u8]) -> bool
    ensures { result ≡ true → (phase ≡ Phase.Items) × (line.now ≡ codes "foot") }
{
    matches!(phase, Phase::Items) && line == b"foot".as_slice()
}

/// Whether a line is `endfoot` alone and ends a footnote.
pub(crate) fn ends_foot(phase: Phase, line: &[u8]) -> bool
    ensures { result ≡ true → (phase ≡ Phase.Inside) × (line.now ≡ codes "endfoot") }
{
    matches!(phase, Phase::Inside) && line == b"endfoot".as_slice()
}

/// Whether a line is empty or begins with `#`, so that it says nothing.
pub(crate) fn says_nothing(line: &[u8]) -> bool
    ensures { result ≡ true → is_skipped (fields_of line.now) ≡ true }
{
    match line {
        [] => true,
        [first, ..] => *first == b'#',
    }
}
