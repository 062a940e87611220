//! The words of glue and of rules: what follows them in a line.
ghost use Rattle.std.specs.Prelude.{◌≡◌, ◌<◌, ◌≤◌, ◌∷◌, true, false, length, codes, IfSome, MatchOption};
ghost use Rattle.tb_galley.specs.FieldReader.{next_is_by};
ghost use Rattle.tb_text.specs.Lines.{begins_with, fields_of};

use tb_text::split_field;

/// What follows the first field of a line, if that is `plus`.
#[inline(always)]
pub(crate) fn after_plus(line: &[u8]) -> Option<&[u8]>
    ensures fields { MatchOption result (next_is_by (codes "plus") (fields_of line.now) ≡ false) (λ r. fields_of line.now ≡ codes "plus" ∷ fields_of r.now) }
    ensures shorter { MatchOption result (0 ≤ length line.now) (λ r. length r.now < length line.now) }
{
    match near_plus(line) {
        Some(rest) => Some(rest),
        None => after_word(b"plus", line),
    }
}

// The same between two spaces; `None` says nothing of other lines.
#[inline(always)]
fn near_plus(line: &[u8]) -> Option<&[u8]>
    ensures { IfSome result (λ r. (line.now ≡ 32 ∷ 112 ∷ 108 ∷ 117 ∷ 115 ∷ r.now) × (begins_with 32 r.now ≡ true)) }
{
    match line {
        [b' ', b'p', b'l', b'u', b's', rest @ ..] if begins_with_space(rest) => Some(rest),
        _ => None,
    }
}

/// What follows the first field of a line, if that is `minus`.
#[inline(always)]
pub(crate) fn after_minus(line: &[u8]) -> Option<&[u8]>
    ensures fields { MatchOption result (next_is_by (codes "minus") (fields_of line.now) ≡ false) (λ r. fields_of line.now ≡ codes "minus" ∷ fields_of r.now) }
    ensures shorter { MatchOption result (0 ≤ length line.now) (λ r. length r.now < length line.now) }
{
    match near_minus(line) {
        Some(rest) => Some(rest),
        None => after_word(b"minus", line),
    }
}

// The same between two spaces; `None` says nothing of other lines.
#[inline(always)]
fn near_minus(line: &[u8]) -> Option<&[u8]>
    ensures { IfSome result (λ r. (line.now ≡ 32 ∷ 109 ∷ 105 ∷ 110 ∷ 117 ∷ 115 ∷ r.now) × (begins_with 32 r.now ≡ true)) }
{
    match line {
        [b' ', b'm', b'i', b'n', b'u', b's', rest @ ..] if begins_with_space(rest) => Some(rest),
        _ => None,
    }
}

/// What follows the first field of a line, if that is `none`.
pub(crate) fn after_none(line: &[u8]) -> Option<&[u8]>
    ensures fields { MatchOption result (next_is_by (codes "none") (fields_of line.now) ≡ false) (λ r. fields_of line.now ≡ codes "none" ∷ fields_of r.now) }
    ensures shorter { MatchOption result (0 ≤ length line.now) (λ r. length r.now < length line.now) }
{
    after_word(b"none", line)
}

/// What follows the first field of a line, if that is `below`.
pub(crate) fn after_below(line: &[u8]) -> Option<&[u8]>
    ensures fields { MatchOption result (next_is_by (codes "below") (fields_of line.now) ≡ false) (λ r. fields_of line.now ≡ codes "below" ∷ fields_of r.now) }
    ensures shorter { MatchOption result (0 ≤ length line.now) (λ r. length r.now < length line.now) }
{
    after_word(b"below", line)
}

/// Whether a line begins with a space.
pub(crate) fn begins_with_space(line: &[u8]) -> bool
    ensures { result ≡ begins_with 32 line.now }
{
    match line {
        [first, ..] => *first == b' ',
        [] => false,
    }
}

// What follows the first field of a line, if that is this word.
#[inline(never)]
fn after_word<'a>(word: &[u8], line: &'a [u8]) -> Option<&'a [u8]>
    ensures fields { MatchOption result (next_is_by word.now (fields_of line.now) ≡ false) (λ r. fields_of line.now ≡ word.now ∷ fields_of r.now) }
    ensures shorter { MatchOption result (0 ≤ length line.now) (λ r. length r.now < length line.now) }
{
    match split_field(line) {
        Some((field, rest)) if field == word => Some(rest),
        _ => None,
    }
}
