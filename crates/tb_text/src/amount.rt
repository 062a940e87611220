//! The first field of a line as an amount, read as it is split off.
ghost use Rattle.std.specs.Prelude.{◌≡◌, ◌≤◌, ◌==◌, ◌∷◌, List, ℕ, pos, length, IfSome};
ghost use Rattle.std.specs.List.{prefix_len};
ghost use Rattle.tb_text.specs.Lines.{is_mark, fields_of};
ghost use Rattle.tb_text.specs.Parts.{IsFirstNumber, IsFirstAmount};

use crate::line::{is_blank, past_blanks};
use crate::number::{front_number, is_digit};

// The greatest whole number of points that is no greater than the greatest dimension.
const MAX_POINTS: u32 = 16_383;

/// The first field of a line as an amount in scaled points, and what follows it, if the field is a few digits alone or
/// with `pt` behind, as most amounts are; `None` says nothing of other lines. It is inlined, so that one digit with `pt`
/// costs no call.
#[inline(always)]
pub fn split_amount(line: &[u8]) -> Option<(i64, &[u8])>
    ensures { IfSome result (λ r. IsFirstAmount line.now r.0 r.1.now) }
{
    match digit_points(line) {
        Some((amount, rest)) => Some((i64::from(amount), rest)),
        None => split_digits_amount(line),
    }
}

// The same of one digit with `pt` behind and a space before it.
#[inline(always)]
fn digit_points(line: &[u8]) -> Option<(u32, &[u8])>
    ensures { IfSome result (λ r. IsFirstAmount line.now (pos r.0) r.1.now) }
{
    match byte_of_points(line) {
        Some((byte, rest)) if is_digit(byte) && ends_field(rest) => {
            Some((u32::from(byte - b'0') * 65_536, rest))
        }
        _ => None,
    }
}

// What comes between a space and `pt`, if it is one byte, and what follows them.
#[inline(always)]
fn byte_of_points(line: &[u8]) -> Option<(u8, &[u8])>
    ensures { IfSome result (λ r. line.now ≡ 32 ∷ r.0 ∷ 112 ∷ 116 ∷ r.1.now) }
{
    match line {
        [b' ', byte, b'p', b't', rest @ ..] => Some((*byte, rest)),
        _ => None,
    }
}

// The same of any number of digits.
#[inline(never)]
fn split_digits_amount(line: &[u8]) -> Option<(i64, &[u8])>
    ensures { IfSome result (λ r. IsFirstAmount line.now r.0 r.1.now) }
{
    let (number, rest) = first_number(line)?;
    let (amount, rest) = amount_before(number, rest)?;
    Some((i64::from(amount), rest))
}

// The number of a few digits with which the first field begins, and what follows it. Most fields begin after one space, so
// that is tried first.
#[inline(always)]
fn first_number(line: &[u8]) -> Option<(u32, &[u8])>
    ensures { IfSome result (λ r. IsFirstNumber line.now r.0 r.1.now) }
{
    match near_number(line) {
        Some(near) => Some(near),
        None => far_number(line),
    }
}

// The same after one space; `None` says nothing of other lines.
#[inline(always)]
fn near_number(line: &[u8]) -> Option<(u32, &[u8])>
    ensures { IfSome result (λ r. IsFirstNumber line.now r.0 r.1.now) }
{
    let text = after_space(line)?;
    let (number, rest) = front_number(text)?;
    Some((number, rest))
}

// The same after any number of blanks.
#[inline(always)]
fn far_number(line: &[u8]) -> Option<(u32, &[u8])>
    ensures { IfSome result (λ r. IsFirstNumber line.now r.0 r.1.now) }
{
    let text = past_blanks(line);
    let (number, rest) = front_number(text)?;
    Some((number, rest))
}

// What follows a space.
fn after_space(line: &[u8]) -> Option<&[u8]>
    ensures fields { IfSome result (λ r. fields_of r.now ≡ fields_of line.now) }
    ensures shorter { IfSome result (λ r. length r.now ≤ length line.now) }
{
    match line {
        [b' ', rest @ ..] => Some(rest),
        _ => None,
    }
}

// The amount of a number and of what follows its digits.
fn amount_before(number: u32, rest: &[u8]) -> Option<(u32, &[u8])>
    ensures { (line : List ℕ) → IsFirstNumber line number rest.now → IfSome result (λ r. IsFirstAmount line (pos r.0) r.1.now) }
{
    if ends_field(rest) {
        return Some((number, rest));
    }
    match after_points(rest) {
        Some(after) if number <= MAX_POINTS => Some((number * 65_536, after)),
        _ => None,
    }
}

// Whether a field ends before these bytes.
fn ends_field(rest: &[u8]) -> bool
    ensures { result ≡ (prefix_len is_mark rest.now == 0) }
{
    match rest {
        [first, ..] => is_blank(*first),
        [] => true,
    }
}

// What follows `pt`, if a field ends with it.
fn after_points(rest: &[u8]) -> Option<&[u8]>
    ensures { IfSome result (λ r. (rest.now ≡ 112 ∷ 116 ∷ r.now) × (prefix_len is_mark r.now ≡ 0)) }
{
    match rest {
        [b'p', b't', after @ ..] if ends_field(after) => Some(after),
        _ => None,
    }
}
