//! The room that a page has for an insertion, and what an insertion takes of it. Each function is one equation.

ghost use Rattle.std.specs.Prelude.{◌≡◌, ◌^◌, ◌+ℤ◌, ◌-ℤ◌, ◌*ℤ◌, int_div, pos, int_le, ◌||◌};
ghost use Rattle.tb_scaled.specs.Scaled.{min_ℤ};
ghost use Rattle.tb_node.specs.SmallAmounts.{IsAmount, IsSmall};
ghost use Rattle.tb_insert.specs.Account.{scaled_by, unscaled_room, clamped};
ghost use Rattle.tb_insert.specs.AccountEntries.{goes_whole, split_height, met_goal, met_height};
ghost use Rattle.tb_insert.specs.WideAmounts.{IsWithin};

use crate::Class;
use tb_node::Sums;
use tb_scaled::MAX_DIMEN;

const LEAST: i128 = -1152921504606846975;

const MOST: i128 = 1152921504606846975;

// A number of 64 bits in 128.
fn wide(v: i64) -> i128
    ensures { result ≡ v }
{
    i128::from(v)
}

/// How much of a height counts against the goal.
pub(crate) fn scaled(factor: i64, v: i64) -> i128
    requires { IsAmount factor }
    ensures value { result ≡ scaled_by factor v }
    ensures wide { IsWithin (2 ^ 114) result }
{
    if factor == 1000 {
        return wide(v);
    }
    product(thousandth(v), factor)
}

// A thousandth, rounded toward zero.
fn thousandth(v: i64) -> i64
    ensures value { result ≡ int_div v (pos 1000) }
    ensures small { IsWithin (2 ^ 54) result }
{
    v / 1000
}

fn product(a: i64, b: i64) -> i128
    requires first { IsWithin (2 ^ 54) a }
    requires second { IsAmount b }
    ensures value { result ≡ a *ℤ b }
    ensures wide { IsWithin (2 ^ 114) result }
{
    wide(a) * wide(b)
}

/// What is left of the page.
pub(crate) fn page_room(goal: i128, s: &Sums) -> i128
    requires goal { IsWithin (2 ^ 115) goal }
    requires sums { IsSmall s.now }
    ensures value { result ≡ (goal -ℤ s.now.total) -ℤ s.now.depth }
    ensures room { IsWithin (2 ^ 116) result }
{
    goal - wide(s.total) - wide(s.depth)
}

/// Whether the charge fits into what is left, and the class stays within its limit.
pub(crate) fn goes_whole(
    charge: i128,
    room: i128,
    shrink: i64,
    height: i64,
    v: i64,
    limit: i64,
) -> bool
    requires room { IsWithin (2 ^ 116) room }
    ensures { result ≡ goes_whole charge room shrink height v limit }
{
    if fits_page(charge, room, shrink) {
        fits_class(height, v, limit)
    } else {
        false
    }
}

fn fits_page(charge: i128, room: i128, shrink: i64) -> bool
    requires room { IsWithin (2 ^ 116) room }
    ensures { result ≡ (int_le charge (pos 0) || int_le charge (room +ℤ shrink)) }
{
    charge <= 0 || charge <= room + wide(shrink)
}

fn fits_class(height: i64, v: i64, limit: i64) -> bool
    ensures { result ≡ int_le (height +ℤ v) limit }
{
    wide(height) + wide(v) <= wide(limit)
}

fn unscaled_room(factor: i64, room: i128) -> i128
    requires { IsWithin (2 ^ 116) room }
    ensures { result ≡ unscaled_room factor room }
{
    if factor <= 0 {
        return wide(MAX_DIMEN);
    }
    if factor == 1000 {
        return room;
    }
    room / wide(factor) * 1000
}

/// The height to which an insertion is split, if the class has this much left.
pub(crate) fn split_height(factor: i64, room: i128, left: i128) -> i64
    requires { IsWithin (2 ^ 116) room }
    ensures value { result ≡ split_height factor room left }
    ensures amount { IsAmount result }
{
    clamped(least_of(unscaled_room(factor, room), left))
}

fn least_of(a: i128, b: i128) -> i128
    ensures { result ≡ min_ℤ a b }
{
    if a <= b { a } else { b }
}

// A split height, cut to a range beyond which it changes no break.
fn clamped(w: i128) -> i64
    ensures value { result ≡ clamped w }
    ensures amount { IsAmount result }
{
    if w > MOST {
        return 1152921504606846975;
    }
    if w < LEAST {
        return -1152921504606846975;
    }
    w as i64
}

/// What is left of a class's limit.
pub(crate) fn left_of(limit: i64, height: i64) -> i128
    ensures { result ≡ limit -ℤ height }
{
    wide(limit) - wide(height)
}

/// The goal with the class's box and skip taken off, unless the class was met before.
pub(crate) fn met_goal(met: bool, goal: i64, class: &Class, size: i64) -> i128
    requires factor { IsAmount class.now.factor }
    ensures value { result ≡ met_goal met goal class.now size }
    ensures room { IsWithin (2 ^ 115) result }
{
    if met {
        return wide(goal);
    }
    fall(goal, scaled(class.factor, size), class.skip.width)
}

fn fall(goal: i64, a: i128, b: i64) -> i128
    requires { IsWithin (2 ^ 114) a }
    ensures value { result ≡ goal -ℤ (a +ℤ b) }
    ensures room { IsWithin (2 ^ 115) result }
{
    wide(goal) - (a + wide(b))
}

/// The height of a class: that of its box until the class is met.
pub(crate) fn met_height(met: bool, height: i64, size: i64) -> i64
    ensures { result ≡ met_height met height size }
{
    if met { height } else { size }
}

/// The goal less what an insertion takes.
pub(crate) fn less_of(a: i128, b: i128) -> i64
    requires a { IsWithin (2 ^ 115) a }
    requires b { IsWithin (2 ^ 114) b }
    requires fits { IsAmount (a -ℤ b) }
    ensures { result ≡ a -ℤ b }
{
    (a - b) as i64
}
