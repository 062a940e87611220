//! Arithmetic on dimensions in scaled points (65536 to a point), glue and badness.
#![tactic(auto)]

ghost use Rattle.std.specs.Prelude.{◌≡◌, ◌<◌, ◌≤◌, ◌≤ℤ◌, ◌<ℤ◌, ◌+ℤ◌, ◌-ℤ◌, neg_ℤ, pos, length, slice_index, EachIndex, int_div, FitsSigned};
ghost use Rattle.std.specs.Int.{w64};
ghost use Rattle.tb_scaled.specs.Amount.{IsAmount};
ghost use Rattle.tb_scaled.specs.Scaled.{badness_of, cubed_ratio, rounded_decimals, fraction_of};
ghost use Rattle.tb_scaled.specs.Glue.{filling_glue, fixed_glue, negated_glue};

/// The greatest dimension, in scaled points: 2^30 - 1 (TeX: The Program §421).
pub const MAX_DIMEN: i64 = 1_073_741_823;

/// The cost of a break at which the page is overfull: no page is worse (TeX: The Program §833).
pub const AWFUL_BAD: i64 = 1_073_741_823;

/// The badness of glue that cannot stretch far enough (TeX: The Program §108).
pub const INF_BAD: i64 = 10_000;

/// A penalty of at least this forbids a break (TeX: The Program §157).
pub const INF_PENALTY: i64 = 10_000;

/// A penalty of at most this forces a break (TeX: The Program §157).
pub const EJECT_PENALTY: i64 = -10_000;

/// The cost of a break that leaves the page hopelessly underfull (TeX: The Program §974).
pub const DEPLORABLE: i64 = 100_000;

/// The orders of infinity of stretch (TeX: The Program §150).
#[derive(Clone, Copy, Debug, PartialEq, Eq)]
pub enum Order {
    /// Finite.
    Normal,
    /// Stretches before any finite stretch.
    Fil,
    /// Stretches before any `Fil`.
    Fill,
    /// Stretches before any `Fill`.
    Filll,
}

/// Glue (TeX: The Program §150). All amounts are in scaled points; shrink is always finite.
#[derive(Clone, Copy, Debug, PartialEq, Eq)]
pub struct Glue {
    /// Its natural width.
    pub width: i64,
    /// Its stretch, of one order.
    pub stretch: i64,
    /// The order of its stretch.
    pub order: Order,
    /// Its shrink.
    pub shrink: i64,
}

/// Glue that fills the rest of a page: of width 0, with the stretch 1fil (LaTeX, \vfil).
pub fn filling_glue() -> Glue
    ensures { result ≡ filling_glue }
{
    Glue {
        width: 0,
        stretch: 65_536,
        order: Order::Fil,
        shrink: 0,
    }
}

/// Glue of a width, in sp, that neither stretches nor shrinks.
pub fn fixed(width: i64) -> Glue
    ensures { result ≡ fixed_glue width }
{
    Glue {
        width,
        stretch: 0,
        order: Order::Normal,
        shrink: 0,
    }
}

/// The glue with its width, stretch and shrink negated; the order is kept.
pub fn negate(g: Glue) -> Glue
    requires width { IsAmount g.width }
    requires stretch { IsAmount g.stretch }
    requires shrink { IsAmount g.shrink }
    ensures { result ≡ negated_glue g }
{
    Glue {
        width: negated(g.width),
        stretch: negated(g.stretch),
        order: g.order,
        shrink: negated(g.shrink),
    }
}

fn negated(amount: i64) -> i64
    requires { IsAmount amount }
    ensures { result ≡ neg_ℤ amount }
{
    -amount
}

/// The sum of two sizes, in sp, if it fits 64 bits.
#[inline]
pub fn sum(a: i64, b: i64) -> i64
    requires { FitsSigned w64 (a +ℤ b) }
    ensures { result ≡ a +ℤ b }
{
    a + b
}

/// The first of two sizes less the second, in sp, if that fits 64 bits.
#[inline]
pub fn difference(a: i64, b: i64) -> i64
    requires { FitsSigned w64 (a -ℤ b) }
    ensures { result ≡ a -ℤ b }
{
    a - b
}

/// The badness of setting glue with a total `s` of stretch or shrink to the amount `t`, both in scaled points: about 100
/// times the cube of `t / s`, and at most 10000 (TeX: The Program §108).
#[tactic(auto, unfolding(crate::specs::Scaled::badness_of))]
pub fn badness(t: i64, s: i64) -> i64
    requires { pos 0 ≤ℤ t }
    ensures value { result ≡ badness_of t s }
    ensures low { pos 0 ≤ℤ result }
    ensures high { result ≤ℤ pos 10000 }
{
    if t <= 0 {
        return 0;
    }
    if s <= 0 {
        return INF_BAD;
    }
    let ratio = if t <= 7230584 {
        t * 297 / s
    } else if s >= 1663497 {
        t / (s / 297)
    } else {
        t
    };
    cubed(ratio)
}

// About 100 times the cube of a ratio.
fn cubed(ratio: i64) -> i64
    requires { pos 0 ≤ℤ ratio }
    ensures value { result ≡ cubed_ratio ratio }
    ensures low { pos 0 ≤ℤ result }
    ensures high { result ≤ℤ pos 10000 }
{
    if ratio > 1290 {
        return INF_BAD;
    }
    let square = ratio * ratio;
    let cube = square * ratio;
    (cube + 131072) / 262144
}

/// The decimal fraction with these digits (each 0 to 9) after the point, rounded to 65536ths (TeX: The Program §102).
pub fn round_decimals(digits: &[u8]) -> i64
    requires few { length digits.now ≤ 17 }
    requires values { EachIndex digits.now (λ k. slice_index digits.now k < 10) }
    ensures value { result ≡ rounded_decimals digits.now }
    ensures low { pos 0 ≤ℤ result }
    ensures high { result ≤ℤ pos 65536 }
{
    let mut doubled: u32 = 0;
    for k in (0..digits.len()).rev() {
        doubled = (doubled + u32::from(digits[k]) * 131_072) / 10;
    }
    i64::from((doubled + 1) / 2)
}

/// The quotient of a dimension by a number, truncated toward zero (TeX: The Program §106).
pub fn x_over_n(x: i64, n: i64) -> i64
    requires { pos 0 <ℤ n }
    ensures { result ≡ int_div x n }
{
    x / n
}

/// The share `f / 65536` of a dimension, truncated toward zero.
pub fn frac(f: i64, v: i64) -> i64
    requires low { pos 0 ≤ℤ f }
    requires high { f ≤ℤ pos 65536 }
    requires above { neg_ℤ (pos 70368744177664) <ℤ v }
    requires below { v <ℤ pos 70368744177664 }
    ensures { result ≡ fraction_of f v }
{
    v * f / 65536
}
