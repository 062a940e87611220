//! What a text column costs, from the place at which its page broke.

ghost use Rattle.std.specs.Prelude.{◌≡◌, ◌≤◌, ◌+◌, ◌*◌, ◌+ℤ◌, ◌*ℤ◌, ◌<ℤ◌, ◌≤ℤ◌, pos, negsuc, IfSome, Option};
ghost use Rattle.std.specs.List.{AllByRecursion};
ghost use Rattle.tb_scaled.specs.Scaled.{badness_of, cubed_ratio};
ghost use Rattle.tb_break.specs.Cost.{finite_stretch, stretches_infinitely};
ghost use Rattle.tb_builder.specs.declared.Try.{Try};
ghost use Rattle.tb_rate.specs.Places.{IsMildPlace};
ghost use Rattle.tb_rate.specs.Rating.{missing, is_ragged, ragged_badness, rated_badness, rated_penalty, within_dimen, points_left, square, base, with_penalty, rated, rating, IsTried};

use crate::places::own_penalty;
use crate::{PlacePenalty, Rating};
use tb_builder::Try;
use tb_node::Sums;
use tb_param::{Choice, Params};
use tb_scaled::{AWFUL_BAD, EJECT_PENALTY, INF_BAD, MAX_DIMEN};

// The demerits of an overfull column.
const OVERFULL: i128 = 1_000_000_000;

// The demerits of a column that is past all badness, before those of its points that are left.
const HOPELESS: i128 = 100_000_000;

// The demerits of each float that waits after a column, and of each insertion that it had no room for.
const LEFT_OVER: u64 = 10_000;

// How much of the goal is left at a place, in sp.
fn missing(t: &Try) -> i128
    ensures { result ≡ missing t.now }
{
    i128::from(t.goal) - i128::from(t.sums.total)
}

// ---- the badness

// An amount that fits 64 bits.
fn narrow(v: i128) -> i64
    requires low { pos 0 ≤ℤ v }
    requires high { v ≤ℤ pos 1073741823 }
    ensures { result ≡ v }
{
    v as i64
}

// The same of a ratio of at most 1290.
fn cube(ratio: i64) -> i64
    requires low { pos 0 ≤ℤ ratio }
    requires high { ratio ≤ℤ pos 1290 }
    ensures value { result ≡ cubed_ratio ratio }
    ensures low { pos 0 ≤ℤ result }
    ensures high { result ≤ℤ pos 10000 }
{
    let square = ratio * ratio;
    let cube = square * ratio;
    (cube + 131072) / 262144
}

// About 100 times the cube of a ratio, as in `tb_scaled`.
fn cubed(ratio: i128) -> i64
    requires { pos 0 ≤ℤ ratio }
    ensures value { result ≡ cubed_ratio ratio }
    ensures low { pos 0 ≤ℤ result }
    ensures high { result ≤ℤ pos 10000 }
{
    if ratio > 1290 {
        return INF_BAD;
    }
    cube(narrow(ratio))
}

// The badness of setting a total `s` of stretch to the amount `t`, as in `tb_scaled`, but of amounts that may not fit 64 bits.
#[tactic(auto, unfolding(tb_scaled::specs::Scaled::badness_of))]
fn wide_badness(t: i128, s: i128) -> i64
    ensures value { result ≡ badness_of t s }
    ensures low { pos 0 ≤ℤ result }
    ensures high { result ≤ℤ pos 10000 }
{
    if t <= 0 {
        return 0;
    }
    if s <= 0 {
        return INF_BAD;
    }
    let ratio = if t <= 7230584 {
        t * 297 / s
    } else if s >= 1663497 {
        t / (s / 297)
    } else {
        t
    };
    cubed(ratio)
}

fn is_ragged(bottom: Choice) -> bool
    ensures { result ≡ is_ragged bottom }
{
    match bottom {
        Choice::Ragged => true,
        _ => false,
    }
}

// Whether some stretch of a higher order is not 0.
fn stretches_infinitely(s: &Sums) -> bool
    ensures { result ≡ stretches_infinitely s.now.stretch }
{
    let [_, fil, fill, filll] = s.stretch;
    fil != 0 || fill != 0 || filll != 0
}

// The finite stretch with the line skip, in sp.
fn ragged_stretch(s: &Sums, baselineskip: i64) -> i128
    ensures { result ≡ finite_stretch s.now.stretch +ℤ baselineskip }
{
    let [normal, _, _, _] = s.stretch;
    i128::from(normal) + i128::from(baselineskip)
}

// The badness of a ragged column that is too short.
fn ragged_badness(p: &Params, t: &Try) -> i64
    ensures value { result ≡ ragged_badness p.now t.now }
    ensures low { pos 0 ≤ℤ result }
{
    if stretches_infinitely(&t.sums) {
        return 0;
    }
    wide_badness(missing(t), ragged_stretch(&t.sums, p.baselineskip))
}

// The badness of a column.
fn rated_badness(p: &Params, t: &Try) -> i64
    requires { IsTried t.now }
    ensures value { result ≡ rated_badness p.now t.now }
    ensures low { pos 0 ≤ℤ result }
{
    if is_ragged(p.bottom) && missing(t) > 0 {
        ragged_badness(p, t)
    } else {
        t.badness
    }
}

// ---- the penalty

// The penalty of the place, or the galley's own penalty there if the break was forced.
fn rated_penalty(places: &[PlacePenalty], t: &Try) -> i64
    requires tried { IsTried t.now }
    requires mild { AllByRecursion IsMildPlace places.now }
    ensures value { result ≡ rated_penalty places.now t.now }
    ensures low { negsuc 9999 <ℤ result }
    ensures high { result <ℤ pos 10000 }
{
    if t.penalty <= EJECT_PENALTY {
        own_penalty(places, t.line)
    } else {
        t.penalty
    }
}

// ---- the demerits

// A size within 0 and the greatest dimension, in sp.
fn within_dimen(v: i128) -> i64
    ensures value { result ≡ within_dimen v }
    ensures low { pos 0 ≤ℤ result }
    ensures high { result ≤ℤ pos 1073741823 }
{
    if v <= 0 {
        0
    } else if v >= i128::from(MAX_DIMEN) {
        MAX_DIMEN
    } else {
        narrow(v)
    }
}

// How many whole points of the goal are left.
fn points_left(t: &Try) -> i64
    ensures value { result ≡ points_left t.now }
    ensures low { pos 0 ≤ℤ result }
    ensures high { result ≤ℤ pos 16383 }
{
    within_dimen(missing(t)) / 65536
}

fn square(v: i64) -> i128
    requires low { negsuc 16383 ≤ℤ v }
    requires high { v ≤ℤ pos 16383 }
    ensures value { result ≡ square v }
    ensures least { pos 0 ≤ℤ result }
    ensures most { result ≤ℤ pos 268435456 }
{
    i128::from(v * v)
}

// The demerits of a column that is past all badness, with this many points of its goal left.
fn hopeless(points: i64) -> i128
    requires low { pos 0 ≤ℤ points }
    requires high { points ≤ℤ pos 16383 }
    ensures value { result ≡ pos 100000000 +ℤ pos 1000 *ℤ square points }
    ensures least { pos 0 ≤ℤ result }
    ensures most { result ≤ℤ pos 268535456000 }
{
    let square = square(points);
    HOPELESS + 1000 * square
}

// The demerits of a column of this badness without its penalty.
fn base(t: &Try, badness: i64) -> i128
    requires { pos 0 ≤ℤ badness }
    ensures value { result ≡ base t.now badness }
    ensures low { pos 0 ≤ℤ result }
    ensures high { result ≤ℤ pos 268535456000 }
{
    if t.cost >= AWFUL_BAD {
        return OVERFULL;
    }
    if badness >= INF_BAD - 10 {
        return hopeless(points_left(t));
    }
    square(10 + badness)
}

// With the square of the penalty.
fn with_penalty(demerits: i128, penalty: i64) -> i128
    requires least { pos 0 ≤ℤ demerits }
    requires most { demerits ≤ℤ pos 268535456000 }
    requires low { negsuc 9999 <ℤ penalty }
    requires high { penalty <ℤ pos 10000 }
    ensures value { result ≡ with_penalty demerits penalty }
    ensures above { pos 0 ≤ℤ result }
    ensures below { result ≤ℤ pos 268803891456 }
{
    let square = square(penalty);
    if penalty > 0 {
        demerits + square
    } else if square <= demerits {
        demerits - square
    } else {
        0
    }
}

// The demerits of so many floats and insertions that are left over.
fn of_left_over(count: u64) -> i128
    requires { count ≤ 8388608 }
    ensures value { result ≡ pos (10000 * count) }
    ensures least { pos 0 ≤ℤ result }
    ensures most { result ≤ℤ pos 83886080000 }
{
    i128::from(LEFT_OVER * count)
}

// The demerits of a column and of what is left over after it.
fn sum(column: i128, left_over: i128) -> i128
    requires first { pos 0 ≤ℤ column }
    requires second { pos 0 ≤ℤ left_over }
    requires most { column ≤ℤ pos 268803891456 }
    requires few { left_over ≤ℤ pos 83886080000 }
    ensures value { result ≡ column +ℤ left_over }
    ensures above { pos 0 ≤ℤ result }
    ensures below { result ≤ℤ pos 352689971456 }
{
    column + left_over
}

// The demerits of a column of this badness and penalty, with those of what is left over.
fn demerits(t: &Try, badness: i64, penalty: i64, left_over: u64) -> i128
    requires badness { pos 0 ≤ℤ badness }
    requires low { negsuc 9999 <ℤ penalty }
    requires high { penalty <ℤ pos 10000 }
    requires few { left_over ≤ 8388608 }
    ensures value { result ≡ with_penalty (base t.now badness) penalty +ℤ pos (10000 * left_over) }
    ensures above { pos 0 ≤ℤ result }
    ensures below { result ≤ℤ pos 352689971456 }
{
    sum(
        with_penalty(base(t, badness), penalty),
        of_left_over(left_over),
    )
}

// The rating of a column of this page.
fn rated(p: &Params, places: &[PlacePenalty], page: u64, t: &Try, waiting: u64, held: u64) -> Rating
    requires tried { IsTried t.now }
    requires mild { AllByRecursion IsMildPlace places.now }
    requires few { waiting + held ≤ 8388608 }
    ensures value { result ≡ rated p.now places.now page t.now waiting held }
    ensures low { pos 0 ≤ℤ result.demerits }
    ensures high { result.demerits ≤ℤ pos 352689971456 }
{
    let badness = rated_badness(p, t);
    let penalty = rated_penalty(places, t);
    let demerits = demerits(t, badness, penalty, waiting + held);
    Rating {
        page,
        badness,
        penalty,
        waiting,
        held,
        demerits,
    }
}

/// The rating of the column of a page that broke at this place, after which `waiting` floats wait and `held` insertions that
/// the page had no room for. None if the break asked for something else than a column, or there was no place.
///
/// Its demerits are those of an overfull column, 1000000000; or, if its badness is 9990 or more, 100000000 and 1000 times the
/// square of the points of its goal that are left; or the square of 10 more than its badness. The square of a penalty is added,
/// or of one below 0 taken away down to 0. Each float and each insertion adds 10000.
pub fn rate(
    p: &Params,
    places: &[PlacePenalty],
    page: u64,
    place: Option<Try>,
    waiting: u64,
    held: u64,
) -> Option<Rating>
    requires tried { IfSome place IsTried }
    requires mild { AllByRecursion IsMildPlace places.now }
    requires few { waiting + held ≤ 8388608 }
    ensures value { result ≡ rating p.now places.now page place waiting held }
    ensures low { IfSome result (λ r. pos 0 ≤ℤ r.demerits) }
    ensures high { IfSome result (λ r. r.demerits ≤ℤ pos 352689971456) }
{
    let t = place?;
    if t.penalty < EJECT_PENALTY {
        return None;
    }
    Some(rated(p, places, page, &t, waiting, held))
}
