//! What a break costs (TeX: The Program §974, §1005).

ghost use Rattle.std.specs.Prelude.{◌≡◌, ◌<ℤ◌, ◌≤ℤ◌, pos};
ghost use Rattle.tb_scaled.specs.Scaled.{awful_bad};
ghost use Rattle.tb_node.specs.SmallAmounts.{IsAmount};
ghost use Rattle.tb_break.specs.Cost.{stretches_infinitely, finite_stretch, page_badness, cost_of_badness, cost_of};

use tb_node::Sums;
use tb_scaled::{AWFUL_BAD, DEPLORABLE, EJECT_PENALTY, INF_BAD, badness};

/// The badness and the cost of a break after nodes with these sums, for a goal in sp, at a penalty, and with the
/// penalties of the insertions (TeX: The Program §974, §1005).
#[inline(always)]
pub fn cost(s: &Sums, goal: i64, penalty: i64, insert_penalties: i64) -> (i64, i64)
    requires total { IsAmount s.now.total }
    requires shrink { IsAmount s.now.shrink }
    requires goal { IsAmount goal }
    requires penalty { IsAmount penalty }
    requires inserts { IsAmount insert_penalties }
    ensures badness { result.0 ≡ page_badness s.now goal }
    ensures cost { result.1 ≡ cost_of s.now goal penalty insert_penalties }
    ensures most { penalty <ℤ pos 10000 → result.1 ≤ℤ awful_bad }
{
    let badness = page_badness(s, goal);
    (badness, cost_of_badness(badness, penalty, insert_penalties))
}

/// How badly a page with these sums fits a goal, in sp: 1073741823 if it is overfull, else at most 10000.
#[tactic(auto, unfolding(crate::specs::Cost::page_badness))]
#[inline(always)]
pub fn page_badness(s: &Sums, goal: i64) -> i64
    requires total { IsAmount s.now.total }
    requires shrink { IsAmount s.now.shrink }
    requires goal { IsAmount goal }
    ensures value { result ≡ page_badness s.now goal }
    ensures low { pos 0 ≤ℤ result }
{
    let missing = goal - s.total;
    if missing > 0 {
        if is_infinite(&s.stretch) {
            return 0;
        }
        return badness(missing, finite(&s.stretch));
    }
    if s.total - goal > s.shrink {
        AWFUL_BAD
    } else {
        badness(s.total - goal, s.shrink)
    }
}

/// The cost of a badness at a penalty, with the penalties of the insertions.
#[tactic(auto, unfolding(crate::specs::Cost::cost_of_badness))]
#[inline(always)]
pub fn cost_of_badness(badness: i64, penalty: i64, insert_penalties: i64) -> i64
    requires badness { pos 0 ≤ℤ badness }
    requires penalty { IsAmount penalty }
    requires inserts { IsAmount insert_penalties }
    ensures value { result ≡ cost_of_badness badness penalty insert_penalties }
    ensures most { penalty <ℤ pos 10000 → result ≤ℤ awful_bad }
{
    if badness >= AWFUL_BAD || insert_penalties >= INF_BAD {
        return AWFUL_BAD;
    }
    if penalty <= EJECT_PENALTY {
        return penalty;
    }
    if badness < INF_BAD {
        return badness + penalty + insert_penalties;
    }
    DEPLORABLE
}

// Whether some stretch of a higher order is not 0.
fn is_infinite(stretch: &[i64; 4]) -> bool
    ensures { result ≡ stretches_infinitely stretch.now }
{
    let [_, fil, fill, filll] = *stretch;
    fil != 0 || fill != 0 || filll != 0
}

// The finite stretch.
fn finite(stretch: &[i64; 4]) -> i64
    ensures { result ≡ finite_stretch stretch.now }
{
    stretch[0]
}
