//! Plain pages: text in one column with no float anywhere, no insertion and no act. The state after such a page, broken by force
//! before an item, depends on nothing but the item, so a state that is kept may stand for it before it is made.

ghost use Rattle.std.specs.Prelude.{◌≡◌, ◌+◌, ◌≤◌, true, false, IfSome};
ghost use Rattle.std.specs.List.{AllByRecursion};
ghost use Rattle.tb_best.specs.PlainPages.{all_plain, IsBare};
ghost use Rattle.tb_search.specs.Branches.{shown, IsBranch};
ghost use Rattle.tb_search.specs.Plain.{Beats, BeatsAt, IsLowStart, IsLowWay, IsPlainPage, LeadsTo};

use crate::Branch;
use crate::moves::are_plain;
use crate::prices::{Priced, are_above};
use crate::table::{Start, Way};

impl Branch<'_> {
    // Whether no float is in any list, no page is held, and there is one column.
    fn is_bare(&self) -> bool
        requires { IsBranch self.now }
        ensures { result ≡ true → IsBare (shown self.now) }
    {
        let machine = &self.routine.machine;
        if machine.pool().live() > 0 || machine.standing().two_columns {
            return false;
        }
        machine.held_nodes(&self.routine.store) == 0
    }

    /// Whether no insertion and no act waits.
    pub(crate) fn waits_plain(&self) -> bool
        requires { IsBranch self.now }
        ensures { result ≡ true → all_plain (shown self.now).waiting ≡ true }
    {
        are_plain(&self.routine.store, self.routine.builder.waiting())
    }

    /// Whether the page is plain so far. `told` says that no insertion and no act waits.
    pub(crate) fn is_plain_page(&self, told: bool) -> bool
        requires branch { IsBranch self.now }
        requires told { told ≡ true → all_plain (shown self.now).waiting ≡ true }
        ensures { result ≡ true → IsPlainPage (shown self.now) }
    {
        if !self.is_bare() {
            return false;
        }
        told || self.waits_plain()
    }

    // Whether the other state is on the next page or one before it, on the next if notes may change sides, and is the same
    // otherwise, what waits and what is in boxes aside.
    fn leads_to(&self, other: &Branch<'_>, may_alternate: bool) -> bool
        requires mine { IsBranch self.now }
        requires others { IsBranch other.now }
        ensures { result ≡ true → LeadsTo may_alternate (shown self.now) (shown other.now) }
    {
        let (mine, others) = (&self.routine, &other.routine);
        let (before, after) = (mine.machine.standing(), others.machine.standing());
        if is_past_next(before.page, after.page) {
            return false;
        }
        if may_alternate && !is_next(before.number, after.number) {
            return false;
        }
        mine.machine
            .shows_same(&mine.store, &others.machine, &others.store)
    }
}

// Whether the second number follows the first.
fn is_next(before: u64, after: u64) -> bool
    ensures { result ≡ true → after ≡ before + 1 }
{
    after > 0 && after - 1 == before
}

// Whether the second number is past the one that follows the first.
fn is_past_next(before: u64, after: u64) -> bool
    ensures { result ≡ false → after ≤ before + 1 }
{
    after > 0 && after - 1 > before
}

impl Start<'_> {
    // Whether this is the state after the plain page of another that is broken on this line, or one that may stand for it, and
    // its way has fewer demerits than the one by that page.
    fn beats(
        &self,
        branch: &Branch<'_>,
        way: &Way,
        line: u32,
        prices: &[Priced],
        may_alternate: bool,
    ) -> bool
        requires mine { IsLowStart self.now }
        requires branch { IsBranch branch.now }
        requires low { IsLowWay way.now }
        ensures { result ≡ true → Beats may_alternate self.now branch.now way.now line prices.now }
    {
        if !self.branch.plain {
            return false;
        }
        let most = self.way.demerits - (way.demerits + 1000);
        if !are_above(prices, line, most) {
            return false;
        }
        branch.leads_to(&self.branch, may_alternate)
    }
}

/// The place of a state that may stand for the one after the plain page of another that is broken on this line, and whose way
/// has fewer demerits.
pub(crate) fn place_of_better(
    starts: &[Start<'_>],
    branch: &Branch<'_>,
    way: &Way,
    line: u32,
    prices: &[Priced],
    may_alternate: bool,
) -> Option<usize>
    requires starts { AllByRecursion IsLowStart starts.now }
    requires branch { IsBranch branch.now }
    requires low { IsLowWay way.now }
    ensures { IfSome result (λ k. BeatsAt may_alternate starts.now k branch.now way.now line prices.now) }
{
    for (k, start) in starts.iter().enumerate() {
        if start.beats(branch, way, line, prices, may_alternate) {
            return Some(k);
        }
    }
    None
}
