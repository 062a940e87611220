//! How many items the search may take before a page can fire.

ghost use Rattle.std.specs.Prelude.{◌≡◌, ◌<◌, ◌≤◌, true, length, IfOk, IfSome};
ghost use Rattle.tb_rate.specs.Places.{place_penalties};
ghost use Rattle.tb_best.specs.ItemsAhead.{all_ahead};
ghost use Rattle.tb_best.specs.PlainPages.{all_plain};
ghost use Rattle.tb_search.specs.Branches.{shown, IsBranch};
ghost use Rattle.tb_search.specs.AheadInCode.{items_ahead};
ghost use Rattle.tb_search.specs.Calm.{with_first, IsCalm};
ghost use Rattle.tb_search.specs.Told.{IsTold, StopsAt, Tells};
ghost use Rattle.tb_search.specs.Starts.{IsReached, IsTable};

use crate::branch::Stop;
use crate::prices::{Priced, prices_of};
use crate::search::BestFault;
use crate::table::{Start, Table};
use crate::trials::Trials;
use std::alloc::{AllocError, Global};
use tb_galley::Item;
use tb_items::Happening;

// No more items than these are tried first. Few pages hold more.
const MANY_ITEMS: usize = 512;

// So often fewer are tried.
const TRIES: u32 = 4;

/// Items that may be taken before a page can fire.
#[derive(Clone, Copy)]
pub(crate) struct Calm {
    /// How many.
    pub(crate) count: usize,
    /// Whether the places that were tried with them tell what the page costs at least if a break is put in.
    pub(crate) told: bool,
    /// Whether no insertion and no act waits once they are taken.
    pub(crate) plain: bool,
}

const NOT_CALM: Calm = Calm {
    count: 0,
    told: false,
    plain: false,
};

/// What the places tell of a page that were tried once items were taken.
#[derive(Drop)]
pub(crate) struct Told {
    /// Their prices.
    pub(crate) prices: Vec<Priced>,
    /// Whether no insertion and no act waits then.
    pub(crate) plain: bool,
}

// How many items stand before the first one on this line or behind it; all if there is none.
fn items_before(items: &[Item], line: u32) -> usize {
    for (k, item) in items.iter().enumerate() {
        if item.line >= line {
            return k;
        }
    }
    items.len()
}

// How many items are tried first from the next state, after so many were found from this one. Unless a page fired behind more,
// there may be more of them.
fn next_guess(count: usize, fired: bool) -> usize {
    if count >= MANY_ITEMS / 4 {
        return MANY_ITEMS;
    }
    if fired { count * 2 + 16 } else { count * 4 }
}

impl<'a> Table<'a> {
    /// How many items may be taken from a state with so many items ahead, so that no page fires behind the last of them: as
    /// many as there are before the stop of the page, or fewer. `happened` holds the places that were tried with them. It fails
    /// only if memory runs out.
    pub(crate) fn calm_items(
        &self,
        alloc: Global,
        left: usize,
        start: &Start<'a>,
        happened: &mut Vec<Happening>,
        trials: &mut Trials<'a>,
    ) -> Result<Calm, BestFault>
        requires table { IsTable self.now }
        requires some { 0 < left }
        requires inside { left ≤ length (all_ahead self.now.galley.now) }
        requires reached { IsReached self.now.galley.now left start.now }

        ensures fewer { IfOk result (λ c. c.count < left) }
        ensures calm { IfOk result (λ c. 0 < c.count → IsCalm (shown start.now.branch) (items_ahead self.now.galley.now left) c.count) }
        ensures told { IfOk result (λ c. c.told ≡ true → Tells happened.new.items (with_first c.count (items_ahead self.now.galley.now left) (shown start.now.branch))) }
        ensures plain { IfOk result (λ c. c.plain ≡ true → all_plain (with_first c.count (items_ahead self.now.galley.now left) (shown start.now.branch)).waiting ≡ true) }
    {
        let mut count = trials.guess;
        'tries: for k in 0..TRIES {
            if count >= left {
                count = left - 1;
            }
            if count == 0 {
                return Ok(NOT_CALM);
            }
            match self.stop_behind(alloc, left, start, count, happened, trials)? {
                Stop::Line(line) => {
                    count = self.fewer_items(left, count, line);
                }
                Stop::Nowhere { told, plain } => {
                    trials.guess = next_guess(count, k > 0);
                    return Ok(Calm { count, told, plain });
                }
            }
        }
        Ok(NOT_CALM)
    }

    /// What the places tell that were tried with so many of the items ahead behind a state; nothing if they don't tell what the
    /// page costs at least. It fails only if memory runs out.
    pub(crate) fn told(
        &self,
        alloc: Global,
        left: usize,
        start: &Start<'a>,
        found: Calm,
        happened: &[Happening],
    ) -> Result<Option<Told>, AllocError>
        requires table { IsTable self.now }
        requires branch { IsBranch start.now.branch }
        requires told { found.told ≡ true → Tells happened.now (with_first found.count (items_ahead self.now.galley.now left) (shown start.now.branch)) }
        requires plain { found.plain ≡ true → all_plain (with_first found.count (items_ahead self.now.galley.now left) (shown start.now.branch)).waiting ≡ true }

        ensures { IfOk result (λ o. IfSome o (IsTold (place_penalties self.now.galley.now.items) (with_first found.count (items_ahead self.now.galley.now left) (shown start.now.branch)))) }
    {
        if found.told {
            let params = start.branch.routine.machine.params();
            let prices = prices_of(alloc, params, &self.penalties, happened)?;
            return Ok(Some(Told {
                prices,
                plain: found.plain,
            }));
        }
        Ok(None)
    }

    // How many items are to be tried after so many, behind which a page fires at a stop on this line.
    fn fewer_items(&self, left: usize, count: usize, line: u32) -> usize
        requires some { 0 < left }
        requires fewer { 0 < count }

        ensures { result < count }
    {
        let items = self.galley.items.as_slice();
        if left > items.len() {
            return count - 1;
        }
        let first = items.len() - (left - 1);
        let before = items_before(&items[first..], line);
        if before < count { before } else { count - 1 }
    }

    // Where the page stops with so many of the items ahead behind a state. Where too many nodes are held, the line is 0.
    fn stop_behind(
        &self,
        alloc: Global,
        left: usize,
        start: &Start<'a>,
        count: usize,
        happened: &mut Vec<Happening>,
        trials: &mut Trials<'a>,
    ) -> Result<Stop, BestFault>
        requires table { IsTable self.now }
        requires inside { left ≤ length (all_ahead self.now.galley.now) }
        requires fewer { count < left }
        requires reached { IsReached self.now.galley.now left start.now }

        ensures { IfOk result (λ o. StopsAt (with_first count (items_ahead self.now.galley.now left) (shown start.now.branch)) happened.new.items o) }
    {
        trials.page.copy_from(&start.branch, alloc)?;
        let last = left - count;
        let mut behind = left;
        'items: while behind > last {
            if !trials.page.take()? {
                return Ok(Stop::Line(0));
            }
            behind -= 1;
        }
        let stop = trials.page.stop(happened)?;
        Ok(stop)
    }
}
