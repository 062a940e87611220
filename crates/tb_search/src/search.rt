//! The search: from each state between two pages all pages are made that may come next.

ghost use Rattle.std.specs.List.{AllByRecursion};
ghost use Rattle.std.specs.Prelude.{◌≡◌, ◌+◌, ◌<◌, ◌≤◌, pos, ◌+ℤ◌, ◌≤ℤ◌, [], ◌∷◌, map, length, reverse, Some, IfOk, OnOk, ◌-◌};
ghost use Rattle.tb_galley.specs.Valid.{IsValid};
ghost use Rattle.tb_rate.specs.Places.{place_penalties};
ghost use Rattle.tb_best.specs.PlanDemerits.{plan_demerits};
ghost use Rattle.tb_best.specs.BestPlan.{IsBest};
ghost use Rattle.tb_best.specs.ItemsAhead.{all_ahead, empty_start};
ghost use Rattle.tb_best.specs.ClosedTables.{rows_know};
ghost use Rattle.tb_search.specs.Branches.{shown, IsBranch};
ghost use Rattle.tb_search.specs.FilledBranches.{FillsTo, IsQuiet};
ghost use Rattle.tb_search.specs.AheadInCode.{items_ahead};
ghost use Rattle.tb_search.specs.Starts.{row_of, rows_of, IsReached, IsStart, IsTable};
ghost use Rattle.tb_search.specs.Continues.{IsLater, IsTakenOn, Continues, HasSearched, IsSearchedAsGoodBy};

use crate::beam::beam_bound;
use crate::table::{Start, Table, Way};
use crate::trials::Trials;
use crate::{Branch, Filled};
use std::alloc::{AllocError, Global};
use tb_galley::Galley;
use tb_items::Happening;

// The widths of the beams: a narrow one finds good pages soon, and from their demerits a wide one finds better ones.
const NARROW: usize = 4;

const WIDE: usize = 16;

/// The best plan of a galley.
#[derive(Drop)]
pub struct BestPlan {
    /// The numbers of the items before which a break is put in, in their order.
    pub places: Vec<u32>,
    /// The demerits of the pages with these breaks, and 1000 for each break.
    pub demerits: i128,
}

/// Why there is no best plan.
#[derive(Clone, Copy, Debug, PartialEq, Eq)]
pub enum BestFault {
    /// The search came to more than 1000000 states, or to one that holds more than 4194304 nodes.
    Choices,
    /// Memory ran out.
    Memory,
}

impl From<AllocError> for BestFault {
    ghost use Rattle.tb_search.specs.declared.search.BestFault.TheVariants.{Memory};

    ghost from_gives = { λ _ e. e ≡ Memory };

    fn from(_: AllocError) -> Self {
        BestFault::Memory
    }
}

/// The best plan of a galley: of all ways to put page breaks in at its places the one of least demerits, and of several the
/// one whose breaks, read from the last, are the greatest. `greedy` are the demerits of the galley without breaks put in.
///
/// It fails if the search comes to too many states or to one that holds too many nodes, or if memory runs out.
pub fn best_breaks(alloc: Global, galley: &Galley, greedy: i128) -> Result<BestPlan, BestFault>
    requires valid { IsValid galley.now }
    requires sum { plan_demerits galley.now [] ≡ Some greedy }
    requires low { pos 0 ≤ℤ greedy }
    requires high { greedy ≤ℤ pos 1000000000000000000000000000 }

    ensures best { IfOk result (λ b. IsBest galley.now b.places.items b.demerits) }
{
    let mut trials = Trials::start(alloc, Branch::start(alloc, galley)?);
    let bound = low_bound(alloc, galley, greedy, &mut trials)?;
    let plan = best_within(alloc, galley, greedy, bound, &mut trials)?;
    if plan.demerits <= bound {
        return Ok(plan);
    }
    best_within(alloc, galley, greedy, greedy, &mut trials)
}

// A bound that some plan is within: the demerits of pages that a narrow beam finds, and then a wider one.
fn low_bound<'a>(
    alloc: Global,
    galley: &'a Galley,
    greedy: i128,
    trials: &mut Trials<'a>,
) -> Result<i128, BestFault>
    requires valid { IsValid galley.now }
    requires sum { plan_demerits galley.now [] ≡ Some greedy }
    requires low { pos 0 ≤ℤ greedy }
    requires high { greedy ≤ℤ pos 1000000000000000000000000000 }

    ensures low { IfOk result (λ d. pos 0 ≤ℤ d) }
    ensures fewer { IfOk result (λ d. d ≤ℤ greedy) }
{
    let bound = beam_or(alloc, galley, greedy, greedy, NARROW, trials)?;
    beam_or(alloc, galley, greedy, bound, WIDE, trials)
}

// The demerits that a beam of this width finds; the bound if the beam has too many states, since the search may have fewer.
fn beam_or<'a>(
    alloc: Global,
    galley: &'a Galley,
    greedy: i128,
    bound: i128,
    width: usize,
    trials: &mut Trials<'a>,
) -> Result<i128, BestFault>
    requires valid { IsValid galley.now }
    requires sum { plan_demerits galley.now [] ≡ Some greedy }
    requires from { pos 0 ≤ℤ bound }
    requires bound { bound ≤ℤ greedy }
    requires high { greedy ≤ℤ pos 1000000000000000000000000000 }

    ensures low { IfOk result (λ d. pos 0 ≤ℤ d) }
    ensures fewer { IfOk result (λ d. d ≤ℤ bound) }
{
    match beam_bound(alloc, galley, greedy, bound, width, trials) {
        Err(BestFault::Choices) => Ok(bound),
        found => found,
    }
}

// The best of the plans within a bound, or one past the bound if there is none: no more than the greedy pages have.
fn best_within<'a>(
    alloc: Global,
    galley: &'a Galley,
    greedy: i128,
    bound: i128,
    trials: &mut Trials<'a>,
) -> Result<BestPlan, BestFault>
    requires valid { IsValid galley.now }
    requires sum { plan_demerits galley.now [] ≡ Some greedy }
    requires low { pos 0 ≤ℤ bound }
    requires bound { bound ≤ℤ greedy }
    requires high { greedy ≤ℤ pos 1000000000000000000000000000 }

    ensures best { IfOk result (λ b. b.demerits ≤ℤ bound → IsBest galley.now b.places.items b.demerits) }
    ensures fewer { IfOk result (λ b. b.demerits ≤ℤ greedy) }
{
    let mut table = Table::new(alloc, galley, greedy, bound)?;
    table.begin(alloc, galley, trials)?;
    table.search(alloc, trials)?;
    Ok(BestPlan {
        places: table.best.breaks,
        demerits: table.best.demerits,
    })
}

impl<'a> Table<'a> {
    /// The state in which a run begins waits.
    pub(crate) fn begin(
        &mut self,
        alloc: Global,
        galley: &'a Galley,
        trials: &mut Trials<'a>,
    ) -> Result<(), BestFault>
        requires table { IsTable self.old }
        requires galley { self.old.galley.now ≡ galley.now }
        requires valid { IsValid galley.now }
        requires levels { length self.old.starts.items ≡ length (all_ahead galley.now) + 1 }
        requires none { rows_of self.old ≡ [] }
        requires low { pos 0 ≤ℤ self.old.bound }

        ensures table { OnOk result (IsTable self.new) }
        ensures later { OnOk result (IsLater self.old self.new) }
        ensures begun { OnOk result (rows_know (rows_of self.new) (empty_start galley.now) (all_ahead galley.now) (pos 0) []) }
    {
        let first = Branch::start(alloc, galley)?;
        let way = Way {
            breaks: Vec::new(alloc),
            demerits: 0,
        };
        self.keep(galley.items.len() + 1, first, way, trials)
    }

    // Goes on from all states that wait, first from those with the most items ahead, until none waits.
    fn search(&mut self, alloc: Global, trials: &mut Trials<'a>) -> Result<(), BestFault>
        requires { IsTable self.old }

        ensures table { OnOk result (IsTable self.new) }
        ensures none { OnOk result (rows_of self.new ≡ []) }
        ensures searched { OnOk result (HasSearched [] self.old self.new) }
    {
        'levels: while let Some(starts) = self.starts.pop() {
            let left = self.starts.len();
            self.expand_all(alloc, left, starts, trials)?;
        }
        Ok(())
    }

    // The pages that may come next after each of these states, which have so many items ahead.
    fn expand_all(
        &mut self,
        alloc: Global,
        left: usize,
        starts: Vec<Start<'a>>,
        trials: &mut Trials<'a>,
    ) -> Result<(), BestFault>
        requires table { IsTable self.old }
        requires level { left ≤ length self.old.starts.items }
        requires inside { left ≤ length (all_ahead self.old.galley.now) }
        requires starts { AllByRecursion (IsStart self.old.galley.now self.old.bound left) starts.items }

        ensures table { OnOk result (IsTable self.new) }
        ensures levels { OnOk result (length self.new.starts.items ≡ length self.old.starts.items) }
        ensures searched { OnOk result (HasSearched (map (row_of self.old.galley.now left) starts.entry.items) self.old self.new) }
    {
        let mut starts = starts;
        'starts: while let Some(start) = starts.pop() {
            self.expand(alloc, left, start, trials)?;
        }
        Ok(())
    }

    /// All pages that may come next after a state.
    pub(crate) fn expand(
        &mut self,
        alloc: Global,
        left: usize,
        start: Start<'a>,
        trials: &mut Trials<'a>,
    ) -> Result<(), BestFault>
        requires table { IsTable self.old }
        requires level { left ≤ length self.old.starts.items }
        requires inside { left ≤ length (all_ahead self.old.galley.now) }
        requires start { IsStart self.old.galley.now self.old.bound left start }

        ensures table { OnOk result (IsTable self.new) }
        ensures levels { OnOk result (length self.new.starts.items ≡ length self.old.starts.items) }
        ensures searched { OnOk result (HasSearched (row_of self.old.galley.now left start.entry ∷ []) self.old self.new) }
    {
        let (behind, last) = self.pass(alloc, left, start, trials)?;
        self.step_on(alloc, behind, last, trials)
    }

    // Items are taken before a page can fire, and at each place a break is put in. Returns how many items are ahead then, and
    // the state.
    fn pass(
        &mut self,
        alloc: Global,
        left: usize,
        start: Start<'a>,
        trials: &mut Trials<'a>,
    ) -> Result<(usize, Start<'a>), BestFault>
        requires table { IsTable self.old }
        requires level { left ≤ length self.old.starts.items }
        requires inside { left ≤ length (all_ahead self.old.galley.now) }
        requires start { IsStart self.old.galley.now self.old.bound left start }

        ensures table { OnOk result (IsTable self.new) }
        ensures taken { IfOk result (λ x. IsTakenOn self.old left start.entry self.new x.0 x.1) }
        ensures start { IfOk result (λ x. IsStart self.new.galley.now self.new.bound x.0 x.1) }
    {
        let mut happened = Vec::new(alloc);
        let found = self.calm_items(alloc, left, &start, &mut happened, trials)?;
        let told = self.told(alloc, left, &start, found, happened.as_slice())?;
        let told = told.as_ref();
        let Start { mut branch, way } = start;
        let mut left = left;
        let mut calm = found.count;
        'items: while calm > 0 {
            self.cut(alloc, left, &branch, &way, told, trials)?;
            if !branch.take()? {
                return Err(BestFault::Choices);
            }
            left -= 1;
            calm -= 1;
        }
        Ok((left, Start { branch, way }))
    }

    // The same one item after the other: items are taken while no page fires, and at each place a break is put in.
    fn step_on(
        &mut self,
        alloc: Global,
        left: usize,
        start: Start<'a>,
        trials: &mut Trials<'a>,
    ) -> Result<(), BestFault>
        requires table { IsTable self.old }
        requires level { left ≤ length self.old.starts.items }
        requires inside { left ≤ length (all_ahead self.old.galley.now) }
        requires start { IsStart self.old.galley.now self.old.bound left start }

        ensures table { OnOk result (IsTable self.new) }
        ensures levels { OnOk result (length self.new.starts.items ≡ length self.old.starts.items) }
        ensures searched { OnOk result (HasSearched (row_of self.old.galley.now left start.entry ∷ []) self.old self.new) }
    {
        let Start { mut branch, way } = start;
        let mut left = left;
        'items: while left > 0 {
            self.cut(alloc, left, &branch, &way, None, trials)?;
            if !branch.take()? {
                return Err(BestFault::Choices);
            }
            left -= 1;
            let filled = self.page(alloc, &branch, trials)?;
            match filled {
                Filled::Fired { demerits } => {
                    let way = Way {
                        breaks: way.breaks,
                        demerits: way.demerits + demerits,
                    };
                    self.go_on(alloc, left, way, trials)?;
                    trials.give_back(branch);
                    return Ok(());
                }
                Filled::Quiet => {
                    if left == 0 {
                        self.end(way);
                        return Ok(());
                    }
                }
                Filled::Full => {}
                Filled::Refused => return Ok(()),
                Filled::TooMany => return Err(BestFault::Choices),
            }
        }
        Ok(())
    }

    // The same from the state in which a page was tried: it is copied, unless a state that is kept may stand for it.
    pub(crate) fn go_on(
        &mut self,
        alloc: Global,
        left: usize,
        way: Way,
        trials: &mut Trials<'a>,
    ) -> Result<(), BestFault>
        requires table { IsTable self.old }
        requires level { left < length self.old.starts.items }
        requires reached { IsReached self.old.galley.now left (record { branch = trials.old.page; way = way }) }
        requires high { way.demerits ≤ℤ (self.old.bound +ℤ pos 1000000000000) }

        ensures table { OnOk result (IsTable self.new) }
        ensures continues { OnOk result (Continues self.old self.new) }
        ensures searched { OnOk result (IsSearchedAsGoodBy self.new (shown trials.old.page) (items_ahead self.old.galley.now left) way.demerits (reverse way.breaks.items)) }
    {
        if self.is_known(left, &trials.page, &way) {
            return Ok(());
        }
        let next = trials.copy(alloc)?;
        self.settle(alloc, left, next, way, trials)
    }

    // Pages are filled while they fire without a further item; then the state is kept, or the run ends if nothing is ahead. A
    // state with more demerits than the bound is not gone on.
    fn settle(
        &mut self,
        alloc: Global,
        left: usize,
        branch: Branch<'a>,
        way: Way,
        trials: &mut Trials<'a>,
    ) -> Result<(), BestFault>
        requires table { IsTable self.old }
        requires level { left < length self.old.starts.items }
        requires reached { IsReached self.old.galley.now left (record { branch = branch; way = way }) }
        requires high { way.demerits ≤ℤ (self.old.bound +ℤ pos 1000000000000) }

        ensures table { OnOk result (IsTable self.new) }
        ensures continues { OnOk result (Continues self.old self.new) }
        ensures searched { OnOk result (IsSearchedAsGoodBy self.new (shown branch.entry) (items_ahead self.old.galley.now left) way.demerits (reverse way.breaks.items)) }
    {
        let mut branch = branch;
        let mut way = way;
        'fires: while way.demerits <= self.bound {
            let filled = self.page(alloc, &branch, trials)?;
            match filled {
                Filled::Fired { demerits } => {
                    branch.copy_from(&trials.page, alloc)?;
                    way.demerits += demerits;
                }
                Filled::Quiet => return self.arrive(left, branch, way, trials),
                Filled::Full => {
                    if left > 0 {
                        return self.keep(left, branch, way, trials);
                    }
                    return Ok(());
                }
                Filled::Refused => return Ok(()),
                Filled::TooMany => return Err(BestFault::Choices),
            }
        }
        trials.give_back(branch);
        Ok(())
    }

    // A state in which no page fires is kept, or the run ends if nothing is ahead.
    fn arrive(
        &mut self,
        left: usize,
        branch: Branch<'a>,
        way: Way,
        trials: &mut Trials<'a>,
    ) -> Result<(), BestFault>
        requires table { IsTable self.old }
        requires level { left < length self.old.starts.items }
        requires reached { IsReached self.old.galley.now left (record { branch = branch; way = way }) }
        requires quiet { IsQuiet (shown branch) }
        requires high { way.demerits ≤ℤ self.old.bound }

        ensures table { OnOk result (IsTable self.new) }
        ensures continues { OnOk result (Continues self.old self.new) }
        ensures searched { OnOk result (IsSearchedAsGoodBy self.new (shown branch.entry) (items_ahead self.old.galley.now left) way.demerits (reverse way.breaks.items)) }
    {
        if left > 0 {
            return self.keep(left, branch, way, trials);
        }
        self.end(way);
        Ok(())
    }

    // Fills the page of a copy of a state.
    fn page(
        &self,
        alloc: Global,
        branch: &Branch<'a>,
        trials: &mut Trials<'a>,
    ) -> Result<Filled, BestFault>
        requires table { IsTable self.now }
        requires branch { IsBranch branch.now }

        ensures { IfOk result (λ f. FillsTo (place_penalties self.now.galley.now.items) branch.now f trials.new.page) }
    {
        trials.page.copy_from(branch, alloc)?;
        let filled = trials.page.fill(&self.penalties, &mut trials.happened)?;
        Ok(filled)
    }
}
