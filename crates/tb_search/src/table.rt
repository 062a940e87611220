//! The states from which the search goes on, each with the best way to it.

ghost use Rattle.std.specs.List.{AllByRecursion};
ghost use Rattle.std.specs.Prelude.{◌≡◌, ◌<◌, ◌+◌, pos, ◌≤ℤ◌, [], ◌∷◌, ◌++◌, true, false, length, replicate, reverse, set, Option, IfOk, IfSome, OnOk};
ghost use Rattle.tb_galley.specs.Valid.{IsValid};
ghost use Rattle.tb_lines.specs.LeastSolution.{is_greater};
ghost use Rattle.tb_best.specs.ItemsAhead.{all_ahead};
ghost use Rattle.tb_best.specs.Sides.{has_note, has_switch, is_note_item, is_switch, is_switch_item, may_alternate, sides_of, KeepsSides};
ghost use Rattle.tb_items.specs.Classes.{classes_of};
ghost use Rattle.tb_margin.specs.Margin.{is_on};
ghost use Rattle.tb_best.specs.PlanDemerits.{plan_demerits};
ghost use Rattle.tb_search.specs.Branches.{shown, IsBranch};
ghost use Rattle.tb_search.specs.Continues.{Continues};
ghost use Rattle.tb_search.specs.KeptStarts.{HasRow, HasRowAsGood, IsBetterOf, IsNeedlessAt, IsNoWorseWay, MayStandFor, StandsAt};
ghost use Rattle.tb_search.specs.Starts.{rows_of, IsRated, IsStart, IsTable};
ghost use Rattle.tb_search.specs.Ways.{marked, with_last};

use crate::Branch;
use crate::penalties::Penalties;
use crate::search::BestFault;
use crate::trials::Trials;
use std::alloc::{AllocError, Global};
use std::mem;
use tb_galley::{Galley, Item, ItemKind};
use tb_param::{Choice, Field};

/// A way that the search went: the breaks that were put in, and the demerits so far.
#[derive(Drop)]
pub(crate) struct Way {
    /// The numbers of the items before which a break was put in, in their order.
    pub(crate) breaks: Vec<u32>,
    /// The demerits of the pages so far, and 1000 for each break.
    pub(crate) demerits: i128,
}

/// A state between two pages in which no page fires, with the best way to it.
#[derive(Drop)]
pub(crate) struct Start<'a> {
    /// The state.
    pub(crate) branch: Branch<'a>,
    /// The best way that led to it.
    pub(crate) way: Way,
}

/// The states from which the search goes on, and what it knows of the galley.
#[derive(Drop)]
pub(crate) struct Table<'a> {
    /// The galley.
    pub(crate) galley: &'a Galley,
    /// The penalties of its own at its places.
    pub(crate) penalties: Penalties,
    /// Whether marginal notes may change sides from page to page.
    pub(crate) may_alternate: bool,
    /// Whether a break may be put in before each item, and before the clear at the end.
    pub(crate) is_place: Vec<bool>,
    /// The states by how many items are ahead, the clear at the end too.
    pub(crate) starts: Vec<Vec<Start<'a>>>,
    /// How many states were kept so far.
    pub(crate) count: u64,
    /// A way with more demerits is not gone on.
    pub(crate) bound: i128,
    /// The best way to an end.
    pub(crate) best: Way,
}

// So many states are kept at most.
const MOST_STATES: u64 = 1_000_000;

// Which of so many numbers are in a list.
fn flags(alloc: Global, count: usize, numbers: &[u32]) -> Result<Vec<bool>, AllocError>
    ensures { IfOk result (λ v. v.items ≡ marked (replicate count false) numbers.now) }
{
    let mut flags = vec![in alloc; false; count]?;
    for number in numbers {
        let k = *number as usize;
        if k < flags.len() {
            flags[k] = true;
        }
    }
    Ok(flags)
}

/// The breaks of a way, and perhaps one more.
pub(crate) fn breaks_with(
    alloc: Global,
    breaks: &[u32],
    more: Option<u32>,
) -> Result<Vec<u32>, AllocError>
    ensures { IfOk result (λ v. v.items ≡ with_last breaks.now more) }
{
    let mut copy = Vec::new(alloc);
    for number in breaks {
        copy.push(*number)?;
    }
    if let Some(number) = more {
        copy.push(number)?;
    }
    Ok(copy)
}

// Whether some breaks, read from the last, are lexicographically greater than others; if one begins the other, the longer is
// greater.
fn is_greater(a: &[u32], b: &[u32]) -> bool
    ensures { result ≡ is_greater (reverse a.now) (reverse b.now) }
{
    let mut k = 0;
    while k < a.len() && k < b.len() {
        let x = a[a.len() - 1 - k];
        let y = b[b.len() - 1 - k];
        if x != y {
            return x > y;
        }
        k += 1;
    }
    a.len() > b.len()
}

impl Way {
    /// Whether this way is better than another: it has fewer demerits, or as many and greater breaks, read from the last.
    pub(crate) fn is_better(&self, other: &Way) -> bool
        ensures better { result ≡ true → IsNoWorseWay self.now other.now }
        ensures worse { result ≡ false → IsNoWorseWay other.now self.now }
    {
        self.demerits < other.demerits
            || (self.demerits == other.demerits
                && is_greater(self.breaks.as_slice(), other.breaks.as_slice()))
    }

    // Another way is taken in place of this one if it is better.
    fn offer(&mut self, way: Way)
        ensures { IsBetterOf self.old way self.new }
    {
        if way.is_better(self) {
            *self = way;
        }
    }
}

impl Start<'_> {
    // Whether this state may stand for another, which was reached in this way: they are the same but for the left column, no
    // count of it is greater, marginal notes go to the same sides if they may change sides, and its way is no worse.
    fn stands_for(&self, branch: &Branch<'_>, way: &Way, may_alternate: bool) -> bool
        requires mine { IsBranch self.now.branch }
        requires others { IsBranch branch.now }
        requires classes { (shown self.now.branch).classes ≡ (shown branch.now).classes }
        ensures { result ≡ true → MayStandFor may_alternate self.now (record { branch = branch.now; way = way.now }) }
    {
        !way.is_better(&self.way)
            && self.branch.counts_within(branch, may_alternate)
            && self.branch.is_same(branch)
    }
}

// The place of a state that may stand for this one, which was reached in this way.
fn place_for(
    starts: &[Start<'_>],
    branch: &Branch<'_>,
    way: &Way,
    may_alternate: bool,
) -> Option<usize>
    requires starts { AllByRecursion (λ x. IsBranch x.branch) starts.now }
    requires classes { AllByRecursion (λ x. (shown x.branch).classes ≡ (shown branch.now).classes) starts.now }
    requires branch { IsBranch branch.now }
    ensures { IfSome result (λ k. StandsAt may_alternate starts.now k (record { branch = branch.now; way = way.now })) }
{
    for (k, start) in starts.iter().enumerate() {
        if start.stands_for(branch, way, may_alternate) {
            return Some(k);
        }
    }
    None
}

// The place of a state for which this one may stand.
fn needless_place(starts: &[Start<'_>], start: &Start<'_>, may_alternate: bool) -> Option<usize>
    requires starts { AllByRecursion (λ x. IsBranch x.branch) starts.now }
    requires classes { AllByRecursion (λ x. (shown x.branch).classes ≡ (shown start.now.branch).classes) starts.now }
    requires start { IsBranch start.now.branch }
    ensures { IfSome result (λ k. IsNeedlessAt may_alternate starts.now k start.now) }
{
    for (k, other) in starts.iter().enumerate() {
        if start.stands_for(&other.branch, &other.way, may_alternate) {
            return Some(k);
        }
    }
    None
}

fn push_start<'a>(starts: &mut Vec<Start<'a>>, start: Start<'a>) -> Result<(), BestFault>
    ensures { OnOk result (starts.new.items ≡ starts.old.items ++ start.entry ∷ []) }
{
    match starts.push(start) {
        Ok(()) => Ok(()),
        Err(refused) => Err(AllocError::from(refused).into()),
    }
}

// Keeps a state in place of one, which it returns.
fn swap_start<'a>(starts: &mut Vec<Start<'a>>, k: usize, start: Start<'a>) -> Start<'a>
    requires { k < length starts.old.items }
    ensures { starts.new.items ≡ set starts.old.items k start.entry }
{
    mem::replace(&mut starts[k], start)
}

impl<'a> Table<'a> {
    /// No state is kept. `greedy` are the demerits of the galley without breaks put in. It fails only if memory runs out.
    pub(crate) fn new(
        alloc: Global,
        galley: &'a Galley,
        greedy: i128,
        bound: i128,
    ) -> Result<Self, AllocError>
        requires valid { IsValid galley.now }
        requires low { pos 0 ≤ℤ bound }
        requires bound { bound ≤ℤ greedy }
        requires greedy { plan_demerits galley.now [] ≡ Option.Some greedy }
        requires range { greedy ≤ℤ pos 1000000000000000000000000000 }

        ensures table { IfOk result IsTable }
        ensures galley { IfOk result (λ t. t.galley.now ≡ galley.now) }
        ensures bound { IfOk result (λ t. t.bound ≡ bound) }
        ensures greedy { IfOk result (λ t. t.best.demerits ≡ greedy) }
        ensures none { IfOk result (λ t. rows_of t ≡ []) }
        ensures levels { IfOk result (λ t. length t.starts.items ≡ length (all_ahead galley.now) + 1) }
    {
        let penalties = Penalties::of_items(alloc, galley.items.as_slice())?;
        let places = tb_plans::places(alloc, galley)?;
        let count = galley.items.len() + 1;
        let is_place = flags(alloc, count, places.as_slice())?;
        let starts = no_starts(alloc, count + 1)?;
        let alternate = may_alternate(galley);
        Ok(Table {
            galley,
            penalties,
            may_alternate: alternate,
            is_place,
            starts,
            count: 0,
            bound,
            best: Way {
                breaks: Vec::new(alloc),
                demerits: greedy,
            },
        })
    }

    /// Keeps a state that has so many items ahead, unless one that is kept may stand for it. One for which it may stand is left
    /// out for it. It fails if too many states are kept, or if memory runs out.
    pub(crate) fn keep(
        &mut self,
        left: usize,
        branch: Branch<'a>,
        way: Way,
        trials: &mut Trials<'a>,
    ) -> Result<(), BestFault>
        requires table { IsTable self.old }
        requires left { left < length self.old.starts.items }
        requires start { IsStart self.old.galley.now self.old.bound left (record { branch = branch; way = way }) }

        ensures table { OnOk result (IsTable self.new) }
        ensures continues { OnOk result (Continues self.old self.new) }
        ensures known { OnOk result (HasRowAsGood self.new left (shown branch.entry) way) }
        ensures first { rows_of self.old ≡ [] → OnOk result (HasRow self.new left (shown branch.entry) way) }
    {
        if self.is_known(left, &branch, &way) {
            trials.give_back(branch);
            return Ok(());
        }
        self.insert(left, Start { branch, way }, trials)
    }

    /// Whether a state that is kept may stand for this one, which has so many items ahead.
    pub(crate) fn is_known(&self, left: usize, branch: &Branch<'_>, way: &Way) -> bool
        requires table { IsTable self.now }
        requires left { left < length self.now.starts.items }
        requires branch { IsBranch branch.now }
        requires classes { (shown branch.now).classes ≡ classes_of self.now.galley.now }
        requires sides { KeepsSides (sides_of self.now.galley.now) (shown branch.now) }

        ensures known { result ≡ true → HasRowAsGood self.now left (shown branch.now) way.now }
        ensures first { rows_of self.now ≡ [] → result ≡ false }
    {
        place_for(
            self.starts[left].as_slice(),
            branch,
            way,
            self.may_alternate,
        )
        .is_some()
    }

    // Keeps a state in place of one for which it may stand, or as one more.
    fn insert(
        &mut self,
        left: usize,
        start: Start<'a>,
        trials: &mut Trials<'a>,
    ) -> Result<(), BestFault>
        requires table { IsTable self.old }
        requires left { left < length self.old.starts.items }
        requires start { IsStart self.old.galley.now self.old.bound left start }

        ensures table { OnOk result (IsTable self.new) }
        ensures continues { OnOk result (Continues self.old self.new) }
        ensures known { OnOk result (HasRow self.new left (shown start.entry.branch) start.entry.way) }
    {
        match needless_place(self.starts[left].as_slice(), &start, self.may_alternate) {
            Some(k) => {
                let needless = swap_start(&mut self.starts[left], k, start);
                trials.give_back(needless.branch);
                Ok(())
            }
            None => self.add(left, start),
        }
    }

    // Keeps one more state.
    fn add(&mut self, left: usize, start: Start<'a>) -> Result<(), BestFault>
        requires table { IsTable self.old }
        requires left { left < length self.old.starts.items }
        requires start { IsStart self.old.galley.now self.old.bound left start }

        ensures table { OnOk result (IsTable self.new) }
        ensures continues { OnOk result (Continues self.old self.new) }
        ensures known { OnOk result (HasRow self.new left (shown start.entry.branch) start.entry.way) }
    {
        if self.count >= MOST_STATES {
            return Err(BestFault::Choices);
        }
        self.count += 1;
        push_start(&mut self.starts[left], start)
    }

    /// A way that came to the end of a run: it is the best one from now on if it is better.
    pub(crate) fn end(&mut self, way: Way)
        requires table { IsTable self.old }
        requires rated { IsRated self.old.galley.now way }
        requires bounded { way.demerits ≤ℤ self.old.bound }

        ensures table { IsTable self.new }
        ensures continues { Continues self.old self.new }
        ensures starts { self.new.starts ≡ self.old.starts }
        ensures best { IsNoWorseWay self.new.best way }
    {
        self.best.offer(way);
    }
}

// Whether there are marginal notes in a galley that may change sides from page to page: from its beginning, or from an item on.
fn may_alternate(galley: &Galley) -> bool
    ensures { result ≡ may_alternate galley.now }
{
    let items = galley.items.as_slice();
    (is_on(galley.params.mparswitch) || has_switch(items)) && has_note(items)
}

// Whether one of these items is a marginal note.
fn has_note(items: &[Item]) -> bool
    ensures { result ≡ has_note items.now }
{
    items.iter().any(|item| is_note_item(&item.kind))
}

fn is_note_item(kind: &ItemKind) -> bool
    ensures { result ≡ is_note_item kind.now }
{
    matches!(kind, ItemKind::Margin { .. })
}

// Whether one of these items says that notes do or do not change sides.
fn has_switch(items: &[Item]) -> bool
    ensures { result ≡ has_switch items.now }
{
    items.iter().any(|item| is_switch_item(&item.kind))
}

fn is_switch_item(kind: &ItemKind) -> bool
    ensures { result ≡ is_switch_item kind.now }
{
    match kind {
        ItemKind::Set(change) => is_switch(change.field),
        _ => false,
    }
}

fn is_switch(field: Field) -> bool
    ensures { result ≡ is_switch field }
{
    matches!(field, Field::Mparswitch)
}

fn is_on(choice: Choice) -> bool
    ensures { result ≡ is_on choice }
{
    matches!(choice, Choice::On)
}

// So many lists without a state.
fn no_starts<'a>(alloc: Global, count: usize) -> Result<Vec<Vec<Start<'a>>>, AllocError>
    ensures count { IfOk result (λ v. length v.items ≡ count) }
    ensures empty { IfOk result (λ v. AllByRecursion (λ l. l.items ≡ []) v.items) }
{
    let mut starts = Vec::with_capacity(alloc, count)?;
    for _ in 0..count {
        starts.push(Vec::new(alloc))?;
    }
    Ok(starts)
}
