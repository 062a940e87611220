//! A state of the search, with its moves.

ghost use Rattle.std.specs.List.{AllByRecursion};
ghost use Rattle.std.specs.Prelude.{◌≡◌, ◌<◌, ◌++◌, pos, ◌≤ℤ◌, true, false, None, IfOk, IfSome, OnOk, map, Bool};
ghost use Rattle.tb_builder.specs.Reach.{holds_box};
ghost use Rattle.tb_galley.specs.GalleyNodes.{expanded};
ghost use Rattle.tb_items.specs.Classes.{classes_of};
ghost use Rattle.tb_items.specs.GalleyNodes.{AreGalleyNodes};
ghost use Rattle.tb_items.specs.WaitingNodes.{AreItems};
ghost use Rattle.tb_items.specs.ItemsLeft.{kern_last};
ghost use Rattle.tb_items.specs.Happenings.{events_of};
ghost use Rattle.tb_run.specs.Routine.{state_of, IsReady};
ghost use Rattle.tb_steps.specs.Run.{held_count};
ghost use Rattle.tb_steps.specs.Runnable.{AreRunnable, AreRunClasses};
ghost use Rattle.tb_search.specs.Penalties.{line_of, IsPenalties};
ghost use Rattle.tb_rate.specs.Rating.{rating, IsTried};
ghost use Rattle.tb_rate.specs.RatedRun.{demerits_if, floats_waiting, insertions_first};
ghost use Rattle.tb_rate.specs.Tries.{last_champion};
ghost use Rattle.tb_best.specs.ItemsAhead.{all_ahead, empty_start};
ghost use Rattle.tb_run.specs.declared.routine.Ending.TheVariants.{Done};
ghost use Rattle.tb_search.specs.AheadInCode.{HasAhead};
ghost use Rattle.tb_search.specs.FilledBranches.{stopped, unfired, unserved, FillsTo};
ghost use Rattle.tb_node.specs.PlainNodes.{node_shape, without_acts};
ghost use Rattle.tb_break.specs.Places.{ends_lasting};
ghost use Rattle.tb_best.specs.PlacePrices.{sets_any};
ghost use Rattle.tb_search.specs.Told.{is_place_item, IsPlaceNext, StopsAt};
ghost use Rattle.tb_search.specs.declared.branch.Stop.TheVariants.{Nowhere};
ghost use Rattle.tb_search.specs.Branches.{shown, nodes_ahead, next_of, break_before, IsBranch, HasTaken};

use crate::copies::copy_routine;
use crate::moves::{ends_in_kern, ends_lasting, hand_cut, hand_next, holds_box, sets_any};
use crate::penalties::Penalties;
use crate::prices::are_dear;
use std::alloc::{AllocError, Global};
use tb_builder::Try;
use tb_galley::{Galley, ItemKind};
use tb_items::{Happening, ItemsLeft, all_items};
use tb_rate::{insertions_first, last_champion, rate};
use tb_run::{Ending, Filled as PageFilled, Routine};
use tb_scaled::INF_PENALTY;

/// What becomes of the page of a state when it is filled.
#[derive(Clone, Copy)]
pub enum Filled {
    /// It fired and was served, and the state is that after it.
    Fired {
        /// The demerits of the step.
        demerits: i128,
    },
    /// No page fires: a run would end well here, and items may be taken.
    Quiet,
    /// A run ends here since the pool of floats is full, and what waits ends in a kern but for acts: items may be taken, since
    /// glue behind the kern makes it a place, at which the page may fire before the float or note that finds no room.
    Full,
    /// A run ends here in another way, and so it does whatever is taken before the page fires.
    Refused,
    /// More than 4194304 nodes are held after the page.
    TooMany,
}

/// Where a page stops that is filled.
#[derive(Clone, Copy)]
pub(crate) enum Stop {
    /// The page fires, and the last place that was tried is on this line; 0 if the run ends in another way.
    Line(u32),
    /// No page fires.
    Nowhere {
        /// Whether the places that were tried tell what the page costs at least if a break is put in.
        told: bool,
        /// Whether no insertion and no act waits.
        plain: bool,
    },
}

/// A state of the search: a run in which the nodes wait that were taken and are on no page, and the items that are ahead.
#[derive(Drop)]
pub struct Branch<'a> {
    // Nothing is left in it. It is boxed since it is too large to be moved from call to call.
    pub(crate) routine: Box<Routine<'a>>,
    // None once the clear at the end was taken.
    ahead: Option<ItemsLeft<'a>>,
    /// Whether this is known to be the state after a plain page that was broken before the item that was taken last.
    pub(crate) plain: bool,
}

impl<'a> Branch<'a> {
    /// The state in which the search begins: all items of a galley are ahead. It fails only if memory runs out.
    pub fn start(alloc: Global, galley: &'a Galley) -> Result<Self, AllocError>
        requires params { AreRunnable galley.now.params }
        requires classes { AreRunClasses (classes_of galley.now) }
        requires items { AreItems (classes_of galley.now) galley.now.items }
        requires nodes { AreGalleyNodes (classes_of galley.now) (expanded galley.now) }

        ensures state { IfOk result (λ b. shown b ≡ empty_start galley.now) }
        ensures ahead { IfOk result (λ b. nodes_ahead b ≡ expanded galley.now) }
        ensures items { IfOk result (λ b. HasAhead galley.now b.ahead (all_ahead galley.now)) }
        ensures branch { IfOk result IsBranch }
        ensures plain { IfOk result (λ b. b.plain ≡ false) }
    {
        let routine = Box::new(alloc, Routine::empty(alloc, galley)?)?;
        Ok(Branch {
            routine,
            ahead: Some(all_items(galley)),
            plain: false,
        })
    }

    /// The next item is taken, or the clear at the end: its nodes wait behind the others. If nothing is ahead, nothing changes.
    /// Returns whether no more than 4194304 nodes are held then; if more are, the search can't go on from here. It fails only
    /// if memory runs out, and can't go on then either.
    pub fn take(&mut self) -> Result<bool, AllocError>
        requires { IsBranch self.old }

        ensures taken { OnOk result (HasTaken (next_of self.old.ahead) self.old self.new) }
        ensures branch { IfOk result (λ few. few ≡ true → IsBranch self.new) }
        ensures many { IfOk result (λ few. few ≡ false → 4194304 < held_count (shown self.new)) }
    {
        self.plain = false;
        let Some(ahead) = &mut self.ahead else {
            return Ok(true);
        };
        let routine = &mut *self.routine;
        let more = hand_next(routine, ahead)?;
        let few = routine.most_limit().is_none();
        if !more {
            self.ahead = None;
        }
        Ok(few)
    }

    /// A break is put in before the next item, and the item is taken: a penalty of -10000 on the line of the item waits behind
    /// the others, and then the item's nodes. Before the clear at the end no break is put in. All else is as in [`Self::take`].
    pub fn cut(&mut self) -> Result<bool, AllocError>
        requires { IsBranch self.old }

        ensures taken { OnOk result (HasTaken (break_before self.old.ahead ++ next_of self.old.ahead) self.old self.new) }
        ensures branch { IfOk result (λ few. few ≡ true → IsBranch self.new) }
        ensures many { IfOk result (λ few. few ≡ false → 4194304 < held_count (shown self.new)) }
    {
        self.plain = false;
        let Some(ahead) = &mut self.ahead else {
            return Ok(true);
        };
        let routine = &mut *self.routine;
        let more = hand_cut(routine, ahead)?;
        let few = routine.most_limit().is_none();
        if !more {
            self.ahead = None;
        }
        Ok(few)
    }

    /// Whether a box or rule waits. Before the first box of a page a break need not be put in.
    pub fn holds_box(&self) -> bool
        requires { IsBranch self.now }
        ensures { result ≡ holds_box (shown self.now).waiting }
    {
        holds_box(&self.routine.store, self.routine.builder.waiting())
    }

    // Whether what waits ends in a kern, acts behind it aside.
    fn ends_in_kern(&self) -> bool
        requires { IsBranch self.now }
        ensures { result ≡ kern_last false (shown self.now).waiting }
    {
        ends_in_kern(&self.routine.store, self.routine.builder.waiting())
    }

    // Whether what waits ends in a node that does not vanish at the top of a page, acts aside.
    fn ends_lasting(&self) -> bool
        requires { IsBranch self.now }
        ensures { result ≡ ends_lasting (map node_shape (without_acts (shown self.now).waiting)) }
    {
        ends_lasting(&self.routine.store, self.routine.builder.waiting())
    }

    // Whether a node that waits sets a parameter.
    fn sets_any(&self) -> bool
        requires { IsBranch self.now }
        ensures { result ≡ sets_any (shown self.now).waiting }
    {
        sets_any(&self.routine.store, self.routine.builder.waiting())
    }

    /// A copy, from which the search goes on as if there were no other. It fails only if memory runs out.
    #[inline(never)]
    pub fn copy(&self, alloc: Global) -> Result<Self, AllocError>
        requires { IsBranch self.now }

        ensures branch { IfOk result IsBranch }
        ensures state { IfOk result (λ c. shown c ≡ shown self.now) }
        ensures ahead { IfOk result (λ c. c.ahead ≡ self.now.ahead) }
        ensures plain { IfOk result (λ c. c.plain ≡ self.now.plain) }
    {
        let routine = Box::new(alloc, self.routine.copy(alloc)?)?;
        Ok(Branch {
            routine,
            ahead: self.ahead,
            plain: self.plain,
        })
    }

    /// Becomes a copy of another state in place, as [`Self::copy`] makes one. It fails only if memory runs out, and is not to be
    /// used then.
    pub fn copy_from(&mut self, other: &Branch<'a>, alloc: Global) -> Result<(), AllocError>
        requires { IsBranch other.now }

        ensures branch { OnOk result (IsBranch self.new) }
        ensures state { OnOk result (shown self.new ≡ shown other.now) }
        ensures ahead { OnOk result (self.new.ahead ≡ other.now.ahead) }
        ensures plain { OnOk result (self.new.plain ≡ other.now.plain) }
    {
        copy_routine(alloc, &mut self.routine, &other.routine)?;
        self.ahead = other.ahead;
        self.plain = other.plain;
        Ok(())
    }

    /// Fills the page of what waits, and returns where it stops. `happened` holds the places that were tried then. The state is
    /// not to be used then. It fails only if memory runs out.
    pub(crate) fn stop(&mut self, happened: &mut Vec<Happening>) -> Result<Stop, AllocError>
        requires { IsBranch self.old }

        ensures { IfOk result (λ s. StopsAt (shown self.old) happened.new.items s) }
    {
        let plain = self.waits_plain();
        let steady = !self.sets_any();
        happened.clear();
        let filled = self.routine.fill(true, happened)?;
        match filled {
            PageFilled::Fires(_) => Ok(Stop::Line(last_line(happened.as_slice()))),
            PageFilled::Ends(ending) => {
                let dear = are_dear(happened.as_slice());
                Ok(stop_of(ending, steady, dear, plain))
            }
        }
    }

    /// The line of the next item, if that is a penalty or glue at which a page may end. Other items are not looked at.
    pub(crate) fn next_place(&self) -> Option<u32>
        requires { IsBranch self.now }

        ensures { IfSome result (λ line. IsPlaceNext (shown self.now).waiting self.now.ahead line) }
    {
        let Some(ahead) = &self.ahead else {
            return None;
        };
        let items = ahead.items();
        if items.is_empty() {
            return None;
        }
        let item = &items[0];
        if self.is_place(&item.kind) {
            Some(item.line)
        } else {
            None
        }
    }

    // Whether an item of this kind is a legal place behind what waits.
    fn is_place(&self, kind: &ItemKind) -> bool
        requires { IsBranch self.now }
        ensures { result ≡ is_place_item (shown self.now).waiting kind.now }
    {
        match kind {
            ItemKind::Penalty(penalty) => *penalty < INF_PENALTY,
            ItemKind::Skip(_) => self.ends_lasting(),
            _ => false,
        }
    }

    /// Fills the page of what waits and serves it if it fires. `places` are the penalties at the galley's places, and `happened`
    /// holds what happened then.
    ///
    /// If it does not fire, the search goes on from a copy that was made before. It fails only if memory runs out.
    pub fn fill(
        &mut self,
        places: &Penalties,
        happened: &mut Vec<Happening>,
    ) -> Result<Filled, AllocError>
        requires branch { IsBranch self.old }
        requires fit { IsPenalties places.now }

        ensures { IfOk result (λ f. FillsTo places.now.places.items self.old f self.new) }
    {
        let kern = self.ends_in_kern();
        self.plain = false;
        let routine = &mut *self.routine;
        happened.clear();
        let page = match routine.fill(true, happened)? {
            PageFilled::Fires(page) => page,
            PageFilled::Ends(ending) => return Ok(unfired(ending, kern)),
        };
        if let Some(ending) = routine.serve_unlimited(page, happened)? {
            return Ok(unserved(ending));
        }
        let demerits = page_demerits(routine, places, happened.as_slice());
        // What was shipped is closed, so that no copy holds it.
        routine.done_with(happened.as_slice());
        Ok(Filled::Fired { demerits })
    }
}

// The line of the last place that was tried; 0 if none was.
fn last_line(happened: &[Happening]) -> u32 {
    let mut line = 0;
    for happening in happened {
        if let Happening::Tried(tried) = happening {
            line = tried.line;
        }
    }
    line
}

// Where a page stops before whose firing the run ends so. The places that were tried tell its prices if no node that waits sets a
// parameter, and none of the places costs less than a forced break.
fn stop_of(ending: Ending, steady: bool, dear: bool, plain: bool) -> Stop
    ensures { (told flat : Bool) → result ≡ Nowhere told flat → (ending ≡ Done) × ((told ≡ true → (steady ≡ true) × (dear ≡ true)) × (flat ≡ plain)) }
{
    match ending {
        Ending::Done => Stop::Nowhere {
            told: steady && dear,
            plain,
        },
        _ => Stop::Line(0),
    }
}

// What becomes of a page if the run ends so before one fires, and what waited ends in a kern or does not.
fn unfired(ending: Ending, kern: bool) -> Filled
    ensures { result ≡ unfired ending kern }
{
    match ending {
        Ending::Done => Filled::Quiet,
        _ => stopped(kern),
    }
}

// The same if the run does not end well.
fn stopped(kern: bool) -> Filled
    ensures { result ≡ stopped kern }
{
    if kern { Filled::Full } else { Filled::Refused }
}

// What becomes of a page if the run ends so with its firing.
fn unserved(ending: Ending) -> Filled
    ensures { result ≡ unserved ending }
{
    match ending {
        Ending::NodeLimit { .. } => Filled::TooMany,
        _ => Filled::Refused,
    }
}

// The line of a place; 0 if there is none.
fn line_of(place: Option<Try>) -> u32
    ensures { result ≡ line_of place }
{
    match place {
        Some(t) => t.line,
        None => 0,
    }
}

// The demerits of the page that a routine served last, by what happened.
fn page_demerits(routine: &Routine<'_>, places: &Penalties, happened: &[Happening]) -> i128
    requires ready { IsReady routine.now }
    requires tried { IfSome (last_champion (events_of routine.now.store happened.now)) IsTried }
    requires fit { IsPenalties places.now }

    ensures value { result ≡ demerits_if (rating (state_of routine.now).params places.now.places.items 0 (last_champion (events_of routine.now.store happened.now)) (floats_waiting (state_of routine.now).floats) (insertions_first (state_of routine.now).waiting)) }
    ensures low { pos 0 ≤ℤ result }
    ensures high { result ≤ℤ pos 352689971456 }
{
    let held = insertions_first(&routine.store, routine.builder.waiting(), &routine.left);
    let waiting = routine.machine.floats_waiting();
    let params = routine.machine.params();
    // The number of the page is not among the demerits.
    let champion = last_champion(happened);
    let there = places.from_line(line_of(champion));
    match rate(params, there, 0, champion, waiting, held) {
        Some(rating) => rating.demerits,
        None => 0,
    }
}
