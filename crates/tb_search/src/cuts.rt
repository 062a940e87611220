//! Breaks that are put in: the page that each makes, unless it costs too much, or a state that is kept stands for the one after it.

ghost use Rattle.std.specs.Prelude.{◌≡◌, ◌+◌, ◌<◌, ◌≤◌, pos, ◌+ℤ◌, ◌≤ℤ◌, true, false, length, reverse, get_or, Some, IfSome, OnOk, ◌-ℤ◌, ◌-◌};
ghost use Rattle.tb_builder.specs.Reach.{holds_box};
ghost use Rattle.tb_rate.specs.Places.{place_penalties};
ghost use Rattle.tb_best.specs.ItemsAhead.{all_ahead};
ghost use Rattle.tb_search.specs.Branches.{shown, IsBranch};
ghost use Rattle.tb_search.specs.AheadInCode.{items_ahead};
ghost use Rattle.tb_search.specs.Told.{TellsBehind};
ghost use Rattle.tb_search.specs.Plain.{CostsAbove, IsBeaten, LeavesPlain};
ghost use Rattle.tb_search.specs.Starts.{IsReached, IsTable};
ghost use Rattle.tb_search.specs.Continues.{Continues, IsCutSearched};

use crate::calm::Told;
use crate::plain::place_of_better;
use crate::prices::{Priced, are_above};
use crate::search::BestFault;
use crate::table::{Table, Way, breaks_with};
use crate::trials::Trials;
use crate::{Branch, Filled};
use std::alloc::Global;

impl<'a> Table<'a> {
    /// The page into which a break is put before the next item, if it has a box and a break may be put in there. `told` is what
    /// the places tell that were tried with items behind.
    pub(crate) fn cut(
        &mut self,
        alloc: Global,
        left: usize,
        branch: &Branch<'a>,
        way: &Way,
        told: Option<&Told>,
        trials: &mut Trials<'a>,
    ) -> Result<(), BestFault>
        requires table { IsTable self.old }
        requires some { 0 < left }
        requires level { left ≤ length self.old.starts.items }
        requires inside { left ≤ length (all_ahead self.old.galley.now) }
        requires reached { IsReached self.old.galley.now left (record { branch = branch.now; way = way.now }) }
        requires high { way.now.demerits ≤ℤ self.old.bound }
        requires told { IfSome told (λ t. TellsBehind (place_penalties self.old.galley.now.items) (shown branch.now) (items_ahead self.old.galley.now left) t.now) }

        ensures table { OnOk result (IsTable self.new) }
        ensures continues { OnOk result (Continues self.old self.new) }
        ensures searched { OnOk result (IsCutSearched self.new (shown branch.now) (items_ahead self.old.galley.now left) way.now.demerits (reverse way.now.breaks.items)) }
    {
        let number = self.is_place.len() - left;
        if !self.is_place[number] {
            return Ok(());
        }
        if way.demerits + 1000 > self.bound {
            return Ok(());
        }
        if !branch.holds_box() {
            return Ok(());
        }
        let Some(told) = told else {
            return self.put_break(alloc, left, branch, way, number, false, trials);
        };
        let Some(line) = branch.next_place() else {
            return self.put_break(alloc, left, branch, way, number, false, trials);
        };
        let prices = told.prices.as_slice();
        if self.is_too_dear(way, line, prices) {
            return Ok(());
        }
        let plain = branch.is_plain_page(told.plain);
        if plain {
            if self.is_beaten(left - 1, branch, way, line, prices) {
                return Ok(());
            }
        }
        self.put_break(alloc, left, branch, way, number, plain, trials)
    }

    // Whether the page costs too much with a break on this line, by the prices.
    fn is_too_dear(&self, way: &Way, line: u32, prices: &[Priced]) -> bool
        requires table { IsTable self.now }
        requires low { pos 0 ≤ℤ way.now.demerits }
        requires high { (way.now.demerits +ℤ pos 1000) ≤ℤ self.now.bound }

        ensures { result ≡ true → CostsAbove line (self.now.bound -ℤ (way.now.demerits +ℤ pos 1000)) prices.now }
    {
        are_above(prices, line, self.bound - (way.demerits + 1000))
    }

    // Whether a state is kept that may stand for the one after the plain page with a break on this line, with fewer demerits.
    // That one would have so many items ahead.
    fn is_beaten(
        &self,
        behind: usize,
        branch: &Branch<'a>,
        way: &Way,
        line: u32,
        prices: &[Priced],
    ) -> bool
        requires table { IsTable self.now }
        requires level { behind < length self.now.starts.items }
        requires branch { IsBranch branch.now }
        requires low { pos 0 ≤ℤ way.now.demerits }
        requires high { (way.now.demerits +ℤ pos 1000) ≤ℤ self.now.bound }

        ensures { result ≡ true → IsBeaten self.now behind branch.now way.now line prices.now }
    {
        let starts = self.starts[behind].as_slice();
        place_of_better(starts, branch, way, line, prices, self.may_alternate).is_some()
    }

    // The page into which a break is put before the next item, which has this number. `plain` tells that the page is plain.
    fn put_break(
        &mut self,
        alloc: Global,
        left: usize,
        branch: &Branch<'a>,
        way: &Way,
        number: usize,
        plain: bool,
        trials: &mut Trials<'a>,
    ) -> Result<(), BestFault>
        requires table { IsTable self.old }
        requires some { 0 < left }
        requires level { left ≤ length self.old.starts.items }
        requires inside { left ≤ length (all_ahead self.old.galley.now) }
        requires number { number + left ≡ length (all_ahead self.old.galley.now) }
        requires place { get_or self.old.is_place.items number false ≡ true }
        requires boxed { holds_box (shown branch.now).waiting ≡ true }
        requires reached { IsReached self.old.galley.now left (record { branch = branch.now; way = way.now }) }
        requires high { (way.now.demerits +ℤ pos 1000) ≤ℤ self.old.bound }
        requires plain { plain ≡ true → LeavesPlain self.old.galley.now (left - 1) (shown branch.now) }

        ensures table { OnOk result (IsTable self.new) }
        ensures continues { OnOk result (Continues self.old self.new) }
        ensures searched { OnOk result (IsCutSearched self.new (shown branch.now) (items_ahead self.old.galley.now left) way.now.demerits (reverse way.now.breaks.items)) }
    {
        trials.page.copy_from(branch, alloc)?;
        if !trials.page.cut()? {
            return Err(BestFault::Choices);
        }
        let breaks = breaks_with(alloc, way.breaks.as_slice(), Some(number as u32))?;
        match trials.page.fill(&self.penalties, &mut trials.happened)? {
            Filled::Fired { demerits } => {
                let way = Way {
                    breaks,
                    demerits: way.demerits + 1000 + demerits,
                };
                // Most breaks cost too much: no state is made for them.
                if way.demerits > self.bound {
                    return Ok(());
                }
                trials.page.plain = plain;
                self.go_on(alloc, left - 1, way, trials)
            }
            Filled::Quiet | Filled::Full | Filled::Refused => Ok(()),
            Filled::TooMany => Err(BestFault::Choices),
        }
    }
}
