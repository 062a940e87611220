//! A beam search: from each stretch of items only the best states are gone on. It finds good pages soon, and their demerits are
//! a bound for the search of the best ones.

ghost use Rattle.std.specs.Prelude.{◌≡◌, ◌+◌, ◌≤◌, length, pos, ◌≤ℤ◌, [], Some, IfOk, OnOk};
ghost use Rattle.std.specs.List.{AllByRecursion};
ghost use Rattle.tb_best.specs.ItemsAhead.{all_ahead};
ghost use Rattle.tb_best.specs.PlanDemerits.{plan_demerits};
ghost use Rattle.tb_galley.specs.Valid.{IsValid};
ghost use Rattle.tb_search.specs.Starts.{IsStart, IsTable};

use crate::search::BestFault;
use crate::table::{Start, Table};
use crate::trials::Trials;
use std::alloc::Global;
use tb_galley::Galley;

// The states of so many items behind a state are compared with it: more items than a page holds.
const WINDOW: usize = 256;

// How many of these states have fewer demerits than this.
fn count_below(starts: &[Start<'_>], demerits: i128) -> usize {
    starts
        .iter()
        .filter(|start| start.way.demerits < demerits)
        .count()
}

/// The demerits of good pages, perhaps not of the best: no more than the bound. Of the states that wait, one is left out if so
/// many with fewer demerits have taken more items.
pub(crate) fn beam_bound<'a>(
    alloc: Global,
    galley: &'a Galley,
    greedy: i128,
    bound: i128,
    width: usize,
    trials: &mut Trials<'a>,
) -> Result<i128, BestFault>
    requires valid { IsValid galley.now }
    requires sum { plan_demerits galley.now [] ≡ Some greedy }
    requires low { pos 0 ≤ℤ bound }
    requires bound { bound ≤ℤ greedy }
    requires high { greedy ≤ℤ pos 1000000000000000000000000000 }

    ensures low { IfOk result (λ d. pos 0 ≤ℤ d) }
    ensures fewer { IfOk result (λ d. d ≤ℤ bound) }
{
    let mut table = Table::new(alloc, galley, greedy, bound)?;
    table.begin(alloc, galley, trials)?;
    table.search_beam(alloc, width, trials)?;
    let found = table.best.demerits;
    if found < bound {
        return Ok(found);
    }
    Ok(bound)
}

impl<'a> Table<'a> {
    // Goes on from the states that wait, first from those with the most items ahead, unless so many are better.
    fn search_beam(
        &mut self,
        alloc: Global,
        width: usize,
        trials: &mut Trials<'a>,
    ) -> Result<(), BestFault>
        requires { IsTable self.old }

        ensures table { OnOk result (IsTable self.new) }
    {
        'levels: while let Some(starts) = self.starts.pop() {
            let left = self.starts.len();
            self.expand_few(alloc, left, starts, width, trials)?;
        }
        Ok(())
    }

    // The pages that may come next after each of these states, which have so many items ahead, unless so many are better.
    fn expand_few(
        &mut self,
        alloc: Global,
        left: usize,
        starts: Vec<Start<'a>>,
        width: usize,
        trials: &mut Trials<'a>,
    ) -> Result<(), BestFault>
        requires table { IsTable self.old }
        requires level { left ≤ length self.old.starts.items }
        requires inside { left ≤ length (all_ahead self.old.galley.now) }
        requires starts { AllByRecursion (IsStart self.old.galley.now self.old.bound left) starts.items }

        ensures table { OnOk result (IsTable self.new) }
        ensures levels { OnOk result (length self.new.starts.items ≡ length self.old.starts.items) }
    {
        let mut starts = starts;
        'starts: while let Some(start) = starts.pop() {
            if self.has_better(start.way.demerits, width) {
                trials.give_back(start.branch);
            } else {
                self.expand(alloc, left, start, trials)?;
            }
        }
        Ok(())
    }

    // Whether so many states with fewer demerits than this have taken more items.
    fn has_better(&self, demerits: i128, width: usize) -> bool {
        let last = self.starts.len();
        let first = last.saturating_sub(WINDOW);
        let mut more = width;
        for starts in &self.starts.as_slice()[first..last] {
            let count = count_below(starts.as_slice(), demerits);
            if count >= more {
                return true;
            }
            more -= count;
        }
        false
    }
}
