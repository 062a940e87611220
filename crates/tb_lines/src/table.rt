//! The best way to each break: one break before it (TeX: The Program §829). Only breaks that can still begin a line are
//! tried.
ghost use Rattle.std.specs.Prelude.{◌≡◌, ◌≤◌, ◌<◌, ◌+◌, ℕ, pos, negsuc, ◌≤ℤ◌, true, length, IfOk, IfSome, Option};
ghost use Rattle.tb_lines.specs.Entries.{is_legal, line_start, penalty_at};
ghost use Rattle.tb_lines.specs.Demerits.{line_demerits, penalty_demerits};
ghost use Rattle.tb_lines.specs.LeastSolution.{sum_of_both};
ghost use Rattle.tb_lines.specs.SolutionLines.{step_demerits, last_forced, is_within};
ghost use Rattle.tb_lines.specs.Table.{total_in, offer, with_offer, best_among, row_at, table_of};
ghost use Rattle.tb_lines.specs.ActiveBreaks.{IsActive, IsPassedBy};
ghost use Rattle.tb_lines.specs.Prepared.{AreRunning, AreFirstWords, AreFloors, IsSmallTotal, HasSmallTotals};

use crate::demerits::{penalty_demerits, sums_demerits};
use crate::entries::{Entry, entry_penalty, is_forced_entry, is_legal};
use crate::sums::{Sums, between, floors, least_width, running_sums, word_starts};
use crate::text::LineParams;
use std::alloc::{AllocError, Global};

/// The best way to a break: its demerits, and the break before it; `None` if the paragraph begins before it.
#[derive(Clone, Copy)]
pub struct Best {
    /// The demerits of the way.
    pub total: i64,
    /// The place of the break before it.
    pub from: Option<usize>,
}

/// Which breaks can still begin a line: none before the last forced break, and none before `low`.
#[derive(Clone, Copy)]
pub struct Active {
    /// The place of the last forced break, if there is one.
    pub forced: Option<usize>,
    /// No break before this place can begin a line any more.
    pub low: usize,
}

/// A paragraph's list, with its running sums, and for each place the first word and the least width before a break from
/// there on.
#[derive(Drop)]
pub struct Prepared<'a> {
    params: &'a LineParams,
    entries: &'a [Entry],
    sums: Vec<Sums>,
    starts: Vec<usize>,
    floors: Vec<u64>,
    ghost running: { AreRunning entries.now sums.items },
    ghost words: { AreFirstWords entries.now starts.items },
    ghost narrow: { AreFloors entries.now floors.items },
    ghost few: { length entries.now ≤ 65536 },
}

// What a break offers: the demerits of the way to it and those of the line after it.
fn sum_of_both(place: usize, before: Option<Best>, line: Option<i64>) -> Option<i64>
    requires few { place < 65536 }
    requires before { IfSome before (λ b. IsSmallTotal (place + 1) b.total) }
    requires low { IfSome line (λ d. negsuc 8589934591 ≤ℤ d) }
    requires high { IfSome line (λ d. d ≤ℤ pos 8589934592) }
    ensures value { result ≡ sum_of_both (total_in before) line }
    ensures small { IfSome result (λ d. IsSmallTotal (place + 2) d) }
{
    match before {
        Some(best) => match line {
            Some(demerits) => Some(best.total + demerits),
            None => None,
        },
        None => None,
    }
}

// The best with one more offer.
fn with_offer(
    to: usize,
    best: Option<Best>,
    from: Option<usize>,
    offer: Option<i64>,
) -> Option<Best>
    requires best { IfSome best (λ b. IsSmallTotal (to + 1) b.total) }
    requires offer { IfSome offer (λ d. IsSmallTotal (to + 1) d) }
    ensures value { result ≡ with_offer best from offer }
    ensures small { IfSome result (λ b. IsSmallTotal (to + 1) b.total) }
{
    match offer {
        Some(total) => match best {
            Some(kept) if total > kept.total => best,
            _ => Some(Best { total, from }),
        },
        None => best,
    }
}

impl<'a> Prepared<'a> {
    /// A paragraph's list, prepared.
    pub fn new(
        alloc: Global,
        params: &'a LineParams,
        entries: &'a [Entry],
    ) -> Result<Prepared<'a>, AllocError>
        requires { length entries.now ≤ 65536 }
        ensures { IfOk result (λ p. (p.params.now ≡ params.now) × (p.entries.now ≡ entries.now)) }
    {
        let sums = running_sums(alloc, entries)?;
        let starts = word_starts(alloc, entries)?;
        let floors = floors(alloc, entries, sums.as_slice())?;
        Ok(Prepared {
            params,
            entries,
            sums,
            starts,
            floors,
        })
    }

    // Where the sums of a line begin.
    fn line_start(&self, from: Option<usize>, to: usize) -> usize
        requires within { is_within from to ≡ true }
        requires inside { to < length self.now.entries.now }
        ensures { result ≡ line_start self.now.entries.now from to }
    {
        match from {
            Some(place) => self.starts[place + 1].min(to),
            None => 0,
        }
    }

    // What the penalty of a break adds to each line that ends there.
    fn ending(&self, to: usize) -> i64
        requires inside { to < length self.now.entries.now }
        ensures value { result ≡ penalty_demerits (penalty_at self.now.entries.now to) }
        ensures low { negsuc 4294967295 ≤ℤ result }
        ensures high { result ≤ℤ pos 4294967296 }
    {
        penalty_demerits(entry_penalty(&self.entries[to]))
    }

    // The demerits of the line from a break, or the paragraph's start, to another; `None` if it is not feasible. `ending` is
    // what the penalty of the second adds. It is needed for each pair of breaks that is tried, so it is inlined into the loop
    // over them.
    #[inline(always)]
    fn line_demerits(&self, from: Option<usize>, to: usize, ending: i64) -> Option<i64>
        requires within { is_within from to ≡ true }
        requires inside { to < length self.now.entries.now }
        requires ending { ending ≡ penalty_demerits (penalty_at self.now.entries.now to) }
        requires ending_low { negsuc 4294967295 ≤ℤ ending }
        requires ending_high { ending ≤ℤ pos 4294967296 }
        ensures value { result ≡ line_demerits self.now.params.now self.now.entries.now from to }
        ensures low { IfSome result (λ d. negsuc 8589934591 ≤ℤ d) }
        ensures high { IfSome result (λ d. d ≤ℤ pos 8589934592) }
    {
        let start = self.line_start(from, to);
        let sums = between(&self.sums[start], &self.sums[to]);
        sums_demerits(self.params, &sums, ending)
    }

    // The best with what one more break offers.
    fn with_row(
        &self,
        best: Option<Best>,
        row: Option<Best>,
        from: usize,
        to: usize,
        ending: i64,
    ) -> Option<Best>
        requires within { from < to }
        requires inside { to < length self.now.entries.now }
        requires ending { ending ≡ penalty_demerits (penalty_at self.now.entries.now to) }
        requires ending_low { negsuc 4294967295 ≤ℤ ending }
        requires ending_high { ending ≤ℤ pos 4294967296 }
        requires best { IfSome best (λ b. IsSmallTotal (to + 1) b.total) }
        requires row { IfSome row (λ b. IsSmallTotal (from + 1) b.total) }
        ensures value { result ≡ with_offer best (Option.Some from) (sum_of_both (total_in row) (line_demerits self.now.params.now self.now.entries.now (Option.Some from) to)) }
        ensures small { IfSome result (λ b. IsSmallTotal (to + 1) b.total) }
    {
        if row.is_none() {
            return best;
        }
        let offer = sum_of_both(from, row, self.line_demerits(Some(from), to, ending));
        with_offer(to, best, Some(from), offer)
    }

    // The way from the start to a break. It is kept out of the loop over breaks, into which a line's demerits are inlined.
    #[inline(never)]
    fn start_row(&self, forced: Option<usize>, to: usize) -> Option<Best>
        requires inside { to < length self.now.entries.now }
        requires legal { is_legal self.now.entries.now to ≡ true }
        requires forced { forced ≡ last_forced self.now.entries.now to }
        ensures value { result ≡ with_offer Option.None Option.None (sum_of_both (Option.Some (pos 0)) (step_demerits self.now.params.now self.now.entries.now Option.None to)) }
        ensures small { IfSome result (λ b. IsSmallTotal (to + 1) b.total) }
    {
        match forced {
            None => with_offer(
                to,
                None,
                None,
                self.line_demerits(None, to, self.ending(to)),
            ),
            Some(_) => None,
        }
    }

    // Whether each line from a break to a place or past it is too wide for its shrink.
    fn is_too_wide(&self, from: usize, to: usize) -> bool
        requires within { from < to }
        requires inside { to < length self.now.entries.now }
        ensures { result ≡ true → (j : ℕ) → to ≤ j → step_demerits self.now.params.now self.now.entries.now (Option.Some from) j ≡ Option.None }
    {
        let start = self.starts[from + 1];
        start <= to
            && u64::from(self.params.hsize) + least_width(&self.sums[start]) < self.floors[to]
    }

    // Whether a break with this row begins no line to a place or past it.
    fn is_passed(&self, row: Option<Best>, from: usize, to: usize) -> bool
        requires within { from < to }
        requires inside { to < length self.now.entries.now }
        ensures { result ≡ true → IsPassedBy self.now.params.now self.now.entries.now to row from }
    {
        row.is_none() || self.is_too_wide(from, to)
    }

    // Without the first breaks that begin no line to a place or past it.
    fn active_at(&self, rows: &[Option<Best>], active: Active, to: usize) -> Active
        requires inside { to < length self.now.entries.now }
        requires rows { rows.now ≡ table_of self.now.params.now self.now.entries.now to }
        requires active { IsActive self.now.params.now self.now.entries.now to active }
        ensures { IsActive self.now.params.now self.now.entries.now to result }
    {
        let mut low = active.low;
        'passed: while low < to && self.is_passed(rows[low], low, to) {
            low += 1;
        }
        Active {
            forced: active.forced,
            low,
        }
    }

    // After one more place: before a forced break no later line begins.
    fn past(&self, active: Active, place: usize) -> Active
        requires inside { place < length self.now.entries.now }
        requires active { IsActive self.now.params.now self.now.entries.now place active }
        ensures { IsActive self.now.params.now self.now.entries.now (place + 1) result }
    {
        if is_forced_entry(&self.entries[place]) {
            Active {
                forced: Some(place),
                low: place,
            }
        } else {
            active
        }
    }

    // The best way to a legal break.
    fn best_before(&self, rows: &[Option<Best>], active: Active, to: usize) -> Option<Best>
        requires inside { to < length self.now.entries.now }
        requires legal { is_legal self.now.entries.now to ≡ true }
        requires rows { rows.now ≡ table_of self.now.params.now self.now.entries.now to }
        requires totals { HasSmallTotals rows.now }
        requires active { IsActive self.now.params.now self.now.entries.now to active }
        ensures value { result ≡ best_among (offer (step_demerits self.now.params.now self.now.entries.now) (row_at rows.now) to) to }
        ensures small { IfSome result (λ b. IsSmallTotal (to + 1) b.total) }
    {
        let ending = self.ending(to);
        let mut best = self.start_row(active.forced, to);
        for from in active.low..to {
            best = self.with_row(best, rows[from], from, to, ending);
        }
        best
    }

    // The best way to a place; `None` too if no line may end there.
    fn row(&self, rows: &[Option<Best>], active: Active, to: usize) -> Option<Best>
        requires inside { to < length self.now.entries.now }
        requires rows { rows.now ≡ table_of self.now.params.now self.now.entries.now to }
        requires totals { HasSmallTotals rows.now }
        requires active { IsActive self.now.params.now self.now.entries.now to active }
        ensures value { result ≡ best_among (offer (step_demerits self.now.params.now self.now.entries.now) (row_at rows.now) to) to }
        ensures small { IfSome result (λ b. IsSmallTotal (to + 1) b.total) }
    {
        if !is_legal(self.entries, to) {
            return None;
        }
        self.best_before(rows, active, to)
    }

    /// The best way to each place of the list.
    pub fn table(&self, alloc: Global) -> Result<Vec<Option<Best>>, AllocError>
        ensures { IfOk result (λ v. v.items ≡ table_of self.now.params.now self.now.entries.now (length self.now.entries.now)) }
    {
        let mut rows: Vec<Option<Best>> = Vec::with_capacity(alloc, self.entries.len())?;
        let mut active = Active {
            forced: None,
            low: 0,
        };
        for to in 0..self.entries.len() {
            active = self.active_at(rows.as_slice(), active, to);
            let row = self.row(rows.as_slice(), active, to);
            rows.push(row)?;
            active = self.past(active, to);
        }
        Ok(rows)
    }
}
