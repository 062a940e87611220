//! The least solution of a paragraph (TeX: The Program §813).
ghost use Rattle.std.specs.Prelude.{◌≡◌, ◌≤◌, ◌<◌, ℕ, List, ◌∷◌, length, reverse, slice_get, IfOk, Option, MatchOption};
ghost use Rattle.tb_lines.specs.Entries.{list_of};
ghost use Rattle.tb_lines.specs.LeastSolution.{IsLeast, IsLeastOf, HasNone};
ghost use Rattle.tb_lines.specs.Table.{row_at, table_of, Follows, AreLinked, from_in};
ghost use Rattle.tb_lines.specs.declared.table.Best.{Best as LeastBest};
ghost use Rattle.tb_lines.specs.declared.text.Paragraph.{Paragraph as ParagraphOf};

use crate::entries::{Entry, list_of};
use crate::table::{Best, Prepared};
use crate::text::{Item, LineParams, Text};
use std::alloc::{AllocError, Global};
use std::marker::Model;

/// A way to break a paragraph. In contracts it is its breaks, which are places of the paragraph's list counted from 0,
/// in rising order, and its total demerits.
#[derive(Drop)]
pub struct Solution {
    breaks: Vec<usize>,
    total: i64,
}

impl Model for Solution {
    ghost use Rattle.tb_lines.specs.Solution.{SolutionView};

    ghost Value = { SolutionView };

    ghost view = { λ s. record { breaks = s.breaks.items; total = s.total } };
}

impl Solution {
    /// The breaks in rising order. The last is the end of the paragraph's list.
    pub fn breaks(&self) -> &[usize]
        ensures { result.now ≡ self.now.breaks }
    {
        self.breaks.as_slice()
    }

    /// The total demerits of the lines.
    pub fn total(&self) -> i64
        ensures { result ≡ self.now.total }
    {
        self.total
    }

    // The solution of breaks from the last to the first.
    fn of_falling(breaks: Vec<usize>, total: i64) -> Solution
        ensures { result ≡ record { breaks = reverse breaks.items; total = total } }
    {
        let mut breaks = breaks;
        breaks.reverse();
        Solution { breaks, total }
    }
}

// The breaks that the table names before a place, from the last to the first, with the place before them.
fn named_breaks(
    alloc: Global,
    rows: &[Option<Best>],
    last: usize,
    from: Option<usize>,
) -> Result<Vec<usize>, AllocError>
    requires linked { AreLinked rows.now }
    requires inside { (i : ℕ) → from ≡ Option.Some i → (c : LeastBest) × (row_at rows.now i ≡ Option.Some c) }
    ensures { IfOk result (λ v. (js : List ℕ) × Follows (row_at rows.now) from js × (v.items ≡ last ∷ js)) }
{
    let mut breaks = Vec::new(alloc);
    breaks.push(last)?;
    let mut at = from;
    'back: while let Some(place) = at {
        breaks.push(place)?;
        at = break_before(rows, place);
    }
    Ok(breaks)
}

// What the table says of a place.
fn row_at(rows: &[Option<Best>], place: usize) -> Option<Best>
    ensures { result ≡ row_at rows.now place }
{
    match rows.get(place) {
        Some(row) => *row,
        None => None,
    }
}

// The break before a place, by the table.
fn break_before(rows: &[Option<Best>], place: usize) -> Option<usize>
    ensures { result ≡ from_in (row_at rows.now place) }
{
    match row_at(rows, place) {
        Some(best) => best.from,
        None => None,
    }
}

// The solution that the table names.
fn solution_by(
    alloc: Global,
    params: &LineParams,
    entries: &[Entry],
    rows: &[Option<Best>],
) -> Result<Option<Solution>, AllocError>
    requires some { 0 < length entries.now }
    requires rows { rows.now ≡ table_of params.now entries.now (length entries.now) }
    ensures { IfOk result (λ o. MatchOption o (HasNone params.now entries.now) (λ s. IsLeast params.now entries.now (reverse s.breaks) s.total)) }
{
    let last = entries.len() - 1;
    match row_at(rows, last) {
        Some(best) => {
            let breaks = named_breaks(alloc, rows, last, best.from)?;
            Ok(Some(Solution::of_falling(breaks, best.total)))
        }
        None => Ok(None),
    }
}

// The least solution of a list that ends with a forced break; `None` exactly if no solution is feasible.
fn least_solution(
    alloc: Global,
    params: &LineParams,
    entries: &[Entry],
) -> Result<Option<Solution>, AllocError>
    requires some { 0 < length entries.now }
    requires few { length entries.now ≤ 65536 }
    ensures { IfOk result (λ o. MatchOption o (HasNone params.now entries.now) (λ s. IsLeast params.now entries.now (reverse s.breaks) s.total)) }
{
    let prepared = Prepared::new(alloc, params, entries)?;
    let rows = prepared.table(alloc)?;
    solution_by(alloc, params, entries, rows.as_slice())
}

// The least solution of items.
fn break_items(
    alloc: Global,
    params: &LineParams,
    items: &[Item],
) -> Result<Option<Solution>, AllocError>
    requires few { length items.now ≤ 5000 }
    ensures { IfOk result (λ o. MatchOption o (HasNone params.now (list_of items.now)) (λ s. IsLeastOf params.now items.now s)) }
{
    let entries = list_of(alloc, items)?;
    least_solution(alloc, params, entries.as_slice())
}

/// The least solution of a text's paragraph, counted from 0: of all ways to break it into feasible lines the one of least
/// total demerits, and of several such ways the one whose breaks, read from the last, are lexicographically greatest.
/// `None` exactly if no way is feasible. It fails only if memory runs out.
pub fn break_par(alloc: Global, text: &Text, n: usize) -> Result<Option<Solution>, AllocError>
    requires inside { n < length text.now.paragraphs }
    ensures { (p : ParagraphOf) → slice_get text.now.paragraphs n ≡ Option.Some p → IfOk result (λ o. MatchOption o (HasNone text.now.params (list_of p.items)) (λ s. IsLeastOf text.now.params p.items s)) }
{
    let paragraph = &text.paragraphs.as_slice()[n];
    break_items(alloc, &text.params, paragraph.items.as_slice())
}
