//! Single steps of a firing, as they are seen: each changes one thing, or tells of one.
ghost use Rattle.std.specs.Prelude.{◌≡◌, ◌≤◌, ◌+◌, true, false, ◌||◌, [], ◌∷◌, ◌++◌, map, take, slice_get, OnOk, IfSome, MatchBool, if◌then◌else◌};
ghost use Rattle.tb_scaled.specs.Amount.{IsAmount};
ghost use Rattle.tb_float.specs.Lists.{IsWaiting, floats_of, entry_count};
ghost use Rattle.tb_float.specs.Ranges.{AreFloatParams, IsSizedEntry, IsSizedMargin};
ghost use Rattle.tb_float.specs.Rooms.{IsArea};
ghost use Rattle.tb_node.specs.Fit.{IsExtent};
ghost use Rattle.tb_output.specs.Clear.{deferred_again, double_again};
ghost use Rattle.tb_output.specs.Columns.{single_wanted};
ghost use Rattle.tb_output.specs.Machine.{AreOutputParams};
ghost use Rattle.tb_told.specs.AreaTold.{told_call};
ghost use Rattle.tb_told.specs.Tales.{tales, decisions, column_tales, back_tales};
ghost use Rattle.tb_why.specs.Seen.{spot_seen, told_unless, with_lists, fill_told, fill_seen, fill_double_told, fill_double_seen, is_last, ship_told, ship_seen, without_double_seen, after_column_seen, without_column_seen, note_seen};
ghost use Rattle.tb_why.specs.SeenSteps.{TakesCompany, TakesNone};

use crate::Seen;
use crate::lists::{
    defer_areas, defer_double, empty, empty_column, single_wanted, tell_back, wide_part,
};
use std::alloc::AllocError;
use tb_float::{Entry, Part, Suppress};
use tb_fpage::Wanted;
use tb_margin::place_note;
use tb_node::{Float, Margin, Where};
use tb_param::{Params, exceeds};
use tb_told::{
    Piece, Spot, Tale, take_company, tell_called, tell_column, tell_doubled, tell_filled,
};

// Nothing is kept out of the areas of floats.
const NO_SUPPRESS: Suppress = Suppress {
    all: false,
    top: false,
    bottom: false,
};

impl Seen {
    /// The page and the column that are being made.
    pub(crate) fn spot(&self) -> Spot
        ensures { result ≡ spot_seen self.now }
    {
        Spot {
            page: self.number,
            second: self.two_columns && !self.first_column,
        }
    }

    /// How many entries a list has.
    pub(crate) fn count(&self, part: Part) -> usize
        ensures { result ≡ entry_count part self.now.floats }
    {
        self.pool.len(part)
    }

    /// What the next column of floats is made for.
    pub(crate) fn wanted(&self, p: &Params, clearing: bool) -> Wanted
        requires { AreOutputParams p.now }
        ensures { result ≡ single_wanted p.now self.now.floats clearing }
    {
        single_wanted(&self.pool, p, clearing)
    }

    /// Appends one tale, unless the page limit was met. Fails only if memory runs out.
    pub(crate) fn say(&self, pieces: &mut Vec<Piece>, tale: Tale) -> Result<(), AllocError>
        ensures { OnOk result (pieces.new.items ≡ pieces.old.items ++ told_unless self.now.over (Piece.Says tale ∷ [])) }
    {
        if self.over {
            return Ok(());
        }
        tell(pieces, tale)
    }

    /// Appends that the floats of these lines stand in the text of the next column. Fails only if memory runs out.
    pub(crate) fn stand(&self, pieces: &mut Vec<Piece>, here: &[u32]) -> Result<(), AllocError>
        ensures { OnOk result (pieces.new.items ≡ pieces.old.items ++ told_unless self.now.over (tales (map (λ l. Tale.Stands l) here.now))) }
    {
        if self.over {
            return Ok(());
        }
        tell_standing(pieces, here)
    }

    /// Appends that the floats of an area are taken back from their place. Fails only if memory runs out.
    pub(crate) fn back(
        &self,
        pieces: &mut Vec<Piece>,
        from: Part,
        place: Where,
    ) -> Result<(), AllocError>
        requires { IsArea from }
        ensures { OnOk result (pieces.new.items ≡ pieces.old.items ++ told_unless self.now.over (tales (back_tales place (floats_of from self.now.floats)))) }
    {
        if self.over {
            return Ok(());
        }
        tell_back(pieces, &self.pool, from, place)
    }

    /// Appends what is told where a column of floats is looked for in a list. Fails only if memory runs out.
    pub(crate) fn look(
        &self,
        pieces: &mut Vec<Piece>,
        wanted: &Wanted,
        from: Part,
    ) -> Result<(), AllocError>
        requires { IsWaiting from }
        ensures { OnOk result (pieces.new.items ≡ pieces.old.items ++ told_unless self.now.over (tales (column_tales (spot_seen self.now) wanted.now (floats_of from self.now.floats)))) }
    {
        if self.over {
            return Ok(());
        }
        tell_column(pieces, &self.pool, self.spot(), wanted, from)
    }

    /// The company that makes a column of floats leaves its list. False if there is none.
    pub(crate) fn take(&mut self, wanted: &Wanted, from: Part) -> bool
        requires { IsWaiting from }
        ensures { MatchBool result (TakesCompany wanted.now from self.old self.new) (TakesNone wanted.now from self.old self.new) }
    {
        take_company(&mut self.pool, from, wanted)
    }

    /// The floats that wait are tried for the next column, and told of. Fails only if memory runs out.
    pub(crate) fn fill(&mut self, pieces: &mut Vec<Piece>, p: &Params) -> Result<(), AllocError>
        requires { AreFloatParams p.now }
        ensures told { OnOk result (pieces.new.items ≡ pieces.old.items ++ fill_told p.now self.old) }
        ensures seen { OnOk result (self.new ≡ fill_seen p.now self.old) }
    {
        let told = pieces.len();
        tell_filled(pieces, &mut self.pool, p, &self.suppress)?;
        self.drop_if_over(pieces, told);
        Ok(())
    }

    /// The wide floats that wait are tried for the space above both columns, and told of. Fails only if memory runs out.
    pub(crate) fn fill_double(
        &mut self,
        pieces: &mut Vec<Piece>,
        p: &Params,
    ) -> Result<(), AllocError>
        requires { AreFloatParams p.now }
        ensures told { OnOk result (pieces.new.items ≡ pieces.old.items ++ fill_double_told p.now self.old) }
        ensures seen { OnOk result (self.new ≡ fill_double_seen p.now self.old) }
    {
        let told = pieces.len();
        tell_doubled(pieces, &mut self.pool, p, wide_part(p))?;
        self.drop_if_over(pieces, told);
        Ok(())
    }

    // Nothing is told once the page limit was met: the pieces behind the first `told` are dropped then.
    fn drop_if_over(&self, pieces: &mut Vec<Piece>, told: usize)
        ensures { pieces.new.items ≡ (if self.now.over then take told pieces.old.items else pieces.old.items) }
    {
        if self.over {
            pieces.truncate(told);
        }
    }

    /// A page is shipped, unless the page limit is met. Fails only if memory runs out.
    pub(crate) fn ship(&mut self, pieces: &mut Vec<Piece>, p: &Params) -> Result<(), AllocError>
        requires { AreOutputParams p.now }
        ensures told { OnOk result (pieces.new.items ≡ pieces.old.items ++ ship_told p.now self.old) }
        ensures seen { OnOk result (self.new ≡ ship_seen p.now self.old) }
    {
        if self.is_over(p) {
            self.stop();
            return Ok(());
        }
        tell_sent(pieces)?;
        self.next_page();
        Ok(())
    }

    // Whether the page limit was met, or is met now.
    fn is_over(&self, p: &Params) -> bool
        requires { AreOutputParams p.now }
        ensures over { result ≡ (self.now.over || is_last p.now self.now) }
        ensures few { result ≡ false → self.now.page ≤ 4194304 }
    {
        self.over || exceeds(self.page, p.maxpages)
    }

    // The page limit was met.
    fn stop(&mut self)
        ensures { self.new ≡ record self.old { over = true } }
    {
        self.over = true;
    }

    // The next page is made.
    fn next_page(&mut self)
        requires { self.old.page ≤ 4194304 }
        ensures { self.new ≡ record self.old { page = self.old.page + 1; number = self.old.number + 1 } }
    {
        self.page += 1;
        self.number += 1;
    }

    /// The page of two columns has taken the floats above them, and the next column is the first.
    pub(crate) fn end_pair(&mut self)
        ensures { self.new ≡ without_double_seen self.old }
    {
        empty(&mut self.pool, Part::Double);
        self.first_column = true;
    }

    /// The next column is the second.
    pub(crate) fn keep_left(&mut self)
        ensures { self.new ≡ record self.old { first_column = false } }
    {
        self.first_column = false;
    }

    /// The next column has no marginal note yet, and nothing is kept out of it.
    pub(crate) fn end_column(&mut self)
        ensures { self.new ≡ after_column_seen self.old }
    {
        self.note_bottom = 0;
        self.suppress = NO_SUPPRESS;
    }

    /// The floats of a text column leave with it.
    pub(crate) fn end_text(&mut self)
        ensures { self.new ≡ without_column_seen self.old }
    {
        empty_column(&mut self.pool);
    }

    /// The floats at the top and at the bottom wait again.
    pub(crate) fn defer_areas(&mut self)
        ensures { self.new ≡ with_lists (deferred_again self.old.floats) self.old }
    {
        defer_areas(&mut self.pool);
    }

    /// The floats above both columns wait again.
    pub(crate) fn defer_double(&mut self, p: &Params)
        ensures { self.new ≡ with_lists (double_again p.now self.old.floats) self.old }
    {
        defer_double(&mut self.pool, p);
    }

    /// The first of the current floats and notes.
    pub(crate) fn first(&self) -> Option<Entry>
        ensures value { result ≡ slice_get self.now.floats.current 0 }
        ensures sized { IfSome result IsSizedEntry }
    {
        match self.pool.entry(Part::Current, 0) {
            Some(entry) => Some(*entry),
            None => None,
        }
    }

    /// Appends what is told of a float that is called. Fails only if memory runs out.
    pub(crate) fn call(
        &self,
        pieces: &mut Vec<Piece>,
        p: &Params,
        page_height: i64,
        f: &Float,
    ) -> Result<(), AllocError>
        requires params { AreFloatParams p.now }
        requires height { IsAmount page_height }
        requires extent { IsExtent f.now.height }
        ensures { OnOk result (pieces.new.items ≡ pieces.old.items ++ tales (Tale.Calls (spot_seen self.now) f.now page_height ∷ decisions f.now (told_call p.now self.now.floats self.now.suppress page_height f.now))) }
    {
        tell(pieces, self.called(f, page_height))?;
        tell_called(pieces, &self.pool, p, &self.suppress, page_height, f)
    }

    // That a float is called at a text of this height.
    fn called(&self, f: &Float, page_height: i64) -> Tale
        ensures { result ≡ Tale.Calls (spot_seen self.now) f.now page_height }
    {
        Tale::Calls(self.spot(), *f, page_height)
    }

    /// What is told of a note beside a text of this height.
    pub(crate) fn beside(&self, p: &Params, height: i64, m: &Margin) -> Tale
        requires params { AreOutputParams p.now }
        requires height { IsAmount height }
        requires bottom { IsAmount self.now.note_bottom }
        requires margin { IsSizedMargin m.now }
        ensures { result ≡ note_seen p.now height m.now self.now }
    {
        let placed = place_note(
            m,
            p,
            self.number,
            self.two_columns,
            self.first_column,
            height,
            self.note_bottom,
        );
        Tale::Beside(self.spot(), *m, height, self.note_bottom, placed)
    }
}

// Appends a tale. Fails only if memory runs out.
fn tell(pieces: &mut Vec<Piece>, tale: Tale) -> Result<(), AllocError>
    ensures { OnOk result (pieces.new.items ≡ pieces.old.items ++ Piece.Says tale ∷ []) }
{
    pieces.push(Piece::Says(tale))?;
    Ok(())
}

// Appends the place of what is sent next. Fails only if memory runs out.
fn tell_sent(pieces: &mut Vec<Piece>) -> Result<(), AllocError>
    ensures { OnOk result (pieces.new.items ≡ pieces.old.items ++ Piece.NextSent ∷ []) }
{
    pieces.extend_from_slice(&[Piece::NextSent])?;
    Ok(())
}

// Appends that the floats of these lines stand in a text. Fails only if memory runs out.
fn tell_standing(pieces: &mut Vec<Piece>, here: &[u32]) -> Result<(), AllocError>
    ensures { OnOk result (pieces.new.items ≡ pieces.old.items ++ tales (map (λ l. Tale.Stands l) here.now)) }
{
    for line in here {
        pieces.push(Piece::Says(Tale::Stands(*line)))?;
    }
    Ok(())
}
