//! What is told at the firing of a page, along its steps.
ghost use Rattle.std.specs.Prelude.{◌≡◌, ◌++◌, OnOk, IfOk};
ghost use Rattle.tb_scaled.specs.Amount.{IsAmount};
ghost use Rattle.tb_output.specs.Machine.{AreOutputParams};
ghost use Rattle.tb_output.specs.Output.{is_int};
ghost use Rattle.tb_why.specs.Seen.{seen_pieces, ordinary_told, clear_told, clear_floats_told, clear_wide_told, text_float_told, text_told, text_seen, put_out_told, put_out_seen, put_out_told_by, put_out_seen_by, pair_told, pair_seen, all_wide_told, all_wide_seen, all_float_told, all_float_seen};
ghost use Rattle.tb_why.specs.SeenSteps.{IsWideTurn, IsFloatTurn};

use crate::Seen;
use crate::lists::{wide_part, wide_wanted};
use std::alloc::AllocError;
use tb_float::{Entry, Part};
use tb_node::{CLEAR_PENALTY, PAR_PENALTY, VERT_PENALTY, Where};
use tb_output::Reading;
use tb_param::Params;
use tb_scaled::EJECT_PENALTY;
use tb_told::{Piece, Tale};

/// Appends what is told at the firing of a page, and the places of what the firing sends, in their order. `penalty` is that
/// of its break, `reading` is read from the page before it fires, `here` has the lines of the floats in its text, and `seen`
/// is the state before. Amounts are in scaled points. Fails only if memory runs out; then only a part of this may be told.
pub fn tell_firing(
    pieces: &mut Vec<Piece>,
    p: &Params,
    penalty: i64,
    reading: &Reading,
    here: &[u32],
    seen: Seen,
) -> Result<(), AllocError>
    requires params { AreOutputParams p.now }
    requires height { IsAmount reading.now.height }
    requires page_height { IsAmount reading.now.page_height }
    requires note_bottom { IsAmount seen.note_bottom }
    ensures { OnOk result (pieces.new.items ≡ pieces.old.items ++ seen_pieces p.now penalty here.now reading.now seen) }
{
    let mut seen = seen;
    seen.fire(pieces, p, penalty, reading, here)
}

impl Seen {
    // What is told at a firing, by the penalty of its break.
    fn fire(
        &mut self,
        pieces: &mut Vec<Piece>,
        p: &Params,
        penalty: i64,
        reading: &Reading,
        here: &[u32],
    ) -> Result<(), AllocError>
        requires params { AreOutputParams p.now }
        requires height { IsAmount reading.now.height }
        requires page_height { IsAmount reading.now.page_height }
        requires note_bottom { IsAmount self.old.note_bottom }
        ensures { OnOk result (pieces.new.items ≡ pieces.old.items ++ seen_pieces p.now penalty here.now reading.now self.old) }
    {
        if penalty >= EJECT_PENALTY {
            return self.ordinary(pieces, p, here);
        }
        if is_signal(penalty, CLEAR_PENALTY) {
            return self.clear(pieces, p, reading, here);
        }
        if is_signal(penalty, PAR_PENALTY) || is_signal(penalty, VERT_PENALTY) {
            return self.text_float(pieces, p, reading);
        }
        Ok(())
    }

    // An ordinary page: its text column, columns of floats, and the floats of the next text column.
    fn ordinary(
        &mut self,
        pieces: &mut Vec<Piece>,
        p: &Params,
        here: &[u32],
    ) -> Result<(), AllocError>
        requires { AreOutputParams p.now }
        ensures { OnOk result (pieces.new.items ≡ pieces.old.items ++ ordinary_told p.now here.now self.old) }
    {
        self.text(pieces, p, here)?;
        self.float_columns(pieces, p, false)?;
        self.fill(pieces, p)
    }

    // A text column is put out, with the floats of these lines in its text.
    fn text(&mut self, pieces: &mut Vec<Piece>, p: &Params, here: &[u32]) -> Result<(), AllocError>
        requires { AreOutputParams p.now }
        ensures told { OnOk result (pieces.new.items ≡ pieces.old.items ++ text_told p.now here.now self.old) }
        ensures seen { OnOk result (self.new ≡ text_seen p.now self.old) }
    {
        self.stand(pieces, here)?;
        self.end_text();
        self.put_out(pieces, p)
    }

    // A column is put out, and the column after it begins.
    fn put_out(&mut self, pieces: &mut Vec<Piece>, p: &Params) -> Result<(), AllocError>
        requires { AreOutputParams p.now }
        ensures told { OnOk result (pieces.new.items ≡ pieces.old.items ++ put_out_told p.now self.old) }
        ensures seen { OnOk result (self.new ≡ put_out_seen p.now self.old) }
    {
        self.say(pieces, Tale::PutOut)?;
        self.put_by(pieces, p)?;
        self.end_column();
        Ok(())
    }

    // A column is put out, as a page, as the first of two, or as the second.
    fn put_by(&mut self, pieces: &mut Vec<Piece>, p: &Params) -> Result<(), AllocError>
        requires { AreOutputParams p.now }
        ensures told { OnOk result (pieces.new.items ≡ pieces.old.items ++ put_out_told_by p.now self.old) }
        ensures seen { OnOk result (self.new ≡ put_out_seen_by p.now self.old) }
    {
        if !self.two_columns {
            return self.ship(pieces, p);
        }
        if self.first_column {
            self.keep_left();
            return Ok(());
        }
        self.ship_pair(pieces, p)
    }

    // The page of two columns ships, then pages of wide floats, and the next two columns get theirs.
    fn ship_pair(&mut self, pieces: &mut Vec<Piece>, p: &Params) -> Result<(), AllocError>
        requires { AreOutputParams p.now }
        ensures told { OnOk result (pieces.new.items ≡ pieces.old.items ++ pair_told p.now self.old) }
        ensures seen { OnOk result (self.new ≡ pair_seen p.now self.old) }
    {
        self.ship(pieces, p)?;
        self.end_pair();
        self.wide_pages(pieces, p, false)?;
        self.fill_double(pieces, p)
    }

    // Pages of wide floats while there are some; each takes a float, so there are no more than floats.
    fn wide_pages(
        &mut self,
        pieces: &mut Vec<Piece>,
        p: &Params,
        clearing: bool,
    ) -> Result<(), AllocError>
        requires { AreOutputParams p.now }
        ensures told { OnOk result (pieces.new.items ≡ pieces.old.items ++ all_wide_told p.now clearing self.old) }
        ensures seen { OnOk result (self.new ≡ all_wide_seen p.now clearing self.old) }
    {
        for _turn in 0..self.count(wide_part(p)) {
            if !self.wide_page(pieces, p, clearing)? {
                return Ok(());
            }
        }
        Ok(())
    }

    // A page of wide floats is looked for, and put out; false if there is none.
    fn wide_page(
        &mut self,
        pieces: &mut Vec<Piece>,
        p: &Params,
        clearing: bool,
    ) -> Result<bool, AllocError>
        requires { AreOutputParams p.now }
        ensures { IfOk result (λ more. IsWideTurn p.now clearing more self.old self.new pieces.old.items pieces.new.items) }
    {
        let wanted = wide_wanted(p, clearing);
        let from = wide_part(p);
        self.look(pieces, &wanted, from)?;
        if !self.take(&wanted, from) {
            return Ok(false);
        }
        self.say(pieces, Tale::PutOut)?;
        self.ship(pieces, p)?;
        Ok(true)
    }

    // Columns of floats while there are some; each takes a float, so there are no more than floats.
    fn float_columns(
        &mut self,
        pieces: &mut Vec<Piece>,
        p: &Params,
        clearing: bool,
    ) -> Result<(), AllocError>
        requires { AreOutputParams p.now }
        ensures told { OnOk result (pieces.new.items ≡ pieces.old.items ++ all_float_told p.now clearing self.old) }
        ensures seen { OnOk result (self.new ≡ all_float_seen p.now clearing self.old) }
    {
        for _turn in 0..self.count(Part::Deferred) {
            if !self.float_column(pieces, p, clearing)? {
                return Ok(());
            }
        }
        Ok(())
    }

    // A column of floats is looked for, and put out; false if there is none.
    fn float_column(
        &mut self,
        pieces: &mut Vec<Piece>,
        p: &Params,
        clearing: bool,
    ) -> Result<bool, AllocError>
        requires { AreOutputParams p.now }
        ensures { IfOk result (λ more. IsFloatTurn p.now clearing more self.old self.new pieces.old.items pieces.new.items) }
    {
        let wanted = self.wanted(p, clearing);
        self.look(pieces, &wanted, Part::Deferred)?;
        if !self.take(&wanted, Part::Deferred) {
            return Ok(false);
        }
        self.put_out(pieces, p)?;
        Ok(true)
    }

    // A clear. A page with insertions is put out first.
    fn clear(
        &mut self,
        pieces: &mut Vec<Piece>,
        p: &Params,
        reading: &Reading,
        here: &[u32],
    ) -> Result<(), AllocError>
        requires { AreOutputParams p.now }
        ensures { OnOk result (pieces.new.items ≡ pieces.old.items ++ clear_told p.now here.now reading.now self.old) }
    {
        if reading.has_notes {
            return self.text(pieces, p, here);
        }
        self.clear_floats(pieces, p)
    }

    // The floats at the top and at the bottom are taken back; columns of floats, and wide pages.
    fn clear_floats(&mut self, pieces: &mut Vec<Piece>, p: &Params) -> Result<(), AllocError>
        requires { AreOutputParams p.now }
        ensures { OnOk result (pieces.new.items ≡ pieces.old.items ++ clear_floats_told p.now self.old) }
    {
        self.back(pieces, Part::Top, Where::Top)?;
        self.back(pieces, Part::Bottom, Where::Bottom)?;
        self.defer_areas();
        self.float_columns(pieces, p, true)?;
        self.clear_wide(pieces, p)
    }

    // In two columns, before a first column: the floats above both columns are taken back, and wide pages.
    fn clear_wide(&mut self, pieces: &mut Vec<Piece>, p: &Params) -> Result<(), AllocError>
        requires { AreOutputParams p.now }
        ensures { OnOk result (pieces.new.items ≡ pieces.old.items ++ clear_wide_told p.now self.old) }
    {
        if !self.two_columns || !self.first_column {
            return Ok(());
        }
        self.back(pieces, Part::Double, Where::Double)?;
        self.defer_double(p);
        self.wide_pages(pieces, p, true)
    }

    // The first float or note of the current list goes to its place.
    fn text_float(
        &self,
        pieces: &mut Vec<Piece>,
        p: &Params,
        reading: &Reading,
    ) -> Result<(), AllocError>
        requires params { AreOutputParams p.now }
        requires height { IsAmount reading.now.height }
        requires page_height { IsAmount reading.now.page_height }
        requires note_bottom { IsAmount self.now.note_bottom }
        ensures { OnOk result (pieces.new.items ≡ pieces.old.items ++ text_float_told p.now reading.now self.now) }
    {
        if self.over {
            return Ok(());
        }
        match self.first() {
            Some(Entry::Float(f)) => self.call(pieces, p, reading.page_height, &f),
            Some(Entry::Left(m)) => self.say(pieces, self.beside(p, reading.height, &m)),
            Some(Entry::Right(_)) => Ok(()),
            None => Ok(()),
        }
    }
}

// Whether the penalty of a break is this one.
fn is_signal(penalty: i64, signal: i64) -> bool
    ensures { result ≡ is_int penalty signal }
{
    penalty == signal
}
