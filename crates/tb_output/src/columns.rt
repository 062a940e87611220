//! Columns are made and put out, and the next one is begun.

ghost use Rattle.std.specs.Prelude.{◌≡◌, ◌≢◌, ℕ, pos, ◌∷◌, [], Some, OnOk, OnErr, IfOk, IfErr, IsTrue, MatchBool, false};
ghost use Rattle.std.specs.List.{AllByRecursion};
ghost use Rattle.std.specs.FinMap.{get};
ghost use Rattle.tb_scaled.specs.Amount.{IsAmount};
ghost use Rattle.tb_pool.specs.Frame.{IsNoneOf};
ghost use Rattle.tb_node.specs.PlainNodes.{plain_list};
ghost use Rattle.tb_float.specs.Lists.{IsWaiting};
ghost use Rattle.tb_float.specs.Pool.{HasNoMarks, marked_floats, without_marks};
ghost use Rattle.tb_float.specs.MarkedFloats.{without_marked};
ghost use Rattle.tb_float.specs.Ranges.{AreFloatParams, IsWithin};
ghost use Rattle.tb_float.specs.Rooms.{column_height_of};
ghost use Rattle.tb_fpage.specs.Choice.{IsChosen};
ghost use Rattle.tb_column.specs.Column.{standing_notes, enlarged_of, text_column, float_column_of};
ghost use Rattle.tb_column.specs.StoredColumns.{column_shown};
ghost use Rattle.tb_column.specs.Notes.{AreDistinct, notes_shown, note_lists};
ghost use Rattle.tb_column.specs.Page.{IsPageColumn};
ghost use Rattle.tb_column.specs.ColumnChanges.{IsOpened};
ghost use Rattle.tb_output.specs.Pages.{put_out, put_out_by};
ghost use Rattle.tb_output.specs.Columns.{without_column_floats, put_out_text, single_wanted, all_float_columns, ordinary};
ghost use Rattle.tb_output.specs.Machine.{machine_lists, AreOutputParams, IsMachine};
ghost use Rattle.tb_output.specs.FiringWork.{shows, shows_notes, IsCutShort, Does};
ghost use Rattle.tb_output.specs.MachineFrame.{AreTextLists, HasFloats, KeepsMachine};
ghost use Rattle.tb_output.specs.PageChanges.{with_left, with_column_done, filled_lists};
ghost use Rattle.tb_output.specs.FiringParts.{column_done, NoColumn, ChoosesNone};

use crate::standing::{drop_notes, enlarged_of, standing_notes};
use crate::state::{no_suppress, pool_size};
use crate::{Machine, RunFault};
use std::alloc::AllocError;
use tb_column::{Column, NoteBox, float_column, make_column};
use tb_float::{Part, share_of};
use tb_fpage::choose;
use tb_node::Node;
use tb_pool::{ListId, Lists};
use tb_sheet::Sheet;

impl Machine {
    /// An ordinary page: puts out its text column, then columns of floats while there are some, and gives the next text
    /// column its floats (ltoutput.dtx, \@specialoutput and \@opcol).
    pub(crate) fn ordinary(
        &mut self,
        store: &mut Lists<Node>,
        body: ListId,
        notes: &[NoteBox],
    ) -> Result<(), RunFault>
        requires machine { IsMachine self.old store.old }
        requires lists { AreTextLists 8355840 (machine_lists self.old) store.old body notes.now }
        ensures ok { OnOk result (Does (shows_notes notes.now self.old store.old) (shows self.new store.new) (ordinary self.old.params (plain_list store.old body))) }
        ensures err { IfErr result (λ e. Does (shows_notes notes.now self.old store.old) (IsCutShort e self.new store.new) (ordinary self.old.params (plain_list store.old body))) }
        ensures keeps { KeepsMachine (body ∷ note_lists notes.now) self.old self.new store.old store.new }
    {
        self.put_out_text(store, body, notes)?;
        self.float_columns(store, false)?;
        self.fill_column();
        Ok(())
    }

    /// Makes the text column of a page and puts it out (ltoutput.dtx, \@makecol).
    pub(crate) fn put_out_text(
        &mut self,
        store: &mut Lists<Node>,
        body: ListId,
        notes: &[NoteBox],
    ) -> Result<(), RunFault>
        requires machine { IsMachine self.old store.old }
        requires lists { AreTextLists 8355840 (machine_lists self.old) store.old body notes.now }
        ensures ok { OnOk result (Does (shows_notes notes.now self.old store.old) (shows self.new store.new) (put_out_text self.old.params (plain_list store.old body))) }
        ensures err { IfErr result (λ e. Does (shows_notes notes.now self.old store.old) (IsCutShort e self.new store.new) (put_out_text self.old.params (plain_list store.old body))) }
        ensures keeps { KeepsMachine (body ∷ note_lists notes.now) self.old self.new store.old store.new }
    {
        let column = self.take_text(store, body, notes)?;
        self.put_out(store, column)
    }

    // Makes the text column of a page, with the floats of its areas; they leave the pool, and the lists of the
    // insertions are closed. If there is no memory, all is as before.
    fn take_text(
        &mut self,
        store: &mut Lists<Node>,
        body: ListId,
        notes: &[NoteBox],
    ) -> Result<Column, AllocError>
        requires machine { IsMachine self.old store.old }
        requires lists { AreTextLists 8355840 (machine_lists self.old) store.old body notes.now }
        ensures ok { OnOk result (Does (shows_notes notes.now self.old store.old) (shows self.new store.new) without_column_floats) }
        ensures shown { IfOk result (λ c. column_shown store.new c ≡ text_column self.old.params self.old.pool.lists (plain_list store.old body) (standing_notes (notes_shown store.old notes.now)) (enlarged_of self.old.shrink (notes_shown store.old notes.now))) }
        ensures column { IfOk result (λ c. IsPageColumn store.new c) }
        ensures list { IfOk result (λ c. c.list ≡ body) }
        ensures err { OnErr result (store.new.lists ≡ store.old.lists) }
        ensures machine { OnErr result (self.new ≡ self.old) }
        ensures apart { OnOk result (IsNoneOf body (machine_lists self.new)) }
        ensures keeps { KeepsMachine (body ∷ note_lists notes.now) self.old self.new store.old store.new }
    {
        self.events.keep_room(pool_size(&self.params) as usize)?;
        let enlarged = enlarged_of(store, notes, self.shrink);
        let standing = standing_notes(notes);
        let column = make_column(
            store,
            &mut self.pool,
            &self.params,
            body,
            standing,
            &enlarged,
        )?;
        drop_notes(store, notes);
        Ok(column)
    }

    /// Puts out a column, as a page, as the first column of one, or as the second; then the next column has no marginal
    /// note, and nothing is suppressed (ltoutput.dtx, \@outputpage and \@outputdblcol).
    pub(crate) fn put_out(
        &mut self,
        store: &mut Lists<Node>,
        column: Column,
    ) -> Result<(), RunFault>
        requires machine { IsMachine self.old store.old }
        requires column { IsPageColumn store.old column }
        requires apart { IsNoneOf column.list (machine_lists self.old) }
        ensures ok { OnOk result (Does (shows self.old store.old) (shows self.new store.new) (put_out self.old.params (column_shown store.old column))) }
        ensures err { IfErr result (λ e. Does (shows self.old store.old) (IsCutShort e self.new store.new) (put_out self.old.params (column_shown store.old column))) }
        ensures keeps { KeepsMachine (column.list ∷ []) self.old self.new store.old store.new }
    {
        self.put_by(store, column)?;
        self.end_column();
        Ok(())
    }

    // The column is a page, the first column of one, or the second.
    fn put_by(&mut self, store: &mut Lists<Node>, column: Column) -> Result<(), RunFault>
        requires machine { IsMachine self.old store.old }
        requires column { IsPageColumn store.old column }
        requires apart { IsNoneOf column.list (machine_lists self.old) }
        ensures ok { OnOk result (Does (shows self.old store.old) (shows self.new store.new) (put_out_by self.old.params (column_shown store.old column))) }
        ensures err { IfErr result (λ e. Does (shows self.old store.old) (IsCutShort e self.new store.new) (put_out_by self.old.params (column_shown store.old column))) }
        ensures keeps { KeepsMachine (column.list ∷ []) self.old self.new store.old store.new }
    {
        if !self.two_columns {
            return self.ship(Sheet::One(column));
        }
        if self.first_column {
            self.keep_left(column);
            return Ok(());
        }
        self.ship_pair(store, column)
    }

    // The first of two columns waits for the second.
    fn keep_left(&mut self, column: Column)
        ensures { self.new ≡ with_left column self.old }
    {
        self.left_column = Some(column);
        self.first_column = false;
    }

    // The next column has no marginal note yet, and nothing is kept out of it.
    fn end_column(&mut self)
        ensures { self.new ≡ with_column_done self.old }
    {
        self.note_bottom = 0;
        self.suppress = no_suppress();
    }

    /// Puts out columns of floats while there are some (ltoutput.dtx, \@tryfcolumn).
    pub(crate) fn float_columns(
        &mut self,
        store: &mut Lists<Node>,
        clearing: bool,
    ) -> Result<(), RunFault>
        requires { IsMachine self.old store.old }
        ensures ok { OnOk result (Does (shows self.old store.old) (shows self.new store.new) (all_float_columns self.old.params clearing)) }
        ensures err { IfErr result (λ e. Does (shows self.old store.old) (IsCutShort e self.new store.new) (all_float_columns self.old.params clearing)) }
        ensures keeps { KeepsMachine [] self.old self.new store.old store.new }
    {
        for _turn in 0..self.pool.len(Part::Deferred) {
            if !self.put_out_floats(store, clearing)? {
                return Ok(());
            }
        }
        Ok(())
    }

    // Puts out a column of floats; false if there is none.
    fn put_out_floats(&mut self, store: &mut Lists<Node>, clearing: bool) -> Result<bool, RunFault>
        requires { IsMachine self.old store.old }
        ensures ok { IfOk result (λ more. MatchBool more (Does (shows self.old store.old) (shows self.new store.new) (column_done self.old.params clearing)) (NoColumn clearing self.old self.new store.old store.new)) }
        ensures err { IfErr result (λ e. Does (shows self.old store.old) (IsCutShort e self.new store.new) (column_done self.old.params clearing)) }
        ensures keeps { KeepsMachine [] self.old self.new store.old store.new }
    {
        let height = self.pool.column_height(&self.params);
        if !self.choose_column(height, clearing) {
            return Ok(false);
        }
        let column = self.take_floats(store, height, false, Part::Deferred)?;
        self.put_out(store, column)?;
        Ok(true)
    }

    // Chooses deferred floats for a column of this height, if some make one.
    fn choose_column(&mut self, height: i64, clearing: bool) -> bool
        requires params { AreOutputParams self.old.params }
        requires unmarked { HasNoMarks self.old.pool }
        requires height { height ≡ column_height_of self.old.params self.old.pool.lists }
        requires within { IsWithin 35184372088832 height }
        ensures chosen { IsTrue result → IsChosen (single_wanted self.old.params self.old.pool.lists clearing) Part.Deferred self.old.pool self.new.pool }
        ensures none { result ≡ false → ChoosesNone Part.Deferred (single_wanted self.old.params self.old.pool.lists clearing) self.old self.new }
        ensures rest { self.new ≡ record self.old { pool = self.new.pool } }
    {
        let minimum = share_of(self.params.floatpagefraction, height);
        let sep = self.params.fpsep.width;
        choose(
            &mut self.pool,
            height,
            minimum,
            sep,
            clearing,
            false,
            Part::Deferred,
        )
    }

    /// Makes a column of the chosen floats of a list; they leave the pool. If there is no memory, no float of the list
    /// is chosen any more, and all else is as before.
    pub(crate) fn take_floats(
        &mut self,
        store: &mut Lists<Node>,
        height: i64,
        wide: bool,
        from: Part,
    ) -> Result<Column, AllocError>
        requires params { AreOutputParams self.old.params }
        requires size { pos self.old.pool.size ≡ self.old.params.pool }
        requires height { IsAmount height }
        requires waiting { IsWaiting from }
        requires marked { marked_floats from self.old.pool ≢ [] }
        ensures shown { IfOk result (λ c. column_shown store.new c ≡ float_column_of wide self.old.params height (marked_floats from self.old.pool)) }
        ensures column { IfOk result (λ c. IsPageColumn store.new c) }
        ensures opened { IfOk result (λ c. IsOpened c.list store.old store.new) }
        ensures machine { OnOk result (self.new ≡ record self.old { pool = without_marked from self.old.pool }) }
        ensures err { OnErr result (store.new.lists ≡ store.old.lists) }
        ensures unchosen { OnErr result (self.new ≡ record self.old { pool = without_marks from self.old.pool }) }
    {
        match self.make_floats(store, height, wide, from) {
            Ok(column) => Ok(column),
            Err(error) => {
                self.pool.unmark(from);
                Err(error)
            }
        }
    }

    // Makes the column of the chosen floats; if there is no memory, they stay chosen.
    fn make_floats(
        &mut self,
        store: &mut Lists<Node>,
        height: i64,
        wide: bool,
        from: Part,
    ) -> Result<Column, AllocError>
        requires params { AreOutputParams self.old.params }
        requires size { pos self.old.pool.size ≡ self.old.params.pool }
        requires height { IsAmount height }
        requires waiting { IsWaiting from }
        requires marked { marked_floats from self.old.pool ≢ [] }
        ensures shown { IfOk result (λ c. column_shown store.new c ≡ float_column_of wide self.old.params height (marked_floats from self.old.pool)) }
        ensures column { IfOk result (λ c. IsPageColumn store.new c) }
        ensures opened { IfOk result (λ c. IsOpened c.list store.old store.new) }
        ensures machine { OnOk result (self.new ≡ record self.old { pool = without_marked from self.old.pool }) }
        ensures err { OnErr result (store.new.lists ≡ store.old.lists) }
        ensures same { OnErr result (self.new ≡ self.old) }
    {
        self.events.keep_room(pool_size(&self.params) as usize)?;
        float_column(store, &mut self.pool, &self.params, height, wide, from)
    }

    // Deferred floats go to the top and bottom of the next column (ltoutput.dtx, \@startcolumn).
    fn fill_column(&mut self)
        requires { AreFloatParams self.old.params }
        ensures { HasFloats (filled_lists self.old) self.old self.new }
    {
        tb_area::fill_column(&mut self.pool, &self.params, &self.suppress);
    }
}
