//! A clear: the insertions and floats that are still held are put out.

ghost use Rattle.std.specs.Prelude.{◌≡◌, ◌≢◌, ◌||◌, pos, ◌∷◌, [], ◌++◌, take, if◌then◌else◌, OnOk, OnErr, IfErr};
ghost use Rattle.tb_pool.specs.Lists.{IsLive, list_at};
ghost use Rattle.tb_node.specs.Fit.{IsExtent, shapes};
ghost use Rattle.tb_node.specs.PlainNodes.{plain_list};
ghost use Rattle.tb_break.specs.Split.{split_of};
ghost use Rattle.tb_column.specs.Notes.{note_lists};
ghost use Rattle.tb_column.specs.Page.{IsPageList};
ghost use Rattle.tb_output.specs.State.{has_floats};
ghost use Rattle.tb_output.specs.Clear.{clear, clear_floats, clear_wide, deferred_again, double_again};
ghost use Rattle.tb_output.specs.Machine.{machine_lists, IsMachine};
ghost use Rattle.tb_output.specs.FiringWork.{shows_back, shows_page, IsCutShort, Does};
ghost use Rattle.tb_output.specs.MachineFrame.{AreTextLists, HasFloats, HasGrown, IsBack, back_lists, KeepsBack};
ghost use Rattle.tb_output.specs.BackList.{clear_list};
ghost use Rattle.tb_output.specs.FiringParts.{clear_noted};

use crate::back_list::{push_blank_clear, push_clear, shorten};
use crate::pages::wide_part;
use crate::standing::{drop_notes, standing_notes};
use crate::{Machine, RunFault};
use std::alloc::AllocError;
use tb_break::find;
use tb_column::{NoteBox, push_made};
use tb_float::Part;
use tb_node::{Kind, Node};
use tb_pool::{ListId, Lists};
use tb_scaled::filling_glue;

impl Machine {
    /// A clear (ltoutput.dtx, \@doclearpage). A page on which insertions stand is put out first, and a further clear goes
    /// back; what makes another page higher is dropped.
    pub(crate) fn clear(
        &mut self,
        store: &mut Lists<Node>,
        body: ListId,
        notes: &[NoteBox],
        back: ListId,
    ) -> Result<(), RunFault>
        requires machine { IsMachine self.old store.old }
        requires back { IsBack back self.old store.old }
        requires lists { AreTextLists 8355839 (back_lists store.old back ++ machine_lists self.old) store.old body notes.now }
        ensures ok { OnOk result (Does (shows_page back notes.now self.old store.old) (shows_back back self.new store.new) (clear self.old.params (plain_list store.old body))) }
        ensures err { IfErr result (λ e. Does (shows_page back notes.now self.old store.old) (IsCutShort e self.new store.new) (clear self.old.params (plain_list store.old body))) }
        ensures keeps { KeepsBack back (body ∷ note_lists notes.now) self.old self.new store.old store.new }
    {
        if standing_notes(notes).is_empty() {
            drop_notes(store, notes);
            return self.clear_floats(store, body, back);
        }
        self.clear_notes(store, body, notes, back)
    }

    // Fills the page with glue and puts it out with its insertions; a further clear goes back.
    fn clear_notes(
        &mut self,
        store: &mut Lists<Node>,
        body: ListId,
        notes: &[NoteBox],
        back: ListId,
    ) -> Result<(), RunFault>
        requires machine { IsMachine self.old store.old }
        requires back { IsBack back self.old store.old }
        requires lists { AreTextLists 8355839 (back_lists store.old back ++ machine_lists self.old) store.old body notes.now }
        ensures ok { OnOk result (Does (shows_page back notes.now self.old store.old) (shows_back back self.new store.new) (clear_noted self.old.params (plain_list store.old body))) }
        ensures err { IfErr result (λ e. Does (shows_page back notes.now self.old store.old) (IsCutShort e self.new store.new) (clear_noted self.old.params (plain_list store.old body))) }
        ensures keeps { KeepsBack back (body ∷ note_lists notes.now) self.old self.new store.old store.new }
    {
        store.reserve(1)?;
        push_made(store, body, Kind::Skip(filling_glue()));
        self.put_out_text(store, body, notes)?;
        push_clear(store, back)?;
        Ok(())
    }

    // Puts out floats in columns and pages of floats; if some are left, a further clear goes back.
    fn clear_floats(
        &mut self,
        store: &mut Lists<Node>,
        body: ListId,
        back: ListId,
    ) -> Result<(), RunFault>
        requires machine { IsMachine self.old store.old }
        requires back { IsBack back self.old store.old }
        requires lists { AreTextLists 8355839 (back_lists store.old back ++ machine_lists self.old) store.old body [] }
        ensures ok { OnOk result (Does (shows_back back self.old store.old) (shows_back back self.new store.new) (clear_floats self.old.params (plain_list store.old body))) }
        ensures err { IfErr result (λ e. Does (shows_back back self.old store.old) (IsCutShort e self.new store.new) (clear_floats self.old.params (plain_list store.old body))) }
        ensures keeps { KeepsBack back (body ∷ []) self.old self.new store.old store.new }
    {
        self.keep_front(store, body, back);
        self.defer_areas();
        self.float_columns(store, true)?;
        self.clear_wide(store, back)?;
        self.clear_rest(store, back)?;
        Ok(())
    }

    // The front of the page, down to height 0, goes back, and the rest is dropped.
    fn keep_front(&self, store: &mut Lists<Node>, body: ListId, back: ListId)
        requires limit { IsExtent self.now.params.splitmaxdepth }
        requires body { IsPageList store.old body }
        requires back { IsLive store.old back }
        requires apart { body ≢ back }
        ensures { HasGrown back (take (split_of (pos 0) self.now.params.splitmaxdepth (shapes store.old body)).index (list_at store.old body)) (body ∷ []) store.old store.new }
    {
        let front = find(store, body, 0, self.params.splitmaxdepth).index;
        shorten(store, body, front);
        store.append(back, body);
        store.close(body);
    }

    // The floats at the bottom and at the top wait again, before the deferred ones.
    fn defer_areas(&mut self)
        ensures { HasFloats (deferred_again self.old.pool.lists) self.old self.new }
    {
        self.pool.join_front(Part::Bottom, Part::Deferred);
        self.pool.join_front(Part::Top, Part::Deferred);
    }

    // In two columns: before a first column the wide floats are put out; a second one is left blank, and a further
    // clear goes back.
    fn clear_wide(&mut self, store: &mut Lists<Node>, back: ListId) -> Result<(), RunFault>
        requires machine { IsMachine self.old store.old }
        requires back { IsBack back self.old store.old }
        ensures ok { OnOk result (Does (shows_back back self.old store.old) (shows_back back self.new store.new) (clear_wide self.old.params)) }
        ensures err { IfErr result (λ e. Does (shows_back back self.old store.old) (IsCutShort e self.new store.new) (clear_wide self.old.params)) }
        ensures keeps { KeepsBack back [] self.old self.new store.old store.new }
    {
        if !self.two_columns {
            return Ok(());
        }
        if self.first_column {
            self.defer_double();
            return self.wide_pages(store, true);
        }
        push_blank_clear(store, back)?;
        Ok(())
    }

    // The wide floats at the top wait again, before the others.
    fn defer_double(&mut self)
        ensures { HasFloats (double_again self.old.params self.old.pool.lists) self.old self.new }
    {
        let to = wide_part(&self.params);
        self.pool.join_front(Part::Double, to);
    }

    // If floats are left, a further clear goes back.
    fn clear_rest(&self, store: &mut Lists<Node>, back: ListId) -> Result<(), AllocError>
        requires { IsLive store.old back }
        ensures ok { OnOk result (HasGrown back (if has_floats self.now.pool.lists.deferred || has_floats self.now.pool.lists.second then clear_list else []) [] store.old store.new) }
        ensures err { OnErr result (store.new.lists ≡ store.old.lists) }
    {
        if self.is_waited_for() {
            push_clear(store, back)?;
        }
        Ok(())
    }

    // Whether floats wait for a later column or page.
    fn is_waited_for(&self) -> bool
        ensures { result ≡ (has_floats self.now.pool.lists.deferred || has_floats self.now.pool.lists.second) }
    {
        self.pool.len(Part::Deferred) > 0 || self.pool.len(Part::Second) > 0
    }
}
