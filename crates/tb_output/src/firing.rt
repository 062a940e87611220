//! A firing of the output routine (ltoutput.dtx, \output).

ghost use Rattle.std.specs.Prelude.{◌≡◌, ◌≢◌, ◌+◌, ◌≤◌, ◌<ℤ◌, [], ◌∷◌, ◌++◌, length, int_le, Err, None, IfOk, IfErr, OnOk, IfSome, IfNone};
ghost use Rattle.tb_pool.specs.Lists.{list_at};
ghost use Rattle.tb_pool.specs.Frame.{IsNoneOf, OnlyChanged};
ghost use Rattle.tb_scaled.specs.Scaled.{eject_penalty};
ghost use Rattle.tb_node.specs.Fit.{shapes};
ghost use Rattle.tb_node.specs.PlainNodes.{plain_list};
ghost use Rattle.tb_node.specs.Sums.{size_of};
ghost use Rattle.tb_builder.specs.Contents.{contents_of, box_count};
ghost use Rattle.tb_builder.specs.Contributions.{NoPage};
ghost use Rattle.tb_builder.specs.Courses.{IsSound};
ghost use Rattle.tb_column.specs.Notes.{note_lists, note_count};
ghost use Rattle.tb_column.specs.Page.{IsPageList};
ghost use Rattle.tb_sheet.specs.Asked.{hold_penalty};
ghost use Rattle.tb_output.specs.Output.{hold, output_by};
ghost use Rattle.tb_output.specs.Machine.{machine_lists, AreOutputParams, AreClassesFrom, IsMachine};
ghost use Rattle.tb_output.specs.PageChanges.{with_held};
ghost use Rattle.tb_output.specs.Notes.{boxes_held, AreKnownNotes, NotesTaken};
ghost use Rattle.tb_output.specs.FiringWork.{shows, shows_back, shows_boxes, shows_page, shows_all, IsCutShort, Does};
ghost use Rattle.tb_output.specs.MachineFrame.{AreTextLists, IsBack, back_lists, KeepsMachine, KeepsBack};
ghost use Rattle.tb_output.specs.Firing.{whole_work, fired_in, refusal_of, IsReach, AreSizedBoxes, CanFire, CanGoBack, IsFired, IsRefusal, IsUntouched, KeepsAll, KeepsServing};
ghost use Rattle.tb_builder.specs.BuilderLists.{builder_lists};
ghost use Rattle.tb_output.specs.FiringParts.{page_output, served};

use crate::back_list::drop_list;
use crate::goal::is_signal;
use crate::notes::{TakenNotes, take_notes};
use crate::texts::list_height;
use crate::{Machine, RunFault, Turn};
use std::alloc::AllocError;
use tb_builder::{Builder, Page};
use tb_column::NoteBox;
use tb_node::{CLEAR_PENALTY, HOLD_PENALTY, Node, PAR_PENALTY};
use tb_param::is_below;
use tb_pool::{ListId, Lists};
use tb_scaled::EJECT_PENALTY;

impl Machine {
    /// Serves a page that the builder fired; the builder awaits its `put_back`. By the penalty of its break the page is
    /// shipped, cleared (-10001), held (-10004), or the float or marginal note at its end gets its place (-10002 and
    /// -10003). The turn says what goes back before the nodes that wait; `ask` says what the next page is made for.
    ///
    /// The list of the page is the machine's from then on, and that of the turn is the caller's. The insertions of the
    /// page are taken out of the builder's boxes, unless the page is held.
    ///
    /// After `maxdeadcycles` firings without a page, it returns `DeadCycles` and changes nothing. If `maxpages` pages
    /// were shipped, and another is due, it returns `PageLimit`; if there is no memory, `Memory`. After these two the
    /// events that were sent can still be taken, and each later firing returns the same and changes nothing
    /// (ltoutput.dtx, \output).
    pub fn fire(
        &mut self,
        store: &mut Lists<Node>,
        b: &mut Builder,
        page: Page,
    ) -> Result<Turn, RunFault>
        requires machine { IsMachine self.old store.old }
        requires builder { IsSound b.old store.old }
        requires page { IfNone self.old.fault (CanFire self.old b.old store.old page) }

        ensures turn { IfOk result (λ t. IsFired t self.old self.new b.new store.old store.new (whole_work self.old b.old store.old page)) }
        ensures contents { OnOk result (contents_of b.new store.new ≡ record (contents_of b.old store.old) { boxes = (whole_work self.old b.old store.old page).state.boxes }) }
        ensures put_back { IfOk result (λ t. CanGoBack t.put_back self.new b.new store.new) }
        ensures goes_on { OnOk result (self.new.fault ≡ None) }

        ensures refused { IfNone self.old.fault (IfErr result (λ e. IsRefusal e self.old self.new b.old b.new store.old store.new (whole_work self.old b.old store.old page))) }
        ensures again { IfSome self.old.fault (λ e. (result ≡ Err e) × IsUntouched self.old self.new b.old b.new store.old store.new) }
        ensures keeps { KeepsAll page.body self.old self.new b.old b.new store.old store.new }
    {
        let room = self.page_room(store, page.body);
        self.fire_measured(store, b, page, room)
    }

    // The height plus the depth of a page, unless a fault is kept.
    fn page_room(&self, store: &Lists<Node>, body: ListId) -> i64
        requires { IfNone self.now.fault (IsPageList store.now body) }
        ensures { IfNone self.now.fault (result ≡ size_of (shapes store.now body)) }
    {
        if self.fault.is_some() {
            return 0;
        }
        list_height(store, body)
    }

    /// The same as [`Self::fire`] for a page whose body has this height plus depth in sp, as `fired_room` of the builder
    /// returns it: the page is not measured again.
    pub fn fire_measured(
        &mut self,
        store: &mut Lists<Node>,
        b: &mut Builder,
        page: Page,
        room: i64,
    ) -> Result<Turn, RunFault>
        requires machine { IsMachine self.old store.old }
        requires builder { IsSound b.old store.old }
        requires page { IfNone self.old.fault (CanFire self.old b.old store.old page) }
        requires room { IfNone self.old.fault (room ≡ size_of (shapes store.old page.body)) }

        ensures turn { IfOk result (λ t. IsFired t self.old self.new b.new store.old store.new (whole_work self.old b.old store.old page)) }
        ensures contents { OnOk result (contents_of b.new store.new ≡ record (contents_of b.old store.old) { boxes = (whole_work self.old b.old store.old page).state.boxes }) }
        ensures put_back { IfOk result (λ t. CanGoBack t.put_back self.new b.new store.new) }
        ensures goes_on { OnOk result (self.new.fault ≡ None) }

        ensures refused { IfNone self.old.fault (IfErr result (λ e. IsRefusal e self.old self.new b.old b.new store.old store.new (whole_work self.old b.old store.old page))) }
        ensures again { IfSome self.old.fault (λ e. (result ≡ Err e) × IsUntouched self.old self.new b.old b.new store.old store.new) }
        ensures keeps { KeepsAll page.body self.old self.new b.old b.new store.old store.new }
    {
        if let Some(fault) = self.refusal() {
            return Err(fault);
        }
        self.dead_cycles += 1;
        self.shrink = page.shrink;
        match self.serve(store, b, page, room) {
            Ok(put_back) => {
                self.shrink = 0;
                Ok(Turn { put_back })
            }
            Err(fault) => {
                self.fault = Some(fault);
                Err(fault)
            }
        }
    }

    // Why no firing begins: an earlier fault, or `maxdeadcycles` allows no more firings without a page.
    fn refusal(&self) -> Option<RunFault>
        requires { AreOutputParams self.now.params }
        ensures { result ≡ refusal_of self.now }
    {
        if self.fault.is_some() {
            return self.fault;
        }
        if !is_below(self.dead_cycles, self.params.maxdeadcycles) {
            return Some(RunFault::DeadCycles {
                count: self.dead_cycles,
            });
        }
        None
    }

    // Serves the page of this room, whose firing is counted already, and returns the list that goes back.
    fn serve(
        &mut self,
        store: &mut Lists<Node>,
        b: &mut Builder,
        page: Page,
        room: i64,
    ) -> Result<ListId, RunFault>
        requires machine { IsMachine self.old store.old }
        requires builder { IsSound b.old store.old }
        requires page { CanFire self.old b.old store.old page }
        requires room { room ≡ size_of (shapes store.old page.body) }
        ensures ok { IfOk result (λ back. Does (shows_boxes b.old self.old store.old) (shows_all back b.new self.new store.new) (served self.old.params (fired_in b.old store.old page))) }
        ensures err { IfErr result (λ e. Does (shows_boxes b.old self.old store.old) (IsCutShort e self.new store.new) (served self.old.params (fired_in b.old store.old page))) }
        ensures contents { OnOk result (contents_of b.new store.new ≡ record (contents_of b.old store.old) { boxes = (contents_of b.new store.new).boxes }) }
        ensures back { IfOk result (λ back. CanGoBack back self.new b.new store.new) }
        ensures keeps { KeepsAll page.body self.old self.new b.old b.new store.old store.new }
        ensures fault { self.new.fault ≡ self.old.fault }
    {
        let back = store.add_list()?;
        self.output(store, b, &page, room, back)?;
        self.next_goal(store, page.penalty, back)?;
        Ok(back)
    }

    // Does what the penalty asks for.
    fn output(
        &mut self,
        store: &mut Lists<Node>,
        b: &mut Builder,
        page: &Page,
        room: i64,
        back: ListId,
    ) -> Result<(), RunFault>
        requires machine { IsMachine self.old store.old }
        requires builder { IsSound b.old store.old }
        requires page { CanFire self.old b.old store.old page.now }
        requires room { room ≡ size_of (shapes store.old page.now.body) }
        requires back { IsBack back self.old store.old }
        requires empty { list_at store.old back ≡ [] }
        requires back_body { page.now.body ≢ back }
        requires back_free { IsNoneOf back (builder_lists b.old store.old) }
        ensures ok { OnOk result (Does (shows_all back b.old self.old store.old) (shows_all back b.new self.new store.new) (output_by self.old.params (fired_in b.old store.old page.now))) }
        ensures err { IfErr result (λ e. Does (shows_all back b.old self.old store.old) (IsCutShort e self.new store.new) (output_by self.old.params (fired_in b.old store.old page.now))) }
        ensures contents { OnOk result (contents_of b.new store.new ≡ record (contents_of b.old store.old) { boxes = (contents_of b.new store.new).boxes }) }
        ensures keeps { KeepsServing page.now.body back self.old self.new b.old b.new store.old store.new }
    {
        if is_signal(page.penalty, HOLD_PENALTY) {
            self.hold(store, page.body, room);
            return Ok(());
        }
        let mut notes = TakenNotes::Empty;
        self.take_notes(store, b, &mut notes)?;
        self.output_page(store, page, notes.as_slice(), back)
    }

    // Takes the insertions of the page out of the boxes of their classes.
    fn take_notes(
        &self,
        store: &mut Lists<Node>,
        b: &mut Builder,
        notes: &mut TakenNotes,
    ) -> Result<(), AllocError>
        requires sound { IsSound b.old store.old }
        requires awaits { NoPage (contents_of b.old store.old) }
        requires classes { AreClassesFrom 0 self.now.classes }
        requires known { (contents_of b.old store.old).classes ≡ self.now.classes }
        requires sized { AreSizedBoxes (contents_of b.old store.old).boxes }
        requires few { box_count (contents_of b.old store.old).boxes ≤ 8388608 }
        requires none { boxes_held notes.old ≡ [] }
        ensures taken { OnOk result (NotesTaken self.now.classes (boxes_held notes.new) b.old b.new store.old store.new) }
        ensures sound { IsSound b.new store.new }
        ensures frame { OnlyChanged (builder_lists b.old store.old) (builder_lists b.new store.new) store.old store.new }
    {
        take_notes(self.alloc, store, b, &self.classes, notes)
    }

    // Holds the page of this room until the next firing, and drops what was held before.
    fn hold(&mut self, store: &mut Lists<Node>, body: ListId, room: i64)
        requires machine { IsMachine self.old store.old }
        requires body { IsPageList store.old body }
        requires room { room ≡ size_of (shapes store.old body) }
        requires apart { IsNoneOf body (machine_lists self.old) }
        ensures done { Does (shows self.old store.old) (shows self.new store.new) (hold (plain_list store.old body)) }
        ensures keeps { KeepsMachine (body ∷ []) self.old self.new store.old store.new }
    {
        let before = self.exchange_held(body, room);
        drop_list(store, before);
    }

    // Holds another page of this room from now on; returns the list of the one before.
    fn exchange_held(&mut self, body: ListId, room: i64) -> ListId
        ensures before { result ≡ self.old.held_page }
        ensures machine { self.new ≡ with_held body room self.old }
    {
        let before = self.held_page;
        self.held_page = body;
        self.held_room = room;
        before
    }

    // Does what the penalty asks for, once the insertions of the page are taken.
    fn output_page(
        &mut self,
        store: &mut Lists<Node>,
        page: &Page,
        notes: &[NoteBox],
        back: ListId,
    ) -> Result<(), RunFault>
        requires machine { IsMachine self.old store.old }
        requires back { IsBack back self.old store.old }
        requires empty { list_at store.old back ≡ [] }
        requires note_bottom { IsReach self.old.note_bottom }
        requires lists { AreTextLists 8355839 (back_lists store.old back ++ machine_lists self.old) store.old page.now.body notes.now }
        requires known { AreKnownNotes self.old.classes notes.now }
        requires few { length (list_at store.old page.now.body) + length (list_at store.old self.old.held_page) + note_count store.old notes.now ≤ 8355839 }
        requires penalty { hold_penalty <ℤ page.now.penalty }
        ensures ok { OnOk result (Does (shows_page back notes.now self.old store.old) (shows_back back self.new store.new) (page_output self.old.params page.now.penalty (plain_list store.old page.now.body))) }
        ensures err { IfErr result (λ e. Does (shows_page back notes.now self.old store.old) (IsCutShort e self.new store.new) (page_output self.old.params page.now.penalty (plain_list store.old page.now.body))) }
        ensures keeps { KeepsBack back (page.now.body ∷ note_lists notes.now) self.old self.new store.old store.new }
    {
        if is_ordinary(page.penalty) {
            return self.ordinary(store, page.body, notes);
        }
        if is_signal(page.penalty, CLEAR_PENALTY) {
            return self.clear(store, page.body, notes, back);
        }
        let vert = !is_signal(page.penalty, PAR_PENALTY);
        self.float_or_note(store, page.body, notes, vert, back)
    }
}

// Whether a page of this penalty is put out as it is.
fn is_ordinary(penalty: i64) -> bool
    ensures { result ≡ int_le eject_penalty penalty }
{
    penalty >= EJECT_PENALTY
}
