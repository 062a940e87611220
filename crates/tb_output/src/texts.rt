//! Floats and marginal notes met in the text.

ghost use Rattle.std.specs.Prelude.{◌≡◌, ◌≢◌, ◌≤◌, ◌+◌, ◌-◌, ◌-ℤ◌, ◌+ℤ◌, ◌∷◌, [], ◌++◌, true, All, length, ◌*◌, IfOk, IfErr, OnOk, OnErr};
ghost use Rattle.std.specs.List.{AllByRecursion};
ghost use Rattle.tb_scaled.specs.Amount.{IsAmount};
ghost use Rattle.tb_pool.specs.Lists.{IsLive, list_at};
ghost use Rattle.tb_pool.specs.Frame.{IsNoneOf};
ghost use Rattle.tb_node.specs.Fit.{IsExtent, IsSizedNode, shapes};
ghost use Rattle.tb_node.specs.Sums.{size_of, last_depth};
ghost use Rattle.tb_node.specs.PlainNodes.{plain_list};
ghost use Rattle.tb_float.specs.Ranges.{IsWithin};
ghost use Rattle.tb_column.specs.Notes.{IsNote, AreRisingFrom, note_shown, notes_shown, note_lists, note_count};
ghost use Rattle.tb_column.specs.Page.{IsPageList};
ghost use Rattle.tb_column.specs.FloatColumns.{made_node};
ghost use Rattle.tb_output.specs.Text.{note_room, notes_height, list_back, float_or_note, without_firing_box};
ghost use Rattle.tb_output.specs.Machine.{machine_lists, IsRoomOf, IsMachine};
ghost use Rattle.tb_output.specs.FiringWork.{shows_back, shows_page, IsCutShort, Does};
ghost use Rattle.tb_output.specs.MachineFrame.{AreTextLists, HasGrown, IsBack, back_lists, KeepsBack};
ghost use Rattle.tb_output.specs.BackList.{insertion_of, insertions_again};
ghost use Rattle.tb_output.specs.Firing.{IsReach};
ghost use Rattle.tb_output.specs.Notes.{AreKnownNotes};
ghost use Rattle.tb_output.specs.FiringParts.{IsTextSize, HasTextBack};

use crate::back_list::shorten;
use crate::extents::{Told, text_extent};
use crate::{Machine, RunFault};
use std::alloc::AllocError;
use tb_builder::has_box;
use tb_column::{ENLARGING, NoteBox, push_made};
use tb_node::{Insertion, Kind, Node, list_extent};
use tb_param::Params;
use tb_pool::{ListId, Lists};
use tb_scaled::difference;

/// The size of the page so far, in sp.
#[derive(Clone, Copy)]
pub(crate) struct TextSize {
    /// The height and the depth of its text.
    pub height: i64,
    pub depth: i64,
    /// The text and the insertions together.
    pub page: i64,
}

impl Machine {
    /// Gives the first float or marginal note that was taken its place; all else of the page goes back (ltoutput.dtx,
    /// \@specialoutput and \@addtocurcol).
    pub(crate) fn float_or_note(
        &mut self,
        store: &mut Lists<Node>,
        body: ListId,
        notes: &[NoteBox],
        vert: bool,
        back: ListId,
    ) -> Result<(), RunFault>
        requires machine { IsMachine self.old store.old }
        requires back { IsBack back self.old store.old }
        requires empty { list_at store.old back ≡ [] }
        requires note_bottom { IsReach self.old.note_bottom }
        requires lists { AreTextLists 8355839 (back_lists store.old back ++ machine_lists self.old) store.old body notes.now }
        requires known { AreKnownNotes self.old.classes notes.now }
        requires few { length (list_at store.old body) + length (list_at store.old self.old.held_page) + note_count store.old notes.now ≤ 8355839 }
        ensures ok { OnOk result (Does (shows_page back notes.now self.old store.old) (shows_back back self.new store.new) (float_or_note self.old.params vert (plain_list store.old body))) }
        ensures err { IfErr result (λ e. Does (shows_page back notes.now self.old store.old) (IsCutShort e self.new store.new) (float_or_note self.old.params vert (plain_list store.old body))) }
        ensures keeps { KeepsBack back (body ∷ note_lists notes.now) self.old self.new store.old store.new }
    {
        let size = self.list_back(store, body, notes, back)?;
        self.place_first(store, &size, vert, back)
    }

    // The page so far and its insertions go back; returns its size.
    fn list_back(
        &self,
        store: &mut Lists<Node>,
        body: ListId,
        notes: &[NoteBox],
        back: ListId,
    ) -> Result<TextSize, AllocError>
        requires machine { IsMachine self.now store.old }
        requires back { IsBack back self.now store.old }
        requires empty { list_at store.old back ≡ [] }
        requires lists { AreTextLists 8355839 (back_lists store.old back ++ machine_lists self.now) store.old body notes.now }
        requires known { AreKnownNotes self.now.classes notes.now }
        requires few { length (list_at store.old body) + length (list_at store.old self.now.held_page) + note_count store.old notes.now ≤ 8355839 }
        ensures ok { OnOk result (Does (shows_page back notes.now self.now store.old) (shows_back back self.now store.new) (list_back self.now.params (plain_list store.old self.now.held_page ++ without_firing_box (plain_list store.old body)))) }
        ensures size { IfOk result (λ z. IsTextSize z (plain_list store.old self.now.held_page ++ without_firing_box (plain_list store.old body)) (notes_shown store.old notes.now)) }
        ensures err { OnErr result (Does (shows_page back notes.now self.now store.old) (IsCutShort RunFault.Memory self.now store.new) (list_back self.now.params (plain_list store.old self.now.held_page ++ without_firing_box (plain_list store.old body)))) }
        ensures keeps { KeepsBack back (body ∷ note_lists notes.now) self.now self.now store.old store.new }
    {
        let told = self.text_back(store, body, back);
        let size = text_size(store, back, &told, notes);
        insertions_back(store, &self.params, notes, back)?;
        Ok(size)
    }

    // The held page and the page go back, without the box and the glue at the end of the page; returns what was told of
    // them.
    fn text_back(&self, store: &mut Lists<Node>, body: ListId, back: ListId) -> Told
        requires held { IsPageList store.old self.now.held_page }
        requires held_room { IsRoomOf (list_at store.old self.now.held_page) self.now.held_room }
        requires body { IsPageList store.old body }
        requires back { IsLive store.old back }
        requires held_apart { self.now.held_page ≢ body }
        requires back_apart { back ≢ self.now.held_page }
        requires body_apart { back ≢ body }
        ensures lists { HasTextBack back self.now.held_page body store.old store.new }
        ensures room { list_at store.old back ≡ [] → result.room ≡ size_of (shapes store.new back) }
        ensures depth { list_at store.old back ≡ [] → result.has_depth ≡ true → result.depth ≡ last_depth (shapes store.new back) }
    {
        let count = store.len(body);
        shorten(store, body, if count < 2 { 0 } else { count - 2 });
        let told = self.told(store, body);
        store.append(back, self.held_page);
        store.append(back, body);
        store.close(body);
        told
    }

    // The room of the held page with these nodes behind it; and the depth, if no page is held.
    fn told(&self, store: &Lists<Node>, body: ListId) -> Told
        requires held { IsPageList store.now self.now.held_page }
        requires held_room { IsRoomOf (list_at store.now self.now.held_page) self.now.held_room }
        requires body { IsPageList store.now body }
        ensures room { result.room ≡ size_of (shapes store.now self.now.held_page) +ℤ size_of (shapes store.now body) }
        ensures none_held { result.has_depth ≡ true → list_at store.now self.now.held_page ≡ [] }
        ensures depth { result.depth ≡ last_depth (shapes store.now body) }
    {
        let extent = list_extent(store, body);
        Told {
            room: sum_of(self.held_height(store), extent.room),
            depth: extent.depth,
            has_depth: store.len(self.held_page) == 0,
        }
    }

    // The height plus the depth of the held page, which was noted when it fired.
    fn held_height(&self, store: &Lists<Node>) -> i64
        requires held { IsPageList store.now self.now.held_page }
        requires room { IsRoomOf (list_at store.now self.now.held_page) self.now.held_room }
        ensures value { result ≡ size_of (shapes store.now self.now.held_page) }
        ensures small { IsAmount result }
    {
        if store.len(self.held_page) == 0 {
            return 0;
        }
        self.held_room
    }
}

// The size of a text, of which this was told, with these insertions.
fn text_size(store: &Lists<Node>, text: ListId, told: &Told, notes: &[NoteBox]) -> TextSize
    requires live { IsLive store.now text }
    requires sized { All IsSizedNode (list_at store.now text) }
    requires few { length (list_at store.now text) ≤ 8388608 }
    requires room { told.now.room ≡ size_of (shapes store.now text) }
    requires depth { told.now.has_depth ≡ true → told.now.depth ≡ last_depth (shapes store.now text) }
    requires notes { AllByRecursion (IsNote store.now) notes.now }
    requires rising { AreRisingFrom 0 notes.now }
    requires few_notes { note_count store.now notes.now ≤ 8388608 }
    ensures depth { result.depth ≡ last_depth (shapes store.now text) }
    ensures height { result.height ≡ size_of (shapes store.now text) -ℤ result.depth }
    ensures page { result.page ≡ result.height +ℤ result.depth +ℤ notes_height (notes_shown store.now notes.now) }
    ensures small_height { IsAmount result.height }
    ensures small_page { IsAmount result.page }
    ensures extent { IsExtent result.depth }
{
    let extent = text_extent(store, text, told);
    TextSize {
        height: difference(extent.room, extent.depth),
        depth: extent.depth,
        page: sum_of(extent.room, notes_height(store, notes)),
    }
}

// What insertions take of a page, each class with the glue above it.
fn notes_height(store: &Lists<Node>, notes: &[NoteBox]) -> i64
    requires notes { AllByRecursion (IsNote store.now) notes.now }
    requires rising { AreRisingFrom 0 notes.now }
    requires few { note_count store.now notes.now ≤ 8388608 }
    ensures value { result ≡ notes_height (notes_shown store.now notes.now) }
    ensures within { IsWithin 18014948265590784 result }
{
    let mut height = 0;
    for note in notes {
        // A class is below 256, so there are no more of them.
        let _class = note.class;
        height = sum_of(height, note_room(store, note));
    }
    height
}

// What the insertions of a class take of a page, with the glue above them; what makes the page higher takes less than
// nothing, and nothing if a box is among it.
fn note_room(store: &Lists<Node>, note: &NoteBox) -> i64
    requires { IsNote store.now note.now }
    ensures value { result ≡ note_room (note_shown store.now note.now) }
    ensures within { IsWithin (2147483646 * length (list_at store.now note.now.list) + 1073741823) result }
{
    if note.class != ENLARGING {
        return sum_of(list_height(store, note.list), note.skip.width);
    }
    if has_box(store, note.list) {
        return 0;
    }
    list_height(store, note.list)
}

/// The height plus the depth of a list, in sp.
pub(crate) fn list_height(store: &Lists<Node>, l: ListId) -> i64
    requires { IsPageList store.now l }
    ensures value { result ≡ size_of (shapes store.now l) }
    ensures within { IsWithin (2147483646 * length (list_at store.now l)) result }
{
    list_extent(store, l).room
}

fn sum_of(a: i64, b: i64) -> i64
    requires first { IsAmount a }
    requires second { IsAmount b }
    ensures { result ≡ a +ℤ b }
{
    a + b
}

// The insertions of each class go back as one insertion. If there is no memory, all is as before.
fn insertions_back(
    store: &mut Lists<Node>,
    p: &Params,
    notes: &[NoteBox],
    back: ListId,
) -> Result<(), AllocError>
    requires back { IsLive store.old back }
    requires notes { AllByRecursion (IsNote store.old) notes.now }
    requires apart { IsNoneOf back (note_lists notes.now) }
    ensures ok { OnOk result (HasGrown back (insertions_again p.now store.old notes.now) [] store.old store.new) }
    ensures err { OnErr result (store.new.lists ≡ store.old.lists) }
{
    store.reserve(notes.len())?;
    for note in notes {
        let height = list_height(store, note.list);
        push_made(store, back, insertion(p, note, height));
    }
    Ok(())
}

// The insertions of a class as one insertion.
fn insertion(p: &Params, note: &NoteBox, height: i64) -> Kind
    ensures { made_node result ≡ insertion_of p.now note.now height }
{
    Kind::Ins(Insertion {
        class: note.class,
        list: note.list,
        height,
        split_depth: p.splitmaxdepth,
        split_top: p.splittopskip,
        floating: p.floatingpenalty,
    })
}
