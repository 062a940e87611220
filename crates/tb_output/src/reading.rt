//! What is read of the machine and of a page that the builder fired, before the page is served. Nothing changes.

ghost use Rattle.std.specs.Prelude.{◌≡◌, ◌≤◌, ◌+◌, ◌-◌, ◌+ℤ◌, ◌∷◌, [], ◌++◌, length, map, take, true, int_lt, pos};
ghost use Rattle.tb_scaled.specs.Amount.{IsAmount};
ghost use Rattle.tb_pool.specs.Lists.{Lists as ListMap, list_at};
ghost use Rattle.tb_node.specs.declared.Node.{Node as NodeValue};
ghost use Rattle.tb_node.specs.PlainNodes.{shape_of};
ghost use Rattle.tb_node.specs.SmallAmounts.{IsSmallShape};
ghost use Rattle.tb_node.specs.Sums.{room_of, depth_after, size_of, last_depth};
ghost use Rattle.tb_builder.specs.Contents.{contents_of, box_count};
ghost use Rattle.tb_builder.specs.Courses.{IsSound};
ghost use Rattle.tb_builder.specs.Ownership.{has_class, classes_of, ids_of};
ghost use Rattle.tb_column.specs.Column.{standing_notes};
ghost use Rattle.tb_column.specs.Page.{IsPageList};
ghost use Rattle.tb_column.specs.Ranges.{IsSizedGlue};
ghost use Rattle.tb_float.specs.Ranges.{IsWithin};
ghost use Rattle.tb_output.specs.State.{notes_in};
ghost use Rattle.tb_output.specs.Text.{notes_height};
ghost use Rattle.tb_output.specs.Machine.{IsMachine, AreClassesFrom};
ghost use Rattle.tb_output.specs.Firing.{AreSizedBoxes, CanFire};
ghost use Rattle.tb_output.specs.Reading.{standing_of, any_notes, IsPageReading};

use crate::Machine;
use crate::extents::kind_depth;
use tb_builder::{Builder, Page};
use tb_column::ENLARGING;
use tb_float::{Pool, Suppress};
use tb_insert::Class;
use tb_node::{Extent, Node, list_extent, room_of};
use tb_param::{Params, is_below};
use tb_pool::{ListId, Lists};
use tb_scaled::{difference, sum};

/// How the machine stands between two firings, apart from its floats.
#[derive(Clone, Copy)]
pub struct Standing {
    /// How many pages were shipped, and one.
    pub page: u64,
    /// The number of the page that is being made.
    pub number: u64,
    /// Whether there are two columns.
    pub two_columns: bool,
    /// Whether the first of two columns is being made; true in one column.
    pub first_column: bool,
    /// Where no further float may go in the column that is being made.
    pub suppress: Suppress,
    /// How far down the marginal notes of the column reach, in sp.
    pub note_bottom: i64,
}

/// What a page that fired shows before it is served. Heights are in sp.
#[derive(Clone, Copy)]
pub struct Reading {
    /// The height of the text without its depth: of the held page, and of the page without its last two nodes, which
    /// are the box and the glue that the firing at a float or a note set.
    pub height: i64,
    /// The height and the depth of that text, and what the insertions of the page take.
    pub page_height: i64,
    /// Whether insertions stand on the page: others than those that make it higher.
    pub has_notes: bool,
}

impl Machine {
    /// The parameters.
    pub fn params(&self) -> &Params
        ensures { result.now ≡ self.now.params }
    {
        &self.params
    }

    /// The floats and marginal notes that were taken, each in its list.
    pub fn pool(&self) -> &Pool
        ensures { result.now ≡ self.now.pool }
    {
        &self.pool
    }

    /// Whether `maxdeadcycles` allows one more firing without a page.
    pub fn may_fire(&self) -> bool
        ensures { result ≡ int_lt (pos self.now.dead_cycles) self.now.params.maxdeadcycles }
    {
        is_below(self.dead_cycles, self.params.maxdeadcycles)
    }

    /// How the machine stands.
    pub fn standing(&self) -> Standing
        ensures { result ≡ standing_of self.now }
    {
        Standing {
            page: self.page,
            number: self.number,
            two_columns: self.two_columns,
            first_column: self.first_column,
            suppress: self.suppress,
            note_bottom: self.note_bottom,
        }
    }

    /// What a page that the builder fired shows, before it is served: the numbers by which its firing decides, if it is one at
    /// a float or a marginal note (ltoutput.dtx, \@specialoutput), and whether it has insertions. It walks the held page
    /// and the page.
    pub fn reading(&self, store: &Lists<Node>, b: &Builder, page: &Page) -> Reading
        requires machine { IsMachine self.now store.now }
        requires builder { IsSound b.now store.now }
        requires page { CanFire self.now b.now store.now page.now }
        ensures { IsPageReading result self.now b.now store.now page.now }
    {
        let text = text_extent(store, self.held_page, page.body);
        let classes = self.classes.as_slice();
        let notes = boxes_height(store, b, classes);
        Reading {
            height: difference(text.room, text.depth),
            page_height: sum(text.room, notes),
            has_notes: any_boxes(b, classes),
        }
    }
}

// The extent of a held page with a page behind it, but for the last two nodes of the page.
fn text_extent(store: &Lists<Node>, held: ListId, body: ListId) -> Extent
    requires held { IsPageList store.now held }
    requires body { IsPageList store.now body }
    requires few { length (list_at store.now body) + length (list_at store.now held) ≤ 8388608 }
    ensures room { result.room ≡ size_of (map shape_of (list_at store.now held ++ take (length (list_at store.now body) - 2) (list_at store.now body))) }
    ensures depth { result.depth ≡ last_depth (map shape_of (list_at store.now held ++ take (length (list_at store.now body) - 2) (list_at store.now body))) }
{
    let mut extent = list_extent(store, held);
    let mut left = store.len(body).saturating_sub(2);
    for node in store.iter(body) {
        if left == 0 {
            return extent;
        }
        left -= 1;
        extent = with_node(extent, node);
    }
    extent
}

// An extent with a node behind it.
fn with_node(before: Extent, node: &Node) -> Extent
    requires room { IsAmount before.room }
    requires node { IsSmallShape (shape_of node.now) }
    ensures room { result.room ≡ before.room +ℤ room_of (shape_of node.now) }
    ensures depth { result.depth ≡ depth_after before.depth (shape_of node.now) }
{
    Extent {
        room: sum(before.room, room_of(node)),
        depth: kind_depth(&node.kind).unwrap_or(before.depth),
    }
}

// What the insertions in the boxes of these classes take of a page, each class with the glue above it.
fn boxes_height(store: &Lists<Node>, b: &Builder, classes: &[Class]) -> i64
    requires sound { IsSound b.now store.now }
    requires classes { AreClassesFrom 0 classes.now }
    requires known { (contents_of b.now store.now).classes ≡ classes.now }
    requires sized { AreSizedBoxes (contents_of b.now store.now).boxes }
    requires few { box_count (contents_of b.now store.now).boxes ≤ 8388608 }
    ensures value { result ≡ notes_height (notes_in classes.now (contents_of b.now store.now).boxes) }
    ensures within { IsWithin 18014948265590784 result }
{
    let mut height = 0;
    for class in classes {
        // A class is below 256, so there are no more of them.
        let _number = class.number;
        height = sum(height, box_height(store, b, class));
    }
    height
}

// What the insertions of a class take of a page, with the glue above them; 0 if its box is void.
fn box_height(store: &Lists<Node>, b: &Builder, class: &Class) -> i64
    requires sound { IsSound b.now store.now }
    requires known { has_class (contents_of b.now store.now).classes class.now.number ≡ true }
    requires skip { IsSizedGlue class.now.skip }
    requires sized { AreSizedBoxes (contents_of b.now store.now).boxes }
    requires few { box_count (contents_of b.now store.now).boxes ≤ 8388608 }
    ensures { result ≡ notes_height (notes_in (class.now ∷ []) (contents_of b.now store.now).boxes) }
{
    if b.is_void(class.number) {
        return 0;
    }
    if class.number != ENLARGING {
        return sum(b.box_size(store, class.number), class.skip.width);
    }
    if b.holds_box(store, class.number) {
        return 0;
    }
    b.box_size(store, class.number)
}

// Whether a box of these classes is not void, but for that of what makes a page higher.
fn any_boxes(b: &Builder, classes: &[Class]) -> bool
    requires { classes_of (ids_of b.now) ≡ classes.now }
    ensures { (s : ListMap NodeValue) → result ≡ any_notes (standing_notes (notes_in classes.now (contents_of b.now s).boxes)) }
{
    for class in classes {
        if holds_standing(b, class) {
            return true;
        }
    }
    false
}

// Whether the box of a class is not void, and the class is not that of what makes a page higher.
fn holds_standing(b: &Builder, class: &Class) -> bool
    requires { has_class (classes_of (ids_of b.now)) class.now.number ≡ true }
    ensures { (s : ListMap NodeValue) → result ≡ any_notes (standing_notes (notes_in (class.now ∷ []) (contents_of b.now s).boxes)) }
{
    if class.number == ENLARGING {
        return false;
    }
    !b.is_void(class.number)
}
