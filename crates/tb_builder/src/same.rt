//! Whether two builders hold the same.

ghost use Rattle.std.specs.Prelude.{◌≡◌, ◌↔◌, [], true, IsTrue, map, option_to_list};
ghost use Rattle.tb_pool.specs.Lists.{IsLive, list_at};
ghost use Rattle.tb_node.specs.PlainNodes.{plain_of, plain_list};
ghost use Rattle.tb_builder.specs.Contents.{contents_of, boxed_of};
ghost use Rattle.tb_builder.specs.Ownership.{inner_of, inner_ids, box_ids, AllLive, AllPlain, HoldPlain, VoidEmpty};
ghost use Rattle.tb_builder.specs.Courses.{IsSound};

use crate::{Builder, ClassList};
use tb_node::{Kind, Node, same_lists};
use tb_pool::{ListId, Lists};

// Whether two nodes, each with its store, are the same, with the lists of insertions.
fn same_nodes(store: &Lists<Node>, node: &Node, other_store: &Lists<Node>, other: &Node) -> bool
    requires live { AllLive store.now (option_to_list (inner_of node.now.kind)) }
    requires other_live { AllLive other_store.now (option_to_list (inner_of other.now.kind)) }
    requires plain { HoldPlain store.now (option_to_list (inner_of node.now.kind)) }
    requires other_plain { HoldPlain other_store.now (option_to_list (inner_of other.now.kind)) }
    ensures { IsTrue result ↔ (plain_of (list_at store.now) node.now ≡ plain_of (list_at other_store.now) other.now) }
{
    if node.line != other.line {
        return false;
    }
    match node.kind {
        Kind::Ins(a) => match other.kind {
            Kind::Ins(b) => {
                a.is_same_but_list(&b) && same_lists(store, a.list, other_store, b.list)
            }
            _ => false,
        },
        _ => node.kind.is_same(&other.kind),
    }
}

// Whether two lists, each with its store, hold the same nodes, with the lists of insertions.
fn same_waiting(
    store: &Lists<Node>,
    list: ListId,
    other_store: &Lists<Node>,
    other_list: ListId,
) -> bool
    requires live { IsLive store.now list }
    requires other_live { IsLive other_store.now other_list }
    requires inner { AllLive store.now (inner_ids (list_at store.now list)) }
    requires other_inner { AllLive other_store.now (inner_ids (list_at other_store.now other_list)) }
    requires plain { HoldPlain store.now (inner_ids (list_at store.now list)) }
    requires other_plain { HoldPlain other_store.now (inner_ids (list_at other_store.now other_list)) }
    ensures { IsTrue result ↔ (plain_list store.now list ≡ plain_list other_store.now other_list) }
{
    if store.len(list) != other_store.len(other_list) {
        return false;
    }
    let mut others = other_store.iter(other_list);
    for node in store.iter(list) {
        let Some(other) = others.next() else {
            return false;
        };
        if !same_nodes(store, node, other_store, other) {
            return false;
        }
    }
    true
}

// Whether two class boxes, each with its store, hold the same.
fn same_box(
    store: &Lists<Node>,
    entry: &ClassList,
    other_store: &Lists<Node>,
    other: &ClassList,
) -> bool
    requires live { IsLive store.now entry.now.list }
    requires other_live { IsLive other_store.now other.now.list }
    requires void { entry.now.void ≡ true → list_at store.now entry.now.list ≡ [] }
    requires other_void { other.now.void ≡ true → list_at other_store.now other.now.list ≡ [] }
    requires plain { AllPlain (list_at store.now entry.now.list) }
    requires other_plain { AllPlain (list_at other_store.now other.now.list) }
    ensures { IsTrue result ↔ (boxed_of store.now entry.now ≡ boxed_of other_store.now other.now) }
{
    if entry.class.number != other.class.number {
        return false;
    }
    if entry.void != other.void {
        return false;
    }
    same_lists(store, entry.list, other_store, other.list)
}

// Whether the class boxes of two builders, each with its store, hold the same.
fn same_boxes(
    store: &Lists<Node>,
    boxes: &[ClassList],
    other_store: &Lists<Node>,
    other: &[ClassList],
) -> bool
    requires live { AllLive store.now (box_ids boxes.now) }
    requires other_live { AllLive other_store.now (box_ids other.now) }
    requires void { VoidEmpty store.now boxes.now }
    requires other_void { VoidEmpty other_store.now other.now }
    requires plain { HoldPlain store.now (box_ids boxes.now) }
    requires other_plain { HoldPlain other_store.now (box_ids other.now) }
    ensures { IsTrue result ↔ (map (boxed_of store.now) boxes.now ≡ map (boxed_of other_store.now) other.now) }
{
    if boxes.len() != other.len() {
        return false;
    }
    for (k, entry) in boxes.iter().enumerate() {
        if !same_box(store, entry, other_store, &other[k]) {
            return false;
        }
    }
    true
}

impl Builder {
    /// Whether two builders, each with its store, hold the same in their class boxes, and the same nodes wait. Pages and what
    /// is held of them are not looked at.
    pub fn holds_same(
        &self,
        store: &Lists<Node>,
        other: &Builder,
        other_store: &Lists<Node>,
    ) -> bool
        requires sound { IsSound self.now store.now }
        requires other_sound { IsSound other.now other_store.now }
        ensures waiting { IsTrue result → (contents_of self.now store.now).waiting ≡ (contents_of other.now other_store.now).waiting }
        ensures boxes { IsTrue result → (contents_of self.now store.now).boxes ≡ (contents_of other.now other_store.now).boxes }
        ensures exact { (contents_of self.now store.now).waiting ≡ (contents_of other.now other_store.now).waiting → (contents_of self.now store.now).boxes ≡ (contents_of other.now other_store.now).boxes → IsTrue result }
    {
        same_waiting(store, self.waiting, other_store, other.waiting)
            && same_boxes(
                store,
                self.boxes.as_slice(),
                other_store,
                other.boxes.as_slice(),
            )
    }
}
