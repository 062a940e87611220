//! Whether two nodes, or the parts of nodes, are the same.

ghost use Rattle.std.specs.Prelude.{◌≡◌, ◌↔◌, IsTrue};
ghost use Rattle.tb_pool.specs.Lists.{IsLive, list_at};

use crate::{
    Act, Area, Float, Insertion, Kind, Margin, Name, Node, Places, RuleOf, Side, What, Where,
};
use tb_pool::{ListId, Lists};
use tb_scaled::{Glue, Order};

impl Name {
    /// Whether two names are the same.
    pub fn is_same(&self, other: &Name) -> bool
        ensures { IsTrue result ↔ (self.now ≡ other.now) }
    {
        self.as_bytes() == other.as_bytes()
    }
}

impl Float {
    /// Whether two floats are the same.
    pub fn is_same(&self, other: &Float) -> bool
        ensures { IsTrue result ↔ (self.now ≡ other.now) }
    {
        self.line == other.line
            && self.height == other.height
            && self.class == other.class
            && self.wide == other.wide
            && self.bang == other.bang
            && self.deep == other.deep
            && self.nobreak == other.nobreak
            && same_places(self.places, other.places)
            && self.name.is_same(&other.name)
    }
}

impl Margin {
    /// Whether two marginal notes are the same.
    pub fn is_same(&self, other: &Margin) -> bool
        ensures { IsTrue result ↔ (self.now ≡ other.now) }
    {
        self.line == other.line
            && self.left_height == other.left_height
            && self.left_depth == other.left_depth
            && self.right_height == other.right_height
            && self.right_depth == other.right_depth
            && self.nobreak == other.nobreak
            && self.name.is_same(&other.name)
    }
}

impl Act {
    /// Whether two acts are the same.
    pub fn is_same(&self, other: &Act) -> bool
        ensures { IsTrue result ↔ (self.now ≡ other.now) }
    {
        match (self, other) {
            (Act::Take(a), Act::Take(b)) => a.is_same(b),
            (Act::TakeMargin(a), Act::TakeMargin(b)) => a.is_same(b),
            (Act::Suppress(a), Act::Suppress(b)) => same_areas(*a, *b),
            (Act::Columns { two: a }, Act::Columns { two: b }) => *a == *b,
            (Act::Page(a), Act::Page(b)) => *a == *b,
            (Act::Head(a), Act::Head(b)) => a.is_same(b),
            (Act::Set(a), Act::Set(b)) => a.is_same(b),
            _ => false,
        }
    }
}

impl What {
    /// Whether two boxes hold the same.
    pub fn is_same(&self, other: &What) -> bool
        ensures { IsTrue result ↔ (self.now ≡ other.now) }
    {
        match (self, other) {
            (What::Text(a), What::Text(b)) => a.is_same(b),
            (What::Blank, What::Blank) => true,
            (
                What::Float {
                    name,
                    class,
                    place,
                    item,
                },
                What::Float {
                    name: other_name,
                    class: other_class,
                    place: other_place,
                    item: other_item,
                },
            ) => {
                *item == *other_item
                    && *class == *other_class
                    && same_wheres(*place, *other_place)
                    && name.is_same(other_name)
            }
            (
                What::Margin {
                    name,
                    side,
                    shift,
                    height,
                    depth,
                    item,
                },
                What::Margin {
                    name: other_name,
                    side: other_side,
                    shift: other_shift,
                    height: other_height,
                    depth: other_depth,
                    item: other_item,
                },
            ) => {
                *item == *other_item
                    && *shift == *other_shift
                    && *height == *other_height
                    && *depth == *other_depth
                    && same_sides(*side, *other_side)
                    && name.is_same(other_name)
            }
            _ => false,
        }
    }
}

impl Insertion {
    /// Whether two insertions are the same but for the ids of their lists.
    pub fn is_same_but_list(&self, other: &Insertion) -> bool
        ensures { IsTrue result ↔ (self.now ≡ record other.now { list = self.now.list }) }
    {
        self.class == other.class
            && self.height == other.height
            && self.split_depth == other.split_depth
            && self.split_top == other.split_top
            && self.floating == other.floating
    }
}

impl Kind {
    /// Whether two kinds of node are the same, with what they hold; two insertions are if their lists have one id.
    pub fn is_same(&self, other: &Kind) -> bool
        ensures { IsTrue result ↔ (self.now ≡ other.now) }
    {
        match (self, other) {
            (
                Kind::Hbox {
                    what,
                    height,
                    depth,
                },
                Kind::Hbox {
                    what: other_what,
                    height: other_height,
                    depth: other_depth,
                },
            ) => *height == *other_height && *depth == *other_depth && what.is_same(other_what),
            (
                Kind::Rule { of, height, depth },
                Kind::Rule {
                    of: other_of,
                    height: other_height,
                    depth: other_depth,
                },
            ) => *height == *other_height && *depth == *other_depth && of.is_same(other_of),
            (Kind::Skip(a), Kind::Skip(b)) => same_glue(a, b),
            (Kind::Kern(a), Kind::Kern(b)) => *a == *b,
            (Kind::Pen(a), Kind::Pen(b)) => *a == *b,
            (Kind::Mark(a), Kind::Mark(b)) => a.is_same(b),
            (Kind::Note(a), Kind::Note(b)) => a.is_same(b),
            (Kind::Whatsit, Kind::Whatsit) => true,
            (Kind::Ins(a), Kind::Ins(b)) => same_ids(a.list, b.list) && a.is_same_but_list(b),
            (Kind::Act(a), Kind::Act(b)) => a.is_same(b),
            _ => false,
        }
    }
}

fn same_places(a: Places, b: Places) -> bool
    ensures { IsTrue result ↔ (a ≡ b) }
{
    a == b
}

fn same_areas(a: Area, b: Area) -> bool
    ensures { IsTrue result ↔ (a ≡ b) }
{
    a == b
}

fn same_wheres(a: Where, b: Where) -> bool
    ensures { IsTrue result ↔ (a ≡ b) }
{
    a == b
}

fn same_sides(a: Side, b: Side) -> bool
    ensures { IsTrue result ↔ (a ≡ b) }
{
    a == b
}

fn same_orders(a: Order, b: Order) -> bool
    ensures { IsTrue result ↔ (a ≡ b) }
{
    a == b
}

fn same_glue(a: &Glue, b: &Glue) -> bool
    ensures { IsTrue result ↔ (a.now ≡ b.now) }
{
    a.width == b.width
        && a.stretch == b.stretch
        && a.shrink == b.shrink
        && same_orders(a.order, b.order)
}

fn same_ids(a: ListId, b: ListId) -> bool
    ensures { IsTrue result ↔ (a ≡ b) }
{
    a == b
}

impl RuleOf {
    /// Whether two rules are the same item's, or both the output routine's in the same place.
    pub fn is_same(&self, other: &RuleOf) -> bool
        ensures { IsTrue result ↔ (self.now ≡ other.now) }
    {
        match (self, other) {
            (RuleOf::Item(a), RuleOf::Item(b)) => a.is_same(b),
            (RuleOf::Footnotes, RuleOf::Footnotes) => true,
            (RuleOf::Floats, RuleOf::Floats) => true,
            _ => false,
        }
    }
}

/// Whether two lists, each of a store of its own, hold the same nodes in the same order. The list of an insertion is not
/// looked at, but for its id.
pub fn same_lists(
    store: &Lists<Node>,
    list: ListId,
    other: &Lists<Node>,
    other_list: ListId,
) -> bool
    requires live { IsLive store.now list }
    requires other_live { IsLive other.now other_list }
    ensures { IsTrue result ↔ (list_at store.now list ≡ list_at other.now other_list) }
{
    if store.len(list) != other.len(other_list) {
        return false;
    }
    let mut others = other.iter(other_list);
    for node in store.iter(list) {
        let Some(other_node) = others.next() else {
            return false;
        };
        if !same_nodes(node, other_node) {
            return false;
        }
    }
    true
}

// Whether two nodes are the same, the list of an insertion aside.
fn same_nodes(a: &Node, b: &Node) -> bool
    ensures { IsTrue result ↔ (a.now ≡ b.now) }
{
    a.line == b.line && a.kind.is_same(&b.kind)
}
