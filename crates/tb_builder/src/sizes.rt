//! Sizes and counts of lists.

ghost use Rattle.std.specs.Prelude.{◌≡◌, FitsSigned};
ghost use Rattle.std.specs.Int.{w64};
ghost use Rattle.std.specs.List.{list_any};
ghost use Rattle.tb_pool.specs.Lists.{IsLive};
ghost use Rattle.tb_node.specs.Fit.{shapes};
ghost use Rattle.tb_node.specs.PlainNodes.{shape_of};
ghost use Rattle.tb_node.specs.Shape.{is_box as is_box_shape};
ghost use Rattle.tb_node.specs.Sums.{size_of, room_of as room_of_shape};
ghost use Rattle.tb_builder.specs.PageEvents.{SizesFit};
ghost use Rattle.tb_builder.specs.Sizes.{RoomFits};

use tb_node::{Kind, Node, room_of};
use tb_pool::{ListId, Lists};
use tb_scaled::sum;

// The room that a node takes, in sp. Most nodes are glue or boxes, so these are tested for first and alone: of one `match` LLVM
// makes a table of jumps.
#[inline(always)]
fn room_in(n: &Node) -> i64
    requires { FitsSigned w64 (room_of_shape (shape_of n.now)) }
    ensures { result ≡ room_of_shape (shape_of n.now) }
{
    if let Kind::Skip(glue) = n.kind {
        return glue.width;
    }
    if let Kind::Hbox { height, depth, .. } = n.kind {
        return sum(height, depth);
    }
    other_room(n)
}

#[inline(never)]
fn other_room(n: &Node) -> i64
    requires { FitsSigned w64 (room_of_shape (shape_of n.now)) }
    ensures { result ≡ room_of_shape (shape_of n.now) }
{
    room_of(n)
}

/// The room that a list takes, in sp.
pub(crate) fn list_size(store: &Lists<Node>, l: ListId) -> i64
    requires live { IsLive store.now l }
    requires fits { SizesFit (shapes store.now l) }
    ensures { result ≡ size_of (shapes store.now l) }
{
    pruned_size(store, l)
}

/// The room that a list takes, which may have been pruned, in sp.
pub(crate) fn pruned_size(store: &Lists<Node>, l: ListId) -> i64
    requires live { IsLive store.now l }
    requires fits { RoomFits (shapes store.now l) }
    ensures { result ≡ size_of (shapes store.now l) }
{
    let mut total = 0;
    for n in store.iter(l) {
        total = sum(total, room_in(n));
    }
    total
}

// Whether a node is a box or a rule.
fn is_box(n: &Node) -> bool
    ensures { result ≡ is_box_shape (shape_of n.now) }
{
    matches!(n.kind, Kind::Hbox { .. } | Kind::Rule { .. })
}

/// Whether a box or a rule is in a list.
pub fn has_box(store: &Lists<Node>, l: ListId) -> bool
    requires { IsLive store.now l }
    ensures { result ≡ list_any is_box_shape (shapes store.now l) }
{
    for n in store.iter(l) {
        if is_box(n) {
            return true;
        }
    }
    false
}
