//! The extent of a text whose room is known.

ghost use Rattle.std.specs.Prelude.{◌≡◌, ◌≤◌, true, All, length, IfSome};
ghost use Rattle.std.specs.List.{slice_get};
ghost use Rattle.tb_pool.specs.Lists.{IsLive, list_at};
ghost use Rattle.tb_node.specs.Fit.{IsSizedNode, shapes};
ghost use Rattle.tb_node.specs.Sums.{size_of, last_depth};
ghost use Rattle.tb_output.specs.Extents.{kind_depth, depth_there};

use tb_node::{Extent, Kind, Node, list_extent};
use tb_pool::{ListId, Lists};

// How many nodes at the end of a text are looked at for its depth; if none of them has one, the whole text is walked.
const NEAR: usize = 8;

/// What was told of a text on its way back.
#[derive(Clone, Copy)]
pub(crate) struct Told {
    /// Its height plus its depth, in sp.
    pub room: i64,
    /// Its depth in sp, if `has_depth`.
    pub depth: i64,
    /// Whether its depth was told.
    pub has_depth: bool,
}

/// The extent of a text of which this was told, as `list_extent` returns it.
pub(crate) fn text_extent(store: &Lists<Node>, text: ListId, told: &Told) -> Extent
    requires live { IsLive store.now text }
    requires sized { All IsSizedNode (list_at store.now text) }
    requires few { length (list_at store.now text) ≤ 8388608 }
    requires room { told.now.room ≡ size_of (shapes store.now text) }
    requires depth { told.now.has_depth ≡ true → told.now.depth ≡ last_depth (shapes store.now text) }
    ensures room { result.room ≡ size_of (shapes store.now text) }
    ensures depth { result.depth ≡ last_depth (shapes store.now text) }
{
    let room = told.room;
    if told.has_depth {
        return Extent {
            room,
            depth: told.depth,
        };
    }
    match near_depth(store, text) {
        Some(depth) => Extent { room, depth },
        None => list_extent(store, text),
    }
}

// The depth of a list, if one of its last nodes has it.
fn near_depth(store: &Lists<Node>, l: ListId) -> Option<i64>
    requires { IsLive store.now l }
    ensures { IfSome result (λ d. d ≡ last_depth (shapes store.now l)) }
{
    let mut left = store.len(l);
    let least = left.saturating_sub(NEAR);
    let mut depth = None;
    'look: while depth.is_none() && left > least {
        left -= 1;
        depth = depth_at(store, l, left);
    }
    depth
}

// The depth of a list that ends in its node at this place, if no node before it matters.
fn depth_at(store: &Lists<Node>, l: ListId, place: usize) -> Option<i64>
    requires { IsLive store.now l }
    ensures { result ≡ depth_there (slice_get (list_at store.now l) place) }
{
    match store.get(l, place) {
        Some(node) => kind_depth(&node.kind),
        None => None,
    }
}

/// The depth of a list that ends in this node, if no node before it matters.
pub(crate) fn kind_depth(kind: &Kind) -> Option<i64>
    ensures { result ≡ kind_depth kind.now }
{
    match *kind {
        Kind::Hbox { depth, .. } => Some(depth),
        Kind::Rule { depth, .. } => Some(depth),
        Kind::Skip(_) => Some(0),
        Kind::Kern(_) => Some(0),
        Kind::Pen(_) => None,
        Kind::Mark(_) => None,
        Kind::Note(_) => None,
        Kind::Whatsit => None,
        Kind::Ins(_) => None,
        Kind::Act(_) => None,
    }
}
