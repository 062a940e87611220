//! The depth of a text that is dropped above its footnotes.
ghost use Rattle.std.specs.Prelude.{◌≡◌, neg_ℤ, All};
ghost use Rattle.tb_pool.specs.Lists.{IsLive, list_at};
ghost use Rattle.tb_node.specs.Fit.{IsExtent, IsSizedNode, shapes};
ghost use Rattle.tb_node.specs.PlainNodes.{shape_of};
ghost use Rattle.tb_node.specs.Sums.{depth_after, last_depth};
ghost use Rattle.tb_scaled.specs.Scaled.{min_ℤ};
ghost use Rattle.tb_column.specs.Column.{is_drop, foot_kern};

use tb_node::{Kind, Node};
use tb_param::{Choice, Params};
use tb_pool::{ListId, Lists};

// Whether this choice drops the depth.
fn is_drop(choice: Choice) -> bool
    ensures { result ≡ is_drop choice }
{
    matches!(choice, Choice::Drop)
}

// The depth of a list behind a node, if it was this before it.
fn depth_after(depth: i64, node: &Node) -> i64
    ensures { result ≡ depth_after depth (shape_of node.now) }
{
    match node.kind {
        Kind::Hbox { depth, .. } => depth,
        Kind::Rule { depth, .. } => depth,
        Kind::Skip(_) => 0,
        Kind::Kern(_) => 0,
        Kind::Pen(_) => depth,
        Kind::Mark(_) => depth,
        Kind::Note(_) => depth,
        Kind::Whatsit => depth,
        Kind::Ins(_) => depth,
        Kind::Act(_) => depth,
    }
}

// The depth of a list.
fn list_depth(store: &Lists<Node>, l: ListId) -> i64
    requires { IsLive store.now l }
    ensures { result ≡ last_depth (shapes store.now l) }
{
    let mut depth = 0;
    for node in store.iter(l) {
        depth = depth_after(depth, node);
    }
    depth
}

// The kern that takes a depth back, up to a limit.
fn taken_back(depth: i64, limit: i64) -> i64
    requires depth { IsExtent depth }
    requires limit { IsExtent limit }
    ensures { result ≡ neg_ℤ (min_ℤ depth limit) }
{
    if depth <= limit { -depth } else { -limit }
}

/// The kern that takes back the depth of a text above its footnotes, if the depth is dropped there: up to the depth limit
/// of a page, and 0 if so many floats are at the bottom that there is one.
pub(crate) fn foot_kern(
    store: &Lists<Node>,
    p: &Params,
    body: ListId,
    bottoms: usize,
) -> Option<i64>
    requires live { IsLive store.now body }
    requires sized { All IsSizedNode (list_at store.now body) }
    requires limit { IsExtent p.now.maxdepth }
    ensures { result ≡ foot_kern p.now bottoms (shapes store.now body) }
{
    if !is_drop(p.footdepth) {
        return None;
    }
    let limit = if bottoms == 0 { p.maxdepth } else { 0 };
    Some(taken_back(list_depth(store, body), limit))
}
