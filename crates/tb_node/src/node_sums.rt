//! The sums of a vertical list, node by node.

ghost use Rattle.std.specs.Prelude.{◌≡◌, ◌<◌, ◌≤ℤ◌, ◌+ℤ◌, ◌-ℤ◌, pos, slice_index_or};
ghost use Rattle.tb_pool.specs.Lists.{IsLive};
ghost use Rattle.tb_node.specs.Shape.{box, glue};
ghost use Rattle.tb_node.specs.PlainNodes.{shape_of};
ghost use Rattle.tb_node.specs.Sums.{sums_of};
ghost use Rattle.tb_node.specs.NodeSums.{limited, limited_to, order_index, more_at, added_node, stretched_sums};
ghost use Rattle.tb_node.specs.SmallAmounts.{IsAmount, AreAmounts, IsSmall, IsSmallShape};
ghost use Rattle.tb_node.specs.Fit.{shapes, NodesFit, SumsFit};

use crate::{Kind, Node, Sums};
use tb_pool::{ListId, Lists};
use tb_scaled::{Glue, Order, sum};

// The depth, but no more than the limit.
fn kept_depth(max_depth: i64, depth: i64) -> i64
    ensures value { result ≡ limited_to max_depth depth }
    ensures small { IsAmount max_depth → IsAmount depth → IsAmount result }
{
    if max_depth < depth { max_depth } else { depth }
}

// A total, with the depth before a node and the node's room added, less the depth that is kept.
fn laid(total: i64, depth: i64, room: i64, kept: i64) -> i64
    requires total { IsAmount total }
    requires depth { IsAmount depth }
    requires room { IsAmount room }
    requires kept { IsAmount kept }
    ensures { result ≡ (total +ℤ depth +ℤ room) -ℤ kept }
{
    total + depth + room - kept
}

// Adds a room with a new depth: the depth is kept up to the limit, and what is beyond the limit stays in the total.
#[inline(always)]
fn lay(s: &mut Sums, room: i64, depth: i64, max_depth: i64)
    requires small { IsSmall s.old }
    requires room { IsAmount room }
    requires depth { IsAmount depth }
    requires limit { IsAmount max_depth }
    ensures { s.new ≡ record s.old { total = limited max_depth (s.old.total +ℤ s.old.depth +ℤ room) depth; depth = limited_to max_depth depth } }
{
    let kept = kept_depth(max_depth, depth);
    s.total = laid(s.total, s.depth, room, kept);
    s.depth = kept;
}

// The index of an order among the four amounts.
fn order_place(o: Order) -> usize
    ensures value { result ≡ order_index o }
    ensures small { result < 4 }
{
    match o {
        Order::Normal => 0,
        Order::Fil => 1,
        Order::Fill => 2,
        Order::Filll => 3,
    }
}

// The amount at an index grows by this.
fn raise(amounts: &mut [i64; 4], k: usize, v: i64)
    requires place { k < 4 }
    requires small { IsAmount (slice_index_or amounts.old k (pos 0)) }
    requires more { IsAmount v }
    ensures { amounts.new ≡ more_at k v amounts.old }
{
    amounts[k] = sum(amounts[k], v);
}

/// Adds a box or rule to the sums of the list before it, as [`add`] adds its node. All amounts are in sp.
#[inline(always)]
pub fn add_box(s: &mut Sums, height: i64, depth: i64, max_depth: i64)
    requires small { IsSmall s.old }
    requires height { IsAmount height }
    requires depth { IsAmount depth }
    requires room { IsAmount (height +ℤ depth) }
    requires limit { IsAmount max_depth }
    ensures { s.new ≡ added_node max_depth s.old (box height depth) }
{
    let room = sum(height, depth);
    lay(s, room, depth, max_depth);
}

/// Adds a node to the sums of the list before it, under the depth limit of those sums (TeX: The Program §1002 to
/// §1004).
#[inline(always)]
pub fn add(s: &mut Sums, n: &Node, max_depth: i64)
    requires small { IsSmall s.old }
    requires node { IsSmallShape (shape_of n.now) }
    requires limit { IsAmount max_depth }
    ensures { s.new ≡ added_node max_depth s.old (shape_of n.now) }
{
    match n.kind {
        Kind::Hbox { height, depth, .. } => add_box(s, height, depth, max_depth),
        Kind::Rule { height, depth, .. } => add_box(s, height, depth, max_depth),
        Kind::Skip(g) => add_glue(s, g, max_depth),
        Kind::Kern(w) => lay(s, w, 0, max_depth),
        Kind::Pen(_) => lay(s, 0, s.depth, max_depth),
        Kind::Mark(_) => lay(s, 0, s.depth, max_depth),
        Kind::Note(_) => lay(s, 0, s.depth, max_depth),
        Kind::Whatsit => lay(s, 0, s.depth, max_depth),
        Kind::Ins(_) => lay(s, 0, s.depth, max_depth),
        Kind::Act(_) => lay(s, 0, s.depth, max_depth),
    }
}

/// Adds glue to the sums of the list before it, as [`add`] adds its node. All amounts are in sp.
#[inline(always)]
pub fn add_glue(s: &mut Sums, g: Glue, max_depth: i64)
    requires small { IsSmall s.old }
    requires node { IsSmallShape (glue g) }
    requires limit { IsAmount max_depth }
    ensures { s.new ≡ added_node max_depth s.old (glue g) }
{
    lay(s, g.width, 0, max_depth);
    stretch_sums(s, g);
}

/// Adds the stretch and the shrink of glue to the sums, but not its width (TeX: The Program §1009).
pub fn stretch_sums(s: &mut Sums, g: Glue)
    requires stretch { AreAmounts s.old.stretch }
    requires shrink { IsAmount s.old.shrink }
    requires more { IsAmount g.stretch }
    requires less { IsAmount g.shrink }
    ensures { s.new ≡ stretched_sums s.old g }
{
    raise(&mut s.stretch, order_place(g.order), g.stretch);
    s.shrink = sum(s.shrink, g.shrink);
}

/// The sums of a list of the store under a depth limit, in one walk.
pub fn list_sums(store: &Lists<Node>, l: ListId, max_depth: i64) -> Sums
    requires live { IsLive store.now l }
    requires low { pos 0 ≤ℤ max_depth }
    requires limit { IsAmount max_depth }
    requires nodes { NodesFit (shapes store.now l) }
    requires sums { SumsFit max_depth (shapes store.now l) }
    ensures { result ≡ sums_of max_depth (shapes store.now l) }
{
    let mut sums = Sums {
        total: 0,
        depth: 0,
        stretch: [0; 4],
        shrink: 0,
    };
    for n in store.iter(l) {
        add(&mut sums, n, max_depth);
    }
    sums
}
