//! The top of a page: what vanishes there, and the glue before the first box (TeX: The Program §968).

ghost use Rattle.std.specs.Prelude.{◌≡◌, ◌<◌, ◌≤◌, ◌+◌, ◌-ℤ◌, List, [], ◌∷◌, ◌++◌, pos, length, Some, true, false};
ghost use Rattle.tb_scaled.specs.Scaled.{max_ℤ};
ghost use Rattle.tb_pool.specs.Lists.{IsLive, list_at, with_list};
ghost use Rattle.tb_node.specs.declared.Node.{Node as NodeOf};
ghost use Rattle.tb_node.specs.SmallAmounts.{IsAmount, IsSmallShape};
ghost use Rattle.tb_node.specs.PlainNodes.{shape_of};
ghost use Rattle.tb_node.specs.Shape.{height_of, is_box};
ghost use Rattle.tb_break.specs.SplitPlace.{shapes, NodesFit};
ghost use Rattle.tb_break.specs.PageTop.{glue_before, pruned_list, top_glue};
ghost use Rattle.tb_break.specs.PageTopTurns.{before_box, from_box, turned, turned_at, moved, moved_at, topped};

use crate::is_lasting;
use tb_node::{Kind, Node};
use tb_pool::{ListId, Lists};
use tb_scaled::fixed;

/// Prunes a list for the top of a page (TeX: The Program §968): glue, kerns and penalties before the first box or rule
/// vanish, other nodes there stay. Directly before that box or rule, and with its line, comes glue that fills what its
/// height lacks of the top skip, in sp. No other list changes, and at most one more place is taken.
pub fn prune(store: &mut Lists<Node>, l: ListId, top_skip: i64)
    requires live { IsLive store.old l }
    requires room { 0 < store.old.spare }
    requires top_skip { IsAmount top_skip }
    requires nodes { NodesFit (shapes store.old l) }
    ensures pruned { store.new.lists ≡ with_list store.old l (pruned_list top_skip (list_at store.old l)) }
    ensures places { store.new.spare + length (list_at store.new l) ≡ store.old.spare + length (list_at store.old l) }
    ensures spare { store.old.spare ≤ store.new.spare + 1 }
{
    let kept = set_aside(store, l);
    put_top_glue(store, l, top_skip);
    bring_back(store, l, kept);
}

// Takes off the nodes before the first box or rule; those that do not vanish wait at the list's end. Returns their
// number.
fn set_aside(store: &mut Lists<Node>, l: ListId) -> usize
    requires { IsLive store.old l }
    ensures turned { store.new.lists ≡ with_list store.old l (from_box (list_at store.old l) ++ before_box (list_at store.old l)) }
    ensures count { result ≡ length (before_box (list_at store.old l)) }
    ensures places { store.new.spare + length (list_at store.new l) ≡ store.old.spare + length (list_at store.old l) }
{
    let mut kept = 0;
    for _turn in 0..store.len(l) {
        let Some(more) = turn(store, l) else {
            return kept;
        };
        kept += more;
    }
    kept
}

// Takes off the first node, unless it is a box or rule. Returns how many nodes went to the list's end.
fn turn(store: &mut Lists<Node>, l: ListId) -> Option<usize>
    requires { IsLive store.old l }
    ensures turned { store.new.lists ≡ with_list store.old l (turned (list_at store.old l)) }
    ensures moved { result ≡ moved (list_at store.old l) }
    ensures places { store.new.spare + length (list_at store.new l) ≡ store.old.spare + length (list_at store.old l) }
{
    let Some(n) = store.pop_front(l) else {
        return None;
    };
    if is_box(&n) {
        store.push_front(l, n);
        return None;
    }
    Some(keep(store, l, n))
}

// Puts a node from before the first box at the list's end, unless it vanishes. Returns how many nodes it put there.
fn keep(store: &mut Lists<Node>, l: ListId, n: Node) -> usize
    requires live { IsLive store.old l }
    requires room { 0 < store.old.spare }
    requires other { is_box (shape_of n) ≡ false }
    ensures turned { store.new.lists ≡ with_list store.old l (turned_at (shape_of n) n (list_at store.old l)) }
    ensures moved { Some result ≡ moved_at (shape_of n) }
    ensures places { store.new.spare + length (list_at store.new l) ≡ store.old.spare + length (list_at store.old l) }
{
    if is_lasting(&n) {
        store.push_back(l, n);
        return 1;
    }
    0
}

/// Whether a node is a box or a rule.
#[inline]
pub fn is_box(n: &Node) -> bool
    ensures { result ≡ is_box (shape_of n.now) }
{
    matches!(n.kind, Kind::Hbox { .. } | Kind::Rule { .. })
}

// Puts the top glue before the first node, if that is a box or rule.
fn put_top_glue(store: &mut Lists<Node>, l: ListId, top_skip: i64)
    requires live { IsLive store.old l }
    requires room { 0 < store.old.spare }
    requires top_skip { IsAmount top_skip }
    requires nodes { (n : NodeOf) (ns : List NodeOf) → list_at store.old l ≡ n ∷ ns → IsSmallShape (shape_of n) }
    ensures topped { store.new.lists ≡ with_list store.old l (topped top_skip (list_at store.old l)) }
    ensures places { store.new.spare + length (list_at store.new l) ≡ store.old.spare + length (list_at store.old l) }
{
    let Some(first) = store.get(l, 0) else {
        return;
    };
    if !is_box(first) {
        return;
    }
    let glue = top_node(first, top_skip);
    store.push_front(l, glue);
}

/// The glue before the first box or rule of a page, with its line: what its height lacks of the top skip, in sp (TeX:
/// The Program §969).
#[inline]
pub fn top_node(n: &Node, top_skip: i64) -> Node
    requires top_skip { IsAmount top_skip }
    requires boxed { is_box (shape_of n.now) ≡ true }
    requires node { IsSmallShape (shape_of n.now) }
    ensures { result ≡ glue_before n.now (top_glue top_skip (height_of (shape_of n.now))) }
{
    Node {
        line: n.line,
        kind: Kind::Skip(fixed(room_above(top_skip, height_of(n)))),
    }
}

// The height of a box or rule.
fn height_of(n: &Node) -> i64
    ensures { result ≡ height_of (shape_of n.now) }
{
    match n.kind {
        Kind::Hbox { height, .. } => height,
        Kind::Rule { height, .. } => height,
        Kind::Skip(_) => 0,
        Kind::Kern(_) => 0,
        Kind::Pen(_) => 0,
        Kind::Mark(_) => 0,
        Kind::Note(_) => 0,
        Kind::Whatsit => 0,
        Kind::Ins(_) => 0,
        Kind::Act(_) => 0,
    }
}

// What a box of this height lacks of the top skip.
fn room_above(top_skip: i64, height: i64) -> i64
    requires top_skip { IsAmount top_skip }
    requires height { IsAmount height }
    ensures { result ≡ max_ℤ (top_skip -ℤ height) (pos 0) }
{
    if top_skip < height {
        0
    } else {
        top_skip - height
    }
}

// Brings the last nodes back to the list's front, in their order.
fn bring_back(store: &mut Lists<Node>, l: ListId, count: usize)
    requires { IsLive store.old l }
    ensures moved { (front aside : List NodeOf) → list_at store.old l ≡ front ++ aside → length aside ≡ count → store.new.lists ≡ with_list store.old l (aside ++ front) }
    ensures spare { store.new.spare ≡ store.old.spare }
{
    for _turn in 0..count {
        let Some(n) = store.pop_back(l) else {
            return;
        };
        store.push_front(l, n);
    }
}
