//! Nodes at the front of a list: what they are, and how they go from one list to another.

ghost use Rattle.std.specs.Prelude.{option_copied, ◌≡◌, ◌<◌, ◌≤◌, ◌<ℤ◌, pos, Bool, true, false, None, Some, IfSome, OnSome, List, ◌∷◌, slice_get, drop};
ghost use Rattle.tb_pool.specs.Lists.{IsLive, list_at, with_list};
ghost use Rattle.tb_node.specs.declared.Node.{Node as NodeOf};
ghost use Rattle.tb_node.specs.PlainNodes.{shape_of};
ghost use Rattle.tb_node.specs.SmallAmounts.{IsAmount, IsSmallShape};
ghost use Rattle.tb_node.specs.Roles.{act_of_kind, insertion_of_kind};
ghost use Rattle.tb_break.specs.SplitPlace.{penalty_by};
ghost use Rattle.tb_builder.specs.Courses.{is_act, nodes_glue_first};
ghost use Rattle.tb_node.specs.Shape.{glue};
ghost use Rattle.tb_builder.specs.declared.Seen.TheVariants.{Space};
ghost use Rattle.tb_builder.specs.PageWalks.{seen_of, is_still, still_count};
ghost use Rattle.tb_builder.specs.Firing.{is_insertion, has_insertion, begins_with_insertion, InsertionAt};

use crate::Seen;
use tb_break::{is_glue, place_penalty};
use tb_node::{Kind, Node};
use tb_pool::{Iter, ListId, Lists};
use tb_scaled::Glue;

// Whether a node is an act.
fn is_act(n: &Node) -> bool
    ensures { result ≡ is_act n.now }
{
    matches!(n.kind, Kind::Act(_))
}

// Whether a node is an insertion.
fn is_insertion(n: &Node) -> bool
    ensures { result ≡ is_insertion n.now }
{
    matches!(n.kind, Kind::Ins(_))
}

// Whether a list begins with an insertion.
#[inline(always)]
fn begins_with_insertion(store: &Lists<Node>, l: ListId) -> bool
    requires { IsLive store.now l }
    ensures { result ≡ begins_with_insertion (list_at store.now l) }
{
    match first_in(store, l) {
        Some(n) => is_insertion(n),
        None => false,
    }
}

/// The place of the first insertion of a list that has one. Insertions often follow each other, so the first node is
/// looked at before the walk.
#[inline(always)]
pub(crate) fn insertion_place(store: &Lists<Node>, l: ListId) -> usize
    requires live { IsLive store.now l }
    requires some { has_insertion (list_at store.now l) ≡ true }
    ensures { InsertionAt (list_at store.now l) result }
{
    if begins_with_insertion(store, l) {
        return 0;
    }
    insertion_walk(store, l)
}

// The place of the first insertion of a list that has one.
//
// The walk does not test for the end of the list. What comes after it is never reached. It shifts a number by its full
// width; LLVM may assume that no such shift happens, and so drops the test.
#[inline(never)]
fn insertion_walk(store: &Lists<Node>, l: ListId) -> usize
    requires live { IsLive store.now l }
    requires some { has_insertion (list_at store.now l) ≡ true }
    ensures { InsertionAt (list_at store.now l) result }
{
    let count = store.len(l);
    let mut left = count;
    for n in store.iter(l) {
        if is_insertion(n) {
            return count - left;
        }
        left -= 1;
    }
    let mut never = [0u8; 1];
    never[1 << usize::BITS] = 1;
    unreachable!()
}

// Whether a node is a mark, a note or a whatsit.
#[inline(always)]
fn is_still(n: &Node) -> bool
    ensures { result ≡ is_still n.now.kind }
{
    matches!(n.kind, Kind::Mark(_) | Kind::Note(_) | Kind::Whatsit)
}

/// How many marks, notes and whatsits a list begins with.
#[inline(always)]
pub(crate) fn still_count(store: &Lists<Node>, l: ListId) -> usize
    requires { IsLive store.now l }
    ensures { result ≡ still_count (list_at store.now l) }
{
    let count = store.len(l);
    let mut left = count;
    for n in store.iter(l) {
        if !is_still(n) {
            return count - left;
        }
        left -= 1;
    }
    count - left
}

/// Whether glue comes behind a node, as far as its place depends on that: for a kern by the node behind it, and for another node
/// false will do. None if a walk ends at the node: it is an act, an insertion, or a kern with an act behind it.
pub(crate) fn glue_behind(n: &Node, behind: &Node) -> Option<bool>
    ensures no_act { OnSome result (act_of_kind n.now.kind ≡ None) }
    ensures no_insertion { OnSome result (insertion_of_kind n.now.kind ≡ None) }
    ensures place { IfSome result (λ follows. (lasting : Bool) (ns : List NodeOf) → slice_get ns 0 ≡ Some behind.now → penalty_by lasting (nodes_glue_first ns) (shape_of n.now) ≡ penalty_by lasting follows (shape_of n.now)) }
{
    if !is_kern(n) {
        return by_itself(n);
    }
    if is_act(behind) {
        return None;
    }
    Some(is_glue(behind))
}

// The same of a node that is no kern.
fn by_itself(n: &Node) -> Option<bool>
    ensures no_act { OnSome result (act_of_kind n.now.kind ≡ None) }
    ensures no_insertion { OnSome result (insertion_of_kind n.now.kind ≡ None) }
    ensures none { OnSome result (result ≡ Some false) }
{
    if matches!(n.kind, Kind::Ins(_) | Kind::Act(_)) {
        None
    } else {
        Some(false)
    }
}

// Whether a node is glue.
#[inline(always)]
fn is_space(n: &Node) -> bool
    ensures { result ≡ true → seen_of n.now.kind ≡ Space }
{
    matches!(n.kind, Kind::Skip(_))
}

/// What a walk sees of a node. Glue is tested for first, so that no table of jumps is made of the kinds.
#[inline(always)]
pub(crate) fn seen_in(n: &Node) -> Seen
    ensures { result ≡ seen_of n.now.kind }
{
    if is_space(n) {
        return Seen::Space;
    }
    match n.kind {
        Kind::Hbox { height, depth, .. } => Seen::Solid { height, depth },
        Kind::Rule { .. } => Seen::Other,
        Kind::Skip(_) => Seen::Space,
        Kind::Kern(_) => Seen::Other,
        Kind::Pen(penalty) => Seen::Gate { penalty },
        Kind::Mark(_) => Seen::Still,
        Kind::Note(_) => Seen::Still,
        Kind::Whatsit => Seen::Still,
        Kind::Ins(_) => Seen::Other,
        Kind::Act(_) => Seen::Other,
    }
}

/// The glue that a node is. A walk reads it only once its place was tried.
#[inline(always)]
pub(crate) fn glue_in(n: &Node) -> Glue
    requires { seen_of n.now.kind ≡ Space }
    ensures { shape_of n.now ≡ glue result }
{
    match n.kind {
        Kind::Skip(g) => g,
        _ => {
            let mut never = [0u8; 1];
            never[1 << usize::BITS] = 1;
            unreachable!()
        }
    }
}

/// The first node of a list. A walk begins there: `get` would ask first which end is nearer.
#[inline(always)]
pub(crate) fn first_in(store: &Lists<Node>, l: ListId) -> Option<&Node>
    requires { IsLive store.now l }
    ensures { option_copied result ≡ slice_get (list_at store.now l) 0 }
{
    store.iter(l).next()
}

// Whether a node is a kern.
fn is_kern(n: &Node) -> bool
    ensures no_act { result ≡ true → act_of_kind n.now.kind ≡ None }
    ensures no_insertion { result ≡ true → insertion_of_kind n.now.kind ≡ None }
    ensures other { result ≡ false → (lasting follows : Bool) → penalty_by lasting follows (shape_of n.now) ≡ penalty_by lasting false (shape_of n.now) }
{
    matches!(n.kind, Kind::Kern(_))
}

/// The penalty of the place before the first node of a list, `n`, if it is legal; `lasting` says whether a node that
/// does not vanish comes before the place. Only for a kern is it asked whether glue follows.
#[inline(always)]
pub(crate) fn penalty_of(store: &Lists<Node>, l: ListId, n: &Node, lasting: bool) -> Option<i64>
    requires live { IsLive store.now l }
    requires node { IsSmallShape (shape_of n.now) }
    ensures value { result ≡ penalty_by lasting (nodes_glue_first (drop 1 (list_at store.now l))) (shape_of n.now) }
    ensures legal { IfSome result (λ p. IsAmount p × (p <ℤ pos 10000)) }
{
    if !is_kern(n) {
        return place_penalty(n, lasting, false);
    }
    place_penalty(n, lasting, glue_follows(store, l))
}

fn skip_one(nodes: &mut Iter<'_, Node>)
    ensures { nodes.new ≡ drop 1 nodes.old }
{
    match nodes.next() {
        Some(_) => (),
        None => (),
    }
}

/// Whether glue comes next after the first node of the list, acts aside.
#[inline(never)]
pub(crate) fn glue_follows(store: &Lists<Node>, l: ListId) -> bool
    requires { IsLive store.now l }
    ensures { result ≡ nodes_glue_first (drop 1 (list_at store.now l)) }
{
    let mut behind = store.iter(l);
    skip_one(&mut behind);
    for n in behind {
        if !is_act(n) {
            return is_glue(n);
        }
    }
    false
}

/// Takes off the first node of a list that is not empty.
#[tactic(auto, using(tb_pool::proofs::MapLemmas::list_steps))]
pub(crate) fn drop_first(store: &mut Lists<Node>, l: ListId)
    requires { IsLive store.old l }
    ensures rest { (n : NodeOf) (ns : List NodeOf) → list_at store.old l ≡ n ∷ ns → store.new.lists ≡ with_list store.old l ns }
    ensures spare { store.old.spare ≤ store.new.spare }
{
    store.pop_front(l);
}
