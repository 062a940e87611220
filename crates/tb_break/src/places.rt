//! Where a list may be broken (TeX: The Program §972, §973).

ghost use Rattle.std.specs.Prelude.{◌≡◌, ◌≤◌, ◌<ℤ◌, pos, length, take, drop, not, None, Some, IfSome, int_lt, if◌then◌else◌};
ghost use Rattle.tb_scaled.specs.Scaled.{eject_penalty};
ghost use Rattle.tb_pool.specs.Lists.{IsLive, list_at};
ghost use Rattle.tb_node.specs.Shape.{is_discardable};
ghost use Rattle.tb_node.specs.PlainNodes.{shape_of};
ghost use Rattle.tb_node.specs.SmallAmounts.{IsAmount, IsSmallShape};
ghost use Rattle.tb_break.specs.Places.{ends_lasting, begins_with_glue, legal_at};
ghost use Rattle.tb_break.specs.SplitPlace.{shapes, penalty_by, is_glue, kind_of_shape};

use crate::PlaceKind;
use tb_node::{Kind, Node};
use tb_pool::{ListId, Lists};
use tb_scaled::{EJECT_PENALTY, INF_PENALTY};

/// The penalty of the place after the first `index` nodes of a list, if it is legal; the list's end counts as it does
/// in a split. None exactly if the list may not be broken there, or has no such place.
pub fn legal(store: &Lists<Node>, l: ListId, index: usize) -> Option<i64>
    requires { IsLive store.now l }
    ensures { result ≡ legal_at (shapes store.now l) index }
{
    let len = store.len(l);
    let Some(n) = store.get(l, index) else {
        return end_penalty(index == len);
    };
    penalty_before(
        n,
        lasts_before(store, l, index),
        glue_at(store, l, index + 1),
    )
}

// The penalty of the list's end, if the place is that.
fn end_penalty(at_end: bool) -> Option<i64>
    ensures { result ≡ (if at_end then Some eject_penalty else None) }
{
    if at_end { Some(EJECT_PENALTY) } else { None }
}

// Whether the node before the place does not vanish at the top of a page.
fn lasts_before(store: &Lists<Node>, l: ListId, index: usize) -> bool
    requires live { IsLive store.now l }
    requires within { index ≤ length (list_at store.now l) }
    ensures { result ≡ ends_lasting (take index (shapes store.now l)) }
{
    if index == 0 {
        return false;
    }
    match store.get(l, index - 1) {
        Some(n) => is_lasting(n),
        None => false,
    }
}

// Whether the node there is glue.
fn glue_at(store: &Lists<Node>, l: ListId, index: usize) -> bool
    requires { IsLive store.now l }
    ensures { result ≡ begins_with_glue (drop index (shapes store.now l)) }
{
    match store.get(l, index) {
        Some(n) => is_glue(n),
        None => false,
    }
}

/// Whether the node is glue.
pub fn is_glue(n: &Node) -> bool
    ensures { result ≡ is_glue (shape_of n.now) }
{
    matches!(n.kind, Kind::Skip(_))
}

/// Whether the node does not vanish at the top of a page: it is no glue, kern or penalty.
pub fn is_lasting(n: &Node) -> bool
    ensures { result ≡ not (is_discardable (shape_of n.now)) }
{
    !matches!(n.kind, Kind::Skip(_) | Kind::Kern(_) | Kind::Pen(_))
}

/// The penalty of the place before a node, if it is legal; `lasting` says whether a node that does not vanish comes
/// before the place, `glue_next` whether glue comes after the node.
pub fn place_penalty(n: &Node, lasting: bool, glue_next: bool) -> Option<i64>
    requires { IsSmallShape (shape_of n.now) }
    ensures value { result ≡ penalty_by lasting glue_next (shape_of n.now) }
    ensures legal { IfSome result (λ p. IsAmount p × (p <ℤ pos 10000)) }
{
    penalty_before(n, lasting, glue_next)
}

// The penalty of the place before a node, whose amounts need not be small.
fn penalty_before(n: &Node, lasting: bool, glue_next: bool) -> Option<i64>
    ensures { result ≡ penalty_by lasting glue_next (shape_of n.now) }
{
    match n.kind {
        Kind::Hbox { .. } => None,
        Kind::Rule { .. } => None,
        Kind::Skip(_) => zero_if(lasting),
        Kind::Kern(_) => zero_if(glue_next),
        Kind::Pen(p) => below_inf(p),
        Kind::Mark(_) => None,
        Kind::Note(_) => None,
        Kind::Whatsit => None,
        Kind::Ins(_) => None,
        Kind::Act(_) => None,
    }
}

// The penalty 0 if the place is legal.
fn zero_if(test: bool) -> Option<i64>
    ensures { result ≡ (if test then Some (pos 0) else None) }
{
    if test { Some(0) } else { None }
}

// The penalty of a penalty node, unless it forbids a break.
fn below_inf(p: i64) -> Option<i64>
    ensures { result ≡ (if int_lt p (pos 10000) then Some p else None) }
{
    if p < INF_PENALTY { Some(p) } else { None }
}

// What is at the place before a node.
pub(crate) fn kind_of(n: &Node) -> PlaceKind
    ensures { result ≡ kind_of_shape (shape_of n.now) }
{
    match n.kind {
        Kind::Hbox { .. } => PlaceKind::Last,
        Kind::Rule { .. } => PlaceKind::Last,
        Kind::Skip(_) => PlaceKind::Skip,
        Kind::Kern(_) => PlaceKind::Kern,
        Kind::Pen(_) => PlaceKind::Penalty,
        Kind::Mark(_) => PlaceKind::Last,
        Kind::Note(_) => PlaceKind::Last,
        Kind::Whatsit => PlaceKind::Last,
        Kind::Ins(_) => PlaceKind::Last,
        Kind::Act(_) => PlaceKind::Last,
    }
}
