//! Nodes are handed to a routine in which nothing is left.

ghost use Rattle.std.specs.Prelude.{◌≡◌, ◌≤◌, false, [], None, Some, IfOk, if◌then◌else◌, map, option_copied};
ghost use Rattle.tb_pool.specs.Lists.{list_at, IsLive};
ghost use Rattle.tb_search.specs.LastNodes.{is_act_kind, last_but_acts};
ghost use Rattle.tb_node.specs.PlainNodes.{node_shape, plain_list, shape_of, without_acts};
ghost use Rattle.tb_break.specs.Places.{ends_lasting};
ghost use Rattle.tb_best.specs.PlacePrices.{sets_any};
ghost use Rattle.tb_best.specs.PlainPages.{all_plain};
ghost use Rattle.tb_search.specs.Told.{is_plain_kind, is_set, lasting_after};
ghost use Rattle.tb_builder.specs.Reach.{holds_box};
ghost use Rattle.tb_node.specs.Shape.{is_box};
ghost use Rattle.tb_builder.specs.Contents.{node_count};
ghost use Rattle.tb_items.specs.ItemsLeft.{kern_last, next_nodes};
ghost use Rattle.tb_items.specs.WaitingNodes.{AreItems};
ghost use Rattle.tb_run.specs.Routine.{state_of, IsReady};
ghost use Rattle.tb_search.specs.Branches.{first_break, kern_after, HasHanded};

use std::alloc::AllocError;
use tb_items::{ItemsLeft, put};
use tb_node::{Act, Kind, Node};
use tb_pool::{ListId, Lists};
use tb_run::Routine;
use tb_scaled::EJECT_PENALTY;

/// Hands over the nodes of the next item, or of the clear at the end. What is ahead becomes what is ahead then; returns whether
/// anything is.
pub(crate) fn hand_next<'a>(
    routine: &mut Routine<'a>,
    ahead: &mut ItemsLeft<'a>,
) -> Result<bool, AllocError>
    requires ready { IsReady routine.old }
    requires none { routine.old.left ≡ None }
    requires items { AreItems (state_of routine.old).classes ahead.old.items.now }
    requires few { node_count (next_nodes ahead.old) ≤ 600005 }
    ensures { IfOk result (λ more. HasHanded [] ahead.old (if more then Some ahead.new else None) routine.old routine.new) }
{
    let count = ahead.next_count();
    let more = ahead.hand_on(&mut routine.store, &mut routine.builder)?;
    routine.most += count;
    Ok(more)
}

/// The same, after a forced break before an item.
pub(crate) fn hand_cut<'a>(
    routine: &mut Routine<'a>,
    ahead: &mut ItemsLeft<'a>,
) -> Result<bool, AllocError>
    requires ready { IsReady routine.old }
    requires none { routine.old.left ≡ None }
    requires items { AreItems (state_of routine.old).classes ahead.old.items.now }
    requires few { node_count (next_nodes ahead.old) ≤ 600005 }
    ensures { IfOk result (λ more. HasHanded (first_break ahead.old.items.now) ahead.old (if more then Some ahead.new else None) routine.old routine.new) }
{
    let items = ahead.items();
    if items.is_empty() {
        return hand_next(routine, ahead);
    }
    let line = items[0].line;
    let count = ahead.next_count();
    put(
        &mut routine.store,
        &mut routine.builder,
        line,
        Kind::Pen(EJECT_PENALTY),
    )?;
    let more = ahead.hand_on(&mut routine.store, &mut routine.builder)?;
    routine.most += 1 + count;
    Ok(more)
}

/// Whether a list has a box or rule.
pub(crate) fn holds_box(store: &Lists<Node>, list: ListId) -> bool
    requires { IsLive store.now list }
    ensures { result ≡ holds_box (plain_list store.now list) }
{
    for node in store.iter(list) {
        if is_box(node) {
            return true;
        }
    }
    false
}

fn is_box(node: &Node) -> bool
    ensures { result ≡ is_box (shape_of node.now) }
{
    matches!(&node.kind, Kind::Hbox { .. } | Kind::Rule { .. })
}

// The last node of a list that is no act.
fn last_but_acts(store: &Lists<Node>, list: ListId) -> Option<&Node>
    requires { IsLive store.now list }
    ensures { option_copied result ≡ last_but_acts (list_at store.now list) }
{
    let mut k = store.len(list);
    'back: while k > 0 {
        k -= 1;
        let node = store.get(list, k)?;
        if !is_act(node) {
            return Some(node);
        }
    }
    None
}

fn is_act(node: &Node) -> bool
    ensures { result ≡ is_act_kind node.now.kind }
{
    matches!(&node.kind, Kind::Act(_))
}

/// Whether a list ends in a kern, acts behind it aside.
pub(crate) fn ends_in_kern(store: &Lists<Node>, list: ListId) -> bool
    requires { IsLive store.now list }
    ensures { result ≡ kern_last false (plain_list store.now list) }
{
    match last_but_acts(store, list) {
        Some(node) => kern_after(false, node),
        None => false,
    }
}

// Whether nodes end in a kern with this one behind them, if they did before.
fn kern_after(kern: bool, node: &Node) -> bool
    ensures { result ≡ kern_after kern node.now.kind }
{
    match &node.kind {
        Kind::Act(_) => kern,
        Kind::Kern(_) => true,
        _ => false,
    }
}

/// Whether a list ends in a node that does not vanish at the top of a page, acts aside.
pub(crate) fn ends_lasting(store: &Lists<Node>, list: ListId) -> bool
    requires { IsLive store.now list }
    ensures { result ≡ ends_lasting (map node_shape (without_acts (plain_list store.now list))) }
{
    match last_but_acts(store, list) {
        Some(node) => lasting_after(false, node),
        None => false,
    }
}

// Whether nodes end in one that lasts with this one behind them, if they did before.
fn lasting_after(lasting: bool, node: &Node) -> bool
    ensures { result ≡ lasting_after lasting node.now.kind }
{
    match &node.kind {
        Kind::Act(_) => lasting,
        Kind::Skip(_) | Kind::Kern(_) | Kind::Pen(_) => false,
        _ => true,
    }
}

/// Whether a list has a node that sets a parameter.
pub(crate) fn sets_any(store: &Lists<Node>, list: ListId) -> bool
    requires { IsLive store.now list }
    ensures { result ≡ sets_any (plain_list store.now list) }
{
    for node in store.iter(list) {
        if is_set(node) {
            return true;
        }
    }
    false
}

fn is_set(node: &Node) -> bool
    ensures { result ≡ is_set node.now.kind }
{
    matches!(&node.kind, Kind::Act(Act::Set(_)))
}

/// Whether no insertion and no act is in a list.
pub(crate) fn are_plain(store: &Lists<Node>, list: ListId) -> bool
    requires { IsLive store.now list }
    ensures { result ≡ all_plain (plain_list store.now list) }
{
    for node in store.iter(list) {
        if !is_plain(node) {
            return false;
        }
    }
    true
}

fn is_plain(node: &Node) -> bool
    ensures { result ≡ is_plain_kind node.now.kind }
{
    !matches!(&node.kind, Kind::Ins(_) | Kind::Act(_))
}
