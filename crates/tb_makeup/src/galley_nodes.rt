//! The nodes of a galley's items, as they wait at the page builder.

ghost use Rattle.std.specs.Prelude.{◌≡◌, ◌≤◌, ℕ, ◌∷◌, [], OnOk};
ghost use Rattle.tb_node.specs.PlainNodes.{whatsit, plain, act, on_line};
ghost use Rattle.tb_builder.specs.Contents.{contents_of};
ghost use Rattle.tb_items.specs.WaitingNodes.{CanTake, Waits, IsItem, AreItems};
ghost use Rattle.tb_plain.specs.GalleyNodes.{clearing_kinds, makeup_kinds, makeup_nodes, made_up};
ghost use Rattle.tb_param.specs.declared.Params.{Params};
ghost use Rattle.tb_plain.specs.Run.{act_count};

use std::alloc::AllocError;
use tb_builder::Builder;
use tb_galley::{Galley, Item, ItemKind};
use tb_items::{put, put_item};
use tb_node::{Act, Float, Kind, Node};
use tb_param::Params;
use tb_plain::{CLEARING_PENALTY, clearing_glue};
use tb_pool::Lists;

/// Hands over the nodes of items.
pub(crate) fn put_items(
    store: &mut Lists<Node>,
    builder: &mut Builder,
    p: &Params,
    items: &[Item],
) -> Result<(), AllocError>
    requires can { CanTake builder.old store.old }
    requires items { AreItems (contents_of builder.old store.old).classes items.now }
    ensures { OnOk result (Waits (makeup_nodes p.now items.now) builder.old store.old builder.new store.new) }
{
    // Most items have one node, and few have more.
    store.reserve(items.len() + items.len() / 8)?;
    for item in items {
        put_makeup(store, builder, p, item.line, &item.kind)?;
    }
    Ok(())
}

// Hands over the nodes of an item: a float is only taken, and a clear is one forced break.
fn put_makeup(
    store: &mut Lists<Node>,
    builder: &mut Builder,
    p: &Params,
    line: u32,
    kind: &ItemKind,
) -> Result<(), AllocError>
    requires can { CanTake builder.old store.old }
    requires item { IsItem (contents_of builder.old store.old).classes kind.now }
    ensures { OnOk result (Waits (on_line line (makeup_kinds p.now kind.now)) builder.old store.old builder.new store.new) }
{
    match kind {
        ItemKind::Float { float, vert: _ } => put_take(store, builder, line, *float),
        ItemKind::ClearPage => put_clearing(store, builder, line),
        _ => put_item(store, builder, p, false, line, kind),
    }
}

// A float is taken behind a whatsit, so that what it puts first does not decide whether a kern before it is a legal place.
fn put_take(
    store: &mut Lists<Node>,
    builder: &mut Builder,
    line: u32,
    float: Float,
) -> Result<(), AllocError>
    requires can { CanTake builder.old store.old }
    ensures { OnOk result (Waits (on_line line (plain whatsit ∷ act (Act.Take float) ∷ [])) builder.old store.old builder.new store.new) }
{
    put(store, builder, line, Kind::Whatsit)?;
    put(store, builder, line, Kind::Act(Act::Take(float)))
}

/// Hands over the end of a page, and of those that held insertions need (plain.tex, \supereject).
pub(crate) fn put_clearing(
    store: &mut Lists<Node>,
    builder: &mut Builder,
    line: u32,
) -> Result<(), AllocError>
    requires can { CanTake builder.old store.old }
    ensures { OnOk result (Waits (on_line line clearing_kinds) builder.old store.old builder.new store.new) }
{
    put(store, builder, line, Kind::Skip(clearing_glue()))?;
    put(store, builder, line, Kind::Pen(CLEARING_PENALTY))
}

/// How many acts the nodes of a galley have.
pub(crate) fn act_count(galley: &Galley) -> u64
    ensures { result ≡ act_count (made_up galley.now) }
{
    let mut count = 0;
    for item in galley.items.as_slice() {
        count += acts_of(&item.kind);
    }
    count
}

// How many acts an item has. Of the items that are served only floats have one.
fn acts_of(kind: &ItemKind) -> u64
    ensures count { (p : Params) (line : ℕ) → act_count (on_line line (makeup_kinds p kind.now)) ≡ result }
    ensures few { result ≤ 1 }
{
    match kind {
        ItemKind::Float { .. } => 1,
        ItemKind::Margin { .. } => 1,
        ItemKind::OneColumn => 1,
        ItemKind::TwoColumn => 1,
        ItemKind::Suppress(_) => 1,
        ItemKind::Page(_) => 1,
        ItemKind::Set(_) => 1,
        ItemKind::Head(_) => 1,
        _ => 0,
    }
}
