//! The nodes of a galley's items, as they wait at the page builder.

ghost use Rattle.std.specs.Prelude.{◌≡◌, ◌∷◌, ◌++◌, [], true, false, OnOk, IfOk};
ghost use Rattle.tb_node.specs.PlainNodes.{act, on_line, newpage_kinds, clearpage_kinds};
ghost use Rattle.tb_builder.specs.Contents.{contents_of};
ghost use Rattle.tb_galley.specs.GalleyNodes.{break_strength, with_firings, float_kinds, item_kinds, two_after, two_past, params_after, params_past, item_nodes};
ghost use Rattle.tb_items.specs.WaitingNodes.{CanTake, Waits, lone, IsItem, AreItems};

use crate::enlarging_nodes::put_enlarging;
use crate::foot_nodes::put_foot;
use crate::lone_nodes::{
    put, put_act, put_box, put_glue, put_kern, put_lone_glue, put_lone_text, put_mark, put_note,
    put_penalty, put_rule, put_text,
};
use std::alloc::AllocError;
use tb_builder::Builder;
use tb_galley::{Item, ItemKind};
use tb_node::{
    Act, Area, CLEAR_PENALTY, Float, HOLD_PENALTY, Kind, Margin, Node, PAR_PENALTY, VERT_PENALTY,
    What,
};
use tb_param::{Change, Params};
use tb_pool::Lists;
use tb_scaled::{EJECT_PENALTY, INF_PENALTY, filling_glue};

// Hands over the nodes of items, and returns whether there are two columns after them; `two` says whether there are two
// before. The parameters become those that hold after them.
pub(crate) fn put_items(
    store: &mut Lists<Node>,
    builder: &mut Builder,
    p: &mut Params,
    mut two: bool,
    items: &[Item],
) -> Result<bool, AllocError>
    requires can { CanTake builder.old store.old }
    requires items { AreItems (contents_of builder.old store.old).classes items.now }
    ensures two { IfOk result (λ after. after ≡ two_past two items.now) }
    ensures params { OnOk result (p.new ≡ params_past p.old items.now) }
    ensures waits { OnOk result (Waits (item_nodes p.old two items.now) builder.old store.old builder.new store.new) }
{
    // Most items have one node, and few have more.
    store.reserve(items.len() + items.len() / 8)?;
    for item in items {
        two = put_next(store, builder, p, two, item.line, &item.kind)?;
    }
    Ok(two)
}

// Hands over the nodes of an item, and returns whether there are two columns after it. The parameters become those that
// hold after it. Most items are boxes or glue: their nodes are made here, with no call.
#[inline(always)]
fn put_next(
    store: &mut Lists<Node>,
    builder: &mut Builder,
    p: &mut Params,
    two: bool,
    line: u32,
    kind: &ItemKind,
) -> Result<bool, AllocError>
    requires can { CanTake builder.old store.old }
    requires item { IsItem (contents_of builder.old store.old).classes kind.now }
    ensures two { IfOk result (λ after. after ≡ two_after two kind.now) }
    ensures params { OnOk result (p.new ≡ params_after p.old kind.now) }
    ensures waits { OnOk result (Waits (on_line line (item_kinds p.old two kind.now)) builder.old store.old builder.new store.new) }
{
    match kind {
        ItemKind::Hbox {
            name,
            height,
            depth,
        } => {
            put_text(store, builder, line, name, *height, *depth)?;
            Ok(two)
        }
        ItemKind::Skip(glue) => {
            put_glue(store, builder, line, glue)?;
            Ok(two)
        }
        _ => {
            put_item(store, builder, p, two, line, kind)?;
            change_by(p, kind);
            Ok(two_after(two, kind))
        }
    }
}

// Whether there are two columns after an item.
pub(crate) fn two_after(two: bool, kind: &ItemKind) -> bool
    ensures { result ≡ two_after two kind.now }
{
    match kind {
        ItemKind::OneColumn => false,
        ItemKind::TwoColumn => true,
        _ => two,
    }
}

// Makes the parameters those that hold after an item.
pub(crate) fn change_by(p: &mut Params, kind: &ItemKind)
    ensures { p.new ≡ params_after p.old kind.now }
{
    let ItemKind::Set(change) = kind else {
        return;
    };
    p.change(*change);
}

/// Hands over the nodes of an item; `p` has the parameters that hold before it, and `two` says whether there are two columns.
#[inline(never)]
pub fn put_item(
    store: &mut Lists<Node>,
    builder: &mut Builder,
    p: &Params,
    two: bool,
    line: u32,
    kind: &ItemKind,
) -> Result<(), AllocError>
    requires can { CanTake builder.old store.old }
    requires item { IsItem (contents_of builder.old store.old).classes kind.now }
    ensures { OnOk result (Waits (on_line line (item_kinds p.now two kind.now)) builder.old store.old builder.new store.new) }
{
    match kind {
        ItemKind::Hbox {
            name,
            height,
            depth,
        } => put_lone_text(store, builder, line, name, *height, *depth),
        ItemKind::Rule {
            name,
            height,
            depth,
        } => put_rule(store, builder, line, name, *height, *depth),
        ItemKind::Skip(glue) => put_lone_glue(store, builder, line, glue),
        ItemKind::Kern(width) => put_kern(store, builder, line, *width),
        ItemKind::Penalty(penalty) => put_penalty(store, builder, line, *penalty),
        ItemKind::Mark(name) => put_mark(store, builder, line, name),
        ItemKind::Note(name) => put_note(store, builder, line, name),
        ItemKind::Foot { class, leaves } => {
            put_foot(store, builder, p, line, *class, leaves.as_slice())
        }
        ItemKind::Float { float, vert } => put_float(store, builder, p, two, line, float, *vert),
        ItemKind::Margin { margin, vert } => put_margin(store, builder, line, margin, *vert),
        ItemKind::NewPage => put_page_end(store, builder, line),
        ItemKind::ClearPage => put_clear(store, builder, line),
        ItemKind::PageBreak(strength) => {
            put_penalty(store, builder, line, -break_strength(*strength))
        }
        ItemKind::NoPageBreak(strength) => {
            put_penalty(store, builder, line, break_strength(*strength))
        }
        ItemKind::OneColumn => put_columns(store, builder, line, false),
        ItemKind::TwoColumn => put_columns(store, builder, line, true),
        ItemKind::Suppress(area) => put_suppressing(store, builder, line, *area),
        ItemKind::Page(number) => put_page_number(store, builder, line, *number),
        ItemKind::Head(head) => put_title(store, builder, line, head),
        ItemKind::Enlarge { by, star } => put_enlarging(store, builder, p, line, *by, *star),
        ItemKind::Set(change) => put_change(store, builder, line, *change),
    }
}

// The end of a page: glue that fills it, and a forced break (LaTeX, \newpage).
#[inline(never)]
fn put_page_end(store: &mut Lists<Node>, builder: &mut Builder, line: u32) -> Result<(), AllocError>
    requires can { CanTake builder.old store.old }
    ensures { OnOk result (Waits (on_line line newpage_kinds) builder.old store.old builder.new store.new) }
{
    put(store, builder, line, Kind::Skip(filling_glue()))?;
    put(store, builder, line, Kind::Pen(EJECT_PENALTY))
}

// A clear: the end of a page, and a blank box with the penalty at which the output routine puts out what it holds (LaTeX,
// \clearpage).
#[inline(never)]
pub(crate) fn put_clear(
    store: &mut Lists<Node>,
    builder: &mut Builder,
    line: u32,
) -> Result<(), AllocError>
    requires can { CanTake builder.old store.old }
    ensures { OnOk result (Waits (on_line line clearpage_kinds) builder.old store.old builder.new store.new) }
{
    put_page_end(store, builder, line)?;
    put(store, builder, line, Kind::Whatsit)?;
    put_box(store, builder, line, What::Blank, 0, 0)?;
    put(store, builder, line, Kind::Pen(CLEAR_PENALTY))
}

// A change of columns, after a clear (ltoutput.dtx, \twocolumn).
#[inline(never)]
fn put_columns(
    store: &mut Lists<Node>,
    builder: &mut Builder,
    line: u32,
    two: bool,
) -> Result<(), AllocError>
    requires can { CanTake builder.old store.old }
    ensures { OnOk result (Waits (on_line line (clearpage_kinds ++ act (Act.Columns two) ∷ [])) builder.old store.old builder.new store.new) }
{
    put_clear(store, builder, line)?;
    put_act(store, builder, line, Act::Columns { two })
}

// A float. In the release of 2014 a wide one in two columns is taken without a firing, since it waits for a later page in
// any case.
#[inline(never)]
fn put_float(
    store: &mut Lists<Node>,
    builder: &mut Builder,
    p: &Params,
    two: bool,
    line: u32,
    float: &Float,
    vert: bool,
) -> Result<(), AllocError>
    requires can { CanTake builder.old store.old }
    ensures { OnOk result (Waits (on_line line (float_kinds p.now two float.now vert)) builder.old store.old builder.new store.new) }
{
    let wide = float.wide;
    let act = Act::Take(*float);
    if p.has_second() && two && wide {
        put_act(store, builder, line, act)
    } else {
        put_with_firings(store, builder, line, act, vert)
    }
}

// A marginal note.
#[inline(never)]
fn put_margin(
    store: &mut Lists<Node>,
    builder: &mut Builder,
    line: u32,
    margin: &Margin,
    vert: bool,
) -> Result<(), AllocError>
    requires can { CanTake builder.old store.old }
    ensures { OnOk result (Waits (on_line line (with_firings (Act.TakeMargin margin.now) vert)) builder.old store.old builder.new store.new) }
{
    put_with_firings(store, builder, line, Act::TakeMargin(*margin), vert)
}

// Floats are kept out of an area.
#[inline(never)]
fn put_suppressing(
    store: &mut Lists<Node>,
    builder: &mut Builder,
    line: u32,
    area: Area,
) -> Result<(), AllocError>
    requires can { CanTake builder.old store.old }
    ensures { OnOk result (Waits (lone line (Kind.Act (Act.Suppress area)) ∷ []) builder.old store.old builder.new store.new) }
{
    put_act(store, builder, line, Act::Suppress(area))
}

// The page number is set.
#[inline(never)]
fn put_page_number(
    store: &mut Lists<Node>,
    builder: &mut Builder,
    line: u32,
    number: u32,
) -> Result<(), AllocError>
    requires can { CanTake builder.old store.old }
    ensures { OnOk result (Waits (lone line (Kind.Act (Act.Page number)) ∷ []) builder.old store.old builder.new store.new) }
{
    put_act(store, builder, line, Act::Page(number))
}

// A parameter is set.
#[inline(never)]
fn put_change(
    store: &mut Lists<Node>,
    builder: &mut Builder,
    line: u32,
    change: Change,
) -> Result<(), AllocError>
    requires can { CanTake builder.old store.old }
    ensures { OnOk result (Waits (lone line (Kind.Act (Act.Set change)) ∷ []) builder.old store.old builder.new store.new) }
{
    put_act(store, builder, line, Act::Set(change))
}

// A title over both columns.
#[inline(never)]
fn put_title(
    store: &mut Lists<Node>,
    builder: &mut Builder,
    line: u32,
    head: &Float,
) -> Result<(), AllocError>
    requires can { CanTake builder.old store.old }
    ensures { OnOk result (Waits (lone line (Kind.Act (Act.Head head.now)) ∷ []) builder.old store.old builder.new store.new) }
{
    put_act(store, builder, line, Act::Head(*head))
}

// The act of a float or a marginal note, and the two firings that place it: at the first the page so far is held, and the
// second says whether the item is between paragraphs (ltoutput.dtx, \end@float).
#[inline(always)]
fn put_with_firings(
    store: &mut Lists<Node>,
    builder: &mut Builder,
    line: u32,
    act: Act,
    vert: bool,
) -> Result<(), AllocError>
    requires can { CanTake builder.old store.old }
    ensures { OnOk result (Waits (on_line line (with_firings act vert)) builder.old store.old builder.new store.new) }
{
    let penalty = if vert { VERT_PENALTY } else { PAR_PENALTY };
    put_act(store, builder, line, act)?;
    put(store, builder, line, Kind::Pen(HOLD_PENALTY))?;
    put_box(store, builder, line, What::Blank, 0, 0)?;
    put_penalty(store, builder, line, penalty)
}

// The penalty of a strength from 0 to 4 (LaTeX, \@getpen).
fn break_strength(strength: u8) -> i64
    ensures { result ≡ break_strength strength }
{
    match strength {
        0 => 0,
        1 => 51,
        2 => 151,
        3 => 301,
        _ => INF_PENALTY,
    }
}
