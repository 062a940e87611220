//! The nodes that wait at the page builder one at a time.

ghost use Rattle.std.specs.Prelude.{◌≡◌, ◌∷◌, [], None, OnOk};
ghost use Rattle.tb_builder.specs.Ownership.{inner_of};
ghost use Rattle.tb_items.specs.WaitingNodes.{CanTake, Waits, lone};

use std::alloc::AllocError;
use tb_builder::Builder;
use tb_node::{Act, Kind, Name, Node, RuleOf, What};
use tb_pool::Lists;
use tb_scaled::Glue;

/// Hands over one node that is no insertion.
#[inline(always)]
pub fn put(
    store: &mut Lists<Node>,
    builder: &mut Builder,
    line: u32,
    kind: Kind,
) -> Result<(), AllocError>
    requires can { CanTake builder.old store.old }
    requires lone { inner_of kind ≡ None }
    ensures { OnOk result (Waits (lone line kind ∷ []) builder.old store.old builder.new store.new) }
{
    builder.contribute(store, Node { line, kind })
}

#[inline(always)]
pub(crate) fn put_act(
    store: &mut Lists<Node>,
    builder: &mut Builder,
    line: u32,
    act: Act,
) -> Result<(), AllocError>
    requires can { CanTake builder.old store.old }
    ensures { OnOk result (Waits (lone line (Kind.Act act) ∷ []) builder.old store.old builder.new store.new) }
{
    put(store, builder, line, Kind::Act(act))
}

#[inline(always)]
pub(crate) fn put_box(
    store: &mut Lists<Node>,
    builder: &mut Builder,
    line: u32,
    what: What,
    height: i64,
    depth: i64,
) -> Result<(), AllocError>
    requires can { CanTake builder.old store.old }
    ensures { OnOk result (Waits (lone line (Kind.Hbox what height depth) ∷ []) builder.old store.old builder.new store.new) }
{
    put(
        store,
        builder,
        line,
        Kind::Hbox {
            what,
            height,
            depth,
        },
    )
}

// A box of the galley. Most items are boxes or glue: their nodes are made in place.
#[inline(always)]
pub(crate) fn put_text(
    store: &mut Lists<Node>,
    builder: &mut Builder,
    line: u32,
    name: &Name,
    height: i64,
    depth: i64,
) -> Result<(), AllocError>
    requires can { CanTake builder.old store.old }
    ensures { OnOk result (Waits (lone line (Kind.Hbox (What.Text name.now) height depth) ∷ []) builder.old store.old builder.new store.new) }
{
    put_box(store, builder, line, What::Text(*name), height, depth)
}

#[inline(always)]
pub(crate) fn put_glue(
    store: &mut Lists<Node>,
    builder: &mut Builder,
    line: u32,
    glue: &Glue,
) -> Result<(), AllocError>
    requires can { CanTake builder.old store.old }
    ensures { OnOk result (Waits (lone line (Kind.Skip glue.now) ∷ []) builder.old store.old builder.new store.new) }
{
    put(store, builder, line, Kind::Skip(by_fields(glue)))
}

// The same as a call of its own: in place, it would cost each item of another kind what it keeps on the stack.
#[inline(never)]
pub(crate) fn put_lone_text(
    store: &mut Lists<Node>,
    builder: &mut Builder,
    line: u32,
    name: &Name,
    height: i64,
    depth: i64,
) -> Result<(), AllocError>
    requires can { CanTake builder.old store.old }
    ensures { OnOk result (Waits (lone line (Kind.Hbox (What.Text name.now) height depth) ∷ []) builder.old store.old builder.new store.new) }
{
    put_text(store, builder, line, name, height, depth)
}

#[inline(never)]
pub(crate) fn put_lone_glue(
    store: &mut Lists<Node>,
    builder: &mut Builder,
    line: u32,
    glue: &Glue,
) -> Result<(), AllocError>
    requires can { CanTake builder.old store.old }
    ensures { OnOk result (Waits (lone line (Kind.Skip glue.now) ∷ []) builder.old store.old builder.new store.new) }
{
    put_glue(store, builder, line, glue)
}

// The same glue, copied field by field: then the compiler need not keep it in memory while there is room to be made.
#[inline(always)]
pub(crate) fn by_fields(glue: &Glue) -> Glue
    ensures { result ≡ glue.now }
{
    Glue {
        width: glue.width,
        stretch: glue.stretch,
        order: glue.order,
        shrink: glue.shrink,
    }
}

#[inline(never)]
pub(crate) fn put_rule(
    store: &mut Lists<Node>,
    builder: &mut Builder,
    line: u32,
    name: &Name,
    height: i64,
    depth: i64,
) -> Result<(), AllocError>
    requires can { CanTake builder.old store.old }
    ensures { OnOk result (Waits (lone line (Kind.Rule (RuleOf.Item name.now) height depth) ∷ []) builder.old store.old builder.new store.new) }
{
    put(
        store,
        builder,
        line,
        Kind::Rule {
            of: RuleOf::Item(*name),
            height,
            depth,
        },
    )
}

#[inline(never)]
pub(crate) fn put_kern(
    store: &mut Lists<Node>,
    builder: &mut Builder,
    line: u32,
    width: i64,
) -> Result<(), AllocError>
    requires can { CanTake builder.old store.old }
    ensures { OnOk result (Waits (lone line (Kind.Kern width) ∷ []) builder.old store.old builder.new store.new) }
{
    put(store, builder, line, Kind::Kern(width))
}

#[inline(never)]
pub(crate) fn put_penalty(
    store: &mut Lists<Node>,
    builder: &mut Builder,
    line: u32,
    penalty: i64,
) -> Result<(), AllocError>
    requires can { CanTake builder.old store.old }
    ensures { OnOk result (Waits (lone line (Kind.Pen penalty) ∷ []) builder.old store.old builder.new store.new) }
{
    put(store, builder, line, Kind::Pen(penalty))
}

#[inline(never)]
pub(crate) fn put_mark(
    store: &mut Lists<Node>,
    builder: &mut Builder,
    line: u32,
    name: &Name,
) -> Result<(), AllocError>
    requires can { CanTake builder.old store.old }
    ensures { OnOk result (Waits (lone line (Kind.Mark name.now) ∷ []) builder.old store.old builder.new store.new) }
{
    put(store, builder, line, Kind::Mark(*name))
}

#[inline(never)]
pub(crate) fn put_note(
    store: &mut Lists<Node>,
    builder: &mut Builder,
    line: u32,
    name: &Name,
) -> Result<(), AllocError>
    requires can { CanTake builder.old store.old }
    ensures { OnOk result (Waits (lone line (Kind.Note name.now) ∷ []) builder.old store.old builder.new store.new) }
{
    put(store, builder, line, Kind::Note(*name))
}
