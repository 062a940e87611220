//! The nodes of a page that is made higher: an insertion, and the list of the insertion.

ghost use Rattle.std.specs.Prelude.{◌≡◌, ◌∷◌, ◌++◌, [], true, map, neg_ℤ, OnOk};
ghost use Rattle.tb_pool.specs.Lists.{IsLive, list_at, with_list};
ghost use Rattle.tb_node.specs.Fit.{IsDimension};
ghost use Rattle.tb_node.specs.PlainNodes.{on_line};
ghost use Rattle.tb_builder.specs.Contents.{contents_of};
ghost use Rattle.tb_builder.specs.Ownership.{has_class};
ghost use Rattle.tb_galley.specs.GalleyNodes.{back_glue, enlarge_insertion};
ghost use Rattle.tb_items.specs.WaitingNodes.{CanTake, Waits, enlarging_list};

use std::alloc::AllocError;
use tb_builder::Builder;
use tb_column::ENLARGING;
use tb_node::{Insertion, Kind, Node, What};
use tb_param::Params;
use tb_pool::{ListId, Lists};
use tb_scaled::{Glue, Order};

// Glue of minus this width.
fn back_glue(by: i64) -> Glue
    requires { IsDimension by }
    ensures { result ≡ back_glue by }
{
    Glue {
        width: -by,
        stretch: 0,
        order: Order::Normal,
        shrink: 0,
    }
}

// A box of no size that holds nothing.
const BLANK_BOX: Kind = Kind::Hbox {
    what: What::Blank,
    height: 0,
    depth: 0,
};

// Puts a node of no line at the end of a list.
fn put_node(store: &mut Lists<Node>, l: ListId, kind: Kind) -> Result<(), AllocError>
    requires { IsLive store.old l }
    ensures { OnOk result (store.new.lists ≡ with_list store.old l (list_at store.old l ++ record { line = 0; kind = kind } ∷ [])) }
{
    store.reserve(1)?;
    store.push_back(l, Node { line: 0, kind });
    Ok(())
}

// Puts glue that goes back at the end of a list, and before it a blank box, for contents that are to be shrunk.
fn put_box_and_glue(store: &mut Lists<Node>, l: ListId, by: i64) -> Result<(), AllocError>
    requires live { IsLive store.old l }
    requires by { IsDimension by }
    ensures { OnOk result (store.new.lists ≡ with_list store.old l (list_at store.old l ++ enlarging_list by true)) }
{
    put_node(store, l, BLANK_BOX)?;
    put_node(store, l, Kind::Skip(back_glue(by)))
}

// Puts what makes a page higher at the end of a list.
fn put_back_glue(store: &mut Lists<Node>, l: ListId, by: i64, star: bool) -> Result<(), AllocError>
    requires live { IsLive store.old l }
    requires by { IsDimension by }
    ensures { OnOk result (store.new.lists ≡ with_list store.old l (list_at store.old l ++ enlarging_list by star)) }
{
    if star {
        return put_box_and_glue(store, l, by);
    }
    put_node(store, l, Kind::Skip(back_glue(by)))
}

// The height of an insertion that makes a page this much higher.
fn lowered(by: i64) -> i64
    requires { IsDimension by }
    ensures { result ≡ neg_ℤ by }
{
    -by
}

/// A page is made higher: an insertion of class 255, as high as the page is made higher, and below 0 (LaTeX,
/// \enlargethispage).
#[inline(never)]
pub(crate) fn put_enlarging(
    store: &mut Lists<Node>,
    builder: &mut Builder,
    p: &Params,
    line: u32,
    by: i64,
    star: bool,
) -> Result<(), AllocError>
    requires can { CanTake builder.old store.old }
    requires known { has_class (contents_of builder.old store.old).classes 255 ≡ true }
    requires by { IsDimension by }
    ensures { OnOk result (Waits (on_line line (enlarge_insertion p.now by star ∷ [])) builder.old store.old builder.new store.new) }
{
    let list = store.add_list()?;
    put_back_glue(store, list, by, star)?;
    let height = lowered(by);
    builder.contribute(
        store,
        Node {
            line,
            kind: Kind::Ins(Insertion {
                class: ENLARGING,
                list,
                height,
                split_depth: p.splitmaxdepth,
                split_top: p.splittopskip,
                floating: p.floatingpenalty,
            }),
        },
    )
}
