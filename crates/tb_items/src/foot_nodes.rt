//! The nodes of a footnote: its insertion, and the list of the insertion.

ghost use Rattle.std.specs.Prelude.{◌≡◌, ◌<◌, ◌≤◌, ◌+◌, ◌∷◌, ◌++◌, [], true, map, length, All, OnOk};
ghost use Rattle.tb_pool.specs.Lists.{IsLive, list_at, with_list};
ghost use Rattle.tb_node.specs.Fit.{shapes, IsSizedNode};
ghost use Rattle.tb_node.specs.Sums.{size_of};
ghost use Rattle.tb_node.specs.PlainNodes.{on_line};
ghost use Rattle.tb_builder.specs.Contents.{contents_of};
ghost use Rattle.tb_builder.specs.Ownership.{has_class};
ghost use Rattle.tb_galley.specs.GalleyNodes.{plain_leaf, foot_insertion};
ghost use Rattle.tb_items.specs.WaitingNodes.{CanTake, Waits, leaf_kind, leaf_node, leaf_list};

use crate::lone_nodes::by_fields;
use std::alloc::AllocError;
use tb_builder::Builder;
use tb_galley::{Leaf, LeafKind};
use tb_node::{Insertion, Kind, Node, RuleOf, What, list_extent};
use tb_param::Params;
use tb_pool::{ListId, Lists};

// A node of a footnote.
fn leaf_kind(kind: &LeafKind) -> Kind
    ensures { result ≡ leaf_kind kind.now }
{
    match kind {
        LeafKind::Hbox {
            name,
            height,
            depth,
        } => Kind::Hbox {
            what: What::Text(*name),
            height: *height,
            depth: *depth,
        },
        LeafKind::Rule {
            name,
            height,
            depth,
        } => Kind::Rule {
            of: RuleOf::Item(*name),
            height: *height,
            depth: *depth,
        },
        LeafKind::Skip(glue) => Kind::Skip(*glue),
        LeafKind::Kern(width) => Kind::Kern(*width),
        LeafKind::Penalty(penalty) => Kind::Pen(*penalty),
    }
}

// Puts a node of a footnote at the end of a list, in a spare place.
#[inline(never)]
fn put_any_leaf(store: &mut Lists<Node>, l: ListId, leaf: &Leaf)
    requires live { IsLive store.old l }
    requires room { 0 < store.old.spare }
    ensures pushed { store.new.lists ≡ with_list store.old l (list_at store.old l ++ leaf_node leaf.now ∷ []) }
    ensures spare { store.new.spare + 1 ≡ store.old.spare }
{
    store.push_back(
        l,
        Node {
            line: leaf.line,
            kind: leaf_kind(&leaf.kind),
        },
    );
}

// The same. Most leaves are boxes or glue: their nodes are made in place.
#[inline(always)]
fn put_leaf(store: &mut Lists<Node>, l: ListId, leaf: &Leaf)
    requires live { IsLive store.old l }
    requires room { 0 < store.old.spare }
    ensures pushed { store.new.lists ≡ with_list store.old l (list_at store.old l ++ leaf_node leaf.now ∷ []) }
    ensures spare { store.new.spare + 1 ≡ store.old.spare }
{
    match &leaf.kind {
        LeafKind::Hbox {
            name,
            height,
            depth,
        } => store.push_back(
            l,
            Node {
                line: leaf.line,
                kind: Kind::Hbox {
                    what: What::Text(*name),
                    height: *height,
                    depth: *depth,
                },
            },
        ),
        LeafKind::Skip(glue) => store.push_back(
            l,
            Node {
                line: leaf.line,
                kind: Kind::Skip(by_fields(glue)),
            },
        ),
        _ => put_any_leaf(store, l, leaf),
    }
}

// Puts the nodes of a footnote at the end of a list.
fn put_leaves(store: &mut Lists<Node>, l: ListId, leaves: &[Leaf]) -> Result<(), AllocError>
    requires { IsLive store.old l }
    ensures { OnOk result (store.new.lists ≡ with_list store.old l (list_at store.old l ++ leaf_list leaves.now)) }
{
    store.reserve(leaves.len())?;
    for leaf in leaves {
        put_leaf(store, l, leaf);
    }
    Ok(())
}

// The height plus the depth of a footnote's list.
fn list_height(store: &Lists<Node>, l: ListId) -> i64
    requires live { IsLive store.now l }
    requires sized { All IsSizedNode (list_at store.now l) }
    requires few { length (list_at store.now l) ≤ 8388608 }
    ensures { result ≡ size_of (shapes store.now l) }
{
    list_extent(store, l).room
}

/// A footnote: an insertion of its class with a list of its own.
#[inline(never)]
pub(crate) fn put_foot(
    store: &mut Lists<Node>,
    builder: &mut Builder,
    p: &Params,
    line: u32,
    class: u8,
    leaves: &[Leaf],
) -> Result<(), AllocError>
    requires can { CanTake builder.old store.old }
    requires known { has_class (contents_of builder.old store.old).classes class ≡ true }
    requires sized { All IsSizedNode (leaf_list leaves.now) }
    requires few { length (leaf_list leaves.now) ≤ 8388608 }
    ensures { OnOk result (Waits (on_line line (foot_insertion p.now class (map plain_leaf leaves.now) ∷ [])) builder.old store.old builder.new store.new) }
{
    let list = store.add_list()?;
    put_leaves(store, list, leaves)?;
    let height = list_height(store, list);
    builder.contribute(
        store,
        Node {
            line,
            kind: Kind::Ins(Insertion {
                class,
                list,
                height,
                split_depth: p.footsplitdepth,
                split_top: p.footsplittop,
                floating: p.footfloating,
            }),
        },
    )
}
