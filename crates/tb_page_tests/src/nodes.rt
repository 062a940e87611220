//! Nodes for the tests of pages, and what these see of a list. Heights are in sp.

ghost use Rattle.std.specs.Prelude.{◌≡◌, pos};
ghost use Rattle.tb_pool.specs.Lists.{IsLive};
ghost use Rattle.tb_node.specs.Fit.{IsExtent};
ghost use Rattle.tb_builder.specs.WorkedPages.{IsMatter};

use std::alloc::{AllocError, Global};
use tb_node::{Kind, Node, What};
use tb_pool::{ListId, Lists};

pub(crate) fn make_node(kind: Kind) -> Node
    ensures { result.kind ≡ kind }
{
    Node { line: 7, kind }
}

pub(crate) fn make_box(height: i64) -> Node
    requires { IsExtent height }
    ensures kind { result.kind ≡ Kind.Hbox What.Blank height (pos 0) }
    ensures matter { IsMatter result }
{
    make_node(Kind::Hbox {
        what: What::Blank,
        height,
        depth: 0,
    })
}

// The end of a page.
pub(crate) fn forced() -> Node
    ensures { IsMatter result }
{
    make_node(Kind::Pen(-10000))
}

// What a node is, and its height, its width or its penalty.
fn told(n: &Node) -> (char, i64) {
    match n.kind {
        Kind::Hbox { height, .. } => ('b', height),
        Kind::Rule { height, .. } => ('r', height),
        Kind::Skip(g) => ('g', g.width),
        Kind::Kern(w) => ('k', w),
        Kind::Pen(p) => ('p', p),
        Kind::Ins(i) => ('i', i.height),
        _ => ('?', 0),
    }
}

// The same of the nodes of a list.
pub(crate) fn told_list(
    alloc: Global,
    store: &Lists<Node>,
    l: ListId,
) -> Result<Vec<(char, i64)>, AllocError>
    requires { IsLive store.now l }
{
    let mut all = Vec::new(alloc);
    for n in store.iter(l) {
        all.push(told(n))?;
    }
    Ok(all)
}
