//! The floats that stand in the text of a column.

ghost use Rattle.std.specs.Prelude.{◌≡◌, ◌++◌, IfOk, OnOk, option_to_list};
ghost use Rattle.tb_pool.specs.Lists.{IsLive};
ghost use Rattle.tb_node.specs.PlainNodes.{plain_list};
ghost use Rattle.tb_told.specs.Standing.{item_here, box_here, line_here};
ghost use Rattle.tb_told.specs.Tales.{here_lines};

use std::alloc::{AllocError, Global};
use tb_node::{Kind, Node, What, Where};
use tb_pool::{ListId, Lists};

/// The lines of the floats that stand in a text, in their order. It fails only if memory runs out.
pub fn here_lines(alloc: Global, store: &Lists<Node>, body: ListId) -> Result<Vec<u32>, AllocError>
    requires { IsLive store.now body }
    ensures { IfOk result (λ v. v.items ≡ here_lines (plain_list store.now body)) }
{
    let mut lines = Vec::new(alloc);
    for node in store.iter(body) {
        push_here(&mut lines, &node.kind)?;
    }
    Ok(lines)
}

// Appends the line of a float, if the node is its box in the text.
fn push_here(lines: &mut Vec<u32>, kind: &Kind) -> Result<(), AllocError>
    ensures { OnOk result (lines.new.items ≡ lines.old.items ++ option_to_list (line_here kind.now)) }
{
    if let Some(line) = line_here(kind) {
        lines.push(line)?;
    }
    Ok(())
}

// The line of a float, if the node is its box in the text.
fn line_here(kind: &Kind) -> Option<u32>
    ensures { result ≡ line_here kind.now }
{
    match kind {
        Kind::Hbox { what, .. } => box_here(what),
        Kind::Rule { .. } => None,
        Kind::Skip(_) => None,
        Kind::Kern(_) => None,
        Kind::Pen(_) => None,
        Kind::Mark(_) => None,
        Kind::Note(_) => None,
        Kind::Whatsit => None,
        Kind::Ins(_) => None,
        Kind::Act(_) => None,
    }
}

// The line of a float in the text, if a box holds one.
fn box_here(what: &What) -> Option<u32>
    ensures { result ≡ box_here what.now }
{
    match *what {
        What::Text(_) => None,
        What::Blank => None,
        What::Float { place, item, .. } => item_here(place, item),
        What::Margin { .. } => None,
    }
}

// The line of a float, if its place is in the text.
fn item_here(place: Where, item: u32) -> Option<u32>
    ensures { result ≡ item_here place item }
{
    match place {
        Where::Here => Some(item),
        Where::Top => None,
        Where::Bottom => None,
        Where::Page => None,
        Where::Double => None,
        Where::Deferred => None,
    }
}
