//! The lines at the end of a report.
ghost use Rattle.std.specs.Prelude.{◌≡◌, ◌++◌, codes, IfOk};
ghost use Rattle.tb_pool.specs.Lists.{IsLive};
ghost use Rattle.tb_node.specs.PlainNodes.{plain, matter_of, plain_list};
ghost use Rattle.tb_report.specs.Lines.{left_line, left_lines, end_lines};
ghost use Rattle.tb_text.specs.Fields.{and_count, line};
ghost use Rattle.tb_text.specs.Fronts.{PutsAfter};

use crate::Totals;
use crate::fields::{put_line, put_total};
use std::alloc::{AllocError, Global};
use tb_node::{Kind, Node};
use tb_pool::{ListId, Lists};
use tb_text::end_line;

// The line of a mark or a note that is left on the page; other nodes have none.
fn put_left(out: &mut Vec<u8>, node: &Node) -> Result<(), AllocError>
    ensures { PutsAfter result out.old.items (left_line (plain (matter_of node.now.kind))) out.new.items }
{
    match &node.kind {
        Kind::Mark(name) => put_line(out, b"left mark ", name.as_bytes()),
        Kind::Note(name) => put_line(out, b"left note ", name.as_bytes()),
        Kind::Hbox { .. } => Ok(()),
        Kind::Rule { .. } => Ok(()),
        Kind::Skip(_) => Ok(()),
        Kind::Kern(_) => Ok(()),
        Kind::Pen(_) => Ok(()),
        Kind::Whatsit => Ok(()),
        Kind::Ins(_) => Ok(()),
        Kind::Act(_) => Ok(()),
    }
}

fn put_left_nodes(out: &mut Vec<u8>, store: &Lists<Node>, left: ListId) -> Result<(), AllocError>
    requires { IsLive store.now left }
    ensures { PutsAfter result out.old.items (left_lines (plain_list store.now left)) out.new.items }
{
    for node in store.iter(left) {
        put_left(out, node)?;
    }
    Ok(())
}

/// Appends the totals, after a word for that of the pages, and the end of the line. If memory runs out, what
/// stood in `out` is still there, and a front of the line may follow.
pub fn put_totals(out: &mut Vec<u8>, pages: &[u8], t: &Totals) -> Result<(), AllocError>
    ensures { PutsAfter result out.old.items (line (pages.now ++ and_count t.now.pages ++ codes " boxes" ++ and_count t.now.boxes ++ codes " floats" ++ and_count t.now.floats ++ codes " warnings" ++ and_count t.now.warnings)) out.new.items }
{
    put_total(out, pages, t.pages)?;
    put_total(out, b" boxes", t.boxes)?;
    end_totals(out, t)
}

// The totals from that of floats on.
fn end_totals(out: &mut Vec<u8>, t: &Totals) -> Result<(), AllocError>
    ensures { PutsAfter result out.old.items (line (codes " floats" ++ and_count t.now.floats ++ codes " warnings" ++ and_count t.now.warnings)) out.new.items }
{
    put_total(out, b" floats", t.floats)?;
    put_total(out, b" warnings", t.warnings)?;
    end_line(out)
}

/// The end of the report of a run that is done: a line for each mark and note that is left on the page, in order, and
/// the line of the totals.
///
/// It fails only if there is no memory for the text.
pub fn end_text(
    alloc: Global,
    store: &Lists<Node>,
    left: ListId,
    t: &Totals,
) -> Result<Vec<u8>, AllocError>
    requires { IsLive store.now left }
    ensures { IfOk result (λ text. text.items ≡ end_lines (plain_list store.now left) t.now) }
{
    let mut out = Vec::new(alloc);
    put_left_nodes(&mut out, store, left)?;
    put_totals(&mut out, b"end pages", t)?;
    Ok(out)
}
