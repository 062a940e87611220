//! The lines of a page.
ghost use Rattle.std.specs.Prelude.{◌≡◌, ◌≢◌, ◌++◌, [], List, pos, codes, IfOk};
ghost use Rattle.tb_node.specs.PlainNodes.{plain_list, matter_of};
ghost use Rattle.tb_node.specs.Shape.{Shape};
ghost use Rattle.tb_pack.specs.declared.Set.{Set as SetOf};
ghost use Rattle.tb_pack.specs.Pack.{top_after};
ghost use Rattle.tb_pack.specs.Position.{HasPassed};
ghost use Rattle.tb_column.specs.StoredColumns.{column_shown};
ghost use Rattle.tb_sheet.specs.StoredSheets.{sheet_shown, sent_shown};
ghost use Rattle.tb_report.specs.Printable.{IsPrintableList, IsPrintable, IsPrintableSheet, IsPrintableSent};
ghost use Rattle.tb_report.specs.Lines.{matter_line, item_lines, column_lines, unset, sheet_lines, sent_lines};
ghost use Rattle.tb_text.specs.Fields.{and_number, and_count, line};
ghost use Rattle.tb_text.specs.Fronts.{PutsAfter};

use crate::fields::{put_measure, put_total};
use crate::heads::put_head;
use crate::items::put_node;
use crate::warnings::put_warning;
use std::alloc::{AllocError, Global};
use tb_column::Column;
use tb_node::{Kind, Node};
use tb_pack::{Set, Sign, Tops};
use tb_pool::{ListId, Lists};
use tb_scaled::Order;
use tb_sheet::{Sent, Sheet};
use tb_text::{end_line, put};

// The lines of a list's nodes, whose glue is set like this.
fn put_items(
    out: &mut Vec<u8>,
    store: &Lists<Node>,
    list: ListId,
    set: Set,
) -> Result<(), AllocError>
    requires list { IsPrintableList store.now list }
    requires share { set.den ≢ pos 0 }
    ensures { PutsAfter result out.old.items (item_lines set [] (plain_list store.now list)) out.new.items }
{
    let mut tops = Tops::new(set);
    for node in store.iter(list) {
        put_next(out, node, &tops)?;
        tops.pass(node);
    }
    Ok(())
}

// The line of the node that a walk has come to. Most nodes are glue, kerns and penalties, which have none, so their tops
// are not asked for.
fn put_next(out: &mut Vec<u8>, node: &Node, tops: &Tops) -> Result<(), AllocError>
    requires { tops.now.set.den ≢ pos 0 }
    ensures { (set : SetOf) (before : List Shape) → HasPassed tops.now set before → PutsAfter result out.old.items (matter_line (matter_of node.now.kind) (top_after set before)) out.new.items }
{
    match node.kind {
        Kind::Skip(_) => Ok(()),
        Kind::Kern(_) => Ok(()),
        Kind::Pen(_) => Ok(()),
        _ => put_node(out, node, tops.top()),
    }
}

// A column is the first or the second of its page.
fn put_column(
    out: &mut Vec<u8>,
    store: &Lists<Node>,
    number: u64,
    column: &Column,
) -> Result<(), AllocError>
    requires { IsPrintable store.now column.now }
    ensures { PutsAfter result out.old.items (column_lines number (column_shown store.now column.now)) out.new.items }
{
    put_head(out, number, column.kind, &column.set)?;
    put_items(out, store, column.list, column.set)
}

/// The set of a list that keeps its natural size, as the double floats above two columns do.
pub fn unset() -> Set
    ensures { result ≡ unset }
{
    Set {
        height: 0,
        natural: 0,
        sign: Sign::None,
        order: Order::Normal,
        num: 0,
        den: 1,
        depth: 0,
        over: 0,
    }
}

// The first line of a page.
fn put_page(out: &mut Vec<u8>, page: u64, form: &[u8]) -> Result<(), AllocError>
    ensures { PutsAfter result out.old.items (line (codes "page" ++ and_count page ++ form.now)) out.new.items }
{
    put_total(out, b"page", page)?;
    put(out, form)?;
    end_line(out)
}

// The first line of a page of two columns, which begin at this many scaled points.
fn put_pair(out: &mut Vec<u8>, page: u64, at: i64) -> Result<(), AllocError>
    ensures { PutsAfter result out.old.items (line (codes "page" ++ and_count page ++ codes " two at" ++ and_number at)) out.new.items }
{
    put_total(out, b"page", page)?;
    put_measure(out, b" two at", at)?;
    end_line(out)
}

fn put_columns(
    out: &mut Vec<u8>,
    store: &Lists<Node>,
    left: &Column,
    right: &Column,
) -> Result<(), AllocError>
    requires left { IsPrintable store.now left.now }
    requires right { IsPrintable store.now right.now }
    ensures { PutsAfter result out.old.items (column_lines 1 (column_shown store.now left.now) ++ column_lines 2 (column_shown store.now right.now)) out.new.items }
{
    put_column(out, store, 1, left)?;
    put_column(out, store, 2, right)
}

fn put_sheet(
    out: &mut Vec<u8>,
    store: &Lists<Node>,
    page: u64,
    sheet: &Sheet,
) -> Result<(), AllocError>
    requires { IsPrintableSheet store.now sheet.now }
    ensures { PutsAfter result out.old.items (sheet_lines page (sheet_shown store.now sheet.now)) out.new.items }
{
    match sheet {
        Sheet::One(column) => {
            put_page(out, page, b" one")?;
            put_column(out, store, 1, column)
        }
        Sheet::Wide(column) => {
            put_page(out, page, b" wide")?;
            put_column(out, store, 1, column)
        }
        Sheet::Two {
            tops,
            at,
            left,
            right,
        } => {
            put_pair(out, page, *at)?;
            put_items(out, store, *tops, unset())?;
            put_columns(out, store, left, right)
        }
    }
}

/// Appends the lines of what the output routine sends out: a warning's line, or those of a page. One text serves page after
/// page.
///
/// A page has its own line, and for each column a line with its height, its natural height and how its glue is set, and one
/// for each box, rule, float, note and mark with its top, all in scaled points. If memory runs out, what stood in
/// `out` is still there, and a front of the lines may follow.
pub fn put_sent(out: &mut Vec<u8>, store: &Lists<Node>, s: &Sent) -> Result<(), AllocError>
    requires { IsPrintableSent store.now s.now }
    ensures { PutsAfter result out.old.items (sent_lines (sent_shown store.now s.now)) out.new.items }
{
    match s {
        Sent::Warn(warning) => put_warning(out, warning),
        Sent::Ship { page, sheet } => put_sheet(out, store, *page, sheet),
    }
}

/// Returns the lines that `put_sent` appends: those of a warning or page. It fails only if there is no memory.
pub fn sent_text(alloc: Global, store: &Lists<Node>, s: &Sent) -> Result<Vec<u8>, AllocError>
    requires { IsPrintableSent store.now s.now }
    ensures { IfOk result (λ text. text.items ≡ sent_lines (sent_shown store.now s.now)) }
{
    let mut out = Vec::new(alloc);
    put_sent(&mut out, store, s)?;
    Ok(out)
}
