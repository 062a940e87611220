//! Lists and events as short texts.

ghost use Rattle.tb_pool.specs.Lists.{IsLive};
ghost use Rattle.tb_column.specs.Page.{IsPageColumn};
ghost use Rattle.tb_sheet.specs.StoredSheets.{IsPageSheet, IsPageSent};

use std::alloc::{AllocError, Global};
use tb_column::Column;
use tb_node::{Kind, Node, Side, What, Where};
use tb_output::{RunFault, Sent, Sheet, Warn};
use tb_pool::{ListId, Lists};

// Each node of a list: a word, and its height, its width, its penalty or its shift.
pub(super) fn list_text(alloc: Global, store: &Lists<Node>, l: ListId) -> Result<String, AllocError>
    requires { IsLive store.now l }
{
    let mut all = String::new(alloc);
    for node in store.iter(l) {
        let (word, amount) = told(node);
        all.push_str(format!(in alloc; " {word}{amount}")?.as_str())?;
    }
    Ok(all)
}

fn told(n: &Node) -> (&'static str, i64) {
    match n.kind {
        Kind::Hbox { what, height, .. } => told_box(&what, height),
        Kind::Rule { height, .. } => ("r", height),
        Kind::Skip(g) => ("g", g.width),
        Kind::Kern(width) => ("k", width),
        Kind::Pen(penalty) => ("p", penalty),
        Kind::Ins(i) => ("i", i.height),
        Kind::Whatsit => ("w", 0),
        _ => ("?", 0),
    }
}

// A float is named by its place, a marginal note by its side.
fn told_box(what: &What, height: i64) -> (&'static str, i64) {
    match what {
        What::Float { place, .. } => (place_word(*place), height),
        What::Margin { side, shift, .. } => (side_word(*side), *shift),
        _ => ("b", height),
    }
}

fn place_word(place: Where) -> &'static str {
    match place {
        Where::Here => "here",
        Where::Top => "top",
        Where::Bottom => "bottom",
        Where::Page => "page",
        Where::Double => "double",
        Where::Deferred => "?",
    }
}

fn side_word(side: Side) -> &'static str {
    match side {
        Side::Left => "left",
        Side::Right => "right",
    }
}

// An event: a warning with its amount, or a page with its columns.
pub(super) fn event_text(
    alloc: Global,
    store: &Lists<Node>,
    sent: Sent,
) -> Result<String, AllocError>
    requires { IsPageSent store.now sent }
{
    match sent {
        Sent::Warn(warning) => warning_text(alloc, warning),
        Sent::Ship { page, sheet } => {
            let columns = sheet_text(alloc, store, sheet)?;
            format!(in alloc; "page {page}{columns}")
        }
    }
}

fn warning_text(alloc: Global, warning: Warn) -> Result<String, AllocError> {
    match warning {
        Warn::Large { by, .. } => format!(in alloc; "large {by}"),
        Warn::Ht { .. } => format!(in alloc; "ht"),
        Warn::Moved { shift, .. } => format!(in alloc; "moved {shift}"),
        Warn::Floats { page } => format!(in alloc; "floats {page}"),
    }
}

fn sheet_text(alloc: Global, store: &Lists<Node>, sheet: Sheet) -> Result<String, AllocError>
    requires { IsPageSheet store.now sheet }
{
    match sheet {
        Sheet::One(column) => column_text(alloc, store, &column),
        Sheet::Wide(column) => {
            let floats = column_text(alloc, store, &column)?;
            format!(in alloc; " wide{floats}")
        }
        Sheet::Two {
            tops,
            at,
            left,
            right,
        } => {
            let tops = list_text(alloc, store, tops)?;
            let left = column_text(alloc, store, &left)?;
            let right = column_text(alloc, store, &right)?;
            format!(in alloc; " two at {at}{tops}{left}{right}")
        }
    }
}

// The natural height of a column, its height, and its nodes.
fn column_text(alloc: Global, store: &Lists<Node>, column: &Column) -> Result<String, AllocError>
    requires { IsPageColumn store.now column.now }
{
    let nodes = list_text(alloc, store, column.list)?;
    let natural = column.set.natural;
    let height = column.set.height;
    format!(in alloc; ", {natural} of {height}:{nodes}")
}

// Why a firing was refused.
pub(super) fn fault_text(alloc: Global, fault: RunFault) -> Result<String, AllocError> {
    match fault {
        RunFault::DeadCycles { count } => format!(in alloc; "dead cycles {count}"),
        RunFault::PageLimit { pages } => format!(in alloc; "page limit {pages}"),
        RunFault::Memory => Err(AllocError),
    }
}
