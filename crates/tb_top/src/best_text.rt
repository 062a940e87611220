//! The lines of the mode best before its report.

ghost use Rattle.std.specs.Prelude.{◌≡◌, ◌<◌, ◌≤◌, ◌++◌, length, codes, None, Some, OnOk, IfOk, MatchOption};
ghost use Rattle.tb_text.specs.Fields.{line, and_number};
ghost use Rattle.tb_best.specs.BestLines.{page_at, name_before, break_lines};
ghost use Rattle.tb_top.specs.BestText.{shown_columns, name_of, break_text, plan_text, AreNumbersOf};

use crate::rated_pages::RatedColumn;
use std::alloc::{AllocError, Global};
use tb_galley::{Item, ItemKind};
use tb_report::put_total;
use tb_text::{end_line, put, put_field};

/// The lines of a plan: the demerits without breaks and with those of the plan, and for each break the line of the item before
/// which it goes, the number of the page that ends there (0 if none does) and the last box or rule before it.
///
/// It fails only if memory runs out.
pub(crate) fn plan_text(
    alloc: Global,
    items: &[Item],
    columns: &[RatedColumn],
    greedy: i128,
    least: i128,
    breaks: &[u32],
) -> Result<Vec<u8>, AllocError>
    requires { AreNumbersOf items.now breaks.now }
    ensures { IfOk result (λ text. text.items ≡ plan_text items.now (shown_columns columns.now) greedy least breaks.now) }
{
    let mut text = b"best 1\n".to_vec(alloc)?;
    put_sum(&mut text, b"greedy", greedy)?;
    put_sum(&mut text, b"least", least)?;
    put_breaks(&mut text, items, columns, breaks)?;
    Ok(text)
}

// A word, demerits, and the end of the line.
fn put_sum(out: &mut Vec<u8>, word: &[u8], demerits: i128) -> Result<(), AllocError>
    ensures { OnOk result (out.new.items ≡ out.old.items ++ line (word.now ++ and_number demerits)) }
{
    put(out, word)?;
    put_field(out, demerits)?;
    end_line(out)
}

// The lines of all breaks.
fn put_breaks(
    out: &mut Vec<u8>,
    items: &[Item],
    columns: &[RatedColumn],
    breaks: &[u32],
) -> Result<(), AllocError>
    requires { AreNumbersOf items.now breaks.now }
    ensures { OnOk result (out.new.items ≡ out.old.items ++ break_lines items.now (shown_columns columns.now) breaks.now) }
{
    for before in breaks {
        let k = *before as usize;
        let line = items[k].line;
        put_break(out, line, page_at(columns, line), name_before(items, k))?;
    }
    Ok(())
}

// The line of one break.
fn put_break(out: &mut Vec<u8>, line: u32, page: u64, name: &[u8]) -> Result<(), AllocError>
    ensures { OnOk result (out.new.items ≡ out.old.items ++ break_text line page name.now) }
{
    put_total(out, b"break", u64::from(line))?;
    put_total(out, b" page", page)?;
    put(out, b" after ")?;
    put(out, name)?;
    end_line(out)
}

// The number of the page on which a column broke at this line; 0 if none did.
fn page_at(columns: &[RatedColumn], line: u32) -> u64
    ensures { result ≡ page_at (shown_columns columns.now) line }
{
    for column in columns {
        if column.line == line {
            return column.page;
        }
    }
    0
}

// The name of the last box or rule before this item. Between two breaks of a best plan there is one, so that few items are
// looked at.
fn name_before(items: &[Item], k: usize) -> &[u8]
    requires { k ≤ length items.now }
    ensures { result.now ≡ name_before (codes "-") k items.now }
{
    let mut i = k;
    while i > 0 {
        i -= 1;
        if let Some(name) = name_of(&items[i].kind) {
            return name;
        }
    }
    b"-"
}

// The name of a box or rule.
fn name_of(kind: &ItemKind) -> Option<&[u8]>
    ensures { MatchOption result (name_of kind.now ≡ None) (λ name. name_of kind.now ≡ Some name.now) }
{
    match kind {
        ItemKind::Hbox { name, .. } => Some(name.as_bytes()),
        ItemKind::Rule { name, .. } => Some(name.as_bytes()),
        _ => None,
    }
}
