//! The line of a column, before its items.
ghost use Rattle.std.specs.Prelude.{◌≡◌, ◌++◌, codes};
ghost use Rattle.tb_report.specs.Lines.{order_text, ratio_text, sign_text, over_text, set_text, kind_text};
ghost use Rattle.tb_text.specs.Fields.{and_number, and_count, and_text, line};
ghost use Rattle.tb_text.specs.Fronts.{PutsAfter};

use crate::fields::{put_measure, put_total};
use std::alloc::AllocError;
use tb_column::ColumnKind;
use tb_pack::{Set, Sign};
use tb_scaled::Order;
use tb_text::{end_line, put, put_amount, put_number, put_text};

fn order_text(order: Order) -> &'static [u8]
    ensures { result.now ≡ order_text order }
{
    match order {
        Order::Normal => b"normal",
        Order::Fil => b"fil",
        Order::Fill => b"fill",
        Order::Filll => b"filll",
    }
}

fn kind_text(kind: ColumnKind) -> &'static [u8]
    ensures { result.now ≡ kind_text kind }
{
    match kind {
        ColumnKind::Text => b"text",
        ColumnKind::Floats => b"floats",
    }
}

// The fraction by which glue is set.
fn put_ratio(out: &mut Vec<u8>, set: &Set) -> Result<(), AllocError>
    ensures { PutsAfter result out.old.items (ratio_text set.now) out.new.items }
{
    put_amount(out, set.num)?;
    put(out, b"/")?;
    put_number(out, i128::from(set.den))
}

fn put_sign(out: &mut Vec<u8>, set: &Set) -> Result<(), AllocError>
    ensures { PutsAfter result out.old.items (sign_text set.now.sign set.now) out.new.items }
{
    match set.sign {
        Sign::None => put(out, b"none"),
        Sign::Stretch => {
            put(out, b"stretch")?;
            put_text(out, order_text(set.order))?;
            put_ratio(out, set)
        }
        Sign::Shrink => {
            put(out, b"shrink")?;
            put_ratio(out, set)
        }
    }
}

fn put_over(out: &mut Vec<u8>, over: i64) -> Result<(), AllocError>
    ensures { PutsAfter result out.old.items (over_text over) out.new.items }
{
    if over == 0 {
        return Ok(());
    }
    put_measure(out, b" overfull", over)
}

// How the glue of a column is set, and the end of the line.
fn end_set(out: &mut Vec<u8>, set: &Set) -> Result<(), AllocError>
    ensures { PutsAfter result out.old.items (line (codes " set " ++ set_text set.now)) out.new.items }
{
    put(out, b" set ")?;
    put_sign(out, set)?;
    put_over(out, set.over)?;
    end_line(out)
}

// The height of a column and its natural height, and the rest of its line.
fn end_column(out: &mut Vec<u8>, set: &Set) -> Result<(), AllocError>
    ensures { PutsAfter result out.old.items (line (codes " height" ++ and_number set.now.height ++ codes " natural" ++ and_number set.now.natural ++ codes " set " ++ set_text set.now)) out.new.items }
{
    put_measure(out, b" height", set.height)?;
    end_natural(out, set)
}

// The natural height of a column, and the rest of its line.
fn end_natural(out: &mut Vec<u8>, set: &Set) -> Result<(), AllocError>
    ensures { PutsAfter result out.old.items (line (codes " natural" ++ and_number set.now.natural ++ codes " set " ++ set_text set.now)) out.new.items }
{
    put_measure(out, b" natural", set.natural)?;
    end_set(out, set)
}

// The line of a column, which is the first or the second of its page.
pub(crate) fn put_head(
    out: &mut Vec<u8>,
    number: u64,
    kind: ColumnKind,
    set: &Set,
) -> Result<(), AllocError>
    ensures { PutsAfter result out.old.items (line (codes "column" ++ and_count number ++ and_text (kind_text kind) ++ codes " height" ++ and_number set.now.height ++ codes " natural" ++ and_number set.now.natural ++ codes " set " ++ set_text set.now)) out.new.items }
{
    put_total(out, b"column", number)?;
    put_text(out, kind_text(kind))?;
    end_column(out, set)
}
