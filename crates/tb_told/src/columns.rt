//! The lines of a column of floats: its heads, those that join, and its company.
ghost use Rattle.std.specs.Prelude.{◌++◌, codes};
ghost use Rattle.tb_text.specs.Fields.{and_number};
ghost use Rattle.tb_text.specs.Fronts.{PutsAfter};
ghost use Rattle.tb_told.specs.Lines.{alone_line, joins_line, company_line};

use crate::fields::{put_blocked, put_end, put_head};
use crate::{Alone, HeightSum, Joining, Made};
use std::alloc::AllocError;
use tb_node::Name;
use tb_report::{put_measure, put_total};
use tb_text::{put, put_field};

/// Appends what is told of a float that may head a column. If memory runs out, what stood in `out` is still there, and a
/// front of the line may follow.
pub fn put_alone(out: &mut Vec<u8>, name: &Name, t: &Alone) -> Result<(), AllocError>
    ensures { PutsAfter result out.old.items (alone_line name.now t.now) out.new.items }
{
    put_blocked(out, b"alone", name, &t.blocker)?;
    put_measure(out, b" high", t.high)?;
    put_measure(out, b" most", t.most)?;
    put_end(out, t.failed)
}

/// Appends what is told of a float that may join. If memory runs out, what stood in `out` is still there, and a front of
/// the line may follow.
pub fn put_joining(out: &mut Vec<u8>, name: &Name, t: &Joining) -> Result<(), AllocError>
    ensures { PutsAfter result out.old.items (joins_line name.now t.now) out.new.items }
{
    put_blocked(out, b"joins", name, &t.blocker)?;
    put_measure(out, b" high", t.high)?;
    put_most(out, &t.sum, t.most)?;
    put_end(out, t.failed)
}

// The height of floats together.
fn put_sum(out: &mut Vec<u8>, sum: &HeightSum) -> Result<(), AllocError>
    ensures { PutsAfter result out.old.items (codes " sum" ++ and_number sum.now) out.new.items }
{
    put(out, b" sum")?;
    put_field(out, sum.amount())
}

// The height of floats together, and the height of the column.
fn put_most(out: &mut Vec<u8>, sum: &HeightSum, most: i64) -> Result<(), AllocError>
    ensures { PutsAfter result out.old.items (codes " sum" ++ and_number sum.now ++ codes " most" ++ and_number most) out.new.items }
{
    put_sum(out, sum)?;
    put_measure(out, b" most", most)
}

/// Appends what is told of the company of a head. If memory runs out, what stood in `out` is still there, and a front of
/// the line may follow.
pub fn put_company(out: &mut Vec<u8>, name: &Name, t: &Made) -> Result<(), AllocError>
    ensures { PutsAfter result out.old.items (company_line name.now t.now) out.new.items }
{
    put_head(out, b"company", name)?;
    put_total(out, b" floats", t.floats as u64)?;
    put_sum(out, &t.sum)?;
    put_measure(out, b" least", t.least)?;
    put_end(out, t.failed)
}
