//! The texts of refusals.
ghost use Rattle.tb_text.specs.Fronts.{PutsAfter};
ghost use Rattle.tb_lines.specs.RefusalText.{no_breaks_text, refusal_text};

use crate::LinesRefusal;
use std::alloc::AllocError;
use tb_galley::{Fault, put_fault};
use tb_text::{put, put_counted};

fn put_no_breaks(out: &mut Vec<u8>, paragraph: usize) -> Result<(), AllocError>
    ensures { PutsAfter result out.old.items (no_breaks_text paragraph) out.new.items }
{
    put_counted(out, b"paragraph ", paragraph as u64)?;
    put(out, b": no feasible breaks")
}

/// Appends why a text has no galley of lines: `line L field F: CAUSE`, `paragraph N: no feasible breaks` or
/// `out of memory`. If memory runs out, what stood in `out` is still there, and a front of the text may follow.
pub fn put_refusal(out: &mut Vec<u8>, refusal: &LinesRefusal) -> Result<(), AllocError>
    ensures { PutsAfter result out.old.items (refusal_text refusal.now) out.new.items }
{
    match *refusal {
        LinesRefusal::At { line, field, cause } => put_fault(out, &Fault { line, field, cause }),
        LinesRefusal::NoBreaks { paragraph } => put_no_breaks(out, paragraph),
        LinesRefusal::Memory => put(out, b"out of memory"),
    }
}
