//! The line about the run of a generated galley.
ghost use Rattle.std.specs.Prelude.{◌≡◌, IfOk};
ghost use Rattle.tb_top.specs.Answer.{summary_line};

use std::alloc::{AllocError, Global};
use tb_report::{Totals, put_total, put_totals};

/// The line of the totals of this many generated items.
pub(crate) fn summary_text(alloc: Global, count: u32, t: &Totals) -> Result<Vec<u8>, AllocError>
    ensures { IfOk result (λ text. text.items ≡ summary_line count t.now) }
{
    let mut out = Vec::new(alloc);
    put_total(&mut out, b"gen", u64::from(count))?;
    put_totals(&mut out, b" pages", t)?;
    Ok(out)
}
