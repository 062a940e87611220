//! The lines of what is refused.
ghost use Rattle.std.specs.Prelude.{◌≡◌, ◌++◌};
ghost use Rattle.tb_dvi.specs.Refusal.{cause_text, cause_line, far_line};
ghost use Rattle.tb_text.specs.Fronts.{PutsAfter};

use crate::DviCause;
use std::alloc::AllocError;
use tb_report::put_total;
use tb_text::put;

// The word of a cause.
fn cause_text(cause: DviCause) -> &'static [u8]
    ensures { result.now ≡ cause_text cause }
{
    match cause {
        DviCause::BadPre => b"BadPre",
        DviCause::Font => b"Font",
        DviCause::BadOp => b"BadOp",
        DviCause::Truncated => b"Truncated",
        DviCause::Unbalanced => b"Unbalanced",
        DviCause::BadPost => b"BadPost",
    }
}

/// Appends the line of a file that is not listed, without its end: the place of the command and the cause. If memory
/// runs out, what stood in `out` is still there, and a front of the line may follow.
pub fn put_cause(out: &mut Vec<u8>, byte: u64, cause: DviCause) -> Result<(), AllocError>
    ensures { PutsAfter result out.old.items (cause_line byte cause) out.new.items }
{
    put_total(out, b"byte", byte)?;
    put(out, b": ")?;
    put(out, cause_text(cause))
}

/// Appends the line of a page that is out of range, without its end. If memory runs out, what stood in `out` is still
/// there, and a front of the line may follow.
pub fn put_far(out: &mut Vec<u8>, page: u64) -> Result<(), AllocError>
    ensures { PutsAfter result out.old.items (far_line page) out.new.items }
{
    put_total(out, b"page", page)?;
    put(out, b": out of DVI range")
}
