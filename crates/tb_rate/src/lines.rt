//! The lines of ratings.

ghost use Rattle.std.specs.Prelude.{◌++◌, codes};
ghost use Rattle.tb_text.specs.Fields.{and_number, and_count, line};
ghost use Rattle.tb_trace.specs.Lines.{and_cost};
ghost use Rattle.tb_text.specs.Fronts.{PutsAfter};
ghost use Rattle.tb_rate.specs.RatingLines.{rating_line, demerits_line};

use crate::Rating;
use std::alloc::AllocError;
use tb_report::{put_measure, put_total};
use tb_text::{end_line, put, put_field};
use tb_trace::put_cost;

// The page of a column, its badness and its penalty.
fn put_break(out: &mut Vec<u8>, r: &Rating) -> Result<(), AllocError>
    ensures { PutsAfter result out.old.items (codes "rated" ++ and_count r.now.page ++ codes " badness" ++ and_cost r.now.badness ++ codes " penalty" ++ and_number r.now.penalty) out.new.items }
{
    put_total(out, b"rated", r.page)?;
    put_cost(out, b" badness", r.badness)?;
    put_measure(out, b" penalty", r.penalty)
}

// What is left over after a column.
fn put_left_over(out: &mut Vec<u8>, r: &Rating) -> Result<(), AllocError>
    ensures { PutsAfter result out.old.items (codes " waiting" ++ and_count r.now.waiting ++ codes " held" ++ and_count r.now.held) out.new.items }
{
    put_total(out, b" waiting", r.waiting)?;
    put_total(out, b" held", r.held)
}

// A word, demerits, and the end of the line.
fn put_sum(out: &mut Vec<u8>, word: &[u8], demerits: i128) -> Result<(), AllocError>
    ensures { PutsAfter result out.old.items (line (word.now ++ and_number demerits)) out.new.items }
{
    put(out, word)?;
    put_field(out, demerits)?;
    end_line(out)
}

/// Appends the line of a column. If memory runs out, what stood in `out` is still there, and a front of the line may follow.
pub fn put_rating(out: &mut Vec<u8>, r: &Rating) -> Result<(), AllocError>
    ensures { PutsAfter result out.old.items (rating_line r.now) out.new.items }
{
    put_break(out, r)?;
    put_left_over(out, r)?;
    put_sum(out, b" demerits", r.demerits)
}

/// Appends the last line, of the demerits of the run. If memory runs out, what stood in `out` is still there, and a front of
/// the line may follow.
pub fn put_demerits(out: &mut Vec<u8>, demerits: i128) -> Result<(), AllocError>
    ensures { PutsAfter result out.old.items (demerits_line demerits) out.new.items }
{
    put_sum(out, b"rated demerits", demerits)
}
