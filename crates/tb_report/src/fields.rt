//! Fields of a report line, written at the end of a text.
ghost use Rattle.std.specs.Prelude.{◌≡◌, ◌++◌};
ghost use Rattle.tb_text.specs.Fields.{and_number, and_count, line};
ghost use Rattle.tb_text.specs.Fronts.{PutsAfter};

use std::alloc::AllocError;
use tb_text::{end_line, put, put_amount, put_count};

/// Appends a word and a count after it. If memory runs out, what stood in `out` is still there, and a front of the text may
/// follow.
pub fn put_total(out: &mut Vec<u8>, word: &[u8], count: u64) -> Result<(), AllocError>
    ensures { PutsAfter result out.old.items (word.now ++ and_count count) out.new.items }
{
    put(out, word)?;
    put_count(out, count)
}

/// Appends a word and an amount after it: scaled points, or a penalty or cost, which have no unit. If memory
/// runs out, what stood in `out` is still there, and a front of the text may follow.
pub fn put_measure(out: &mut Vec<u8>, word: &[u8], amount: i64) -> Result<(), AllocError>
    ensures { PutsAfter result out.old.items (word.now ++ and_number amount) out.new.items }
{
    put(out, word)?;
    put_amount(out, amount)
}

/// Appends a word and what follows it. If memory runs out, what stood in `out` is still there, and a front of the text may
/// follow.
pub fn put_named(out: &mut Vec<u8>, word: &[u8], name: &[u8]) -> Result<(), AllocError>
    ensures { PutsAfter result out.old.items (word.now ++ name.now) out.new.items }
{
    put(out, word)?;
    put(out, name)
}

// A line of a word and what follows it.
pub(crate) fn put_line(out: &mut Vec<u8>, word: &[u8], name: &[u8]) -> Result<(), AllocError>
    ensures { PutsAfter result out.old.items (line (word.now ++ name.now)) out.new.items }
{
    put_named(out, word, name)?;
    end_line(out)
}
