//! Fields of a line that tells of a float.
ghost use Rattle.std.specs.Prelude.{◌≡◌, ◌++◌};
ghost use Rattle.tb_text.specs.Fields.{and_text, line};
ghost use Rattle.tb_text.specs.Fronts.{PutsAfter};
ghost use Rattle.tb_told.specs.Lines.{test_text, verdict_text, blocker_text, count_text, text_if};

use crate::{Counted, Test};
use std::alloc::AllocError;
use tb_node::{Float, Name};
use tb_report::put_measure;
use tb_text::{end_line, put, put_amount, put_count, put_text};

/// The word of a test.
fn test_text(test: Test) -> &'static [u8]
    ensures { result.now ≡ test_text test }
{
    match test {
        Test::Places => b"places",
        Test::Wide => b"wide",
        Test::Class => b"class",
        Test::Count => b"count",
        Test::Room => b"room",
        Test::Share => b"share",
        Test::Tall => b"tall",
        Test::Sum => b"sum",
    }
}

// Appends `yes`, or `no` and the first test that fails.
fn put_verdict(out: &mut Vec<u8>, failed: Option<Test>) -> Result<(), AllocError>
    ensures { PutsAfter result out.old.items (verdict_text failed) out.new.items }
{
    match failed {
        None => put(out, b" yes"),
        Some(test) => {
            put(out, b" no")?;
            put_text(out, test_text(test))
        }
    }
}

/// Appends the verdict and the end of the line.
pub(crate) fn put_end(out: &mut Vec<u8>, failed: Option<Test>) -> Result<(), AllocError>
    ensures { PutsAfter result out.old.items (line (verdict_text failed)) out.new.items }
{
    put_verdict(out, failed)?;
    end_line(out)
}

// Appends the name of a float that is in the way, or a dash.
fn put_blocker(out: &mut Vec<u8>, blocker: &Option<Float>) -> Result<(), AllocError>
    ensures { PutsAfter result out.old.items (blocker_text blocker.now) out.new.items }
{
    put(out, b" class")?;
    match blocker {
        None => put(out, b" -"),
        Some(f) => put_text(out, f.name.as_bytes()),
    }
}

/// Appends what a limit allows, how many floats are there, and how many may still come.
pub(crate) fn put_counted(out: &mut Vec<u8>, count: &Counted) -> Result<(), AllocError>
    ensures { PutsAfter result out.old.items (count_text count.now) out.new.items }
{
    put_measure(out, b" count", count.number)?;
    put_count(out, count.used as u64)?;
    put_amount(out, count.left)
}

/// Appends the word of a line and the name of a float.
pub(crate) fn put_head(out: &mut Vec<u8>, word: &[u8], name: &Name) -> Result<(), AllocError>
    ensures { PutsAfter result out.old.items (word.now ++ and_text name.now) out.new.items }
{
    put(out, word)?;
    put_text(out, name.as_bytes())
}

/// Appends the word of a line, the name of a float, and the float that is in the way.
pub(crate) fn put_blocked(
    out: &mut Vec<u8>,
    word: &[u8],
    name: &Name,
    blocker: &Option<Float>,
) -> Result<(), AllocError>
    ensures { PutsAfter result out.old.items (word.now ++ and_text name.now ++ blocker_text blocker.now) out.new.items }
{
    put_head(out, word, name)?;
    put_blocker(out, blocker)
}

/// Appends a text, if this holds.
pub(crate) fn put_if(out: &mut Vec<u8>, holds: bool, text: &[u8]) -> Result<(), AllocError>
    ensures { PutsAfter result out.old.items (text_if holds text.now) out.new.items }
{
    if holds { put(out, text) } else { Ok(()) }
}
