//! The lines of warnings.
ghost use Rattle.std.specs.Prelude.{◌≡◌, ◌++◌};
ghost use Rattle.tb_report.specs.Lines.{warn_line};
ghost use Rattle.tb_text.specs.Fields.{and_number, and_count, line};
ghost use Rattle.tb_text.specs.Fronts.{PutsAfter};

use crate::fields::{put_line, put_named, put_total};
use std::alloc::AllocError;
use tb_node::Name;
use tb_sheet::Warn;
use tb_text::{end_line, put_amount};

// A line of a word, a name and an amount.
fn put_by(out: &mut Vec<u8>, word: &[u8], name: &Name, by: i64) -> Result<(), AllocError>
    ensures { PutsAfter result out.old.items (line (word.now ++ name.now ++ and_number by)) out.new.items }
{
    put_named(out, word, name.as_bytes())?;
    put_amount(out, by)?;
    end_line(out)
}

// A line of a word and a count.
fn put_number_line(out: &mut Vec<u8>, word: &[u8], count: u64) -> Result<(), AllocError>
    ensures { PutsAfter result out.old.items (line (word.now ++ and_count count)) out.new.items }
{
    put_total(out, word, count)?;
    end_line(out)
}

/// Writes the line of a warning.
pub(crate) fn put_warning(out: &mut Vec<u8>, warning: &Warn) -> Result<(), AllocError>
    ensures { PutsAfter result out.old.items (warn_line warning.now) out.new.items }
{
    match warning {
        Warn::Large { name, by } => put_by(out, b"warn large ", name, *by),
        Warn::Ht { name } => put_line(out, b"warn ht ", name.as_bytes()),
        Warn::Moved { name, shift } => put_by(out, b"warn moved ", name, *shift),
        Warn::Floats { page } => put_number_line(out, b"warn floats", *page),
    }
}
