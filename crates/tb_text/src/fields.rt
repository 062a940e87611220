//! Fields of a line: appended to a text, or written from the last to the first into an array that ends with the line.
ghost use Rattle.std.specs.Prelude.{◌≡◌, ◌≤◌, ◌++◌, ◌∷◌, ◌+◌, [], decimal, drop, length};
ghost use Rattle.tb_text.specs.Fields.{and_number, and_count, and_text};
ghost use Rattle.tb_text.specs.Fronts.{PutsAfter};

use crate::number::put_number;
use itoa::write_digits;
use std::alloc::AllocError;

/// Appends bytes as they are. If memory runs out, what stood in `out` is still there, and a front of the bytes may follow.
pub fn put(out: &mut Vec<u8>, text: &[u8]) -> Result<(), AllocError>
    ensures { PutsAfter result out.old.items text.now out.new.items }
{
    out.extend_from_slice(text)
}

/// Appends a text and a number in decimal. If memory runs out, what stood in `out` is still there, and a front of the text may
/// follow.
pub fn put_counted(out: &mut Vec<u8>, text: &[u8], number: u64) -> Result<(), AllocError>
    ensures { PutsAfter result out.old.items (text.now ++ decimal number) out.new.items }
{
    put(out, text)?;
    put_number(out, i128::from(number))
}

/// Appends a space and a text. If memory runs out, what stood in `out` is still there, and a front of the text may
/// follow.
pub fn put_text(out: &mut Vec<u8>, text: &[u8]) -> Result<(), AllocError>
    ensures { PutsAfter result out.old.items (and_text text.now) out.new.items }
{
    put(out, b" ")?;
    put(out, text)
}

/// Appends a space and a number. If memory runs out, what stood in `out` is still there, and a front of the text may
/// follow.
#[inline]
pub fn put_field(out: &mut Vec<u8>, number: i128) -> Result<(), AllocError>
    ensures { PutsAfter result out.old.items (and_number number) out.new.items }
{
    if number < 0 || number > i128::from(u64::MAX) {
        return put_any_field(out, number);
    }
    put_count(out, number as u64)
}

/// Appends a space and an amount in scaled points. If memory runs out, what stood in `out` is still there, and a front of the
/// text may follow.
#[inline]
pub fn put_amount(out: &mut Vec<u8>, amount: i64) -> Result<(), AllocError>
    ensures { PutsAfter result out.old.items (and_number amount) out.new.items }
{
    if amount < 0 {
        return put_any_field(out, i128::from(amount));
    }
    put_count(out, amount as u64)
}

// Most numbers are counts of 64 bits, so the others are kept out of their way.
#[cold]
#[inline(never)]
fn put_any_field(out: &mut Vec<u8>, number: i128) -> Result<(), AllocError>
    ensures { PutsAfter result out.old.items (and_number number) out.new.items }
{
    put(out, b" ")?;
    put_number(out, number)
}

/// Appends a space and a count. If memory runs out, what stood in `out` is still there, and a front of the text may follow.
pub fn put_count(out: &mut Vec<u8>, count: u64) -> Result<(), AllocError>
    ensures { PutsAfter result out.old.items (and_count count) out.new.items }
{
    let mut field = [0; 21];
    let start = write_field(count, &mut field, 21);
    put(out, &field[start..])
}

/// Appends the end of a line. It fails only if there is no memory for it, and what stood in `out` is then still there.
pub fn end_line(out: &mut Vec<u8>) -> Result<(), AllocError>
    ensures { PutsAfter result out.old.items (10 ∷ []) out.new.items }
{
    put(out, b"\n")
}

/// Writes a space and a number so that they end at `end`, and returns where they start.
pub fn write_field(number: u64, line: &mut [u8], end: usize) -> usize
    requires room { 21 ≤ end }
    requires inside { end ≤ length line.old }
    ensures start { end ≤ result + 21 }
    ensures before { result ≤ end }
    ensures same { length line.new ≡ length line.old }
    ensures written { drop result line.new ≡ and_count number ++ drop end line.old }
{
    let start = write_digits(number, line, end);
    line[start - 1] = b' ';
    start - 1
}

/// Writes a text so that it ends at `end`, and returns where it starts.
pub fn write_text(text: &[u8], line: &mut [u8], end: usize) -> usize
    requires room { length text.now ≤ end }
    requires inside { end ≤ length line.old }
    ensures start { result + length text.now ≡ end }
    ensures same { length line.new ≡ length line.old }
    ensures written { drop result line.new ≡ text.now ++ drop end line.old }
{
    let start = end - text.len();
    line[start..end].copy_from_slice(text);
    start
}
