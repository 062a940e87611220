//! The start and the end of a file, and numbers in its bytes.
ghost use Rattle.std.specs.Prelude.{◌≡◌, ◌≤◌, ◌<◌, ◌++◌, [], pos, negsuc, ◌≤ℤ◌, FitsSigned, replicate, ◌%◌, IfOk};
ghost use Rattle.std.specs.Int.{w32};
ghost use Rattle.tb_dvi.specs.File.{signed_4, low_4, four, two_bytes, units, preamble, greatest_depth, post_fields, file_end, post_bytes};
ghost use Rattle.tb_text.specs.Fronts.{PutsAfter};

use std::alloc::{AllocError, Global};
use tb_param::Params;
use tb_text::put;

// A number with a sign in four bytes.
pub(crate) fn put_signed(out: &mut Vec<u8>, number: i32) -> Result<(), AllocError>
    ensures { PutsAfter result out.old.items (signed_4 number) out.new.items }
{
    put(out, &number.to_be_bytes())
}

// The low four bytes of a number: all of it if it has 32 bits.
pub(crate) fn put_low(out: &mut Vec<u8>, number: i128) -> Result<(), AllocError>
    ensures { PutsAfter result out.old.items (low_4 number) out.new.items }
{
    let bytes = number.to_be_bytes();
    put(out, &bytes[12..])
}

// A number in four bytes.
pub(crate) fn put_four(out: &mut Vec<u8>, number: u32) -> Result<(), AllocError>
    ensures { PutsAfter result out.old.items (four number) out.new.items }
{
    put(out, &number.to_be_bytes())
}

fn put_two(out: &mut Vec<u8>, number: u16) -> Result<(), AllocError>
    ensures { PutsAfter result out.old.items (two_bytes number) out.new.items }
{
    put(out, &number.to_be_bytes())
}

// The unit of length and the magnification.
fn put_units(out: &mut Vec<u8>) -> Result<(), AllocError>
    ensures { PutsAfter result out.old.items units out.new.items }
{
    put_four(out, 25_400_000)?;
    put_four(out, 473_628_672)?;
    put_four(out, 1000)
}

/// The first 27 bytes of a DVI file: its preamble (TeX: The Program §617), whose comment is `galley_pages`. It fails only
/// if there is no memory for them.
pub fn pre_bytes(alloc: Global) -> Result<Vec<u8>, AllocError>
    ensures { IfOk result (λ bytes. bytes.items ≡ preamble) }
{
    let mut out = Vec::new(alloc);
    put(&mut out, b"\xf7\x02")?;
    put_units(&mut out)?;
    put(&mut out, b"\x0cgalley_pages")?;
    Ok(out)
}

// The greatest depth of the stack: 1 if anything is shown.
fn greatest_depth(any: bool) -> u16
    ensures { result ≡ greatest_depth any }
{
    if any { 1 } else { 0 }
}

// The greatest height and width, the greatest depth of the stack, and the count of pages.
fn put_sizes(out: &mut Vec<u8>, textheight: i32, pages: u64, any: bool) -> Result<(), AllocError>
    ensures { PutsAfter result out.old.items (signed_4 textheight ++ four 19726336 ++ two_bytes (greatest_depth any) ++ two_bytes (pages % 65536)) out.new.items }
{
    put_signed(out, textheight)?;
    put_four(out, 19_726_336)?;
    put_two(out, greatest_depth(any))?;
    put_two(out, (pages % 65536) as u16)
}

// The numbers of a postamble: the last page's place, sizes, the depth of the stack, the count of pages.
fn put_fields(
    out: &mut Vec<u8>,
    textheight: i32,
    pages: u64,
    any: bool,
    last: i32,
) -> Result<(), AllocError>
    ensures { PutsAfter result out.old.items (post_fields textheight pages any last) out.new.items }
{
    put_signed(out, last)?;
    put_units(out)?;
    put_sizes(out, textheight, pages, any)
}

// The end of a file whose postamble begins at this place.
fn put_end(out: &mut Vec<u8>, place: u32) -> Result<(), AllocError>
    requires { place ≤ 2147483000 }
    ensures { PutsAfter result out.old.items (file_end place) out.new.items }
{
    put(out, b"\xf9")?;
    put_four(out, place)?;
    put(out, b"\x02")?;
    put_filling(out, 7 - (place + 34) % 4)
}

// Appends `count` bytes 223, at most seven.
#[tactic(auto, using(crate::proofs::ByteLemmas::fills))]
fn put_filling(out: &mut Vec<u8>, count: u32) -> Result<(), AllocError>
    requires { count ≤ 7 }
    ensures { PutsAfter result out.old.items (replicate count 223) out.new.items }
{
    for _ in 0..count {
        out.push(223)?;
    }
    Ok(())
}

/// Appends all bytes of a DVI file from its postamble on, which begins at `place` (TeX: The Program §642): `pages` pages,
/// the last of which begins at `last` (-1 if there is none). `any` says whether a page shows anything. If memory
/// runs out, what stood in `out` is still there, and a front of them may follow.
pub fn put_post(
    out: &mut Vec<u8>,
    p: &Params,
    pages: u64,
    any: bool,
    last: i64,
    place: u64,
) -> Result<(), AllocError>
    requires height { FitsSigned w32 p.now.textheight }
    requires last_low { negsuc 0 ≤ℤ last }
    requires last_high { last ≤ℤ pos 2147483000 }
    requires place { place ≤ 2147483000 }
    ensures { PutsAfter result out.old.items (post_bytes p.now.textheight pages any last place) out.new.items }
{
    put(out, b"\xf8")?;
    put_fields(out, p.textheight as i32, pages, any, last as i32)?;
    put_end(out, place as u32)
}

/// Returns the bytes that `put_post` appends: those of a file from its postamble on. It fails only if there is no memory.
pub fn post_bytes(
    alloc: Global,
    p: &Params,
    pages: u64,
    any: bool,
    last: i64,
    place: u64,
) -> Result<Vec<u8>, AllocError>
    requires height { FitsSigned w32 p.now.textheight }
    requires last_low { negsuc 0 ≤ℤ last }
    requires last_high { last ≤ℤ pos 2147483000 }
    requires place { place ≤ 2147483000 }
    ensures { IfOk result (λ bytes. bytes.items ≡ post_bytes p.now.textheight pages any last place) }
{
    let mut out = Vec::new(alloc);
    put_post(&mut out, p, pages, any, last, place)?;
    Ok(out)
}
