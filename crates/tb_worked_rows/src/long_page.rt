//! A page of 20000 boxes that is built again at each of 400 floats, which are all placed in its text.

use std::alloc::{AllocError, Global};
use tb_text::put_number;

const BOXES: u32 = 20_000;

const FLOATS: u32 = 400;

const SETS: &[u8] =
    b"galley 1\nset textheight 100000\nset topskip 10\nset maxdepth 0\nset baselineskip 0\nset bottom flush\nset skipfootins 0\nset footsplittop 10\nset intextsep 0\nset textfloatsep 0\nset floatsep 0\nset fptop 0\nset fpsep 0\nset fpbot 0\nset dbltextfloatsep 0\nset totalnumber 1000\nset pool 4096\nset maxdeadcycles 1000000\n";

/// Appends a text, a number and a text.
pub fn put_line(
    out: &mut Vec<u8>,
    before: &[u8],
    number: u32,
    after: &[u8],
) -> Result<(), AllocError> {
    out.extend_from_slice(before)?;
    put_number(out, i128::from(number))?;
    out.extend_from_slice(after)
}

/// The galley of this page, as bytes. It fails only if memory runs out.
pub fn long_galley(alloc: Global) -> Result<Vec<u8>, AllocError> {
    let mut out = Vec::from_slice(alloc, SETS)?;
    for k in 1..BOXES + 1 {
        put_line(&mut out, b"box b", k, b" 1 0\nglue 0\n")?;
    }
    for k in 1..FLOATS + 1 {
        put_line(&mut out, b"float x", k, b" 1 single h 1 par\n")?;
    }
    out.extend_from_slice(b"end\n")?;
    Ok(out)
}

/// The report of this page, as bytes: the top skip leaves 9sp above the first box, and each box and each float is 1sp
/// high. It fails only if memory runs out.
pub fn long_report(alloc: Global) -> Result<Vec<u8>, AllocError> {
    let mut out = Vec::from_slice(
        alloc,
        b"report 1\npage 1 one\ncolumn 1 text height 100000 natural 20409 set stretch fil 79591/65536\n",
    )?;
    for k in 1..BOXES + 1 {
        put_line(&mut out, b"box b", k, b" ")?;
        put_line(&mut out, b"", k + 8, b" 1 0\n")?;
    }
    for k in 1..FLOATS + 1 {
        put_line(&mut out, b"float x", k, b" 1 here ")?;
        put_line(&mut out, b"", k + BOXES + 8, b" 1\n")?;
    }
    out.extend_from_slice(b"end pages 1 boxes 20000 floats 400 warnings 0\n")?;
    Ok(out)
}
