//! Pages of one box each, so many that their report is longer than two pieces of 32768 bytes.

use crate::long_page::put_line;
use std::alloc::{AllocError, Global};

const PAGES: u32 = 1000;

/// The galley of these pages, as bytes. It fails only if memory runs out.
pub fn galley_of_many(alloc: Global) -> Result<Vec<u8>, AllocError> {
    let mut out = Vec::from_slice(
        alloc,
        b"galley 1\nset textheight 10\nset topskip 10\nset maxdepth 0\n",
    )?;
    for k in 1..PAGES + 1 {
        put_line(&mut out, b"box b", k, b" 10 0\npenalty -10000\n")?;
    }
    out.extend_from_slice(b"end\n")?;
    Ok(out)
}

/// The report of these pages, as bytes. It fails only if memory runs out.
pub fn report_of_many(alloc: Global) -> Result<Vec<u8>, AllocError> {
    let mut out = Vec::from_slice(alloc, b"report 1\n")?;
    for k in 1..PAGES + 1 {
        put_line(&mut out, b"page ", k, b" one\n")?;
        put_line(
            &mut out,
            b"column 1 text height 10 natural 10 set none\nbox b",
            k,
            b" 0 10 0\n",
        )?;
    }
    out.extend_from_slice(b"end pages 1000 boxes 1000 floats 0 warnings 0\n")?;
    Ok(out)
}
