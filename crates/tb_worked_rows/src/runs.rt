//! A run of the program over ends in memory.

use crate::ModeRow;
use std::alloc::{AllocError, Global};
use tb_io::{MemSink, MemSource};
use tb_top::run;

/// What a run left.
#[derive(Drop)]
pub struct Left {
    /// The exit status.
    pub status: u8,
    /// Standard output.
    pub out: MemSink,
    /// Standard error.
    pub err: MemSink,
}

/// The calls that fail at each end, by their numbers from 1 on.
#[derive(Clone, Copy)]
pub struct Failing<'a> {
    /// The reads.
    pub reads: &'a [u64],
    /// The writes to standard output.
    pub writes: &'a [u64],
    /// The writes to standard error.
    pub lines: &'a [u64],
}

/// No call fails.
pub const NONE: Failing<'static> = Failing {
    reads: &[],
    writes: &[],
    lines: &[],
};

/// A galley of 125 bytes.
pub const INPUT: &[u8] =
    b"galley 1\nset textheight 30\nset topskip 10\nset maxdepth 0\nset bottom flush\nbox a 12 0\nglue 0\nbox b 12 0\nglue 0\nbox c 12 0\nend\n";

/// Its report.
pub const REPORT: &[u8] =
    b"report 1\npage 1 one\ncolumn 1 text height 30 natural 24 set none\nbox a 0 12 0\nbox b 12 12 0\npage 2 one\ncolumn 1 text height 30 natural 12 set stretch fil 18/65536\nbox c 0 12 0\nend pages 2 boxes 3 floats 0 warnings 0\n";

/// Runs with no words on an input that is read by pieces of 50 bytes. It fails only if memory runs out.
pub fn run_on(alloc: Global, input: &[u8], failing: &Failing<'_>) -> Result<Left, AllocError> {
    run_with(alloc, &[], input, failing)
}

/// The same with words, the program's name the first.
pub fn run_with(
    alloc: Global,
    words: &[String],
    input: &[u8],
    failing: &Failing<'_>,
) -> Result<Left, AllocError> {
    run_by(alloc, words, input, 50, failing)
}

/// The same on an input that is read by pieces of this size, or of one byte if it is 0.
pub fn run_by(
    alloc: Global,
    words: &[String],
    input: &[u8],
    piece: usize,
    failing: &Failing<'_>,
) -> Result<Left, AllocError> {
    let piece = piece.max(1);
    let mut source = MemSource::new(input.to_vec(alloc)?, piece, failing.reads.to_vec(alloc)?);
    let mut out = MemSink::new(alloc, failing.writes.to_vec(alloc)?);
    let mut err = MemSink::new(alloc, failing.lines.to_vec(alloc)?);
    let status = run(alloc, words, &mut source, &mut out, &mut err).code();
    Ok(Left { status, out, err })
}

/// The program's name and the words of a row.
pub fn words_of(alloc: Global, row: &ModeRow) -> Result<Vec<String>, AllocError> {
    let mut words = vec![in alloc; String::from_str(alloc, "galley_pages")?]?;
    for word in row.words {
        words.push(String::from_str(alloc, word)?)?;
    }
    Ok(words)
}
