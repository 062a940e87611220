//! Reads a galley in pieces.
ghost use Rattle.std.specs.Prelude.{◌≡◌, ◌<◌, ◌≤◌, ◌+◌, ◌++◌, ◌∷◌, ◌⊎◌, ℕ, List, [], length, OnOk, OnErr, IfOk, IfSome, IsErr};
ghost use Rattle.std.specs.List.{fold};
ghost use Rattle.std.specs.Str.Lines.{strip_carriage_return};
ghost use Rattle.tb_galley.specs.Grammar.{grammar};
ghost use Rattle.tb_galley.specs.GalleyReader.{take_said, verdict, Answers};
ghost use Rattle.tb_galley.specs.Unfinished.{kept_line};
ghost use Rattle.tb_galley.specs.Pieces.{take_byte, HasRoom, line_ended, with_last, fed, fed_more, without_memory, IsOutOfMemory};
ghost use Rattle.tb_galley.specs.Valid.{IsValid};

use crate::galley_reader::LineReader;
use crate::unfinished::Unfinished;
use crate::{Cause, Fault, Galley, GalleyFault};
use std::alloc::{AllocError, Global};
use std::marker::Model;
use tb_text::{split_at_feed, without_return};

/// An input, as a galley, has no more bytes than this.
pub const INPUT_LIMIT: u64 = 8_388_608;

/// What the bytes so far gave.
#[derive(Drop)]
pub enum Progress {
    /// The lines that ended, and the line that has no end yet.
    Lines {
        /// The reader of the lines that ended.
        lines: LineReader,
        /// The line that has no end yet.
        unfinished: Unfinished,
    },
    /// They are more than an input may have.
    TooLong,
    /// Memory ran out while they were read.
    OutOfMemory,
}

impl Progress {
    // Reads one more piece.
    fn read(&mut self, alloc: Global, piece: &[u8]) -> Result<(), AllocError>
        requires { HasRoom self.old (length piece.now) }
        ensures ok { OnOk result (self.new ≡ fold take_byte self.old piece.now) }
        ensures err { OnErr result (self.new ≡ Progress.OutOfMemory) }
        ensures stays { self.old ≡ Progress.OutOfMemory → IsErr result }
    {
        match self {
            Progress::Lines { lines, unfinished } => {
                if read_piece(alloc, lines, unfinished, piece).is_ok() {
                    return Ok(());
                }
            }
            Progress::TooLong => return Ok(()),
            Progress::OutOfMemory => {}
        }
        *self = Progress::OutOfMemory;
        Err(AllocError)
    }

    // The input is too long, whatever is in it.
    fn exceed(&mut self) -> Result<(), AllocError>
        ensures ok { OnOk result (self.new ≡ Progress.TooLong) }
        ensures err { OnErr result (self.new ≡ Progress.OutOfMemory) }
        ensures stays { self.old ≡ Progress.OutOfMemory → IsErr result }
    {
        if let Progress::OutOfMemory = self {
            return Err(AllocError);
        }
        *self = Progress::TooLong;
        Ok(())
    }
}

// Reads one more piece: the lines that end in it are read, and what follows them is kept.
fn read_piece(
    alloc: Global,
    lines: &mut LineReader,
    unfinished: &mut Unfinished,
    piece: &[u8],
) -> Result<(), AllocError>
    requires lines { lines.old.lines + length piece.now < 4294967295 }
    requires count { lines.old.count + length piece.now < 4294967295 }
    ensures read { OnOk result (Progress.Lines lines.new unfinished.new ≡ fold take_byte (Progress.Lines lines.old unfinished.old) piece.now) }
{
    let mut rest = piece;
    'lines: while let Some((line, after)) = split_at_feed(rest) {
        end_line(alloc, lines, unfinished, line)?;
        rest = past_more_bare_lines(lines, line, after);
    }
    unfinished.append(rest);
    Ok(())
}

// What follows a line, past the lines that say nothing if it is as short as they are: they often follow one another.
#[inline(always)]
fn past_more_bare_lines<'a>(lines: &mut LineReader, line: &[u8], text: &'a [u8]) -> &'a [u8]
    requires lines { lines.old.lines + length text.now < 4294967295 }
    ensures read { fold take_byte (Progress.Lines lines.new []) result.now ≡ fold take_byte (Progress.Lines lines.old []) text.now }
    ensures lines { lines.new.lines + length result.now ≤ lines.old.lines + length text.now }
    ensures count { lines.new.count ≡ lines.old.count }
    ensures shorter { length result.now ≤ length text.now }
{
    if line.len() > 1 {
        return text;
    }
    past_bare_lines(lines, text)
}

// What follows the empty lines, and those of `#` alone, with which a text begins. They only count, so they are taken in one
// walk.
#[inline(never)]
fn past_bare_lines<'a>(lines: &mut LineReader, text: &'a [u8]) -> &'a [u8]
    requires lines { lines.old.lines + length text.now < 4294967295 }
    ensures read { fold take_byte (Progress.Lines lines.new []) result.now ≡ fold take_byte (Progress.Lines lines.old []) text.now }
    ensures lines { lines.new.lines + length result.now ≤ lines.old.lines + length text.now }
    ensures count { lines.new.count ≡ lines.old.count }
    ensures shorter { length result.now ≤ length text.now }
{
    let mut rest = text;
    'lines: while let Some(after) = after_bare_line(rest) {
        lines.take_empty();
        rest = after;
    }
    rest
}

// What follows the first line of a text, if that is empty or `#` alone and has no carriage return.
#[inline(always)]
fn after_bare_line(text: &[u8]) -> Option<&[u8]>
    ensures { IfSome result (λ r. (text.now ≡ 10 ∷ r.now) ⊎ (text.now ≡ 35 ∷ 10 ∷ r.now)) }
{
    match text {
        [b'\n', after @ ..] => Some(after),
        [b'#', b'\n', after @ ..] => Some(after),
        _ => None,
    }
}

// Takes the line that ends with these bytes. It is called at one place only, so that the reading of a line is inlined into
// the loop over them.
fn end_line(
    alloc: Global,
    lines: &mut LineReader,
    unfinished: &mut Unfinished,
    end: &[u8],
) -> Result<(), AllocError>
    requires lines { lines.old.lines < 4294967295 }
    requires count { lines.old.count < 4294967295 }
    ensures step { OnOk result (lines.new ≡ take_said lines.old (strip_carriage_return (kept_line (unfinished.old ++ end.now)))) }
    ensures before { kept_line unfinished.old ≡ unfinished.old }
    ensures next { unfinished.new ≡ [] }
    ensures lines { lines.new.lines ≤ lines.old.lines + 1 }
    ensures count { lines.new.count ≤ lines.old.count + 1 }
{
    if !unfinished.is_empty() {
        unfinished.append(end);
    }
    let taken = lines.take(alloc, without_return(line_ended(unfinished, end)));
    unfinished.clear();
    taken
}

// The line that ends with these bytes. If it began in an earlier piece, they are kept too; a line that lies whole in its
// piece is read there.
fn line_ended<'a>(unfinished: &'a Unfinished, end: &'a [u8]) -> &'a [u8]
    ensures { result.now ≡ line_ended unfinished.now end.now }
{
    if unfinished.is_empty() {
        return end;
    }
    unfinished.as_slice()
}

// Reads the last line, which ends with the text, as if a line feed followed.
fn read_last(
    alloc: Global,
    lines: &mut LineReader,
    unfinished: &mut Unfinished,
) -> Result<(), AllocError>
    requires lines { lines.old.lines ≤ 8388608 }
    requires count { lines.old.count ≤ 8388608 }
    ensures last { OnOk result (lines.new ≡ with_last lines.old unfinished.old) }
    ensures lines { OnOk result (lines.new.lines ≤ 8388609) }
{
    if unfinished.is_empty() {
        return Ok(());
    }
    read_piece(alloc, lines, unfinished, b"\n")
}

// What the lines give with the last one, which ends with the text.
fn end_text(
    alloc: Global,
    mut lines: LineReader,
    unfinished: &mut Unfinished,
) -> Result<Galley, GalleyFault>
    requires lines { lines.lines ≤ 8388608 }
    requires count { lines.count ≤ 8388608 }
    ensures { Answers result (verdict (with_last lines unfinished.old)) }
{
    let Ok(()) = read_last(alloc, &mut lines, unfinished) else {
        return Err(GalleyFault::Memory);
    };
    match lines.finish() {
        Ok(galley) => Ok(galley),
        Err(fault) => Err(GalleyFault::At(fault)),
    }
}

/// Reads a galley that comes in pieces, cut anywhere. It keeps what the lines gave, and of a line that has not ended no
/// more than shows that it is too long. In contracts it is the number of the bytes and what
/// they gave.
#[derive(Drop)]
pub struct Reader {
    alloc: Global,
    taken: u64,
    progress: Progress,
}

impl Model for Reader {
    ghost use Rattle.tb_galley.specs.Pieces.{Reading, IsReached};

    ghost Value = { Reading };

    ghost view = { λ r. record { taken = r.taken; progress = r.progress } };

    ghost invariant = { λ r. IsReached r.taken r.progress };
}

/// A reader that was fed nothing. It takes no memory.
pub fn new_reader(alloc: Global) -> Reader
    ensures { result ≡ fed [] }
{
    Reader {
        alloc,
        taken: 0,
        progress: Progress::Lines {
            lines: LineReader::new(alloc),
            unfinished: Unfinished::new(),
        },
    }
}

impl Reader {
    /// Reads one more piece, which may end anywhere and may be empty. The first fault of the text is kept for `finish`. An
    /// error means that memory ran out: every later call of `feed` and `finish` returns the same, and `taken` stays as it
    /// was before.
    pub fn feed(&mut self, piece: &[u8]) -> Result<(), AllocError>
        ensures ok { OnOk result (self.new ≡ fed_more self.old piece.now) }
        ensures joined { (bytes : List ℕ) → self.old ≡ fed bytes → OnOk result (self.new ≡ fed (bytes ++ piece.now)) }
        ensures err { OnErr result (self.new ≡ without_memory self.old) }
        ensures stays { IsOutOfMemory self.old → IsErr result }
    {
        let taken = self.taken.saturating_add(piece.len() as u64);
        if taken > INPUT_LIMIT {
            self.progress.exceed()?;
        } else {
            self.progress.read(self.alloc, piece)?;
        }
        self.taken = taken;
        Ok(())
    }

    /// How many bytes were fed. It saturates at the last value of a `u64`.
    pub fn taken(&self) -> u64
        ensures { result ≡ self.now.taken }
    {
        self.taken
    }

    /// What [`parse`] returns for all pieces joined: the galley, or the first fault.
    pub fn finish(self) -> Result<Galley, GalleyFault>
        ensures grammar { (bytes : List ℕ) → self ≡ fed bytes → Answers result (grammar bytes) }
        ensures valid { IfOk result IsValid }
        ensures memory { IsOutOfMemory self → result ≡ Err GalleyFault.Memory }
    {
        let Reader {
            alloc,
            taken: _,
            progress,
        } = self;
        match progress {
            Progress::Lines {
                lines,
                mut unfinished,
            } => end_text(alloc, lines, &mut unfinished),
            Progress::TooLong => Err(GalleyFault::At(Fault {
                line: 0,
                field: 0,
                cause: Cause::InputSize,
            })),
            Progress::OutOfMemory => Err(GalleyFault::Memory),
        }
    }
}

/// Reads a galley. It returns `At` exactly if the text has a fault, with the first one. All values of a galley that it
/// returns are in their ranges.
pub fn parse(alloc: Global, bytes: &[u8]) -> Result<Galley, GalleyFault>
    ensures grammar { Answers result (grammar bytes.now) }
    ensures valid { IfOk result IsValid }
{
    let mut reader = new_reader(alloc);
    match reader.feed(bytes) {
        Ok(()) => reader.finish(),
        Err(AllocError) => Err(GalleyFault::Memory),
    }
}
