//! Reads a text of paragraphs line by line.
ghost use Rattle.std.specs.Prelude.{◌≡◌, ◌<◌, ◌≤◌, ◌+◌, length, OnOk, IfOk, IfSome, Option, None};
ghost use Rattle.std.specs.List.{fold};
ghost use Rattle.tb_text.specs.Lines.{lines_of};
ghost use Rattle.tb_lines.specs.Grammar.{reading, HasRoom};
ghost use Rattle.tb_lines.specs.Line.{line_left};
ghost use Rattle.tb_lines.specs.ValidText.{IsValidText};
ghost use Rattle.tb_lines.specs.Reader.{start, take_said, verdict, Answers};

use crate::LinesFault;
use crate::contents::{Content, read_content};
use crate::draft::Draft;
use crate::text::Text;
use crate::words::{Word, count_with, item_cause, missing_cause, next_phase, place_cause, word_of};
use std::alloc::{AllocError, Global};
use tb_galley::{At, Cause, Fault, Fields, Phase, begins_comment, end_cause, is_visible};
use tb_text::{split_field, split_line};

const INPUT_LIMIT: usize = tb_galley::INPUT_LIMIT as usize;

const MAX_LINE: usize = 255;

// The word of a line and what it says, or nothing if the line is skipped.
#[tactic(auto, unfolding(crate::specs::Line::line_left, crate::specs::Line::content_line))]
fn read_line(
    phase: Phase,
    count: u32,
    inside: Option<usize>,
    line: &[u8],
) -> Result<Option<(Word, Content)>, At>
    ensures read { result ≡ line_left phase count inside line.now }
    ensures room { IfOk result (λ o. IfSome o (λ w. HasRoom inside w.1)) }
{
    if line.len() > MAX_LINE {
        return Err(At::new(0, Cause::LineLength));
    }
    let Some((head, rest)) = split_field(line) else {
        return Ok(None);
    };
    if begins_comment(head) {
        return Ok(None);
    }
    let word = word_of(head);
    if !is_visible(head, word.is_some()) {
        return Err(At::new(1, Cause::NotAscii));
    }
    if let Some(cause) = place_cause(phase, word) {
        return Err(At::new(1, cause));
    }
    let Some(word) = word else {
        return Ok(None);
    };
    if let Some(cause) = item_cause(count, inside, word) {
        return Err(At::new(1, cause));
    }
    let mut fields = Fields {
        rest,
        number: 2,
        missing: missing_cause(word),
    };
    let content = read_content(word, &mut fields)?;
    fields.end()?;
    Ok(Some((word, content)))
}

/// Reads a text line by line.
#[derive(Drop)]
pub struct Reader {
    lines: u32,
    phase: Phase,
    count: u32,
    draft: Draft,
    first: Option<Fault>,
}

impl Reader {
    fn new(alloc: Global) -> Reader
        ensures { result ≡ start }
    {
        Reader {
            lines: 0,
            phase: Phase::Start,
            count: 0,
            draft: Draft::new(alloc),
            first: None,
        }
    }

    // Takes one more line; after a fault all others are passed over.
    fn take(&mut self, alloc: Global, line: &[u8]) -> Result<(), AllocError>
        requires lines { self.old.lines < 4294967295 }
        requires count { self.old.count < 4294967295 }
        ensures step { OnOk result (self.new ≡ take_said self.old line.now) }
        ensures lines { self.new.lines ≤ self.old.lines + 1 }
        ensures count { self.new.count ≤ self.old.count + 1 }
    {
        if self.first.is_some() {
            return Ok(());
        }
        let number = self.lines + 1;
        match read_line(self.phase, self.count, self.draft.inside(), line) {
            Ok(None) => {
                self.lines = number;
            }
            Ok(Some((word, content))) => {
                self.draft.add(alloc, content)?;
                self.lines = number;
                self.phase = next_phase(self.phase, word);
                self.count = count_with(self.count, word);
            }
            Err(at) => {
                self.first = Some(at.on_line(number));
            }
        }
        Ok(())
    }

    fn finish(self) -> Result<Text, Fault>
        requires { self.lines < 4294967295 }
        ensures { result ≡ verdict self }
    {
        let Reader {
            lines,
            phase,
            count: _,
            draft,
            first,
        } = self;
        if let Some(fault) = first {
            return Err(fault);
        }
        if let Some(cause) = end_cause(phase, Cause::UnclosedPar) {
            return Err(At::new(0, cause).on_line(lines + 1));
        }
        let Draft {
            params,
            paragraphs,
            current: _,
        } = draft;
        Ok(Text { params, paragraphs })
    }
}

fn read_all(alloc: Global, bytes: &[u8]) -> Result<Reader, AllocError>
    requires { length bytes.now ≤ 8388608 }
    ensures read { IfOk result (λ r. r ≡ fold take_said start (lines_of bytes.now)) }
    ensures lines { IfOk result (λ r. r.lines ≤ 8388608) }
{
    let mut reader = Reader::new(alloc);
    let mut rest = bytes;
    'lines: while !rest.is_empty() {
        let (line, after) = split_line(rest);
        reader.take(alloc, line)?;
        rest = after;
    }
    Ok(reader)
}

// The text, or its first fault.
fn read_text(alloc: Global, bytes: &[u8]) -> Result<Result<Text, Fault>, AllocError>
    ensures { IfOk result (λ answer. answer ≡ reading bytes.now) }
{
    if bytes.len() > INPUT_LIMIT {
        return Ok(Err(Fault {
            line: 0,
            field: 0,
            cause: Cause::InputSize,
        }));
    }
    let reader = read_all(alloc, bytes)?;
    Ok(reader.finish())
}

/// Reads a text. It returns `At` exactly if the text has a fault, with the first one: that of the earliest line, in it of
/// the earliest field, and there of the cause that is first in [`Cause`]. All values of a text that it returns are in
/// their ranges.
pub fn read_lines(alloc: Global, bytes: &[u8]) -> Result<Text, LinesFault>
    ensures grammar { Answers result (reading bytes.now) }
    ensures valid { IfOk result IsValidText }
{
    match read_text(alloc, bytes) {
        Ok(Ok(text)) => Ok(text),
        Ok(Err(fault)) => Err(LinesFault::At {
            line: fault.line,
            field: fault.field,
            cause: fault.cause,
        }),
        Err(_) => Err(LinesFault::Memory),
    }
}
