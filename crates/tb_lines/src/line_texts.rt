//! The galley of the lines.
ghost use Rattle.std.specs.Prelude.{◌≡◌, ◌<◌, ◌+◌, ◌++◌, ◌^◌, length, OnOk, IfOk, Option};
ghost use Rattle.tb_lines.specs.LeastSolution.{IsLeastOf};
ghost use Rattle.tb_lines.specs.Entries.{list_of};
ghost use Rattle.tb_lines.specs.LineText.{width_text, glue_line, interline, penalty_after, penalty_line, penalty_before, space_before, box_line, one_line, entry_size, joined_size, size_of, line_sizes, lines_text, depth_after, paragraph_text, paragraph_depth, paragraphs_text, AreWithin, AreLeast, Writes, line_text};

use crate::entries::{Entry, list_of};
use crate::solution::Solution;
use crate::text::{Item, LineParams, Paragraph, Text};
use std::alloc::{AllocError, Global};
use tb_text::{put, put_counted};

// What follows the width of glue that neither stretches nor shrinks.
const FIXED: &[u8] = b" plus 0 minus 0\n";

/// The height and the depth of a line, in sp.
#[derive(Clone, Copy)]
pub struct Size {
    /// The height, in sp.
    pub height: u32,
    /// The depth, in sp.
    pub depth: u32,
}

fn put_width(out: &mut Vec<u8>, width: u32) -> Result<(), AllocError>
    ensures { OnOk result (out.new.items ≡ out.old.items ++ width_text width) }
{
    put_counted(out, b"glue ", u64::from(width))
}

fn put_glue(out: &mut Vec<u8>, width: u32) -> Result<(), AllocError>
    ensures { OnOk result (out.new.items ≡ out.old.items ++ glue_line width) }
{
    put_width(out, width)?;
    put(out, FIXED)
}

// The glue between a line and the one before it, in sp (TeX: The Program §679).
fn interline(params: &LineParams, above: u32, height: u32) -> u32
    ensures { result ≡ interline params.now above height }
{
    let sum = u64::from(above) + u64::from(height);
    if u64::from(params.baseline_skip) < sum {
        params.line_skip
    } else {
        (u64::from(params.baseline_skip) - sum) as u32
    }
}

// The penalty after a line (TeX: The Program §890).
fn penalty_after(params: &LineParams, number: usize, count: usize) -> u64
    requires { number < 2 ^ 63 }
    ensures { result ≡ penalty_after params.now number count }
{
    let club = if number == 1 {
        u64::from(params.club_penalty)
    } else {
        0
    };
    let widow = if number + 1 == count {
        u64::from(params.widow_penalty)
    } else {
        0
    };
    club + widow
}

fn put_penalty(out: &mut Vec<u8>, penalty: u64) -> Result<(), AllocError>
    ensures { OnOk result (out.new.items ≡ out.old.items ++ penalty_line penalty) }
{
    if penalty == 0 {
        return Ok(());
    }
    put_counted(out, b"penalty ", penalty)?;
    put(out, b"\n")
}

fn put_penalty_before(
    out: &mut Vec<u8>,
    params: &LineParams,
    number: usize,
    count: usize,
) -> Result<(), AllocError>
    requires low { 0 < number }
    requires few { number < 2 ^ 63 }
    ensures { OnOk result (out.new.items ≡ out.old.items ++ penalty_before params.now number count) }
{
    if number == 1 {
        return Ok(());
    }
    put_penalty(out, penalty_after(params, number - 1, count))
}

fn put_space(
    out: &mut Vec<u8>,
    params: &LineParams,
    number: usize,
    above: Option<u32>,
    height: u32,
) -> Result<(), AllocError>
    ensures { OnOk result (out.new.items ≡ out.old.items ++ space_before params.now number above height) }
{
    let Some(above) = above else {
        return Ok(());
    };
    if number == 1 {
        put_glue(out, params.par_skip)?;
    }
    put_glue(out, interline(params, above, height))
}

fn put_box(out: &mut Vec<u8>, name: &[u8], number: usize, size: Size) -> Result<(), AllocError>
    ensures { OnOk result (out.new.items ≡ out.old.items ++ box_line name.now number size) }
{
    put(out, b"box ")?;
    put(out, name)?;
    put_counted(out, b".", number as u64)?;
    put_counted(out, b" ", u64::from(size.height))?;
    put_counted(out, b" ", u64::from(size.depth))?;
    put(out, b"\n")
}

fn put_line(
    out: &mut Vec<u8>,
    params: &LineParams,
    name: &[u8],
    count: usize,
    number: usize,
    above: Option<u32>,
    size: Size,
) -> Result<(), AllocError>
    requires low { 0 < number }
    requires few { number < 2 ^ 63 }
    ensures { OnOk result (out.new.items ≡ out.old.items ++ one_line params.now name.now count number above size) }
{
    put_penalty_before(out, params, number, count)?;
    put_space(out, params, number, above, size.height)?;
    put_box(out, name, number, size)
}

// The lines of a paragraph, after a line of this depth; returns the depth of the last one.
fn put_lines(
    out: &mut Vec<u8>,
    params: &LineParams,
    name: &[u8],
    sizes: &[Size],
    above: Option<u32>,
) -> Result<Option<u32>, AllocError>
    ensures { IfOk result (λ below. Writes out.old.items (lines_text params.now name.now (length sizes.now) 1 above sizes.now) (depth_after above sizes.now) out.new.items below) }
{
    let mut below = above;
    for (k, size) in sizes.iter().enumerate() {
        put_line(out, params, name, sizes.len(), k + 1, below, *size)?;
        below = Some(size.depth);
    }
    Ok(below)
}

fn entry_size(entry: &Entry) -> Size
    ensures { result ≡ entry_size entry.now }
{
    match *entry {
        Entry::Item(
            Item::Word {
                width: _,
                height,
                depth,
            },
        ) => Size { height, depth },
        _ => Size {
            height: 0,
            depth: 0,
        },
    }
}

fn joined_size(a: Size, b: Size) -> Size
    ensures { result ≡ joined_size a b }
{
    Size {
        height: a.height.max(b.height),
        depth: a.depth.max(b.depth),
    }
}

// The greatest height and the greatest depth of the words.
fn size_of(entries: &[Entry]) -> Size
    ensures { result ≡ size_of entries.now }
{
    let mut size = Size {
        height: 0,
        depth: 0,
    };
    for entry in entries {
        size = joined_size(size, entry_size(entry));
    }
    size
}

// The sizes of the lines that breaks make.
fn line_sizes(alloc: Global, entries: &[Entry], breaks: &[usize]) -> Result<Vec<Size>, AllocError>
    requires { AreWithin 0 (length entries.now) breaks.now }
    ensures { IfOk result (λ v. v.items ≡ line_sizes entries.now Option.None breaks.now) }
{
    let mut sizes = Vec::new(alloc);
    let mut start = 0;
    for place in breaks {
        sizes.push(size_of(&entries[start..*place]))?;
        start = *place + 1;
    }
    Ok(sizes)
}

// The lines of a paragraph, after a line of this depth; returns the depth of the last one.
fn put_paragraph(
    alloc: Global,
    out: &mut Vec<u8>,
    params: &LineParams,
    paragraph: &Paragraph,
    solution: &Solution,
    above: Option<u32>,
) -> Result<Option<u32>, AllocError>
    requires { IsLeastOf params.now paragraph.now.items solution.now }
    ensures { IfOk result (λ below. Writes out.old.items (paragraph_text params.now above paragraph.now solution.now) (paragraph_depth above paragraph.now solution.now) out.new.items below) }
{
    let entries = list_of(alloc, paragraph.items.as_slice())?;
    let sizes = line_sizes(alloc, entries.as_slice(), solution.breaks())?;
    put_lines(
        out,
        params,
        paragraph.name.as_bytes(),
        sizes.as_slice(),
        above,
    )
}

fn put_paragraphs(
    alloc: Global,
    out: &mut Vec<u8>,
    params: &LineParams,
    paragraphs: &[Paragraph],
    solutions: &[Solution],
) -> Result<(), AllocError>
    requires { AreLeast params.now paragraphs.now solutions.now }
    ensures { OnOk result (out.new.items ≡ out.old.items ++ paragraphs_text params.now Option.None paragraphs.now solutions.now) }
{
    let mut above = None;
    for (n, paragraph) in paragraphs.iter().enumerate() {
        above = put_paragraph(alloc, out, params, paragraph, &solutions[n], above)?;
    }
    Ok(())
}

/// The galley of the lines of a text, given the least solution of each paragraph, in order. It fails only if memory runs
/// out.
#[tactic(auto, unfolding(crate::specs::LineText::line_text))]
pub fn line_text(alloc: Global, text: &Text, solutions: &[Solution]) -> Result<Vec<u8>, AllocError>
    requires { AreLeast text.now.params text.now.paragraphs solutions.now }
    ensures { IfOk result (λ v. v.items ≡ line_text text.now solutions.now) }
{
    let mut out = Vec::new(alloc);
    put(&mut out, b"galley 1\n")?;
    put_paragraphs(
        alloc,
        &mut out,
        &text.params,
        text.paragraphs.as_slice(),
        solutions,
    )?;
    put(&mut out, b"end\n")?;
    Ok(out)
}
