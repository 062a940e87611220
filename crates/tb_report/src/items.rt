//! The line of a node.
ghost use Rattle.std.specs.Prelude.{◌≡◌, ◌≤◌, ◌+◌, ◌++◌, drop, length, codes, Some, None};
ghost use Rattle.tb_node.specs.PlainNodes.{matter_of};
ghost use Rattle.tb_report.specs.Lines.{where_text, side_text, float_label, box_line, rule_line, matter_line};
ghost use Rattle.tb_text.specs.Fields.{and_number, and_count, and_text, line};
ghost use Rattle.tb_text.specs.Fronts.{PutsAfter};

use crate::fields::put_named;
use std::alloc::AllocError;
use tb_node::{Kind, Name, Node, RuleOf, Side, What, Where};
use tb_text::{end_line, put, put_amount, put_count, put_field, put_text, write_field, write_text};

/// The word of a place of a float.
pub fn where_text(place: Where) -> &'static [u8]
    ensures { result.now ≡ where_text place }
{
    match place {
        Where::Here => b"here",
        Where::Top => b"top",
        Where::Bottom => b"bottom",
        Where::Page => b"page",
        Where::Double => b"wide",
        Where::Deferred => b"deferred",
    }
}

/// The word of the side of a marginal note.
pub fn side_text(side: Side) -> &'static [u8]
    ensures { result.now ≡ side_text side }
{
    match side {
        Side::Left => b"left",
        Side::Right => b"right",
    }
}

// A top and the end of the line.
fn end_at(out: &mut Vec<u8>, top: i128) -> Result<(), AllocError>
    ensures { PutsAfter result out.old.items (line (and_number top)) out.new.items }
{
    put_field(out, top)?;
    end_line(out)
}

// A top, a height and a depth, and the end of the line. If none is below 0, as hardly any is, all three are written at
// once.
#[inline(always)]
fn end_box(out: &mut Vec<u8>, top: i128, height: i64, depth: i64) -> Result<(), AllocError>
    ensures { PutsAfter result out.old.items (line (and_number top ++ and_number height ++ and_number depth)) out.new.items }
{
    if top < 0 || top > i128::from(u64::MAX) || height < 0 || depth < 0 {
        return end_any_box(out, top, height, depth);
    }
    end_plain_box(out, top as u64, height as u64, depth as u64)
}

#[cold]
#[inline(never)]
fn end_any_box(out: &mut Vec<u8>, top: i128, height: i64, depth: i64) -> Result<(), AllocError>
    ensures { PutsAfter result out.old.items (line (and_number top ++ and_number height ++ and_number depth)) out.new.items }
{
    put_field(out, top)?;
    end_sizes(out, height, depth)
}

fn end_plain_box(out: &mut Vec<u8>, top: u64, height: u64, depth: u64) -> Result<(), AllocError>
    ensures { PutsAfter result out.old.items (line (and_count top ++ and_count height ++ and_count depth)) out.new.items }
{
    let mut text = [0; 64];
    let start = write_end(top, height, depth, &mut text, 64);
    put(out, &text[start..])
}

// Writes a top, a height and a depth and the end of the line so that they end at `end`, and returns where they start.
#[inline(always)]
fn write_end(top: u64, height: u64, depth: u64, text: &mut [u8], end: usize) -> usize
    requires room { 64 ≤ end }
    requires inside { end ≤ length text.old }
    ensures start { end ≤ result + 64 }
    ensures before { result ≤ end }
    ensures same { length text.new ≡ length text.old }
    ensures written { drop result text.new ≡ line (and_count top ++ and_count height ++ and_count depth) ++ drop end text.old }
{
    let at = write_text(b"\n", text, end);
    let at = write_field(depth, text, at);
    let at = write_field(height, text, at);
    write_field(top, text, at)
}

// A height and a depth, and the end of the line.
fn end_sizes(out: &mut Vec<u8>, height: i64, depth: i64) -> Result<(), AllocError>
    ensures { PutsAfter result out.old.items (line (and_number height ++ and_number depth)) out.new.items }
{
    put_amount(out, height)?;
    put_amount(out, depth)?;
    end_line(out)
}

// A line of a text, a top, a height and a depth. Few lines are such, so it is kept out of the way of boxes.
#[inline(never)]
fn put_sized(
    out: &mut Vec<u8>,
    text: &[u8],
    top: i128,
    height: i64,
    depth: i64,
) -> Result<(), AllocError>
    ensures { PutsAfter result out.old.items (line (text.now ++ and_number top ++ and_number height ++ and_number depth)) out.new.items }
{
    put(out, text)?;
    end_box(out, top, height, depth)
}

// The line of a box or a rule that came from an item. If no number is below 0, it is written at once.
#[inline(always)]
fn put_item(
    out: &mut Vec<u8>,
    word: &[u8],
    name: &Name,
    top: i128,
    height: i64,
    depth: i64,
) -> Result<(), AllocError>
    requires { length word.now ≤ 8 }
    ensures { PutsAfter result out.old.items (line (word.now ++ name.now ++ and_number top ++ and_number height ++ and_number depth)) out.new.items }
{
    let known = name.as_bytes();
    if known.len() > 63 || top < 0 || top > i128::from(u64::MAX) || height < 0 || depth < 0 {
        return put_any_item(out, word, name, top, height, depth);
    }
    put_plain_item(out, word, known, top as u64, height as u64, depth as u64)
}

#[cold]
#[inline(never)]
fn put_any_item(
    out: &mut Vec<u8>,
    word: &[u8],
    name: &Name,
    top: i128,
    height: i64,
    depth: i64,
) -> Result<(), AllocError>
    ensures { PutsAfter result out.old.items (line (word.now ++ name.now ++ and_number top ++ and_number height ++ and_number depth)) out.new.items }
{
    put_named(out, word, name.as_bytes())?;
    end_box(out, top, height, depth)
}

#[inline(always)]
fn put_plain_item(
    out: &mut Vec<u8>,
    word: &[u8],
    name: &[u8],
    top: u64,
    height: u64,
    depth: u64,
) -> Result<(), AllocError>
    requires word { length word.now ≤ 8 }
    requires name { length name.now ≤ 63 }
    ensures { PutsAfter result out.old.items ((word.now ++ name.now) ++ line (and_count top ++ and_count height ++ and_count depth)) out.new.items }
{
    let mut text = [0; 136];
    let at = write_end(top, height, depth, &mut text, 136);
    let start = write_named(word, name, &mut text, at);
    put(out, &text[start..])
}

// Writes a word and a name so that they end at `end`, and returns where they start.
#[inline(always)]
fn write_named(word: &[u8], name: &[u8], text: &mut [u8], end: usize) -> usize
    requires room { length word.now + length name.now ≤ end }
    requires inside { end ≤ length text.old }
    ensures before { result ≤ end }
    ensures same { length text.new ≡ length text.old }
    ensures written { drop result text.new ≡ (word.now ++ name.now) ++ drop end text.old }
{
    let at = write_text(name, text, end);
    write_text(word, text, at)
}

/// Puts the word of a float, its name, its class and its place; of a title over both columns, which has class 0, the word
/// and the name.
pub fn put_float_label(
    out: &mut Vec<u8>,
    name: &Name,
    class: u8,
    place: Where,
) -> Result<(), AllocError>
    ensures { PutsAfter result out.old.items (float_label name.now class place) out.new.items }
{
    if class == 0 {
        put_named(out, b"head ", name.as_bytes())
    } else {
        put_classed(out, name, class, place)
    }
}

// The word of a float, its name, its class and its place.
fn put_classed(out: &mut Vec<u8>, name: &Name, class: u8, place: Where) -> Result<(), AllocError>
    ensures { PutsAfter result out.old.items (codes "float " ++ name.now ++ and_count class ++ and_text (where_text place)) out.new.items }
{
    put_named(out, b"float ", name.as_bytes())?;
    put_count(out, u64::from(class))?;
    put_text(out, where_text(place))
}

// The line of a float. If it is no title and no number is below 0, it is written at once. It is kept out of the way of boxes,
// which are more.
#[inline(never)]
fn put_float(
    out: &mut Vec<u8>,
    name: &Name,
    class: u8,
    place: Where,
    top: i128,
    height: i64,
) -> Result<(), AllocError>
    ensures { PutsAfter result out.old.items (line (float_label name.now class place ++ and_number top ++ and_number height)) out.new.items }
{
    let known = name.as_bytes();
    if class == 0 || known.len() > 63 || top < 0 || top > i128::from(u64::MAX) || height < 0 {
        return put_any_float(out, name, class, place, top, height);
    }
    put_plain_float(out, known, class, place, top as u64, height as u64)
}

#[cold]
#[inline(never)]
fn put_any_float(
    out: &mut Vec<u8>,
    name: &Name,
    class: u8,
    place: Where,
    top: i128,
    height: i64,
) -> Result<(), AllocError>
    ensures { PutsAfter result out.old.items (line (float_label name.now class place ++ and_number top ++ and_number height)) out.new.items }
{
    put_float_label(out, name, class, place)?;
    end_height(out, top, height)
}

#[inline(always)]
fn put_plain_float(
    out: &mut Vec<u8>,
    name: &[u8],
    class: u8,
    place: Where,
    top: u64,
    height: u64,
) -> Result<(), AllocError>
    requires { length name.now ≤ 63 }
    ensures { PutsAfter result out.old.items ((codes "float " ++ name.now) ++ and_count class ++ and_text (where_text place) ++ line (and_count top ++ and_count height)) out.new.items }
{
    let mut text = [0; 160];
    let at = write_height(top, height, &mut text, 160);
    let at = write_place(class, where_text(place), &mut text, at);
    let start = write_named(b"float ", name, &mut text, at);
    put(out, &text[start..])
}

// Writes a top and a height and the end of the line so that they end at `end`, and returns where they start.
#[inline(always)]
fn write_height(top: u64, height: u64, text: &mut [u8], end: usize) -> usize
    requires room { 43 ≤ end }
    requires inside { end ≤ length text.old }
    ensures start { end ≤ result + 43 }
    ensures before { result ≤ end }
    ensures same { length text.new ≡ length text.old }
    ensures written { drop result text.new ≡ line (and_count top ++ and_count height) ++ drop end text.old }
{
    let below = write_text(b"\n", text, end);
    let below = write_field(height, text, below);
    write_field(top, text, below)
}

// Writes a class and a place so that they end at `end`, and returns where they start.
#[inline(always)]
fn write_place(class: u8, place: &[u8], text: &mut [u8], end: usize) -> usize
    requires place { length place.now ≤ 8 }
    requires room { 30 ≤ end }
    requires inside { end ≤ length text.old }
    ensures start { end ≤ result + 30 }
    ensures before { result ≤ end }
    ensures same { length text.new ≡ length text.old }
    ensures written { drop result text.new ≡ (and_count class ++ and_text place.now) ++ drop end text.old }
{
    let at = write_text(place, text, end);
    let at = write_text(b" ", text, at);
    write_field(u64::from(class), text, at)
}

// A top and a height, and the end of the line.
fn end_height(out: &mut Vec<u8>, top: i128, height: i64) -> Result<(), AllocError>
    ensures { PutsAfter result out.old.items (line (and_number top ++ and_number height)) out.new.items }
{
    put_field(out, top)?;
    put_amount(out, height)?;
    end_line(out)
}

// A word, the name of a marginal note, its side and by how much it is moved.
fn put_moved(
    out: &mut Vec<u8>,
    word: &[u8],
    name: &Name,
    side: Side,
    shift: i64,
) -> Result<(), AllocError>
    ensures { PutsAfter result out.old.items (word.now ++ name.now ++ and_text (side_text side) ++ and_number shift) out.new.items }
{
    put_named(out, word, name.as_bytes())?;
    put_text(out, side_text(side))?;
    put_amount(out, shift)
}

// The line of a marginal note's box, after this word.
#[inline(never)]
fn put_noted(
    out: &mut Vec<u8>,
    word: &[u8],
    name: &Name,
    side: Side,
    shift: i64,
    top: i128,
    height: i64,
    depth: i64,
) -> Result<(), AllocError>
    ensures { PutsAfter result out.old.items (line (word.now ++ name.now ++ and_text (side_text side) ++ and_number shift ++ and_number top ++ and_number height ++ and_number depth)) out.new.items }
{
    put_moved(out, word, name, side, shift)?;
    end_box(out, top, height, depth)
}

// A line of a word, a name and a top.
fn put_at(out: &mut Vec<u8>, word: &[u8], name: &Name, top: i128) -> Result<(), AllocError>
    ensures { PutsAfter result out.old.items (line (word.now ++ name.now ++ and_number top)) out.new.items }
{
    put_named(out, word, name.as_bytes())?;
    end_at(out, top)
}

fn put_box(
    out: &mut Vec<u8>,
    what: &What,
    top: i128,
    height: i64,
    depth: i64,
) -> Result<(), AllocError>
    ensures { PutsAfter result out.old.items (box_line what.now top height depth) out.new.items }
{
    match what {
        What::Text(name) => put_item(out, b"box ", name, top, height, depth),
        What::Blank => Ok(()),
        What::Float {
            name,
            class,
            place,
            ..
        } => put_float(out, name, *class, *place, top, height),
        What::Margin {
            name,
            side,
            shift,
            height,
            depth,
            ..
        } => put_noted(out, b"margin ", name, *side, *shift, top, *height, *depth),
    }
}

fn put_rule(
    out: &mut Vec<u8>,
    of: &RuleOf,
    top: i128,
    height: i64,
    depth: i64,
) -> Result<(), AllocError>
    ensures { PutsAfter result out.old.items (rule_line of.now top height depth) out.new.items }
{
    match of {
        RuleOf::Item(name) => put_item(out, b"rule ", name, top, height, depth),
        RuleOf::Footnotes => put_sized(out, b"footrule", top, height, depth),
        RuleOf::Floats => put_sized(out, b"floatrule", top, height, depth),
    }
}

/// Writes the line of a node whose top is at this many scaled points; most kinds have none.
pub(crate) fn put_node(out: &mut Vec<u8>, node: &Node, top: i128) -> Result<(), AllocError>
    ensures { PutsAfter result out.old.items (matter_line (matter_of node.now.kind) top) out.new.items }
{
    match &node.kind {
        Kind::Hbox {
            what,
            height,
            depth,
        } => put_box(out, what, top, *height, *depth),
        Kind::Rule { of, height, depth } => put_rule(out, of, top, *height, *depth),
        Kind::Mark(name) => put_at(out, b"mark ", name, top),
        Kind::Note(name) => put_at(out, b"note ", name, top),
        Kind::Skip(_) => Ok(()),
        Kind::Kern(_) => Ok(()),
        Kind::Pen(_) => Ok(()),
        Kind::Whatsit => Ok(()),
        Kind::Ins(_) => Ok(()),
        Kind::Act(_) => Ok(()),
    }
}
