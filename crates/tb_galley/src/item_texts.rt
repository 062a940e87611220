//! The canonical text of a galley's items.
ghost use Rattle.std.specs.Prelude.{◌≡◌, ◌++◌, OnOk};
ghost use Rattle.tb_galley.specs.CanonicalText.{text_if, places_text, wide_text, box_text, leaf_text, leaf_lines, paragraph_text, ending_text, foot_text, float_text, margin_text, head_text, enlarge_text, sides_text, pair_text, area_text, item_text, item_lines};
ghost use Rattle.tb_text.specs.Fields.{and_count, line};

use crate::glue_texts::put_glue;
use crate::value_texts::put_change;
use crate::{Item, ItemKind, Leaf, LeafKind};
use std::alloc::AllocError;
use tb_node::{Area, Float, Margin, Name, Places};
use tb_text::{put, put_amount, put_count, put_text, write_field};

// A word, a name, a height and a depth. It is inlined for each word, so that the word's length is known.
#[inline(always)]
fn put_box(
    out: &mut Vec<u8>,
    word: &[u8],
    name: &Name,
    height: i64,
    depth: i64,
) -> Result<(), AllocError>
    ensures { OnOk result (out.new.items ≡ out.old.items ++ box_text word.now name.now height depth) }
{
    put(out, word)?;
    put_text(out, name.as_bytes())?;
    put_pair(out, height, depth)
}

fn put_leaf(out: &mut Vec<u8>, leaf: &LeafKind) -> Result<(), AllocError>
    ensures { OnOk result (out.new.items ≡ out.old.items ++ leaf_text leaf.now) }
{
    match leaf {
        LeafKind::Hbox {
            name,
            height,
            depth,
        } => put_box(out, b"box", name, *height, *depth),
        LeafKind::Rule {
            name,
            height,
            depth,
        } => put_box(out, b"rule", name, *height, *depth),
        LeafKind::Skip(glue) => {
            put(out, b"glue")?;
            put_glue(out, glue)
        }
        LeafKind::Kern(width) => {
            put(out, b"kern")?;
            put_amount(out, *width)
        }
        LeafKind::Penalty(penalty) => {
            put(out, b"penalty")?;
            put_amount(out, *penalty)
        }
    }
}

fn put_leaf_line(out: &mut Vec<u8>, leaf: &LeafKind) -> Result<(), AllocError>
    ensures { OnOk result (out.new.items ≡ out.old.items ++ line (leaf_text leaf.now)) }
{
    put_leaf(out, leaf)?;
    put(out, b"\n")
}

fn put_if(out: &mut Vec<u8>, holds: bool, text: &[u8]) -> Result<(), AllocError>
    ensures { OnOk result (out.new.items ≡ out.old.items ++ text_if holds text.now) }
{
    if holds { put(out, text) } else { Ok(()) }
}

fn put_places(out: &mut Vec<u8>, bang: bool, places: &Places) -> Result<(), AllocError>
    ensures { OnOk result (out.new.items ≡ out.old.items ++ places_text bang places.now) }
{
    put(out, b" ")?;
    put_if(out, bang, b"!")?;
    put_if(out, places.h, b"h")?;
    put_if(out, places.t, b"t")?;
    put_if(out, places.b, b"b")?;
    put_if(out, places.p, b"p")
}

fn wide(wide: bool) -> &'static [u8]
    ensures { result.now ≡ wide_text wide }
{
    if wide { b" double" } else { b" single" }
}

fn put_float(out: &mut Vec<u8>, float: &Float) -> Result<(), AllocError>
    ensures { OnOk result (out.new.items ≡ out.old.items ++ float_text float.now) }
{
    put(out, b"float")?;
    put_text(out, float.name.as_bytes())?;
    put_count(out, u64::from(float.class))?;
    put(out, wide(float.wide))?;
    put_places(out, float.bang, &float.places)?;
    put_amount(out, float.height)
}

fn put_margin(out: &mut Vec<u8>, margin: &Margin) -> Result<(), AllocError>
    ensures { OnOk result (out.new.items ≡ out.old.items ++ margin_text margin.now) }
{
    put_sides(out, b"margin", margin)
}

fn put_sides(out: &mut Vec<u8>, word: &[u8], margin: &Margin) -> Result<(), AllocError>
    ensures { OnOk result (out.new.items ≡ out.old.items ++ sides_text word.now margin.now) }
{
    put_box(
        out,
        word,
        &margin.name,
        margin.left_height,
        margin.left_depth,
    )?;
    put_pair(out, margin.right_height, margin.right_depth)
}

fn put_pair(out: &mut Vec<u8>, height: i64, depth: i64) -> Result<(), AllocError>
    ensures { OnOk result (out.new.items ≡ out.old.items ++ pair_text height depth) }
{
    if height < 0 || depth < 0 {
        return put_any_pair(out, height, depth);
    }
    put_plain_pair(out, height as u64, depth as u64)
}

#[cold]
#[inline(never)]
fn put_any_pair(out: &mut Vec<u8>, height: i64, depth: i64) -> Result<(), AllocError>
    ensures { OnOk result (out.new.items ≡ out.old.items ++ pair_text height depth) }
{
    put_amount(out, height)?;
    put_amount(out, depth)
}

// A height and a depth that are not below 0, both at once.
fn put_plain_pair(out: &mut Vec<u8>, height: u64, depth: u64) -> Result<(), AllocError>
    ensures { OnOk result (out.new.items ≡ out.old.items ++ (and_count height ++ and_count depth)) }
{
    let mut line = [0; 42];
    let at = write_field(depth, &mut line, 42);
    let start = write_field(height, &mut line, at);
    put(out, &line[start..])
}

// A line of a word and a number.
fn put_degree(out: &mut Vec<u8>, word: &[u8], degree: u8) -> Result<(), AllocError>
    ensures { OnOk result (out.new.items ≡ out.old.items ++ line (word.now ++ and_count degree)) }
{
    put_number(out, word, u32::from(degree))
}

fn put_number(out: &mut Vec<u8>, word: &[u8], number: u32) -> Result<(), AllocError>
    ensures { OnOk result (out.new.items ≡ out.old.items ++ line (word.now ++ and_count number)) }
{
    put(out, word)?;
    put_count(out, u64::from(number))?;
    put(out, b"\n")
}

// A line of a word and what follows it.
fn put_line(out: &mut Vec<u8>, word: &[u8], text: &[u8]) -> Result<(), AllocError>
    ensures { OnOk result (out.new.items ≡ out.old.items ++ line (word.now ++ text.now)) }
{
    put(out, word)?;
    put(out, text)?;
    put(out, b"\n")
}

fn paragraph(vert: bool) -> &'static [u8]
    ensures { result.now ≡ paragraph_text vert }
{
    if vert { b" vert" } else { b" par" }
}

// The last fields of a float and of a marginal note.
fn put_ending(out: &mut Vec<u8>, vert: bool, nobreak: bool) -> Result<(), AllocError>
    ensures { OnOk result (out.new.items ≡ out.old.items ++ ending_text vert nobreak) }
{
    put(out, paragraph(vert))?;
    put_if(out, nobreak, b" nobreak")
}

fn area(area: Area) -> &'static [u8]
    ensures { result.now ≡ area_text area }
{
    match area {
        Area::All => b"",
        Area::Top => b" t",
        Area::Bottom => b" b",
    }
}

fn put_leaves(out: &mut Vec<u8>, leaves: &[Leaf]) -> Result<(), AllocError>
    ensures { OnOk result (out.new.items ≡ out.old.items ++ leaf_lines leaves.now) }
{
    for leaf in leaves {
        put_leaf_line(out, &leaf.kind)?;
    }
    Ok(())
}

// The line that begins a footnote: from version 2 on it names the class.
fn put_foot(out: &mut Vec<u8>, version: u8, class: u8) -> Result<(), AllocError>
    ensures { OnOk result (out.new.items ≡ out.old.items ++ foot_text version class) }
{
    if version == 1 {
        put(out, b"foot\n")
    } else {
        put_degree(out, b"foot", class)
    }
}

fn put_head(out: &mut Vec<u8>, head: &Float) -> Result<(), AllocError>
    ensures { OnOk result (out.new.items ≡ out.old.items ++ line (head_text head.now)) }
{
    put(out, b"head ")?;
    put(out, head.name.as_bytes())?;
    put_amount(out, head.height)?;
    put(out, b"\n")
}

fn put_enlarge(out: &mut Vec<u8>, by: i64, star: bool) -> Result<(), AllocError>
    ensures { OnOk result (out.new.items ≡ out.old.items ++ line (enlarge_text by star)) }
{
    put(out, b"enlarge")?;
    put_amount(out, by)?;
    put_if(out, star, b" star")?;
    put(out, b"\n")
}

fn put_item(out: &mut Vec<u8>, version: u8, item: &ItemKind) -> Result<(), AllocError>
    ensures { OnOk result (out.new.items ≡ out.old.items ++ item_text version item.now) }
{
    match item {
        ItemKind::Hbox {
            name,
            height,
            depth,
        } => {
            put_box(out, b"box", name, *height, *depth)?;
            put(out, b"\n")
        }
        ItemKind::Rule {
            name,
            height,
            depth,
        } => {
            put_box(out, b"rule", name, *height, *depth)?;
            put(out, b"\n")
        }
        ItemKind::Skip(glue) => {
            put(out, b"glue")?;
            put_glue(out, glue)?;
            put(out, b"\n")
        }
        ItemKind::Kern(width) => {
            put(out, b"kern")?;
            put_amount(out, *width)?;
            put(out, b"\n")
        }
        ItemKind::Penalty(penalty) => {
            put(out, b"penalty")?;
            put_amount(out, *penalty)?;
            put(out, b"\n")
        }
        ItemKind::Mark(name) => {
            put(out, b"mark ")?;
            put(out, name.as_bytes())?;
            put(out, b"\n")
        }
        ItemKind::Note(name) => {
            put(out, b"note ")?;
            put(out, name.as_bytes())?;
            put(out, b"\n")
        }
        ItemKind::Foot { class, leaves } => {
            put_foot(out, version, *class)?;
            put_leaves(out, leaves.as_slice())?;
            put(out, b"endfoot\n")
        }
        ItemKind::Float { float, vert } => {
            put_float(out, float)?;
            put_ending(out, *vert, float.nobreak)?;
            put(out, b"\n")
        }
        ItemKind::Margin { margin, vert } => {
            put_margin(out, margin)?;
            put_ending(out, *vert, margin.nobreak)?;
            put(out, b"\n")
        }
        ItemKind::NewPage => put(out, b"newpage\n"),
        ItemKind::ClearPage => put(out, b"clearpage\n"),
        ItemKind::PageBreak(degree) => put_degree(out, b"pagebreak", *degree),
        ItemKind::NoPageBreak(degree) => put_degree(out, b"nopagebreak", *degree),
        ItemKind::OneColumn => put(out, b"onecolumn\n"),
        ItemKind::TwoColumn => put(out, b"twocolumn\n"),
        ItemKind::Suppress(kept) => put_line(out, b"suppressfloats", area(*kept)),
        ItemKind::Page(number) => put_number(out, b"page", *number),
        ItemKind::Head(head) => put_head(out, head),
        ItemKind::Enlarge { by, star } => put_enlarge(out, *by, *star),
        ItemKind::Set(change) => put_change(out, change),
    }
}

/// Puts the lines of these items.
pub(crate) fn put_items(out: &mut Vec<u8>, version: u8, items: &[Item]) -> Result<(), AllocError>
    ensures { OnOk result (out.new.items ≡ out.old.items ++ item_lines version items.now) }
{
    for item in items {
        put_item(out, version, &item.kind)?;
    }
    Ok(())
}
