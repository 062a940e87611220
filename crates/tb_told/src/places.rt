//! The lines that say where a run stands: a float that is called or waits, the start of a column, and a note.
ghost use Rattle.std.specs.Prelude.{◌≡◌, ◌++◌, codes};
ghost use Rattle.tb_text.specs.Fields.{and_number, and_count, and_text, line};
ghost use Rattle.tb_text.specs.Fronts.{PutsAfter};
ghost use Rattle.tb_report.specs.Lines.{side_text};
ghost use Rattle.tb_margin.specs.Margin.{note_height};
ghost use Rattle.tb_told.specs.Lines.{places_text, width_text, spot_text, float_text, begins_word, begins_text, begins_line, beside_line};

use crate::Spot;
use crate::fields::{put_head, put_if};
use std::alloc::AllocError;
use tb_fpage::Wanted;
use tb_margin::Placed;
use tb_node::{Float, Margin, Places, Side};
use tb_report::{put_measure, put_total, side_text};
use tb_text::{end_line, put, put_count, put_text};

/// Appends that a wide float of release 2014 waits from now on, without a call. If memory runs out, what stood in `out` is
/// still there, and a front of the line may follow.
pub fn put_wait(out: &mut Vec<u8>, at: &Spot, f: &Float) -> Result<(), AllocError>
    ensures { PutsAfter result out.old.items (line (codes "wait" ++ float_text at.now f.now)) out.new.items }
{
    put(out, b"wait")?;
    put_float(out, at, f)?;
    end_line(out)
}

/// Appends that a float is called, where the text is so high, in scaled points. If memory runs out, what stood in `out` is
/// still there, and a front of the line may follow.
pub fn put_call(out: &mut Vec<u8>, at: &Spot, f: &Float, text: i64) -> Result<(), AllocError>
    ensures { PutsAfter result out.old.items (line (codes "call" ++ float_text at.now f.now ++ codes " text" ++ and_number text)) out.new.items }
{
    put(out, b"call")?;
    put_float(out, at, f)?;
    put_measure(out, b" text", text)?;
    end_line(out)
}

// Which float it is, and what it asks for.
fn put_float(out: &mut Vec<u8>, at: &Spot, f: &Float) -> Result<(), AllocError>
    ensures { PutsAfter result out.old.items (float_text at.now f.now) out.new.items }
{
    put_text(out, f.name.as_bytes())?;
    put_count(out, u64::from(f.line))?;
    put_spot(out, at)?;
    put_total(out, b" class", u64::from(f.class))?;
    put_places(out, f.bang, &f.places)?;
    put_width(out, f.wide)?;
    put_measure(out, b" high", f.height)
}

// The page and the column.
fn put_spot(out: &mut Vec<u8>, at: &Spot) -> Result<(), AllocError>
    ensures { PutsAfter result out.old.items (spot_text at.now) out.new.items }
{
    put_total(out, b" page", at.page)?;
    put_total(out, b" column", if at.second { 2 } else { 1 })
}

// The mark `!` and the letters of the places.
fn put_places(out: &mut Vec<u8>, bang: bool, p: &Places) -> Result<(), AllocError>
    ensures { PutsAfter result out.old.items (codes " places" ++ and_text (places_text bang p.now)) out.new.items }
{
    put(out, b" places ")?;
    put_if(out, bang, b"!")?;
    put_if(out, p.h, b"h")?;
    put_if(out, p.t, b"t")?;
    put_if(out, p.b, b"b")?;
    put_if(out, p.p, b"p")
}

// Whether it is as wide as two columns.
fn put_width(out: &mut Vec<u8>, wide: bool) -> Result<(), AllocError>
    ensures { PutsAfter result out.old.items (codes " width" ++ and_text (width_text wide)) out.new.items }
{
    put(out, b" width ")?;
    if wide {
        put(out, b"double")
    } else {
        put(out, b"single")
    }
}

/// Appends that a column, or a page of wide floats, begins. If memory runs out, what stood in `out` is still there, and a
/// front of the line may follow.
pub fn put_begins(out: &mut Vec<u8>, at: &Spot, wanted: &Wanted) -> Result<(), AllocError>
    ensures { PutsAfter result out.old.items (begins_line at.now wanted.now) out.new.items }
{
    put_begins_word(out, wanted.clearing)?;
    put_begins_at(out, at, wanted.wide)?;
    put_measure(out, b" height", wanted.height)?;
    end_line(out)
}

fn put_begins_word(out: &mut Vec<u8>, clearing: bool) -> Result<(), AllocError>
    ensures { PutsAfter result out.old.items (begins_word clearing) out.new.items }
{
    if clearing {
        put(out, b"clear")
    } else {
        put(out, b"start")
    }
}

fn put_begins_at(out: &mut Vec<u8>, at: &Spot, wide: bool) -> Result<(), AllocError>
    ensures { PutsAfter result out.old.items (begins_text at.now wide) out.new.items }
{
    if wide {
        put_total(out, b" page", at.page)?;
        put(out, b" wide")
    } else {
        put_spot(out, at)
    }
}

/// Appends where a note goes beside a text of this height, if notes reached so far down before it; both are in scaled
/// points. If memory runs out, what stood in `out` is still there, and a front of the line may follow.
pub fn put_beside(
    out: &mut Vec<u8>,
    at: &Spot,
    m: &Margin,
    text: i64,
    reach: i64,
    placed: &Placed,
) -> Result<(), AllocError>
    ensures { PutsAfter result out.old.items (beside_line at.now m.now text reach placed.now) out.new.items }
{
    put_note(out, m)?;
    put_spot(out, at)?;
    put_reach(out, text, reach)?;
    put_moved(out, m, placed)
}

// The height of a note's box, how far it is moved down, its side, and the end of the line.
fn put_moved(out: &mut Vec<u8>, m: &Margin, placed: &Placed) -> Result<(), AllocError>
    ensures { PutsAfter result out.old.items (line (codes " high" ++ and_number (note_height placed.now.side m.now) ++ codes " shift" ++ and_number placed.now.shift ++ and_text (side_text placed.now.side))) out.new.items }
{
    put_shift(out, height_on(placed.side, m), placed.shift)?;
    put_text(out, side_text(placed.side))?;
    end_line(out)
}

// The height of a note's box, and how far it is moved down.
fn put_shift(out: &mut Vec<u8>, high: i64, shift: i64) -> Result<(), AllocError>
    ensures { PutsAfter result out.old.items (codes " high" ++ and_number high ++ codes " shift" ++ and_number shift) out.new.items }
{
    put_measure(out, b" high", high)?;
    put_measure(out, b" shift", shift)
}

// The word of the line, the note's name and its line in the galley.
fn put_note(out: &mut Vec<u8>, m: &Margin) -> Result<(), AllocError>
    ensures { PutsAfter result out.old.items (codes "beside" ++ and_text m.now.name ++ and_count m.now.line) out.new.items }
{
    put_head(out, b"beside", &m.name)?;
    put_count(out, u64::from(m.line))
}

// How high the text is, and how far down notes reach.
fn put_reach(out: &mut Vec<u8>, text: i64, reach: i64) -> Result<(), AllocError>
    ensures { PutsAfter result out.old.items (codes " text" ++ and_number text ++ codes " reach" ++ and_number reach) out.new.items }
{
    put_measure(out, b" text", text)?;
    put_measure(out, b" reach", reach)
}

// The height of a note's box for a side.
fn height_on(side: Side, m: &Margin) -> i64
    ensures { result ≡ note_height side m.now }
{
    match side {
        Side::Left => m.left_height,
        Side::Right => m.right_height,
    }
}
