//! The lines of a decision: one for each area that is tried, and where the float goes.
ghost use Rattle.std.specs.Prelude.{◌++◌, codes};
ghost use Rattle.tb_text.specs.Fields.{and_number, and_text, line};
ghost use Rattle.tb_text.specs.Fronts.{PutsAfter};
ghost use Rattle.tb_report.specs.Lines.{where_text};
ghost use Rattle.tb_told.specs.Lines.{enter_line, here_line, top_line, bottom_line, wide_line, goes_line};

use crate::fields::{put_blocked, put_counted, put_end, put_head};
use crate::{AboveBoth, AtBottom, AtTop, Entering, InText};
use std::alloc::AllocError;
use tb_node::{Name, Where};
use tb_report::{put_measure, where_text};
use tb_text::{end_line, put_text};

/// Appends what is told of a column as a whole. If memory runs out, what stood in `out` is still there, and a front of the
/// line may follow.
pub fn put_entering(out: &mut Vec<u8>, name: &Name, t: &Entering) -> Result<(), AllocError>
    ensures { PutsAfter result out.old.items (enter_line name.now t.now) out.new.items }
{
    put_blocked(out, b"enter", name, &t.blocker)?;
    put_counted(out, &t.count)?;
    put_needs(out, t)?;
    put_end(out, t.failed)
}

// The least room that the text needs, and the height of a float.
fn put_least(out: &mut Vec<u8>, least: i64, high: i64) -> Result<(), AllocError>
    ensures { PutsAfter result out.old.items (codes " least" ++ and_number least ++ codes " high" ++ and_number high) out.new.items }
{
    put_measure(out, b" least", least)?;
    put_measure(out, b" high", high)
}

// The room of the column and what is required of it.
fn put_room(out: &mut Vec<u8>, room: i64, need: i64) -> Result<(), AllocError>
    ensures { PutsAfter result out.old.items (codes " room" ++ and_number room ++ codes " need" ++ and_number need) out.new.items }
{
    put_measure(out, b" room", room)?;
    put_measure(out, b" need", need)
}

// What the text and the column need.
fn put_needs(out: &mut Vec<u8>, t: &Entering) -> Result<(), AllocError>
    ensures { PutsAfter result out.old.items (codes " least" ++ and_number t.now.least ++ codes " high" ++ and_number t.now.high ++ codes " room" ++ and_number t.now.room ++ codes " need" ++ and_number t.now.need) out.new.items }
{
    put_least(out, t.least, t.high)?;
    put_room(out, t.room, t.need)
}

// The room of the column, and the share of an area.
fn put_fit(out: &mut Vec<u8>, room: i64, need: i64, share: i64, high: i64) -> Result<(), AllocError>
    ensures { PutsAfter result out.old.items (codes " room" ++ and_number room ++ codes " need" ++ and_number need ++ codes " share" ++ and_number share ++ codes " high" ++ and_number high) out.new.items }
{
    put_room(out, room, need)?;
    put_share(out, share, high)
}

// What is left of the share of an area, and the height of a float.
fn put_share(out: &mut Vec<u8>, share: i64, high: i64) -> Result<(), AllocError>
    ensures { PutsAfter result out.old.items (codes " share" ++ and_number share ++ codes " high" ++ and_number high) out.new.items }
{
    put_measure(out, b" share", share)?;
    put_measure(out, b" high", high)
}

/// Appends what is told of the text. If memory runs out, what stood in `out` is still there, and a front of the line may
/// follow.
pub fn put_in_text(out: &mut Vec<u8>, name: &Name, t: &InText) -> Result<(), AllocError>
    ensures { PutsAfter result out.old.items (here_line name.now t.now) out.new.items }
{
    put_blocked(out, b"here", name, &t.blocker)?;
    put_room(out, t.room, t.need)?;
    put_end(out, t.failed)
}

/// Appends what is told of the top. If memory runs out, what stood in `out` is still there, and a front of the line may
/// follow.
pub fn put_at_top(out: &mut Vec<u8>, name: &Name, t: &AtTop) -> Result<(), AllocError>
    ensures { PutsAfter result out.old.items (top_line name.now t.now) out.new.items }
{
    put_blocked(out, b"top", name, &t.blocker)?;
    put_counted(out, &t.count)?;
    put_fit(out, t.room, t.need, t.share, t.high)?;
    put_end(out, t.failed)
}

/// Appends what is told of the bottom. If memory runs out, what stood in `out` is still there, and a front of the line may
/// follow.
pub fn put_at_bottom(out: &mut Vec<u8>, name: &Name, t: &AtBottom) -> Result<(), AllocError>
    ensures { PutsAfter result out.old.items (bottom_line name.now t.now) out.new.items }
{
    put_head(out, b"bottom", name)?;
    put_counted(out, &t.count)?;
    put_fit(out, t.room, t.need, t.share, t.high)?;
    put_end(out, t.failed)
}

/// Appends what is told of the space above both columns. If memory runs out, what stood in `out` is still there, and a
/// front of the line may follow.
pub fn put_above_both(out: &mut Vec<u8>, name: &Name, t: &AboveBoth) -> Result<(), AllocError>
    ensures { PutsAfter result out.old.items (wide_line name.now t.now) out.new.items }
{
    put_blocked(out, b"wide", name, &t.blocker)?;
    put_counted(out, &t.count)?;
    put_measure(out, b" room", t.room)?;
    put_measure(out, b" high", t.high)?;
    put_end(out, t.failed)
}

/// Appends where a float goes. If memory runs out, what stood in `out` is still there, and a front of the line may follow.
pub fn put_goes(out: &mut Vec<u8>, name: &Name, place: Where) -> Result<(), AllocError>
    ensures { PutsAfter result out.old.items (goes_line name.now (where_text place)) out.new.items }
{
    put_head(out, b"goes", name)?;
    put_text(out, where_text(place))?;
    end_line(out)
}

/// Appends that a clear takes a float back from its place. If memory runs out, what stood in `out` is still there, and a
/// front of the line may follow.
pub fn put_back(out: &mut Vec<u8>, name: &Name, place: Where) -> Result<(), AllocError>
    ensures { PutsAfter result out.old.items (line (codes "back" ++ and_text name.now ++ and_text (where_text place))) out.new.items }
{
    put_head(out, b"back", name)?;
    put_text(out, where_text(place))?;
    end_line(out)
}
