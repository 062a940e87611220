//! The line of what is told, whatever it is.
ghost use Rattle.std.specs.Prelude.{◌≡◌};
ghost use Rattle.tb_text.specs.Fronts.{PutsAfter};
ghost use Rattle.tb_told.specs.Lines.{told_line, column_line, column_float, plain_line, is_of_title, tale_line};

use crate::columns::{put_alone, put_company, put_joining};
use crate::decisions::{
    put_above_both, put_at_bottom, put_at_top, put_back, put_entering, put_goes, put_in_text,
};
use crate::places::{put_begins, put_beside, put_call, put_wait};
use crate::{Tale, Told, ToldColumn};
use std::alloc::AllocError;
use tb_node::{Name, Where};

/// Appends the line of what is told, if it has one: what is told of a title over both columns is not shown. If memory runs
/// out, what stood in `out` is still there, and a front of the line may follow.
pub fn put_tale(out: &mut Vec<u8>, tale: &Tale) -> Result<(), AllocError>
    ensures { PutsAfter result out.old.items (tale_line tale.now) out.new.items }
{
    if is_of_title(tale) {
        return Ok(());
    }
    put_plain_tale(out, tale)
}

// Whether it is told of a title over both columns, which has class 0.
fn is_of_title(tale: &Tale) -> bool
    ensures { result ≡ is_of_title tale.now }
{
    match tale {
        Tale::Decides(f, _) => f.class == 0,
        Tale::InColumn(told) => column_class(told) == 0,
        Tale::Back(f, _) => f.class == 0,
        _ => false,
    }
}

// The class of the float of which a column of floats is told.
fn column_class(told: &ToldColumn) -> u8
    ensures { result ≡ (column_float told.now).class }
{
    match told {
        ToldColumn::Heads(f, _) => f.class,
        ToldColumn::Joins(f, _) => f.class,
        ToldColumn::Companied(f, _) => f.class,
        ToldColumn::Takes(f) => f.class,
    }
}

// Appends the line of what is told of a float or a note.
fn put_plain_tale(out: &mut Vec<u8>, tale: &Tale) -> Result<(), AllocError>
    ensures { PutsAfter result out.old.items (plain_line tale.now) out.new.items }
{
    match tale {
        Tale::Waits(at, f) => put_wait(out, at, f),
        Tale::Calls(at, f, height) => put_call(out, at, f, *height),
        Tale::Decides(f, told) => put_told(out, &f.name, told),
        Tale::Begins(at, wanted) => put_begins(out, at, wanted),
        Tale::InColumn(told) => put_column_line(out, told),
        Tale::Back(f, place) => put_back(out, &f.name, *place),
        Tale::Beside(at, m, height, reach, placed) => {
            put_beside(out, at, m, *height, *reach, placed)
        }
        Tale::Stands(_) | Tale::PutOut => Ok(()),
    }
}

// What is told of an area, or where the float goes.
fn put_told(out: &mut Vec<u8>, name: &Name, told: &Told) -> Result<(), AllocError>
    ensures { PutsAfter result out.old.items (told_line name.now told.now) out.new.items }
{
    match told {
        Told::Enters(t) => put_entering(out, name, t),
        Told::TestsHere(t) => put_in_text(out, name, t),
        Told::TestsTop(t) => put_at_top(out, name, t),
        Told::TestsBottom(t) => put_at_bottom(out, name, t),
        Told::TestsWide(t) => put_above_both(out, name, t),
        Told::Goes(place) => put_goes(out, name, *place),
    }
}

// What is told where a column of floats is looked for.
fn put_column_line(out: &mut Vec<u8>, told: &ToldColumn) -> Result<(), AllocError>
    ensures { PutsAfter result out.old.items (column_line told.now) out.new.items }
{
    match told {
        ToldColumn::Heads(f, t) => put_alone(out, &f.name, t),
        ToldColumn::Joins(f, t) => put_joining(out, &f.name, t),
        ToldColumn::Companied(f, t) => put_company(out, &f.name, t),
        ToldColumn::Takes(f) => put_goes(out, &f.name, Where::Page),
    }
}
