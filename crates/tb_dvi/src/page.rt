//! The bytes of a page.
ghost use Rattle.std.specs.Prelude.{◌≡◌, ◌≤◌, ◌<◌, ◌++◌, pos, negsuc, ◌≤ℤ◌, All, false, IfOk, OnOk, OnErr, IfErr};
ghost use Rattle.tb_sheet.specs.Sheet.{one};
ghost use Rattle.tb_column.specs.StoredColumns.{column_shown};
ghost use Rattle.tb_sheet.specs.StoredSheets.{sheet_shown};
ghost use Rattle.tb_report.specs.Printable.{IsPrintable, IsPrintableSheet};
ghost use Rattle.tb_dvi.specs.Placement.{part_placed, parts_placed};
ghost use Rattle.tb_dvi.specs.Page.{Writes, part_shown, parts_shown, parts_page, IsShowable, WritesPage, PutsPage, MissesPage};
ghost use Rattle.tb_dvi.specs.File.{sheet_page, page_start, page_bytes, is_too_far};
ghost use Rattle.tb_text.specs.Fronts.{PutsAfter, PutsFront};

use crate::file::{put_four, put_signed};
use crate::placement::{PlaceFault, put_node};
use std::alloc::{AllocError, Global};
use tb_column::Column;
use tb_node::Node;
use tb_pack::{Set, Tops};
use tb_pool::{ListId, Lists};
use tb_report::unset;
use tb_sheet::Sheet;
use tb_text::put;

/// A part of a page: a list that begins `at` scaled points from the page's top and `h` from its left side, and how its
/// glue is set.
#[derive(Clone, Copy)]
pub struct Part {
    /// 0, or 300pt (19660800) in the second of two columns.
    pub h: i64,
    /// How far below the page's top it begins, in sp.
    pub at: i64,
    /// The list.
    pub list: ListId,
    /// How its glue is set.
    pub set: Set,
}

/// How far the second of two columns is to the right: 300pt.
const SECOND_COLUMN: i64 = 19_660_800;

/// Why a page has no bytes.
#[derive(Clone, Copy)]
pub enum DviFault {
    /// An item of this page is too far up or down for four bytes, or the file would be too long.
    TooFar { page: u64 },
    /// There was no memory.
    Memory,
}

impl From<AllocError> for DviFault {
    ghost use Rattle.std.specs.Prelude.{◌≡◌};
    ghost use Rattle.tb_dvi.specs.declared.page.DviFault.TheVariants.{Memory};

    ghost from_gives = { λ _ e. e ≡ Memory };

    fn from(_: AllocError) -> Self {
        DviFault::Memory
    }
}

// The items of a part of a page.
fn put_part(
    out: &mut Vec<u8>,
    label: &mut Vec<u8>,
    store: &Lists<Node>,
    part: &Part,
) -> Result<(), PlaceFault>
    requires { IsShowable store.now part.now }
    ensures { Writes result out.old.items out.new.items (part_placed (part_shown store.now part.now)) }
{
    let mut tops = Tops::new(part.set);
    for node in store.iter(part.list) {
        put_node(out, label, part.h as i32, part.at, node, tops.top())?;
        tops.pass(node);
    }
    Ok(())
}

// The items of all parts of a page, in their order. The labels are put together in a text that is used again.
fn put_parts(
    out: &mut Vec<u8>,
    alloc: Global,
    store: &Lists<Node>,
    parts: &[Part],
) -> Result<(), PlaceFault>
    requires { All (IsShowable store.now) parts.now }
    ensures { Writes result out.old.items out.new.items (parts_placed (parts_shown store.now parts.now)) }
{
    let mut label = Vec::new(alloc);
    for part in parts {
        put_part(out, &mut label, store, part)?;
    }
    Ok(())
}

// The first 45 bytes of a page: its number, nine numbers 0, and the place of the page before.
fn put_start(out: &mut Vec<u8>, number: u64, last: i32) -> Result<(), AllocError>
    ensures { PutsAfter result out.old.items (page_start number last) out.new.items }
{
    put(out, b"\x8b")?;
    put_four(out, (number % 4_294_967_296) as u32)?;
    put(out, &[0; 36])?;
    put_signed(out, last)
}

// A page at any place.
fn put_whole(
    out: &mut Vec<u8>,
    alloc: Global,
    store: &Lists<Node>,
    number: u64,
    parts: &[Part],
    last: i32,
) -> Result<(), PlaceFault>
    requires { All (IsShowable store.now) parts.now }
    ensures { WritesPage result out.old.items out.new.items last (parts_page store.now number parts.now) }
{
    put_start(out, number, last)?;
    put_parts(out, alloc, store, parts)?;
    put(out, b"\x8c")?;
    Ok(())
}

/// Appends the bytes of a page (TeX: The Program §640), so that one text serves page after page. They will be at `place` of
/// the file; `number` is the page's number, of which the file keeps four bytes, and `last` the place of the page before, or
/// -1. Each item is a special with its label and, but for marks and notes, a rule.
///
/// It fails if an item is too far up or down for four bytes, if the page would end past place 2147483000, or if there is
/// no memory. What stood in `out` is still there then, and a front of the page may follow.
pub fn put_page(
    out: &mut Vec<u8>,
    alloc: Global,
    store: &Lists<Node>,
    number: u64,
    parts: &[Part],
    place: u64,
    last: i64,
) -> Result<(), DviFault>
    requires parts { All (IsShowable store.now) parts.now }
    requires place { place ≤ 2147483000 }
    requires last_low { negsuc 0 ≤ℤ last }
    requires last_high { last ≤ℤ pos 2147483000 }
    ensures bytes { PutsPage result out.old.items out.new.items place last (parts_page store.now number parts.now) }
    ensures err { OnErr result (PutsFront out.old.items (page_bytes last (parts_page store.now number parts.now)) out.new.items) }
{
    let before = out.len();
    match put_whole(out, alloc, store, number, parts, last as i32) {
        Ok(()) => {}
        Err(PlaceFault::Far) => return Err(DviFault::TooFar { page: number }),
        Err(PlaceFault::Memory) => return Err(DviFault::Memory),
    }
    if (out.len() - before) as u64 > 2147483000 - place {
        return Err(DviFault::TooFar { page: number });
    }
    Ok(())
}

// A column as a part of a page.
fn column_part(h: i64, at: i64, column: &Column) -> Part
    ensures { result ≡ record { h = h; at = at; list = column.now.list; set = column.now.set } }
{
    Part {
        h,
        at,
        list: column.list,
        set: column.set,
    }
}

// A page of one column.
fn put_column(
    out: &mut Vec<u8>,
    alloc: Global,
    store: &Lists<Node>,
    number: u64,
    column: &Column,
    place: u64,
    last: i64,
) -> Result<(), DviFault>
    requires column { IsPrintable store.now column.now }
    requires place { place ≤ 2147483000 }
    requires last_low { negsuc 0 ≤ℤ last }
    requires last_high { last ≤ℤ pos 2147483000 }
    ensures bytes { PutsPage result out.old.items out.new.items place last (sheet_page number (one (column_shown store.now column.now))) }
    ensures err { OnErr result (PutsFront out.old.items (page_bytes last (sheet_page number (one (column_shown store.now column.now)))) out.new.items) }
{
    let parts = [column_part(0, 0, column)];
    put_page(out, alloc, store, number, &parts, place, last)
}

/// Appends the bytes of a page as it is shipped, as `put_page` does: its column, or its double floats and both columns, the
/// second 300pt to the right.
pub fn put_sheet(
    out: &mut Vec<u8>,
    alloc: Global,
    store: &Lists<Node>,
    number: u64,
    sheet: &Sheet,
    place: u64,
    last: i64,
) -> Result<(), DviFault>
    requires sheet { IsPrintableSheet store.now sheet.now }
    requires place { place ≤ 2147483000 }
    requires last_low { negsuc 0 ≤ℤ last }
    requires last_high { last ≤ℤ pos 2147483000 }
    ensures bytes { PutsPage result out.old.items out.new.items place last (sheet_page number (sheet_shown store.now sheet.now)) }
    ensures err { OnErr result (PutsFront out.old.items (page_bytes last (sheet_page number (sheet_shown store.now sheet.now))) out.new.items) }
{
    match sheet {
        Sheet::One(column) => put_column(out, alloc, store, number, column, place, last),
        Sheet::Wide(column) => put_column(out, alloc, store, number, column, place, last),
        Sheet::Two {
            tops,
            at,
            left,
            right,
        } => {
            let parts = [
                Part {
                    h: 0,
                    at: 0,
                    list: *tops,
                    set: unset(),
                },
                column_part(0, *at, left),
                column_part(SECOND_COLUMN, *at, right),
            ];
            put_page(out, alloc, store, number, &parts, place, last)
        }
    }
}

/// Returns the bytes that `put_page` appends: those of one page. It fails as `put_page` does.
pub fn page_bytes(
    alloc: Global,
    store: &Lists<Node>,
    number: u64,
    parts: &[Part],
    place: u64,
    last: i64,
) -> Result<Vec<u8>, DviFault>
    requires parts { All (IsShowable store.now) parts.now }
    requires place { place ≤ 2147483000 }
    requires last_low { negsuc 0 ≤ℤ last }
    requires last_high { last ≤ℤ pos 2147483000 }
    ensures bytes { IfOk result (λ bytes. bytes.items ≡ page_bytes last (parts_page store.now number parts.now)) }
    ensures near { OnOk result (is_too_far place (parts_page store.now number parts.now) ≡ false) }
    ensures fault { IfErr result (λ e. MissesPage e place (parts_page store.now number parts.now)) }
{
    let mut out = Vec::new(alloc);
    put_page(&mut out, alloc, store, number, parts, place, last)?;
    Ok(out)
}
