//! A file that is written page by page.
ghost use Rattle.std.specs.Prelude.{◌≡◌, ◌≤◌, ◌<◌, ◌+◌, ◌++◌, ◌||◌, nat_lt, pos, FitsSigned, OnOk, OnErr};
ghost use Rattle.std.specs.Int.{w32};
ghost use Rattle.tb_sheet.specs.StoredSheets.{sheet_shown};
ghost use Rattle.tb_report.specs.Printable.{IsPrintableSheet};
ghost use Rattle.tb_dvi.specs.File.{sheet_page, page_bytes, post_bytes};
ghost use Rattle.tb_dvi.specs.Page.{PutsPage};
ghost use Rattle.tb_text.specs.Fronts.{PutsAfter, PutsFront};

use crate::file::put_post;
use crate::page::{DviFault, put_sheet};
use std::alloc::{AllocError, Global};
use tb_node::Node;
use tb_param::Params;
use tb_pool::Lists;
use tb_sheet::Sheet;

/// How far a DVI file is written. Its bytes go elsewhere page by page, so more pages take no more memory.
#[derive(Clone, Copy)]
pub struct Progress {
    /// Where the next page or the postamble begins.
    pub place: u64,
    /// Where the last page begins, or -1.
    pub last: i64,
    /// How many pages the file has.
    pub pages: u64,
    /// Whether a page shows anything.
    pub any: bool,
}

impl Progress {
    ghost use Rattle.tb_dvi.specs.Progress.{IsInFile, at_first, with_page};

    /// A file that holds its preamble, which `pre_bytes` gives.
    pub fn new() -> Self
        ensures value { result ≡ at_first }
        ensures in_file { IsInFile result }
    {
        Progress {
            place: 27,
            last: -1,
            pages: 0,
            any: false,
        }
    }

    /// Appends the bytes of the next page as it is shipped, under its number. It fails if the page is out of range
    /// (`TooFar`) or there is no memory, and the progress is then as before; what stood in `out` is still there, and a
    /// front of the page may follow.
    pub fn put_next(
        &mut self,
        out: &mut Vec<u8>,
        alloc: Global,
        store: &Lists<Node>,
        number: u64,
        sheet: &Sheet,
    ) -> Result<(), DviFault>
        requires in_file { IsInFile self.old }
        requires sheet { IsPrintableSheet store.now sheet.now }
        ensures page { PutsPage result out.old.items out.new.items self.old.place self.old.last (sheet_page number (sheet_shown store.now sheet.now)) }
        ensures ok { OnOk result (self.new ≡ with_page (sheet_page number (sheet_shown store.now sheet.now)) self.old) }
        ensures err { OnErr result (self.new ≡ self.old) }
        ensures front { OnErr result (PutsFront out.old.items (page_bytes self.old.last (sheet_page number (sheet_shown store.now sheet.now))) out.new.items) }
        ensures in_file { IsInFile self.new }
    {
        let before = out.len();
        put_sheet(out, alloc, store, number, sheet, self.place, self.last)?;
        self.pass(out.len() - before);
        Ok(())
    }

    // A page of this length is written.
    fn pass(&mut self, size: usize)
        requires in_file { IsInFile self.old }
        requires near { self.old.place + size ≤ 2147483000 }
        requires whole { 46 ≤ size }
        ensures in_file { IsInFile self.new }
        ensures value { self.new ≡ record { place = self.old.place + size; last = pos self.old.place; pages = self.old.pages + 1; any = self.old.any || nat_lt 46 size } }
    {
        *self = Progress {
            place: self.place + size as u64,
            last: self.place as i64,
            pages: self.pages + 1,
            any: self.any || size > 46,
        };
    }

    /// Appends the postamble and the end of the file. If memory runs out, what stood in `out` is still there, and a front of
    /// them may follow.
    pub fn put_end(&self, out: &mut Vec<u8>, p: &Params) -> Result<(), AllocError>
        requires in_file { IsInFile self.now }
        requires height { FitsSigned w32 p.now.textheight }
        ensures { PutsAfter result out.old.items (post_bytes p.now.textheight self.now.pages self.now.any self.now.last self.now.place) out.new.items }
    {
        put_post(out, p, self.pages, self.any, self.last, self.place)
    }
}
