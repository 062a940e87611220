//! How another program calls the library: it reads a galley from standard input, makes its pages, and prints how many there
//! are and how long their report is.
#![tactic(auto)]

ghost use Rattle.std.specs.Prelude.{◌≡◌, Ok, IfOk};
ghost use Rattle.tb_galley.specs.Grammar.{grammar};
ghost use Rattle.tb_laws.specs.Laws.{KeepsLaws};

use std::alloc::Global;
use std::io::{self, Read};
use tb_galley::{Galley, GalleyFault, parse};
use tb_io::SureSink;
use tb_top::{PageFault, Totals, View, paginate};

/// Why a text has no pages.
#[derive(Drop)]
enum NoPages {
    /// It is no galley: its first fault, or no memory.
    NoGalley(GalleyFault),
    /// The run of the galley was refused; what was written of its report stands in the sink.
    Refused(PageFault),
}

fn main(rt: HostRuntime) -> io::Result<()> {
    let alloc = rt.alloc();
    let mut text = Vec::new(alloc);
    rt.stdin().read_to_end(&mut text)?;
    let mut out = SureSink::new(alloc);
    match make_pages(alloc, &text, &mut out) {
        Ok(totals) => println!(rt;
            "{} pages, {} boxes, {} floats; a report of {} bytes",
            totals.pages,
            totals.boxes,
            totals.floats,
            out.held().len()
        ),
        Err(NoPages::NoGalley(GalleyFault::At(fault))) => println!(rt;
            "line {} field {}: no galley",
            fault.line, fault.field
        ),
        Err(NoPages::NoGalley(GalleyFault::Memory)) => println!(rt; "out of memory"),
        Err(NoPages::Refused(fault)) => println!(rt; "refused: {fault:?}"),
    }
}

/// Makes the pages of a galley's text and appends their report to `out`.
fn make_pages(alloc: Global, text: &[u8], out: &mut SureSink) -> Result<Totals, NoPages>
    ensures laws { IfOk result (λ totals. (g : Galley) × ((grammar text.now ≡ Ok g) × KeepsLaws g totals)) }
{
    let galley = match parse(alloc, text) {
        Ok(galley) => galley,
        Err(fault) => return Err(NoPages::NoGalley(fault)),
    };
    match paginate(alloc, &galley, View::Report, out) {
        Ok(totals) => Ok(totals),
        Err(fault) => Err(NoPages::Refused(fault)),
    }
}
