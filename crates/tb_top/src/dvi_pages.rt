//! From a galley to the DVI file of its pages.

ghost use Rattle.std.specs.Prelude.{◌≡◌, ◌≤◌, ◌∷◌, [], ◌++◌, List, ℕ, Option, FitsSigned, Err, IfErr, OnOk, OnErr};
ghost use Rattle.std.specs.Int.{w32};
ghost use Rattle.std.specs.Io.KnownBytes.{append_known};
ghost use Rattle.tb_io.specs.Faults.{Rose, HasSinkCause};
ghost use Rattle.tb_io.specs.Sink.{AppendsPrefix};
ghost use Rattle.tb_galley.specs.Valid.{IsValid};
ghost use Rattle.tb_galley.specs.GalleyNodes.{expanded};
ghost use Rattle.tb_sheet.specs.StoredSheets.{sheet_shown, IsPageSheet};
ghost use Rattle.tb_output.specs.State.{first_state};
ghost use Rattle.tb_dvi.specs.File.{Page, sheet_page};
ghost use Rattle.tb_dvi.specs.Progress.{IsInFile};
ghost use Rattle.tb_items.specs.Happenings.{event_of, events_of, IsPage, ArePages};
ghost use Rattle.tb_items.specs.Classes.{classes_of};
ghost use Rattle.tb_run.specs.Routine.{IsReady, state_of};
ghost use Rattle.tb_laws.specs.DviPages.{event_pages};
ghost use Rattle.tb_top.specs.Kept.{Grows, Keeps};
ghost use Rattle.tb_top.specs.DviFiles.{WritesFile, RefusesFile};
ghost use Rattle.tb_top.specs.DviWritten.{HoldsPages, SendsPages, IsWriteFailure, EndsFile, StopsFile};

use crate::PageFault;
use crate::pages::fault_of;
use crate::views::PIECE;
use std::alloc::{AllocError, Global};
use tb_dvi::{DviFault, Progress, pre_bytes};
use tb_galley::Galley;
use tb_io::{Sink, SinkFault, write_all};
use tb_items::Happening;
use tb_node::Node;
use tb_param::Params;
use tb_pool::Lists;
use tb_run::{Ending, Routine};
use tb_sheet::{Sent, Sheet};

/// Why a galley's pages have no whole DVI file.
#[derive(Clone, Copy)]
pub enum DviRunFault {
    /// The run or its writing stopped.
    Pages(PageFault),
    /// This page is out of the range of DVI.
    TooFar { page: u64 },
}

impl From<AllocError> for DviRunFault {
    ghost use Rattle.tb_top.specs.declared.PageFault.TheVariants as faults;
    ghost use Rattle.tb_top.specs.declared.dvi_pages.DviRunFault.TheVariants.{Pages};

    ghost from_gives = { λ _ e. e ≡ Pages faults.Memory };

    fn from(_: AllocError) -> Self {
        DviRunFault::Pages(PageFault::Memory)
    }
}

impl From<SinkFault> for DviRunFault {
    ghost use Rattle.tb_top.specs.declared.dvi_pages.DviRunFault.TheVariants.{Pages};
    ghost use Rattle.tb_top.specs.PagesWritten.{write_fault};

    ghost from_gives = { λ fault e. e ≡ Pages (write_fault fault) };

    fn from(fault: SinkFault) -> Self {
        DviRunFault::Pages(fault.into())
    }
}

impl From<DviFault> for DviRunFault {
    ghost use Rattle.tb_top.specs.DviWritten.{page_failure};

    ghost from_gives = { λ fault e. e ≡ page_failure fault };

    fn from(fault: DviFault) -> Self {
        match fault {
            DviFault::TooFar { page } => DviRunFault::TooFar { page },
            DviFault::Memory => DviRunFault::Pages(PageFault::Memory),
        }
    }
}

/// Makes the pages of a galley and writes them as a DVI file, in pieces of at least 32768 bytes: the preamble, each page as
/// it is shipped, and the end of the file if the run ends well.
///
/// It fails as `paginate` does, and if a page is out of range (`TooFar`): an item is too far up or down for four bytes, or
/// the page would end past place 2147483000. The preamble and the pages before are written then. After `WriteFault`,
/// which comes only if `out` failed, and after `Memory` a prefix of them is written.
pub(crate) fn paginate_dvi<K: Sink>(
    alloc: Global,
    galley: &Galley,
    out: &mut K,
) -> Result<(), DviRunFault>
    requires valid { IsValid galley.now }
    ensures done { OnOk result (WritesFile galley.now (K.held out.old) (K.held out.new)) }
    ensures refused { IfErr result (RefusesFile galley.now (K.held out.old) (K.held out.new)) }
    ensures cause { result ≡ Err (DviRunFault.Pages PageFault.WriteFault) → Rose (K.faults out.old) (K.faults out.new) }
{
    let mut routine = Routine::new(alloc, galley)?;
    write_run(alloc, galley, &mut routine, out)
}

// Runs the routine of a galley from its first page on to its end, and writes its file.
fn write_run<K: Sink>(
    alloc: Global,
    galley: &Galley,
    routine: &mut Routine,
    out: &mut K,
) -> Result<(), DviRunFault>
    requires ready { IsReady routine.old }
    requires state { state_of routine.old ≡ first_state galley.now.params (classes_of galley.now) (expanded galley.now) }
    requires params { routine.old.machine.params ≡ galley.now.params }
    ensures done { OnOk result (WritesFile galley.now (K.held out.old) (K.held out.new)) }
    ensures refused { IfErr result (RefusesFile galley.now (K.held out.old) (K.held out.new)) }
    ensures cause { result ≡ Err (DviRunFault.Pages PageFault.WriteFault) → Rose (K.faults out.old) (K.faults out.new) }
{
    let mut kept = pre_bytes(alloc)?;
    let mut progress = Progress::new();
    let mut happened = Vec::new(alloc);
    if let Some(ending) = routine.node_limit() {
        return finish(&galley.params, &progress, ending, &mut kept, out);
    }
    'firing: loop {
        let ending = routine.turn(false, &mut happened)?;
        send(
            alloc,
            &routine.store,
            &happened,
            &mut progress,
            &mut kept,
            out,
        )?;
        if let Some(ending) = ending {
            return finish(&galley.params, &progress, ending, &mut kept, out);
        }
        routine.done_with(&happened);
    }
}

// Keeps the bytes of the pages that were sent; what is kept is written once it is long.
fn send<K: Sink>(
    alloc: Global,
    store: &Lists<Node>,
    happened: &[Happening],
    progress: &mut Progress,
    kept: &mut Vec<u8>,
    out: &mut K,
) -> Result<(), DviRunFault>
    requires pages { ArePages store.now happened.now }
    requires in_file { IsInFile progress.old }
    ensures in_file { IsInFile progress.new }
    ensures sent { (start : Option (List ℕ)) (ps : List Page) → Grows start (K.held out.old) → HoldsPages start (append_known (K.held out.old) kept.old.items) progress.old ps → SendsPages result start (K.held out.new) kept.new.items progress.new (ps ++ event_pages (events_of store.now happened.now)) }
    ensures cause { IfErr result (IsWriteFailure (K.faults out.old) (K.faults out.new)) }
    ensures grown { Grows (K.held out.old) (K.held out.new) }
    ensures later { K.faults out.old ≤ K.faults out.new }
{
    for happening in happened {
        send_happening(alloc, store, happening, progress, kept, out)?;
    }
    Ok(())
}

// Keeps the bytes of a page that was sent; a place that was tried and a warning have none.
fn send_happening<K: Sink>(
    alloc: Global,
    store: &Lists<Node>,
    happening: &Happening,
    progress: &mut Progress,
    kept: &mut Vec<u8>,
    out: &mut K,
) -> Result<(), DviRunFault>
    requires page { IsPage store.now happening.now }
    requires in_file { IsInFile progress.old }
    ensures in_file { IsInFile progress.new }
    ensures sent { (start : Option (List ℕ)) (ps : List Page) → Grows start (K.held out.old) → HoldsPages start (append_known (K.held out.old) kept.old.items) progress.old ps → SendsPages result start (K.held out.new) kept.new.items progress.new (ps ++ event_pages (event_of store.now happening.now ∷ [])) }
    ensures cause { IfErr result (IsWriteFailure (K.faults out.old) (K.faults out.new)) }
    ensures grown { Grows (K.held out.old) (K.held out.new) }
    ensures later { K.faults out.old ≤ K.faults out.new }
{
    match happening {
        Happening::Tried(_) => Ok(()),
        Happening::Sent(event) => match &event.sent {
            Sent::Warn(_) => Ok(()),
            Sent::Ship { page, sheet } => {
                send_page(alloc, store, *page, sheet, progress, kept, out)
            }
        },
    }
}

// Keeps the bytes of the next page. If it has none, the pages before it are written.
fn send_page<K: Sink>(
    alloc: Global,
    store: &Lists<Node>,
    number: u64,
    sheet: &Sheet,
    progress: &mut Progress,
    kept: &mut Vec<u8>,
    out: &mut K,
) -> Result<(), DviRunFault>
    requires sheet { IsPageSheet store.now sheet.now }
    requires in_file { IsInFile progress.old }
    ensures in_file { IsInFile progress.new }
    ensures sent { (start : Option (List ℕ)) (ps : List Page) → Grows start (K.held out.old) → HoldsPages start (append_known (K.held out.old) kept.old.items) progress.old ps → SendsPages result start (K.held out.new) kept.new.items progress.new (ps ++ sheet_page number (sheet_shown store.now sheet.now) ∷ []) }
    ensures cause { IfErr result (IsWriteFailure (K.faults out.old) (K.faults out.new)) }
    ensures grown { Grows (K.held out.old) (K.held out.new) }
    ensures later { K.faults out.old ≤ K.faults out.new }
{
    let before = kept.len();
    if let Err(fault) = progress.put_next(kept, alloc, store, number, sheet) {
        kept.truncate(before);
        write_all(out, kept.as_slice())?;
        return Err(fault.into());
    }
    write_long(kept, out)?;
    Ok(())
}

// Writes what is kept, if it is long.
fn write_long<K: Sink>(kept: &mut Vec<u8>, out: &mut K) -> Result<(), SinkFault>
    ensures ok { OnOk result (Keeps (K.held out.old) (K.held out.new) kept.old.items kept.new.items []) }
    ensures err { OnErr result (AppendsPrefix (K.held out.old) (K.held out.new) kept.old.items) }
    ensures cause { HasSinkCause (K.faults out.old) (K.faults out.new) result }
{
    if kept.len() < PIECE {
        return Ok(());
    }
    write_all(out, kept.as_slice())?;
    kept.clear();
    Ok(())
}

// The end of a run: what is kept is written, and behind it the end of the file, if the run ends well; else its refusal is
// returned.
fn finish<K: Sink>(
    params: &Params,
    progress: &Progress,
    ending: Ending,
    kept: &mut Vec<u8>,
    out: &mut K,
) -> Result<(), DviRunFault>
    requires in_file { IsInFile progress.now }
    requires height { FitsSigned w32 params.now.textheight }
    ensures done { OnOk result (EndsFile params.now.textheight progress.now ending kept.old.items (K.held out.old) (K.held out.new)) }
    ensures refused { IfErr result (StopsFile params.now.textheight progress.now ending kept.old.items (K.held out.old) (K.held out.new)) }
    ensures cause { result ≡ Err (DviRunFault.Pages PageFault.WriteFault) → Rose (K.faults out.old) (K.faults out.new) }
    ensures later { K.faults out.old ≤ K.faults out.new }
{
    if let Some(fault) = fault_of(ending) {
        write_all(out, kept.as_slice())?;
        return Err(DviRunFault::Pages(fault));
    }
    progress.put_end(kept, params)?;
    write_all(out, kept.as_slice())?;
    Ok(())
}
