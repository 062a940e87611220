//! From a galley to the text of its run under plain TeX's page makeup.

ghost use Rattle.std.specs.Prelude.{◌≡◌, ◌≢◌, ◌≤◌, [], ◌++◌, Err, IsTrue, OnOk, IfOk, IfErr, IfNone, IfSome};
ghost use Rattle.tb_io.specs.Faults.{Rose};
ghost use Rattle.tb_galley.specs.Valid.{IsValid};
ghost use Rattle.tb_report.specs.Lines.{end_lines};
ghost use Rattle.tb_param.specs.Ranges.{are_params};
ghost use Rattle.tb_plain.specs.Run.{makeup_of};
ghost use Rattle.tb_plain.specs.Suitability.{IsSuited};
ghost use Rattle.tb_makeup.specs.Makeup.{IsReady};
ghost use Rattle.tb_top.specs.MakeupLaws.{MakesUpOnce};
ghost use Rattle.tb_top.specs.MakeupPages.{MakesPages, RefusesPages};
ghost use Rattle.tb_top.specs.MakeupWritten.{write_fault, run_on, EndsWell, StopsWith, IsRefusalOf};

use crate::View;
use crate::views::{is_traced, send, show};
use std::alloc::{AllocError, Global};
use tb_galley::Galley;
use tb_io::{Sink, SinkFault};
use tb_makeup::{Makeup, MakeupEnding};
use tb_report::{HEADER, Totals, put_totals};
use tb_text::put;

/// Why a run under plain TeX's page makeup or its writing stopped.
#[derive(Clone, Copy, Debug, PartialEq, Eq)]
pub enum PlainRunFault {
    /// A page was to be shipped after this many pages.
    PageLimit { pages: u64 },
    /// This many nodes waited, more than `maxnodes`.
    NodeLimit { count: u64 },
    /// The sink failed.
    WriteFault,
    /// There was no memory.
    Memory,
}

impl From<AllocError> for PlainRunFault {
    ghost use Rattle.tb_top.specs.declared.makeup_pages.PlainRunFault.TheVariants.{Memory};

    ghost from_gives = { λ _ e. e ≡ Memory };

    fn from(_: AllocError) -> Self {
        PlainRunFault::Memory
    }
}

impl From<SinkFault> for PlainRunFault {
    ghost from_gives = { λ fault e. e ≡ write_fault fault };

    fn from(fault: SinkFault) -> Self {
        match fault {
            SinkFault::Failed => PlainRunFault::WriteFault,
            SinkFault::Memory => PlainRunFault::Memory,
        }
    }
}

/// Makes the pages of a galley by plain TeX's page makeup and writes what a view shows of the run, in pieces of at least
/// 32768 bytes: the report, with the places that were tried or without, or nothing. Returns what was shipped.
///
/// The run ends well if nothing waits any more and the page is empty, or is refused: too many pages would be shipped
/// (`PageLimit`), or too many nodes wait at the start or after a firing (`NodeLimit`). Its text up to there is written then.
/// A run that ended well has shipped each box, rule and float of the galley once, the boxes and rules of the text in their
/// order, and the totals show it. After `WriteFault`, which comes only if `out` failed and never at a silent view, and after
/// `Memory` a prefix of the run's text is written.
pub fn paginate_plain<K: Sink>(
    alloc: Global,
    galley: &Galley,
    view: View,
    out: &mut K,
) -> Result<Totals, PlainRunFault>
    requires valid { IsValid galley.now }
    requires suited { IsSuited galley.now }

    ensures done { IfOk result (MakesPages view (makeup_of galley.now) (K.held out.old) (K.held out.new)) }
    ensures laws { OnOk result (MakesUpOnce galley.now (makeup_of galley.now)) }
    ensures refused { IfErr result (RefusesPages view (makeup_of galley.now) (K.held out.old) (K.held out.new)) }

    ensures cause { result ≡ Err PlainRunFault.WriteFault → Rose (K.faults out.old) (K.faults out.new) }
    ensures silent { view ≡ View.Silent → result ≢ Err PlainRunFault.WriteFault }
    ensures later { K.faults out.old ≤ K.faults out.new }
{
    let mut makeup = Makeup::new(alloc, galley)?;
    run_on(alloc, &mut makeup, view, out)
}

// Runs a page makeup from its first page on to its end.
fn run_on<K: Sink>(
    alloc: Global,
    makeup: &mut Makeup<'_>,
    view: View,
    out: &mut K,
) -> Result<Totals, PlainRunFault>
    requires ready { IsReady makeup.old }
    requires params { IsTrue (are_params makeup.old.plain.params) }
    requires page { makeup.old.plain.page ≡ 1 }

    ensures done { IfOk result (MakesPages view (run_on makeup.old) (K.held out.old) (K.held out.new)) }
    ensures refused { IfErr result (RefusesPages view (run_on makeup.old) (K.held out.old) (K.held out.new)) }
    ensures cause { result ≡ Err PlainRunFault.WriteFault → Rose (K.faults out.old) (K.faults out.new) }
    ensures silent { view ≡ View.Silent → result ≢ Err PlainRunFault.WriteFault }
    ensures later { K.faults out.old ≤ K.faults out.new }
{
    let mut kept = Vec::new(alloc);
    put(&mut kept, HEADER)?;
    let mut totals = Totals::new();
    let mut happened = Vec::new(alloc);
    if let Some(ending) = makeup.node_limit() {
        return finish(view, &totals, ending, &mut kept, out);
    }
    'page: loop {
        let ending = makeup.turn(is_traced(view), &mut happened)?;
        send(&makeup.store, &happened, view, &mut totals, &mut kept, out)?;
        if let Some(ending) = ending {
            return finish(view, &totals, ending, &mut kept, out);
        }
        makeup.done_with(&happened);
    }
}

// Appends the line of the totals. Nothing is left of a run that ended well.
fn put_end(text: &mut Vec<u8>, t: &Totals) -> Result<(), AllocError>
    ensures { OnOk result (text.new.items ≡ text.old.items ++ end_lines [] t.now) }
{
    put_totals(text, b"end pages", t)
}

// The refusal of an ending; a run that ended well has none.
fn fault_of(ending: MakeupEnding) -> Option<PlainRunFault>
    ensures none { IfNone result (ending ≡ MakeupEnding.Done) }
    ensures some { IfSome result (IsRefusalOf ending) }
{
    match ending {
        MakeupEnding::Done => None,
        MakeupEnding::PageLimit { pages } => Some(PlainRunFault::PageLimit { pages }),
        MakeupEnding::NodeLimit { count } => Some(PlainRunFault::NodeLimit { count }),
    }
}

// The end of a run: what is kept is written, and behind it the last line, if the run ends well; else its refusal is returned.
fn finish<K: Sink>(
    view: View,
    totals: &Totals,
    ending: MakeupEnding,
    kept: &mut Vec<u8>,
    out: &mut K,
) -> Result<Totals, PlainRunFault>
    ensures done { IfOk result (EndsWell view totals.now ending kept.old.items (K.held out.old) (K.held out.new)) }
    ensures refused { IfErr result (StopsWith view totals.now ending kept.old.items (K.held out.old) (K.held out.new) (K.faults out.old) (K.faults out.new)) }
    ensures later { K.faults out.old ≤ K.faults out.new }
{
    if let Some(fault) = fault_of(ending) {
        show(view, kept.as_slice(), out)?;
        return Err(fault);
    }
    put_end(kept, totals)?;
    show(view, kept.as_slice(), out)?;
    Ok(*totals)
}
