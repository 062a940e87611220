//! From a galley to the text of its run.

ghost use Rattle.std.specs.Prelude.{◌≡◌, ◌≢◌, ◌≤◌, Err, IsTrue, IfOk, IfErr, IfNone, IfSome};
ghost use Rattle.tb_io.specs.Faults.{Rose};
ghost use Rattle.tb_galley.specs.Valid.{IsValid};
ghost use Rattle.tb_pool.specs.Lists.{IsLive};
ghost use Rattle.tb_param.specs.Ranges.{are_params};
ghost use Rattle.tb_steps.specs.Run.{run_of};
ghost use Rattle.tb_run.specs.Routine.{IsReady, state_of};
ghost use Rattle.tb_laws.specs.Laws.{KeepsLaws, WithinLimits};
ghost use Rattle.tb_laws.specs.DeadCycles.{HasRoomForCycles};
ghost use Rattle.tb_top.specs.Pages.{Paginates, Refuses, IsNoCycleFault};
ghost use Rattle.tb_top.specs.CanRun.{CanRun};
ghost use Rattle.tb_top.specs.PagesWritten.{write_fault, run_on, EndsWell, StopsWith, IsRefusalOf, IsFaultRefusal};

use crate::views::{is_traced, send, show};
use crate::{PageFault, View};
use std::alloc::{AllocError, Global};
use tb_galley::Galley;
use tb_io::{Sink, SinkFault};
use tb_output::RunFault;
use tb_report::{HEADER, Totals, end_text};
use tb_run::{Ending, Routine};
use tb_text::put;

impl From<AllocError> for PageFault {
    ghost use Rattle.tb_top.specs.declared.PageFault.TheVariants.{Memory};

    ghost from_gives = { λ _ e. e ≡ Memory };

    fn from(_: AllocError) -> Self {
        PageFault::Memory
    }
}

impl From<SinkFault> for PageFault {
    ghost from_gives = { λ fault e. e ≡ write_fault fault };

    fn from(fault: SinkFault) -> Self {
        match fault {
            SinkFault::Failed => PageFault::WriteFault,
            SinkFault::Memory => PageFault::Memory,
        }
    }
}

/// Makes the pages of a galley and writes what a view shows of the run, in pieces of at least 32768 bytes: the report, with
/// the places that were tried or without, or nothing. Returns what was shipped.
///
/// The run ends well if nothing fires any more, or is refused: a float or marginal note found no room (`PoolFull`), the
/// page fired too often without a page shipped (`DeadCycles`), too many pages would be shipped (`PageLimit`), or too many
/// nodes wait at the start or after a firing (`NodeLimit`). Its text up to there is written then. A run that ended well has
/// shipped each box, rule, float and note of the galley once, the boxes and rules of the text in their order, and the floats
/// of each class (in release 2014 of each class and width) in theirs, but for those that a break carried; the totals show it,
/// and its DVI file, if in range and of at most 8388608 bytes, lists its placements. Whatever the end, no float without `!`
/// was placed past the limits of its list. `DeadCycles` is not returned if `maxdeadcycles` is at least 16 plus 4 for each
/// float, head, marginal note, enlarge, clearpage, onecolumn and twocolumn. After `WriteFault`, which comes only if `out`
/// failed and never at a silent view, and after `Memory` a prefix of the run's text is written.
pub fn paginate<K: Sink>(
    alloc: Global,
    galley: &Galley,
    view: View,
    out: &mut K,
) -> Result<Totals, PageFault>
    requires valid { IsValid galley.now }

    ensures done { IfOk result (Paginates view (run_of galley.now) (K.held out.old) (K.held out.new)) }
    ensures laws { IfOk result (KeepsLaws galley.now) }
    ensures limits { WithinLimits (run_of galley.now) }
    ensures cycles { HasRoomForCycles galley.now → IfErr result IsNoCycleFault }
    ensures refused { IfErr result (Refuses view (run_of galley.now) (K.held out.old) (K.held out.new)) }

    ensures cause { result ≡ Err PageFault.WriteFault → Rose (K.faults out.old) (K.faults out.new) }
    ensures silent { view ≡ View.Silent → result ≢ Err PageFault.WriteFault }
    ensures later { K.faults out.old ≤ K.faults out.new }
{
    let mut routine = Routine::new(alloc, galley)?;
    run_on(alloc, &mut routine, view, out)
}

/// The same of a galley that can be run: one with page breaks put in may have more items than a valid one.
pub(crate) fn paginate_runnable<K: Sink>(
    alloc: Global,
    galley: &Galley,
    view: View,
    out: &mut K,
) -> Result<Totals, PageFault>
    requires { CanRun galley.now }

    ensures done { IfOk result (Paginates view (run_of galley.now) (K.held out.old) (K.held out.new)) }
    ensures refused { IfErr result (Refuses view (run_of galley.now) (K.held out.old) (K.held out.new)) }
    ensures cause { result ≡ Err PageFault.WriteFault → Rose (K.faults out.old) (K.faults out.new) }
    ensures later { K.faults out.old ≤ K.faults out.new }
{
    let mut routine = Routine::new(alloc, galley)?;
    run_on(alloc, &mut routine, view, out)
}

// Runs a routine from its first page on to its end.
fn run_on<K: Sink>(
    alloc: Global,
    routine: &mut Routine,
    view: View,
    out: &mut K,
) -> Result<Totals, PageFault>
    requires ready { IsReady routine.old }
    requires params { IsTrue (are_params routine.old.machine.params) }
    requires page { (state_of routine.old).page ≡ 1 }
    requires cycles { (state_of routine.old).dead_cycles ≡ 0 }

    ensures done { IfOk result (Paginates view (run_on routine.old) (K.held out.old) (K.held out.new)) }
    ensures refused { IfErr result (Refuses view (run_on routine.old) (K.held out.old) (K.held out.new)) }
    ensures cause { result ≡ Err PageFault.WriteFault → Rose (K.faults out.old) (K.faults out.new) }
    ensures silent { view ≡ View.Silent → result ≢ Err PageFault.WriteFault }
    ensures later { K.faults out.old ≤ K.faults out.new }
{
    let mut kept = Vec::new(alloc);
    put(&mut kept, HEADER)?;
    let mut totals = Totals::new();
    let mut happened = Vec::new(alloc);
    if let Some(ending) = routine.node_limit() {
        return finish(alloc, routine, view, &totals, ending, &mut kept, out);
    }
    'firing: loop {
        let ending = routine.turn(is_traced(view), &mut happened)?;
        send(&routine.store, &happened, view, &mut totals, &mut kept, out)?;
        if let Some(ending) = ending {
            return finish(alloc, routine, view, &totals, ending, &mut kept, out);
        }
        routine.done_with(&happened);
    }
}

// The end of a run: what is kept is written, and behind it the lines of what is left and the last line, if the run ends well;
// else its refusal is returned.
pub(crate) fn finish<K: Sink>(
    alloc: Global,
    routine: &Routine,
    view: View,
    totals: &Totals,
    ending: Ending,
    kept: &mut Vec<u8>,
    out: &mut K,
) -> Result<Totals, PageFault>
    requires { IsLive routine.now.store routine.now.builder.page }
    ensures done { IfOk result (EndsWell view routine.now totals.now ending kept.old.items (K.held out.old) (K.held out.new)) }
    ensures refused { IfErr result (StopsWith view routine.now totals.now ending kept.old.items (K.held out.old) (K.held out.new) (K.faults out.old) (K.faults out.new)) }
    ensures later { K.faults out.old ≤ K.faults out.new }
{
    if let Some(fault) = fault_of(ending) {
        show(view, kept.as_slice(), out)?;
        return Err(fault);
    }
    let text = end_text(alloc, &routine.store, routine.builder.on_page(), totals)?;
    put(kept, &text)?;
    show(view, kept.as_slice(), out)?;
    Ok(*totals)
}

// The refusal of an ending; a run that ended well has none.
pub(crate) fn fault_of(ending: Ending) -> Option<PageFault>
    ensures none { IfNone result (ending ≡ Ending.Done) }
    ensures some { IfSome result (IsRefusalOf ending) }
{
    match ending {
        Ending::Done => None,
        Ending::PoolFull { line, live } => Some(PageFault::PoolFull { line, live }),
        Ending::Fault(fault) => Some(refusal_of(fault)),
        Ending::NodeLimit { count } => Some(PageFault::NodeLimit { count }),
    }
}

// The refusal of a fault of the output routine.
fn refusal_of(fault: RunFault) -> PageFault
    ensures { IsFaultRefusal fault result }
{
    match fault {
        RunFault::DeadCycles { count } => PageFault::DeadCycles { count },
        RunFault::PageLimit { pages } => PageFault::PageLimit { pages },
        RunFault::Memory => PageFault::Memory,
    }
}
