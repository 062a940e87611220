//! From a galley to the report of its run with what is told of it.

ghost use Rattle.std.specs.Prelude.{◌≡◌, ◌<◌, ◌≤◌, ◌^◌, ◌++◌, Err, IsTrue, OnOk, IfOk, IfErr};
ghost use Rattle.tb_io.specs.Faults.{Rose};
ghost use Rattle.tb_galley.specs.Valid.{IsValid};
ghost use Rattle.tb_pool.specs.Lists.{IsLive};
ghost use Rattle.tb_param.specs.Ranges.{are_params};
ghost use Rattle.tb_items.specs.Happenings.{events_of, ArePages};
ghost use Rattle.tb_report.specs.RunTotals.{AreCounts};
ghost use Rattle.tb_steps.specs.Run.{run_of};
ghost use Rattle.tb_run.specs.Routine.{IsReady, state_of};
ghost use Rattle.tb_laws.specs.Laws.{KeepsLaws, WithinLimits};
ghost use Rattle.tb_laws.specs.DeadCycles.{HasRoomForCycles};
ghost use Rattle.tb_story.specs.StoryLines.{story_lines};
ghost use Rattle.tb_why.specs.ShownLines.{all_shown_lines};
ghost use Rattle.tb_why.specs.ShownOf.{all_shown_of, AreShownPages};
ghost use Rattle.tb_why.specs.Summary.{summed};
ghost use Rattle.tb_why.specs.SummaryLaws.{sheets_of};
ghost use Rattle.tb_top.specs.Pages.{IsNoCycleFault, RefusesText};
ghost use Rattle.tb_top.specs.PagesWritten.{run_on, EndsWell, StopsWith};
ghost use Rattle.tb_top.specs.Views.{Sends, with_events};
ghost use Rattle.tb_top.specs.WhyReport.{why_report, why_text};
ghost use Rattle.tb_top.specs.WhyPages.{Explains};

use crate::pages::finish;
use crate::views::{PIECE, count_happened, show};
use crate::{PageFault, View};
use std::alloc::Global;
use tb_galley::Galley;
use tb_io::{Sink, SinkFault};
use tb_items::Happening;
use tb_node::Node;
use tb_pool::Lists;
use tb_report::{HEADER, Totals};
use tb_run::{Ending, Routine};
use tb_story::Summary;
use tb_text::put;
use tb_why::{Showing, note_shown, put_shown, told_turn};

/// Makes the pages of a galley and writes why each float and marginal note went where it went, in pieces of at least 32768
/// bytes: the report with the places that were tried, as `paginate` writes it at [`View::Trace`], and between its lines what
/// is told of each decision, before all that it causes. After the last event comes one line for each float that was called or
/// waited, with the page on which it landed and the reasons for which it waited, and then the last lines of the report.
/// Returns what was shipped.
///
/// The run ends well or is refused as in [`paginate`](crate::paginate); its text up to there is written then, with the lines
/// of the floats. If it ended well it kept the laws of whole runs. After `WriteFault`, which comes only if `out` failed, and
/// after `Memory` a prefix of the text is written.
pub fn why_pages<K: Sink>(alloc: Global, galley: &Galley, out: &mut K) -> Result<Totals, PageFault>
    requires valid { IsValid galley.now }

    ensures done { IfOk result (Explains (run_of galley.now) (why_report galley.now) (K.held out.old) (K.held out.new)) }
    ensures laws { IfOk result (KeepsLaws galley.now) }
    ensures limits { WithinLimits (run_of galley.now) }
    ensures cycles { HasRoomForCycles galley.now → IfErr result IsNoCycleFault }
    ensures refused { IfErr result (RefusesText (run_of galley.now).end (why_report galley.now) (K.held out.old) (K.held out.new)) }

    ensures cause { result ≡ Err PageFault.WriteFault → Rose (K.faults out.old) (K.faults out.new) }
    ensures later { K.faults out.old ≤ K.faults out.new }
{
    let mut routine = Routine::new(alloc, galley)?;
    run_on(alloc, &mut routine, out)
}

// Runs a routine from its first page on to its end.
fn run_on<K: Sink>(
    alloc: Global,
    routine: &mut Routine<'_>,
    out: &mut K,
) -> Result<Totals, PageFault>
    requires ready { IsReady routine.old }
    requires params { IsTrue (are_params routine.old.machine.params) }
    requires page { (state_of routine.old).page ≡ 1 }
    requires cycles { (state_of routine.old).dead_cycles ≡ 0 }

    ensures done { IfOk result (Explains (run_on routine.old) (why_text (state_of routine.old)) (K.held out.old) (K.held out.new)) }
    ensures refused { IfErr result (RefusesText (run_on routine.old).end (why_text (state_of routine.old)) (K.held out.old) (K.held out.new)) }
    ensures cause { result ≡ Err PageFault.WriteFault → Rose (K.faults out.old) (K.faults out.new) }
    ensures later { K.faults out.old ≤ K.faults out.new }
{
    let mut kept = Vec::new(alloc);
    put(&mut kept, HEADER)?;
    let mut totals = Totals::new();
    let mut summary = Summary::new(alloc);
    let mut happened = Vec::new(alloc);
    let mut shown = Vec::new(alloc);
    if let Some(ending) = routine.node_limit() {
        return sum_up(alloc, routine, &totals, &summary, ending, &mut kept, out);
    }
    'firing: loop {
        let ending = told_turn(alloc, routine, &mut happened, &mut shown)?;
        count_happened(&routine.store, &happened, &mut totals);
        send(&routine.store, &shown, &mut summary, &mut kept, out)?;
        if let Some(ending) = ending {
            return sum_up(alloc, routine, &totals, &summary, ending, &mut kept, out);
        }
        routine.done_with(&happened);
    }
}

// Sums up what is shown, and keeps its lines; what is kept is written once it is long.
fn send<K: Sink>(
    store: &Lists<Node>,
    shown: &[Showing],
    summary: &mut Summary,
    kept: &mut Vec<u8>,
    out: &mut K,
) -> Result<(), SinkFault>
    requires pages { AreShownPages store.now shown.now }
    requires few { sheets_of summary.old.sheets (all_shown_of store.now shown.now) < 2 ^ 63 }
    ensures shown { Sends View.Trace (K.held out.old) (K.held out.new) (K.faults out.old) (K.faults out.new) kept.old.items kept.new.items (all_shown_lines (all_shown_of store.now shown.now)) result }
    ensures summed { OnOk result (summary.new ≡ summed (all_shown_of store.now shown.now) summary.old) }
{
    note_shown(summary, store, shown)?;
    put_shown(kept, store, shown)?;
    if kept.len() < PIECE {
        return Ok(());
    }
    show(View::Trace, kept.as_slice(), out)?;
    kept.clear();
    Ok(())
}

// The end of a run: the lines of the floats, and then the end as in a trace.
fn sum_up<K: Sink>(
    alloc: Global,
    routine: &Routine<'_>,
    totals: &Totals,
    summary: &Summary,
    ending: Ending,
    kept: &mut Vec<u8>,
    out: &mut K,
) -> Result<Totals, PageFault>
    requires { IsLive routine.now.store routine.now.builder.page }
    ensures done { IfOk result (EndsWell View.Trace routine.now totals.now ending (kept.old.items ++ story_lines summary.now.stories) (K.held out.old) (K.held out.new)) }
    ensures refused { IfErr result (StopsWith View.Trace routine.now totals.now ending (kept.old.items ++ story_lines summary.now.stories) (K.held out.old) (K.held out.new) (K.faults out.old) (K.faults out.new)) }
    ensures later { K.faults out.old ≤ K.faults out.new }
{
    summary.put_lines(kept)?;
    finish(alloc, routine, View::Trace, totals, ending, kept, out)
}
