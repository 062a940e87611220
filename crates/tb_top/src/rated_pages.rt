//! From a galley to the report of its run with the ratings of its text columns.

ghost use Rattle.std.specs.Prelude.{◌≡◌, ◌≤◌, ◌+◌, ◌++◌, ◌+ℤ◌, ◌≤ℤ◌, pos, None, Err, IsTrue, OnOk, IfOk, IfErr, IfNone, IfSome};
ghost use Rattle.std.specs.List.{AllByRecursion};
ghost use Rattle.tb_io.specs.Faults.{Rose};
ghost use Rattle.tb_galley.specs.Valid.{IsValid};
ghost use Rattle.tb_pool.specs.Lists.{IsLive};
ghost use Rattle.tb_param.specs.Ranges.{are_params};
ghost use Rattle.tb_items.specs.Happenings.{event_of, events_of, IsPage, ArePages};
ghost use Rattle.tb_report.specs.RunTotals.{AreCounts};
ghost use Rattle.tb_steps.specs.Run.{run_of, run_of_state};
ghost use Rattle.tb_run.specs.Routine.{IsReady, state_of};
ghost use Rattle.tb_laws.specs.Totals.{totals_of};
ghost use Rattle.tb_laws.specs.Laws.{KeepsLaws, WithinLimits};
ghost use Rattle.tb_laws.specs.DeadCycles.{HasRoomForCycles};
ghost use Rattle.tb_rate.specs.Places.{IsMildPlace};
ghost use Rattle.tb_rate.specs.Rating.{rating, IsTried};
ghost use Rattle.tb_rate.specs.RatedRun.{demerits, demerits_if, demerits_of_state, floats_waiting, insertions_first, rated_of_state, rated_run};
ghost use Rattle.tb_best.specs.BestLines.{broken_columns};
ghost use Rattle.tb_rate.specs.RatingLines.{rating_lines};
ghost use Rattle.tb_rate.specs.Tries.{last_champion, first_number};
ghost use Rattle.tb_top.specs.Pages.{end_fault, IsNoCycleFault, RefusesText};
ghost use Rattle.tb_top.specs.Report.{all_lines, event_lines};
ghost use Rattle.tb_top.specs.RatedReport.{rated_report, rated_text};
ghost use Rattle.tb_top.specs.RatedPages.{Rates, IsGreedy, StopsRated};
ghost use Rattle.tb_top.specs.BestText.{shown_columns, turn_columns};
ghost use Rattle.tb_top.specs.CanRun.{CanRun};
ghost use Rattle.tb_top.specs.RatedWritten.{unless_ended, last_rated_lines, EndsWell, StopsWith, IsRated};
ghost use Rattle.tb_top.specs.Views.{Shows, with_events};

use crate::pages::fault_of;
use crate::views::{count_happened, show};
use crate::{PageFault, View};
use std::alloc::{AllocError, Global};
use tb_galley::Galley;
use tb_io::{Sink, SinkFault, SureSink};
use tb_items::Happening;
use tb_node::Node;
use tb_pool::Lists;
use tb_rate::{
    PlacePenalty, Rating, first_number, insertions_first, last_champion, place_penalties,
    put_demerits, put_rating, rate,
};
use tb_report::{HEADER, Totals, end_text, put_sent};
use tb_run::{Ending, Routine};

/// A column that is rated.
#[derive(Clone, Copy)]
pub(crate) struct RatedColumn {
    /// The line of the item at which it broke.
    pub(crate) line: u32,
    /// The number of its page.
    pub(crate) page: u64,
}

/// Makes the pages of a galley and writes the report of the run, with a line after what each firing sent that put out a text
/// column: the column's page, its badness and its penalty, how many floats wait after it, how many insertions it had no room
/// for, and its demerits. After the last line of the report comes the sum of the demerits, which is returned.
///
/// The run ends well or is refused as in [`paginate`](crate::paginate); its text up to there is written then, with no sum. If
/// it ended well it kept the laws of whole runs. After `WriteFault`, which comes only if `out` failed, and after `Memory` a
/// prefix of the text is written.
pub fn rate_pages<K: Sink>(alloc: Global, galley: &Galley, out: &mut K) -> Result<i128, PageFault>
    requires valid { IsValid galley.now }

    ensures done { IfOk result (Rates (run_of galley.now).end (demerits galley.now) (rated_report galley.now) (K.held out.old) (K.held out.new)) }
    ensures range { IfOk result IsGreedy }
    ensures laws { IfOk result (λ d. KeepsLaws galley.now (totals_of (run_of galley.now).events)) }
    ensures limits { WithinLimits (run_of galley.now) }
    ensures cycles { HasRoomForCycles galley.now → IfErr result IsNoCycleFault }
    ensures refused { IfErr result (RefusesText (run_of galley.now).end (rated_report galley.now) (K.held out.old) (K.held out.new)) }

    ensures cause { result ≡ Err PageFault.WriteFault → Rose (K.faults out.old) (K.faults out.new) }
    ensures later { K.faults out.old ≤ K.faults out.new }
{
    let places = place_penalties(alloc, galley.items.as_slice())?;
    let mut routine = Routine::new(alloc, galley)?;
    let mut columns = Vec::new(alloc);
    run_on(alloc, places.as_slice(), &mut routine, &mut columns, out)
}

/// The columns that are rated of a galley that can be run, in their order. The run ends well or is refused as in [`rate_pages`].
pub(crate) fn rated_columns(alloc: Global, galley: &Galley) -> Result<Vec<RatedColumn>, PageFault>
    requires { CanRun galley.now }
    ensures columns { IfOk result (λ cs. shown_columns cs.items ≡ broken_columns None (rated_run galley.now)) }
    ensures done { IfOk result (λ cs. end_fault (run_of galley.now).end ≡ None) }
    ensures refused { IfErr result (StopsRated (run_of galley.now).end) }
{
    let places = place_penalties(alloc, galley.items.as_slice())?;
    let mut routine = Routine::new(alloc, galley)?;
    let mut columns = Vec::new(alloc);
    let mut unseen = SureSink::new(alloc);
    run_on(
        alloc,
        places.as_slice(),
        &mut routine,
        &mut columns,
        &mut unseen,
    )?;
    Ok(columns)
}

// Runs a routine from its first page on to its end, and appends the columns that are rated.
fn run_on<K: Sink>(
    alloc: Global,
    places: &[PlacePenalty],
    routine: &mut Routine<'_>,
    columns: &mut Vec<RatedColumn>,
    out: &mut K,
) -> Result<i128, PageFault>
    requires ready { IsReady routine.old }
    requires ranges { IsTrue (are_params routine.old.machine.params) }
    requires page { (state_of routine.old).page ≡ 1 }
    requires cycles { (state_of routine.old).dead_cycles ≡ 0 }
    requires mild { AllByRecursion IsMildPlace places.now }

    ensures done { IfOk result (Rates (run_of_state (state_of routine.old)).end (demerits_of_state places.now (state_of routine.old)) (rated_text places.now (state_of routine.old)) (K.held out.old) (K.held out.new)) }
    ensures range { IfOk result IsGreedy }
    ensures columns { OnOk result (shown_columns columns.new.items ≡ shown_columns columns.old.items ++ broken_columns None (rated_of_state places.now (state_of routine.old))) }
    ensures refused { IfErr result (RefusesText (run_of_state (state_of routine.old)).end (rated_text places.now (state_of routine.old)) (K.held out.old) (K.held out.new)) }
    ensures cause { result ≡ Err PageFault.WriteFault → Rose (K.faults out.old) (K.faults out.new) }
    ensures later { K.faults out.old ≤ K.faults out.new }
{
    show(View::Report, HEADER, out)?;
    let mut totals = Totals::new();
    let mut demerits = 0;
    let mut happened = Vec::new(alloc);
    let mut text = Vec::new(alloc);
    if let Some(ending) = routine.node_limit() {
        return finish(alloc, routine, &totals, demerits, ending, out);
    }
    'firing: loop {
        let ending = routine.turn(true, &mut happened)?;
        let rating = rating_of(places, routine, &happened, ending);
        send(
            &routine.store,
            &happened,
            rating,
            &mut totals,
            &mut text,
            out,
        )?;
        if let Some(ending) = ending {
            return finish(alloc, routine, &totals, demerits, ending, out);
        }
        note_column(columns, &happened, rating)?;
        demerits = demerits_with(demerits, rating);
        routine.done_with(&happened);
    }
}

// The rating of the column that the last turn put out. A turn that ends the run puts out none, or one that does not count.
fn rating_of(
    places: &[PlacePenalty],
    routine: &Routine<'_>,
    happened: &[Happening],
    ending: Option<Ending>,
) -> Option<Rating>
    requires ready { IfNone ending (IsReady routine.now) }
    requires tried { IfSome (last_champion (events_of routine.now.store happened.now)) IsTried }
    requires mild { AllByRecursion IsMildPlace places.now }
    ensures value { result ≡ unless_ended ending (rating (state_of routine.now).params places.now (first_number (state_of routine.now).number (events_of routine.now.store happened.now)) (last_champion (events_of routine.now.store happened.now)) (floats_waiting (state_of routine.now).floats) (insertions_first (state_of routine.now).waiting)) }
    ensures range { IfSome result IsRated }
{
    if let Some(_) = ending {
        return None;
    }
    let params = routine.machine.params();
    let held = insertions_first(&routine.store, routine.builder.waiting(), &routine.left);
    let waiting = routine.machine.floats_waiting();
    let page = first_number(happened, routine.machine.standing().number);
    rate(params, places, page, last_champion(happened), waiting, held)
}

// Appends the column that a turn put out, if it is rated.
fn note_column(
    columns: &mut Vec<RatedColumn>,
    happened: &[Happening],
    rating: Option<Rating>,
) -> Result<(), AllocError>
    ensures { OnOk result ((store : Lists Node) → shown_columns columns.new.items ≡ shown_columns columns.old.items ++ turn_columns (events_of store happened.now) rating) }
{
    let Some(rating) = rating else {
        return Ok(());
    };
    let Some(broke) = last_champion(happened) else {
        return Ok(());
    };
    columns.push(RatedColumn {
        line: broke.line,
        page: rating.page,
    })?;
    Ok(())
}

// The demerits with those of a rating.
fn demerits_with(demerits: i128, rating: Option<Rating>) -> i128
    requires low { pos 0 ≤ℤ demerits }
    requires high { demerits ≤ℤ pos 1000000000000000000000000000 }
    requires range { IfSome rating IsRated }
    ensures { result ≡ demerits +ℤ demerits_if rating }
{
    match rating {
        Some(rating) => demerits + rating.demerits,
        None => demerits,
    }
}

// Counts what was sent, and writes its lines and that of the rating, in a text that is used again.
fn send<K: Sink>(
    store: &Lists<Node>,
    happened: &[Happening],
    rating: Option<Rating>,
    totals: &mut Totals,
    text: &mut Vec<u8>,
    out: &mut K,
) -> Result<(), SinkFault>
    requires pages { ArePages store.now happened.now }
    requires room { AreCounts (with_events (events_of store.now happened.now) totals.old) }
    ensures shown { Shows View.Report (K.held out.old) (K.held out.new) (K.faults out.old) (K.faults out.new) (all_lines event_lines (events_of store.now happened.now) ++ rating_lines rating) result }
    ensures counted { OnOk result (totals.new ≡ with_events (events_of store.now happened.now) totals.old) }
{
    count_happened(store, happened, totals);
    text.clear();
    put_reports(text, store, happened)?;
    put_rated(text, rating)?;
    show(View::Report, text.as_slice(), out)
}

// The lines of what was sent, without those of the places that were tried.
fn put_reports(
    text: &mut Vec<u8>,
    store: &Lists<Node>,
    happened: &[Happening],
) -> Result<(), AllocError>
    requires pages { ArePages store.now happened.now }
    ensures { OnOk result (text.new.items ≡ text.old.items ++ all_lines event_lines (events_of store.now happened.now)) }
{
    for happening in happened {
        put_report(text, store, happening)?;
    }
    Ok(())
}

fn put_report(
    text: &mut Vec<u8>,
    store: &Lists<Node>,
    happening: &Happening,
) -> Result<(), AllocError>
    requires { IsPage store.now happening.now }
    ensures { OnOk result (text.new.items ≡ text.old.items ++ event_lines (event_of store.now happening.now)) }
{
    match happening {
        Happening::Tried(_) => Ok(()),
        Happening::Sent(event) => put_sent(text, store, &event.sent),
    }
}

// The line of a rating, if there is one.
fn put_rated(text: &mut Vec<u8>, rating: Option<Rating>) -> Result<(), AllocError>
    ensures { OnOk result (text.new.items ≡ text.old.items ++ rating_lines rating) }
{
    match rating {
        Some(rating) => put_rating(text, &rating),
        None => Ok(()),
    }
}

// The end of a run: the lines of what is left, the last line of the report and the demerits, if it ends well, or its refusal.
fn finish<K: Sink>(
    alloc: Global,
    routine: &Routine<'_>,
    totals: &Totals,
    demerits: i128,
    ending: Ending,
    out: &mut K,
) -> Result<i128, PageFault>
    requires { IsLive routine.now.store routine.now.builder.page }
    ensures done { IfOk result (EndsWell routine.now totals.now demerits ending (K.held out.old) (K.held out.new)) }
    ensures refused { IfErr result (StopsWith routine.now totals.now demerits ending (K.held out.old) (K.held out.new) (K.faults out.old) (K.faults out.new)) }
    ensures later { K.faults out.old ≤ K.faults out.new }
{
    if let Some(fault) = fault_of(ending) {
        return Err(fault);
    }
    let mut text = end_text(alloc, &routine.store, routine.builder.on_page(), totals)?;
    put_demerits(&mut text, demerits)?;
    show(View::Report, &text, out)?;
    Ok(demerits)
}
