//! What a view shows of a run is kept as it happens, and written in large pieces.

ghost use Rattle.std.specs.Prelude.{◌≡◌, ◌∷◌, [], ◌++◌, OnOk};
ghost use Rattle.tb_report.specs.RunTotals.{AreCounts};
ghost use Rattle.tb_items.specs.Happenings.{event_of, events_of, IsPage, ArePages};
ghost use Rattle.tb_top.specs.Report.{traced_lines, all_lines};
ghost use Rattle.tb_top.specs.Views.{Shows, Sends, viewed, with_events, is_traced};

use crate::View;
use std::alloc::AllocError;
use tb_io::{Sink, SinkFault, write_all};
use tb_items::Happening;
use tb_node::Node;
use tb_pool::Lists;
use tb_report::{Totals, put_sent};
use tb_trace::put_try;

// Whether a view shows the places that were tried.
pub(crate) fn is_traced(view: View) -> bool
    ensures { result ≡ is_traced view }
{
    match view {
        View::Report => false,
        View::Trace => true,
        View::Silent => false,
    }
}

// Writes bytes of the report, if the view shows them.
pub(crate) fn show<K: Sink>(view: View, bytes: &[u8], out: &mut K) -> Result<(), SinkFault>
    ensures { Shows view (K.held out.old) (K.held out.new) (K.faults out.old) (K.faults out.new) bytes.now result }
{
    match view {
        View::Silent => Ok(()),
        View::Report | View::Trace => write_all(out, bytes),
    }
}

// A text that is kept is written once it has so many bytes.
pub(crate) const PIECE: usize = 32768;

// Counts what was sent, and keeps the lines of what happened; what is kept is written once it is long.
#[inline(always)]
pub(crate) fn send<K: Sink>(
    store: &Lists<Node>,
    happened: &[Happening],
    view: View,
    totals: &mut Totals,
    kept: &mut Vec<u8>,
    out: &mut K,
) -> Result<(), SinkFault>
    requires pages { ArePages store.now happened.now }
    requires room { AreCounts (with_events (events_of store.now happened.now) totals.old) }
    ensures shown { Sends view (K.held out.old) (K.held out.new) (K.faults out.old) (K.faults out.new) kept.old.items kept.new.items (all_lines traced_lines (events_of store.now happened.now)) result }
    ensures counted { OnOk result (totals.new ≡ with_events (events_of store.now happened.now) totals.old) }
{
    count_happened(store, happened, totals);
    put_happened(kept, store, happened, view)?;
    if kept.len() < PIECE {
        return Ok(());
    }
    show(view, kept.as_slice(), out)?;
    kept.clear();
    Ok(())
}

// Counts the pages and warnings that were sent.
#[inline(always)]
pub(crate) fn count_happened(store: &Lists<Node>, happened: &[Happening], totals: &mut Totals)
    requires pages { ArePages store.now happened.now }
    requires room { AreCounts (with_events (events_of store.now happened.now) totals.old) }
    ensures { totals.new ≡ with_events (events_of store.now happened.now) totals.old }
{
    for happening in happened {
        count_happening(store, happening, totals);
    }
}

#[inline(always)]
fn count_happening(store: &Lists<Node>, happening: &Happening, totals: &mut Totals)
    requires page { IsPage store.now happening.now }
    requires room { AreCounts (with_events (event_of store.now happening.now ∷ []) totals.old) }
    ensures { totals.new ≡ with_events (event_of store.now happening.now ∷ []) totals.old }
{
    match happening {
        Happening::Tried(_) => {}
        Happening::Sent(event) => totals.count(store, &event.sent),
    }
}

// Appends the lines of what happened to a text, unless the view shows nothing.
#[inline(always)]
fn put_happened(
    text: &mut Vec<u8>,
    store: &Lists<Node>,
    happened: &[Happening],
    view: View,
) -> Result<(), AllocError>
    requires pages { ArePages store.now happened.now }
    ensures { OnOk result (viewed view text.new.items ≡ viewed view (text.old.items ++ all_lines traced_lines (events_of store.now happened.now))) }
{
    match view {
        View::Silent => Ok(()),
        View::Report | View::Trace => put_lines(text, store, happened),
    }
}

#[inline(always)]
fn put_lines(
    text: &mut Vec<u8>,
    store: &Lists<Node>,
    happened: &[Happening],
) -> Result<(), AllocError>
    requires pages { ArePages store.now happened.now }
    ensures { OnOk result (text.new.items ≡ text.old.items ++ all_lines traced_lines (events_of store.now happened.now)) }
{
    for happening in happened {
        put_happening(text, store, happening)?;
    }
    Ok(())
}

#[inline(always)]
fn put_happening(
    text: &mut Vec<u8>,
    store: &Lists<Node>,
    happening: &Happening,
) -> Result<(), AllocError>
    requires { IsPage store.now happening.now }
    ensures { OnOk result (text.new.items ≡ text.old.items ++ traced_lines (event_of store.now happening.now)) }
{
    match happening {
        Happening::Tried(tried) => put_try(text, tried),
        Happening::Sent(event) => put_sent(text, store, &event.sent),
    }
}
