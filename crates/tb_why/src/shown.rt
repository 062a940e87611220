//! What is shown of a run: its lines, and what they add to the summary.

ghost use Rattle.std.specs.Prelude.{◌≡◌, ◌<◌, ◌^◌, [], ◌∷◌, ◌++◌, OnOk};
ghost use Rattle.tb_items.specs.Happenings.{event_of, IsPage};
ghost use Rattle.tb_why.specs.ShownLines.{all_shown_lines, event_lines, shown_lines};
ghost use Rattle.tb_why.specs.ShownOf.{all_shown_of, shown_part, AreShownPages, IsShownPage};
ghost use Rattle.tb_why.specs.Summary.{after_event, after_shown, summed};
ghost use Rattle.tb_why.specs.SummaryLaws.{sheets_of};

use std::alloc::AllocError;
use std::marker::Model;
use tb_items::Happening;
use tb_node::Node;
use tb_pool::Lists;
use tb_report::put_sent;
use tb_story::Summary;
use tb_told::{Tale, put_tale};
use tb_trace::put_try;

/// What happened. It is a type of this crate, since the checker does not find the modules of what a [`Happening`] holds when
/// it fills in a type parameter. In contracts it is that [`Happening`].
#[derive(Clone, Copy)]
pub struct Happened {
    /// What happened.
    pub happening: Happening,
}

impl Model for Happened {
    ghost use Rattle.tb_items.specs.declared.happenings.Happening.{Happening};

    ghost Value = { Happening };

    ghost view = { λ h. h.happening };

    ghost inverse = { λ h. record { happening = h } };
}

/// What is told. It is a type of this crate, as [`Happened`] is. In contracts it is that [`Tale`].
#[derive(Clone, Copy)]
pub struct Telling {
    /// What is told.
    pub tale: Tale,
}

impl Model for Telling {
    ghost use Rattle.tb_told.specs.declared.Tale.{Tale};

    ghost Value = { Tale };

    ghost view = { λ t. t.tale };

    ghost inverse = { λ t. record { tale = t } };
}

/// One thing that is shown of a turn: something that happened, or that is told.
#[derive(Clone, Copy)]
pub enum Showing {
    /// A legal place was tried, or the output routine sent something.
    Happens(Happened),
    /// Something is told.
    Tells(Telling),
}

/// Appends what happened. It fails only if memory runs out.
pub(crate) fn show_happening(
    shown: &mut Vec<Showing>,
    happening: Happening,
) -> Result<(), AllocError>
    ensures { OnOk result (shown.new.items ≡ shown.old.items ++ Showing.Happens happening ∷ []) }
{
    shown.push(Showing::Happens(Happened { happening }))?;
    Ok(())
}

/// Appends what is told. It fails only if memory runs out.
pub(crate) fn show_tale(shown: &mut Vec<Showing>, tale: Tale) -> Result<(), AllocError>
    ensures { OnOk result (shown.new.items ≡ shown.old.items ++ Showing.Tells tale ∷ []) }
{
    shown.push(Showing::Tells(Telling { tale }))?;
    Ok(())
}

/// Appends the lines of what is shown, one after another. It fails only if memory runs out; a front of the lines may follow
/// what stood in `out` then.
pub fn put_shown(
    out: &mut Vec<u8>,
    store: &Lists<Node>,
    shown: &[Showing],
) -> Result<(), AllocError>
    requires pages { AreShownPages store.now shown.now }
    ensures { OnOk result (out.new.items ≡ out.old.items ++ all_shown_lines (all_shown_of store.now shown.now)) }
{
    for showing in shown {
        put_showing(out, store, showing)?;
    }
    Ok(())
}

fn put_showing(out: &mut Vec<u8>, store: &Lists<Node>, showing: &Showing) -> Result<(), AllocError>
    requires { IsShownPage store.now showing.now }
    ensures { OnOk result (out.new.items ≡ out.old.items ++ shown_lines (shown_part store.now showing.now)) }
{
    match showing {
        Showing::Happens(happened) => put_happening(out, store, &happened.happening),
        Showing::Tells(telling) => put_tale(out, &telling.tale),
    }
}

// The lines of what happened, as in a trace.
fn put_happening(
    out: &mut Vec<u8>,
    store: &Lists<Node>,
    happening: &Happening,
) -> Result<(), AllocError>
    requires { IsPage store.now happening.now }
    ensures { OnOk result (out.new.items ≡ out.old.items ++ event_lines (event_of store.now happening.now)) }
{
    match happening {
        Happening::Tried(tried) => put_try(out, tried),
        Happening::Sent(event) => put_sent(out, store, &event.sent),
    }
}

/// Takes what is shown into the summary, one after another. It fails only if memory runs out; nothing is promised of the
/// summary then.
pub fn note_shown(
    summary: &mut Summary,
    store: &Lists<Node>,
    shown: &[Showing],
) -> Result<(), AllocError>
    requires pages { AreShownPages store.now shown.now }
    requires few { sheets_of summary.old.sheets (all_shown_of store.now shown.now) < 2 ^ 63 }
    ensures { OnOk result (summary.new ≡ summed (all_shown_of store.now shown.now) summary.old) }
{
    for showing in shown {
        note_showing(summary, store, showing)?;
    }
    Ok(())
}

fn note_showing(
    summary: &mut Summary,
    store: &Lists<Node>,
    showing: &Showing,
) -> Result<(), AllocError>
    requires page { IsShownPage store.now showing.now }
    requires few { summary.old.sheets < 2 ^ 63 }
    ensures { OnOk result (summary.new ≡ after_shown (shown_part store.now showing.now) summary.old) }
{
    match showing {
        Showing::Happens(happened) => {
            note_happening(summary, store, &happened.happening);
            Ok(())
        }
        Showing::Tells(telling) => summary.note(&telling.tale),
    }
}

// A page that was shipped lands floats; a place that was tried changes nothing.
fn note_happening(summary: &mut Summary, store: &Lists<Node>, happening: &Happening)
    requires { IsPage store.now happening.now }
    ensures { summary.new ≡ after_event (event_of store.now happening.now) summary.old }
{
    match happening {
        Happening::Tried(_) => {}
        Happening::Sent(event) => summary.note_sent(store, &event.sent),
    }
}
