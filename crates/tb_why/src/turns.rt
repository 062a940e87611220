//! A turn of the routine with what is told of it.

ghost use Rattle.std.specs.Prelude.{◌≡◌, ◌++◌, [], IfNone, IfOk, OnOk, true};
ghost use Rattle.tb_items.specs.Happenings.{happened_lists, ArePages};
ghost use Rattle.tb_run.specs.FilledPages.{params_in, fired_whole, CanServe, HasServed};
ghost use Rattle.tb_run.specs.Routine.{AreHappened, IsEnded, IsReady, IsTurned, state_of};
ghost use Rattle.tb_why.specs.ShownOf.{all_shown_of, AreShownPages};
ghost use Rattle.tb_why.specs.ShownTurns.{filled_shown, spot_in, waits_from};
ghost use Rattle.tb_why.specs.WhyRun.{firing_shown, step_shown};

use crate::Showing;
use crate::firings::told_pieces;
use crate::shown::show_tale;
use crate::weaving::{show_happened, show_sent};
use std::alloc::{AllocError, Global};
use tb_builder::Page;
use tb_float::Part;
use tb_items::Happening;
use tb_output::Machine;
use tb_run::{Ending, Filled, Routine};
use tb_told::{Spot, Tale};

/// One turn of the routine with what is shown of it: as `Routine::turn` with the places that were tried, and besides what
/// happened with what is told between it. Both vectors are cleared first. It fails only if memory runs out; the routine may
/// not be used again then.
pub fn told_turn(
    alloc: Global,
    routine: &mut Routine<'_>,
    happened: &mut Vec<Happening>,
    shown: &mut Vec<Showing>,
) -> Result<Option<Ending>, AllocError>
    requires { IsReady routine.old }

    ensures turned { IfOk result (λ o. IsTurned true routine.old happened.new.items o routine.new) }
    ensures ready { IfOk result (λ o. IfNone o (IsReady routine.new)) }
    ensures params { OnOk result (routine.new.machine.params ≡ params_in (state_of routine.old)) }
    ensures ended { OnOk result (IsEnded routine.new) }
    ensures pages { OnOk result (ArePages routine.new.store happened.new.items) }
    ensures lists { IfOk result (λ o. IfNone o (AreHappened routine.new happened.new.items)) }

    ensures shown { OnOk result (all_shown_of routine.new.store shown.new.items ≡ step_shown (state_of routine.old)) }
    ensures shown_pages { OnOk result (AreShownPages routine.new.store shown.new.items) }
{
    shown.clear();
    happened.clear();
    let waited = routine.machine.pool().len(Part::Second);
    match routine.fill(true, happened)? {
        Filled::Ends(ending) => {
            show_filled(shown, &routine.machine, happened.as_slice(), waited)?;
            Ok(Some(ending))
        }
        Filled::Fires(page) => {
            show_filled(shown, &routine.machine, happened.as_slice(), waited)?;
            serve_shown(alloc, routine, page, happened, shown)
        }
    }
}

// Appends what happened while a page was filled, and the wide floats that wait from now on: `waited` waited before. It fails
// only if memory runs out.
fn show_filled(
    shown: &mut Vec<Showing>,
    machine: &Machine,
    happened: &[Happening],
    waited: usize,
) -> Result<(), AllocError>
    ensures { OnOk result (shown.new.items ≡ shown.old.items ++ filled_shown waited machine.now happened.now) }
{
    show_happened(shown, happened)?;
    show_waits(shown, machine, waited)
}

// Appends that the wide floats of release 2014 wait, from this place of their list on. It fails only if memory runs out.
fn show_waits(shown: &mut Vec<Showing>, machine: &Machine, from: usize) -> Result<(), AllocError>
    ensures { OnOk result (shown.new.items ≡ shown.old.items ++ waits_from from machine.now) }
{
    let spot = spot(machine);
    for entry in machine.pool().entries_from(Part::Second, from) {
        show_tale(shown, Tale::Waits(spot, *entry.float()))?;
    }
    Ok(())
}

// The page and the column that are being made.
fn spot(machine: &Machine) -> Spot
    ensures { result ≡ spot_in machine.now }
{
    let standing = machine.standing();
    Spot {
        page: standing.number,
        second: standing.two_columns && !standing.first_column,
    }
}

// Serves the page that was filled, with what is shown of its firing. It fails only if memory runs out.
fn serve_shown(
    alloc: Global,
    routine: &mut Routine<'_>,
    page: Page,
    happened: &mut Vec<Happening>,
    shown: &mut Vec<Showing>,
) -> Result<Option<Ending>, AllocError>
    requires page { CanServe page routine.old }
    requires quiet { happened_lists happened.old.items ≡ [] }

    ensures served { IfOk result (λ o. HasServed page routine.old o routine.new happened.old.items happened.new.items) }
    ensures ready { IfOk result (λ o. IfNone o (IsReady routine.new)) }
    ensures params { OnOk result (routine.new.machine.params ≡ routine.old.machine.params) }
    ensures ended { OnOk result (IsEnded routine.new) }
    ensures pages { OnOk result (ArePages routine.new.store happened.new.items) }
    ensures lists { IfOk result (λ o. IfNone o (AreHappened routine.new happened.new.items)) }

    ensures shown { OnOk result (all_shown_of routine.new.store shown.new.items ≡ all_shown_of routine.new.store shown.old.items ++ firing_shown (state_of routine.old) (fired_whole routine.old page)) }
    ensures shown_pages { OnOk result (AreShownPages routine.new.store shown.old.items → AreShownPages routine.new.store shown.new.items) }
{
    let pieces = told_pieces(alloc, routine, &page)?;
    let before = happened.len();
    let ending = routine.serve_page(page, happened)?;
    show_sent(shown, pieces.as_slice(), &happened.as_slice()[before..])?;
    Ok(ending)
}
