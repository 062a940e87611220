//! From a galley to the report of its best pages: those that the page breaks make which give the least demerits.

ghost use Rattle.std.specs.Prelude.{◌≡◌, ◌≤◌, None, Some, Err, OnOk, IfOk, IfErr};
ghost use Rattle.std.specs.Io.KnownBytes.{Appends};
ghost use Rattle.tb_io.specs.Faults.{Rose};
ghost use Rattle.tb_galley.specs.Valid.{IsValid};
ghost use Rattle.tb_steps.specs.Run.{run_of};
ghost use Rattle.tb_laws.specs.Totals.{totals_of};
ghost use Rattle.tb_laws.specs.Laws.{KeepsLaws};
ghost use Rattle.tb_laws.specs.DeadCycles.{HasRoomForCycles};
ghost use Rattle.tb_rate.specs.RatedRun.{demerits};
ghost use Rattle.tb_top.specs.Pages.{end_fault};
ghost use Rattle.tb_top.specs.PagesWritten.{write_fault};
ghost use Rattle.tb_top.specs.RatedPages.{IsGreedy, StopsRated};
ghost use Rattle.tb_top.specs.Views.{FailsToShow};
ghost use Rattle.tb_top.specs.BestReport.{WritesBest, RefusesBest, IsNoCycleRefusal, IsNoPlan};

use crate::best_text::plan_text;
use crate::pages::paginate_runnable;
use crate::rated_pages::{rate_pages, rated_columns};
use crate::views::show;
use crate::{PageFault, View};
use std::alloc::{AllocError, Global};
use tb_galley::Galley;
use tb_io::{Sink, SureSink};
use tb_plans::with_breaks;
use tb_search::{BestFault, best_breaks};

/// Why there are no best pages.
#[derive(Clone, Copy, Debug, PartialEq, Eq)]
pub enum BestPagesFault {
    /// The run without breaks put in, or the run with the best ones, was refused.
    Pages(PageFault),
    /// The search came to too many states.
    Choices,
}

impl From<PageFault> for BestPagesFault {
    ghost use Rattle.tb_top.specs.declared.chosen_pages.BestPagesFault.TheVariants.{Pages};

    ghost from_gives = { λ fault e. e ≡ Pages fault };

    fn from(fault: PageFault) -> Self {
        BestPagesFault::Pages(fault)
    }
}

impl From<AllocError> for BestPagesFault {
    ghost use Rattle.tb_top.specs.declared.PageFault.TheVariants.{Memory};
    ghost use Rattle.tb_top.specs.declared.chosen_pages.BestPagesFault.TheVariants.{Pages};

    ghost from_gives = { λ _ e. e ≡ Pages Memory };

    fn from(_: AllocError) -> Self {
        BestPagesFault::Pages(PageFault::Memory)
    }
}

impl From<BestFault> for BestPagesFault {
    ghost from_gives = { λ _ e. IsNoPlan e };

    fn from(fault: BestFault) -> Self {
        match fault {
            BestFault::Choices => BestPagesFault::Choices,
            BestFault::Memory => BestPagesFault::Pages(PageFault::Memory),
        }
    }
}

/// Writes the page breaks that make the demerits of a galley least, and the report of its run with them: the demerits of the
/// pages without breaks put in and of the best ones, and for each break the line of the item before which it goes, the number of
/// the page that ends there and the last box or rule before it.
///
/// Of all ways to put page breaks in at its places none has fewer demerits, and of several ways with as many it is the one whose
/// breaks, read from the last, are the furthest down. If the run without breaks is refused, so is this; `NodeLimit` may come too
/// from the run with the best breaks. Then nothing is written. `Choices` comes if the search came to more than 1000000 states,
/// or to one that holds more than 4194304 nodes; nothing is written. After `WriteFault` and `Memory` a prefix of the text is
/// written.
pub fn best_pages<K: Sink>(
    alloc: Global,
    galley: &Galley,
    out: &mut K,
) -> Result<(), BestPagesFault>
    requires valid { IsValid galley.now }

    ensures done { OnOk result (WritesBest galley.now (K.held out.old) (K.held out.new)) }
    ensures laws { OnOk result (KeepsLaws galley.now (totals_of (run_of galley.now).events)) }
    ensures cycles { HasRoomForCycles galley.now → IfErr result IsNoCycleRefusal }
    ensures refused { IfErr result (RefusesBest galley.now (K.held out.old) (K.held out.new)) }

    ensures cause { result ≡ Err (BestPagesFault.Pages PageFault.WriteFault) → Rose (K.faults out.old) (K.faults out.new) }
    ensures later { K.faults out.old ≤ K.faults out.new }
{
    let greedy = greedy_demerits(alloc, galley)?;
    let plan = best_breaks(alloc, galley, greedy)?;
    let broken = with_breaks(alloc, galley, plan.places.as_slice())?;
    let columns = rated_columns(alloc, &broken)?;
    let text = plan_text(
        alloc,
        galley.items.as_slice(),
        columns.as_slice(),
        greedy,
        plan.demerits,
        plan.places.as_slice(),
    )?;
    write_text(&text, out)?;
    paginate_runnable(alloc, &broken, View::Report, out)?;
    Ok(())
}

// The demerits of the pages without breaks put in.
fn greedy_demerits(alloc: Global, galley: &Galley) -> Result<i128, PageFault>
    requires { IsValid galley.now }
    ensures demerits { IfOk result (λ d. demerits galley.now ≡ Some d) }
    ensures done { IfOk result (λ d. end_fault (run_of galley.now).end ≡ None) }
    ensures laws { IfOk result (λ d. KeepsLaws galley.now (totals_of (run_of galley.now).events)) }
    ensures range { IfOk result IsGreedy }
    ensures refused { IfErr result (StopsRated (run_of galley.now).end) }
{
    let mut unseen = SureSink::new(alloc);
    rate_pages(alloc, galley, &mut unseen)
}

// Writes a text whole.
fn write_text<K: Sink>(text: &[u8], out: &mut K) -> Result<(), PageFault>
    ensures done { OnOk result (Appends (K.held out.old) (K.held out.new) text.now) }
    ensures refused { IfErr result (FailsToShow write_fault View.Report (K.held out.old) (K.held out.new) (K.faults out.old) (K.faults out.new) text.now) }
    ensures later { K.faults out.old ≤ K.faults out.new }
{
    show(View::Report, text, out)?;
    Ok(())
}
