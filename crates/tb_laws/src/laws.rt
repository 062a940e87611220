//! Laws of whole runs: each function is a theorem, stated by its contract, and does nothing.

ghost use Rattle.tb_laws.specs.AreaNumbers.{NumbersHold};
ghost use Rattle.tb_laws.specs.DeadCycles.{DeadCyclesAreFew};
ghost use Rattle.tb_laws.specs.Firings.{BoundsAgree, EndsHaveReasons};
ghost use Rattle.tb_laws.specs.PlanLaws.{BreaksKeepLimits, BreaksKeepOrder, BreaksKeepTotals, BreaksKeepValid, BreaksShipOnce, PlansKeepOrder};
ghost use Rattle.tb_laws.specs.Laws.{ClassesKeepOrder, EachShipsOnce, FilesListTheirPages, LimitsHold, ListsAreEmptied, TotalsAreKept};

/// The run of a galley is defined: each firing ships a page or adds to the dead cycles, so the bound on the firings, with
/// which a run starts, is never met.
pub fn runs_are_defined()
    ensures bounds { BoundsAgree }
    ensures reasons { EndsHaveReasons }
{}

/// Floats keep the limits, however the run of a valid galley ends. When a float without the mark `!` is placed at the top,
/// at the bottom or above both columns, fewer floats are there than may be, and these with their separators and its height
/// are less than the area's share. When one is placed in the text, at the top or at the bottom, these three together have
/// fewer floats than `totalnumber`. The limits are those of the parameters that hold when the float is placed.
pub fn floats_keep_the_limits()
    ensures { LimitsHold }
{}

/// No area overflows, however the run of a valid galley ends: at no moment are more floats without the mark `!` at the top,
/// at the bottom or above both columns than `topnumber`, `bottomnumber` or `dbltopnumber`, nor in the text, at the top and
/// at the bottom together more than `totalnumber`, by the parameters that hold then. It is said of the lists just before
/// and after each float is placed, since nothing else adds to an area; where items set these numbers nothing is in an area.
pub fn areas_keep_their_numbers()
    ensures { NumbersHold }
{}

/// The float lists are emptied: all seven are empty at each change of columns and at each item that sets a measure, however
/// the run of a valid galley ends, and at its end if it ends well.
pub fn lists_are_emptied()
    ensures { ListsAreEmptied }
{}

/// If a run of a valid galley ends well, everything ships once: the boxes and rules outside feet in the order of the
/// galley, and each box and rule of a foot, each float and each marginal note exactly once. The totals of the run are those
/// of the galley.
pub fn each_ships_once()
    ensures once { EachShipsOnce }
    ensures totals { TotalsAreKept }
{}

/// If a run of a valid galley ends well, the floats of a class keep their order: each ships before every later one of its
/// class in the galley, in release 2014 of its class and its width as it was taken, except a float in the text that a break
/// carried, which is in a later column than the one in which it was placed. Ships are ordered by page; on a page, the
/// floats above both columns, then the columns from left to right; in a column, by its list.
pub fn classes_keep_their_order()
    ensures { ClassesKeepOrder }
{}

/// Dead cycles are few: a run of a valid galley does not end for its dead cycles if their limit allows four for each float,
/// title, marginal note, page that is made higher, clear and change of columns, and sixteen besides.
pub fn dead_cycles_are_few()
    ensures { DeadCyclesAreFew }
{}

/// DVI files list their pages: if a run of a valid galley ends well, each of its pages is in range and its DVI file has at
/// most 8388608 bytes, the lister's machine on the file lists exactly the placements of the run, page by page.
pub fn dvi_files_list_their_pages()
    ensures { FilesListTheirPages }
{}

/// Page breaks that are put into a valid galley leave it valid, if it has then no more items than a galley may have and none
/// stands between `twocolumn` and its `head`, or between a clear or a change of columns and a measure that is set behind it.
/// Those of a plan do not stand there.
pub fn breaks_keep_valid()
    ensures valid { BreaksKeepValid }
    ensures order { PlansKeepOrder }
{}

/// Whatever page breaks are put into a valid galley, if its run ends well then each box, rule, float and marginal note of
/// the galley ships once, and its text in order. The totals are the galley's.
pub fn breaks_ship_once()
    ensures once { BreaksShipOnce }
    ensures totals { BreaksKeepTotals }
{}

/// Whatever page breaks are put into a valid galley, if its run ends well then the galley's floats of one class keep their
/// order.
pub fn breaks_keep_order()
    ensures { BreaksKeepOrder }
{}

/// Whatever page breaks are put into a galley, no area takes a float past its limits.
pub fn breaks_keep_limits()
    ensures { BreaksKeepLimits }
{}
