//! Laws of what is shown of whole runs: each function is a theorem, stated by its contract, and does nothing.

ghost use Rattle.tb_why_laws.specs.OneColumn.{OneColumnFloatsLandInTime};
ghost use Rattle.tb_why_laws.specs.WholeRuns.{ShownInOrder, TimesAreSheets};

/// What is shown of the run of a valid galley is in order, however the run ends. Where a column is put out, each float that
/// waits has a reason, and one that stands in its text does not wait; a float that is kept back or placed waits, or was placed
/// since the last sheet; and no page that is sent holds a float that waits.
pub fn shown_runs_are_in_order()
    ensures { ShownInOrder }
{}

/// In the summary of the run of a valid galley the sum of a story's times is the number of sheets since its float was called:
/// up to now while the float waits, and up to where it was placed else.
pub fn times_of_runs_are_sheets()
    ensures { TimesAreSheets }
{}

/// In the summary of the run of a valid galley without items `twocolumn` and `page`, each float that landed did so as many pages behind
/// the page of its call as its times add up to.
pub fn one_column_floats_land_in_time()
    ensures { OneColumnFloatsLandInTime }
{}
