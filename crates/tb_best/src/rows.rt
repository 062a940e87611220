//! Worked rows of the definitions.
ghost use Rattle.tb_best.specs.Rows.{PlanRows, LineRows};

/// The definitions give the best plan of each worked row, from the bytes of its galley: all its plans are run.
pub fn check_plans()
    ensures { PlanRows }
{}

/// They give the lines of each worked row that come before its report.
pub fn check_lines()
    ensures { LineRows }
{}
