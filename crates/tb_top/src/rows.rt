//! Worked rows of the definitions.
ghost use Rattle.tb_top.specs.Rows.{WorkedRows};
ghost use Rattle.tb_top.specs.FloatRows.{FloatRows};
ghost use Rattle.tb_top.specs.EnlargeRows.{EnlargeRows};
ghost use Rattle.tb_top.specs.ColumnRows.{ColumnRows};
ghost use Rattle.tb_top.specs.ColumnEndRows.{ColumnEndRows};
ghost use Rattle.tb_top.specs.TitleRows.{TitleRows};
ghost use Rattle.tb_top.specs.SetRows.{SetRows};
ghost use Rattle.tb_top.specs.VersionRows.{VersionRows};
ghost use Rattle.tb_top.specs.RateRows.{RateRows};
ghost use Rattle.tb_top.specs.BestRows.{BestRows};
ghost use Rattle.tb_top.specs.WhyRows.{WhyRows};
ghost use Rattle.tb_top.specs.WhyWideRows.{WhyWideRows};
ghost use Rattle.tb_top.specs.LinesRows.{LinesRows};
ghost use Rattle.tb_top.specs.MakeupRows.{MakeupRows};
ghost use Rattle.tb_top.specs.MakeupTraceRows.{MakeupTraceRows};

/// The definitions against which [`run`](crate::run) is proved give the worked rows: from the bytes
/// of each galley the status, the report and the line on `err`, of nine the ratings of their columns, of nine the best page breaks
/// and the report with them (all plans of each are run for that), of twenty what is told of their runs, and of one the trace of its
/// run under plain TeX's page makeup.
pub fn check_rows()
    ensures text { WorkedRows }
    ensures floats { FloatRows }
    ensures enlarged { EnlargeRows }
    ensures columns { ColumnRows }
    ensures column_ends { ColumnEndRows }
    ensures titles { TitleRows }
    ensures sets { SetRows }
    ensures versions { VersionRows }
    ensures ratings { RateRows }
    ensures best { BestRows }
    ensures told { WhyRows }
    ensures told_wide { WhyWideRows }
    ensures lines { LinesRows }
    ensures makeup { MakeupRows }
    ensures makeup_trace { MakeupTraceRows }
{}
