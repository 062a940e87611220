//! A law of the mode why: a theorem, stated by its contract. It does nothing.

ghost use Rattle.std.specs.Prelude.{◌≡◌};
ghost use Rattle.tb_galley.specs.declared.Galley.{Galley};
ghost use Rattle.tb_galley.specs.Valid.{IsValid};
ghost use Rattle.tb_steps.specs.Run.{run_of};
ghost use Rattle.tb_why.specs.Told.{without_told};
ghost use Rattle.tb_top.specs.Report.{trace};
ghost use Rattle.tb_top.specs.WhyReport.{why_report};

/// The report of the mode why of a valid galley, without each line whose first word is one of those of what is told, is the
/// report of the mode trace, byte for byte.
pub fn why_without_its_lines_is_trace()
    ensures { (g : Galley) → IsValid g → without_told (why_report g) ≡ trace (run_of g) }
{}
