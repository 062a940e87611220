//! Worked rows of the definitions.
ghost use Rattle.tb_rate.specs.Rows.{DemeritRows};

/// The definition of demerits gives the worked rows, from the bytes of each galley.
pub fn check_demerits()
    ensures { DemeritRows }
{}
