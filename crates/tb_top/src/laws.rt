//! A law of whole runs under plain TeX's page makeup: a theorem, stated by its contract. It does nothing.

ghost use Rattle.tb_top.specs.MakeupLaws.{EachMakesUpOnce};

/// If the run of a valid galley that plain TeX's page makeup serves is done, the boxes and rules outside feet ship in the
/// order of the galley, and each box and rule of a foot, and each float, exactly once. The totals of the run are those of
/// the galley.
pub fn each_makes_up_once()
    ensures { EachMakesUpOnce }
{}
