//! Laws of the definitions, and their worked rows.
ghost use Rattle.tb_lines.specs.Laws.{SolutionsAreLeast, GalleysAreAccepted};
ghost use Rattle.tb_lines.specs.Rows.{LinesRows};

/// The solution by which a text's galley is defined is the least of all feasible solutions of its paragraph, and of several
/// the one whose breaks, read from the last, are lexicographically greatest; there is none exactly if no solution is feasible.
pub fn solutions_are_least()
    ensures { SolutionsAreLeast }
{}

/// Every galley of lines is a galley: the grammar of [`tb_galley`] accepts it.
pub fn galleys_are_accepted()
    ensures { GalleysAreAccepted }
{}

/// The definition against which [`lines_galley`](crate::lines_galley) is proved gives the worked rows.
pub fn check_lines()
    ensures { LinesRows }
{}
