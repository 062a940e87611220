//! Whether two states of the search are the same but for their counts, and which has the smaller ones.

ghost use Rattle.std.specs.Prelude.{◌≡◌, ◌↔◌, IsTrue};
ghost use Rattle.tb_best.specs.Counts.{counts_of, AreNoGreater};
ghost use Rattle.tb_search.specs.Branches.{shown, IsBranch};
ghost use Rattle.tb_search.specs.SameStates.{without_counts};

use crate::Branch;

impl Branch<'_> {
    /// Whether two states of one galley are the same but for their counts and for the left column that is kept, on which no
    /// later page depends. What is ahead is not looked at.
    pub fn is_same(&self, other: &Branch<'_>) -> bool
        requires mine { IsBranch self.now }
        requires others { IsBranch other.now }
        requires classes { (shown self.now).classes ≡ (shown other.now).classes }

        ensures { IsTrue result ↔ (without_counts (shown self.now) ≡ without_counts (shown other.now)) }
    {
        let (mine, others) = (&self.routine, &other.routine);
        mine.machine
            .shows_same(&mine.store, &others.machine, &others.store)
            && mine
                .builder
                .holds_same(&mine.store, &others.builder, &others.store)
    }

    /// Whether no count of a state is greater than that of another of the same galley, and its marginal notes go to the same
    /// sides, if they may change sides from page to page in the galley.
    pub fn counts_within(&self, other: &Branch<'_>, may_alternate: bool) -> bool
        ensures { IsTrue result ↔ AreNoGreater may_alternate (counts_of (shown self.now)) (counts_of (shown other.now)) }
    {
        self.routine
            .machine
            .counts_within(&other.routine.machine, may_alternate)
    }
}
