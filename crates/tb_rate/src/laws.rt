//! Laws of a run with its ratings: each function is a theorem, stated by its contract, and does nothing.

ghost use Rattle.std.specs.Prelude.{◌≡◌, IfSome};
ghost use Rattle.tb_galley.specs.declared.Galley.{Galley};
ghost use Rattle.tb_output.specs.State.{State};
ghost use Rattle.tb_steps.specs.Run.{run_of, step, step_events};
ghost use Rattle.tb_rate.specs.Rating.{IsTried};
ghost use Rattle.tb_rate.specs.Tries.{last_champion};
ghost use Rattle.tb_rate.specs.RatedRun.{rated_run, happened_among};

/// A rating changes nothing: without the ratings, what is shown of the run of a galley are the run's events.
pub fn ratings_change_nothing()
    ensures { (g : Galley) → happened_among (rated_run g) ≡ (run_of g).events }
{}

/// The place at which a page breaks is as [`rate`](crate::rate) asks for it.
pub fn breaks_can_be_rated()
    ensures { (s : State) → IfSome (last_champion (step_events (step s))) IsTried }
{}
