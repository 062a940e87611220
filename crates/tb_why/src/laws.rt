//! Laws of a run with what is told of it: each function is a theorem, stated by its contract, and does nothing.

ghost use Rattle.std.specs.Prelude.{◌≡◌};
ghost use Rattle.tb_param.specs.declared.Params.{Params};
ghost use Rattle.tb_galley.specs.declared.Galley.{Galley};
ghost use Rattle.tb_builder.specs.FiredPages.{Fired};
ghost use Rattle.tb_output.specs.State.{State};
ghost use Rattle.tb_output.specs.Output.{out};
ghost use Rattle.tb_steps.specs.Run.{run_of};
ghost use Rattle.tb_why.specs.Firing.{firing_pieces};
ghost use Rattle.tb_why.specs.WhyRun.{happened_among, shown_run};
ghost use Rattle.tb_why.specs.ShownLines.{all_event_lines};
ghost use Rattle.tb_why.specs.Placements.{placements_of, placements_told};

/// What is told changes nothing: without it, what is shown of the run of a galley are the run's events, and their lines are
/// those of the trace.
pub fn what_is_told_changes_nothing()
    ensures events { (g : Galley) → happened_among (shown_run g) ≡ (run_of g).events }
    ensures lines { (g : Galley) → all_event_lines (happened_among (shown_run g)) ≡ all_event_lines (run_of g).events }
{}

/// Each float that a firing places in a column, or above two, is told to go there just before, and no other: the placements
/// that are told are those that the run records, in their order.
pub fn floats_go_where_told()
    ensures { (p : Params) (s : State) (f : Fired) → placements_of (out p s f).records ≡ placements_told (firing_pieces p s f) }
{}
