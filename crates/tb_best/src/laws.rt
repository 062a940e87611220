//! Laws of the best plan: each function is a theorem, stated by its contract, and does nothing.

ghost use Rattle.std.specs.Prelude.{◌≡◌, ℕ, ℤ, ◌≤ℤ◌, Bool, true, false, List, ◌∷◌, reverse, Option, Some, None, MatchOption};
ghost use Rattle.tb_galley.specs.declared.Galley.{Galley};
ghost use Rattle.tb_node.specs.PlainNodes.{PlainNode, on_line};
ghost use Rattle.tb_node.specs.declared.Act.{Act};
ghost use Rattle.tb_galley.specs.GalleyNodes.{with_firings};
ghost use Rattle.tb_builder.specs.Reach.{holds_box};
ghost use Rattle.tb_column.specs.Column.{PlainColumn};
ghost use Rattle.tb_output.specs.State.{State, Recorded};
ghost use Rattle.tb_items.specs.RunEvents.{RunEvent};
ghost use Rattle.tb_steps.specs.Run.{done, run_of, ends, goes_on, step};
ghost use Rattle.tb_rate.specs.declared.PlacePenalty.{PlacePenalty};
ghost use Rattle.tb_plans.specs.Plans.{IsPlan, with_breaks};
ghost use Rattle.tb_rate.specs.RatedRun.{demerits, more_demerits};
ghost use Rattle.tb_best.specs.PlanDemerits.{reach_in, unlimited_step, step_demerits, breaks_cost, plan_demerits};
ghost use Rattle.tb_best.specs.BestPlan.{IsBest, HasNoPlan, with_limit};
ghost use Rattle.tb_best.specs.BestOf.{RatedPlan, best_of};
ghost use Rattle.tb_best.specs.ItemsAhead.{Ahead, all_ahead, empty_start, forced, state_with};
ghost use Rattle.tb_best.specs.Sides.{may_alternate, sides_of, AheadKeep, KeepSides, KeepsSides, Sides};
ghost use Rattle.tb_best.specs.Counts.{counts_of, with_counts, AreNoGreater, Counts};
ghost use Rattle.tb_best.specs.ClosedTables.{Row, rows_know, AreAlike, IsAsGood, IsClosed, Reaches, IsEnd};
ghost use Rattle.tb_best.specs.Tidied.{tidied};
ghost use Rattle.tb_best.specs.PageTables.{IsClosedByPages};

/// If a plan has these demerits, and a table of states that is closed under the moves has no better end, then no plan of the
/// galley has fewer demerits, and of those with as many it is the one with the last breaks furthest down.
pub fn closed_tables_have_the_best()
    ensures { (g : Galley) (plan : List ℕ) (total : ℤ) (rows : List Row) → IsPlan g plan → plan_demerits g plan ≡ Some total → IsClosed g total (reverse plan) (rows_know rows) → IsBest g plan total }
{}

/// The same of a table of the states between two pages, which knows of each the states after each page that may come next: one
/// that fires by itself, and one for each place at which a break is put into it.
pub fn closed_page_tables_have_the_best()
    ensures { (g : Galley) (plan : List ℕ) (total : ℤ) (rows : List Row) → IsPlan g plan → plan_demerits g plan ≡ Some total → IsClosedByPages g total (reverse plan) (rows_know rows) → IsBest g plan total }
{}

/// For the best plan all that is reached by moves is a closed table, of both kinds. So each best plan has one.
pub fn best_plans_have_closed_tables()
    ensures states { (g : Galley) (plan : List ℕ) (total : ℤ) → IsBest g plan total → IsClosed g total (reverse plan) (Reaches g) }
    ensures pages { (g : Galley) (plan : List ℕ) (total : ℤ) → IsBest g plan total → IsClosedByPages g total (reverse plan) (Reaches g) }
{}

/// An end that is reached by moves from the beginning is a plan, with the demerits at which it was reached.
pub fn ends_are_plans()
    ensures { (g : Galley) (d : ℤ) (breaks : List ℕ) → IsEnd g d breaks → IsPlan g (reverse breaks) × (plan_demerits g (reverse breaks) ≡ Some d) }
{}

/// A step of a run looks no further than the place at which its page fires: with more nodes behind the page fires too, the run
/// goes on in the same state with these nodes behind, and the step has the same demerits.
pub fn steps_look_no_further()
    ensures fires { (s t : State) (es : List RunEvent) (rs : List Recorded) (more : List PlainNode) → step s ≡ goes_on es rs t → (reach_in (state_with more s)).fires ≡ true }
    ensures run { (s t : State) (es : List RunEvent) (rs : List Recorded) (more : List PlainNode) → step s ≡ goes_on es rs t → unlimited_step (state_with more s) ≡ goes_on es rs (state_with more t) }
    ensures demerits { (places : List PlacePenalty) (s t : State) (es : List RunEvent) (rs : List Recorded) (more : List PlainNode) → step s ≡ goes_on es rs t → step_demerits places (state_with more s) (goes_on es rs (state_with more t)) ≡ step_demerits places s (goes_on es rs t) }
{}

/// A state may stand for another: without the glue, kerns and penalties before the first box that waits, it has the same runs.
pub fn tidied_states_are_alike()
    ensures { (g : Galley) (s : State) → AreAlike g s (tidied s) }
{}

/// A state may stand for one that differs only in the left column that is kept: both have the same runs, but for what is shipped.
pub fn left_columns_are_alike()
    ensures { (g : Galley) (s : State) (c : Option PlainColumn) → AreAlike g s (record s { left_column = c }) }
{}

/// A state is as good as one whose counts are no smaller: the run from it has no more demerits. So a search may leave out one
/// that has shipped more pages, or has fired more often since, for no gain. If the galley has marginal notes and they
/// may change sides from page to page somewhere in it, they must go to the same sides in both.
pub fn smaller_counts_are_as_good()
    ensures { (g : Galley) (s : State) (c : Counts) → KeepsSides (sides_of g) s → AreNoGreater (may_alternate g) c (counts_of s) → IsAsGood g s (with_counts c s) }
{}

/// Marginal notes keep their sides throughout a run of a galley whose parameters do not let them change sides from page to page
/// and whose items do not either, and there is none throughout a run of a galley without one: so it is where it begins, with the
/// nodes of each item, and after each step.
pub fn notes_keep_sides()
    ensures begins { (g : Galley) → KeepsSides (sides_of g) (empty_start g) }
    ensures items { (g : Galley) → AheadKeep (sides_of g) (all_ahead g) }
    ensures takes { (x : Sides) (s : State) (more : List PlainNode) → KeepsSides x s → KeepSides x more → KeepsSides x (state_with more s) }
    ensures steps { (x : Sides) (s t : State) (es : List RunEvent) (rs : List Recorded) → KeepsSides x s → unlimited_step s ≡ goes_on es rs t → KeepsSides x t }
{}

/// A page with a box fires where a break is put in, and any page fires at a float or marginal note that has firings of its own.
pub fn breaks_fire()
    ensures put_in { (s : State) (c : Ahead) → holds_box s.waiting ≡ true → (reach_in (state_with (forced c ∷ c.nodes) s)).fires ≡ true }
    ensures called { (s : State) (line : ℕ) (a : Act) (vert : Bool) → (reach_in (state_with (on_line line (with_firings a vert)) s)).fires ≡ true }
{}

/// Where a step ends a run well no page fires, and the number of nodes was not met.
pub fn good_ends_are_quiet()
    ensures quiet { (s : State) (es : List RunEvent) (rs : List Recorded) (left : List PlainNode) → step s ≡ ends es rs (done left) → (reach_in s).fires ≡ false }
    ensures run { (s : State) (es : List RunEvent) (rs : List Recorded) (left : List PlainNode) → step s ≡ ends es rs (done left) → unlimited_step s ≡ ends es rs (done left) }
{}

/// If the run with the breaks ends well, the demerits of the plan are those of that run, and 1000 for each break.
pub fn plans_are_rated()
    ensures { (g : Galley) (plan : List ℕ) (d : ℤ) → demerits (with_breaks g plan) ≡ Some d → plan_demerits g plan ≡ more_demerits (breaks_cost plan) (Some d) }
{}

/// The limit on nodes is of no matter: with another one each plan has the same demerits, and the best plan is the same. So a
/// search may run with the greatest limit there is.
pub fn limits_change_no_plan()
    ensures demerits { (g : Galley) (m : ℤ) (plan : List ℕ) → plan_demerits (with_limit m g) plan ≡ plan_demerits g plan }
    ensures best { (g : Galley) (m : ℤ) (plan : List ℕ) (total : ℤ) → IsBest (with_limit m g) plan total → IsBest g plan total }
{}

/// The best of all plans, each of which is run, is the best plan; without one, the run of no plan ends well.
pub fn best_of_all_is_best()
    ensures { (g : Galley) → MatchOption (best_of g) (HasNoPlan g) (λ w. IsBest g w.plan w.total) }
{}

/// If the run of a galley ends well, it has a best plan.
pub fn best_plan_is_there()
    ensures { (g : Galley) (left : List PlainNode) → (run_of g).end ≡ done left → (w : RatedPlan) × (best_of g ≡ Some w) }
{}

/// A galley has one best plan.
pub fn best_plan_is_one()
    ensures { (g : Galley) (plan other : List ℕ) (a b : ℤ) → IsBest g plan a → IsBest g other b → (plan ≡ other) × (a ≡ b) }
{}

/// The best plan has no more demerits than the galley without breaks put in.
pub fn best_is_never_worse()
    ensures { (g : Galley) (plan : List ℕ) (total d : ℤ) → IsBest g plan total → demerits g ≡ Some d → total ≤ℤ d }
{}
