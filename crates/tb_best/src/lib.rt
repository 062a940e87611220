//! The best pages of a document: page breaks put into a galley so that all its pages together have the least demerits. The
//! definition of the best plan, and its mathematics: a table of states that is closed under the moves of a search has the least
//! demerits of all plans.
#![tactic(auto)]

mod laws;
mod rows;

pub use crate::laws::{
    best_is_never_worse, best_of_all_is_best, best_plan_is_one, best_plan_is_there,
    best_plans_have_closed_tables, breaks_fire, closed_page_tables_have_the_best,
    closed_tables_have_the_best, ends_are_plans, good_ends_are_quiet, left_columns_are_alike,
    limits_change_no_plan, notes_keep_sides, plans_are_rated, smaller_counts_are_as_good,
    steps_look_no_further, tidied_states_are_alike,
};
pub use crate::rows::{check_lines, check_plans};
