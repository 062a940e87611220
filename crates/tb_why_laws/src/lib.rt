//! The laws of what is shown of whole runs: each public function is a theorem, stated by its contract, and does nothing.
#![tactic(auto)]

mod laws;

pub use laws::{one_column_floats_land_in_time, shown_runs_are_in_order, times_of_runs_are_sheets};
