//! The laws of whole runs, over the output routine's definitions and those of a run: each public function is a theorem,
//! stated by its contract, and does nothing.
#![tactic(auto)]

mod laws;

pub use laws::{
    areas_keep_their_numbers, breaks_keep_limits, breaks_keep_order, breaks_keep_valid,
    breaks_ship_once, classes_keep_their_order, dead_cycles_are_few, dvi_files_list_their_pages,
    each_ships_once, floats_keep_the_limits, lists_are_emptied, runs_are_defined,
};
