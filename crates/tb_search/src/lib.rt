//! The search for the best pages. A state of it is a run whose pages were made of the items that were taken so far, with the
//! items that are still ahead, and the moves of the search are its calls.
#![tactic(auto)]

mod beam;
mod branch;
mod calm;
mod copies;
mod cuts;
mod moves;
mod penalties;
mod plain;
mod prices;
mod same;
mod search;
mod table;
mod trials;

pub use crate::branch::{Branch, Filled};
pub use crate::penalties::Penalties;
pub use crate::search::{BestFault, BestPlan, best_breaks};
