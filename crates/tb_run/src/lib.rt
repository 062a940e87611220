//! The run of a galley, page by page: the page builder fills a page over one store of nodes, and the output routine's
//! machine serves it.
#![tactic(auto)]

mod asks;
mod classes;
mod copies;
mod routine;
mod unlimited;

pub use routine::{Ending, Filled, Routine};
