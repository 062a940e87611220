//! The run of a galley under plain TeX's page makeup, page by page: the page builder fills a page over one store of nodes,
//! and what it holds is shipped as one column.
#![tactic(auto)]

mod galley_nodes;
mod makeup;
mod makeup_left;
mod suitability;

pub use makeup::{Makeup, MakeupEnding};
pub use suitability::first_unsuited;
