//! Page breaks that are put into a galley: the places where one may go, and the galley with some of them. A break is
//! `penalty -10000`, as an author writes `\pagebreak`, so no rule of the page builder or of the output routine changes.
#![tactic(auto)]

mod broken_galley;
mod walk;

pub use broken_galley::with_breaks;
pub use walk::{Before, places};
