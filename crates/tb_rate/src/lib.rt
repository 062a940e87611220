//! What the pages of a run cost: a rating of each text column that the page builder filled, and their demerits. Definitions of
//! a run with its ratings and of its demerits, and the calls by which a run is rated turn by turn.
#![tactic(auto)]

mod held;
mod laws;
mod lines;
mod places;
mod ratings;
mod rows;
mod tries;

pub use crate::held::insertions_first;
pub use crate::laws::{breaks_can_be_rated, ratings_change_nothing};
pub use crate::lines::{put_demerits, put_rating};
pub use crate::places::place_penalties;
pub use crate::ratings::rate;
pub use crate::rows::check_demerits;
pub use crate::tries::{first_number, last_champion};

/// A text column that the page builder filled, and what it costs.
#[derive(Clone, Copy, Debug, PartialEq, Eq)]
pub struct Rating {
    /// The number of its page.
    pub page: u64,
    /// The badness: that of the place at which the page broke, 1073741823 if it is overfull; a ragged column that is too short
    /// has one of its own, up to 10000.
    pub badness: i64,
    /// The penalty of the place; where the break was forced, that of the galley's own penalty there, or 0.
    pub penalty: i64,
    /// How many floats wait after it for a column or a page.
    pub waiting: u64,
    /// How many insertions it had no room for, or no room for all of them.
    pub held: u64,
    /// The demerits; never below 0.
    pub demerits: i128,
}

/// A penalty of a galley at which a break may be put in.
#[derive(Clone, Copy, Debug, PartialEq, Eq)]
pub struct PlacePenalty {
    /// The number of its line.
    pub line: u32,
    /// Its value, above -10000 and below 10000.
    pub penalty: i64,
}
