//! The items of a galley as nodes that wait at the page builder, and what happens while a run makes pages of them.
#![tactic(auto)]

mod enlarging_nodes;
mod foot_nodes;
mod galley_nodes;
mod happenings;
mod items_left;
mod lone_nodes;
mod spent_lists;

pub use galley_nodes::put_item;
pub use happenings::{Event, Happening, note_sent, note_try};
pub use items_left::{ItemsLeft, all_items, batch_len};
pub use lone_nodes::put;
pub use spent_lists::{close_happened, close_list};
