//! Worked rows as tables, each with an input and what the program must make of it, and a call that runs one over ends in memory.
//! For tests alone.
#![tactic(auto)]

mod best_rows;
mod column_end_rows;
mod column_rows;
mod enlarge_rows;
mod float_rows;
mod heading_rows;
mod long_page;
mod many_pages;
mod mode_rows;
mod page_number_rows;
mod rate_rows;
mod rows;
mod runs;
mod set_rows;
mod title_rows;
mod version_rows;
mod why_rows;

pub use best_rows::BEST_ROWS;
pub use column_end_rows::COLUMN_END_ROWS;
pub use column_rows::COLUMN_ROWS;
pub use enlarge_rows::ENLARGE_ROWS;
pub use float_rows::FLOAT_ROWS;
pub use heading_rows::HEADING_ROWS;
pub use long_page::{long_galley, long_report};
pub use many_pages::{galley_of_many, report_of_many};
pub use mode_rows::{MODE_ROWS, ModeRow};
pub use page_number_rows::PAGE_NUMBER_ROWS;
pub use rate_rows::RATE_ROWS;
pub use rows::{ROWS, Row};
pub use runs::{Failing, INPUT, Left, NONE, REPORT, run_by, run_on, run_with, words_of};
pub use set_rows::SET_ROWS;
pub use title_rows::TITLE_ROWS;
pub use version_rows::VERSION_ROWS;
pub use why_rows::WHY_ROWS;
