//! From words and an input to what is written: a report, a trace, what is told of a run, a canonical text, a galley of lines, a DVI file or its
//! listing, or a line of totals.
//!
//! [`run`] is the whole program over any ends: it reads the words and the input, makes the pages of a galley by [`paginate`]
//! or [`paginate_plain`] and writes what the mode asks for, or says on `err` why not.
#![tactic(auto)]

mod best_text;
mod chosen_pages;
mod dvi_listing;
mod dvi_pages;
mod dvi_refusal;
mod input;
mod laws;
mod makeup_pages;
mod pages;
mod rated_pages;
mod refusal;
mod rows;
mod status;
mod summary;
mod told_pages;
mod top;
mod views;
mod why_law;

pub use chosen_pages::{BestPagesFault, best_pages};
pub use laws::each_makes_up_once;
pub use makeup_pages::{PlainRunFault, paginate_plain};
pub use pages::paginate;
pub use rated_pages::rate_pages;
pub use rows::check_rows;
pub use status::Status;
pub use tb_generator::generate;
pub use tb_laws::{
    areas_keep_their_numbers, classes_keep_their_order, dead_cycles_are_few,
    dvi_files_list_their_pages, each_ships_once, floats_keep_the_limits, lists_are_emptied,
    runs_are_defined,
};
pub use tb_makeup::first_unsuited;
pub use tb_report::Totals;
pub use told_pages::why_pages;
pub use top::run;
pub use why_law::why_without_its_lines_is_trace;

/// What `paginate` and `paginate_plain` write of a run: its report, with the places that were tried or without, or nothing.
#[derive(Clone, Copy, Debug, PartialEq, Eq)]
pub enum View {
    /// The report: the header, the warnings and the pages, and what is left at the end.
    Report,
    /// The report, with a line for each place that was tried before what that place causes.
    Trace,
    /// Nothing, for callers that want the totals alone.
    Silent,
}

/// Why a run or its writing stopped.
#[derive(Clone, Copy, Debug, PartialEq, Eq)]
pub enum PageFault {
    /// The float or marginal note of this line was to be taken, and this many boxes were live, as many as may be.
    PoolFull { line: u32, live: u64 },
    /// The page fired after this many firings without a page.
    DeadCycles { count: u64 },
    /// A page was to be shipped after this many pages.
    PageLimit { pages: u64 },
    /// This many nodes were held, more than `maxnodes`.
    NodeLimit { count: u64 },
    /// The sink failed.
    WriteFault,
    /// There was no memory.
    Memory,
}
