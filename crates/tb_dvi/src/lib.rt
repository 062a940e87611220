//! DVI files: what a run's pages show, written for a device, and a lister of such files.
#![tactic(auto)]

mod command;
mod file;
mod law;
mod lister;
mod listing;
mod moves;
mod numbers;
mod page;
mod placement;
mod progress;
mod refusal;
mod runs;
mod stack;

pub use file::{post_bytes, pre_bytes, put_post};
pub use law::lists_its_pages;
pub use lister::{ListFault, list};
pub use page::{DviFault, Part, page_bytes, put_page, put_sheet};
pub use progress::Progress;
pub use refusal::{put_cause, put_far};

/// Why a DVI file is refused.
#[derive(Clone, Copy)]
pub enum DviCause {
    /// It does not begin as a DVI file does.
    BadPre,
    /// A character or a font: their widths are in other files.
    Font,
    /// No command, or one that may not come here.
    BadOp,
    /// The command runs past the end of the file.
    Truncated,
    /// A pop of an empty stack, or the end of a page whose stack is not empty.
    Unbalanced,
    /// The end of the file is not as it has to be.
    BadPost,
}
