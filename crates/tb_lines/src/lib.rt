//! Paragraphs of words, spaces and penalties, broken into lines of least demerits (TeX: The Program, part 38), without
//! hyphenation, looseness, fitness classes or kerns.
//!
//! All dimensions are in scaled points, 65536 to a point. Lines of a text and the fields of a line count from 1.
#![tactic(auto)]

mod contents;
mod demerits;
mod draft;
mod entries;
mod field_reader;
mod galley;
mod laws;
mod line_texts;
mod reader;
mod refusal_text;
mod solution;
mod sums;
mod table;
mod text;
mod words;

pub use galley::lines_galley;
pub use laws::{check_lines, galleys_are_accepted, solutions_are_least};
pub use line_texts::line_text;
pub use reader::read_lines;
pub use refusal_text::put_refusal;
pub use solution::{Solution, break_par};
pub use tb_galley::{Cause as LinesCause, cause_text, is_range_cause};
pub use text::{Item, Items, LineParams, Paragraph, Paragraphs, Text};

/// Why a text was not read.
#[derive(Drop)]
pub enum LinesFault {
    /// The text's first fault. `LineLength` is at field 0, what is wrong with a line's word or its place among the lines at
    /// field 1, what is wrong with the end of the text at field 0 of the line after its last, and `InputSize` at line 0,
    /// field 0.
    At {
        /// The number of the line.
        line: u32,
        /// The number of the field.
        field: u32,
        /// What is wrong.
        cause: LinesCause,
    },
    /// There was not enough memory; nothing is said of the text.
    Memory,
}

/// Why a text has no galley of lines.
#[derive(Drop)]
pub enum LinesRefusal {
    /// The text's first fault, as in [`LinesFault`].
    At {
        /// The number of the line.
        line: u32,
        /// The number of the field.
        field: u32,
        /// What is wrong.
        cause: LinesCause,
    },
    /// No way to break this paragraph, counted from 1, is feasible; each one before it has a feasible way.
    NoBreaks {
        /// The number of the paragraph, from 1.
        paragraph: usize,
    },
    /// There was not enough memory; nothing is said of the text.
    Memory,
}
