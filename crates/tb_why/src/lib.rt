//! What is told of a run, along its steps: why each float went where it went. What is told of a firing, in pieces; a turn with
//! what is shown of it, its lines and what they add to the summary; and the laws that what is told changes nothing, that
//! without its lines the trace is left, and that each float is placed where it is told to go.
#![tactic(auto)]

mod byte_law;
mod firings;
mod laws;
mod lists;
mod shown;
mod steps;
mod summary_laws;
mod telling;
mod turns;
mod weaving;

pub use crate::byte_law::{
    without_told_lines_the_events_are_left, without_told_lines_the_trace_is_left,
};
pub use crate::laws::{floats_go_where_told, what_is_told_changes_nothing};
pub use crate::shown::{Showing, note_shown, put_shown};
pub use crate::summary_laws::{
    landed_where_shipped, reasons_are_of_the_float_at_fault, times_are_sheets,
};
pub use crate::telling::tell_firing;
pub use crate::turns::told_turn;
use std::marker::Model;
use tb_float::{Pool, Suppress};

/// What the tales of a firing depend on. It is made before the firing, with a copy of the floats, and goes its steps.
#[derive(Drop)]
pub struct Seen {
    /// How many pages were shipped, and one.
    pub page: u64,
    /// The number of the page that is being made.
    pub number: u64,
    /// Whether pages have two columns.
    pub two_columns: bool,
    /// Whether the next column is the first of two.
    pub first_column: bool,
    /// Where no further float may go.
    pub suppress: Suppress,
    /// How far down the marginal notes of the column reach, in sp.
    pub note_bottom: i64,
    /// Whether the page limit was met: nothing is told from then on.
    pub over: bool,
    /// The floats. None of them is chosen for a column of floats.
    pub pool: Pool,
}

impl Model for Seen {
    ghost use Rattle.std.specs.Prelude.{◌≤◌, ◌+◌};
    ghost use Rattle.tb_float.specs.Pool.{HasNoMarks};
    ghost use Rattle.tb_why.specs.Seen.{Seen as SeenFloats};

    ghost Value = { SeenFloats };

    ghost view = { λ v. record {
      floats = v.pool.lists;
      page = v.page;
      number = v.number;
      two_columns = v.two_columns;
      first_column = v.first_column;
      suppress = v.suppress;
      note_bottom = v.note_bottom;
      over = v.over;
    } };

    ghost invariant = { λ v. HasNoMarks v.pool × (v.number ≤ v.page + 1000000) };
}
