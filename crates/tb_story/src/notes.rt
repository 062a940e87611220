//! Reasons that are noted of floats at a start.
ghost use Rattle.std.specs.Prelude.{◌≡◌};
ghost use Rattle.tb_story.specs.Story.{or_else};
ghost use Rattle.tb_story.specs.Summary.{noted_of};

use crate::{Kept, Noted};

/// The reason that is noted of the float of a line.
pub(crate) fn noted_of(line: u32, notes: &[Noted]) -> Option<Kept>
    ensures { result ≡ noted_of line notes.now }
{
    for n in notes {
        if n.float.line == line {
            return Some(n.kept);
        }
    }
    None
}

/// The first of two reasons that there is.
pub(crate) fn or_else(first: Option<Kept>, second: Option<Kept>) -> Option<Kept>
    ensures { result ≡ or_else first second }
{
    match first {
        Some(k) => Some(k),
        None => second,
    }
}
