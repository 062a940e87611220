//! The running sums of heights.
ghost use Rattle.std.specs.Prelude.{◌≡◌, ◌+ℤ◌, ◌-ℤ◌};
ghost use Rattle.tb_float.specs.Ranges.{IsRoom};
ghost use Rattle.tb_float.specs.ByPart.{of_part, with_part};

use crate::Part;
use crate::by_part::ByPart;

// For each list, the sum of the heights of its floats.
impl ByPart<i64> {
    // A float of this height, or floats of this height together, came into the list.
    pub(crate) fn raise(&mut self, part: Part, by: i64)
        requires before { IsRoom (of_part self.old part) }
        requires more { IsRoom by }
        ensures { self.new ≡ with_part part (of_part self.old part +ℤ by) self.old }
    {
        self.set(part, sum_of(self.of(part), by));
    }

    // A float of this height, or floats of this height together, left the list.
    pub(crate) fn lower(&mut self, part: Part, by: i64)
        requires before { IsRoom (of_part self.old part) }
        requires less { IsRoom by }
        ensures { self.new ≡ with_part part (of_part self.old part -ℤ by) self.old }
    {
        self.set(part, difference_of(self.of(part), by));
    }
}

// The sum of two rooms.
pub(crate) fn sum_of(a: i64, b: i64) -> i64
    requires a { IsRoom a }
    requires b { IsRoom b }
    ensures { result ≡ a +ℤ b }
{
    a + b
}

// The difference of two rooms.
pub(crate) fn difference_of(a: i64, b: i64) -> i64
    requires a { IsRoom a }
    requires b { IsRoom b }
    ensures { result ≡ a -ℤ b }
{
    a - b
}
