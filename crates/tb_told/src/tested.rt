//! The tests of a decision, each by itself, and the float that is in the way.
ghost use Rattle.std.specs.Prelude.{◌≡◌, ◌≤◌, length, take, Some, false, if◌then◌else◌};
ghost use Rattle.tb_float.specs.declared.Suppress.{Suppress};
ghost use Rattle.tb_float.specs.Lists.{floats_of, holds_notes};
ghost use Rattle.tb_float.specs.Ranges.{AreFloatParams};
ghost use Rattle.tb_area.specs.Area.{may_come, only_page, fits_column, fits_top, fits_bottom};
ghost use Rattle.tb_told.specs.Tested.{first_of_class};

use crate::Test;
use tb_float::{Limit, Part, Pool, Suppress};
use tb_node::Float;
use tb_param::Params;

pub(crate) const NOT_SUPPRESSED: Suppress = Suppress {
    all: false,
    top: false,
    bottom: false,
};

/// A test that fails, or what comes of the later ones.
pub(crate) fn failing(holds: bool, test: Test, later: Option<Test>) -> Option<Test>
    ensures { result ≡ (if holds then later else Some test) }
{
    if holds { later } else { Some(test) }
}

/// The first float of a class among the first ones of a list; notes are in the current list alone.
pub(crate) fn first_of_class(pool: &Pool, part: Part, count: usize, class: u8) -> Option<Float>
    requires { holds_notes part ≡ false }
    ensures first { result ≡ first_of_class class (take count (floats_of part pool.now.lists)) }
    ensures all { length (floats_of part pool.now.lists) ≤ count → result ≡ first_of_class class (floats_of part pool.now.lists) }
{
    let mut left = count;
    for entry in pool.entries(part) {
        if left == 0 {
            return None;
        }
        let f = entry.float();
        if f.class == class {
            return Some(*f);
        }
        left -= 1;
    }
    None
}

/// Whether the count of a limit lets one more float in.
pub(crate) fn may_come(pool: &Pool, p: &Params, s: &Suppress, l: Limit, f: &Float) -> bool
    requires { AreFloatParams p.now }
    ensures { result ≡ may_come p.now pool.now.lists s.now l f.now }
{
    pool.count_left(p, s, l, f.bang) > 0
}

/// Whether a float may go on a page of floats alone.
pub(crate) fn only_page(f: &Float) -> bool
    ensures { result ≡ only_page f.now }
{
    !(f.places.h || f.places.t || f.places.b)
}

/// Whether the column has more room than is required.
pub(crate) fn fits_column(pool: &Pool, p: &Params, required: i64) -> bool
    requires { AreFloatParams p.now }
    ensures { result ≡ fits_column p.now pool.now.lists required }
{
    required < pool.column_room(p)
}

/// Whether the share of the top has more room than the float's height.
pub(crate) fn fits_top(pool: &Pool, p: &Params, f: &Float) -> bool
    requires { AreFloatParams p.now }
    ensures { result ≡ fits_top p.now pool.now.lists f.now }
{
    f.bang || f.height < pool.room(p, Part::Top)
}

/// Whether the share of the bottom has more room than the float's height.
pub(crate) fn fits_bottom(pool: &Pool, p: &Params, f: &Float) -> bool
    requires { AreFloatParams p.now }
    ensures { result ≡ fits_bottom p.now pool.now.lists f.now }
{
    f.bang || f.height < pool.room(p, Part::Bottom)
}
