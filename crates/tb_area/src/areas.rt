//! The decisions: the text, the top and the bottom, in their order, and above both columns.
ghost use Rattle.std.specs.Prelude.{◌≡◌, List, [], if◌then◌else◌};
ghost use Rattle.tb_node.specs.declared.Float.{Float as PlainFloat};
ghost use Rattle.tb_float.specs.declared.Suppress.{Suppress};
ghost use Rattle.tb_float.specs.Lists.{has_class};
ghost use Rattle.tb_float.specs.Ranges.{AreFloatParams, IsExtent};
ghost use Rattle.tb_area.specs.Area.{may_enter, by_class, here_or_area, top_or_bottom, fits_above, bottom_or_deferred, goes_bottom, fits_below, where_of, next_place, double_place};
ghost use Rattle.tb_area.specs.RequiredRoom.{IsRequired};

use crate::tries::{
    beyond, fits_bottom, fits_column, fits_top, goes_double, is_above_its_class, may_enter,
    next_separator, required_with, text_minimum, tries_bottom, tries_top,
};
use tb_float::{Part, Pool, Suppress};
use tb_node::{Float, Where};
use tb_param::Params;

/// Where a deferred float goes in the next column, by whether one of its class comes before it.
pub(crate) fn next_place(pool: &Pool, p: &Params, s: &Suppress, earlier: bool, f: &Float) -> Where
    requires params { AreFloatParams p.now }
    requires extent { IsExtent f.now.height }
    ensures { (before : List PlainFloat) → earlier ≡ has_class f.now.class before → result ≡ next_place p.now pool.now.lists s.now before f.now }
{
    let required = required_with(f.height, text_minimum(pool, p, f));
    if may_enter(pool, p, s, earlier, required, f) {
        area_place(pool, p, s, required, f)
    } else {
        Where::Deferred
    }
}

/// Where a float that waits goes after a pair of columns, by whether one of its class comes before it.
pub(crate) fn double_place(pool: &Pool, p: &Params, earlier: bool, f: &Float) -> Where
    requires { AreFloatParams p.now }
    ensures { (s : Suppress) (before : List PlainFloat) → earlier ≡ has_class f.now.class before → result ≡ double_place p.now pool.now.lists s before f.now }
{
    if goes_double(pool, p, earlier, f) {
        Where::Double
    } else {
        Where::Deferred
    }
}

/// Where a float goes in its own column if no float of its class waits.
pub(crate) fn column_place(pool: &Pool, p: &Params, s: &Suppress, required: i64, f: &Float) -> Where
    requires params { AreFloatParams p.now }
    requires required { IsRequired 0 required }
    ensures { result ≡ (if may_enter p.now pool.now.lists s.now [] required f.now then by_class p.now pool.now.lists s.now required f.now else Where.Deferred) }
{
    if may_enter(pool, p, s, false, required, f) {
        by_class(pool, p, s, required, f)
    } else {
        Where::Deferred
    }
}

/// A place in the column, or nowhere yet if a float of the class waits. Most floats have no place, and need no walk over
/// those that wait.
pub(crate) fn behind_waiting(pool: &Pool, place: Where, f: &Float) -> Where
    ensures { result ≡ (if has_class f.now.class pool.now.lists.deferred then Where.Deferred else place) }
{
    match place {
        Where::Deferred => Where::Deferred,
        place => {
            if pool.has_class(Part::Deferred, f.class) {
                Where::Deferred
            } else {
                place
            }
        }
    }
}

/// A float goes to the bottom or nowhere if one of its class is there.
fn by_class(pool: &Pool, p: &Params, s: &Suppress, required: i64, f: &Float) -> Where
    requires params { AreFloatParams p.now }
    requires required { IsRequired 0 required }
    ensures { result ≡ by_class p.now pool.now.lists s.now required f.now }
{
    if pool.has_class(Part::Bottom, f.class) {
        bottom_place(pool, p, s, required, f)
    } else {
        here_or_area(pool, p, s, required, f)
    }
}

// The text, and then the top and the bottom.
fn here_or_area(pool: &Pool, p: &Params, s: &Suppress, required: i64, f: &Float) -> Where
    requires params { AreFloatParams p.now }
    requires required { IsRequired 0 required }
    ensures { result ≡ here_or_area p.now pool.now.lists s.now required f.now }
{
    if !f.places.h {
        return area_place(pool, p, s, required, f);
    }
    let inside = beyond(required, p.intextsep.width);
    if fits_column(pool, p, inside) {
        Where::Here
    } else {
        area_place(pool, p, s, inside, f)
    }
}

// The top, and then the bottom with the room that the top required.
fn area_place(pool: &Pool, p: &Params, s: &Suppress, required: i64, f: &Float) -> Where
    requires params { AreFloatParams p.now }
    requires required { IsRequired 1 required }
    ensures { result ≡ where_of (top_or_bottom p.now pool.now.lists s.now required f.now) }
{
    if !tries_top(pool, p, s, f) {
        return bottom_place(pool, p, s, required, f);
    }
    let above = beyond(required, next_separator(p, pool.len(Part::Top)));
    if fits_above(pool, p, above, f) {
        Where::Top
    } else {
        bottom_place(pool, p, s, above, f)
    }
}

// Whether the top has room for a float that may go there, if this much is required of the column.
fn fits_above(pool: &Pool, p: &Params, required: i64, f: &Float) -> bool
    requires { AreFloatParams p.now }
    ensures { result ≡ fits_above p.now pool.now.lists required f.now }
{
    fits_column(pool, p, required) && fits_top(pool, p, f) && is_above_its_class(pool, f)
}

// The bottom, or nowhere yet.
fn bottom_place(pool: &Pool, p: &Params, s: &Suppress, required: i64, f: &Float) -> Where
    requires params { AreFloatParams p.now }
    requires required { IsRequired 2 required }
    ensures { result ≡ where_of (bottom_or_deferred p.now pool.now.lists s.now required f.now) }
{
    if goes_bottom(pool, p, s, required, f) {
        Where::Bottom
    } else {
        Where::Deferred
    }
}

// Whether the bottom is tried, and the float fits there.
fn goes_bottom(pool: &Pool, p: &Params, s: &Suppress, required: i64, f: &Float) -> bool
    requires params { AreFloatParams p.now }
    requires required { IsRequired 2 required }
    ensures { result ≡ goes_bottom p.now pool.now.lists s.now required f.now }
{
    let below = beyond(required, next_separator(p, pool.len(Part::Bottom)));
    tries_bottom(pool, p, s, f) && fits_below(pool, p, below, f)
}

// Whether the bottom has room for a float, if this much is required of the column.
fn fits_below(pool: &Pool, p: &Params, required: i64, f: &Float) -> bool
    requires { AreFloatParams p.now }
    ensures { result ≡ fits_below p.now pool.now.lists required f.now }
{
    fits_column(pool, p, required) && fits_bottom(pool, p, f)
}
