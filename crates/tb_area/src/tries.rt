//! The tests that a decision makes, each by itself, and the room that is required.
ghost use Rattle.std.specs.Prelude.{◌≡◌, ◌<◌, ◌+ℤ◌, ◌-ℤ◌, ◌&&◌, List, length, slice_get, Some, pos, if◌then◌else◌};
ghost use Rattle.tb_scaled.specs.Scaled.{max_ℤ, fraction_of};
ghost use Rattle.tb_node.specs.declared.Float.{Float as PlainFloat};
ghost use Rattle.tb_node.specs.SmallAmounts.{IsAmount};
ghost use Rattle.tb_float.specs.declared.Suppress.{Suppress};
ghost use Rattle.tb_float.specs.Lists.{HasFloatAt, IsWaiting, entries_of, floats_of, has_class};
ghost use Rattle.tb_float.specs.Ranges.{AreFloatParams, IsDimension, IsExtent, IsRoom, IsWithin};
ghost use Rattle.tb_float.specs.Rooms.{column_height_of};
ghost use Rattle.tb_area.specs.Area.{may_come, only_page, fits_column, fits_top, fits_bottom, is_above_its_class, tries_top, tries_bottom, text_minimum, next_separator, double_room_for, fits_double, goes_double, may_enter};
ghost use Rattle.tb_area.specs.RequiredRoom.{IsRequired};

use tb_float::{Entry, Limit, Part, Pool, Suppress, share_of};
use tb_node::Float;
use tb_param::Params;

/// The float at a place of a list.
pub(crate) fn float_at(pool: &Pool, part: Part, k: usize) -> Float
    requires { HasFloatAt (entries_of part pool.now.lists) k }
    ensures value { slice_get (entries_of part pool.now.lists) k ≡ Some (Entry.Float result) }
    ensures extent { IsExtent result.height }
{
    match pool.entry(part, k) {
        Some(Entry::Float(f)) => *f,
        _ => unreachable!(),
    }
}

/// The float at a place of a list in which floats wait.
pub(crate) fn waiting_float(pool: &Pool, from: Part, k: usize) -> Float
    requires waiting { IsWaiting from }
    requires within { k < length (floats_of from pool.now.lists) }
    ensures value { slice_get (floats_of from pool.now.lists) k ≡ Some result }
    ensures extent { IsExtent result.height }
{
    float_at(pool, from, k)
}

/// Whether the count of a limit lets one more float in.
fn may_come(pool: &Pool, p: &Params, s: &Suppress, l: Limit, f: &Float) -> bool
    requires { AreFloatParams p.now }
    ensures { result ≡ may_come p.now pool.now.lists s.now l f.now }
{
    pool.count_left(p, s, l, f.bang) > 0
}

/// Whether a float may go on a page of floats alone.
fn only_page(f: &Float) -> bool
    ensures { result ≡ only_page f.now }
{
    !(f.places.h || f.places.t || f.places.b)
}

/// Whether the column has more room than is required.
pub(crate) fn fits_column(pool: &Pool, p: &Params, required: i64) -> bool
    requires { AreFloatParams p.now }
    ensures { result ≡ fits_column p.now pool.now.lists required }
{
    required < pool.column_room(p)
}

/// Whether the share of the top has more room than the float's height.
pub(crate) fn fits_top(pool: &Pool, p: &Params, f: &Float) -> bool
    requires { AreFloatParams p.now }
    ensures { result ≡ fits_top p.now pool.now.lists f.now }
{
    f.bang || f.height < pool.room(p, Part::Top)
}

/// Whether the share of the bottom has more room than the float's height.
pub(crate) fn fits_bottom(pool: &Pool, p: &Params, f: &Float) -> bool
    requires { AreFloatParams p.now }
    ensures { result ≡ fits_bottom p.now pool.now.lists f.now }
{
    f.bang || f.height < pool.room(p, Part::Bottom)
}

/// Whether no float of its class is in the text or at the bottom, since it would come after the top.
pub(crate) fn is_above_its_class(pool: &Pool, f: &Float) -> bool
    ensures { result ≡ is_above_its_class pool.now.lists f.now }
{
    !(pool.has_class(Part::Here, f.class) || pool.has_class(Part::Bottom, f.class))
}

/// Whether the top is tried.
pub(crate) fn tries_top(pool: &Pool, p: &Params, s: &Suppress, f: &Float) -> bool
    requires { AreFloatParams p.now }
    ensures { result ≡ tries_top p.now pool.now.lists s.now f.now }
{
    f.places.t && may_come(pool, p, s, Limit::Top, f)
}

/// Whether the bottom is tried.
pub(crate) fn tries_bottom(pool: &Pool, p: &Params, s: &Suppress, f: &Float) -> bool
    requires { AreFloatParams p.now }
    ensures { result ≡ tries_bottom p.now pool.now.lists s.now f.now }
{
    f.places.b && may_come(pool, p, s, Limit::Bottom, f)
}

/// Whether a float may enter a column at all, by whether one of its class comes before it.
pub(crate) fn may_enter(
    pool: &Pool,
    p: &Params,
    s: &Suppress,
    earlier: bool,
    required: i64,
    f: &Float,
) -> bool
    requires { AreFloatParams p.now }
    ensures { (before : List PlainFloat) → earlier ≡ has_class f.now.class before → result ≡ may_enter p.now pool.now.lists s.now before required f.now }
{
    !only_page(f)
        && !f.wide
        && !earlier
        && may_come(pool, p, s, Limit::Total, f)
        && fits_column(pool, p, required)
}

/// The least room that the text of a column needs, in scaled points: a share of the column, which the mark `!` lifts, and
/// what the floats in the text take.
pub(crate) fn text_minimum(pool: &Pool, p: &Params, f: &Float) -> i64
    requires { AreFloatParams p.now }
    ensures value { result ≡ text_minimum p.now pool.now.lists f.now }
    ensures within { IsWithin 70368743104000 result }
{
    text_share(pool, p, f) + pool.text_room(p)
}

fn text_share(pool: &Pool, p: &Params, f: &Float) -> i64
    requires { AreFloatParams p.now }
    ensures value { result ≡ if f.now.bang then pos 0 else fraction_of p.now.textfraction (column_height_of p.now pool.now.lists) }
    ensures within { IsWithin 35184372088832 result }
{
    if f.bang {
        0
    } else {
        share_of(p.textfraction, pool.column_height(p))
    }
}

/// The greater of the height of the page and the least height of its text.
pub(crate) fn greater(page_height: i64, text: i64) -> i64
    requires page_height { IsAmount page_height }
    requires text { IsWithin 70368743104000 text }
    ensures value { result ≡ max_ℤ page_height text }
    ensures amount { IsAmount result }
{
    if page_height <= text {
        text
    } else {
        page_height
    }
}

/// The room that is required for a float beside other heights.
pub(crate) fn required_with(others: i64, height: i64) -> i64
    requires others { IsAmount others }
    requires height { IsWithin 70368743104000 height }
    ensures value { result ≡ others +ℤ height }
    ensures required { IsRequired 0 result }
{
    others + height
}

/// The room that is required with one more separator.
pub(crate) fn beyond(required: i64, separator: i64) -> i64
    requires required { IsRequired 2 required }
    requires separator { IsDimension separator }
    ensures { result ≡ required +ℤ separator }
{
    required + separator
}

/// The separator that a further float of an area with this many floats needs.
pub(crate) fn next_separator(p: &Params, count: usize) -> i64
    requires { AreFloatParams p.now }
    ensures value { (fs : List PlainFloat) → count ≡ length fs → result ≡ next_separator p.now fs }
    ensures dimension { IsDimension result }
{
    if count == 0 {
        p.textfloatsep.width
    } else {
        p.floatsep.width
    }
}

/// Whether a float that waits goes above both columns, by whether one of its class comes before it.
pub(crate) fn goes_double(pool: &Pool, p: &Params, earlier: bool, f: &Float) -> bool
    requires { AreFloatParams p.now }
    ensures { (s : Suppress) (before : List PlainFloat) → earlier ≡ has_class f.now.class before → result ≡ goes_double p.now pool.now.lists s before f.now }
{
    f.places.t
        && f.wide
        && may_come(pool, p, &NOT_SUPPRESSED, Limit::Double, f)
        && !earlier
        && fits_double(pool, p, f)
}

const NOT_SUPPRESSED: Suppress = Suppress {
    all: false,
    top: false,
    bottom: false,
};

// Whether the double area has more room than the float's height.
fn fits_double(pool: &Pool, p: &Params, f: &Float) -> bool
    requires { AreFloatParams p.now }
    ensures { result ≡ fits_double p.now pool.now.lists f.now }
{
    f.height < double_room_for(pool, p, f)
}

// The room of the double area. The mark `!` lifts the share.
fn double_room_for(pool: &Pool, p: &Params, f: &Float) -> i64
    requires { AreFloatParams p.now }
    ensures { result ≡ double_room_for p.now pool.now.lists f.now }
{
    let room = pool.room(p, Part::Double);
    if f.bang {
        without_share(room, p.textheight, share_of(p.dbltopfraction, p.textheight))
    } else {
        room
    }
}

// A room plus what its share leaves of the height.
fn without_share(room: i64, height: i64, share: i64) -> i64
    requires room { IsRoom room }
    requires height { IsExtent height }
    requires share { IsWithin 35184372088832 share }
    ensures { result ≡ room +ℤ (height -ℤ share) }
{
    room + (height - share)
}
