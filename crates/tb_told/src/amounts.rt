//! The amounts that a decision compares.
ghost use Rattle.std.specs.Prelude.{◌≡◌, ◌+ℤ◌, ◌-ℤ◌, List, length, pos, if◌then◌else◌};
ghost use Rattle.tb_scaled.specs.Scaled.{max_ℤ, fraction_of};
ghost use Rattle.tb_node.specs.declared.Float.{Float as PlainFloat};
ghost use Rattle.tb_node.specs.SmallAmounts.{IsAmount};
ghost use Rattle.tb_float.specs.Ranges.{AreFloatParams, IsDimension, IsExtent, IsRoom, IsWithin};
ghost use Rattle.tb_float.specs.Rooms.{column_height_of};
ghost use Rattle.tb_area.specs.Area.{text_minimum, next_separator, double_room_for};
ghost use Rattle.tb_area.specs.RequiredRoom.{IsRequired};

use tb_float::{Part, Pool, share_of};
use tb_node::Float;
use tb_param::Params;

/// The least room that the text of a column needs, in scaled points: a share of the column, which the mark `!` lifts, and
/// what the floats in the text take.
pub(crate) fn text_minimum(pool: &Pool, p: &Params, f: &Float) -> i64
    requires { AreFloatParams p.now }
    ensures value { result ≡ text_minimum p.now pool.now.lists f.now }
    ensures within { IsWithin 70368743104000 result }
{
    text_share(pool, p, f) + pool.text_room(p)
}

fn text_share(pool: &Pool, p: &Params, f: &Float) -> i64
    requires { AreFloatParams p.now }
    ensures value { result ≡ if f.now.bang then pos 0 else fraction_of p.now.textfraction (column_height_of p.now pool.now.lists) }
    ensures within { IsWithin 35184372088832 result }
{
    if f.bang {
        0
    } else {
        share_of(p.textfraction, pool.column_height(p))
    }
}

/// The greater of the height of the page and the least height of its text.
pub(crate) fn greater(page_height: i64, text: i64) -> i64
    requires page_height { IsAmount page_height }
    requires text { IsWithin 70368743104000 text }
    ensures value { result ≡ max_ℤ page_height text }
    ensures amount { IsAmount result }
{
    if page_height <= text {
        text
    } else {
        page_height
    }
}

/// The room that is required for a float beside other heights.
pub(crate) fn required_with(others: i64, height: i64) -> i64
    requires others { IsAmount others }
    requires height { IsWithin 70368743104000 height }
    ensures value { result ≡ others +ℤ height }
    ensures required { IsRequired 0 result }
{
    others + height
}

/// The room that is required with one more separator.
pub(crate) fn beyond(required: i64, separator: i64) -> i64
    requires required { IsRequired 2 required }
    requires separator { IsDimension separator }
    ensures { result ≡ required +ℤ separator }
{
    required + separator
}

/// The room that is required with the separator of the text.
pub(crate) fn room_inside(required: i64, separator: i64) -> i64
    requires required { IsRequired 0 required }
    requires separator { IsDimension separator }
    ensures value { result ≡ required +ℤ separator }
    ensures within { IsRequired 1 result }
{
    required + separator
}

/// The room that is required with the separator of the top.
pub(crate) fn room_above(required: i64, separator: i64) -> i64
    requires required { IsRequired 1 required }
    requires separator { IsDimension separator }
    ensures value { result ≡ required +ℤ separator }
    ensures within { IsRequired 2 result }
{
    required + separator
}

/// The separator that a further float of an area with this many floats needs.
pub(crate) fn next_separator(p: &Params, count: usize) -> i64
    requires { AreFloatParams p.now }
    ensures value { (fs : List PlainFloat) → count ≡ length fs → result ≡ next_separator p.now fs }
    ensures dimension { IsDimension result }
{
    if count == 0 {
        p.textfloatsep.width
    } else {
        p.floatsep.width
    }
}

/// The room of the double area. The mark `!` lifts the share.
pub(crate) fn double_room_for(pool: &Pool, p: &Params, f: &Float) -> i64
    requires { AreFloatParams p.now }
    ensures { result ≡ double_room_for p.now pool.now.lists f.now }
{
    let room = pool.room(p, Part::Double);
    if f.bang {
        without_share(room, p.textheight, share_of(p.dbltopfraction, p.textheight))
    } else {
        room
    }
}

// A room plus what its share leaves of the height.
fn without_share(room: i64, height: i64, share: i64) -> i64
    requires room { IsRoom room }
    requires height { IsExtent height }
    requires share { IsWithin 35184372088832 share }
    ensures { result ≡ room +ℤ (height -ℤ share) }
{
    room + (height - share)
}
