//! What is told of a decision: the tests of each area, with the amounts that they compare.
ghost use Rattle.std.specs.Prelude.{◌≡◌, ◌+ℤ◌, List, take, int_lt};
ghost use Rattle.tb_scaled.specs.Scaled.{max_ℤ};
ghost use Rattle.tb_node.specs.SmallAmounts.{IsAmount};
ghost use Rattle.tb_node.specs.declared.Float.{Float as PlainFloat};
ghost use Rattle.tb_float.specs.declared.Suppress.{Suppress};
ghost use Rattle.tb_float.specs.Lists.{IsWaiting, floats_of};
ghost use Rattle.tb_float.specs.Ranges.{AreFloatParams, IsExtent};
ghost use Rattle.tb_float.specs.Rooms.{limit_number, limit_used};
ghost use Rattle.tb_area.specs.Area.{next_separator, text_minimum};
ghost use Rattle.tb_area.specs.RequiredRoom.{IsRequired};
ghost use Rattle.tb_told.specs.Tested.{first_of_class, first_float};
ghost use Rattle.tb_told.specs.AreaTold.{counted, enter_told, here_told, top_told, bottom_told, wide_told};

use crate::amounts::{
    beyond, double_room_for, greater, next_separator, required_with, room_above, room_inside,
    text_minimum,
};
use crate::tested::{
    NOT_SUPPRESSED, failing, first_of_class, fits_bottom, fits_column, fits_top, may_come,
    only_page,
};
use crate::{AboveBoth, AtBottom, AtTop, Counted, Entering, InText, Test};
use tb_float::{Limit, Part, Pool, Suppress};
use tb_node::Float;
use tb_param::Params;

/// What is told of a float that is called, of the column as a whole, whose text is `page_height` high so far, in scaled
/// points.
pub fn entering_current(
    pool: &Pool,
    p: &Params,
    s: &Suppress,
    page_height: i64,
    f: &Float,
) -> Entering
    requires params { AreFloatParams p.now }
    requires height { IsAmount page_height }
    requires extent { IsExtent f.now.height }
    ensures told { result ≡ enter_told p.now pool.now.lists s.now pool.now.lists.deferred (max_ℤ page_height (text_minimum p.now pool.now.lists f.now) +ℤ f.now.height) f.now }
    ensures need { IsRequired 0 result.need }
{
    let required = required_with(greater(page_height, text_minimum(pool, p, f)), f.height);
    let blocker = first_of_class(pool, Part::Deferred, pool.len(Part::Deferred), f.class);
    entering(pool, p, s, blocker, required, f)
}

/// What is told of the `k`-th float that waits at the start of a column, of the column as a whole.
pub fn entering_next(pool: &Pool, p: &Params, s: &Suppress, k: usize, f: &Float) -> Entering
    requires params { AreFloatParams p.now }
    requires extent { IsExtent f.now.height }
    ensures told { result ≡ enter_told p.now pool.now.lists s.now (take k pool.now.lists.deferred) (f.now.height +ℤ text_minimum p.now pool.now.lists f.now) f.now }
    ensures need { IsRequired 0 result.need }
{
    let required = required_with(f.height, text_minimum(pool, p, f));
    let blocker = first_of_class(pool, Part::Deferred, k, f.class);
    entering(pool, p, s, blocker, required, f)
}

// The same, if this much room is required; the blocker is the first float of its class among those before it.
fn entering(
    pool: &Pool,
    p: &Params,
    s: &Suppress,
    blocker: Option<Float>,
    required: i64,
    f: &Float,
) -> Entering
    requires params { AreFloatParams p.now }
    ensures told { (before : List PlainFloat) → blocker ≡ first_of_class f.now.class before → result ≡ enter_told p.now pool.now.lists s.now before required f.now }
    ensures need { result.need ≡ required }
{
    let failed = failing(
        !only_page(f),
        Test::Places,
        failing(
            !f.wide,
            Test::Wide,
            failing(
                blocker.is_none(),
                Test::Class,
                failing(
                    may_come(pool, p, s, Limit::Total, f),
                    Test::Count,
                    failing(fits_column(pool, p, required), Test::Room, None),
                ),
            ),
        ),
    );
    Entering {
        blocker,
        count: counted(pool, p, s, Limit::Total, f),
        least: text_minimum(pool, p, f),
        high: f.height,
        room: pool.column_room(p),
        need: required,
        failed,
    }
}

/// What is told of the text, if this much room is required without `intextsep`.
pub fn in_text(pool: &Pool, p: &Params, required: i64, f: &Float) -> InText
    requires params { AreFloatParams p.now }
    requires required { IsRequired 0 required }
    ensures told { result ≡ here_told p.now pool.now.lists (required +ℤ p.now.intextsep.width) f.now }
    ensures need { IsRequired 1 result.need }
{
    let inside = room_inside(required, p.intextsep.width);
    let blocker = first_of_class(pool, Part::Bottom, pool.len(Part::Bottom), f.class);
    let failed = failing(
        blocker.is_none(),
        Test::Class,
        failing(
            f.places.h,
            Test::Places,
            failing(fits_column(pool, p, inside), Test::Room, None),
        ),
    );
    InText {
        blocker,
        room: pool.column_room(p),
        need: inside,
        failed,
    }
}

/// What is told of the top, if this much room is required without its separator.
pub fn at_top(pool: &Pool, p: &Params, s: &Suppress, required: i64, f: &Float) -> AtTop
    requires params { AreFloatParams p.now }
    requires required { IsRequired 1 required }
    ensures told { result ≡ top_told p.now pool.now.lists s.now (required +ℤ next_separator p.now pool.now.lists.top) f.now }
    ensures need { IsRequired 2 result.need }
{
    let above = room_above(required, next_separator(p, pool.len(Part::Top)));
    let blocker = first_in_the_way(pool, f.class);
    let failed = failing(
        f.places.t,
        Test::Places,
        failing(
            may_come(pool, p, s, Limit::Top, f),
            Test::Count,
            failing(
                fits_column(pool, p, above),
                Test::Room,
                failing(
                    fits_top(pool, p, f),
                    Test::Share,
                    failing(blocker.is_none(), Test::Class, None),
                ),
            ),
        ),
    );
    AtTop {
        blocker,
        count: counted(pool, p, s, Limit::Top, f),
        room: pool.column_room(p),
        need: above,
        share: pool.room(p, Part::Top),
        high: f.height,
        failed,
    }
}

/// What is told of the bottom, if this much room is required without its separator.
pub fn at_bottom(pool: &Pool, p: &Params, s: &Suppress, required: i64, f: &Float) -> AtBottom
    requires params { AreFloatParams p.now }
    requires required { IsRequired 2 required }
    ensures { result ≡ bottom_told p.now pool.now.lists s.now (required +ℤ next_separator p.now pool.now.lists.bottom) f.now }
{
    let below = beyond(required, next_separator(p, pool.len(Part::Bottom)));
    let failed = failing(
        f.places.b,
        Test::Places,
        failing(
            may_come(pool, p, s, Limit::Bottom, f),
            Test::Count,
            failing(
                fits_column(pool, p, below),
                Test::Room,
                failing(fits_bottom(pool, p, f), Test::Share, None),
            ),
        ),
    );
    AtBottom {
        count: counted(pool, p, s, Limit::Bottom, f),
        room: pool.column_room(p),
        need: below,
        share: pool.room(p, Part::Bottom),
        high: f.height,
        failed,
    }
}

/// What is told of the `k`-th float of a list in which floats wait, of the space above both columns.
pub fn above_both(pool: &Pool, p: &Params, from: Part, k: usize, f: &Float) -> AboveBoth
    requires params { AreFloatParams p.now }
    requires waiting { IsWaiting from }
    ensures { (s : Suppress) → result ≡ wide_told p.now pool.now.lists s (take k (floats_of from pool.now.lists)) f.now }
{
    let blocker = first_of_class(pool, from, k, f.class);
    let room = double_room_for(pool, p, f);
    let failed = failing(
        f.places.t,
        Test::Places,
        failing(
            f.wide,
            Test::Wide,
            failing(
                may_come(pool, p, &NOT_SUPPRESSED, Limit::Double, f),
                Test::Count,
                failing(
                    blocker.is_none(),
                    Test::Class,
                    failing(is_below(f.height, room), Test::Room, None),
                ),
            ),
        ),
    );
    AboveBoth {
        blocker,
        count: counted(pool, p, &NOT_SUPPRESSED, Limit::Double, f),
        room,
        high: f.height,
        failed,
    }
}

// The first float of a class in the text, or at the bottom.
fn first_in_the_way(pool: &Pool, class: u8) -> Option<Float>
    ensures { result ≡ first_float (first_of_class class pool.now.lists.here) (first_of_class class pool.now.lists.bottom) }
{
    match first_of_class(pool, Part::Here, pool.len(Part::Here), class) {
        Some(f) => Some(f),
        None => first_of_class(pool, Part::Bottom, pool.len(Part::Bottom), class),
    }
}

// What a limit allows, how many floats are there, and how many may still come.
fn counted(pool: &Pool, p: &Params, s: &Suppress, l: Limit, f: &Float) -> Counted
    requires { AreFloatParams p.now }
    ensures { result ≡ counted p.now pool.now.lists s.now l f.now }
{
    Counted {
        number: number(p, l),
        used: used(pool, l),
        left: pool.count_left(p, s, l, f.bang),
    }
}

fn number(p: &Params, l: Limit) -> i64
    ensures { result ≡ limit_number p.now l }
{
    match l {
        Limit::Total => p.totalnumber,
        Limit::Top => p.topnumber,
        Limit::Bottom => p.bottomnumber,
        Limit::Double => p.dbltopnumber,
    }
}

fn used(pool: &Pool, l: Limit) -> usize
    ensures { result ≡ limit_used pool.now.lists l }
{
    match l {
        Limit::Total => pool.len(Part::Here) + pool.len(Part::Top) + pool.len(Part::Bottom),
        Limit::Top => pool.len(Part::Top),
        Limit::Bottom => pool.len(Part::Bottom),
        Limit::Double => pool.len(Part::Double),
    }
}

fn is_below(height: i64, room: i64) -> bool
    ensures { result ≡ int_lt height room }
{
    height < room
}
