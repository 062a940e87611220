//! What is told of a whole decision: each area that is tried, and where the float goes.
ghost use Rattle.std.specs.Prelude.{◌≡◌, [], ◌∷◌, ◌++◌, take, if◌then◌else◌, OnOk};
ghost use Rattle.tb_node.specs.SmallAmounts.{IsAmount};
ghost use Rattle.tb_float.specs.declared.Suppress.{Suppress as SuppressFlags};
ghost use Rattle.tb_float.specs.Lists.{IsWaiting, floats_of};
ghost use Rattle.tb_float.specs.Ranges.{AreFloatParams, IsExtent};
ghost use Rattle.tb_area.specs.Area.{tries_top};
ghost use Rattle.tb_area.specs.RequiredRoom.{IsRequired};
ghost use Rattle.tb_told.specs.Tested.{is_yes};
ghost use Rattle.tb_told.specs.AreaTold.{told_bottom, told_areas, told_column, told_call, told_next, told_wide};
ghost use Rattle.tb_told.specs.Tales.{tales, decisions};

use crate::areas::{above_both, at_bottom, at_top, entering_current, entering_next, in_text};
use crate::tested::may_come;
use crate::{Piece, Tale, Test, Told};
use std::alloc::AllocError;
use tb_float::{Limit, Part, Pool, Suppress};
use tb_node::{Float, Where};
use tb_param::Params;

// This place, unless a test failed.
fn place_if(failed: Option<Test>, place: Where) -> Where
    ensures { result ≡ (if is_yes failed then place else Where.Deferred) }
{
    match failed {
        None => place,
        Some(_) => Where::Deferred,
    }
}

// Whether no test failed.
fn is_yes(failed: Option<Test>) -> bool
    ensures { result ≡ is_yes failed }
{
    match failed {
        None => true,
        Some(_) => false,
    }
}

// One thing that is told of a decision about this float.
fn tell(pieces: &mut Vec<Piece>, f: &Float, told: Told) -> Result<(), AllocError>
    ensures { OnOk result (pieces.new.items ≡ pieces.old.items ++ tales (decisions f.now (told ∷ []))) }
{
    pieces.push(Piece::Says(Tale::Decides(*f, told)))?;
    Ok(())
}

// What is told of the bottom, which is tried last, and where the float goes.
fn tell_bottom(
    pieces: &mut Vec<Piece>,
    pool: &Pool,
    p: &Params,
    s: &Suppress,
    required: i64,
    f: &Float,
) -> Result<(), AllocError>
    requires params { AreFloatParams p.now }
    requires required { IsRequired 2 required }
    ensures { OnOk result (pieces.new.items ≡ pieces.old.items ++ tales (decisions f.now (told_bottom p.now pool.now.lists s.now required f.now))) }
{
    let told = at_bottom(pool, p, s, required, f);
    let failed = told.failed;
    tell(pieces, f, Told::TestsBottom(told))?;
    tell(pieces, f, Told::Goes(place_if(failed, Where::Bottom)))
}

// What is told of the top, and then of the bottom, and where the float goes.
fn tell_areas(
    pieces: &mut Vec<Piece>,
    pool: &Pool,
    p: &Params,
    s: &Suppress,
    required: i64,
    f: &Float,
) -> Result<(), AllocError>
    requires params { AreFloatParams p.now }
    requires required { IsRequired 1 required }
    ensures { OnOk result (pieces.new.items ≡ pieces.old.items ++ tales (decisions f.now (told_areas p.now pool.now.lists s.now required f.now))) }
{
    let told = at_top(pool, p, s, required, f);
    let need = told.need;
    let failed = told.failed;
    tell(pieces, f, Told::TestsTop(told))?;
    if is_yes(failed) {
        tell(pieces, f, Told::Goes(Where::Top))
    } else {
        let low = after_top(pool, p, s, required, need, f);
        tell_bottom(pieces, pool, p, s, low, f)
    }
}

// What is required for the bottom: as for the top, if that came past its places and its count.
fn after_top(pool: &Pool, p: &Params, s: &Suppress, required: i64, need: i64, f: &Float) -> i64
    requires params { AreFloatParams p.now }
    requires required { IsRequired 1 required }
    requires need { IsRequired 2 need }
    ensures value { result ≡ (if tries_top p.now pool.now.lists s.now f.now then need else required) }
    ensures within { IsRequired 2 result }
{
    if tries_top(pool, p, s, f) {
        need
    } else {
        required
    }
}

fn tries_top(pool: &Pool, p: &Params, s: &Suppress, f: &Float) -> bool
    requires { AreFloatParams p.now }
    ensures { result ≡ tries_top p.now pool.now.lists s.now f.now }
{
    f.places.t && may_come(pool, p, s, Limit::Top, f)
}

// What is told of the text, and then of the areas, and where the float goes.
fn tell_column(
    pieces: &mut Vec<Piece>,
    pool: &Pool,
    p: &Params,
    s: &Suppress,
    required: i64,
    f: &Float,
) -> Result<(), AllocError>
    requires params { AreFloatParams p.now }
    requires required { IsRequired 0 required }
    ensures { OnOk result (pieces.new.items ≡ pieces.old.items ++ tales (decisions f.now (told_column p.now pool.now.lists s.now required f.now))) }
{
    let told = in_text(pool, p, required, f);
    let need = told.need;
    let failed = told.failed;
    let blocked = told.blocker.is_some();
    tell(pieces, f, Told::TestsHere(told))?;
    if is_yes(failed) {
        tell(pieces, f, Told::Goes(Where::Here))
    } else if blocked {
        tell_bottom(pieces, pool, p, s, required, f)
    } else {
        let low = after_text(required, need, f);
        tell_areas(pieces, pool, p, s, low, f)
    }
}

// What is required for the areas: as for the text, if the float may go there.
fn after_text(required: i64, need: i64, f: &Float) -> i64
    requires required { IsRequired 0 required }
    requires need { IsRequired 1 need }
    ensures value { result ≡ (if f.now.places.h then need else required) }
    ensures within { IsRequired 1 result }
{
    if f.places.h { need } else { required }
}

/// Appends what is told of a float that is called, whose text is `page_height` high so far, in scaled points, and where it
/// goes. It fails if memory runs out; then only a part of it may be there.
pub fn tell_called(
    pieces: &mut Vec<Piece>,
    pool: &Pool,
    p: &Params,
    s: &Suppress,
    page_height: i64,
    f: &Float,
) -> Result<(), AllocError>
    requires params { AreFloatParams p.now }
    requires height { IsAmount page_height }
    requires extent { IsExtent f.now.height }
    ensures { OnOk result (pieces.new.items ≡ pieces.old.items ++ tales (decisions f.now (told_call p.now pool.now.lists s.now page_height f.now))) }
{
    let told = entering_current(pool, p, s, page_height, f);
    let need = told.need;
    let failed = told.failed;
    tell(pieces, f, Told::Enters(told))?;
    if is_yes(failed) {
        tell_column(pieces, pool, p, s, need, f)
    } else {
        tell(pieces, f, Told::Goes(Where::Deferred))
    }
}

/// Appends what is told of the `k`-th float that waits at the start of a column, and where it goes; nothing of a wide one.
/// It fails if memory runs out; then only a part of it may be there.
pub fn tell_next(
    pieces: &mut Vec<Piece>,
    pool: &Pool,
    p: &Params,
    s: &Suppress,
    k: usize,
    f: &Float,
) -> Result<(), AllocError>
    requires params { AreFloatParams p.now }
    requires extent { IsExtent f.now.height }
    ensures { OnOk result (pieces.new.items ≡ pieces.old.items ++ tales (decisions f.now (told_next p.now pool.now.lists s.now (take k pool.now.lists.deferred) f.now))) }
{
    if f.wide {
        return Ok(());
    }
    let told = entering_next(pool, p, s, k, f);
    let need = told.need;
    let failed = told.failed;
    tell(pieces, f, Told::Enters(told))?;
    if is_yes(failed) {
        tell_areas(pieces, pool, p, s, need, f)
    } else {
        tell(pieces, f, Told::Goes(Where::Deferred))
    }
}

/// Appends what is told of the `k`-th float of a list in which floats wait, after a pair of columns, and where it goes;
/// nothing of a single one. It fails if memory runs out; then only a part of it may be there.
pub fn tell_double(
    pieces: &mut Vec<Piece>,
    pool: &Pool,
    p: &Params,
    from: Part,
    k: usize,
    f: &Float,
) -> Result<(), AllocError>
    requires params { AreFloatParams p.now }
    requires waiting { IsWaiting from }
    ensures { (s : SuppressFlags) → OnOk result (pieces.new.items ≡ pieces.old.items ++ tales (decisions f.now (told_wide p.now pool.now.lists s (take k (floats_of from pool.now.lists)) f.now))) }
{
    if !f.wide {
        return Ok(());
    }
    let told = above_both(pool, p, from, k, f);
    let failed = told.failed;
    tell(pieces, f, Told::TestsWide(told))?;
    tell(pieces, f, Told::Goes(place_if(failed, Where::Double)))
}
