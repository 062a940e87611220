//! What is told of a start, and of the space above both columns: each float that waits is told of and goes to its place, one after another.
ghost use Rattle.std.specs.Prelude.{◌≡◌, ◌<◌, ◌+◌, [], ◌++◌, length, slice_get, Some, OnOk, IfOk};
ghost use Rattle.tb_float.specs.Lists.{HasFloatAt, IsWaiting, entries_of, floats_of};
ghost use Rattle.tb_float.specs.Pool.{HasNoMarks};
ghost use Rattle.tb_float.specs.Ranges.{AreFloatParams, IsExtent};
ghost use Rattle.tb_area.specs.Deferred.{filled, doubled};
ghost use Rattle.tb_told.specs.Filled.{filled_pieces, IsTurn, doubled_pieces, none_suppressed, IsDoubleTurn};

use crate::Piece;
use crate::telling::{tell_double, tell_next};
use std::alloc::AllocError;
use tb_area::{add_double, add_next};
use tb_float::{Entry, Part, Pool, Suppress};
use tb_node::{Float, Where};
use tb_param::Params;

/// Appends what is told of each float that waits, as it is tried for the next column, and moves it to its place.
///
/// It fails if memory runs out; then only a part of this may be told, and a part of the floats moved.
pub fn tell_filled(
    pieces: &mut Vec<Piece>,
    pool: &mut Pool,
    p: &Params,
    s: &Suppress,
) -> Result<(), AllocError>
    requires { AreFloatParams p.now }
    ensures told { OnOk result (pieces.new.items ≡ pieces.old.items ++ filled_pieces p.now s.now [] pool.old.lists.deferred pool.old.lists) }
    ensures lists { OnOk result (pool.new.lists ≡ filled p.now s.now [] pool.old.lists.deferred pool.old.lists) }
    ensures unmarked { HasNoMarks pool.old → HasNoMarks pool.new }
{
    let mut kept = 0;
    for _turn in 0..pool.len(Part::Deferred) {
        kept = tell_turn(pieces, pool, p, s, kept)?;
    }
    Ok(())
}

// The float behind those that stay is told of, and goes to its place; returns how many stay.
fn tell_turn(
    pieces: &mut Vec<Piece>,
    pool: &mut Pool,
    p: &Params,
    s: &Suppress,
    kept: usize,
) -> Result<usize, AllocError>
    requires params { AreFloatParams p.now }
    requires within { kept < length pool.old.lists.deferred }
    ensures turn { IfOk result (λ j. IsTurn p.now s.now kept j pool.old.lists pool.new.lists pieces.old.items pieces.new.items) }
    ensures unmarked { HasNoMarks pool.old → HasNoMarks pool.new }
{
    let f = waiting(pool, kept);
    tell_next(pieces, pool, p, s, kept, &f)?;
    match add_next(pool, p, s, kept) {
        Where::Top => {
            pool.move_to(Part::Deferred, kept, Part::Top);
            Ok(kept)
        }
        Where::Bottom => {
            pool.move_to(Part::Deferred, kept, Part::Bottom);
            Ok(kept)
        }
        _ => Ok(one_more(pool, kept)),
    }
}

// One more float stays.
fn one_more(pool: &Pool, kept: usize) -> usize
    requires { kept < length pool.now.lists.deferred }
    ensures { result ≡ kept + 1 }
{
    let _few = pool.len(Part::Deferred);
    kept + 1
}

// The float that waits at a place.
fn waiting(pool: &Pool, k: usize) -> Float
    requires { k < length pool.now.lists.deferred }
    ensures value { slice_get pool.now.lists.deferred k ≡ Some result }
    ensures extent { IsExtent result.height }
{
    float_at(pool, k)
}

fn float_at(pool: &Pool, k: usize) -> Float
    requires { HasFloatAt (entries_of Part.Deferred pool.now.lists) k }
    ensures value { slice_get (entries_of Part.Deferred pool.now.lists) k ≡ Some (Entry.Float result) }
    ensures extent { IsExtent result.height }
{
    match pool.entry(Part::Deferred, k) {
        Some(Entry::Float(f)) => *f,
        _ => unreachable!(),
    }
}

/// Appends what is told of each float of a list in which floats wait, as it is tried for the space above the next two
/// columns, and moves it there if it goes.
///
/// It fails if memory runs out; then only a part of this may be told, and a part of the floats moved.
pub fn tell_doubled(
    pieces: &mut Vec<Piece>,
    pool: &mut Pool,
    p: &Params,
    from: Part,
) -> Result<(), AllocError>
    requires params { AreFloatParams p.now }
    requires waiting { IsWaiting from }
    ensures told { OnOk result (pieces.new.items ≡ pieces.old.items ++ doubled_pieces from p.now [] (floats_of from pool.old.lists) pool.old.lists) }
    ensures lists { OnOk result (pool.new.lists ≡ doubled from p.now none_suppressed [] (floats_of from pool.old.lists) pool.old.lists) }
    ensures unmarked { HasNoMarks pool.old → HasNoMarks pool.new }
{
    let mut kept = 0;
    for _turn in 0..pool.len(from) {
        kept = tell_double_turn(pieces, pool, p, from, kept)?;
    }
    Ok(())
}

// The float behind those that stay is told of, and goes above both columns, or stays; returns how many stay.
fn tell_double_turn(
    pieces: &mut Vec<Piece>,
    pool: &mut Pool,
    p: &Params,
    from: Part,
    kept: usize,
) -> Result<usize, AllocError>
    requires params { AreFloatParams p.now }
    requires waiting { IsWaiting from }
    requires within { kept < length (floats_of from pool.old.lists) }
    ensures turn { IfOk result (λ j. IsDoubleTurn from p.now kept j pool.old.lists pool.new.lists pieces.old.items pieces.new.items) }
    ensures unmarked { HasNoMarks pool.old → HasNoMarks pool.new }
{
    let f = wide_waiting(pool, from, kept);
    tell_double(pieces, pool, p, from, kept, &f)?;
    match add_double(pool, p, from, kept) {
        Where::Double => {
            pool.move_to(from, kept, Part::Double);
            Ok(kept)
        }
        _ => Ok(one_more_wide(pool, from, kept)),
    }
}

// One more float of a list stays.
fn one_more_wide(pool: &Pool, from: Part, kept: usize) -> usize
    requires waiting { IsWaiting from }
    requires within { kept < length (floats_of from pool.now.lists) }
    ensures { result ≡ kept + 1 }
{
    let _few = pool.len(from);
    kept + 1
}

// The float at a place of a list in which floats wait.
fn wide_waiting(pool: &Pool, from: Part, k: usize) -> Float
    requires waiting { IsWaiting from }
    requires within { k < length (floats_of from pool.now.lists) }
    ensures { slice_get (floats_of from pool.now.lists) k ≡ Some result }
{
    float_in(pool, from, k)
}

fn float_in(pool: &Pool, from: Part, k: usize) -> Float
    requires { HasFloatAt (entries_of from pool.now.lists) k }
    ensures { slice_get (entries_of from pool.now.lists) k ≡ Some (Entry.Float result) }
{
    match pool.entry(from, k) {
        Some(Entry::Float(f)) => *f,
        _ => unreachable!(),
    }
}
