//! What is told where a column of floats is looked for: of each head, and of the company that is made.
ghost use Rattle.std.specs.Prelude.{◌≡◌, ◌≤◌, List, [], ◌∷◌, ◌++◌, length, suc, slice_get, Some, take, drop, OnOk, IfOk};
ghost use Rattle.tb_float.specs.Lists.{IsWaiting, floats_of};
ghost use Rattle.tb_told.specs.declared.ToldColumn.{ToldColumn as PlainTold};
ghost use Rattle.tb_told.specs.ColumnTold.{told_column, told_head};
ghost use Rattle.tb_told.specs.ColumnPieces.{in_column, unless_made, told_at, told_choices, taken_told};
ghost use Rattle.tb_told.specs.Tales.{tales, column_tales, has_width};

use crate::choices::{Choice, company_of, is_of_width, joining, made_of};
use crate::heads::alone_at;
use crate::{Piece, Spot, Tale, ToldColumn};
use std::alloc::AllocError;
use tb_float::{Part, Pool};
use tb_fpage::Wanted;
use tb_node::Float;

/// Appends what is told where a column of floats is looked for among the floats of a list that wait; nothing if none has
/// its width. Fails only if memory runs out.
pub fn tell_column(
    pieces: &mut Vec<Piece>,
    pool: &Pool,
    at: Spot,
    wanted: &Wanted,
    from: Part,
) -> Result<(), AllocError>
    requires { IsWaiting from }
    ensures { OnOk result (pieces.new.items ≡ pieces.old.items ++ tales (column_tales at wanted.now (floats_of from pool.now.lists))) }
{
    if !has_width(pool, wanted.wide, from) {
        return Ok(());
    }
    let _few = pool.len(from);
    pieces.push(Piece::Says(Tale::Begins(at, *wanted)))?;
    tell_floats(pieces, pool, wanted, from)
}

// Whether a float of the width waits in a list.
fn has_width(pool: &Pool, wide: bool, from: Part) -> bool
    requires { IsWaiting from }
    ensures { result ≡ has_width wide (floats_of from pool.now.lists) }
{
    for entry in pool.entries(from) {
        if is_of_width(entry.float(), wide) {
            return true;
        }
    }
    false
}

// One thing that is told of a column of floats.
fn tell(pieces: &mut Vec<Piece>, told: ToldColumn) -> Result<(), AllocError>
    ensures { OnOk result (pieces.new.items ≡ pieces.old.items ++ in_column (told ∷ [])) }
{
    pieces.push(Piece::Says(Tale::InColumn(told)))?;
    Ok(())
}

// What is told of the floats of a list, up to a company that is made.
fn tell_floats(
    pieces: &mut Vec<Piece>,
    pool: &Pool,
    wanted: &Wanted,
    from: Part,
) -> Result<(), AllocError>
    requires waiting { IsWaiting from }
    requires few { length (floats_of from pool.now.lists) ≤ 4096 }
    ensures { OnOk result (pieces.new.items ≡ pieces.old.items ++ in_column (told_column wanted.now (floats_of from pool.now.lists))) }
{
    let mut place = 0;
    for entry in pool.entries(from) {
        if tell_float(pieces, pool, wanted, from, place, entry.float())? {
            return Ok(());
        }
        place += 1;
    }
    Ok(())
}

// What is told of the float at a place, if it has the width of the column; true if its company is made.
fn tell_float(
    pieces: &mut Vec<Piece>,
    pool: &Pool,
    wanted: &Wanted,
    from: Part,
    place: usize,
    f: &Float,
) -> Result<bool, AllocError>
    requires waiting { IsWaiting from }
    requires few { length (floats_of from pool.now.lists) ≤ 4096 }
    requires there { slice_get (floats_of from pool.now.lists) place ≡ Some f.now }
    ensures { IfOk result (λ made. (later : List PlainTold) → pieces.new.items ++ in_column (unless_made made later) ≡ pieces.old.items ++ in_column (told_at wanted.now (take place (floats_of from pool.now.lists)) f.now (drop (suc place) (floats_of from pool.now.lists)) later)) }
{
    if !is_of_width(f, wanted.wide) {
        return Ok(false);
    }
    let alone = alone_at(pool, wanted, from, place, f);
    tell(pieces, ToldColumn::Heads(*f, alone))?;
    if alone.failed.is_some() {
        return Ok(false);
    }
    tell_head(pieces, pool, wanted, from, place, f)
}

// What is told of the company of the head at a place; true if it is made.
fn tell_head(
    pieces: &mut Vec<Piece>,
    pool: &Pool,
    wanted: &Wanted,
    from: Part,
    place: usize,
    f: &Float,
) -> Result<bool, AllocError>
    requires waiting { IsWaiting from }
    requires few { length (floats_of from pool.now.lists) ≤ 4096 }
    requires there { slice_get (floats_of from pool.now.lists) place ≡ Some f.now }
    ensures { IfOk result (λ made. (later : List PlainTold) → pieces.new.items ++ in_column (unless_made made later) ≡ pieces.old.items ++ in_column (told_head wanted.now (take place (floats_of from pool.now.lists)) f.now (drop (suc place) (floats_of from pool.now.lists)) later)) }
{
    let company = company_of(*pieces.allocator(), pool, wanted, from, place, f)?;
    let made = made_of(wanted, &company);
    if made.failed.is_some() {
        tell(pieces, ToldColumn::Companied(*f, made))?;
        return Ok(false);
    }
    tell_joins(pieces, wanted, &company, place + 1)?;
    tell(pieces, ToldColumn::Companied(*f, made))?;
    tell_taken(pieces, &company)?;
    Ok(true)
}

// What is told of the floats of a company from a place on, of which each joins or stays behind.
fn tell_joins(
    pieces: &mut Vec<Piece>,
    wanted: &Wanted,
    company: &[Choice],
    place: usize,
) -> Result<(), AllocError>
    requires few { length company.now ≤ 4096 }
    requires within { place ≤ length company.now }
    ensures { OnOk result (pieces.new.items ≡ pieces.old.items ++ in_column (told_choices wanted.now (take place company.now) (drop place company.now))) }
{
    for k in place..company.len() {
        tell_join(pieces, wanted, &company[..k], &company[k])?;
    }
    Ok(())
}

// What is told of one of them, after these choices, if it has the width of the column.
fn tell_join(
    pieces: &mut Vec<Piece>,
    wanted: &Wanted,
    before: &[Choice],
    choice: &Choice,
) -> Result<(), AllocError>
    requires { length before.now ≤ 4096 }
    ensures { OnOk result (pieces.new.items ≡ pieces.old.items ++ in_column (told_choices wanted.now before.now (choice.now ∷ []))) }
{
    let f = &choice.float;
    if !is_of_width(f, wanted.wide) {
        return Ok(());
    }
    let told = joining(wanted, before, f);
    tell(pieces, ToldColumn::Joins(*f, told))
}

// Which floats a company takes.
fn tell_taken(pieces: &mut Vec<Piece>, company: &[Choice]) -> Result<(), AllocError>
    ensures { OnOk result (pieces.new.items ≡ pieces.old.items ++ in_column (taken_told company.now)) }
{
    for choice in company {
        tell_if_taken(pieces, choice)?;
    }
    Ok(())
}

// Whether it takes this one.
fn tell_if_taken(pieces: &mut Vec<Piece>, choice: &Choice) -> Result<(), AllocError>
    ensures { OnOk result (pieces.new.items ≡ pieces.old.items ++ in_column (taken_told (choice.now ∷ []))) }
{
    if !choice.chosen {
        return Ok(());
    }
    tell(pieces, ToldColumn::Takes(choice.float))
}
