//! How the floats move as columns are put out and lists are cleared, and what a column of floats is made for.
ghost use Rattle.std.specs.Prelude.{◌≡◌, [], ◌++◌, OnOk};
ghost use Rattle.tb_float.specs.Lists.{IsWaiting, floats_of, with_floats_of, wide_part};
ghost use Rattle.tb_float.specs.Pool.{HasNoMarks};
ghost use Rattle.tb_float.specs.Rooms.{IsArea};
ghost use Rattle.tb_output.specs.Clear.{deferred_again, double_again};
ghost use Rattle.tb_output.specs.Columns.{single_wanted};
ghost use Rattle.tb_output.specs.Machine.{AreOutputParams};
ghost use Rattle.tb_output.specs.Pages.{wide_wanted};
ghost use Rattle.tb_told.specs.Tales.{tales, back_tales};
ghost use Rattle.tb_why.specs.SeenSteps.{IsLeavable};

use std::alloc::AllocError;
use tb_float::{Part, Pool, share_of};
use tb_fpage::Wanted;
use tb_node::Where;
use tb_param::Params;
use tb_told::{Piece, Tale};

/// The list in which wide floats wait.
pub(crate) fn wide_part(p: &Params) -> Part
    ensures value { result ≡ wide_part p.now }
    ensures waits { IsWaiting result }
{
    if p.has_second() {
        Part::Second
    } else {
        Part::Deferred
    }
}

/// What a page of wide floats is made for.
pub(crate) fn wide_wanted(p: &Params, clearing: bool) -> Wanted
    requires { AreOutputParams p.now }
    ensures { result ≡ wide_wanted p.now clearing }
{
    Wanted {
        height: p.textheight,
        minimum: share_of(p.dblfloatpagefraction, p.textheight),
        sep: p.dblfpsep.width,
        clearing,
        wide: true,
    }
}

/// What a column of single floats is made for.
pub(crate) fn single_wanted(pool: &Pool, p: &Params, clearing: bool) -> Wanted
    requires { AreOutputParams p.now }
    ensures { result ≡ single_wanted p.now pool.now.lists clearing }
{
    let height = pool.column_height(p);
    Wanted {
        height,
        minimum: share_of(p.floatpagefraction, height),
        sep: p.fpsep.width,
        clearing,
        wide: false,
    }
}

/// The floats of a list leave the pool.
pub(crate) fn empty(pool: &mut Pool, part: Part)
    requires { IsLeavable part }
    ensures lists { pool.new.lists ≡ with_floats_of part [] pool.old.lists }
    ensures unmarked { HasNoMarks pool.old → HasNoMarks pool.new }
{
    'floats: while let Some(_) = pool.retire(part) {}
}

/// The floats that a text column takes with it leave the pool.
pub(crate) fn empty_column(pool: &mut Pool)
    ensures lists { pool.new.lists ≡ record pool.old.lists { here = []; top = []; bottom = [] } }
    ensures unmarked { HasNoMarks pool.old → HasNoMarks pool.new }
{
    empty(pool, Part::Here);
    empty(pool, Part::Top);
    empty(pool, Part::Bottom);
}

/// The floats at the top and at the bottom wait again, before the deferred ones.
pub(crate) fn defer_areas(pool: &mut Pool)
    ensures lists { pool.new.lists ≡ deferred_again pool.old.lists }
    ensures unmarked { HasNoMarks pool.old → HasNoMarks pool.new }
{
    pool.join_front(Part::Bottom, Part::Deferred);
    pool.join_front(Part::Top, Part::Deferred);
}

/// The floats above both columns wait again, before the others.
pub(crate) fn defer_double(pool: &mut Pool, p: &Params)
    ensures lists { pool.new.lists ≡ double_again p.now pool.old.lists }
    ensures unmarked { HasNoMarks pool.old → HasNoMarks pool.new }
{
    pool.join_front(Part::Double, wide_part(p));
}

/// Appends that the floats of a list are taken back from their place. Fails only if memory runs out.
pub(crate) fn tell_back(
    pieces: &mut Vec<Piece>,
    pool: &Pool,
    from: Part,
    place: Where,
) -> Result<(), AllocError>
    requires { IsArea from }
    ensures { OnOk result (pieces.new.items ≡ pieces.old.items ++ tales (back_tales place (floats_of from pool.now.lists))) }
{
    for entry in pool.entries(from) {
        pieces.push(Piece::Says(Tale::Back(*entry.float(), place)))?;
    }
    Ok(())
}
