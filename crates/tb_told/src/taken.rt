//! A company leaves the list in which its floats wait.
ghost use Rattle.std.specs.Prelude.{◌≡◌, suc, length, None, true, false};
ghost use Rattle.tb_float.specs.Lists.{IsWaiting, floats_of};
ghost use Rattle.tb_float.specs.Pool.{HasNoMarks, marked_floats};
ghost use Rattle.tb_float.specs.MarkedFloats.{without_marked};
ghost use Rattle.tb_fpage.specs.Company.{company};
ghost use Rattle.tb_told.specs.ColumnPieces.{IsTaken};

use tb_float::{Part, Pool};
use tb_fpage::{Wanted, choose};

/// The floats of the company that makes a column leave a list in which floats wait. Returns false exactly if there is
/// none; nothing changes then.
pub fn take_company(pool: &mut Pool, from: Part, wanted: &Wanted) -> bool
    requires waiting { IsWaiting from }
    requires unmarked { HasNoMarks pool.old }
    ensures taken { result ≡ true → IsTaken wanted.now from pool.old pool.new }
    ensures none { result ≡ false → company wanted.now (floats_of from pool.old.lists) ≡ None }
    ensures unchanged { result ≡ false → pool.new ≡ pool.old }
    ensures unmarked { HasNoMarks pool.new }
{
    if !choose(
        pool,
        wanted.height,
        wanted.minimum,
        wanted.sep,
        wanted.clearing,
        wanted.wide,
        from,
    ) {
        return false;
    }
    drop_marked(pool, from);
    true
}

// The marked floats of a list leave the pool.
fn drop_marked(pool: &mut Pool, from: Part)
    requires { IsWaiting from }
    ensures { pool.new ≡ without_marked from pool.old }
{
    'floats: while drop_one(pool, from) {}
}

// The first marked float of a list leaves the pool; false if none is marked, and nothing changes then.
fn drop_one(pool: &mut Pool, from: Part) -> bool
    requires { IsWaiting from }
    ensures one { result ≡ true → without_marked from pool.new ≡ without_marked from pool.old }
    ensures fewer { result ≡ true → length (marked_floats from pool.old) ≡ suc (length (marked_floats from pool.new)) }
    ensures none { result ≡ false → pool.new ≡ without_marked from pool.old }
{
    let _marks = pool.len(from);
    match pool.retire_marked(from) {
        Some(_) => true,
        None => false,
    }
}
