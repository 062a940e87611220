//! What is told where a column of floats is looked for.
ghost use Rattle.std.specs.Prelude.{◌≡◌, ◌||◌, int_le, take};
ghost use Rattle.tb_float.specs.Lists.{IsWaiting, floats_of};
ghost use Rattle.tb_told.specs.ColumnTold.{alone_told};

use crate::tested::{failing, first_of_class};
use crate::{Alone, Test};
use tb_float::{Part, Pool};
use tb_fpage::Wanted;
use tb_node::Float;

/// What is told of the `k`-th float of a list in which floats wait, if it is to head a column of its width.
pub fn alone_at(pool: &Pool, wanted: &Wanted, from: Part, k: usize, f: &Float) -> Alone
    requires { IsWaiting from }
    ensures { result ≡ alone_told wanted.now (take k (floats_of from pool.now.lists)) f.now }
{
    let blocker = first_of_class(pool, from, k, f.class);
    let failed = failing(
        may_be_alone(f, wanted),
        Test::Places,
        failing(
            is_no_higher(f, wanted),
            Test::Tall,
            failing(blocker.is_none(), Test::Class, None),
        ),
    );
    Alone {
        blocker,
        high: f.height,
        most: wanted.height,
        failed,
    }
}

/// Whether it may go on a page of floats, or floats are cleared.
pub(crate) fn may_be_alone(f: &Float, wanted: &Wanted) -> bool
    ensures { result ≡ (f.now.places.p || wanted.now.clearing) }
{
    f.places.p || wanted.clearing
}

/// Whether it is no higher than the column.
pub(crate) fn is_no_higher(f: &Float, wanted: &Wanted) -> bool
    ensures { result ≡ int_le f.now.height wanted.now.height }
{
    f.height <= wanted.height
}
