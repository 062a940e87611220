//! The packing of a text column whose page is made higher, or whose contents are shrunk (LaTeX, \enlargethispage).
ghost use Rattle.std.specs.Prelude.{◌≡◌, ◌+ℤ◌, List, map};
ghost use Rattle.tb_node.specs.declared.Node.{Node as NodeOf};
ghost use Rattle.tb_node.specs.Fit.{IsDimension};
ghost use Rattle.tb_node.specs.PlainNodes.{shape_of};
ghost use Rattle.tb_node.specs.SmallAmounts.{IsAmount, IsSmall};
ghost use Rattle.tb_node.specs.Sums.{sums_of};
ghost use Rattle.tb_pack.specs.Pack.{packed};
ghost use Rattle.tb_float.specs.Ranges.{IsWithin};
ghost use Rattle.tb_column.specs.Column.{higher_by};
ghost use Rattle.tb_column.specs.Ranges.{AreColumnParams, IsEnlarged};
ghost use Rattle.tb_column.specs.TextColumns.{ended_list, packed_list};

use crate::Enlarged;
use tb_node::Sums;
use tb_pack::{Set, pack_sums, pack_wide};
use tb_param::Params;

// These sums with another total.
fn with_total(sums: &Sums, total: i64) -> Sums
    ensures { result ≡ record sums.now { total = total } }
{
    Sums {
        total,
        depth: sums.depth,
        stretch: sums.stretch,
        shrink: sums.shrink,
    }
}

// The total of a column whose contents are shrunk: its room, the glue at its bottom, and the shrink of the page.
fn shrunk_total(height: i64, bottom: i64, shrink: i64) -> i64
    requires height { IsWithin 35184372088832 height }
    requires bottom { IsDimension bottom }
    requires shrink { IsAmount shrink }
    ensures { result ≡ height +ℤ bottom +ℤ shrink }
{
    height + bottom + shrink
}

// The height of a column that is higher than its room.
fn higher(height: i64, by: i64) -> i64
    requires height { IsWithin 35184372088832 height }
    requires by { IsWithin 18014398509481984 by }
    ensures value { result ≡ height +ℤ by }
    ensures amount { IsAmount result }
{
    height + by
}

/// How the glue of a column is set that ends with these sums and has this room.
pub(crate) fn set_column(sums: &Sums, p: &Params, height: i64, enlarged: &Enlarged) -> Set
    requires params { AreColumnParams p.now }
    requires height { IsWithin 35184372088832 height }
    requires small { IsSmall sums.now }
    requires enlarged { IsEnlarged enlarged.now }
    ensures { (ns : List NodeOf) → sums.now ≡ sums_of p.now.maxdepth (map shape_of (ended_list p.now ns))
        → result ≡ packed (height +ℤ higher_by enlarged.now) p.now.maxdepth (map shape_of (packed_list p.now height enlarged.now ns)) }
{
    match enlarged {
        Enlarged::No => pack_sums(sums, height),
        Enlarged::By(by) => pack_sums(sums, higher(height, *by)),
        Enlarged::Shrunk(shrink) => {
            let total = shrunk_total(height, p.textbottom.width, *shrink);
            let whole = with_total(sums, total);
            pack_wide(&whole, height)
        }
    }
}
