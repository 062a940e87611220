//! The room that a node takes, and that of a vertical list with its depth, in one short walk.

ghost use Rattle.std.specs.Prelude.{◌≡◌, ◌≤◌, ◌+ℤ◌, All, length, pos, FitsSigned};
ghost use Rattle.std.specs.Int.{w64};
ghost use Rattle.tb_pool.specs.Lists.{IsLive, list_at};
ghost use Rattle.tb_node.specs.PlainNodes.{shape_of};
ghost use Rattle.tb_node.specs.Sums.{room_of, size_of, depth_after, last_depth};
ghost use Rattle.tb_node.specs.SmallAmounts.{IsAmount, IsSmallShape};
ghost use Rattle.tb_node.specs.Fit.{shapes, IsSizedNode};

use crate::{Extent, Kind, Node};
use tb_pool::{ListId, Lists};
use tb_scaled::sum;

impl Extent {
    // With a box or a rule behind it.
    #[inline(always)]
    fn with_box(self, height: i64, depth: i64) -> Extent
        requires room { IsAmount self.room }
        requires node { IsAmount (height +ℤ depth) }
        ensures room { result.room ≡ self.room +ℤ (height +ℤ depth) }
        ensures depth { result.depth ≡ depth }
    {
        let room = sum(self.room, sum(height, depth));
        Extent { room, depth }
    }

    // With glue or a kern behind it.
    #[inline(always)]
    fn with_space(self, width: i64) -> Extent
        requires room { IsAmount self.room }
        requires node { IsAmount width }
        ensures room { result.room ≡ self.room +ℤ width }
        ensures depth { result.depth ≡ pos 0 }
    {
        let room = sum(self.room, width);
        Extent { room, depth: 0 }
    }

    // With a node behind it.
    #[inline(always)]
    fn with_node(self, n: &Node) -> Extent
        requires room { IsAmount self.room }
        requires node { IsSmallShape (shape_of n.now) }
        ensures room { result.room ≡ self.room +ℤ room_of (shape_of n.now) }
        ensures depth { result.depth ≡ depth_after self.depth (shape_of n.now) }
    {
        match n.kind {
            Kind::Hbox { height, depth, .. } => self.with_box(height, depth),
            Kind::Rule { height, depth, .. } => self.with_box(height, depth),
            Kind::Skip(g) => self.with_space(g.width),
            Kind::Kern(w) => self.with_space(w),
            Kind::Pen(_) => self,
            Kind::Mark(_) => self,
            Kind::Note(_) => self,
            Kind::Whatsit => self,
            Kind::Ins(_) => self,
            Kind::Act(_) => self,
        }
    }
}

/// The room that a node takes in a list, in sp: the height and depth of a box or rule, the width of glue or a kern.
#[inline]
pub fn room_of(n: &Node) -> i64
    requires { FitsSigned w64 (room_of (shape_of n.now)) }
    ensures { result ≡ room_of (shape_of n.now) }
{
    match n.kind {
        Kind::Hbox { height, depth, .. } => sum(height, depth),
        Kind::Rule { height, depth, .. } => sum(height, depth),
        Kind::Skip(g) => g.width,
        Kind::Kern(w) => w,
        Kind::Pen(_) => 0,
        Kind::Mark(_) => 0,
        Kind::Note(_) => 0,
        Kind::Whatsit => 0,
        Kind::Ins(_) => 0,
        Kind::Act(_) => 0,
    }
}

/// The room that a list of the store takes, and its depth, in one walk without stretch and shrink (TeX: The Program
/// §668 to §671).
#[inline(never)]
pub fn list_extent(store: &Lists<Node>, l: ListId) -> Extent
    requires live { IsLive store.now l }
    requires sized { All IsSizedNode (list_at store.now l) }
    requires few { length (list_at store.now l) ≤ 8388608 }
    ensures room { result.room ≡ size_of (shapes store.now l) }
    ensures depth { result.depth ≡ last_depth (shapes store.now l) }
{
    let mut extent = Extent { room: 0, depth: 0 };
    for n in store.iter(l) {
        extent = extent.with_node(n);
    }
    extent
}
