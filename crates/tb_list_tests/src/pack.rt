//! Worked rows of packing.

ghost use Rattle.std.specs.Prelude.{◌≡◌, ◌+◌, ◌<◌, ◌≤◌, All, length};
ghost use Rattle.tb_pool.specs.Lists.{IsLive, list_at};
ghost use Rattle.tb_node.specs.Fit.{IsSizedNode, IsSized};
ghost use Rattle.tb_node.specs.PlainNodes.{shape_of_kind};

use crate::node::put;
use std::test::Fail;
use tb_node::{Kind, Node, What};
use tb_pack::{Set, Sign, Tops, at, pack};
use tb_pool::{ListId, Lists};
use tb_scaled::{Glue, Order};

const BOX: Kind = Kind::Hbox {
    what: What::Blank,
    height: 20,
    depth: 0,
};

const GLUE: Kind = Kind::Skip(Glue {
    width: 10,
    stretch: 0,
    order: Order::Normal,
    shrink: 4,
});

#[tactic(auto, using(tb_pool::proofs::MapLemmas::list_steps))]
#[test]
fn shrinks_two_boxes(rt: HostRuntime) -> Result<(), Fail> {
    let mut lists = Lists::new(rt.alloc());
    let l = lists.add_list()?;
    lists.reserve(3)?;
    put(&mut lists, l, BOX);
    put(&mut lists, l, GLUE);
    put(&mut lists, l, BOX);
    let fits = pack(&lists, l, 47, 0);
    assert!(rt; matches!(fits.sign, Sign::Shrink));
    assert_eq!(rt; (fits.num, fits.den, fits.over), (3, 4, 0));
    assert_eq!(rt; at(&fits, 30, 4), 27);
    let overfull = pack(&lists, l, 45, 0);
    assert_eq!(rt; (overfull.num, overfull.den, overfull.over), (1, 1, 1));
    let mut tops = Tops::new(overfull);
    tops.pass(&Node { line: 0, kind: BOX });
    tops.pass(&Node {
        line: 0,
        kind: GLUE,
    });
    assert_eq!(rt; tops.top(), 26);
    Ok(())
}

#[test]
fn positions_are_exact(rt: HostRuntime) {
    let set = Set {
        height: 0,
        natural: 0,
        sign: Sign::Stretch,
        order: Order::Normal,
        num: 1_000_000_000,
        den: 1,
        depth: 0,
        over: 0,
    };
    assert_eq!(rt; at(&set, 0, 100_000_000_000), 100_000_000_000_000_000_000);
}
