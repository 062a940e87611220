//! Worked lists.

ghost use Rattle.std.specs.Prelude.{◌≡◌, ◌+◌, ◌<◌, ◌≤◌, All, length};
ghost use Rattle.tb_pool.specs.Lists.{IsLive, list_at};
ghost use Rattle.tb_node.specs.Fit.{IsSizedNode, IsSized};
ghost use Rattle.tb_node.specs.PlainNodes.{shape_of_kind};

use std::test::Fail;
use tb_node::{Kind, Node, RuleOf, What, list_extent, list_sums, name_of};
use tb_pool::{ListId, Lists};
use tb_scaled::{Glue, Order};

#[test]
fn reads_names(rt: HostRuntime) {
    assert!(rt; name_of(b"p.1").is_some_and(|name| name.as_bytes() == b"p.1".as_slice()));
    assert!(rt; name_of(b".p").is_none());
    assert!(rt; name_of(b"").is_none());
}

#[tactic(auto, using(tb_pool::proofs::MapLemmas::list_steps))]
#[test]
fn adds_up_a_list(rt: HostRuntime) -> Result<(), Fail> {
    let mut lists = Lists::new(rt.alloc());
    let l = lists.add_list()?;
    lists.reserve(4)?;
    let glue = Glue {
        width: 5,
        stretch: 2,
        order: Order::Fil,
        shrink: 1,
    };
    put(
        &mut lists,
        l,
        Kind::Hbox {
            what: What::Blank,
            height: 10,
            depth: 2,
        },
    );
    put(&mut lists, l, Kind::Skip(glue));
    put(&mut lists, l, Kind::Kern(-1));
    put(
        &mut lists,
        l,
        Kind::Rule {
            of: RuleOf::Footnotes,
            height: 12,
            depth: 3,
        },
    );
    let sums = list_sums(&lists, l, 1);
    let extent = list_extent(&lists, l);
    let stretch = sums.stretch;
    assert_eq!(rt; (sums.total, sums.depth, sums.shrink), (30, 1, 1));
    assert_eq!(rt; stretch, [0, 2, 0, 0]);
    assert_eq!(rt; (extent.room, extent.depth), (31, 3));
    Ok(())
}

#[tactic(auto, using(tb_pool::proofs::MapLemmas::list_steps))]
pub(crate) fn put(lists: &mut Lists<Node>, l: ListId, kind: Kind)
    requires live { IsLive lists.old l }
    requires room { 0 < lists.old.spare }
    requires list { All IsSizedNode (list_at lists.old l) }
    requires few { length (list_at lists.old l) < 4 }
    requires node { IsSized (shape_of_kind kind) }
    ensures live { IsLive lists.new l }
    ensures spare { lists.new.spare + 1 ≡ lists.old.spare }
    ensures list { All IsSizedNode (list_at lists.new l) }
    ensures few { length (list_at lists.new l) ≤ 4 }
    ensures length { length (list_at lists.new l) ≡ length (list_at lists.old l) + 1 }
{
    lists.push_back(l, Node { line: 0, kind });
}
