//! The insertions that a page had no room for.

ghost use Rattle.std.specs.Prelude.{◌≡◌, ◌≤◌, ◌++◌};
ghost use Rattle.tb_pool.specs.Lists.{IsLive};
ghost use Rattle.tb_node.specs.PlainNodes.{plain_list};
ghost use Rattle.tb_items.specs.ItemsLeft.{nodes_left};
ghost use Rattle.tb_rate.specs.RatedRun.{inserted_first, insertions_first, is_inserted};

use tb_galley::{Item, ItemKind};
use tb_items::ItemsLeft;
use tb_node::{Kind, Node};
use tb_pool::{ListId, Lists};

/// How many insertions come first in a list that has the nodes of these items behind it. After a firing those that its page
/// had no room for wait before all else.
pub fn insertions_first(store: &Lists<Node>, waiting: ListId, left: &Option<ItemsLeft<'_>>) -> u64
    requires live { IsLive store.now waiting }
    requires few { insertions_first (plain_list store.now waiting ++ nodes_left left.now) ≤ 4194304 }
    ensures { result ≡ insertions_first (plain_list store.now waiting ++ nodes_left left.now) }
{
    let mut count = 0;
    for node in store.iter(waiting) {
        match node.kind {
            Kind::Ins(_) => count += 1,
            _ => return count,
        }
    }
    match left {
        Some(left) => count + inserted_first(left.items()),
        None => count,
    }
}

// How many insertions come first among items.
fn inserted_first(items: &[Item]) -> u64
    ensures { result ≡ inserted_first items.now }
{
    let mut count = 0;
    for item in items {
        if !is_inserted(&item.kind) {
            return count;
        }
        count += 1;
    }
    count
}

fn is_inserted(kind: &ItemKind) -> bool
    ensures { result ≡ is_inserted kind.now }
{
    matches!(kind, ItemKind::Foot { .. } | ItemKind::Enlarge { .. })
}
