//! The number of nodes that a builder holds.

ghost use Rattle.std.specs.Prelude.{◌≡◌, ◌+◌, min, option_to_list, map};
ghost use Rattle.tb_pool.specs.Lists.{IsLive, list_at};
ghost use Rattle.tb_node.specs.PlainNodes.{plain_of, plain_list};
ghost use Rattle.tb_builder.specs.Contents.{contents_of, kind_count, node_count, boxed_of, box_count, contents_count};
ghost use Rattle.tb_builder.specs.Ownership.{inner_of, inner_ids, box_ids, AllLive, VoidEmpty};
ghost use Rattle.tb_builder.specs.Courses.{IsSound};

use crate::{Builder, ClassList};
use tb_node::{Kind, Node};
use tb_pool::{ListId, Lists};

// The sum of two counts, which saturates.
fn more(total: u64, count: u64) -> u64
    ensures { result ≡ min (total + count) 18446744073709551615 }
{
    total.saturating_add(count)
}

// The count of a node: itself and the nodes of its insertion.
fn count_of(store: &Lists<Node>, n: &Node) -> u64
    requires { AllLive store.now (option_to_list (inner_of n.now.kind)) }
    ensures { result ≡ min (kind_count (plain_of (list_at store.now) n.now).kind) 18446744073709551615 }
{
    match n.kind {
        Kind::Ins(i) => more(1, store.len(i.list) as u64),
        _ => 1,
    }
}

// The count of the nodes of a list, those of insertions too.
fn count_nodes(store: &Lists<Node>, l: ListId) -> u64
    requires live { IsLive store.now l }
    requires inner { AllLive store.now (inner_ids (list_at store.now l)) }
    ensures { result ≡ min (node_count (plain_list store.now l)) 18446744073709551615 }
{
    let mut total = 0;
    for n in store.iter(l) {
        total = more(total, count_of(store, n));
    }
    total
}

// The count of the nodes in class boxes.
fn count_boxes(store: &Lists<Node>, boxes: &[ClassList]) -> u64
    requires live { AllLive store.now (box_ids boxes.now) }
    requires void { VoidEmpty store.now boxes.now }
    ensures { result ≡ min (box_count (map (boxed_of store.now) boxes.now)) 18446744073709551615 }
{
    let mut total = 0;
    for entry in boxes {
        total = more(total, store.len(entry.list) as u64);
    }
    total
}

impl Builder {
    /// The number of nodes that wait and of those in the class boxes, the lists of insertions counted too; it saturates
    /// at 18446744073709551615.
    pub fn nodes(&self, store: &Lists<Node>) -> u64
        requires { IsSound self.now store.now }
        ensures { result ≡ contents_count (contents_of self.now store.now) }
    {
        let boxes = count_boxes(store, self.boxes.as_slice());
        more(count_nodes(store, self.waiting), boxes)
    }
}
