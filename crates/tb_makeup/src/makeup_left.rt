//! The items of a galley whose nodes do not wait yet.

ghost use Rattle.std.specs.Prelude.{◌≡◌, ◌≤◌, IfOk};
ghost use Rattle.tb_node.specs.PlainNodes.{on_line};
ghost use Rattle.tb_builder.specs.Contents.{contents_of, node_count};
ghost use Rattle.tb_items.specs.WaitingNodes.{CanTake, AreItems};
ghost use Rattle.tb_plain.specs.GalleyNodes.{makeup_kinds, made_up};
ghost use Rattle.tb_makeup.specs.MakeupLeft.{nodes_of, IsHandedOver};

use crate::galley_nodes::{put_clearing, put_items};
use std::alloc::AllocError;
use tb_builder::Builder;
use tb_galley::{Galley, Item, ItemKind};
use tb_items::batch_len;
use tb_node::Node;
use tb_pool::Lists;

/// What is left of a galley: items whose nodes do not wait yet, and the clear at its end.
#[derive(Clone, Copy)]
pub struct MakeupLeft<'a> {
    galley: &'a Galley,
    items: &'a [Item],
}

/// All of a galley.
pub(crate) fn all_left(galley: &Galley) -> MakeupLeft<'_>
    ensures nodes { nodes_of result ≡ made_up galley.now }
    ensures items { result.items.now ≡ galley.now.items }
{
    MakeupLeft {
        galley,
        items: galley.items.as_slice(),
    }
}

impl<'a> MakeupLeft<'a> {
    /// Hands over the nodes of the next items, and returns what is left then. If that is nothing, the nodes of the clear at
    /// the end wait too.
    pub(crate) fn hand_over(
        &self,
        store: &mut Lists<Node>,
        builder: &mut Builder,
    ) -> Result<Option<MakeupLeft<'a>>, AllocError>
        requires can { CanTake builder.old store.old }
        requires items { AreItems (contents_of builder.old store.old).classes self.now.items.now }
        ensures { IfOk result (λ rest. IsHandedOver self.now rest builder.old store.old builder.new store.new) }
    {
        let count = batch_len(self.items);
        put_items(store, builder, &self.galley.params, &self.items[..count])?;
        if count == self.items.len() {
            put_clearing(store, builder, self.galley.end_line)?;
            return Ok(None);
        }
        Ok(Some(MakeupLeft {
            galley: self.galley,
            items: &self.items[count..],
        }))
    }

    /// How many nodes they have, those of footnotes and of the clear too.
    pub(crate) fn nodes(&self) -> u64
        requires { node_count (nodes_of self.now) ≤ 8388608 }
        ensures { result ≡ node_count (nodes_of self.now) }
    {
        let mut count = 2;
        for item in self.items {
            count += self.item_nodes(item);
        }
        count
    }

    // How many nodes an item of the galley has, with those of its footnote.
    fn item_nodes(&self, item: &Item) -> u64
        requires { node_count (on_line item.now.line (makeup_kinds self.now.galley.now.params item.now.kind)) ≤ 8388608 }
        ensures { result ≡ node_count (on_line item.now.line (makeup_kinds self.now.galley.now.params item.now.kind)) }
    {
        match &item.kind {
            ItemKind::Foot { class: _, leaves } => 1 + leaves.len() as u64,
            ItemKind::Float { .. } | ItemKind::NewPage | ItemKind::ClearPage => 2,
            ItemKind::Margin { .. } => 4,
            ItemKind::OneColumn | ItemKind::TwoColumn => 6,
            ItemKind::Enlarge { by: _, star } => { if *star { 3 } else { 2 } }
            _ => 1,
        }
    }
}
