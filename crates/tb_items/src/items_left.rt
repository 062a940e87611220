//! The items of a galley whose nodes do not wait yet.

ghost use Rattle.std.specs.Prelude.{◌≡◌, ◌≤◌, ◌<◌, true, false, None, Some, if◌then◌else◌, length, take, IfOk};
ghost use Rattle.tb_node.specs.PlainNodes.{on_line};
ghost use Rattle.tb_builder.specs.Contents.{contents_of, node_count};
ghost use Rattle.tb_galley.specs.GalleyNodes.{item_kinds, expanded};
ghost use Rattle.tb_items.specs.WaitingNodes.{CanTake, AreItems};
ghost use Rattle.tb_items.specs.ItemsLeft.{nodes_of, next_nodes, are_ended, ends_batch, IsHandedOver, IsHandedNext};

use crate::galley_nodes::{change_by, put_clear, put_item, put_items, two_after};
use std::alloc::AllocError;
use tb_builder::Builder;
use tb_galley::{Galley, Item, ItemKind};
use tb_node::Node;
use tb_param::Params;
use tb_pool::Lists;

/// What is left of a galley: items whose nodes do not wait yet, and the clear at its end.
#[derive(Clone, Copy)]
pub struct ItemsLeft<'a> {
    galley: &'a Galley,
    items: &'a [Item],
    // The parameters that hold before them.
    params: Params,
    // Whether there are two columns before them.
    two: bool,
}

// So many items are handed over at once, if there are more.
const BATCH: usize = 256;

/// All of a galley, which begins in one column.
pub fn all_items(galley: &Galley) -> ItemsLeft<'_>
    ensures nodes { nodes_of result ≡ expanded galley.now }
    ensures items { result.items.now ≡ galley.now.items }
    ensures galley { result.galley.now ≡ galley.now }
    ensures params { result.params ≡ galley.now.params }
    ensures columns { result.two ≡ false }
{
    ItemsLeft {
        galley,
        items: galley.items.as_slice(),
        params: galley.params,
        two: false,
    }
}

// Whether the nodes of an item end neither with a kern nor with acts. What comes behind them does not decide then whether
// a kern before is a legal place.
fn ends_batch(kind: &ItemKind) -> bool
    ensures { result ≡ ends_batch kind.now }
{
    !matches!(
        kind,
        ItemKind::Kern(_)
            | ItemKind::Float { .. }
            | ItemKind::Suppress(_)
            | ItemKind::Page(_)
            | ItemKind::Head(_)
            | ItemKind::Set(_)
    )
}

/// How many items are handed over at once: all, or some up to one that ends a batch.
pub fn batch_len(items: &[Item]) -> usize
    ensures within { result ≤ length items.now }
    ensures ended { result < length items.now → are_ended (take result items.now) ≡ true }
{
    for count in BATCH..items.len() {
        if ends_batch(&items[count - 1].kind) {
            return count;
        }
    }
    items.len()
}

// How many nodes an item has, with those of its footnote.
fn item_count(p: &Params, two: bool, item: &Item) -> u64
    requires { node_count (on_line item.now.line (item_kinds p.now two item.now.kind)) ≤ 8388608 }
    ensures { result ≡ node_count (on_line item.now.line (item_kinds p.now two item.now.kind)) }
{
    match &item.kind {
        ItemKind::Foot { class: _, leaves } => 1 + leaves.len() as u64,
        ItemKind::Float { float, vert: _ } => {
            if p.has_second() && two && float.wide {
                1
            } else {
                4
            }
        }
        ItemKind::Margin { .. } => 4,
        ItemKind::NewPage => 2,
        ItemKind::ClearPage => 5,
        ItemKind::OneColumn | ItemKind::TwoColumn => 6,
        ItemKind::Enlarge { by: _, star } => { if *star { 3 } else { 2 } }
        _ => 1,
    }
}

impl<'a> ItemsLeft<'a> {
    /// The items, in their order.
    pub fn items(&self) -> &'a [Item]
        ensures { result.now ≡ self.now.items.now }
    {
        self.items
    }

    /// Hands over the nodes of the next items, and returns what is left then. If that is nothing, the nodes of the clear at
    /// the end wait too.
    pub fn hand_over(
        &self,
        store: &mut Lists<Node>,
        builder: &mut Builder,
    ) -> Result<Option<ItemsLeft<'a>>, AllocError>
        requires can { CanTake builder.old store.old }
        requires items { AreItems (contents_of builder.old store.old).classes self.now.items.now }
        ensures { IfOk result (λ rest. IsHandedOver self.now rest builder.old store.old builder.new store.new) }
    {
        let count = batch_len(self.items);
        let mut params = self.params;
        let two = put_items(store, builder, &mut params, self.two, &self.items[..count])?;
        if count == self.items.len() {
            put_clear(store, builder, self.galley.end_line)?;
            return Ok(None);
        }
        Ok(Some(ItemsLeft {
            galley: self.galley,
            items: &self.items[count..],
            params,
            two,
        }))
    }

    /// Hands over the nodes of the next item alone, and returns what is left then. If no item is left, the nodes of the clear
    /// at the end wait, and nothing is left.
    ///
    /// The page so far must be empty or end with no kern: then any nodes may come behind.
    pub fn hand_next(
        &self,
        store: &mut Lists<Node>,
        builder: &mut Builder,
    ) -> Result<Option<ItemsLeft<'a>>, AllocError>
        requires can { CanTake builder.old store.old }
        requires items { AreItems (contents_of builder.old store.old).classes self.now.items.now }
        ensures { IfOk result (λ rest. IsHandedNext self.now rest builder.old store.old builder.new store.new) }
    {
        let mut rest = *self;
        let more = rest.hand_on(store, builder)?;
        Ok(more.then_some(rest))
    }

    /// The same in place, which copies no parameters: they become what is left then. Returns whether anything is left; if not,
    /// they must not be used any more.
    pub fn hand_on(
        &mut self,
        store: &mut Lists<Node>,
        builder: &mut Builder,
    ) -> Result<bool, AllocError>
        requires can { CanTake builder.old store.old }
        requires items { AreItems (contents_of builder.old store.old).classes self.old.items.now }
        ensures { IfOk result (λ more. IsHandedNext self.old (if more then Some self.new else None) builder.old store.old builder.new store.new) }
    {
        if self.items.is_empty() {
            put_clear(store, builder, self.galley.end_line)?;
            return Ok(false);
        }
        let item = &self.items[0];
        put_item(
            store,
            builder,
            &self.params,
            self.two,
            item.line,
            &item.kind,
        )?;
        change_by(&mut self.params, &item.kind);
        self.two = two_after(self.two, &item.kind);
        self.items = &self.items[1..];
        Ok(true)
    }

    /// How many nodes the next item has, with those of its footnote; the nodes of the clear if no item is left.
    pub fn next_count(&self) -> u64
        requires { node_count (next_nodes self.now) ≤ 8388608 }
        ensures { result ≡ node_count (next_nodes self.now) }
    {
        if self.items.is_empty() {
            return 5;
        }
        item_count(&self.params, self.two, &self.items[0])
    }

    /// How many nodes they have, those of footnotes and of the clear too. No parameter that is set among them changes how many.
    pub fn nodes(&self) -> u64
        requires { node_count (nodes_of self.now) ≤ 8388608 }
        ensures { result ≡ node_count (nodes_of self.now) }
    {
        let mut count = 5;
        let mut two = self.two;
        for item in self.items {
            count += item_count(&self.params, two, item);
            two = two_after(two, &item.kind);
        }
        count
    }
}
