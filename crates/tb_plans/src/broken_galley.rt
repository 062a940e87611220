//! A galley with page breaks put in.

ghost use Rattle.std.specs.Prelude.{◌≡◌, ◌+◌, ◌≤◌, ◌++◌, drop, length, if◌then◌else◌, IfOk, OnOk, IsTrue};
ghost use Rattle.tb_galley.specs.Classes.{do_classes_rise};
ghost use Rattle.tb_galley.specs.Valid.{IsValid};
ghost use Rattle.tb_plans.specs.Plans.{break_before, broken, is_first, with_break, with_breaks};

use std::alloc::{AllocError, Global};
use tb_galley::{Classes, Galley, Item, ItemKind, Items, Leaf, LeafKind, Leaves};
use tb_scaled::EJECT_PENALTY;

/// A valid galley with `penalty -10000` before each of these items, on the item's line. The numbers count the items from 0
/// and rise; one that does not rise, or is no item's, is left out with all after it.
///
/// It fails only if memory runs out.
pub fn with_breaks(alloc: Global, galley: &Galley, places: &[u32]) -> Result<Galley, AllocError>
    requires { IsValid galley.now }
    ensures { IfOk result (λ g. g ≡ with_breaks galley.now places.now) }
{
    let classes = copied_classes(alloc, &galley.classes)?;
    let items = broken(alloc, galley.items.as_slice(), places)?;
    Ok(Galley {
        params: galley.params,
        version: galley.version,
        classes,
        items,
        end_line: galley.end_line,
    })
}

fn broken(alloc: Global, items: &[Item], places: &[u32]) -> Result<Items, AllocError>
    ensures { IfOk result (λ ns. ns ≡ broken 0 items.now places.now) }
{
    let mut made = Items::with_capacity(alloc, items.len())?;
    let mut next = 0;
    for (k, item) in items.iter().enumerate() {
        let here = is_first(places, next, k);
        push_item(&mut made, alloc, item, here)?;
        next = next_after(places, next, here);
    }
    Ok(made)
}

// A break goes before item `k`: the numbers from the place `next` on begin with it.
fn is_first(places: &[u32], next: usize, k: usize) -> bool
    ensures { result ≡ is_first (drop next places.now) k }
{
    match places.get(next) {
        Some(place) => *place as usize == k,
        None => false,
    }
}

fn next_after(places: &[u32], next: usize, here: bool) -> usize
    requires { next ≤ length places.now }
    ensures { result ≡ (if here then next + 1 else next) }
{
    if here { next + 1 } else { next }
}

fn push_item(made: &mut Items, alloc: Global, item: &Item, here: bool) -> Result<(), AllocError>
    ensures { OnOk result (made.new ≡ made.old ++ with_break here item.now) }
{
    if here {
        made.push(break_before(item))?;
    }
    made.push(copied(alloc, item)?)
}

fn break_before(item: &Item) -> Item
    ensures { result ≡ break_before item.now }
{
    Item {
        line: item.line,
        kind: ItemKind::Penalty(EJECT_PENALTY),
    }
}

fn copied(alloc: Global, item: &Item) -> Result<Item, AllocError>
    ensures { IfOk result (λ n. n ≡ item.now) }
{
    Ok(Item {
        line: item.line,
        kind: copied_kind(alloc, &item.kind)?,
    })
}

fn copied_kind(alloc: Global, kind: &ItemKind) -> Result<ItemKind, AllocError>
    ensures { IfOk result (λ k. k ≡ kind.now) }
{
    Ok(match kind {
        ItemKind::Hbox {
            name,
            height,
            depth,
        } => ItemKind::Hbox {
            name: *name,
            height: *height,
            depth: *depth,
        },
        ItemKind::Rule {
            name,
            height,
            depth,
        } => ItemKind::Rule {
            name: *name,
            height: *height,
            depth: *depth,
        },
        ItemKind::Skip(glue) => ItemKind::Skip(*glue),
        ItemKind::Kern(width) => ItemKind::Kern(*width),
        ItemKind::Penalty(penalty) => ItemKind::Penalty(*penalty),
        ItemKind::Mark(name) => ItemKind::Mark(*name),
        ItemKind::Note(name) => ItemKind::Note(*name),
        ItemKind::Foot { class, leaves } => ItemKind::Foot {
            class: *class,
            leaves: copied_leaves(alloc, leaves.as_slice())?,
        },
        ItemKind::Float { float, vert } => ItemKind::Float {
            float: *float,
            vert: *vert,
        },
        ItemKind::Margin { margin, vert } => ItemKind::Margin {
            margin: *margin,
            vert: *vert,
        },
        ItemKind::NewPage => ItemKind::NewPage,
        ItemKind::ClearPage => ItemKind::ClearPage,
        ItemKind::PageBreak(degree) => ItemKind::PageBreak(*degree),
        ItemKind::NoPageBreak(degree) => ItemKind::NoPageBreak(*degree),
        ItemKind::OneColumn => ItemKind::OneColumn,
        ItemKind::TwoColumn => ItemKind::TwoColumn,
        ItemKind::Suppress(area) => ItemKind::Suppress(*area),
        ItemKind::Page(number) => ItemKind::Page(*number),
        ItemKind::Head(head) => ItemKind::Head(*head),
        ItemKind::Enlarge { by, star } => ItemKind::Enlarge {
            by: *by,
            star: *star,
        },
        ItemKind::Set(change) => ItemKind::Set(*change),
    })
}

fn copied_leaves(alloc: Global, leaves: &[Leaf]) -> Result<Leaves, AllocError>
    ensures { IfOk result (λ ls. ls ≡ leaves.now) }
{
    let mut made = Leaves::new(alloc);
    for leaf in leaves {
        made.push(Leaf {
            line: leaf.line,
            kind: copied_leaf(&leaf.kind),
        })?;
    }
    Ok(made)
}

fn copied_leaf(kind: &LeafKind) -> LeafKind
    ensures { result ≡ kind.now }
{
    match kind {
        LeafKind::Hbox {
            name,
            height,
            depth,
        } => LeafKind::Hbox {
            name: *name,
            height: *height,
            depth: *depth,
        },
        LeafKind::Rule {
            name,
            height,
            depth,
        } => LeafKind::Rule {
            name: *name,
            height: *height,
            depth: *depth,
        },
        LeafKind::Skip(glue) => LeafKind::Skip(*glue),
        LeafKind::Kern(width) => LeafKind::Kern(*width),
        LeafKind::Penalty(penalty) => LeafKind::Penalty(*penalty),
    }
}

fn copied_classes(alloc: Global, classes: &Classes) -> Result<Classes, AllocError>
    requires { IsTrue (do_classes_rise classes.now) }
    ensures { IfOk result (λ cs. cs ≡ classes.now) }
{
    let mut made = Classes::new(alloc);
    for class in classes.as_slice() {
        made.push(*class)?;
    }
    Ok(made)
}
