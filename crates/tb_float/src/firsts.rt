//! The floats of a list that are the first of their class there, kept until the list changes.
ghost use Rattle.std.specs.Prelude.{◌≡◌, ◌≤◌, ◌++◌, ◌∷◌, List, [], IfOk, OnOk, length};
ghost use Rattle.tb_pool.specs.Lists.{IsLive, list_at};
ghost use Rattle.tb_node.specs.declared.Float.{Float as FloatValue};
ghost use Rattle.tb_float.specs.Classes.{AreClassesOf, HasLeft};
ghost use Rattle.tb_float.specs.Lists.{FloatLists, IsWaiting, float_entries, floats_of, has_class};
ghost use Rattle.tb_float.specs.Shelves.{AreSlotsOf, entries_in, floats_in};
ghost use Rattle.tb_float.specs.Firsts.{ChangesOnly, KnowsFirsts, firsts_of, is_of};

use crate::{ClassSet, Entry, Part, Slot};
use std::alloc::{AllocError, Global};
use tb_node::Float;
use tb_pool::{ListId, Lists};

// A class is a byte.
const CLASSES: usize = 256;

/// A float that waits, and its place in its list, counted from 0: no float of its class comes before it.
#[derive(Clone, Copy)]
pub struct First {
    /// The place.
    pub place: usize,
    /// The float.
    pub float: Float,
}

// The floats of one list that are the first of their class there, with their classes; of no list if they are not known.
#[derive(Drop)]
pub(crate) struct Firsts {
    of: Option<Part>,
    pub(crate) items: Vec<First>,
    classes: ClassSet,
}

impl Firsts {
    // They are not known. Room for one of each class is made here.
    pub(crate) fn unknown(alloc: Global) -> Result<Firsts, AllocError>
        ensures { IfOk result (λ k. (l : FloatLists) → KnowsFirsts k l) }
    {
        Ok(Firsts {
            of: None,
            items: Vec::with_capacity(alloc, CLASSES)?,
            classes: ClassSet::none(),
        })
    }

    // Whether they are known of a list.
    pub(crate) fn are_of(&self, p: Part) -> bool
        ensures { result ≡ is_of self.now.of p }
    {
        match (self.of, p) {
            (Some(Part::Deferred), Part::Deferred) => true,
            (Some(Part::Second), Part::Second) => true,
            _ => false,
        }
    }

    // They are not known any more. The room for them stays.
    pub(crate) fn forget(&mut self)
        ensures { (l : FloatLists) → KnowsFirsts self.new l }
    {
        self.of = None;
    }

    // A list is no longer as it was.
    pub(crate) fn lose(&mut self, p: Part)
        ensures { (l m : FloatLists) → ChangesOnly p l m → KnowsFirsts self.old l → KnowsFirsts self.new m }
    {
        if self.are_of(p) {
            self.of = None;
        }
    }

    // An entry came to the end of a list: they are the same if a float of its class is among them.
    pub(crate) fn gain(&mut self, p: Part, entry: &Entry)
        ensures { (l m : FloatLists) (f : FloatValue) → entry.now ≡ Entry.Float f → ChangesOnly p l m → (IsWaiting p → floats_of p m ≡ floats_of p l ++ f ∷ []) → KnowsFirsts self.old l → KnowsFirsts self.new m }
    {
        if self.are_of(p) && !has_class_of(&self.classes, entry) {
            self.of = None;
        }
    }

    // Finds the first floats of a list. Nothing is known afterwards if there is no room for them.
    pub(crate) fn find(&mut self, store: &Lists<Slot>, list: ListId, none: ClassSet, p: Part)
        requires live { IsLive store.now list }
        requires slots { AreSlotsOf p (list_at store.now list) }
        requires few { length (list_at store.now list) ≤ 4096 }
        requires waiting { IsWaiting p }
        requires classes { AreClassesOf none [] }
        requires left { HasLeft none (floats_in (list_at store.now list)) }
        ensures { (l : FloatLists) → floats_of p l ≡ floats_in (list_at store.now list) → KnowsFirsts self.new l }
    {
        self.of = None;
        self.items.clear();
        if let Ok(classes) = push_firsts(&mut self.items, store, list, none) {
            self.classes = classes;
            self.of = Some(p);
        }
    }
}

// Whether the class of an entry that is a float is in a set.
fn has_class_of(classes: &ClassSet, entry: &Entry) -> bool
    ensures { (fs : List FloatValue) (f : FloatValue) → entry.now ≡ Entry.Float f → AreClassesOf classes.now fs → result ≡ has_class f.class fs }
{
    match entry {
        Entry::Float(f) => classes.has(f.class),
        Entry::Left(_) => false,
        Entry::Right(_) => false,
    }
}

// Appends a float if there is room for it, and takes no memory.
fn push(items: &mut Vec<First>, first: First) -> Result<(), AllocError>
    ensures items { OnOk result (items.new.items ≡ items.old.items ++ first ∷ []) }
{
    if items.len() < items.capacity() {
        items.push_reserved(first);
        return Ok(());
    }
    Err(AllocError)
}

// Appends the first floats of their class in a list, and returns the classes.
fn push_firsts(
    items: &mut Vec<First>,
    store: &Lists<Slot>,
    list: ListId,
    none: ClassSet,
) -> Result<ClassSet, AllocError>
    requires live { IsLive store.now list }
    requires floats { entries_in (list_at store.now list) ≡ float_entries (floats_in (list_at store.now list)) }
    requires few { length (list_at store.now list) ≤ 4096 }
    requires classes { AreClassesOf none [] }
    requires left { HasLeft none (floats_in (list_at store.now list)) }
    requires empty { items.old.items ≡ [] }
    ensures items { IfOk result (λ s. items.new.items ≡ firsts_of (floats_in (list_at store.now list))) }
    ensures classes { IfOk result (λ s. AreClassesOf s (floats_in (list_at store.now list))) }
{
    let mut classes = none;
    let mut place = 0;
    for slot in store.iter(list) {
        let f = slot.entry.float();
        if !classes.has(f.class) {
            push(items, First { place, float: *f })?;
            classes.add(f.class);
            if classes.is_full() {
                return Ok(classes);
            }
        }
        place += 1;
    }
    Ok(classes)
}
