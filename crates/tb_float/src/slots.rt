//! Slots in the lists of the store: moved by their links, taken out, searched.
ghost use Rattle.std.specs.Prelude.{ℕ, ◌≡◌, ◌≢◌, ◌+◌, ◌<◌, ◌≤◌, [], ◌∷◌, ◌++◌, Some, IfSome, IfNone, List, length, true, map, slice_get, slice_set, take, drop};
ghost use Rattle.std.specs.FinMap.{insert, get};
ghost use Rattle.tb_pool.specs.Lists.{IsLive, list_at, with_list};
ghost use Rattle.tb_float.specs.Slots.{SlotView};
ghost use Rattle.tb_float.specs.Lists.{without_place, has_class, float_before};
ghost use Rattle.tb_float.specs.Classes.{AreSetFrom};
ghost use Rattle.tb_float.specs.Pool.{first_marked};
ghost use Rattle.tb_float.specs.Rooms.{total_height};
ghost use Rattle.tb_float.specs.Shelves.{HasTaken, flagged_slot, flagged_slots, marked_slot, unmarked_slot, floats_in, marks_in};

use crate::{Entry, Slot};
use tb_pool::{ListId, Lists};

/// The slot at a place goes to the end of another list, without its mark, by links alone; returns it as it was.
#[tactic(auto, using(tb_pool::proofs::MapLemmas::list_steps))]
pub(crate) fn move_slot(
    store: &mut Lists<Slot>,
    from: ListId,
    k: usize,
    to: ListId,
    one: ListId,
    rest: ListId,
) -> Slot
    requires from_live { IsLive store.old from }
    requires to_live { IsLive store.old to }
    requires one_live { IsLive store.old one }
    requires rest_live { IsLive store.old rest }
    requires differ { (from ≢ to) × (from ≢ one) × (from ≢ rest) × (to ≢ one) × (to ≢ rest) × (one ≢ rest) }
    requires one_empty { list_at store.old one ≡ [] }
    requires rest_empty { list_at store.old rest ≡ [] }
    requires within { k < length (list_at store.old from) }
    ensures was { slice_get (list_at store.old from) k ≡ Some result }
    ensures moved { store.new.lists ≡ insert (with_list store.old from (without_place k (list_at store.old from))) to (list_at store.old to ++ unmarked_slot result ∷ []) }
    ensures spare { store.new.spare ≡ store.old.spare }
{
    store.cut(from, k, one);
    store.cut(one, 1, rest);
    let slot = unmark_first(store, one);
    store.append(to, one);
    store.append(from, rest);
    slot
}

// Takes the mark from the first slot of a list, and returns the slot as it was.
fn unmark_first(store: &mut Lists<Slot>, l: ListId) -> Slot
    requires live { IsLive store.old l }
    requires some { 0 < length (list_at store.old l) }
    ensures was { slice_get (list_at store.old l) 0 ≡ Some result }
    ensures unmarked { store.new.lists ≡ with_list store.old l (slice_set (list_at store.old l) 0 (unmarked_slot result)) }
    ensures spare { store.new.spare ≡ store.old.spare }
{
    let slot = slot_at(store, l, 0);
    store.replace(l, 0, unmarked(slot));
    slot
}

// The slot without its mark.
fn unmarked(slot: Slot) -> Slot
    ensures { result ≡ unmarked_slot slot }
{
    Slot {
        entry: slot.entry,
        marked: false,
    }
}

/// The slot at a place of a list.
pub(crate) fn slot_at(store: &Lists<Slot>, l: ListId, k: usize) -> Slot
    requires live { IsLive store.now l }
    requires within { k < length (list_at store.now l) }
    ensures { slice_get (list_at store.now l) k ≡ Some result }
{
    match store.get(l, k) {
        Some(slot) => *slot,
        None => unreachable!(),
    }
}

/// Marks the slot at a place of a list.
#[tactic(auto, using(tb_pool::proofs::MapLemmas::list_steps))]
pub(crate) fn mark_slot(store: &mut Lists<Slot>, l: ListId, k: usize, one: ListId)
    requires live { IsLive store.old l }
    requires one_live { IsLive store.old one }
    requires apart { l ≢ one }
    requires one_empty { list_at store.old one ≡ [] }
    requires within { k < length (list_at store.old l) }
    ensures marked { (s : SlotView) → slice_get (list_at store.old l) k ≡ Some s → store.new.lists ≡ with_list store.old l (slice_set (list_at store.old l) k (marked_slot s)) }
    ensures spare { store.new.spare ≡ store.old.spare }
{
    store.cut(l, k, one);
    mark_first(store, one);
    store.append(l, one);
}

// Marks the first slot of a list.
#[tactic(auto, using(tb_pool::proofs::MapLemmas::list_steps))]
fn mark_first(store: &mut Lists<Slot>, l: ListId)
    requires live { IsLive store.old l }
    requires some { 0 < length (list_at store.old l) }
    ensures marked { (s : SlotView) → slice_get (list_at store.old l) 0 ≡ Some s → store.new.lists ≡ with_list store.old l (slice_set (list_at store.old l) 0 (marked_slot s)) }
    ensures lists_live { (q : ℕ) → IsLive store.old q → IsLive store.new q }
    ensures spare { store.new.spare ≡ store.old.spare }
{
    let slot = slot_at(store, l, 0);
    store.replace(l, 0, marked(slot));
}

// The slot with a mark.
fn marked(slot: Slot) -> Slot
    ensures { result ≡ marked_slot slot }
{
    Slot {
        entry: slot.entry,
        marked: true,
    }
}

/// Marks the slots of a list whose flags are set: the first flag is that of the slot at a place. It walks over them once.
#[tactic(auto, using(tb_pool::proofs::MapLemmas::list_steps))]
pub(crate) fn mark_slots(store: &mut Lists<Slot>, l: ListId, k: usize, flags: &[bool], one: ListId)
    requires live { IsLive store.old l }
    requires one_live { IsLive store.old one }
    requires apart { l ≢ one }
    requires one_empty { list_at store.old one ≡ [] }
    requires within { k + length flags.now ≤ length (list_at store.old l) }
    ensures marked { store.new.lists ≡ with_list store.old l (take k (list_at store.old l) ++ flagged_slots flags.now (drop k (list_at store.old l))) }
    ensures spare { store.new.spare ≡ store.old.spare }
{
    store.cut(l, k, one);
    pass_slots(store, one, l, flags);
    store.append(l, one);
}

// The first slots of a list go to the end of another, as many as there are flags, and are marked if their flags are set.
#[tactic(auto, using(tb_pool::proofs::MapLemmas::list_steps))]
fn pass_slots(store: &mut Lists<Slot>, from: ListId, to: ListId, flags: &[bool])
    requires from_live { IsLive store.old from }
    requires to_live { IsLive store.old to }
    requires apart { from ≢ to }
    requires few { length flags.now ≤ length (list_at store.old from) }
    ensures passed { list_at store.new to ++ list_at store.new from ≡ list_at store.old to ++ flagged_slots flags.now (list_at store.old from) }
    ensures from_live { IsLive store.new from }
    ensures to_live { IsLive store.new to }
    ensures others { (q : ℕ) → q ≢ from → q ≢ to → get store.new.lists q ≡ get store.old.lists q }
    ensures spare { store.new.spare ≡ store.old.spare }
{
    for flag in flags {
        mark_if(store, from, *flag);
        store.move_first(from, to);
    }
}

// Marks the first slot of a list if a flag is set.
#[tactic(auto, using(tb_pool::proofs::MapLemmas::list_steps))]
fn mark_if(store: &mut Lists<Slot>, l: ListId, flag: bool)
    requires live { IsLive store.old l }
    requires some { 0 < length (list_at store.old l) }
    ensures marked { (s : SlotView) (ss : List SlotView) → list_at store.old l ≡ s ∷ ss → list_at store.new l ≡ flagged_slot flag s ∷ ss }
    ensures lists_live { (q : ℕ) → IsLive store.old q → IsLive store.new q }
    ensures others { (q : ℕ) → q ≢ l → get store.new.lists q ≡ get store.old.lists q }
    ensures spare { store.new.spare ≡ store.old.spare }
{
    if flag {
        mark_first(store, l);
    }
}

/// Takes the first marked slot out of a list in which none before a place is marked. None exactly if none is marked.
#[tactic(auto, using(tb_pool::proofs::MapLemmas::list_steps))]
pub(crate) fn take_marked(
    store: &mut Lists<Slot>,
    from: ListId,
    marks_from: usize,
    one: ListId,
    rest: ListId,
) -> Option<Slot>
    requires from_live { IsLive store.old from }
    requires one_live { IsLive store.old one }
    requires rest_live { IsLive store.old rest }
    requires differ { (from ≢ one) × (from ≢ rest) × (one ≢ rest) }
    requires one_empty { list_at store.old one ≡ [] }
    requires rest_empty { list_at store.old rest ≡ [] }
    requires marks_from { AreSetFrom marks_from (marks_in (list_at store.old from)) }
    ensures taken { IfSome result (λ s. HasTaken s from store.old store.new) }
    ensures none { IfNone result (first_marked (marks_in (list_at store.old from)) ≡ length (list_at store.old from)) }
    ensures unchanged { IfNone result (store.new ≡ store.old) }
{
    if store.len(from) <= marks_from {
        return None;
    }
    store.cut(from, marks_from, one);
    let taken = take_first_marked(store, one, rest);
    store.append(from, one);
    taken
}

// Takes the first marked slot out of a list.
#[tactic(auto, using(tb_pool::proofs::MapLemmas::list_steps))]
fn take_first_marked(store: &mut Lists<Slot>, from: ListId, one: ListId) -> Option<Slot>
    requires from_live { IsLive store.old from }
    requires one_live { IsLive store.old one }
    requires apart { from ≢ one }
    requires one_empty { list_at store.old one ≡ [] }
    ensures taken { IfSome result (λ s. HasTaken s from store.old store.new) }
    ensures none { IfNone result (first_marked (marks_in (list_at store.old from)) ≡ length (list_at store.old from)) }
    ensures lists_live { (q : ℕ) → IsLive store.old q → IsLive store.new q }
    ensures unchanged { IfNone result (store.new ≡ store.old) }
{
    let k = first_marked(store, from);
    if k == store.len(from) {
        return None;
    }
    Some(take_slot(store, from, k, one))
}

/// Takes the slot at a place out of its list.
#[tactic(auto, using(tb_pool::proofs::MapLemmas::list_steps))]
pub(crate) fn take_slot(store: &mut Lists<Slot>, from: ListId, k: usize, one: ListId) -> Slot
    requires from_live { IsLive store.old from }
    requires one_live { IsLive store.old one }
    requires apart { from ≢ one }
    requires one_empty { list_at store.old one ≡ [] }
    requires within { k < length (list_at store.old from) }
    ensures was { slice_get (list_at store.old from) k ≡ Some result }
    ensures taken { store.new.lists ≡ with_list store.old from (without_place k (list_at store.old from)) }
    ensures spare { store.new.spare ≡ store.old.spare + 1 }
{
    store.cut(from, k, one);
    let Some(slot) = store.pop_front(one) else {
        unreachable!()
    };
    store.append(from, one);
    slot
}

/// Takes the marks from all entries of a list.
#[tactic(auto, using(tb_pool::proofs::MapLemmas::list_steps))]
pub(crate) fn unmark_all(store: &mut Lists<Slot>, l: ListId)
    requires { IsLive store.old l }
    ensures unmarked { store.new.lists ≡ with_list store.old l (map unmarked_slot (list_at store.old l)) }
    ensures spare { store.new.spare ≡ store.old.spare }
{
    let count = store.len(l);
    for _turn in 0..count {
        let Some(slot) = store.pop_front(l) else {
            return;
        };
        store.push_back(l, unmarked(slot));
    }
}

/// The place of the first marked entry of a list, or the number of its entries.
pub(crate) fn first_marked(store: &Lists<Slot>, l: ListId) -> usize
    requires { IsLive store.now l }
    ensures { result ≡ first_marked (marks_in (list_at store.now l)) }
{
    let count = store.len(l);
    let mut k = 0;
    for slot in store.iter(l) {
        if slot.marked {
            return k;
        }
        k += 1;
    }
    count
}

// How many of the last entries are looked at first.
const LATE: usize = 64;

/// Whether a float of this class is in a list. If many floats wait, one of each class mostly came late, so the last ones are
/// looked at first.
pub(crate) fn is_class_in(store: &Lists<Slot>, l: ListId, class: u8) -> bool
    requires { IsLive store.now l }
    ensures { result ≡ has_class class (floats_in (list_at store.now l)) }
{
    let count = store.len(l);
    let before = if count < LATE { 0 } else { count - LATE };
    class_stands(store, l, before, count, class) || class_stands(store, l, 0, before, class)
}

/// Whether a float of this class is among the `count` entries of a list from `place` on.
pub(crate) fn class_stands(
    store: &Lists<Slot>,
    l: ListId,
    place: usize,
    count: usize,
    class: u8,
) -> bool
    requires { IsLive store.now l }
    ensures { result ≡ has_class class (floats_in (take count (drop place (list_at store.now l)))) }
{
    let mut left = count;
    for slot in store.iter_from(l, place) {
        if left == 0 {
            return false;
        }
        if is_of_class(&slot.entry, class) {
            return true;
        }
        left -= 1;
    }
    false
}

fn is_of_class(entry: &Entry, class: u8) -> bool
    ensures { result ≡ has_class class (float_before entry.now []) }
{
    match entry {
        Entry::Float(f) => f.class == class,
        Entry::Left(_) => false,
        Entry::Right(_) => false,
    }
}

/// The height that an entry adds to the sum of its list's floats: a note adds none.
pub(crate) fn entry_height(entry: &Entry) -> i64
    ensures { result ≡ total_height (float_before entry.now []) }
{
    match entry {
        Entry::Float(f) => f.height,
        Entry::Left(_) => 0,
        Entry::Right(_) => 0,
    }
}
