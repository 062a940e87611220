//! Entries that go from list to list, and out of the pool.
ghost use Rattle.std.specs.Prelude.{◌≡◌, ◌≢◌, ◌<◌, ◌≤◌, ◌+◌, ℕ, ◌↔◌, [], ◌∷◌, slice_get, Some, IsNone, OnSome, IfSome, IfNone, length};
ghost use Rattle.tb_node.specs.declared.Float.{Float};
ghost use Rattle.tb_float.specs.Lists.{entries_of, floats_of, entry_count, HasFloatAt, IsWaiting, float_entries};
ghost use Rattle.tb_float.specs.Classes.{set_count};
ghost use Rattle.tb_float.specs.Pool.{moved_float, joined_before, with_places, with_float_at, with_mark, with_flags, without_entry, without_marks, HasNoMarks, marks_of, marked_floats, unmarked_floats, first_marked};

use crate::slots::{
    entry_height, mark_slot, mark_slots, move_slot, slot_at, take_marked, unmark_all,
};
use crate::{Entry, Part, Pool, Slot};
use tb_node::{Float, Places};

impl Pool {
    /// The float at a place of a list goes to the end of another, by links alone, and loses its mark.
    pub fn move_to(&mut self, from: Part, k: usize, to: Part)
        requires apart { from ≢ to }
        requires float { HasFloatAt (entries_of from self.old.lists) k }
        ensures moved { (f : Float) → slice_get (entries_of from self.old.lists) k ≡ Some (Entry.Float f) → self.new ≡ moved_float from k to f self.old }
        ensures unmarked { HasNoMarks self.old → HasNoMarks self.new }
    {
        let slot = move_slot(
            &mut self.store,
            self.shelves.lists.of(from),
            k,
            self.shelves.lists.of(to),
            self.shelves.one,
            self.shelves.rest,
        );
        let height = entry_height(&slot.entry);
        self.heights.lower(from, height);
        self.heights.raise(to, height);
        self.marks_from = 0;
        self.firsts.lose(from);
        self.firsts.gain(to, &slot.entry);
    }

    /// All floats of a list go before those of another, by links alone, and lose their marks.
    pub fn join_front(&mut self, from: Part, to: Part)
        requires apart { from ≢ to }
        requires floats { entries_of from self.old.lists ≡ float_entries (floats_of from self.old.lists) }
        ensures joined { self.new ≡ joined_before from to self.old }
        ensures unmarked { HasNoMarks self.old → HasNoMarks self.new }
    {
        self.unmark(from);
        let front = self.shelves.lists.of(from);
        let back = self.shelves.lists.of(to);
        self.store.append(front, back);
        self.store.append(back, front);
        let height = self.heights.of(from);
        self.heights.lower(from, height);
        self.heights.raise(to, height);
        self.marks_from = 0;
        self.firsts.lose(from);
        self.firsts.lose(to);
    }

    /// No float of a list is chosen any more.
    pub fn unmark(&mut self, p: Part)
        ensures { self.new ≡ without_marks p self.old }
    {
        if p.holds_marks() {
            self.unmark_waiting(p);
        }
    }

    // Takes the marks from all entries of a list in which floats wait.
    fn unmark_waiting(&mut self, p: Part)
        requires { IsWaiting p }
        ensures { self.new ≡ without_marks p self.old }
    {
        let list = self.shelves.lists.of(p);
        unmark_all(&mut self.store, list);
        self.marks_from = 0;
    }

    /// The first entry of a list leaves the pool. None exactly if the list is empty.
    pub fn retire(&mut self, p: Part) -> Option<Entry>
        ensures first { result ≡ slice_get (entries_of p self.old.lists) 0 }
        ensures empty { IsNone result ↔ (entry_count p self.old.lists ≡ 0) }
        ensures rest { OnSome result (self.new ≡ without_entry p 0 self.old) }
        ensures unchanged { IfNone result (self.new ≡ self.old) }
        ensures unmarked { HasNoMarks self.old → HasNoMarks self.new }
    {
        let Some(slot) = self.store.pop_front(self.shelves.lists.of(p)) else {
            return None;
        };
        self.heights.lower(p, entry_height(&slot.entry));
        self.marks_from = 0;
        self.firsts.lose(p);
        Some(slot.entry)
    }

    /// The float at a place of a list may go to these places from now on.
    pub fn set_places(&mut self, p: Part, k: usize, places: Places)
        requires { HasFloatAt (entries_of p self.old.lists) k }
        ensures set { (f : Float) → slice_get (entries_of p self.old.lists) k ≡ Some (Entry.Float f) → self.new ≡ with_float_at p k (with_places places f) self.old }
        ensures unmarked { HasNoMarks self.old → HasNoMarks self.new }
    {
        let list = self.shelves.lists.of(p);
        let slot = slot_at(&self.store, list, k);
        let float = *slot.entry.float();
        self.store.replace(
            list,
            k,
            Slot {
                entry: Entry::Float(with_places(places, float)),
                marked: slot.marked,
            },
        );
        self.marks_from = 0;
        self.firsts.lose(p);
    }

    /// The float at a place of a list in which floats wait is chosen for a column of floats.
    pub fn mark(&mut self, from: Part, k: usize)
        requires waiting { IsWaiting from }
        requires place { k < length (floats_of from self.old.lists) }
        ensures { self.new ≡ with_mark from k self.old }
    {
        mark_slot(
            &mut self.store,
            self.shelves.lists.of(from),
            k,
            self.shelves.one,
        );
        self.marks_from = marks_place(self.chosen, self.marks_from, k);
        self.chosen = one_more(self.chosen);
    }

    /// The floats of a list in which floats wait are chosen for a column of floats if their flags are set: the first flag is
    /// that of the float at place `k`, the next that of the next one. It walks over them once.
    pub fn mark_by(&mut self, from: Part, k: usize, flags: &[bool])
        requires waiting { IsWaiting from }
        requires within { k + length flags.now ≤ length (floats_of from self.old.lists) }
        ensures { self.new ≡ with_flags from k flags.now self.old }
    {
        mark_slots(
            &mut self.store,
            self.shelves.lists.of(from),
            k,
            flags,
            self.shelves.one,
        );
        self.marks_from = marks_place(self.chosen, self.marks_from, k);
        let set = count_set(flags);
        self.chosen = more_chosen(self.chosen, set);
    }

    /// The first marked float of a list in which floats wait leaves the pool. None exactly if no float of the list is
    /// marked.
    pub fn retire_marked(&mut self, from: Part) -> Option<Float>
        requires { IsWaiting from }
        ensures none { IsNone result ↔ (marked_floats from self.old ≡ []) }
        ensures first { IfSome result (λ f. marked_floats from self.old ≡ f ∷ marked_floats from self.new) }
        ensures others { OnSome result (unmarked_floats from self.new ≡ unmarked_floats from self.old) }
        ensures rest { OnSome result (self.new ≡ without_entry from (first_marked (marks_of from self.old)) self.old) }
        ensures unchanged { IfNone result (self.new ≡ self.old) }
        ensures all_unmarked { IfNone result (unmarked_floats from self.old ≡ floats_of from self.old.lists) }
    {
        if self.chosen == 0 {
            return None;
        }
        let Some(slot) = take_marked(
            &mut self.store,
            self.shelves.lists.of(from),
            self.marks_from,
            self.shelves.one,
            self.shelves.rest,
        ) else {
            return None;
        };
        self.chosen -= 1;
        self.firsts.lose(from);
        self.heights.lower(from, entry_height(&slot.entry));
        Some(*slot.entry.float())
    }
}

// Up to which place no float is marked, once the one at a place is too.
fn marks_place(chosen: usize, marks_from: usize, k: usize) -> usize
    ensures place { result ≤ k }
    ensures before { 0 < chosen → result ≤ marks_from }
{
    if chosen == 0 || k < marks_from {
        k
    } else {
        marks_from
    }
}

// A number of floats and one more; no more than 4096 wait.
fn one_more(count: usize) -> usize
    ensures { (k : ℕ) → k ≤ count + 1 → k ≤ 4096 → k ≤ result }
{
    if count < 4096 { count + 1 } else { count }
}

// A number of floats and some more; no more than 4096 wait.
fn more_chosen(count: usize, more: usize) -> usize
    ensures { (k : ℕ) → k ≤ count + more → k ≤ 4096 → k ≤ result }
{
    if count < 4096 && more < 4096 {
        count + more
    } else {
        4096
    }
}

// How many flags are set.
fn count_set(flags: &[bool]) -> usize
    ensures { result ≡ set_count flags.now }
{
    let mut set = 0;
    for flag in flags {
        if *flag {
            set += 1;
        }
    }
    set
}

// The float with other places.
fn with_places(places: Places, float: Float) -> Float
    ensures { result ≡ with_places places float }
{
    Float { places, ..float }
}
