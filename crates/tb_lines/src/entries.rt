//! A paragraph's list, and where its lines may end.
ghost use Rattle.std.specs.Prelude.{◌≡◌, ◌<◌, negsuc, length, IfOk};
ghost use Rattle.std.specs.Ordering.{int_eq};
ghost use Rattle.tb_lines.specs.Entries.{is_word, entry_penalty, is_legal_entry, after_word, is_legal, list_of};

use crate::text::Item;
use std::alloc::{AllocError, Global};

// The penalty of a break that must be taken.
const FORCED: i16 = -10_000;

const FORBIDDEN: i16 = 10_000;

/// What a paragraph's list has: its items, and the glue that fills its last line.
#[derive(Clone, Copy)]
pub enum Entry {
    /// An item of the paragraph.
    Item(Item),
    /// The glue 0 plus 1fil that fills the last line.
    Fill,
}

/// Whether an entry is a word.
pub(crate) fn is_word(entry: &Entry) -> bool
    ensures { result ≡ is_word entry.now }
{
    matches!(*entry, Entry::Item(Item::Word { .. }))
}

/// The penalty of a line that ends at an entry.
pub(crate) fn entry_penalty(entry: &Entry) -> i16
    ensures { result ≡ entry_penalty entry.now }
{
    match *entry {
        Entry::Item(Item::Penalty(penalty)) => penalty,
        _ => 0,
    }
}

/// Whether a line must end at an entry.
pub(crate) fn is_forced_entry(entry: &Entry) -> bool
    ensures { result ≡ int_eq (entry_penalty entry.now) (negsuc 9999) }
{
    entry_penalty(entry) == FORCED
}

fn is_legal_entry(behind: bool, entry: &Entry) -> bool
    ensures { result ≡ is_legal_entry behind entry.now }
{
    match *entry {
        Entry::Item(Item::Word { .. }) => false,
        Entry::Item(Item::Space { .. }) => behind,
        Entry::Item(Item::Penalty(penalty)) => penalty < FORBIDDEN,
        Entry::Fill => false,
    }
}

fn is_after_word(entries: &[Entry], place: usize) -> bool
    requires { place < length entries.now }
    ensures { result ≡ after_word entries.now place }
{
    match place.checked_sub(1) {
        Some(before) => is_word(&entries[before]),
        None => false,
    }
}

/// Whether a line may end at a place.
pub(crate) fn is_legal(entries: &[Entry], place: usize) -> bool
    requires { place < length entries.now }
    ensures { result ≡ is_legal entries.now place }
{
    is_legal_entry(is_after_word(entries, place), &entries[place])
}

/// A paragraph's list: its items, then a penalty that forbids a break, the glue that fills its last line, and a penalty
/// that forces a break.
pub(crate) fn list_of(alloc: Global, items: &[Item]) -> Result<Vec<Entry>, AllocError>
    ensures { IfOk result (λ v. v.items ≡ list_of items.now) }
{
    let mut entries = Vec::with_capacity(alloc, items.len().saturating_add(3))?;
    for item in items {
        entries.push(Entry::Item(*item))?;
    }
    entries.push(Entry::Item(Item::Penalty(FORBIDDEN)))?;
    entries.push(Entry::Fill)?;
    entries.push(Entry::Item(Item::Penalty(FORCED)))?;
    Ok(entries)
}
