//! The running sums of a paragraph's list.
ghost use Rattle.std.specs.Prelude.{◌≡◌, ◌≤◌, ◌<◌, ◌+◌, length, IfOk, true, if◌then◌else◌};
ghost use Rattle.tb_lines.specs.Demerits.{entry_sums, plus_sums};
ghost use Rattle.tb_lines.specs.Entries.{is_word};
ghost use Rattle.tb_lines.specs.Prepared.{AreRunning, AreFirstWords, AreFloors, AreSmall, least_width};

use crate::entries::{Entry, is_legal, is_word};
use crate::text::Item;
use std::alloc::{AllocError, Global};

/// The sums of what is between two places of a paragraph's list, in sp.
#[derive(Clone, Copy)]
pub struct Sums {
    /// The widths of words and spaces.
    pub width: u64,
    /// The stretch of spaces.
    pub stretch: u64,
    /// The shrink of spaces.
    pub shrink: u64,
    /// How many glues of the last line there are.
    pub fills: u64,
}

const NO_SUMS: Sums = Sums {
    width: 0,
    stretch: 0,
    shrink: 0,
    fills: 0,
};

fn entry_sums(entry: &Entry) -> Sums
    ensures value { result ≡ entry_sums entry.now }
    ensures small { AreSmall 1 result }
{
    match *entry {
        Entry::Item(
            Item::Word {
                width,
                height: _,
                depth: _,
            },
        ) => Sums {
            width: u64::from(width),
            stretch: 0,
            shrink: 0,
            fills: 0,
        },
        Entry::Item(
            Item::Space {
                width,
                stretch,
                shrink,
            },
        ) => Sums {
            width: u64::from(width),
            stretch: u64::from(stretch),
            shrink: u64::from(shrink),
            fills: 0,
        },
        Entry::Item(Item::Penalty(_)) => NO_SUMS,
        Entry::Fill => Sums {
            width: 0,
            stretch: 0,
            shrink: 0,
            fills: 1,
        },
    }
}

// The sums with those of one more.
fn with_sums(before: usize, total: &Sums, more: &Sums) -> Sums
    requires few { before < 65536 }
    requires total { AreSmall before total.now }
    requires more { AreSmall 1 more.now }
    ensures value { result ≡ plus_sums total.now more.now }
    ensures small { AreSmall (before + 1) result }
{
    Sums {
        width: total.width + more.width,
        stretch: total.stretch + more.stretch,
        shrink: total.shrink + more.shrink,
        fills: total.fills + more.fills,
    }
}

/// The sums between two places, from those before each.
pub(crate) fn between(start: &Sums, end: &Sums) -> Sums
    requires width { start.now.width ≤ end.now.width }
    requires stretch { start.now.stretch ≤ end.now.stretch }
    requires shrink { start.now.shrink ≤ end.now.shrink }
    requires fills { start.now.fills ≤ end.now.fills }
    ensures { plus_sums start.now result ≡ end.now }
{
    Sums {
        width: end.width - start.width,
        stretch: end.stretch - start.stretch,
        shrink: end.shrink - start.shrink,
        fills: end.fills - start.fills,
    }
}

/// The sums of what is before each place.
pub(crate) fn running_sums(alloc: Global, entries: &[Entry]) -> Result<Vec<Sums>, AllocError>
    requires { length entries.now ≤ 65536 }
    ensures { IfOk result (λ v. AreRunning entries.now v.items) }
{
    let mut sums = Vec::with_capacity(alloc, entries.len() + 1)?;
    let mut total = NO_SUMS;
    sums.push(total)?;
    for (k, entry) in entries.iter().enumerate() {
        total = with_sums(k, &total, &entry_sums(entry));
        sums.push(total)?;
    }
    Ok(sums)
}

// The first word from a place on, by what is there and the first word from the next place on.
fn start_at(entry: &Entry, place: usize, next: usize) -> usize
    ensures { result ≡ (if is_word entry.now then place else next) }
{
    if is_word(entry) { place } else { next }
}

/// The first word from each place on, or the list's end.
pub(crate) fn word_starts(alloc: Global, entries: &[Entry]) -> Result<Vec<usize>, AllocError>
    requires { length entries.now ≤ 65536 }
    ensures { IfOk result (λ v. AreFirstWords entries.now v.items) }
{
    let mut starts = vec![in alloc; entries.len(); entries.len() + 1]?;
    for k in (0..entries.len()).rev() {
        starts[k] = start_at(&entries[k], k, starts[k + 1]);
    }
    Ok(starts)
}

// No sums have more shrink.
const MAX_SHRINK: u64 = 281_474_976_710_656;

/// The width with all shrink taken off, in sp, plus 2^48, so that it is never below 0.
pub(crate) fn least_width(s: &Sums) -> u64
    requires width { s.now.width ≤ 281474976710656 }
    requires shrink { s.now.shrink ≤ 281474976710656 }
    ensures value { result ≡ least_width s.now }
    ensures high { result ≤ 562949953421312 }
{
    s.width + (MAX_SHRINK - s.shrink)
}

// The least of the widths before the legal breaks from a place on, by that from the next place on.
fn floor_at(legal: bool, width: u64, next: u64) -> u64
    ensures next { result ≤ next }
    ensures here { legal ≡ true → result ≤ width }
{
    if legal { width.min(next) } else { next }
}

/// The least of the widths before the legal breaks from each place on.
pub(crate) fn floors(
    alloc: Global,
    entries: &[Entry],
    sums: &[Sums],
) -> Result<Vec<u64>, AllocError>
    requires few { length entries.now ≤ 65536 }
    requires running { AreRunning entries.now sums.now }
    ensures { IfOk result (λ v. AreFloors entries.now v.items) }
{
    let mut floors = vec![in alloc; u64::MAX; entries.len() + 1]?;
    for k in (0..entries.len()).rev() {
        floors[k] = floor_at(is_legal(entries, k), least_width(&sums[k]), floors[k + 1]);
    }
    Ok(floors)
}
