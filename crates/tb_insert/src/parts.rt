//! What becomes of an insertion: it goes whole, is split, or is late.

ghost use Rattle.std.specs.Prelude.{◌≡◌, ◌^◌, ℕ, List, Some, None, Option, nat_lt, if◌then◌else◌};
ghost use Rattle.tb_pool.specs.Lists.{list_at, IsLive};
ghost use Rattle.tb_node.specs.declared.Node.{Node as NodeOf};
ghost use Rattle.tb_node.specs.SmallAmounts.{IsAmount, IsSmall};
ghost use Rattle.tb_node.specs.PlainNodes.{inserted_of};
ghost use Rattle.tb_insert.specs.Account.{label_where, taken_by, penalty_of, is_split};
ghost use Rattle.tb_insert.specs.AccountEntries.{boxed, label_by, is_let_in, or_else, cut_there, split_before_end};
ghost use Rattle.tb_insert.specs.Arrival.{label_part, InnerFits};
ghost use Rattle.tb_insert.specs.WideAmounts.{IsWithin};

use crate::rooms::{goes_whole, left_of, page_room, scaled, split_height};
use crate::{Class, Part};
use tb_break::find;
use tb_node::{Insertion, Node, Sums};
use tb_pool::Lists;

// What becomes of an insertion of a class that is not split, on a page with these sums.
fn label_of(
    store: &Lists<Node>,
    i: &Insertion,
    class: &Class,
    goal: i128,
    height: i64,
    s: &Sums,
) -> Part
    requires inner { InnerFits store.now i.now }
    requires factor { IsAmount class.now.factor }
    requires goal { IsWithin (2 ^ 115) goal }
    requires sums { IsSmall s.now }
    ensures { label_part result ≡ label_where (boxed class.now height) goal height s.now s.now.shrink (inserted_of (list_at store.now) i.now) }
{
    let room = page_room(goal, s);
    let charge = scaled(class.factor, i.height);
    if goes_whole(charge, room, s.shrink, height, i.height, class.limit) {
        return Part::Whole;
    }
    let wanted = split_height(class.factor, room, left_of(class.limit, height));
    Part::Split(find(store, i.list, wanted, i.split_depth))
}

/// What becomes of an insertion on its page, by the entry of its class.
pub(crate) fn label_by(
    store: &Lists<Node>,
    i: &Insertion,
    class: &Class,
    goal: i128,
    height: i64,
    s: &Sums,
    split: bool,
) -> Part
    requires inner { InnerFits store.now i.now }
    requires factor { IsAmount class.now.factor }
    requires goal { IsWithin (2 ^ 115) goal }
    requires sums { IsSmall s.now }
    ensures { label_part result ≡ label_by split class.now goal height s.now (inserted_of (list_at store.now) i.now) }
{
    if split {
        return Part::Late;
    }
    label_of(store, i, class, goal, height, s)
}

/// What an insertion takes of its class.
pub(crate) fn taken(part: &Part, i: &Insertion) -> i64
    ensures { (held : ℕ → List NodeOf) → result ≡ taken_by (label_part part.now) (inserted_of held i.now) }
{
    match part {
        Part::Whole => i.height,
        Part::Split(found) => found.size,
        Part::Late => 0,
    }
}

/// What it adds to the penalties.
pub(crate) fn part_penalty(part: &Part, i: &Insertion) -> i64
    ensures { (held : ℕ → List NodeOf) → result ≡ penalty_of (label_part part.now) (inserted_of held i.now) }
{
    match part {
        Part::Whole => 0,
        Part::Split(found) => found.penalty,
        Part::Late => i.floating,
    }
}

/// Whether the insertion is split.
pub(crate) fn part_splits(part: &Part) -> bool
    ensures { result ≡ is_split (label_part part.now) }
{
    match part {
        Part::Whole => false,
        Part::Split(_) => true,
        Part::Late => false,
    }
}

/// The last insertion of its class that is let in.
pub(crate) fn last_of(part: &Part, index: usize, last: Option<usize>) -> Option<usize>
    ensures { result ≡ (if is_let_in (label_part part.now) then Some index else last) }
{
    match part {
        Part::Whole => Some(index),
        Part::Split(_) => Some(index),
        Part::Late => last,
    }
}

// The place at which it is split, if that is before its list's end.
fn break_of(part: &Part, store: &Lists<Node>, i: &Insertion) -> Option<usize>
    requires { IsLive store.now i.now.list }
    ensures { result ≡ split_before_end (label_part part.now) (inserted_of (list_at store.now) i.now) }
{
    match part {
        Part::Whole => None,
        Part::Split(found) => some_below(found.index, store.len(i.list)),
        Part::Late => None,
    }
}

fn some_below(k: usize, count: usize) -> Option<usize>
    ensures { result ≡ (if nat_lt k count then Some k else None) }
{
    if k < count { Some(k) } else { None }
}

/// The split insertion of its class with the place of its break, if that is before its end.
pub(crate) fn cut_of(
    part: &Part,
    store: &Lists<Node>,
    i: &Insertion,
    index: usize,
    cut: Option<(usize, usize)>,
) -> Option<(usize, usize)>
    requires { IsLive store.now i.now.list }
    ensures { result ≡ or_else cut (cut_there index (split_before_end (label_part part.now) (inserted_of (list_at store.now) i.now))) }
{
    if cut.is_some() {
        return cut;
    }
    match break_of(part, store, i) {
        Some(place) => Some((index, place)),
        None => None,
    }
}
