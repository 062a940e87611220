//! Where a list is split (TeX: The Program §970 to §977).

ghost use Rattle.std.specs.Prelude.{◌≡◌, ◌≢◌, ◌≤◌, ◌+ℤ◌, ◌<ℤ◌, ◌≤ℤ◌, pos, [], length, map, take, drop, IfSome, if◌then◌else◌};
ghost use Rattle.std.specs.FinMap.{insert};
ghost use Rattle.tb_pool.specs.Lists.{IsLive, list_at, with_list};
ghost use Rattle.tb_node.specs.PlainNodes.{shape_of};
ghost use Rattle.tb_node.specs.SmallAmounts.{IsAmount};
ghost use Rattle.tb_break.specs.Places.{begins_with_glue};
ghost use Rattle.tb_break.specs.SplitPlace.{shapes, NodesFit, SumsFit, scan_after, found_after, stops_after};
ghost use Rattle.tb_break.specs.Split.{split_of};
ghost use Rattle.tb_break.specs.LastLeast.{IsLastLeast};

use crate::places::kind_of;
use crate::{Found, PlaceKind, Scan, is_glue, is_lasting, new_scan, place_penalty};
use tb_node::{Node, Sums};
use tb_pool::{Iter, ListId, Lists};
use tb_scaled::EJECT_PENALTY;

/// Where a list is split to a height under a depth limit, both in sp: the last place of least cost, up to the first
/// place at which the list is overfull or the break is forced. The list's end forces it. The list is walked once.
pub fn find(store: &Lists<Node>, l: ListId, height: i64, max_depth: i64) -> Found
    requires live { IsLive store.now l }
    requires height { IsAmount height }
    requires low { pos 0 ≤ℤ max_depth }
    requires limit { IsAmount max_depth }
    requires nodes { NodesFit (shapes store.now l) }
    requires sums { SumsFit max_depth (shapes store.now l) }
    ensures { result ≡ split_of height max_depth (shapes store.now l) }
{
    let len = store.len(l);
    let mut scan = new_scan(max_depth);
    let mut best = Found {
        index: 0,
        kind: PlaceKind::Last,
        penalty: 0,
        size: 0,
        cost: 0,
    };
    let mut index = 0;
    let mut lasting = false;
    let mut ahead = store.iter(l);
    takes_glue(&mut ahead);
    for n in store.iter(l) {
        let glue_next = takes_glue(&mut ahead);
        let place = place_penalty(n, lasting, glue_next);
        if visit(&mut scan, &mut best, index, height, kind_of(n), place) {
            return best;
        }
        scan.add(n);
        index += 1;
        lasting = is_lasting(n);
    }
    visit(
        &mut scan,
        &mut best,
        len,
        height,
        PlaceKind::Last,
        Some(EJECT_PENALTY),
    );
    best
}

/// Splits a list at the place that `find` returns: the nodes before it stay, and the rest, which begins with the node
/// at which the list breaks, goes to another list, which is empty before. Amounts are in sp.
pub fn split(store: &mut Lists<Node>, l: ListId, height: i64, max_depth: i64, rest: ListId) -> Found
    requires live { IsLive store.old l }
    requires rest_live { IsLive store.old rest }
    requires apart { l ≢ rest }
    requires rest_empty { list_at store.old rest ≡ [] }
    requires height { IsAmount height }
    requires low { pos 0 ≤ℤ max_depth }
    requires limit { IsAmount max_depth }
    requires nodes { NodesFit (shapes store.old l) }
    requires sums { SumsFit max_depth (shapes store.old l) }
    ensures found { result ≡ split_of height max_depth (shapes store.old l) }
    ensures last_least { IsLastLeast height max_depth (shapes store.old l) result }
    ensures within { result.index ≤ length (list_at store.old l) }
    ensures parted { store.new.lists ≡ insert (with_list store.old l (take result.index (list_at store.old l))) rest (drop result.index (list_at store.old l)) }
    ensures spare { store.new.spare ≡ store.old.spare }
{
    let found = find(store, l, height, max_depth);
    store.cut(l, found.index, rest);
    found
}

// Whether the next node is glue.
fn takes_glue(ahead: &mut Iter<'_, Node>) -> bool
    ensures glue { result ≡ begins_with_glue (map shape_of ahead.old) }
    ensures rest { ahead.new ≡ drop 1 ahead.old }
{
    match ahead.next() {
        Some(n) => is_glue(n),
        None => false,
    }
}

// Offers the place after what the scan has, if it is legal. Returns whether the search stops there.
fn visit(
    scan: &mut Scan,
    best: &mut Found,
    index: usize,
    height: i64,
    kind: PlaceKind,
    place: Option<i64>,
) -> bool
    requires height { IsAmount height }
    requires place { IfSome place (λ p. IsAmount p × (p <ℤ pos 10000)) }
    ensures scan { scan.new ≡ scan_after scan.old index height place }
    ensures best { best.new ≡ found_after scan.old best.old index height kind place }
    ensures stop { result ≡ stops_after scan.old index height place }
{
    let Some(penalty) = place else {
        return false;
    };
    let sums = scan.sums();
    let offer = scan.offer(index, penalty, height, 0);
    *best = found_if(
        offer.champion,
        make_found(index, kind, penalty, height_and_depth(&sums), offer.cost),
        *best,
    );
    offer.stop
}

// The later place if it is a champion, else the earlier.
fn found_if(champion: bool, later: Found, earlier: Found) -> Found
    ensures { result ≡ (if champion then later else earlier) }
{
    if champion { later } else { earlier }
}

// The total and the depth.
fn height_and_depth(sums: &Sums) -> i64
    requires total { IsAmount sums.now.total }
    requires depth { IsAmount sums.now.depth }
    ensures { result ≡ sums.now.total +ℤ sums.now.depth }
{
    sums.total + sums.depth
}

fn make_found(index: usize, kind: PlaceKind, penalty: i64, size: i64, cost: i64) -> Found
    ensures { result ≡ record { index = index; kind = kind; penalty = penalty; size = size; cost = cost } }
{
    Found {
        index,
        kind,
        penalty,
        size,
        cost,
    }
}
