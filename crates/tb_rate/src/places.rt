//! The places of a galley at which a break may be put in and that have a penalty of their own.

ghost use Rattle.std.specs.Prelude.{◌≡◌, ◌++◌, ◌<ℤ◌, ◌≤ℤ◌, pos, negsuc, All, IfOk, OnOk};
ghost use Rattle.std.specs.List.{AllByRecursion};
ghost use Rattle.tb_galley.specs.GalleyNodes.{break_strength};
ghost use Rattle.tb_rate.specs.Places.{item_penalty, is_mild, place_by, places_among, place_penalties, own_penalty, IsMildPlace};

use crate::PlacePenalty;
use std::alloc::{AllocError, Global};
use tb_galley::{Item, ItemKind};
use tb_scaled::{EJECT_PENALTY, INF_PENALTY};

// The penalty of a strength from 0 to 4 (LaTeX, \@getpen).
fn break_strength(strength: u8) -> i64
    ensures value { result ≡ break_strength strength }
    ensures low { pos 0 ≤ℤ result }
    ensures high { result ≤ℤ pos 10000 }
{
    match strength {
        0 => 0,
        1 => 51,
        2 => 151,
        3 => 301,
        _ => INF_PENALTY,
    }
}

// The penalty that an item is.
fn item_penalty(kind: &ItemKind) -> Option<i64>
    ensures { result ≡ item_penalty kind.now }
{
    match kind {
        ItemKind::Penalty(penalty) => Some(*penalty),
        ItemKind::PageBreak(strength) => Some(-break_strength(*strength)),
        ItemKind::NoPageBreak(strength) => Some(break_strength(*strength)),
        _ => None,
    }
}

// Whether a penalty neither forces a break nor forbids one.
fn is_mild(penalty: i64) -> bool
    ensures { result ≡ is_mild penalty }
{
    EJECT_PENALTY < penalty && penalty < INF_PENALTY
}

// Appends the place of an item, if it is a penalty that allows a break.
fn put_place(places: &mut Vec<PlacePenalty>, item: &Item) -> Result<(), AllocError>
    ensures { OnOk result (places.new.items ≡ places.old.items ++ place_by item.now.line (item_penalty item.now.kind)) }
{
    let Some(penalty) = item_penalty(&item.kind) else {
        return Ok(());
    };
    if is_mild(penalty) {
        places.push(PlacePenalty {
            line: item.line,
            penalty,
        })?;
    }
    Ok(())
}

fn places_among(alloc: Global, items: &[Item]) -> Result<Vec<PlacePenalty>, AllocError>
    ensures { IfOk result (λ places. places.items ≡ places_among items.now) }
{
    let mut places = Vec::new(alloc);
    for item in items {
        put_place(&mut places, item)?;
    }
    Ok(places)
}

/// The penalties of a galley's items at which a break may be put in, in order. Before the first item there is no such place.
///
/// It fails only if memory runs out.
pub fn place_penalties(alloc: Global, items: &[Item]) -> Result<Vec<PlacePenalty>, AllocError>
    ensures places { IfOk result (λ places. places.items ≡ place_penalties items.now) }
    ensures mild { AllByRecursion IsMildPlace (place_penalties items.now) }
{
    match items {
        [] => Ok(Vec::new(alloc)),
        [_, rest @ ..] => places_among(alloc, rest),
    }
}

// The penalty of the place on a line, or 0 if none is there.
pub(crate) fn own_penalty(places: &[PlacePenalty], line: u32) -> i64
    requires mild { AllByRecursion IsMildPlace places.now }
    ensures value { result ≡ own_penalty places.now line }
    ensures low { negsuc 9999 <ℤ result }
    ensures high { result <ℤ pos 10000 }
{
    for place in places {
        if place.line == line {
            return place.penalty;
        }
    }
    0
}
