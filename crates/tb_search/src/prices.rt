//! What the places of a page tell that were tried while it was filled: what its column costs at least if a break is put in there.

ghost use Rattle.std.specs.Prelude.{◌≡◌, ◌++◌, true, IfOk, OnOk};
ghost use Rattle.std.specs.List.{AllByRecursion};
ghost use Rattle.tb_rate.specs.Rating.{IsTried};
ghost use Rattle.tb_best.specs.PlacePrices.{forced_try, price};
ghost use Rattle.tb_search.specs.Penalties.{IsPenalties};
ghost use Rattle.tb_search.specs.Prices.{price_in, prices_among, IsPriceAbove};
ghost use Rattle.tb_search.specs.Told.{IsDearIn};

use crate::penalties::Penalties;
use std::alloc::{AllocError, Global};
use tb_builder::Try;
use tb_items::Happening;
use tb_param::Params;
use tb_rate::rate;
use tb_scaled::EJECT_PENALTY;

/// A place that was tried: what a column costs at least that is broken there by force.
#[derive(Clone, Copy)]
pub(crate) struct Priced {
    /// The line of the place.
    pub(crate) line: u32,
    /// The demerits.
    pub(crate) demerits: i128,
}

// The place as it is tried if its break is forced.
fn forced_try(t: &Try) -> Try
    ensures { result ≡ forced_try t.now }
{
    let mut forced = *t;
    forced.penalty = EJECT_PENALTY;
    forced.cost = EJECT_PENALTY;
    forced
}

// The demerits of a column that ends there by force, if nothing is left over.
fn price(params: &Params, places: &Penalties, t: &Try) -> i128
    requires tried { IsTried (forced_try t.now) }
    requires fit { IsPenalties places.now }

    ensures { result ≡ price params.now places.now.places.items t.now }
{
    let there = places.from_line(t.line);
    match rate(params, there, 0, Some(forced_try(t)), 0, 0) {
        Some(rating) => rating.demerits,
        None => 0,
    }
}

// Appends the price of a place, if one was tried.
fn put_price(
    prices: &mut Vec<Priced>,
    params: &Params,
    places: &Penalties,
    happening: &Happening,
) -> Result<(), AllocError>
    requires dear { IsDearIn happening.now }
    requires fit { IsPenalties places.now }

    ensures { OnOk result (prices.new.items ≡ prices.old.items ++ price_in params.now places.now.places.items happening.now) }
{
    let Happening::Tried(t) = happening else {
        return Ok(());
    };
    prices.push(Priced {
        line: t.line,
        demerits: price(params, places, t),
    })?;
    Ok(())
}

/// The prices of the places that were tried. It fails only if memory runs out.
pub(crate) fn prices_of(
    alloc: Global,
    params: &Params,
    places: &Penalties,
    happened: &[Happening],
) -> Result<Vec<Priced>, AllocError>
    requires dear { AllByRecursion IsDearIn happened.now }
    requires fit { IsPenalties places.now }

    ensures { IfOk result (λ v. v.items ≡ prices_among params.now places.now.places.items happened.now) }
{
    let mut prices = Vec::new(alloc);
    for happening in happened {
        put_price(&mut prices, params, places, happening)?;
    }
    Ok(prices)
}

// Whether this is no place on a line, or its price is above this.
fn is_above(price: &Priced, line: u32, most: i128) -> bool
    ensures { result ≡ true → IsPriceAbove line most price.now }
{
    price.line != line || price.demerits > most
}

/// Whether each of these places on a line has a price above this.
pub(crate) fn are_above(prices: &[Priced], line: u32, most: i128) -> bool
    ensures { result ≡ true → AllByRecursion (IsPriceAbove line most) prices.now }
{
    for price in prices {
        if !is_above(price, line, most) {
            return false;
        }
    }
    true
}

// Whether this is no place that costs less than a forced break. No badness is below 0.
fn is_dear(happening: &Happening) -> bool
    ensures { result ≡ true → IsDearIn happening.now }
{
    let Happening::Tried(t) = happening else {
        return true;
    };
    t.cost >= EJECT_PENALTY && t.badness >= 0
}

/// Whether no place that was tried costs less than a forced break.
pub(crate) fn are_dear(happened: &[Happening]) -> bool
    ensures { result ≡ true → AllByRecursion IsDearIn happened.now }
{
    for happening in happened {
        if !is_dear(happening) {
            return false;
        }
    }
    true
}
