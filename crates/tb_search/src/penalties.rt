//! The penalties at the places of a galley, found by their lines.

ghost use Rattle.std.specs.Prelude.{◌≡◌, ◌≤◌, true, drop, length, IfOk};
ghost use Rattle.tb_rate.specs.Places.{own_penalty, place_penalties};
ghost use Rattle.tb_search.specs.Penalties.{ArePenaltiesOf, IsPenalties, RiseFrom, SayTheSame};

use std::alloc::{AllocError, Global};
use tb_galley::Item;
use tb_rate::{PlacePenalty, place_penalties};

/// The penalties at the places of a galley, in the order of its items.
#[derive(Drop)]
pub struct Penalties {
    pub(crate) places: Vec<PlacePenalty>,
    // Whether each line is past those before it.
    rise: bool,
}

// Whether each line is past those before it.
fn do_rise(places: &[PlacePenalty]) -> bool
    ensures { result ≡ true → RiseFrom 0 places.now }
{
    let mut least = 0;
    for place in places {
        let line = u64::from(place.line);
        if line < least {
            return false;
        }
        least = line + 1;
    }
    true
}

// The index of the first place on a line or past it, of places whose lines rise.
fn first_on(places: &[PlacePenalty], line: u32) -> usize
    requires { RiseFrom 0 places.now }
    ensures inside { result ≤ length places.now }
    ensures same { own_penalty (drop result places.now) line ≡ own_penalty places.now line }
{
    let mut first = 0;
    let mut last = places.len();
    'halves: while first < last {
        let middle = first + (last - first) / 2;
        if places[middle].line < line {
            first = middle + 1;
        } else {
            last = middle;
        }
    }
    first
}

impl Penalties {
    /// The penalties at the places of these items. It fails only if memory runs out.
    pub fn of_items(alloc: Global, items: &[Item]) -> Result<Self, AllocError>
        ensures { IfOk result (ArePenaltiesOf items.now) }
    {
        let places = place_penalties(alloc, items)?;
        let rise = do_rise(places.as_slice());
        Ok(Penalties { places, rise })
    }

    /// Those from this line on, if the lines rise; all otherwise. They say of the line what all say.
    pub(crate) fn from_line(&self, line: u32) -> &[PlacePenalty]
        requires { IsPenalties self.now }
        ensures { SayTheSame self.now line result.now }
    {
        let places = self.places.as_slice();
        if !self.rise {
            return places;
        }
        let first = first_on(places, line);
        &places[first..]
    }
}
