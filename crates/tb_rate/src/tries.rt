//! The place at which a page broke, and the number of the page, among what happened while it was made.

ghost use Rattle.std.specs.Prelude.{◌≡◌};
ghost use Rattle.tb_pool.specs.Lists.{Lists};
ghost use Rattle.tb_node.specs.declared.Node.{Node};
ghost use Rattle.tb_items.specs.Happenings.{events_of};
ghost use Rattle.tb_rate.specs.Tries.{champion_after, last_champion, first_number, number_among, number_in};

use tb_builder::Try;
use tb_items::Happening;
use tb_sheet::Sent;

// The later of a place and what happened after it, if that is a place that was the best so far.
fn champion_after(best: Option<Try>, happening: &Happening) -> Option<Try>
    ensures { result ≡ champion_after best happening.now }
{
    match happening {
        Happening::Tried(tried) if tried.champion => Some(*tried),
        _ => best,
    }
}

/// The last place that was the best so far: there the page broke. None if no place was.
pub fn last_champion(happened: &[Happening]) -> Option<Try>
    ensures { (store : Lists Node) → result ≡ last_champion (events_of store happened.now) }
{
    let mut best = None;
    for happening in happened {
        best = champion_after(best, happening);
    }
    best
}

/// The number of the first page that was shipped, or the given one if none was.
pub fn first_number(happened: &[Happening], number: u64) -> u64
    ensures { (store : Lists Node) → result ≡ first_number number (events_of store happened.now) }
{
    number_among(happened, number)
}

fn number_among(happened: &[Happening], number: u64) -> u64
    ensures { result ≡ number_among number happened.now }
{
    for happening in happened {
        if let Some(page) = number_in(happening) {
            return page;
        }
    }
    number
}

// The number of the page, if one was shipped.
fn number_in(happening: &Happening) -> Option<u64>
    ensures { result ≡ number_in happening.now }
{
    let Happening::Sent(event) = happening else {
        return None;
    };
    match event.sent {
        Sent::Ship { page, sheet: _ } => Some(page),
        Sent::Warn(_) => None,
    }
}
