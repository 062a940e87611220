//! What happens while a page is made.

ghost use Rattle.std.specs.Prelude.{◌≡◌, ◌++◌, ◌∷◌, [], MatchResult};
ghost use Rattle.tb_items.specs.Happenings.{noted_try};

use std::alloc::AllocError;
use std::marker::Model;
use tb_builder::Try;
use tb_sheet::Sent;

/// What the output routine sent. It is a type of this crate, since the checker does not find the modules of what a [`Sent`]
/// holds when it fills in a type parameter. In contracts it is that [`Sent`].
#[derive(Clone, Copy)]
pub struct Event {
    /// What was sent.
    pub sent: Sent,
}

impl Model for Event {
    ghost use Rattle.tb_sheet.specs.declared.Sent.{Sent};

    ghost Value = { Sent };

    ghost view = { λ e. e.sent };

    ghost inverse = { λ s. record { sent = s } };
}

/// A place that was tried, or what the output routine sent.
#[derive(Clone, Copy)]
pub enum Happening {
    /// A legal place was tried.
    Tried(Try),
    /// The output routine sent a warning or a page.
    Sent(Event),
}

/// Appends a place that was tried, if `wanted` is set. It fails only if memory runs out; nothing is appended then.
pub fn note_try(happened: &mut Vec<Happening>, wanted: bool, tried: Try) -> Result<(), AllocError>
    ensures { MatchResult result (λ _. happened.new.items ≡ happened.old.items ++ noted_try wanted tried) (λ _. happened.new.items ≡ happened.old.items) }
{
    if wanted {
        happened.push(Happening::Tried(tried))?;
    }
    Ok(())
}

/// Appends what the output routine sent. It fails only if memory runs out; nothing is appended then.
pub fn note_sent(happened: &mut Vec<Happening>, sent: Sent) -> Result<(), AllocError>
    ensures { MatchResult result (λ _. happened.new.items ≡ happened.old.items ++ Happening.Sent sent ∷ []) (λ _. happened.new.items ≡ happened.old.items) }
{
    happened.push(Happening::Sent(Event { sent }))?;
    Ok(())
}
