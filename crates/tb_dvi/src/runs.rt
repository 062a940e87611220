//! A stack of numbers. A number that repeats the one below it takes no more room.

use std::alloc::{AllocError, Global};
use std::marker::Model;

/// A number, and how many more of it are below.
#[derive(Clone, Copy)]
pub(crate) struct Run {
    pub number: i64,
    pub more: u64,
}

/// Numbers that were pushed and not popped, as runs of equal ones.
#[derive(Drop)]
pub(crate) struct Runs {
    /// The run that grows and shrinks, if there is one.
    top: Option<Run>,
    below: Vec<Run>,
}

impl Model for Runs {
    ghost use Rattle.std.specs.Prelude.{List, ℤ, reverse};
    ghost use Rattle.tb_dvi.specs.Runs.{numbers_from};

    ghost Value = { List ℤ };

    // The top comes first.
    ghost view = { λ s. numbers_from s.top (reverse s.below.items) };
}

impl Runs {
    ghost use Rattle.std.specs.Prelude.{◌≡◌, [], ◌∷◌, OnOk, MatchOption};
    ghost use Rattle.tb_dvi.specs.Runs.{are_none};

    pub(crate) fn new(alloc: Global) -> Self
        ensures { result ≡ [] }
    {
        Runs {
            top: None,
            below: Vec::new(alloc),
        }
    }

    #[tactic(auto, using(crate::proofs::RunLemmas::no_number))]
    pub(crate) fn is_empty(&self) -> bool
        ensures { result ≡ are_none self.now }
    {
        match self.top {
            Some(_) => false,
            None => self.below.is_empty(),
        }
    }

    pub(crate) fn clear(&mut self)
        ensures { self.new ≡ [] }
    {
        self.below.clear();
        self.top = None;
    }

    pub(crate) fn push(&mut self, number: i64) -> Result<(), AllocError>
        ensures { OnOk result (self.new ≡ number ∷ self.old) }
    {
        if let Some(top) = self.top {
            if top.number == number && top.more < u64::MAX {
                let more = top.more + 1;
                self.top = Some(Run { number, more });
                return Ok(());
            }
            self.below.push(top)?;
        }
        self.top = Some(Run { number, more: 0 });
        Ok(())
    }

    pub(crate) fn pop(&mut self) -> Option<i64>
        ensures { MatchOption result (self.old ≡ []) (λ n. self.old ≡ n ∷ self.new) }
    {
        let Run { number, more } = match self.top {
            Some(top) => top,
            None => self.below.pop()?,
        };
        self.top = if more > 0 {
            let more = more - 1;
            Some(Run { number, more })
        } else {
            None
        };
        Some(number)
    }
}
