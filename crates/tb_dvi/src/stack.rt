//! The stack of a page's registers.

use crate::command::Registers;
use crate::runs::Runs;
use std::alloc::{AllocError, Global};
use std::marker::Model;

/// The registers that were pushed and not popped. A register takes room only if it differs from the one below it: a command
/// changes no more than three, so a stack takes room in proportion to the commands between its pushes.
#[derive(Drop)]
pub(crate) struct Stack {
    h: Runs,
    v: Runs,
    w: Runs,
    x: Runs,
    y: Runs,
    z: Runs,
}

impl Model for Stack {
    ghost use Rattle.std.specs.Prelude.{List};
    ghost use Rattle.tb_dvi.specs.declared.command.Registers.{Registers};
    ghost use Rattle.tb_dvi.specs.Runs.{levels};

    ghost Value = { List Registers };

    // The top comes first.
    ghost view = { λ s. levels s.h s.v s.w s.x s.y s.z };
}

impl Stack {
    ghost use Rattle.std.specs.Prelude.{◌≡◌, [], ◌∷◌, OnOk, MatchOption};
    ghost use Rattle.tb_dvi.specs.Machine.{is_empty};

    pub(crate) fn new(alloc: Global) -> Self
        ensures { result ≡ [] }
    {
        Stack {
            h: Runs::new(alloc),
            v: Runs::new(alloc),
            w: Runs::new(alloc),
            x: Runs::new(alloc),
            y: Runs::new(alloc),
            z: Runs::new(alloc),
        }
    }

    #[tactic(auto, using(crate::proofs::RunLemmas::no_level))]
    pub(crate) fn is_empty(&self) -> bool
        ensures { result ≡ is_empty self.now }
    {
        self.h.is_empty()
            || self.v.is_empty()
            || self.w.is_empty()
            || self.x.is_empty()
            || self.y.is_empty()
            || self.z.is_empty()
    }

    pub(crate) fn clear(&mut self)
        ensures { self.new ≡ [] }
    {
        self.h.clear();
        self.v.clear();
        self.w.clear();
        self.x.clear();
        self.y.clear();
        self.z.clear();
    }

    pub(crate) fn push(&mut self, registers: Registers) -> Result<(), AllocError>
        ensures { OnOk result (self.new ≡ registers ∷ self.old) }
    {
        self.h.push(registers.h)?;
        self.v.push(registers.v)?;
        self.w.push(registers.w)?;
        self.x.push(registers.x)?;
        self.y.push(registers.y)?;
        self.z.push(registers.z)
    }

    pub(crate) fn pop(&mut self) -> Option<Registers>
        ensures { MatchOption result (self.old ≡ []) (λ r. self.old ≡ r ∷ self.new) }
    {
        let h = self.h.pop()?;
        let v = self.v.pop()?;
        let w = self.w.pop()?;
        let x = self.x.pop()?;
        let y = self.y.pop()?;
        let z = self.z.pop()?;
        Some(Registers { h, v, w, x, y, z })
    }
}
