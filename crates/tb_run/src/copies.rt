//! A copy of a routine.

ghost use Rattle.std.specs.Prelude.{◌≡◌, IfOk};
ghost use Rattle.tb_run.specs.Routine.{state_of, IsReady};

use crate::Routine;
use std::alloc::{AllocError, Global};

impl<'a> Routine<'a> {
    /// A copy, over a store of its own in which all lists have the same ids: each goes on as if there were no other. It fails
    /// only if memory runs out.
    pub fn copy(&self, alloc: Global) -> Result<Routine<'a>, AllocError>
        requires { IsReady self.now }
        ensures ready { IfOk result IsReady }
        ensures state { IfOk result (λ copy. state_of copy ≡ state_of self.now) }
        ensures machine { IfOk result (λ copy. copy.machine ≡ self.now.machine) }
        ensures left { IfOk result (λ copy. copy.left ≡ self.now.left) }
    {
        let store = self.store.copy()?;
        let builder = self.builder.copy(alloc)?;
        let machine = self.machine.copy(alloc)?;
        Ok(Routine {
            store,
            builder,
            machine,
            most: self.most,
            left: self.left,
        })
    }
}
