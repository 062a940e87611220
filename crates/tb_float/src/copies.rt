//! A copy of a pool.
ghost use Rattle.std.specs.Prelude.{◌≡◌, IfOk, OnOk, OnErr};

use crate::Pool;
use crate::firsts::Firsts;
use std::alloc::{AllocError, Global};

impl Pool {
    /// A copy: the same floats and notes in the same lists, the same marks, room for as many boxes. It fails only if memory
    /// runs out.
    pub fn copy(&self, alloc: Global) -> Result<Pool, AllocError>
        ensures { IfOk result (λ copy. copy ≡ self.now) }
    {
        let firsts = Firsts::unknown(alloc)?;
        let store = self.store.copy()?;
        Ok(Pool {
            store,
            shelves: self.shelves,
            heights: self.heights,
            size: self.size,
            known: self.known,
            chosen: self.chosen,
            least: self.least,
            marks_from: self.marks_from,
            firsts,
        })
    }

    /// Becomes a copy of another pool in place, in the memory that it has. It fails only if memory runs out, and is as
    /// before then.
    pub fn copy_from(&mut self, other: &Pool) -> Result<(), AllocError>
        ensures ok { OnOk result (self.new ≡ other.now) }
        ensures err { OnErr result (self.new ≡ self.old) }
    {
        self.store.copy_from(&other.store)?;
        self.shelves = other.shelves;
        self.heights = other.heights;
        self.size = other.size;
        self.known = other.known;
        self.chosen = other.chosen;
        self.least = other.least;
        self.marks_from = other.marks_from;
        self.firsts.forget();
        Ok(())
    }
}
