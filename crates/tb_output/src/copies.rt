//! Copies of a machine.

ghost use Rattle.std.specs.Prelude.{◌≡◌, IfOk, OnOk};

use crate::Machine;
use crate::classes::copied;
use std::alloc::{AllocError, Global};

impl Machine {
    /// A copy, whose lists have the same ids: it belongs to a copy of the store. It fails only if memory runs out.
    pub fn copy(&self, alloc: Global) -> Result<Machine, AllocError>
        ensures { IfOk result (λ copy. copy ≡ self.now) }
    {
        let classes = copied(alloc, self.classes.as_slice())?;
        let events = self.events.copy()?;
        let pool = self.pool.copy(alloc)?;
        Ok(Machine {
            alloc,
            params: self.params,
            classes,
            goal: self.goal,
            page: self.page,
            number: self.number,
            dead_cycles: self.dead_cycles,
            held_page: self.held_page,
            held_room: self.held_room,
            note_bottom: self.note_bottom,
            suppress: self.suppress,
            shrink: self.shrink,
            two_columns: self.two_columns,
            first_column: self.first_column,
            left_column: self.left_column,
            pool,
            events,
            fault: self.fault,
        })
    }

    /// Becomes a copy of another machine in place, since a machine is too large to be moved for each copy, and in the memory
    /// that it has. It fails only if memory runs out, and is not to be used then.
    pub fn copy_from(&mut self, other: &Machine) -> Result<(), AllocError>
        ensures { OnOk result (self.new ≡ other.now) }
    {
        self.classes.copy_from(&other.classes)?;
        self.events.copy_from(&other.events)?;
        self.pool.copy_from(&other.pool)?;
        self.params = other.params;
        self.goal = other.goal;
        self.page = other.page;
        self.number = other.number;
        self.dead_cycles = other.dead_cycles;
        self.held_page = other.held_page;
        self.held_room = other.held_room;
        self.note_bottom = other.note_bottom;
        self.suppress = other.suppress;
        self.shrink = other.shrink;
        self.two_columns = other.two_columns;
        self.first_column = other.first_column;
        self.left_column = other.left_column;
        self.fault = other.fault;
        Ok(())
    }
}
