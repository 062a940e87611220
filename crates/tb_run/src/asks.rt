//! What the page builder is asked while a page is filled.

ghost use Rattle.std.specs.Prelude.{◌≡◌, [], if◌then◌else◌, is_some, IfOk, List};
ghost use Rattle.tb_node.specs.PlainNodes.{PlainNode};
ghost use Rattle.tb_builder.specs.Courses.{IsSound};
ghost use Rattle.tb_builder.specs.FiredPages.{Boxed};
ghost use Rattle.tb_builder.specs.PageEvents.{NextFits};
ghost use Rattle.tb_output.specs.State.{ask_of};
ghost use Rattle.tb_output.specs.Machine.{state_shown};
ghost use Rattle.tb_run.specs.Routine.{built_in};
ghost use Rattle.tb_run.specs.RoutinePages.{HasComeTo};

use crate::Routine;
use std::alloc::AllocError;
use tb_builder::{Ask, Event};

impl Routine<'_> {
    // The next event of the builder. Places that were tried are passed over unless `wanted` is set.
    pub(crate) fn next_event(&mut self, wanted: bool, ask: &Ask) -> Result<Event, AllocError>
        requires sound { IsSound self.old.builder self.old.store }
        requires fits { NextFits (built_in self.old) ask.now }
        requires none_held { (built_in self.old).held ≡ [] }
        ensures { IfOk result (λ e. HasComeTo wanted e ask.now self.old self.new) }
    {
        if wanted {
            return self.builder.next(&mut self.store, ask);
        }
        self.builder.next_without_tries(&mut self.store, ask)
    }

    // Asks what the page is made for, after an act. If the goal of the page is frozen, it stays.
    pub(crate) fn ask_again(&self, ask: &mut Ask)
        ensures { (boxes : List Boxed) (waiting : List PlainNode) → ask.new ≡ (if is_some self.now.builder.frozen then ask.old else ask_of self.now.machine.params (state_shown self.now.store boxes waiting self.now.machine)) }
    {
        if !self.builder.is_frozen() {
            *ask = self.machine.ask();
        }
    }
}
