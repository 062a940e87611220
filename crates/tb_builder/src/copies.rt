//! A copy of a builder.

ghost use Rattle.std.specs.Prelude.{◌≡◌, IfOk, OnOk};
ghost use Rattle.tb_pool.specs.Lists.{Lists as StoreOf};
ghost use Rattle.tb_node.specs.declared.Node.{Node as NodeOf};
ghost use Rattle.tb_builder.specs.Contents.{contents_of};
ghost use Rattle.tb_builder.specs.Courses.{IsSound};
ghost use Rattle.tb_builder.specs.Ownership.{ids_of};

use crate::Builder;
use std::alloc::{AllocError, Global};

impl Builder {
    /// A copy, whose lists have the same ids: it belongs to a copy of the store. It fails only if memory runs out.
    pub fn copy(&self, alloc: Global) -> Result<Builder, AllocError>
        ensures ids { IfOk result (λ copy. ids_of copy ≡ ids_of self.now) }
        ensures contents { IfOk result (λ copy. (s : StoreOf NodeOf) → contents_of copy s ≡ contents_of self.now s) }
        ensures sound { IfOk result (λ copy. (s : StoreOf NodeOf) → IsSound self.now s → IsSound copy s) }
    {
        Ok(Builder {
            boxes: self.boxes.copy(alloc)?,
            page: self.page,
            waiting: self.waiting,
            held: self.held,
            rest: self.rest,
            frozen: self.frozen,
            opened: self.opened,
            stopped: self.stopped,
            tried: self.tried,
            course: self.course,
        })
    }

    /// Becomes a copy of another builder in place, since a builder is too large to be moved for each copy. It fails only if
    /// memory runs out, and is not to be used then.
    pub fn copy_from(&mut self, other: &Builder, alloc: Global) -> Result<(), AllocError>
        ensures ids { OnOk result (ids_of self.new ≡ ids_of other.now) }
        ensures contents { OnOk result ((s : StoreOf NodeOf) → contents_of self.new s ≡ contents_of other.now s) }
        ensures sound { OnOk result ((s : StoreOf NodeOf) → IsSound other.now s → IsSound self.new s) }
    {
        self.boxes.copy_from(&other.boxes, alloc)?;
        self.page = other.page;
        self.waiting = other.waiting;
        self.held = other.held;
        self.rest = other.rest;
        self.frozen = other.frozen;
        self.opened = other.opened;
        self.stopped = other.stopped;
        self.tried = other.tried;
        let Some(_) = other.frozen else {
            // Nothing else of the course counts before the goal is frozen.
            self.course.lasting = other.course.lasting;
            return Ok(());
        };
        self.course = other.course;
        Ok(())
    }
}
