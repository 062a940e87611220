//! The classes of insertions that a machine serves.

ghost use Rattle.std.specs.Prelude.{◌≡◌, IfOk, OnOk};

use std::alloc::{AllocError, Global};
use std::marker::Model;
use tb_insert::Class;

/// Classes of insertions, by rising number. In contracts they are the list of each [`Class`].
#[derive(Drop)]
pub(crate) struct Classes {
    pub(crate) items: Vec<Class>,
}

impl Model for Classes {
    ghost use Rattle.std.specs.Prelude.{List};
    ghost use Rattle.tb_insert.specs.declared.Class.{Class};

    ghost Value = { List Class };

    ghost view = { λ a. a.items.items };
}

impl Classes {
    /// The classes, by rising number.
    pub(crate) fn as_slice(&self) -> &[Class]
        ensures { result.now ≡ self.now }
    {
        &self.items
    }

    /// Becomes a copy of other classes in place. It fails only if memory runs out.
    pub(crate) fn copy_from(&mut self, other: &Classes) -> Result<(), AllocError>
        ensures { OnOk result (self.new ≡ other.now) }
    {
        self.items.clear();
        self.items.extend_from_slice(&other.items)
    }
}

/// A copy of these classes.
pub(crate) fn copied(alloc: Global, classes: &[Class]) -> Result<Classes, AllocError>
    ensures { IfOk result (λ a. a ≡ classes.now) }
{
    Ok(Classes {
        items: classes.to_vec(alloc)?,
    })
}
