//! A routine that becomes a copy of another one.

ghost use Rattle.std.specs.Prelude.{◌≡◌, OnOk};
ghost use Rattle.tb_run.specs.Routine.{state_of, IsReady};

use std::alloc::{AllocError, Global};
use tb_run::Routine;

/// A routine becomes a copy of another one, part by part, since a routine is too large to be moved for each copy. It fails only
/// if memory runs out, and the routine is not to be used then.
pub(crate) fn copy_routine<'a>(
    alloc: Global,
    routine: &mut Routine<'a>,
    other: &Routine<'a>,
) -> Result<(), AllocError>
    requires { IsReady other.now }

    ensures ready { OnOk result (IsReady routine.new) }
    ensures state { OnOk result (state_of routine.new ≡ state_of other.now) }
    ensures machine { OnOk result (routine.new.machine ≡ other.now.machine) }
    ensures left { OnOk result (routine.new.left ≡ other.now.left) }
{
    routine.store.copy_from(&other.store)?;
    routine.builder.copy_from(&other.builder, alloc)?;
    routine.machine.copy_from(&other.machine)?;
    routine.most = other.most;
    routine.left = other.left;
    Ok(())
}
