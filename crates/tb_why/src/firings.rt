//! What is told of the firing of a page that the routine has filled.

ghost use Rattle.std.specs.Prelude.{◌≡◌, ◌≤◌, ◌+◌, IfOk};
ghost use Rattle.tb_float.specs.Pool.{HasNoMarks};
ghost use Rattle.tb_run.specs.FilledPages.{CanServe};
ghost use Rattle.tb_why.specs.ShownTurns.{pieces_in, seen_in};

use crate::{Seen, tell_firing};
use std::alloc::{AllocError, Global};
use tb_builder::Page;
use tb_output::Machine;
use tb_run::Routine;
use tb_told::{Piece, here_lines};

/// What is told of the firing of a page that was filled, before it is served; nothing, if the firing is not allowed. It fails
/// only if memory runs out.
pub(crate) fn told_pieces(
    alloc: Global,
    routine: &Routine<'_>,
    page: &Page,
) -> Result<Vec<Piece>, AllocError>
    requires { CanServe page.now routine.now }
    ensures { IfOk result (λ v. v.items ≡ pieces_in routine.now page.now) }
{
    let machine = &routine.machine;
    let mut pieces = Vec::new(alloc);
    if !machine.may_fire() {
        return Ok(pieces);
    }
    let reading = machine.reading(&routine.store, &routine.builder, page);
    let here = here_lines(alloc, &routine.store, page.body)?;
    let seen = seen_before(alloc, machine)?;
    tell_firing(
        &mut pieces,
        machine.params(),
        page.penalty,
        &reading,
        here.as_slice(),
        seen,
    )?;
    Ok(pieces)
}

// What is seen of the machine before it fires, with a copy of its floats. Fails only if memory runs out.
fn seen_before(alloc: Global, machine: &Machine) -> Result<Seen, AllocError>
    requires unmarked { HasNoMarks machine.now.pool }
    requires numbered { machine.now.number ≤ machine.now.page + 1000000 }
    ensures { IfOk result (λ v. v ≡ seen_in machine.now) }
{
    let standing = machine.standing();
    Ok(Seen {
        page: standing.page,
        number: standing.number,
        two_columns: standing.two_columns,
        first_column: standing.first_column,
        suppress: standing.suppress,
        note_bottom: standing.note_bottom,
        over: false,
        pool: machine.pool().copy(alloc)?,
    })
}
