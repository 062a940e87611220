//! A routine and its copy go on alike.
ghost use Rattle.tb_galley.specs.Valid.{IsValid};
ghost use Rattle.tb_run.specs.Routine.{IsReady};

use super::*;
use std::alloc::AllocError;
use tb_galley::Galley;
use tb_generator::generate;
use tb_items::Happening;
use tb_output::Sent;
use tb_run::Routine;

fn is_page(happening: &Happening) -> bool {
    match happening {
        Happening::Sent(event) => matches!(event.sent, Sent::Ship { .. }),
        Happening::Tried(_) => false,
    }
}

// How many pages were sent.
fn pages_among(happened: &[Happening]) -> u64 {
    let mut pages = 0u64;
    for each in happened {
        if is_page(each) {
            pages = pages.wrapping_add(1);
        }
    }
    pages
}

// How many pages a routine ships up to its end, in a hundred turns at most.
fn pages_of(alloc: Global, routine: &mut Routine<'_>) -> Result<u64, AllocError>
    requires { IsReady routine.old }
{
    let mut happened = Vec::new(alloc);
    let mut pages = 0u64;
    for _turn in 0..100 {
        if routine.turn(false, &mut happened)?.is_some() {
            return Ok(pages);
        }
        pages = pages.wrapping_add(pages_among(&happened));
    }
    Ok(pages)
}

// The same of the routine of a galley after its first turn, and of a copy of it.
fn pages_of_both(alloc: Global, galley: &Galley) -> Result<(u64, u64), AllocError>
    requires { IsValid galley.now }
{
    let mut routine = Routine::new(alloc, galley)?;
    let mut happened = Vec::new(alloc);
    if routine.turn(false, &mut happened)?.is_some() {
        return Ok((0, 0));
    }
    let mut copy = routine.copy(alloc)?;
    let pages = pages_of(alloc, &mut routine)?;
    Ok((pages, pages_of(alloc, &mut copy)?))
}

#[test]
fn a_copy_goes_on_as_the_routine(rt: HostRuntime) -> Result<(), Fail> {
    let galley = generate(rt.alloc(), 400)?;
    let (own, copied) = pages_of_both(rt.alloc(), &galley)?;
    assert!(rt; own > 1);
    assert_eq!(rt; own, copied);
    Ok(())
}
