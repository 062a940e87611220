//! Worked firings. All amounts are in scaled points.

mod given;
mod rows;
mod scene;
mod steps;
mod telling;

use given::{params, params_with};
use rows::{
    ACTS, CLEARS, COLUMNS, CROWDED, DEAD_CYCLES, DEFERRED, FLOATS, LIMIT, NOTES, PAGES, WIDE_2014,
    WIDE_2015,
};
use std::test::Fail;
use steps::{after_firings, run, run_in_copies};
use tb_node::HOLD_PENALTY;
use tb_param::{Choice, Value};
use tb_scaled::EJECT_PENALTY;

#[test]
fn pages_and_floats(rt: HostRuntime) -> Result<(), Fail> {
    for rows in [PAGES, FLOATS, DEFERRED, CLEARS, CROWDED, ACTS] {
        run(&rt, rt.alloc(), &params()?, rows)?;
    }
    Ok(())
}

#[test]
fn columns_and_notes(rt: HostRuntime) -> Result<(), Fail> {
    for rows in [COLUMNS, NOTES, WIDE_2015] {
        run(&rt, rt.alloc(), &params()?, rows)?;
    }
    let p = params_with("release", Value::Word(Choice::R2014))?;
    run(&rt, rt.alloc(), &p, WIDE_2014)
}

// A firing that is refused for its dead cycles changes nothing; each later firing is refused with the same fault.
#[test]
fn refusals(rt: HostRuntime) -> Result<(), Fail> {
    let p = params_with("maxdeadcycles", Value::Int(2))?;
    run(&rt, rt.alloc(), &p, DEAD_CYCLES)?;
    let p = params_with("maxpages", Value::Int(1))?;
    run(&rt, rt.alloc(), &p, LIMIT)
}

// A machine that becomes a copy of another one goes on as that one does, at each step.
#[test]
fn machines_become_copies(rt: HostRuntime) -> Result<(), Fail> {
    for rows in [
        PAGES, FLOATS, DEFERRED, CLEARS, CROWDED, ACTS, COLUMNS, NOTES, WIDE_2015,
    ] {
        run_in_copies(&rt, rt.alloc(), &params()?, rows)?;
    }
    let p = params_with("maxdeadcycles", Value::Int(2))?;
    run_in_copies(&rt, rt.alloc(), &p, DEAD_CYCLES)
}

const PAGE: i64 = EJECT_PENALTY;

const HELD: i64 = HOLD_PENALTY;

// The counts of a machine after some firings against those after others: the pages, the firings since, and, if notes may change
// sides, whether the next page is odd.
#[test]
fn counts_of_machines(rt: HostRuntime) -> Result<(), Fail> {
    let rows: [(&[i64], &[i64], bool, bool); 9] = [
        (&[], &[], false, true),
        (&[], &[PAGE], false, true),
        (&[PAGE], &[], false, false),
        (&[], &[HELD], false, true),
        (&[HELD], &[], false, false),
        (&[HELD], &[PAGE], false, false),
        (&[HELD], &[HELD], true, true),
        (&[], &[PAGE], true, false),
        (&[], &[PAGE, PAGE], true, true),
    ];
    let p = params()?;
    for (k, (one, other, may_alternate, want)) in rows.iter().enumerate() {
        let mine = after_firings(rt.alloc(), &p, one)?;
        let others = after_firings(rt.alloc(), &p, other)?;
        assert_eq!(rt;
            mine.counts_within(&others, *may_alternate),
            *want,
            "in row {k}"
        );
    }
    Ok(())
}
