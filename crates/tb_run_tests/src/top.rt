// Whole runs over ends in memory.
mod copies;
mod float_places;
mod generated;
mod pages;

use std::alloc::Global;
use std::process::Abort;
use std::test::Fail;
use tb_worked_rows::{
    BEST_ROWS, COLUMN_END_ROWS, COLUMN_ROWS, ENLARGE_ROWS, FLOAT_ROWS, HEADING_ROWS, INPUT,
    MODE_ROWS, ModeRow, NONE, PAGE_NUMBER_ROWS, RATE_ROWS, REPORT, ROWS, Row, SET_ROWS, TITLE_ROWS,
    VERSION_ROWS, WHY_ROWS, long_galley, long_report, run_by, run_on, run_with, words_of,
};

// Runs each row on an input that is read by pieces of this size, and says where it differs.
fn check(rt: &impl Abort, alloc: Global, rows: &[Row], piece: usize) -> Result<(), Fail> {
    for row in rows {
        let name = row.name;
        let left = run_by(alloc, &[], row.input, piece, &NONE)?;
        assert_eq!(rt; left.status, row.status, "{name}");
        assert_eq!(rt; left.out.held(), row.out, "{name}");
        assert_eq!(rt; left.err.held(), row.err, "{name}");
    }
    Ok(())
}

#[test]
fn rows_give_what_they_say(rt: HostRuntime) -> Result<(), Fail> {
    check(&rt, rt.alloc(), &ROWS, 50)?;
    check(&rt, rt.alloc(), &FLOAT_ROWS, 50)?;
    check(&rt, rt.alloc(), &COLUMN_ROWS, 50)?;
    check(&rt, rt.alloc(), &VERSION_ROWS, 50)
}

#[test]
fn rows_of_version_3_give_what_they_say(rt: HostRuntime) -> Result<(), Fail> {
    check(&rt, rt.alloc(), &COLUMN_END_ROWS, 50)?;
    check(&rt, rt.alloc(), &PAGE_NUMBER_ROWS, 50)?;
    check(&rt, rt.alloc(), &TITLE_ROWS, 50)
}

#[test]
fn higher_pages_give_what_they_say(rt: HostRuntime) -> Result<(), Fail> {
    check(&rt, rt.alloc(), &ENLARGE_ROWS, 50)
}

#[test]
fn parameters_set_among_the_items_give_what_they_say(rt: HostRuntime) -> Result<(), Fail> {
    check(&rt, rt.alloc(), &SET_ROWS, 50)
}

#[test]
fn long_page_is_built_again_at_each_float(rt: HostRuntime) -> Result<(), Fail> {
    let alloc = rt.alloc();
    let left = run_on(alloc, &long_galley(alloc)?, &NONE)?;
    assert_eq!(rt; left.status, 0);
    assert!(rt; left.out.held() == long_report(alloc)?.as_slice());
    Ok(())
}

// A penalty is tried in each pass that comes to it: its cost is -9899 while the goal is 100, and -9942 in the pass in which
// a float at the bottom has left a goal of 90.
#[test]
fn penalty_costs_by_the_goal(rt: HostRuntime) -> Result<(), Fail> {
    let alloc = rt.alloc();
    let row = &FLOAT_ROWS[4];
    assert_eq!(rt; row.name, "carried past a later float");
    let words = vec![in alloc;
        String::from_str(alloc, "galley_pages")?,
        String::from_str(alloc, "--mode=trace")?,
    ]?;
    let left = run_with(alloc, &words, row.input, &NONE)?;
    let trace = String::from_utf8(left.out.held().to_vec(alloc)?)?;
    for wanted in [
        "try 18 t 40 s 60 0 0 0 z 0 g 100 b 100 p -9999 c -9899 #",
        "try 18 t 40 s 60 0 0 0 z 0 g 90 b 57 p -9999 c -9942 #",
    ] {
        assert!(rt; trace.lines().any(|line| line == wanted), "{wanted}");
    }
    Ok(())
}

// Runs each row with its words, and says where it differs.
fn check_modes(rt: &impl Abort, alloc: Global, rows: &[ModeRow]) -> Result<(), Fail> {
    for row in rows {
        let name = row.name;
        let left = run_with(alloc, &words_of(alloc, row)?, row.input, &NONE)?;
        assert_eq!(rt; left.status, row.status, "{name}");
        assert_eq!(rt; left.out.held(), row.out, "{name}");
        assert_eq!(rt; left.err.held(), row.err, "{name}");
    }
    Ok(())
}

#[test]
fn modes_give_what_they_say(rt: HostRuntime) -> Result<(), Fail> {
    check_modes(&rt, rt.alloc(), &MODE_ROWS)
}

#[test]
fn no_page_ends_below_a_heading(rt: HostRuntime) -> Result<(), Fail> {
    check_modes(&rt, rt.alloc(), &HEADING_ROWS)
}

#[test]
fn columns_are_rated(rt: HostRuntime) -> Result<(), Fail> {
    check_modes(&rt, rt.alloc(), &RATE_ROWS)
}

#[test]
fn best_pages_are_made(rt: HostRuntime) -> Result<(), Fail> {
    check_modes(&rt, rt.alloc(), &BEST_ROWS)
}

#[test]
fn floats_are_told_of(rt: HostRuntime) -> Result<(), Fail> {
    check_modes(&rt, rt.alloc(), &WHY_ROWS)
}
