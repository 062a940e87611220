//! Ends that fail: each call that a run makes, in turn.
use std::alloc::{AllocError, Global};
use std::process::Abort;
use std::test::Fail;
use tb_io::{MemSink, MemSource};
use tb_top::{Status, run};
use tb_worked_rows::{
    Failing, INPUT, Left, MODE_ROWS, ModeRow, NONE, RATE_ROWS, REPORT, ROWS, WHY_ROWS,
    galley_of_many, report_of_many, run_on, run_with, words_of,
};

// The worked row of equal costs, and the same galley with few sets: what is read, its report, and how many reads of 50
// bytes it takes, the one that finds the end included.
fn runs() -> [(&'static [u8], &'static [u8], u64); 2] {
    let row = &ROWS[3];
    [(row.input, row.out, 7), (INPUT, REPORT, 4)]
}

// A read that fails gives the status ReadFault and nothing else.
#[test]
fn each_failing_read_is_reported(rt: HostRuntime) -> Result<(), Fail> {
    for (input, report, reads) in runs() {
        for call in 1..12 {
            let calls = [call];
            let failing = Failing {
                reads: &calls,
                ..NONE
            };
            let left = run_on(rt.alloc(), input, &failing)?;
            if call <= reads {
                assert_eq!(rt; left.status, 8, "at read {call}");
                assert_eq!(rt; left.out.held(), b"".as_slice(), "at read {call}");
                assert_eq!(rt; left.err.held(), b"galley_pages: read fault\n".as_slice());
            } else {
                assert_eq!(rt; left.status, 0, "at read {call}");
                assert_eq!(rt; left.out.held(), report, "at read {call}");
            }
        }
    }
    Ok(())
}

// Runs on an input, of which the write of this number fails.
fn fail_write(alloc: Global, input: &[u8], call: u64) -> Result<Left, AllocError> {
    let calls = [call];
    let failing = Failing {
        writes: &calls,
        ..NONE
    };
    run_on(alloc, input, &failing)
}

// A report that is not long is one write.
#[test]
fn report_is_written_at_once(rt: HostRuntime) -> Result<(), Fail> {
    for (input, report, _) in runs() {
        let unwritten = fail_write(rt.alloc(), input, 1)?;
        assert_eq!(rt; unwritten.status, 9);
        assert_eq!(rt; unwritten.out.held(), b"".as_slice());
        assert_eq!(rt;
            unwritten.err.held(),
            b"galley_pages: write fault\n".as_slice()
        );
        let written = fail_write(rt.alloc(), input, 2)?;
        assert_eq!(rt; written.status, 0);
        assert_eq!(rt; written.out.held(), report);
        assert_eq!(rt; written.err.held(), b"".as_slice());
    }
    Ok(())
}

// A write that fails gives the status WriteFault and leaves a prefix of the report: what was written before, in pieces of
// more than 32768 bytes. A report of more than two pieces is three writes.
#[test]
fn each_failing_write_is_reported(rt: HostRuntime) -> Result<(), Fail> {
    let alloc = rt.alloc();
    let input = galley_of_many(alloc)?;
    let report = report_of_many(alloc)?;
    for call in 1..=4 {
        let left = fail_write(alloc, &input, call)?;
        let held = left.out.held();
        if call == 4 {
            assert_eq!(rt; left.status, 0);
            assert!(rt; held == report.as_slice());
            assert_eq!(rt; left.err.held(), b"".as_slice());
        } else {
            let written = 32768 * (call as usize - 1);
            assert_eq!(rt; left.status, 9, "at write {call}");
            assert!(rt; report.starts_with(held), "at write {call}");
            assert!(rt;
                written <= held.len() && held.len() < written + 200,
                "at write {call}"
            );
            assert_eq!(rt; left.err.held(), b"galley_pages: write fault\n".as_slice());
        }
    }
    Ok(())
}

// If err fails too, the status stays.
#[test]
fn failing_err_keeps_the_status(rt: HostRuntime) -> Result<(), Fail> {
    let first = [1];
    let read = Failing {
        reads: &first,
        lines: &first,
        ..NONE
    };
    let write = Failing {
        writes: &first,
        lines: &first,
        ..NONE
    };
    let line = Failing {
        lines: &first,
        ..NONE
    };
    let rows = [
        (INPUT, read, 8),
        (INPUT, write, 9),
        (b"".as_slice(), line, 3),
    ];
    for (input, failing, status) in rows {
        let left = run_on(rt.alloc(), input, &failing)?;
        assert_eq!(rt; left.status, status);
        assert_eq!(rt; left.out.held(), b"".as_slice());
        assert_eq!(rt; left.err.held(), b"".as_slice());
    }
    Ok(())
}

// In each mode that reads or writes, a first read or a first write that fails is reported, and nothing is written. Refused
// words are refused first, and so is what is refused before anything is written.
fn check_faults(rt: &impl Abort, alloc: Global, rows: &[ModeRow]) -> Result<(), Fail> {
    let first = [1];
    let reads = Failing {
        reads: &first,
        ..NONE
    };
    let writes = Failing {
        writes: &first,
        ..NONE
    };
    for row in rows {
        let name = row.name;
        let words = words_of(alloc, row)?;
        let unread = run_with(alloc, &words, row.input, &reads)?;
        let reads_nothing = row.status == 2 || row.words.iter().any(|word| *word == "gen");
        let (status, out, line) = if reads_nothing {
            (row.status, row.out, row.err)
        } else {
            (8, b"".as_slice(), b"galley_pages: read fault\n".as_slice())
        };
        assert_eq!(rt; unread.status, status, "{name}");
        assert_eq!(rt; unread.out.held(), out, "{name}");
        assert_eq!(rt; unread.err.held(), line, "{name}");
        let unwritten = run_with(alloc, &words, row.input, &writes)?;
        let (status, line) = if row.out.is_empty() {
            (row.status, row.err)
        } else {
            (9, b"galley_pages: write fault\n".as_slice())
        };
        assert_eq!(rt; unwritten.status, status, "{name}");
        assert_eq!(rt; unwritten.out.held(), b"".as_slice(), "{name}");
        assert_eq!(rt; unwritten.err.held(), line, "{name}");
    }
    Ok(())
}

#[test]
fn first_fault_of_each_mode(rt: HostRuntime) -> Result<(), Fail> {
    check_faults(&rt, rt.alloc(), &MODE_ROWS)
}

#[test]
fn first_fault_of_a_rating(rt: HostRuntime) -> Result<(), Fail> {
    check_faults(&rt, rt.alloc(), &RATE_ROWS)
}

#[test]
fn first_fault_of_what_is_told(rt: HostRuntime) -> Result<(), Fail> {
    check_faults(&rt, rt.alloc(), &WHY_ROWS)
}

// After a read that fails no more is taken: what follows it is whole for the next run.
#[test]
fn nothing_is_read_after_a_fault(rt: HostRuntime) -> Result<(), Fail> {
    let alloc = rt.alloc();
    let mut input = vec![in alloc; b'#'; 100]?;
    input.extend_from_slice(INPUT)?;
    let mut source = MemSource::new(input, 50, [3].to_vec(alloc)?);
    let mut out = MemSink::new(alloc, Vec::new(alloc));
    let mut err = MemSink::new(alloc, Vec::new(alloc));
    assert_eq!(rt;
        run(alloc, &[], &mut source, &mut out, &mut err),
        Status::ReadFault
    );
    assert_eq!(rt; out.held(), b"".as_slice());
    assert_eq!(rt;
        run(alloc, &[], &mut source, &mut out, &mut err),
        Status::Done
    );
    assert_eq!(rt; out.held(), REPORT);
    Ok(())
}

#[test]
fn words_long_input_and_a_failing_err(rt: HostRuntime) -> Result<(), Fail> {
    let alloc = rt.alloc();
    let words = vec![in alloc;
        String::from_str(alloc, "galley_pages")?,
        String::from_str(alloc, "--mode")?,
    ]?;
    let mut source = MemSource::new(INPUT.to_vec(alloc)?, 1, Vec::new(alloc));
    let mut out = MemSink::new(alloc, Vec::new(alloc));
    let mut err = MemSink::new(alloc, Vec::new(alloc));
    assert_eq!(rt;
        run(alloc, &words, &mut source, &mut out, &mut err),
        Status::Words
    );
    assert_eq!(rt; err.held(), b"galley_pages: words refused\n".as_slice());
    // The name alone is accepted, and nothing of the input was taken before.
    assert_eq!(rt;
        run(alloc, &words[..1], &mut source, &mut out, &mut err),
        Status::Done
    );
    assert_eq!(rt; out.held(), REPORT);
    let long = vec![in alloc; b'\n'; 8388609]?;
    let mut source = MemSource::new(long, 1 << 20, Vec::new(alloc));
    let mut err = MemSink::new(alloc, Vec::new(alloc));
    assert_eq!(rt;
        run(alloc, &[], &mut source, &mut out, &mut err),
        Status::Range
    );
    assert_eq!(rt;
        err.held(),
        b"galley_pages: line 0 field 0: InputSize\n".as_slice()
    );
    let silent = run_on(
        alloc,
        b"",
        &Failing {
            lines: &[1],
            ..NONE
        },
    )?;
    assert_eq!(rt; silent.status, 3);
    assert_eq!(rt; silent.err.held(), b"".as_slice());
    Ok(())
}
