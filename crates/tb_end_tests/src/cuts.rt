//! Inputs that are cut short, and inputs that come in small pieces.
use std::alloc::Global;
use std::process::Abort;
use std::test::Fail;
use tb_galley::{GalleyFault, new_reader};
use tb_worked_rows::{FLOAT_ROWS, Failing, NONE, ROWS, Row, run_by, run_on};

// Runs each row on an input that is read by pieces of this size, and says where it differs.
fn check(rt: &impl Abort, alloc: Global, rows: &[Row], piece: usize) -> Result<(), Fail> {
    for row in rows {
        let name = row.name;
        let left = run_by(alloc, &[], row.input, piece, &NONE)?;
        assert_eq!(rt; left.status, row.status, "{name}");
        assert_eq!(rt; left.out.held(), row.out, "{name}");
        assert_eq!(rt; left.err.held(), row.err, "{name}");
    }
    Ok(())
}

// Without its last line feed the article page is the same page; any shorter front of it is no galley.
#[test]
fn article_page_is_cut_short(rt: HostRuntime) -> Result<(), Fail> {
    let row = &FLOAT_ROWS[11];
    assert_eq!(rt; row.name, "article page");
    let text = row.input;
    for length in 0..text.len() {
        let (front, cut) = text.split_at(length);
        let left = run_on(rt.alloc(), front, &NONE)?;
        if cut == b"\n".as_slice() {
            assert_eq!(rt; left.status, 0);
            assert_eq!(rt; left.out.held(), row.out);
            assert_eq!(rt; left.err.held(), b"".as_slice());
        } else {
            assert_eq!(rt; left.status, 3, "of {length} bytes");
            assert_eq!(rt; left.out.held(), b"".as_slice(), "of {length} bytes");
            assert!(rt;
                left.err.held().starts_with(b"galley_pages: line "),
                "of {length} bytes"
            );
        }
    }
    Ok(())
}

#[test]
fn article_page_comes_in_pieces(rt: HostRuntime) -> Result<(), Fail> {
    for piece in [1, 2, 7, 255] {
        check(&rt, rt.alloc(), &FLOAT_ROWS[11..12], piece)?;
    }
    Ok(())
}

// With pieces of one byte each line end of two bytes is split.
#[test]
fn rows_come_byte_by_byte(rt: HostRuntime) -> Result<(), Fail> {
    check(&rt, rt.alloc(), &ROWS, 1)
}

// A line of 256 bytes, and pieces that are cut at each of its bytes in turn.
#[test]
fn long_line_comes_in_two_pieces(rt: HostRuntime) -> Result<(), Fail> {
    let alloc = rt.alloc();
    let mut input = b"galley 1\n".to_vec(alloc)?;
    for _ in 0..256 {
        input.push(b'#')?;
    }
    input.extend_from_slice(b"\nend\n")?;
    for piece in 9..270 {
        let left = run_by(alloc, &[], &input, piece, &NONE)?;
        assert_eq!(rt; left.status, 4, "pieces of {piece}");
        assert_eq!(rt; left.out.held(), b"".as_slice());
        assert_eq!(rt;
            left.err.held(),
            b"galley_pages: line 2 field 0: LineLength\n".as_slice()
        );
    }
    Ok(())
}

// One line feed too many, in pieces of one byte.
#[test]
fn longest_input_comes_byte_by_byte(rt: HostRuntime) -> Result<(), Fail> {
    let alloc = rt.alloc();
    let long = vec![in alloc; b'\n'; 8388609]?;
    let left = run_by(alloc, &[], &long, 1, &NONE)?;
    assert_eq!(rt; left.status, 4);
    assert_eq!(rt; left.out.held(), b"".as_slice());
    assert_eq!(rt;
        left.err.held(),
        b"galley_pages: line 0 field 0: InputSize\n".as_slice()
    );
    Ok(())
}

// The 2049th piece of 4096 bytes is the first one with a byte too many, and the last one that is read.
#[test]
fn reading_stops_past_the_limit(rt: HostRuntime) -> Result<(), Fail> {
    let alloc = rt.alloc();
    let longer = vec![in alloc; b'#'; 8400896]?;
    let failing = [2050];
    let left = run_by(
        alloc,
        &[],
        &longer,
        4096,
        &Failing {
            reads: &failing,
            ..NONE
        },
    )?;
    assert_eq!(rt; left.status, 4);
    let failing = [2049];
    let left = run_by(
        alloc,
        &[],
        &longer,
        4096,
        &Failing {
            reads: &failing,
            ..NONE
        },
    )?;
    assert_eq!(rt; left.status, 8);
    Ok(())
}

// A reader that once had no memory has none from then on. Only a run in which an allocation fails comes to this.
#[test]
fn reader_without_memory_stays_so(rt: HostRuntime) -> Result<(), Fail> {
    let mut reader = new_reader(rt.alloc());
    let mut failed = false;
    for piece in FLOAT_ROWS[11].input.chunks(7) {
        let is_refused = reader.feed(piece).is_err();
        assert!(rt; is_refused || !failed);
        failed = is_refused;
    }
    let ended = reader.finish();
    assert!(rt; !failed || matches!(ended, Err(GalleyFault::Memory)));
    Ok(())
}
