//! Worked rows of traces.

use std::test::Fail;
use tb_builder::Try;
use tb_node::Sums;
use tb_scaled::AWFUL_BAD;
use tb_trace::try_text;

// The line of the place, its total, the stretch of each order, the badness, penalty and cost, and whether it is the
// best so far. Nothing shrinks, and the goal is 30sp.
type Row = (u32, i64, [i64; 4], i64, i64, i64, bool);

fn try_of(row: Row) -> Try {
    let (line, total, stretch, badness, penalty, cost, champion) = row;
    Try {
        line,
        sums: Sums {
            total,
            depth: 0,
            stretch,
            shrink: 0,
        },
        goal: 30,
        badness,
        penalty,
        cost,
        champion,
    }
}

#[test]
fn writes_tries(rt: HostRuntime) -> Result<(), Fail> {
    let none = [0; 4];
    let normal = [5, 0, 0, 0];
    let more = [10, 0, 0, 0];
    let infinite = [10, 65_536, 0, 0];
    let fil = [0, 65_536, 0, 0];
    let star = AWFUL_BAD;
    let rows: [(Row, &[u8]); 9] = [
        // The places of a page of three boxes, and those of the page that is left.
        (
            (6, 10, none, 10_000, 0, 100_000, true),
            b"try 6 t 10 s 0 0 0 0 z 0 g 30 b 10000 p 0 c 100000 #\n",
        ),
        (
            (8, 20, normal, 800, 0, 800, true),
            b"try 8 t 20 s 5 0 0 0 z 0 g 30 b 800 p 0 c 800 #\n",
        ),
        (
            (10, 30, more, 0, 0, 0, true),
            b"try 10 t 30 s 10 0 0 0 z 0 g 30 b 0 p 0 c 0 #\n",
        ),
        (
            (10, 30, infinite, 0, -10_000, -10_000, true),
            b"try 10 t 30 s 10 65536 0 0 z 0 g 30 b 0 p -10000 c -10000 #\n",
        ),
        (
            (10, 10, none, 10_000, -10_001, -10_001, true),
            b"try 10 t 10 s 0 0 0 0 z 0 g 30 b 10000 p -10001 c -10001 #\n",
        ),
        // A place before the goal, and one past it.
        (
            (19, 24, none, 10_000, 0, 100_000, true),
            b"try 19 t 24 s 0 0 0 0 z 0 g 30 b 10000 p 0 c 100000 #\n",
        ),
        (
            (21, 36, none, star, 0, star, false),
            b"try 21 t 36 s 0 0 0 0 z 0 g 30 b * p 0 c *\n",
        ),
        // A note before the first box.
        (
            (17, 0, none, 10_000, 0, 100_000, true),
            b"try 17 t 0 s 0 0 0 0 z 0 g 30 b 10000 p 0 c 100000 #\n",
        ),
        (
            (18, 10, fil, 0, -10_000, -10_000, true),
            b"try 18 t 10 s 0 65536 0 0 z 0 g 30 b 0 p -10000 c -10000 #\n",
        ),
    ];
    for (row, line) in rows {
        let text = try_text(rt.alloc(), &try_of(row))?;
        assert_eq!(rt; text.as_slice(), line);
    }
    Ok(())
}
