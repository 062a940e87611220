use std::test::Fail;
use tb_scaled::Order;
use tb_text::{
    dimension, fraction, integer, put_number, split_at_feed, split_field, split_line, stretch,
    without_return,
};

// Each call once.
#[test]
fn reads_and_writes(rt: HostRuntime) -> Result<(), Fail> {
    let (line, rest) = split_at_feed(b" set \tpool 4\r\nend").unwrap_or((b"", b""));
    assert!(rt; without_return(line) == b" set \tpool 4".as_slice());
    assert!(rt; rest == b"end".as_slice());
    assert!(rt; split_at_feed(rest).is_none());
    let (line, rest) = split_line(b" set \tpool 4\r\nend");
    assert!(rt; line == b" set \tpool 4".as_slice());
    assert!(rt; rest == b"end".as_slice());
    let field = split_field(line).map(|parts| parts.0);
    assert!(rt; field == Some(b"set".as_slice()));
    assert!(rt; integer(b"-12") == Ok(-12));
    assert!(rt; dimension(b"0.7pt") == Ok(45_875));
    assert!(rt; stretch(b"1fil") == Ok((65_536, Order::Fil)));
    assert!(rt; fraction(b"0.3") == Ok(19_661));
    let mut out = Vec::new(rt.alloc());
    put_number(&mut out, -100_000_000_000_000_000_000)?;
    put_number(&mut out, 0)?;
    assert!(rt; out.as_slice() == b"-1000000000000000000000".as_slice());
    Ok(())
}
