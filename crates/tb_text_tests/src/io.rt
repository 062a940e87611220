// Each kind of end once, and the faults of the standard streams.
ghost use Rattle.std.specs.Prelude.{◌≤◌, IfOk};

use std::io::{self, Read, Write};
use std::test::Fail;
use tb_io::{
    Failed, MemSink, MemSource, Sink, SinkFault, Source, StdSink, StdSource, SureSink, SureSource,
    write_all,
};

#[test]
fn ends_in_memory_fail_at_their_calls(rt: HostRuntime) -> Result<(), Fail> {
    let alloc = rt.alloc();
    let failing = [2].to_vec(alloc)?;
    let mut source = MemSource::new(b"abcdefg".to_vec(alloc)?, 3, failing);
    let mut buf = [0u8; 4];
    assert_eq!(rt; source.read(&mut buf), Ok(3));
    assert_eq!(rt; source.read(&mut buf), Err(Failed));
    assert_eq!(rt; buf, *b"abc\0");
    assert_eq!(rt; source.read(&mut buf[..2]), Ok(2));
    assert_eq!(rt; source.read(&mut buf), Ok(2));
    assert_eq!(rt; buf, *b"fgc\0");
    assert_eq!(rt; source.read(&mut buf), Ok(0));
    let mut sink = MemSink::new(alloc, [2].to_vec(alloc)?);
    assert_eq!(rt; sink.write(b"ab"), Ok(2));
    assert_eq!(rt; write_all(&mut sink, b"cd"), Err(SinkFault::Failed));
    assert_eq!(rt; write_all(&mut sink, b"ef"), Ok(()));
    assert_eq!(rt; sink.held(), b"abef".as_slice());
    Ok(())
}

#[test]
fn sure_ends_never_fail(rt: HostRuntime) -> Result<(), Fail> {
    let alloc = rt.alloc();
    let mut source = SureSource::new(b"abc".to_vec(alloc)?);
    let mut buf = [0u8; 2];
    assert_eq!(rt; source.read(&mut buf), Ok(2));
    assert_eq!(rt; source.read(&mut buf), Ok(1));
    assert_eq!(rt; source.read(&mut buf), Ok(0));
    assert_eq!(rt; buf, *b"cb");
    let mut sink = SureSink::new(alloc);
    assert_eq!(rt; write_all(&mut sink, b"ab"), Ok(()));
    assert_eq!(rt; sink.write(b"c"), Ok(1));
    assert_eq!(rt; sink.held(), b"abc".as_slice());
    Ok(())
}

// A stream whose first call fails, and which then moves at most one byte a call.
#[derive(Drop)]
struct Stream {
    calls: u8,
    flushes: bool,
}

impl Stream {
    fn moved(&mut self, most: usize) -> io::Result<usize>
        ensures { IfOk result (λ n. n ≤ most) }
    {
        self.calls = self.calls.saturating_add(1);
        match self.calls {
            1 => Err(io::Error::other("first")),
            _ => Ok(most.min(1)),
        }
    }
}

impl Read for Stream {
    fn read(&mut self, buf: &mut [u8]) -> io::Result<usize> {
        self.moved(buf.len())
    }
}

impl Write for Stream {
    fn write(&mut self, buf: &[u8]) -> io::Result<usize> {
        self.moved(buf.len())
    }

    fn flush(&mut self) -> io::Result<()> {
        if self.flushes {
            Ok(())
        } else {
            Err(io::Error::other("flush"))
        }
    }
}

// A stream that takes nothing.
#[derive(Drop)]
struct Full;

impl Write for Full {
    fn write(&mut self, _: &[u8]) -> io::Result<usize> {
        Ok(0)
    }

    fn flush(&mut self) -> io::Result<()> {
        Ok(())
    }
}

#[test]
fn standard_streams_are_counted(rt: HostRuntime) -> Result<(), Fail> {
    let mut source = StdSource::new(Stream {
        calls: 0,
        flushes: true,
    });
    let mut buf = [0u8; 4];
    assert_eq!(rt; source.read(&mut buf), Err(Failed));
    assert_eq!(rt; source.read(&mut buf), Ok(1));
    let mut sink = StdSink::new(Stream {
        calls: 0,
        flushes: true,
    });
    assert_eq!(rt; sink.write(b"ab"), Err(SinkFault::Failed));
    assert_eq!(rt; write_all(&mut sink, b"ab"), Ok(()));
    let mut unflushed = StdSink::new(Stream {
        calls: 1,
        flushes: false,
    });
    assert_eq!(rt; unflushed.write(b"ab"), Err(SinkFault::Failed));
    let mut full = StdSink::new(Full);
    assert_eq!(rt; full.write(b"ab"), Err(SinkFault::Failed));
    Ok(())
}
