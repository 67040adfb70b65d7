// A stream that holds what is written until it is flushed.
use crate::calls::taken;
use pta_base::StreamSink;
use std::alloc::Global;
use std::io::{self, Write};

/// What a stream holds, what it has sent on, and its first calls, which fail: so many writes, and then so many flushes.
#[derive(Drop)]
struct Holding {
    held: Vec<u8>,
    sent: Vec<u8>,
    failing_writes: u32,
    failing_flushes: u32,
}

impl Write for Holding {
    fn write(&mut self, buf: &[u8]) -> io::Result<usize> {
        if self.failing_writes > 0 {
            self.failing_writes -= 1;
            return Err(io::Error::from(io::ErrorKind::BrokenPipe));
        }
        self.held.extend_from_slice(buf)?;
        Ok(buf.len())
    }

    fn flush(&mut self) -> io::Result<()> {
        if self.failing_flushes > 0 {
            self.failing_flushes -= 1;
            return Err(io::Error::from(io::ErrorKind::BrokenPipe));
        }
        self.sent.append(&mut self.held)?;
        Ok(())
    }
}

/// A stream of which the first calls fail.
fn failing(alloc: Global, writes: u32, flushes: u32) -> Holding {
    Holding {
        held: Vec::new(alloc),
        sent: Vec::new(alloc),
        failing_writes: writes,
        failing_flushes: flushes,
    }
}

/// Whether a piece counts as taken only once it is flushed.
fn is_flushed(stream: &mut Holding) -> bool {
    let mut sink = StreamSink::new(&mut *stream);
    let counts = taken(&mut sink, b"pta 1\n") == 0 && taken(&mut sink, b"end\n") == 4;
    drop(sink);
    counts && stream.held.is_empty() && stream.sent.as_slice() == b"pta 1\nend\n".as_slice()
}

/// Whether a line of the error stream that fails is written at the second try.
fn is_tried_again(stream: &mut Holding) -> bool {
    let mut sink = StreamSink::new(&mut *stream);
    let counts = taken(&mut sink, b"usage\n") == 0 && taken(&mut sink, b"usage\n") == 6;
    drop(sink);
    counts && stream.sent.as_slice() == b"usage\n".as_slice()
}

// A write is flushed before it answers, and one that failed is tried again.
#[test]
fn writes_are_flushed_and_tried_again(rt: HostRuntime) {
    let mut stream = failing(rt.alloc(), 0, 1);
    assert!(rt; is_flushed(&mut stream));
    let mut other = failing(rt.alloc(), 1, 0);
    assert!(rt; is_tried_again(&mut other));
}
