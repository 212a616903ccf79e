//! Readers and writers of the library as a source and a sink: calls that are interrupted, and one that fails in
//! mid-stream.
use crate::disk::disk_of;
use crate::session::both::sink as empty_sink;
use std::io::{self, ErrorKind, Read, Write};
use std::test::Fail;
use tinymist_session::{
    ByteSink, DEFAULT_LIMITS, FlushStep, LineSource, MemorySource, ReadStep, SessionFault, StdSink,
    StdinSource, WriteStep, run_session,
};

/// Moves at most four bytes a call. Each call of an odd number is interrupted, and one call fails.
#[derive(Drop)]
struct Uneven<T> {
    inner: T,
    calls: u64,
    fails: u64,
}

impl<T> Uneven<T> {
    /// Counts a call, and tells how much of so many bytes it moves.
    fn turn(&mut self, bytes: usize) -> io::Result<usize> {
        self.calls = self.calls.saturating_add(1);
        if self.calls == self.fails {
            return Err(io::Error::from(ErrorKind::WouldBlock));
        }
        if self.calls % 2 == 1 {
            return Err(io::Error::from(ErrorKind::Interrupted));
        }
        Ok(bytes.min(4))
    }
}

impl<T: Read> Read for Uneven<T> {
    fn read(&mut self, buf: &mut [u8]) -> io::Result<usize> {
        let n = self.turn(buf.len())?.min(buf.len());
        self.inner.read(&mut buf[..n])
    }
}

impl<T: Write> Write for Uneven<T> {
    fn write(&mut self, buf: &[u8]) -> io::Result<usize> {
        let n = self.turn(buf.len())?.min(buf.len());
        self.inner.write(&buf[..n])
    }

    fn flush(&mut self) -> io::Result<()> {
        self.inner.flush()
    }
}

// The second read fails, and the third goes on behind the first: what failed took nothing.
#[test]
fn reads_go_on_after_interruptions(rt: HostRuntime) -> Result<(), Fail> {
    let inner = Uneven {
        inner: b"abcdef".as_slice(),
        calls: 0,
        fails: 4,
    };
    let mut source = StdinSource::new(rt.alloc(), inner)?;
    let mut buf = *b"........";
    assert_eq!(rt; source.read(&mut buf), ReadStep::Got(4));
    assert_eq!(rt; buf.as_slice(), b"abcd....".as_slice());
    assert_eq!(rt; source.read(&mut buf), ReadStep::Failed);
    assert_eq!(rt; source.read(&mut buf), ReadStep::Got(2));
    assert_eq!(rt; buf.as_slice(), b"efcd....".as_slice());
    assert_eq!(rt; source.read(&mut buf), ReadStep::Got(0));
    Ok(())
}

#[test]
fn writes_go_on_after_interruptions(rt: HostRuntime) -> Result<(), Fail> {
    let mut bytes = Vec::new(rt.alloc());
    let mut sink = StdSink::new(Uneven {
        inner: &mut bytes,
        calls: 0,
        fails: 4,
    });
    assert_eq!(rt; sink.write(b"abcdef"), WriteStep::Took(4));
    assert_eq!(rt; sink.write(b"ef"), WriteStep::Failed);
    assert_eq!(rt; sink.write(b"ef"), WriteStep::Took(2));
    assert_eq!(rt; sink.flush(), FlushStep::Done);
    drop(sink);
    assert_eq!(rt; bytes.as_slice(), b"abcdef".as_slice());
    Ok(())
}

// A source of the library that fails in mid-stream, with the replies to the lines before.
#[test]
fn a_reader_that_fails(rt: HostRuntime) -> Result<(), Fail> {
    let alloc = rt.alloc();
    let inner = Uneven {
        inner: b"snapshot\nsnapshot\n".as_slice(),
        calls: 0,
        fails: 8,
    };
    let mut source = StdinSource::new(alloc, inner)?;
    let mut sink = empty_sink(alloc);
    let mut disk = disk_of(alloc, None)?;
    let ended = run_session(alloc, &mut source, &mut sink, &mut disk, DEFAULT_LIMITS);
    assert_eq!(rt; ended, Err(SessionFault::ReadFault));
    assert_eq!(rt; sink.bytes(), b"view\t1\n".as_slice());
    Ok(())
}

// A writer of the library that fails in mid-stream, with a prefix of the replies.
#[test]
fn a_writer_that_fails(rt: HostRuntime) -> Result<(), Fail> {
    let alloc = rt.alloc();
    let mut source = MemorySource::new(
        b"snapshot\nsnapshot\n".to_vec(alloc)?,
        Vec::new(alloc),
        Vec::new(alloc),
    );
    let mut bytes = Vec::new(alloc);
    let mut sink = StdSink::new(Uneven {
        inner: &mut bytes,
        calls: 0,
        fails: 6,
    });
    let mut disk = disk_of(alloc, None)?;
    let ended = run_session(alloc, &mut source, &mut sink, &mut disk, DEFAULT_LIMITS);
    drop(sink);
    assert_eq!(rt; ended, Err(SessionFault::WriteFault));
    assert_eq!(rt; bytes.as_slice(), b"view\t1\n".as_slice());
    Ok(())
}
