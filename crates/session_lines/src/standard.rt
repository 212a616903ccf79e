//! Standard input and output, or whatever else the library reads and writes. They tell nothing of their bytes.
ghost use Rattle.std.specs.Prelude.{◌≡◌, ◌≤◌, None, IfOk, length, drop, false};
ghost use Rattle.session_lines.specs.LineSource.{SourceSeen};
ghost use Rattle.session_lines.specs.ByteSink.{SinkSeen};
ghost use Rattle.session_lines.specs.Standard as plain;

use crate::memory::copy_front;
use crate::sink::{ByteSink, FlushStep, WriteStep};
use crate::source::{LineSource, ReadStep};
use std::alloc::Global;
use std::io::{self, ErrorKind, Read, Write};
use std::marker::Model;
use ty_path::OutOfMemory;

/// The most bytes that one read or write hands to the system.
pub const PIECE: usize = 65_536;

/// A reader of the library as a source. What it gives is not proved: this is a thin edge. Contracts see the
/// count of faults.
#[derive(Drop)]
pub struct StdinSource<R: Read + Drop> {
    inner: R,
    piece: Vec<u8>,
    faults: u64,
}

impl<R: Read + Drop> Model for StdinSource<R> {
    ghost Value = { SourceSeen };

    ghost view = { λ s. record { left = None; faults = s.faults } };
}

impl<R: Read + Drop> StdinSource<R> {
    /// The source over a reader, with a buffer of one piece.
    pub fn new(alloc: Global, inner: R) -> Result<StdinSource<R>, OutOfMemory>
        ensures { IfOk result (λ source. source ≡ record { left = None; faults = 0 }) }
    {
        Ok(StdinSource {
            inner,
            piece: vec![in alloc; 0; PIECE]?,
            faults: 0,
        })
    }
}

/// Reads into the piece, and copies what came to the start of the buffer, whose rest stays as it was.
fn read_front<R: Read>(inner: &mut R, piece: &mut [u8], buf: &mut [u8]) -> io::Result<usize>
    ensures { IfOk result (λ n. (n ≤ length buf.new) × (drop n buf.new ≡ drop n buf.old)) }
{
    let room = buf.len().min(piece.len());
    let n = read_again(inner, &mut piece[..room])?;
    copy_front(&piece[..n], buf);
    Ok(n)
}

/// Reads, and reads again where that was interrupted.
fn read_again<R: Read>(inner: &mut R, buf: &mut [u8]) -> io::Result<usize>
    ensures { IfOk result (λ n. n ≤ length buf.new) }
{
    for _ in 0..u64::MAX {
        match inner.read(buf) {
            Ok(n) => return Ok(n),
            Err(error) if error.kind() == ErrorKind::Interrupted => {}
            Err(error) => return Err(error),
        }
    }
    Err(io::Error::from(ErrorKind::Interrupted))
}

/// What a read of the library says: only a read that failed is one.
fn step_of_read(read: &io::Result<usize>) -> ReadStep
    ensures { result ≡ plain.step_of_read read.now }
{
    match read {
        Ok(n) => ReadStep::Got(*n),
        Err(_) => ReadStep::Failed,
    }
}

impl<R: Read + Drop> LineSource for StdinSource<R> {
    ghost seen = { λ s. s };

    fn read(&mut self, buf: &mut [u8]) -> ReadStep {
        let read = read_front(&mut self.inner, &mut self.piece, buf);
        if read.is_err() {
            self.faults = self.faults.saturating_add(1);
        }
        step_of_read(&read)
    }
}

/// A writer of the library as a sink. What becomes of the bytes is not proved: this is a thin edge. Contracts
/// see the counts.
#[derive(Drop)]
pub struct StdSink<W: Write + Drop> {
    inner: W,
    faults: u64,
    dry: u64,
    flushed: bool,
}

impl<W: Write + Drop> Model for StdSink<W> {
    ghost Value = { SinkSeen };

    ghost view = { λ s. record { taken = None; faults = s.faults; dry = s.dry; flushed = s.flushed } };
}

impl<W: Write + Drop> StdSink<W> {
    /// The sink over a writer.
    pub fn new(inner: W) -> StdSink<W>
        ensures { result ≡ record { taken = None; faults = 0; dry = 0; flushed = false } }
    {
        StdSink {
            inner,
            faults: 0,
            dry: 0,
            flushed: false,
        }
    }
}

/// Writes, and writes again where that was interrupted.
fn write_again<W: Write>(inner: &mut W, piece: &[u8]) -> io::Result<usize>
    ensures { IfOk result (λ n. n ≤ length piece.now) }
{
    for _ in 0..u64::MAX {
        match inner.write(piece) {
            Ok(n) => return Ok(n),
            Err(error) if error.kind() == ErrorKind::Interrupted => {}
            Err(error) => return Err(error),
        }
    }
    Err(io::Error::from(ErrorKind::Interrupted))
}

/// What a write of the library says: only a write that failed is one.
fn step_of_write(written: &io::Result<usize>) -> WriteStep
    ensures { result ≡ plain.step_of_write written.now }
{
    match written {
        Ok(n) => WriteStep::Took(*n),
        Err(_) => WriteStep::Failed,
    }
}

/// What a flush of the library says: only a flush that failed is one.
fn step_of_flush(flushed: &io::Result<()>) -> FlushStep
    ensures { result ≡ plain.step_of_flush flushed.now }
{
    match flushed {
        Ok(()) => FlushStep::Done,
        Err(_) => FlushStep::Failed,
    }
}

impl<W: Write + Drop> ByteSink for StdSink<W> {
    ghost seen = { λ s. s };

    fn write(&mut self, piece: &[u8]) -> WriteStep {
        let written = write_again(&mut self.inner, piece);
        match &written {
            Ok(0) if piece.is_empty() => {}
            Ok(0) => self.dry = self.dry.saturating_add(1),
            Ok(_) => self.flushed = false,
            Err(_) => self.faults = self.faults.saturating_add(1),
        }
        step_of_write(&written)
    }

    fn flush(&mut self) -> FlushStep {
        let flushed = self.inner.flush();
        match &flushed {
            Ok(()) => self.flushed = true,
            Err(_) => self.faults = self.faults.saturating_add(1),
        }
        step_of_flush(&flushed)
    }
}
