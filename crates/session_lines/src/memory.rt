//! A source and a sink in memory, for tests: they tell what they hold, and fail at the calls that are listed.
ghost use Rattle.std.specs.Prelude.{◌≡◌, ◌↔◌, ◌<◌, ◌≤◌, ◌++◌, drop, length, Some, IsTrue, false, ⊤};
ghost use Rattle.session_lines.specs.LineSource.{Reads, IsFailedRead, HasCause};
ghost use Rattle.session_lines.specs.ByteSink.{Writes, IsFailedWrite, IsDry, flushed_by_write, flushed_by, IsFailedFlush};
ghost use Rattle.session_lines.specs.Memory.{counted, is_listed, are_positive, at_most_next, read_by, next_read, after_read, WritesNext, after_write, after_flush};

use crate::sink::{ByteSink, FlushStep, WriteStep};
use crate::source::{LineSource, ReadStep};
use std::marker::Model;

/// Bytes in memory, that come in pieces. Contracts see what is held.
#[derive(Drop)]
pub struct MemorySource {
    bytes: Vec<u8>,
    at: usize,
    sizes: Vec<usize>,
    given: usize,
    fails: Vec<u64>,
    calls: u64,
    faults: u64,
}

impl Model for MemorySource {
    ghost use Rattle.std.specs.Prelude.{drop, length, ◌≤◌};
    ghost use Rattle.std.specs.Prelude.{IsTrue};
    ghost use Rattle.session_lines.specs.Memory.{SourceHolds, are_positive};

    ghost Value = { SourceHolds };

    ghost view = { λ s. record { left = drop s.at s.bytes.items; sizes = drop s.given s.sizes.items; fails = s.fails.items; calls = s.calls; faults = s.faults } };

    ghost invariant = { λ s. (s.at ≤ length s.bytes.items) × (s.given ≤ length s.sizes.items) × IsTrue (are_positive s.sizes.items) };
}

impl MemorySource {
    /// A source of these bytes, in pieces of at most these sizes, where the calls with these numbers fail.
    /// The first call has the number 1. After the last size a piece is what fits.
    pub fn new(bytes: Vec<u8>, sizes: Vec<usize>, fails: Vec<u64>) -> MemorySource
        requires { IsTrue (are_positive sizes.items) }
        ensures { result ≡ record { left = bytes.items; sizes = sizes.items; fails = fails.items; calls = 0; faults = 0 } }
    {
        MemorySource {
            bytes,
            at: 0,
            sizes,
            given: 0,
            fails,
            calls: 0,
            faults: 0,
        }
    }
}

/// The next number, if there is one, and else this one; the lesser of both.
fn at_most(numbers: &[usize], at: usize, most: usize) -> usize
    requires { at ≤ length numbers.now }
    ensures next { result ≡ at_most_next (drop at numbers.now) most }
    ensures within { result ≤ most }
    ensures some { IsTrue (are_positive numbers.now) → 0 < most → 0 < result }
{
    if at < numbers.len() {
        most.min(numbers[at])
    } else {
        most
    }
}

/// Puts these bytes at the start of the buffer.
pub(crate) fn copy_front(from: &[u8], buf: &mut [u8])
    requires { length from.now ≤ length buf.old }
    ensures { buf.new ≡ from.now ++ drop (length from.now) buf.old }
{
    let n = from.len();
    buf[..n].copy_from_slice(from);
}

impl LineSource for MemorySource {
    ghost seen = { λ s. record { left = Some s.left; faults = s.faults } };

    fn read(&mut self, buf: &mut [u8]) -> ReadStep
        ensures bytes { Reads (Some self.old.left) (Some self.new.left) result buf.old buf.new }
        ensures cause { HasCause (IsFailedRead result) self.old.faults self.new.faults }
        ensures next { result ≡ next_read self.old (length buf.old) }
        ensures after { self.new ≡ after_read (record self.old { calls = counted self.old.calls }) result }
    {
        if self.fails_now() {
            self.fail();
            ReadStep::Failed
        } else {
            self.give(buf)
        }
    }
}

impl MemorySource {
    /// Counts a call, and tells whether it fails.
    fn fails_now(&mut self) -> bool
        ensures listed { result ≡ is_listed self.old.fails self.old.calls }
        ensures after { self.new ≡ record self.old { calls = counted self.old.calls } }
    {
        let call = self.calls.saturating_add(1);
        let listed = self.fails.contains(&call);
        self.calls = call;
        listed
    }

    fn fail(&mut self)
        ensures after { self.new ≡ record self.old { faults = counted self.old.faults } }
        ensures cause { HasCause ⊤ self.old.faults self.new.faults }
    {
        self.faults = self.faults.saturating_add(1);
    }

    /// Gives the next piece.
    fn give(&mut self, buf: &mut [u8]) -> ReadStep
        ensures bytes { Reads (Some self.old.left) (Some self.new.left) result buf.old buf.new }
        ensures next { result ≡ read_by self.old.left self.old.sizes (length buf.old) }
        ensures after { self.new ≡ after_read self.old result }
    {
        let left = self.bytes.len() - self.at;
        if left == 0 {
            return ReadStep::End;
        }
        let n = at_most(&self.sizes, self.given, buf.len().min(left));
        let from = self.at;
        copy_front(&self.bytes[from..from + n], buf);
        self.at = from + n;
        self.given = (self.given + 1).min(self.sizes.len());
        ReadStep::Got(n)
    }
}

/// A sink in memory. Contracts see what is held.
#[derive(Drop)]
pub struct MemorySink {
    bytes: Vec<u8>,
    most: Vec<usize>,
    writes: usize,
    fails: Vec<u64>,
    calls: u64,
    faults: u64,
    dry: u64,
    flushed: bool,
}

impl Model for MemorySink {
    ghost use Rattle.std.specs.Prelude.{drop, length, ◌≤◌};
    ghost use Rattle.session_lines.specs.Memory.{SinkHolds};

    ghost Value = { SinkHolds };

    ghost view = { λ s. record { taken = s.bytes.items; most = drop s.writes s.most.items; fails = s.fails.items; calls = s.calls; faults = s.faults; dry = s.dry; flushed = s.flushed } };

    ghost invariant = { λ s. s.writes ≤ length s.most.items };
}

impl MemorySink {
    /// A sink that has taken these bytes, where each write takes at most the next of these numbers, and the
    /// calls with these numbers fail, writes and flushes counted together from 1 on. 0 is a dry take. After
    /// the last number a write takes all. Out of memory is a fault too.
    pub fn new(bytes: Vec<u8>, most: Vec<usize>, fails: Vec<u64>) -> MemorySink
        ensures { result ≡ record { taken = bytes.items; most = most.items; fails = fails.items; calls = 0; faults = 0; dry = 0; flushed = false } }
    {
        MemorySink {
            bytes,
            most,
            writes: 0,
            fails,
            calls: 0,
            faults: 0,
            dry: 0,
            flushed: false,
        }
    }

    /// The bytes that were taken.
    pub fn bytes(&self) -> &[u8]
        ensures { result.now ≡ self.now.taken }
    {
        &self.bytes
    }

    /// Whether all that was taken has gone on.
    pub fn is_flushed(&self) -> bool
        ensures { result ≡ self.now.flushed }
    {
        self.flushed
    }

    /// Counts a call, and tells whether it fails.
    fn fails_now(&mut self) -> bool
        ensures listed { result ≡ is_listed self.old.fails self.old.calls }
        ensures after { self.new ≡ record self.old { calls = counted self.old.calls } }
    {
        let call = self.calls.saturating_add(1);
        let listed = self.fails.contains(&call);
        self.calls = call;
        listed
    }

    fn fail(&mut self)
        ensures after { self.new ≡ record self.old { faults = counted self.old.faults } }
        ensures cause { HasCause ⊤ self.old.faults self.new.faults }
    {
        self.faults = self.faults.saturating_add(1);
    }
}

impl ByteSink for MemorySink {
    ghost seen = { λ s. record { taken = Some s.taken; faults = s.faults; dry = s.dry; flushed = s.flushed } };

    fn write(&mut self, piece: &[u8]) -> WriteStep
        ensures bytes { Writes (Some self.old.taken) (Some self.new.taken) result piece.now }
        ensures cause { HasCause (IsFailedWrite result) self.old.faults self.new.faults }
        ensures thirst { HasCause (IsDry result piece.now) self.old.dry self.new.dry }
        ensures flushed { self.new.flushed ≡ flushed_by_write self.old.flushed result }
        ensures next { WritesNext self.old result piece.now }
        ensures after { self.new ≡ after_write (record self.old { calls = counted self.old.calls }) result piece.now }
    {
        if self.fails_now() {
            self.fail();
            return WriteStep::Failed;
        }
        let n = at_most(&self.most, self.writes, piece.len());
        if self.bytes.extend_from_slice(&piece[..n]).is_err() {
            self.fail();
            return WriteStep::Failed;
        }
        self.writes = (self.writes + 1).min(self.most.len());
        if n > 0 {
            self.flushed = false;
        } else if !piece.is_empty() {
            self.dry = self.dry.saturating_add(1);
        }
        WriteStep::Took(n)
    }

    fn flush(&mut self) -> FlushStep
        ensures bytes { Some self.new.taken ≡ Some self.old.taken }
        ensures cause { HasCause (IsFailedFlush result) self.old.faults self.new.faults }
        ensures thirst { self.old.dry ≤ self.new.dry }
        ensures flushed { self.new.flushed ≡ flushed_by self.old.flushed result }
        ensures next { (result ≡ FlushStep.Failed) ↔ IsTrue (is_listed self.old.fails self.old.calls) }
        ensures after { self.new ≡ after_flush (record self.old { calls = counted self.old.calls }) result }
    {
        if self.fails_now() {
            self.fail();
            return FlushStep::Failed;
        }
        self.flushed = true;
        FlushStep::Done
    }
}
