//! Lines of a source, which is read a piece at a time.
ghost use Rattle.std.specs.Prelude.{◌≡◌, ◌⊎◌, ℕ, List, Some, Ok, Err, IsErrOf, ◌+◌, ◌-◌, ◌<◌, ◌≤◌, ◌++◌, ◌∷◌, [], IfOk, OnOk, IfSome, IfNone, length, take, drop, slice_range, true, IsTrue};
ghost use Rattle.session_lines.specs.LineSource.{HasCause};
ghost use Rattle.session_lines.specs.Lf.{IsLine};
ghost use Rattle.session_lines.specs.LineSource.{TakenWithin};

use crate::sink::{ByteSink, FlushStep};
use crate::source::{LineSource, ReadStep};
use crate::standard::PIECE;
use memchr::memchr;
use std::alloc::Global;
use thiserror::Error;
use ty_path::OutOfMemory;

/// What was read as a line.
#[derive(Clone, Copy, Debug, PartialEq, Eq)]
pub enum LineRead {
    /// A line that was ended by LF.
    Line,
    /// The rest of the input, which has a byte and no LF.
    Last,
    /// Nothing: the input is at its end.
    End,
}

/// Why no line was read.
#[derive(Clone, Copy, Debug, PartialEq, Eq, Error)]
pub enum LineFault {
    /// The source failed.
    #[error("read fault")]
    ReadFailed,
    /// The sink failed to flush what was written before the read.
    #[error("flush fault")]
    FlushFailed,
    /// There are more bytes than the limit before an LF.
    #[error("line too long")]
    TooLong,
    /// No memory was left.
    #[error("out of memory")]
    OutOfMemory,
}

impl From<OutOfMemory> for LineFault {
    ghost use Rattle.std.specs.Prelude.{◌≡◌};
    ghost use Rattle.session_lines.specs.declared.line_reader.LineFault.TheVariants.{OutOfMemory as no_memory};

    ghost from_gives = { λ _ fault. fault ≡ no_memory };

    fn from(_: OutOfMemory) -> Self {
        LineFault::OutOfMemory
    }
}

/// What the next part of a line is.
#[derive(Clone, Copy)]
enum Part {
    /// The line goes on.
    More,
    /// The line is ended by LF.
    Whole,
    /// The end of the input.
    End,
}

/// What filling the piece gave.
#[derive(Clone, Copy)]
pub enum Filled {
    /// At least one byte.
    Some,
    /// The end of the input.
    End,
    ReadFailed,
    FlushFailed,
}

/// Reads lines from pieces of a source. A line that stands whole in a piece is not copied.
#[derive(Drop)]
pub struct LineReader {
    // The last piece, of which from..to is not read yet.
    piece: Vec<u8>,
    from: usize,
    to: usize,
    // The line that was read last: start..end of the piece, or gathered from several pieces.
    is_gathered: bool,
    start: usize,
    end: usize,
    gathered: Vec<u8>,
    ghost ahead: { from ≤ to },
    ghost inside: { to ≤ length piece.items },
    ghost ordered: { start ≤ end },
    ghost within: { end ≤ length piece.items },
    ghost room: { 0 < length piece.items },
    ghost size: { length piece.items ≤ 65536 },
}

impl LineReader {
    ghost use Rattle.session_lines.specs.LineReader.{held_of, line_of, ahead, ReadsLine, Fills, FindsByte, TakesPart, GoesOn};

    /// A reader with a buffer of one piece.
    pub fn new(alloc: Global) -> Result<LineReader, OutOfMemory>
        ensures { IfOk result (λ r. held_of r ≡ []) }
    {
        Ok(LineReader {
            piece: vec![in alloc; 0; PIECE]?,
            from: 0,
            to: 0,
            is_gathered: true,
            start: 0,
            end: 0,
            gathered: Vec::new(alloc),
        })
    }

    /// The line that was read last, without its LF.
    pub fn line(&self) -> &[u8]
        ensures { result.now ≡ line_of self.now }
    {
        if self.is_gathered {
            &self.gathered
        } else {
            &self.piece[self.start..self.end]
        }
    }

    /// Reads up to the next LF, the end of the input, or the first byte past the limit. What was written is
    /// flushed before the source is read.
    pub fn read_line<S: LineSource, W: ByteSink>(
        &mut self,
        source: &mut S,
        sink: &mut W,
        max_line: u32,
    ) -> Result<LineRead, LineFault>
        ensures bytes { ReadsLine max_line (ahead self.old (S.seen source.old).left) (ahead self.new (S.seen source.new).left) (line_of self.new) result }
        ensures empty { IsErrOf result LineFault.ReadFailed → held_of self.new ≡ [] }
        ensures bounded { (rest : List ℕ) → ahead self.old (S.seen source.old).left ≡ Some rest → TakenWithin (max_line + 65536) rest (S.seen source.new).left }
        ensures read_cause { HasCause (IsErrOf result LineFault.ReadFailed) (S.seen source.old).faults (S.seen source.new).faults }
        ensures taken { (W.seen sink.new).taken ≡ (W.seen sink.old).taken }
        ensures flush_cause { HasCause (IsErrOf result LineFault.FlushFailed) (W.seen sink.old).faults (W.seen sink.new).faults }
        ensures dry { (W.seen sink.old).dry ≤ (W.seen sink.new).dry }
        ensures flushed { IsErrOf result LineFault.ReadFailed → IsTrue (W.seen sink.new).flushed }
    {
        self.begin();
        while self.gathered.len() <= max_line as usize {
            match self.next_part(source, sink)? {
                Part::More => {}
                Part::Whole => return self.whole(max_line),
                Part::End => return Ok(self.last()),
            }
        }
        Err(LineFault::TooLong)
    }

    /// The next part of the line: from what is held, else from the source.
    fn next_part<S: LineSource, W: ByteSink>(
        &mut self,
        source: &mut S,
        sink: &mut W,
    ) -> Result<Part, LineFault>
        ensures bytes { GoesOn self.old self.new (S.seen source.old).left (S.seen source.new).left result }
        ensures bounded { (rest : List ℕ) → (S.seen source.old).left ≡ Some rest → TakenWithin (65536 - length (held_of self.old)) rest (S.seen source.new).left }
        ensures read_cause { HasCause (IsErrOf result LineFault.ReadFailed) (S.seen source.old).faults (S.seen source.new).faults }
        ensures taken { (W.seen sink.new).taken ≡ (W.seen sink.old).taken }
        ensures flush_cause { HasCause (IsErrOf result LineFault.FlushFailed) (W.seen sink.old).faults (W.seen sink.new).faults }
        ensures dry { (W.seen sink.old).dry ≤ (W.seen sink.new).dry }
        ensures flushed { IsErrOf result LineFault.ReadFailed → IsTrue (W.seen sink.new).flushed }
    {
        if self.from < self.to {
            return Ok(self.take_part()?);
        }
        match self.fill(source, sink) {
            Filled::Some => Ok(self.take_part()?),
            Filled::End => Ok(Part::End),
            Filled::ReadFailed => Err(LineFault::ReadFailed),
            Filled::FlushFailed => Err(LineFault::FlushFailed),
        }
    }

    /// Whether a byte is to follow.
    pub fn look_ahead<S: LineSource, W: ByteSink>(&mut self, source: &mut S, sink: &mut W) -> Filled
        ensures bytes { FindsByte (ahead self.old (S.seen source.old).left) (ahead self.new (S.seen source.new).left) result }
        ensures empty { result ≡ Filled.ReadFailed → held_of self.new ≡ [] }
        ensures bounded { (rest : List ℕ) → ahead self.old (S.seen source.old).left ≡ Some rest → TakenWithin 65536 rest (S.seen source.new).left }
        ensures read_cause { HasCause (result ≡ Filled.ReadFailed) (S.seen source.old).faults (S.seen source.new).faults }
        ensures taken { (W.seen sink.new).taken ≡ (W.seen sink.old).taken }
        ensures flush_cause { HasCause (result ≡ Filled.FlushFailed) (W.seen sink.old).faults (W.seen sink.new).faults }
        ensures dry { (W.seen sink.old).dry ≤ (W.seen sink.new).dry }
        ensures flushed { result ≡ Filled.ReadFailed → IsTrue (W.seen sink.new).flushed }
    {
        if self.from < self.to {
            return Filled::Some;
        }
        self.fill(source, sink)
    }

    /// Forgets the line that was read last.
    fn begin(&mut self)
        ensures line { (self.new.is_gathered ≡ true) × (self.new.gathered.items ≡ []) }
        ensures held { held_of self.new ≡ held_of self.old }
    {
        self.gathered.clear();
        self.is_gathered = true;
    }

    /// Flushes the sink, so that what was answered has gone on, and then fills the piece from the source.
    fn fill<S: LineSource, W: ByteSink>(&mut self, source: &mut S, sink: &mut W) -> Filled
        requires { held_of self.old ≡ [] }
        ensures flushed { (result ≡ Filled.FlushFailed) ⊎ IsTrue (W.seen sink.new).flushed }
        ensures bytes { Fills (S.seen source.old).left (S.seen source.new).left (held_of self.new) result }
        ensures bounded { (rest : List ℕ) → (S.seen source.old).left ≡ Some rest → TakenWithin 65536 rest (S.seen source.new).left }
        ensures line { (self.new.gathered.items ≡ self.old.gathered.items) × (self.new.is_gathered ≡ self.old.is_gathered) }
        ensures read_cause { HasCause (result ≡ Filled.ReadFailed) (S.seen source.old).faults (S.seen source.new).faults }
        ensures taken { (W.seen sink.new).taken ≡ (W.seen sink.old).taken }
        ensures flush_cause { HasCause (result ≡ Filled.FlushFailed) (W.seen sink.old).faults (W.seen sink.new).faults }
        ensures dry { (W.seen sink.old).dry ≤ (W.seen sink.new).dry }
    {
        match sink.flush() {
            FlushStep::Done => {}
            FlushStep::Failed => return Filled::FlushFailed,
        }
        match source.read(&mut self.piece) {
            ReadStep::Got(0) => Filled::End,
            ReadStep::Got(n) => {
                self.from = 0;
                self.to = n;
                Filled::Some
            }
            ReadStep::End => Filled::End,
            ReadStep::Failed => Filled::ReadFailed,
        }
    }

    /// Takes what is held up to its first LF, or all of it.
    fn take_part(&mut self) -> Result<Part, OutOfMemory>
        ensures { IfOk result (TakesPart self.old self.new) }
    {
        match first_lf(&self.piece[self.from..self.to]) {
            Some(n) => {
                self.end_line(n)?;
                Ok(Part::Whole)
            }
            None => {
                self.gather()?;
                Ok(Part::More)
            }
        }
    }

    /// The line goes on past all that is held.
    fn gather(&mut self) -> Result<(), OutOfMemory>
        ensures line { OnOk result ((self.new.gathered.items ≡ self.old.gathered.items ++ held_of self.old) × (self.new.is_gathered ≡ self.old.is_gathered)) }
        ensures held { OnOk result (held_of self.new ≡ []) }
    {
        self.gathered
            .extend_from_slice(&self.piece[self.from..self.to])?;
        self.from = self.to;
        Ok(())
    }

    /// The line ends with the first n bytes that are held, and an LF is next.
    fn end_line(&mut self, n: usize) -> Result<(), OutOfMemory>
        requires { n < length (held_of self.old) }
        ensures line { OnOk result (line_of self.new ≡ self.old.gathered.items ++ take n (held_of self.old)) }
        ensures held { OnOk result (held_of self.new ≡ drop (n + 1) (held_of self.old)) }
    {
        let end = self.from + n;
        self.set_line(end)?;
        self.from = end + 1;
        Ok(())
    }

    /// The line ends at this place of the piece.
    fn set_line(&mut self, end: usize) -> Result<(), OutOfMemory>
        requires from { self.old.from ≤ end }
        requires to { end ≤ self.old.to }
        ensures line { OnOk result (line_of self.new ≡ self.old.gathered.items ++ slice_range self.old.piece.items self.old.from end) }
        ensures piece { (self.new.piece.items ≡ self.old.piece.items) × (self.new.from ≡ self.old.from) × (self.new.to ≡ self.old.to) }
    {
        if self.gathered.is_empty() {
            self.is_gathered = false;
            self.start = self.from;
            self.end = end;
            return Ok(());
        }
        self.gathered
            .extend_from_slice(&self.piece[self.from..end])?;
        self.is_gathered = true;
        Ok(())
    }

    /// A line that was ended by LF, where it isn't too long.
    fn whole(&self, max_line: u32) -> Result<LineRead, LineFault>
        ensures fits { length (line_of self.now) ≤ max_line → result ≡ Ok LineRead.Line }
        ensures long { max_line < length (line_of self.now) → result ≡ Err LineFault.TooLong }
    {
        if self.line().len() <= max_line as usize {
            Ok(LineRead::Line)
        } else {
            Err(LineFault::TooLong)
        }
    }

    /// What was gathered before the end of the input.
    fn last(&self) -> LineRead
        ensures none { self.now.gathered.items ≡ [] → result ≡ LineRead.End }
        ensures some { 0 < length self.now.gathered.items → result ≡ LineRead.Last }
    {
        if self.gathered.is_empty() {
            LineRead::End
        } else {
            LineRead::Last
        }
    }
}

/// The place of the first LF.
fn first_lf(bytes: &[u8]) -> Option<usize>
    ensures some { IfSome result (λ n. (n < length bytes.now) × IsLine (take n bytes.now) × (drop n bytes.now ≡ 10 ∷ drop (n + 1) bytes.now)) }
    ensures none { IfNone result (IsLine bytes.now) }
{
    memchr(b'\n', bytes)
}
