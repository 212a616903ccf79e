//! A session: its lines, one after another, and what it answers.
ghost use Rattle.std.specs.Prelude.{◌≡◌, ◌⊎◌, ◌+◌, ◌^◌, ◌<◌, ◌≤◌, List, ℕ, Some, None, [], Ok, Err, true, false, OnOk, IfOk, IsErrOf, IsTrue};
ghost use Rattle.std.specs.Io.KnownBytes.{IsAtEnd, append_known};
ghost use Rattle.ty_model.specs.Faults.{Rose};
ghost use Rattle.ty_model.specs.Disk.{Told, IsFixed};
ghost use Rattle.session_lines.specs.LineSource.{HasCause, TakenWithin};
ghost use Rattle.session_lines.specs.ByteSink.{HasRefused};
ghost use Rattle.session_lines.specs.LineReader.{ahead, held_of, line_of};
ghost use Rattle.session_grammar.specs.Command.{Command};
ghost use Rattle.session_grammar.specs.Grammar.{command_of};
ghost use Rattle.tinymist_session.specs.Machine.{State, step, opening, LeavesOthers};
ghost use Rattle.tinymist_session.specs.Session.{end_of, replies_to};
ghost use Rattle.tinymist_session.specs.Session as plain;
ghost use Rattle.tinymist_session.specs.Shown.{MachineShows, top_of, next_number};
ghost use Rattle.tinymist_session.specs.Run.{EndFits, Written, UnlessCutOff, Received, replies_received, most_bytes};
ghost use Rattle.tinymist_session.specs.Turns.{TurnReads, TurnSays, PassEnds, PassSays, Broken, ends, replies};
ghost use Rattle.tinymist_session.specs.Arguments.{plain_limits};

use crate::machine::Machine;
use crate::program::arguments::Limits;
use session_grammar::{put_line, read_command};
use session_lines::{
    ByteSink, Filled, FlushStep, LineFault, LineRead, LineReader, LineSource, write_all,
};
use std::alloc::{AllocError, Global};
use thiserror::Error;
use ty_cells::PathAccessModel;
use ty_path::OutOfMemory;

/// Why a session ended before its input did, or after input that is no session.
#[derive(Clone, Copy, Debug, PartialEq, Eq, Error)]
pub enum SessionFault {
    /// The source failed.
    #[error("read fault")]
    ReadFault,
    /// The sink failed, or took nothing of a piece that isn't empty.
    #[error("write fault")]
    WriteFault,
    /// The line of this number, from 1 on, is too long or is no command.
    #[error("bad line {0}")]
    BadLine(u64),
    /// There are more lines than the limit.
    #[error("too many lines")]
    Full,
    /// No memory was left.
    #[error("out of memory")]
    OutOfMemory,
}

impl From<OutOfMemory> for SessionFault {
    ghost use Rattle.tinymist_session.specs.declared.session.SessionFault.TheVariants.{OutOfMemory as no_memory};

    ghost from_gives = { λ _ fault. fault ≡ no_memory };

    fn from(_: OutOfMemory) -> Self {
        SessionFault::OutOfMemory
    }
}

impl From<AllocError> for SessionFault {
    ghost use Rattle.tinymist_session.specs.declared.session.SessionFault.TheVariants.{OutOfMemory as no_memory};

    ghost from_gives = { λ _ fault. fault ≡ no_memory };

    fn from(_: AllocError) -> Self {
        SessionFault::OutOfMemory
    }
}

/// A session under way.
#[derive(Drop)]
struct Session {
    alloc: Global,
    machine: Machine,
    reader: LineReader,
    // The line of the last reply, whose memory serves the next one.
    line: Vec<u8>,
}

impl Session {
    fn new(alloc: Global) -> Result<Session, OutOfMemory>
        ensures shown { IfOk result (λ s. MachineShows s.machine opening) }
        ensures revision { IfOk result (λ s. top_of s.machine ≡ 2) }
        ensures number { IfOk result (λ s. next_number s.machine.tags ≡ 3) }
        ensures held { IfOk result (λ s. held_of s.reader ≡ []) }
    {
        Ok(Session {
            alloc,
            machine: Machine::new(alloc)?,
            reader: LineReader::new(alloc)?,
            line: Vec::new(alloc),
        })
    }

    /// Answers the line that was read last.
    fn turn<W: ByteSink, M: PathAccessModel>(
        &mut self,
        sink: &mut W,
        disk: &mut M,
        number: u64,
    ) -> Result<(), SessionFault>
        requires revision { top_of self.old.machine < 2 ^ 63 }
        requires number { next_number self.old.machine.tags < 2 ^ 63 }
        ensures reads { TurnReads (command_of (line_of self.old.reader)) number result }
        ensures quiet { command_of (line_of self.old.reader) ≡ None → (W.seen sink.new).taken ≡ (W.seen sink.old).taken }
        ensures says { (told : Told) (s : State) (command : Command) → M.told disk.old ≡ Some told → MachineShows self.old.machine s
            → command_of (line_of self.old.reader) ≡ Some command → TurnSays (step s told command) (W.seen sink.old).taken (W.seen sink.new).taken self.new.machine.live self.new.machine.views.items self.new.machine.tags result }
        ensures left { (told : Told) → M.told disk.old ≡ Some told → IsFixed told → M.told disk.new ≡ Some told }
        ensures reader { self.new.reader ≡ self.old.reader }
        ensures revision { top_of self.new.machine ≤ top_of self.old.machine + 1 }
        ensures number { next_number self.new.machine.tags ≤ next_number self.old.machine.tags + 1 }
        ensures faults { (W.seen sink.old).faults ≤ (W.seen sink.new).faults }
        ensures dry { (W.seen sink.old).dry ≤ (W.seen sink.new).dry }
        ensures cause { IsErrOf result SessionFault.WriteFault → HasRefused (W.seen sink.old) (W.seen sink.new) }
    {
        let Some(command) = read_command(self.alloc, self.reader.line())? else {
            return Err(SessionFault::BadLine(number));
        };
        let reply = self.machine.step(disk, command)?;
        put_line(self.alloc, &mut self.line, reply)?;
        if write_all(sink, &self.line) {
            Ok(())
        } else {
            Err(SessionFault::WriteFault)
        }
    }

    /// Reads a line and answers it. `Ok(true)` says that there may be more, `Ok(false)` that the input ended.
    fn pass<S: LineSource, W: ByteSink, M: PathAccessModel>(
        &mut self,
        source: &mut S,
        sink: &mut W,
        disk: &mut M,
        limits: Limits,
        n: u32,
    ) -> Result<bool, SessionFault>
        requires room { n < limits.max_lines }
        requires revision { top_of self.old.machine < 2 ^ 63 }
        requires number { next_number self.old.machine.tags < 2 ^ 63 }
        ensures ends { (rest : List ℕ) → ahead self.old.reader (S.seen source.old).left ≡ Some rest → PassEnds (plain_limits limits) n rest (ahead self.new.reader (S.seen source.new).left) result }
        ensures says { (rest : List ℕ) (told : Told) (s : State) → ahead self.old.reader (S.seen source.old).left ≡ Some rest → M.told disk.old ≡ Some told → MachineShows self.old.machine s
            → PassSays (plain_limits limits) told s n rest (ahead self.new.reader (S.seen source.new).left) (W.seen sink.old).taken (W.seen sink.new).taken self.new.machine.live self.new.machine.views.items self.new.machine.tags result }
        ensures received { (rest : List ℕ) → ahead self.old.reader (S.seen source.old).left ≡ Some rest → IsErrOf result SessionFault.ReadFault → Broken (plain_limits limits) rest (S.seen source.new).left }
        ensures quiet { IsErrOf result SessionFault.ReadFault → (W.seen sink.new).taken ≡ (W.seen sink.old).taken }
        ensures flushed_before_read { IsErrOf result SessionFault.ReadFault → IsTrue (W.seen sink.new).flushed }
        ensures bounded { (rest : List ℕ) → ahead self.old.reader (S.seen source.old).left ≡ Some rest → TakenWithin (limits.max_line + 65536) rest (S.seen source.new).left }
        ensures left { (told : Told) → M.told disk.old ≡ Some told → IsFixed told → M.told disk.new ≡ Some told }
        ensures at_end { result ≡ Ok false → IsAtEnd (ahead self.new.reader (S.seen source.new).left) }
        ensures revision { top_of self.new.machine ≤ top_of self.old.machine + 1 }
        ensures number { next_number self.new.machine.tags ≤ next_number self.old.machine.tags + 1 }
        ensures read_cause { HasCause (IsErrOf result SessionFault.ReadFault) (S.seen source.old).faults (S.seen source.new).faults }
        ensures faults { (W.seen sink.old).faults ≤ (W.seen sink.new).faults }
        ensures dry { (W.seen sink.old).dry ≤ (W.seen sink.new).dry }
        ensures write_cause { IsErrOf result SessionFault.WriteFault → HasRefused (W.seen sink.old) (W.seen sink.new) }
    {
        let number = u64::from(n) + 1;
        match self.reader.read_line(source, sink, limits.max_line) {
            Ok(LineRead::Line) => match self.turn(sink, disk, number) {
                Ok(()) => Ok(true),
                Err(fault) => Err(fault),
            },
            Ok(LineRead::Last) => match self.turn(sink, disk, number) {
                Ok(()) => Ok(false),
                Err(fault) => Err(fault),
            },
            Ok(LineRead::End) => Ok(false),
            Err(LineFault::ReadFailed) => Err(SessionFault::ReadFault),
            Err(LineFault::FlushFailed) => Err(SessionFault::WriteFault),
            Err(LineFault::TooLong) => Err(SessionFault::BadLine(number)),
            Err(LineFault::OutOfMemory) => Err(SessionFault::OutOfMemory),
        }
    }

    /// After the last line that may come: nothing is to follow.
    fn close<S: LineSource, W: ByteSink>(
        &mut self,
        source: &mut S,
        sink: &mut W,
    ) -> Result<(), SessionFault>
        ensures ends { (limits : plain.Limits) (rest : List ℕ) → ahead self.old.reader (S.seen source.old).left ≡ Some rest → EndFits (ends limits limits.max_lines rest) result }
        ensures silent { (limits : plain.Limits) (told : Told) (s : State) (rest : List ℕ) → ahead self.old.reader (S.seen source.old).left ≡ Some rest → UnlessCutOff result (replies limits told s limits.max_lines rest ≡ []) }
        ensures received { (rest : List ℕ) → ahead self.old.reader (S.seen source.old).left ≡ Some rest → IsErrOf result SessionFault.ReadFault → (S.seen source.new).left ≡ Some rest }
        ensures bounded { (rest : List ℕ) → ahead self.old.reader (S.seen source.old).left ≡ Some rest → TakenWithin 65536 rest (S.seen source.new).left }
        ensures taken { (W.seen sink.new).taken ≡ (W.seen sink.old).taken }
        ensures at_end { OnOk result (IsAtEnd (ahead self.new.reader (S.seen source.new).left)) }
        ensures flushed_before_read { IsErrOf result SessionFault.ReadFault → IsTrue (W.seen sink.new).flushed }
        ensures read_cause { HasCause (IsErrOf result SessionFault.ReadFault) (S.seen source.old).faults (S.seen source.new).faults }
        ensures faults { (W.seen sink.old).faults ≤ (W.seen sink.new).faults }
        ensures dry { (W.seen sink.old).dry ≤ (W.seen sink.new).dry }
        ensures write_cause { IsErrOf result SessionFault.WriteFault → HasRefused (W.seen sink.old) (W.seen sink.new) }
    {
        match self.reader.look_ahead(source, sink) {
            Filled::Some => Err(SessionFault::Full),
            Filled::End => Ok(()),
            Filled::ReadFailed => Err(SessionFault::ReadFault),
            Filled::FlushFailed => Err(SessionFault::WriteFault),
        }
    }

    /// Answers all lines.
    fn run<S: LineSource, W: ByteSink, M: PathAccessModel>(
        &mut self,
        source: &mut S,
        sink: &mut W,
        disk: &mut M,
        limits: Limits,
    ) -> Result<(), SessionFault>
        requires shown { MachineShows self.old.machine opening }
        requires revision { top_of self.old.machine ≡ 2 }
        requires number { next_number self.old.machine.tags ≡ 3 }
        requires held { held_of self.old.reader ≡ [] }
        ensures ends { (input : List ℕ) → (S.seen source.old).left ≡ Some input → EndFits (end_of (plain_limits limits) input) result }
        ensures written { (input : List ℕ) (told : Told) → (S.seen source.old).left ≡ Some input → M.told disk.old ≡ Some told → IsFixed told
            → Written (replies_to (plain_limits limits) told input) (W.seen sink.old).taken (W.seen sink.new).taken result }
        ensures received { (input : List ℕ) → (S.seen source.old).left ≡ Some input → IsErrOf result SessionFault.ReadFault → Received (plain_limits limits) input (S.seen source.new).left }
        ensures answered { (input : List ℕ) (told : Told) → (S.seen source.old).left ≡ Some input → M.told disk.old ≡ Some told → IsFixed told → IsErrOf result SessionFault.ReadFault
            → (lines : Received (plain_limits limits) input (S.seen source.new).left) × ((W.seen sink.new).taken ≡ append_known (W.seen sink.old).taken (replies_received (plain_limits limits) told input (S.seen source.new).left lines)) }
        ensures bounded { (input : List ℕ) → (S.seen source.old).left ≡ Some input → TakenWithin (most_bytes (plain_limits limits)) input (S.seen source.new).left }
        ensures read { OnOk result (IsAtEnd (S.seen source.new).left) }
        ensures left { (told : Told) → M.told disk.old ≡ Some told → IsFixed told → M.told disk.new ≡ Some told }
        ensures flushed_before_read { IsErrOf result SessionFault.ReadFault → IsTrue (W.seen sink.new).flushed }
        ensures read_cause { IsErrOf result SessionFault.ReadFault → Rose (S.seen source.old).faults (S.seen source.new).faults }
        ensures faults { (W.seen sink.old).faults ≤ (W.seen sink.new).faults }
        ensures dry { (W.seen sink.old).dry ≤ (W.seen sink.new).dry }
        ensures write_cause { IsErrOf result SessionFault.WriteFault → HasRefused (W.seen sink.old) (W.seen sink.new) }
    {
        for n in 0..limits.max_lines {
            match self.pass(source, sink, disk, limits, n) {
                Ok(true) => {}
                Ok(false) => return Ok(()),
                Err(fault) => return Err(fault),
            }
        }
        self.close(source, sink)
    }
}

/// Flushes what was written, but after a fault of the source or the sink, where nothing more is asked of either. A
/// flush that fails is a write fault, but after out of memory.
#[tactic(auto, using(crate::proofs::Told::flushed_or_rose))]
fn finish<W: ByteSink>(sink: &mut W, answer: Result<(), SessionFault>) -> Result<(), SessionFault>
    ensures same { (result ≡ answer) ⊎ (result ≡ Err SessionFault.WriteFault) }
    ensures taken { (W.seen sink.new).taken ≡ (W.seen sink.old).taken }
    ensures flushed { UnlessCutOff result (IsTrue (W.seen sink.new).flushed) }
    ensures flushed_without_memory { IsErrOf answer SessionFault.OutOfMemory → IsTrue (W.seen sink.new).flushed ⊎ Rose (W.seen sink.old).faults (W.seen sink.new).faults }
    ensures untouched { IsErrOf answer SessionFault.ReadFault ⊎ IsErrOf answer SessionFault.WriteFault → sink.new ≡ sink.old }
    ensures faults { (W.seen sink.old).faults ≤ (W.seen sink.new).faults }
    ensures dry { (W.seen sink.old).dry ≤ (W.seen sink.new).dry }
    ensures cause { IsErrOf result SessionFault.WriteFault → IsErrOf answer SessionFault.WriteFault ⊎ Rose (W.seen sink.old).faults (W.seen sink.new).faults }
{
    match answer {
        Err(SessionFault::ReadFault) => answer,
        Err(SessionFault::WriteFault) => answer,
        Err(SessionFault::OutOfMemory) => {
            let _flushed = sink.flush();
            answer
        }
        _ => match sink.flush() {
            FlushStep::Done => answer,
            FlushStep::Failed => Err(SessionFault::WriteFault),
        },
    }
}

/// Runs a session: reads lines from the source, answers each into the sink, and flushes the sink before each
/// read that may wait and at the end.
///
/// # Errors
///
/// `BadLine(n)` and `Full` exactly where the input ends so, `ReadFault` and `WriteFault` only where a count
/// of the source or the sink rose, and out of memory, after which what was
/// answered is flushed too.
pub fn run_session<S: LineSource, W: ByteSink, M: PathAccessModel>(
    alloc: Global,
    source: &mut S,
    sink: &mut W,
    disk: &mut M,
    limits: Limits,
) -> Result<(), SessionFault>
    // What is answered.
    ensures ends { (input : List ℕ) → (S.seen source.old).left ≡ Some input → EndFits (end_of (plain_limits limits) input) result }
    ensures written { (input : List ℕ) (told : Told) → (S.seen source.old).left ≡ Some input → M.told disk.old ≡ Some told → IsFixed told
        → Written (replies_to (plain_limits limits) told input) (W.seen sink.old).taken (W.seen sink.new).taken result }
    // What was answered where a read failed.
    ensures received { (input : List ℕ) → (S.seen source.old).left ≡ Some input → IsErrOf result SessionFault.ReadFault → Received (plain_limits limits) input (S.seen source.new).left }
    ensures answered { (input : List ℕ) (told : Told) → (S.seen source.old).left ≡ Some input → M.told disk.old ≡ Some told → IsFixed told → IsErrOf result SessionFault.ReadFault
        → (lines : Received (plain_limits limits) input (S.seen source.new).left) × ((W.seen sink.new).taken ≡ append_known (W.seen sink.old).taken (replies_received (plain_limits limits) told input (S.seen source.new).left lines)) }
    // How far the input is read.
    ensures bounded { (input : List ℕ) → (S.seen source.old).left ≡ Some input → TakenWithin (most_bytes (plain_limits limits)) input (S.seen source.new).left }
    ensures read { OnOk result (IsAtEnd (S.seen source.new).left) }
    // What stays.
    ensures left { (told : Told) → M.told disk.old ≡ Some told → IsFixed told → M.told disk.new ≡ Some told }
    // What has gone on.
    ensures flushed_before_read { IsErrOf result SessionFault.ReadFault → IsTrue (W.seen sink.new).flushed }
    ensures flushed { UnlessCutOff result (IsTrue (W.seen sink.new).flushed) }
    ensures flushed_without_memory { IsErrOf result SessionFault.OutOfMemory → IsTrue (W.seen sink.new).flushed ⊎ Rose (W.seen sink.old).faults (W.seen sink.new).faults }
    // What a fault comes of.
    ensures read_cause { IsErrOf result SessionFault.ReadFault → Rose (S.seen source.old).faults (S.seen source.new).faults }
    ensures write_cause { IsErrOf result SessionFault.WriteFault → HasRefused (W.seen sink.old) (W.seen sink.new) }
    // What the definition of a step leaves alone.
    ensures others { LeavesOthers }
{
    let mut session = match Session::new(alloc) {
        Ok(session) => session,
        Err(OutOfMemory) => return finish(sink, Err(SessionFault::OutOfMemory)),
    };
    let answer = session.run(source, sink, disk, limits);
    finish(sink, answer)
}
