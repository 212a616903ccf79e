//! The program: its arguments and its exit status.
ghost use Rattle.std.specs.Prelude.{◌≡◌, ◌⊎◌, ◌↔◌, ℕ, map, Some, None, Err, Result};
ghost use Rattle.std.specs.String.{string_bytes};
ghost use Rattle.tinymist_session.specs.declared.session.SessionFault.{SessionFault};
ghost use Rattle.tinymist_session.specs.Session.{Limits};
ghost use Rattle.tinymist_session.specs.Arguments.{limits_of as limits_in};
ghost use Rattle.tinymist_session.specs.Run.{Answered, IsTold, status_of, fault_line, bad_words_line};

pub(crate) mod arguments;

use crate::program::arguments::limits_of;
use crate::session::{SessionFault, run_session};
use session_lines::{ByteSink, LineSource, write_all};
use std::alloc::Global;
use ty_cells::PathAccessModel;

/// The status where no memory was left.
const OUT_OF_MEMORY: u8 = 5;

/// The status of arguments of no stated form.
const BAD_WORDS: u8 = 6;

/// The fault line where no memory was left.
const NO_MEMORY: &str = "out of memory\n";

/// Runs the program with these arguments, which follow its name, and answers its exit status.
///
/// No arguments, or `session` and then `--max-line N` and `--max-lines N` in any order and each at most once, run a
/// session. Its status is 0, 1 of a read fault, 2 of a write fault, 3 of a bad line, 4 of too many lines or 5 of
/// out of memory. All other arguments have the status 6. `faults` is told one line for each status but 0.
pub fn run_program<S: LineSource, W: ByteSink, F: ByteSink, M: PathAccessModel>(
    alloc: Global,
    words: &[String],
    source: &mut S,
    sink: &mut W,
    faults: &mut F,
    disk: &mut M,
) -> u8
    // Arguments of no stated form.
    ensures bad_words { (result ≡ 6) ↔ (limits_in (map string_bytes words.now) ≡ None) }
    ensures untouched { result ≡ 6 → (source.new ≡ source.old) × (sink.new ≡ sink.old) × (disk.new ≡ disk.old) }
    ensures refused { result ≡ 6 → IsTold bad_words_line (F.seen faults.old) (F.seen faults.new) }
    // A session with the limits that the arguments state.
    ensures session { (limits : Limits) → limits_in (map string_bytes words.now) ≡ Some limits → (r : Result (Unit {0}) SessionFault) × (result ≡ status_of r)
        × Answered limits (S.seen source.old) (S.seen source.new) (M.told disk.old) (M.told disk.new) (W.seen sink.old) (W.seen sink.new) r
        × IsTold (fault_line r) (F.seen faults.old) (F.seen faults.new) }
{
    let Some(limits) = limits_of(words) else {
        return bad_words(faults);
    };
    let answer = run_session(alloc, source, sink, disk, limits);
    exit_status(tell_answer(alloc, faults, answer))
}

/// Tells that the arguments are of no stated form, and answers the status.
pub fn bad_words<F: ByteSink>(faults: &mut F) -> u8
    ensures status { result ≡ 6 }
    ensures told { IsTold bad_words_line (F.seen faults.old) (F.seen faults.new) }
{
    tell(faults, "bad words\n");
    BAD_WORDS
}

/// Tells that no memory was left, and answers the status.
pub fn out_of_memory<F: ByteSink>(faults: &mut F) -> u8
    ensures status { result ≡ 5 }
    ensures told { IsTold (fault_line (Err SessionFault.OutOfMemory)) (F.seen faults.old) (F.seen faults.new) }
{
    tell(faults, NO_MEMORY);
    OUT_OF_MEMORY
}

/// Tells the line of an answer, and gives the answer that was told: out of memory where the line found none.
fn tell_answer<F: ByteSink>(
    alloc: Global,
    faults: &mut F,
    answer: Result<(), SessionFault>,
) -> Result<(), SessionFault>
    ensures same { (result ≡ answer) ⊎ ((n : ℕ) × (answer ≡ Err (SessionFault.BadLine n)) × (result ≡ Err SessionFault.OutOfMemory)) }
    ensures told { IsTold (fault_line result) (F.seen faults.old) (F.seen faults.new) }
{
    match answer {
        Ok(()) => {}
        Err(SessionFault::ReadFault) => tell(faults, "read fault\n"),
        Err(SessionFault::WriteFault) => tell(faults, "write fault\n"),
        Err(SessionFault::BadLine(n)) => match format!(in alloc; "bad line {n}\n") {
            Ok(line) => tell(faults, &line),
            Err(_) => {
                tell(faults, NO_MEMORY);
                return Err(SessionFault::OutOfMemory);
            }
        },
        Err(SessionFault::Full) => tell(faults, "too many lines\n"),
        Err(SessionFault::OutOfMemory) => tell(faults, NO_MEMORY),
    }
    answer
}

/// Tells a line, as far as the sink takes it.
fn tell<F: ByteSink>(faults: &mut F, line: &str)
    ensures { IsTold line.now (F.seen faults.old) (F.seen faults.new) }
{
    let _taken = write_all(faults, line.as_bytes());
    let _flushed = faults.flush();
}

/// The exit status of a session's answer.
fn exit_status(answer: Result<(), SessionFault>) -> u8
    ensures { result ≡ status_of answer }
{
    match answer {
        Ok(()) => 0,
        Err(SessionFault::ReadFault) => 1,
        Err(SessionFault::WriteFault) => 2,
        Err(SessionFault::BadLine(_)) => 3,
        Err(SessionFault::Full) => 4,
        Err(SessionFault::OutOfMemory) => OUT_OF_MEMORY,
    }
}
