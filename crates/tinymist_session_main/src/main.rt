//! The program: a session over standard input and output, and the files of the system.
#![tactic(auto)]

use std::alloc::Global;
use std::env;
use std::io::{BufWriter, ErrorKind};
use std::process::ExitCode;
use std::rt::Env;
use tinymist_session::{
    ByteSink, PIECE, StdSink, StdinSource, bad_words, out_of_memory, run_program,
};
use ty_cells::SystemAccessModel;

fn main(rt: HostRuntime) -> ExitCode {
    let mut faults = StdSink::new(rt.stderr());
    let words = match words(&rt, &mut faults) {
        Ok(words) => words,
        Err(status) => return ExitCode::from(status),
    };
    let Ok(mut source) = StdinSource::new(rt.alloc(), rt.stdin()) else {
        return ExitCode::from(out_of_memory(&mut faults));
    };
    let Ok(writer) = BufWriter::with_capacity(rt.alloc(), PIECE, rt.stdout()) else {
        return ExitCode::from(out_of_memory(&mut faults));
    };
    let mut sink = StdSink::new(writer);
    let alloc = rt.alloc();
    let mut disk = SystemAccessModel::new(rt);
    ExitCode::from(run_program(
        alloc,
        &words,
        &mut source,
        &mut sink,
        &mut faults,
        &mut disk,
    ))
}

/// The arguments after the program's name, or the status where they can't be had, whose line is told: one that isn't
/// UTF-8 is a bad argument.
fn words<F: ByteSink>(rt: &(impl Env + AllocGlobal), faults: &mut F) -> Result<Vec<String>, u8> {
    match env::args(rt) {
        Ok(all) => match all.skip(1).collect(rt.alloc()) {
            Ok(words) => Ok(words),
            Err(_) => Err(out_of_memory(faults)),
        },
        Err(error) => match error.kind() {
            ErrorKind::OutOfMemory => Err(out_of_memory(faults)),
            _ => Err(bad_words(faults)),
        },
    }
}
