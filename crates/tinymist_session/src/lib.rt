//! A session over a stream of command lines: the machine that answers them, its loop, and the program's top call.
#![tactic(auto)]

mod machine;
mod program;
mod session;

pub use program::arguments::{DEFAULT_LIMITS, Limits};
pub use program::{bad_words, out_of_memory, run_program};
pub use session::{SessionFault, run_session};
pub use session_grammar::{
    CleanPath, Command, ContentWord, FileChangeSet, IdWord, Item, Reply, Target, line_of,
    read_command,
};
pub use session_lines::{
    ByteSink, FlushStep, LineSource, MemorySink, MemorySource, PIECE, ReadStep, StdSink,
    StdinSource, WriteStep,
};
