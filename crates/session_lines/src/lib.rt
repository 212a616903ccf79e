//! The streams of a program that answers lines: a source of bytes, a reader of its lines, and a sink for replies.
#![tactic(auto)]

mod line_reader;
mod memory;
mod sink;
mod source;
mod standard;

pub use line_reader::{Filled, LineFault, LineRead, LineReader};
pub use memory::{MemorySink, MemorySource};
pub use sink::{ByteSink, FlushStep, WriteStep, write_all};
pub use source::{LineSource, ReadStep};
pub use standard::{PIECE, StdSink, StdinSource};
