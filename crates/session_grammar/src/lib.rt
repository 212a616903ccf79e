//! The language of a session: how a line reads as a command, and how a reply is written as a line.
#![tactic(auto)]

mod changes;
mod command;
mod contents;
mod digits;
mod fields;
mod read_error;
mod reply;
mod words;

pub use command::{Command, Target, read_command};
pub use contents::{ContentWord, IdWord};
pub use reply::{Reply, line_of, put_line};
pub use tinymist_vfs::{FileChangeSet, Item};
pub use ty_path::CleanPath;
pub use words::number;
