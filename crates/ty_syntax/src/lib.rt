//! Ids, virtual paths, specifications, bytes and the errors of files, as values; sources and their lines; and the
//! counters of tags.
#![tactic(auto)]

mod bytes;
mod common;
mod edit;
mod entry;
mod error;
mod id;
mod lines;
mod place;
mod source;
mod spec;
mod spec_key;
mod tags;
mod text;
mod vpath;

pub use bytes::Bytes;
pub use edit::EditFault;
pub use entry::{detached_entry, memory_main_entry};
pub use error::{FileError, FileFault, FileResult, PackageError};
pub use id::{FileId, Root};
pub use lines::Lines;
pub use place::Place;
pub use source::Source;
pub use spec::{PackageSpec, PackageVersion, VersionlessPackageSpec};
pub use spec_key::SpecKey;
pub use tags::{TagFault, Tags};
pub use text::text_of;
pub use vpath::{PathFault, VirtualPath};
