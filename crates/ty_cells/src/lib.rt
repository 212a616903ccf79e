//! Disks, and what they say of files.
#![tactic(auto)]

mod cells;
mod disk;
mod dummy;
mod map_access;
mod snapshot;
mod system;

pub use cells::OwnCells;
pub use disk::PathAccessModel;
pub use dummy::DummyAccessModel;
pub use map_access::MapAccess;
pub use snapshot::FileSnapshot;
pub use system::{LazyFile, SystemAccessModel, SystemFileMeta};
