//! Layers of files with revisions, snapshots and reads.
#![tactic(auto)]

mod batch;
mod ids;
mod layers;
mod model;
mod vfs;
mod watch;

pub use batch::Batch;
pub use batch::item::{FileChangeSet, Item};
pub use batch::revise::{HoldsVfs, ReviseFault, RevisingVfs};
pub use ids::display::Resolving;
pub use ids::resolver::{MockRootResolver, PathResolution, RootResolver, WORKSPACE_NS};
pub use ids::workspace::{WorkspaceId, WorkspaceResolution, WorkspaceResolver};
pub use model::access::{AccessModel, ResolveAccessModel};
pub use model::notify::NotifyAccessModel;
pub use model::overlay::OverlayAccessModel;
pub use vfs::Vfs;
pub use watch::deps::NotifyDeps;
pub use watch::event::{FilesystemEvent, MemoryEvent, NotifyMessage, UpstreamUpdateEvent};
