//! What editors and watchers tell of files.
ghost use Rattle.std.specs.Prelude.{◌≡◌};

use crate::batch::item::FileChangeSet;
use ty_path::ImmutPath;

/// Files that an editor holds in memory.
#[derive(Drop)]
pub enum MemoryEvent {
    /// These are all.
    Sync(FileChangeSet),
    /// These changed.
    Update(FileChangeSet),
}

/// What has to be watched anew, and a number that comes back with the answer.
#[derive(Drop)]
pub struct UpstreamUpdateEvent {
    /// The paths that have to be watched anew.
    pub invalidates: Vec<ImmutPath>,
    /// The number that comes back with the answer.
    pub opaque: u64,
}

/// Files that a watcher saw.
#[derive(Drop)]
pub enum FilesystemEvent {
    /// These changed. Where the flag is set, these are all.
    Update(FileChangeSet, bool),
    /// The answer to an upstream event.
    UpstreamUpdate {
        /// What changed.
        changeset: FileChangeSet,
        /// The event that is answered, if there is one.
        upstream_event: Option<UpstreamUpdateEvent>,
    },
}

impl FilesystemEvent {
    ghost use Rattle.tinymist_vfs.specs.ChangeSet.{set_of, upstream_of, sync_of};

    /// The change set, and the upstream event if there is one.
    pub fn split(self) -> (FileChangeSet, Option<UpstreamUpdateEvent>)
        ensures set { result.0 ≡ set_of self }
        ensures upstream { result.1 ≡ upstream_of self }
    {
        match self {
            FilesystemEvent::Update(set, _) => (set, None),
            FilesystemEvent::UpstreamUpdate {
                changeset,
                upstream_event,
            } => (changeset, upstream_event),
        }
    }

    /// The same, and whether these are all files. An upstream update is never all.
    pub fn split_with_is_sync(self) -> (FileChangeSet, Option<UpstreamUpdateEvent>, bool)
        ensures set { result.0 ≡ set_of self }
        ensures upstream { result.1 ≡ upstream_of self }
        ensures sync { result.2 ≡ sync_of self }
    {
        match self {
            FilesystemEvent::Update(set, is_sync) => (set, None, is_sync),
            FilesystemEvent::UpstreamUpdate {
                changeset,
                upstream_event,
            } => (changeset, upstream_event, false),
        }
    }
}

/// What a watcher is told.
#[derive(Drop)]
pub enum NotifyMessage {
    /// Nothing is watched from now on.
    Settle,
    /// These paths are watched from now on, and no other.
    SyncDependency(Vec<ImmutPath>),
    /// Files that were read before may be read again.
    UpstreamUpdate(UpstreamUpdateEvent),
}
