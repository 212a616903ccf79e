//! What a batch gathers.
ghost use Rattle.std.specs.Prelude.{◌≡◌};
ghost use Rattle.ty_model.specs.Batch as change;
ghost use Rattle.tinymist_vfs.specs.Items.{item_of};

use ty_cells::FileSnapshot;
use ty_path::{CleanPath, ImmutPath};
use ty_syntax::FileId;

/// Paths that are no longer told, and then files that are.
#[derive(Drop)]
pub struct FileChangeSet {
    /// The paths that are no longer told.
    pub removes: Vec<ImmutPath>,
    /// The files that are told from then on, each under its path. The last one of a path stands.
    pub inserts: Vec<(ImmutPath, FileSnapshot)>,
}

/// One change of a batch.
#[derive(Drop)]
pub enum Item {
    /// The path has this shadow from then on.
    MapPath(CleanPath, FileSnapshot),
    /// The path has no shadow any more, and is stamped as dropped, whether it had one or not.
    UnmapPath(CleanPath),
    /// The id has this shadow from then on, whatever its path.
    MapId(FileId, FileSnapshot),
    /// The id has no shadow any more.
    UnmapId(FileId),
    /// Nothing has a shadow any more, and each path that had one is stamped as dropped.
    Clear,
    /// Paths are no longer told and stamped as dropped, and then files are told.
    ChangeSet(FileChangeSet),
    /// The revision rises, whether something differs or not.
    ChangeView,
}

impl Item {
    ghost use Rattle.tinymist_vfs.specs.Items.{item_of};

    pub(crate) fn is_view(&self) -> bool
        ensures { result ≡ change.is_view (item_of self.now) }
    {
        match self {
            Item::ChangeView => true,
            _ => false,
        }
    }
}
