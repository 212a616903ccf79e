//! Where ids stand under a version, and what its overlays hold.
ghost use Rattle.std.specs.Prelude.{◌≡◌, IfOk, map as list_map};
ghost use Rattle.std.specs.FinMap as map;
ghost use Rattle.ty_path.specs.Shared.{path_text};
ghost use Rattle.tinymist_vfs.specs.Maps.{path_map, id_map};
ghost use Rattle.tinymist_vfs.specs.RootResolver.{SaysPlace, SaysIdRoot, StandsBelow, root_of_id};

use crate::ids::resolver::{PathResolution, RootResolver};
use crate::vfs::Vfs;
use std::alloc::Global;
use ty_cells::FileSnapshot;
use ty_path::{ImmutPath, OutOfMemory, Share};
use ty_persist::Map;
use ty_syntax::{FileId, FileResult};

impl<R: RootResolver> Vfs<R> {
    /// The path of an id, or that it has none. A path lies below the id's workspace or package.
    ///
    /// # Errors
    ///
    /// The refusal of the id's package, or `Other` of a package that names a workspace.
    pub fn file_path(&self, id: &FileId) -> FileResult<PathResolution>
        ensures place { SaysPlace (R.known self.now.resolver) id.now result }
        ensures below { StandsBelow (root_of_id (R.known self.now.resolver) id.now) result }
    {
        self.resolver.path_for_id(self.alloc, id)
    }

    /// The root of an id, if it has one.
    ///
    /// # Errors
    ///
    /// As `file_path`.
    pub fn resolve_root(&self, id: &FileId) -> FileResult<Option<ImmutPath>>
        ensures { SaysIdRoot (root_of_id (R.known self.now.resolver) id.now) result }
    {
        self.resolver.resolve_root(self.alloc, id)
    }
}

impl<R> Vfs<R> {
    /// The paths of the overlay by path, ascending.
    pub fn shadow_paths(&self) -> Result<Vec<ImmutPath>, OutOfMemory>
        ensures { IfOk result (λ paths. list_map path_text paths.items ≡ map.keys self.now.held.layers.by_path) }
    {
        paths_of(self.alloc, &self.layers.by_path)
    }

    /// The ids of the overlay by id, ascending.
    pub fn shadow_ids(&self) -> Result<Vec<FileId>, OutOfMemory>
        ensures { IfOk result (λ ids. ids.items ≡ map.keys self.now.held.layers.by_id) }
    {
        ids_of(self.alloc, &self.layers.by_id)
    }
}

fn paths_of(
    alloc: Global,
    files: &Map<ImmutPath, FileSnapshot>,
) -> Result<Vec<ImmutPath>, OutOfMemory>
    ensures { IfOk result (λ paths. list_map path_text paths.items ≡ map.keys (path_map files.now.entries)) }
{
    let mut paths = Vec::new(alloc);
    for (path, _) in files.iter() {
        paths.push(path.share(alloc)?)?;
    }
    Ok(paths)
}

fn ids_of(alloc: Global, files: &Map<FileId, FileSnapshot>) -> Result<Vec<FileId>, OutOfMemory>
    ensures { IfOk result (λ ids. ids.items ≡ map.keys (id_map files.now.entries)) }
{
    let mut ids = Vec::new(alloc);
    for (id, _) in files.iter() {
        ids.push(id.share(alloc)?)?;
    }
    Ok(ids)
}
