//! The id of a path, and where an id stands, when no package is listed.
ghost use Rattle.std.specs.Prelude.{◌≡◌, IfOk};
ghost use Rattle.std.specs.FinMap as finmap;
ghost use Rattle.ty_model.specs.Places as model;
ghost use Rattle.tinymist_plain.specs.Stands.{place_said};

use std::alloc::Global;
use ty_path::{OutOfMemory, Share, file_name, is_absolute, parent};
use ty_syntax::{FileError, FileId, PackageError, PathFault, Root, VirtualPath};

/// Where an id stands.
#[derive(Drop)]
pub(crate) enum Place {
    /// At a path.
    At(String),
    /// Nowhere: it is of no workspace.
    Rootless,
    /// Nowhere, because of this error.
    RefusedAt(FileError),
}

/// The id of an absolute path, in the workspace of its parent, where it has one.
pub(crate) fn id_by_parent(alloc: Global, path: &str) -> Result<Option<FileId>, OutOfMemory>
    ensures { IfOk result (λ id. id ≡ model.id_by_parent path.now) }
{
    if !is_absolute(path) {
        return Ok(None);
    }
    let Some(root) = parent(alloc, path)? else {
        return Ok(None);
    };
    let Some(name) = file_name(alloc, path)? else {
        return Ok(None);
    };
    match VirtualPath::new(alloc, name.as_str()) {
        Ok(vpath) => Ok(Some(FileId::intern(alloc, Root::Workspace(root), vpath)?)),
        Err(PathFault::OutOfMemory) => Err(OutOfMemory),
        Err(_) => Ok(None),
    }
}

/// Where an id stands, when no package is listed.
pub(crate) fn place_of(alloc: Global, id: &FileId) -> Result<Place, OutOfMemory>
    ensures { IfOk result (λ place. place_said place ≡ model.place_of finmap.empty id.now) }
{
    match id.root() {
        Root::Workspace(root) => Ok(Place::At(id.vpath().realize(alloc, root.as_str())?)),
        Root::Project | Root::UntitledRooted(_) => Ok(Place::Rootless),
        Root::Package(spec) => {
            if spec.namespace.as_str() == "ws" {
                return Ok(Place::RefusedAt(FileError::Other(None)));
            }
            let missing = PackageError::NotFound(spec.share(alloc)?);
            Ok(Place::RefusedAt(FileError::Package(missing)))
        }
    }
}
