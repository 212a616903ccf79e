//! The path of an id: what a root stands for, and the roots of packages.
ghost use Rattle.std.specs.Prelude.{◌≡◌, IfOk, true, false};
ghost use Rattle.std.specs.FinMap as map;
ghost use Rattle.ty_model.specs.Places.{Resolver, package_root, is_workspace_spec};
ghost use Rattle.ty_path.specs.Shared.{path_text};
ghost use Rattle.ty_syntax.specs.Spec.{spec_of};
ghost use Rattle.tinymist_vfs.specs.RootResolver.{SaysRoot};

use std::alloc::Global;
use std::sync::Arc;
use ty_path::{ImmutPath, OutOfMemory, Share};
use ty_syntax::{
    FileError, FileFault, FileId, FileResult, PackageError, PackageSpec, Root, VirtualPath,
};

/// The namespace of packages that name files of a workspace.
pub const WORKSPACE_NS: &str = "ws";

/// Where an id stands.
#[derive(Drop)]
pub enum PathResolution {
    /// At this path.
    Resolved(String),
    /// At no path: only an overlay by id has it.
    Rootless(VirtualPath),
}

impl PathResolution {
    ghost use Rattle.tinymist_vfs.specs.RootResolver.{path_in};

    /// The path.
    ///
    /// # Errors
    ///
    /// `AccessDenied` exactly where there is none.
    pub fn to_err(self) -> FileResult<String>
        ensures { result ≡ path_in self }
    {
        match self {
            PathResolution::Resolved(path) => Ok(path),
            PathResolution::Rootless(_) => Err(FileFault::File(FileError::AccessDenied)),
        }
    }
}

/// Tells the path of an id by its root.
pub trait RootResolver: Sized + Drop {
    ghost use Rattle.ty_model.specs.Places.{Resolver, package_root};
    ghost use Rattle.ty_syntax.specs.Spec.{spec_of};
    ghost use Rattle.tinymist_vfs.specs.RootResolver.{SaysRoot, SaysPlace, SaysIdRoot, StandsBelow, root_of_id};

    /// The packages that it lists.
    ghost known: { Self → Resolver };

    /// The root of a package. It refuses with `FileError::Package` alone.
    fn resolve_package_root(&self, alloc: Global, spec: &PackageSpec) -> FileResult<ImmutPath>
        ensures { SaysRoot (package_root (known self.now) (spec_of spec.now)) result };

    /// An equal resolver.
    fn share(&self, alloc: Global) -> Result<Self, OutOfMemory>
        ensures { IfOk result (λ other. other ≡ self.now) };

    /// The path of an id: below the workspace or the package that is its root, or none.
    ///
    /// # Errors
    ///
    /// The refusal of the package, and `Other` for a package that names files of a workspace.
    fn path_for_id(&self, alloc: Global, id: &FileId) -> FileResult<PathResolution>
        ensures place { SaysPlace (known self.now) id.now result }
        ensures below { StandsBelow (root_of_id (known self.now) id.now) result }
    {
        match id.root() {
            Root::Workspace(root) => {
                let path = id.vpath().realize(alloc, root.as_str())?;
                Ok(PathResolution::Resolved(path))
            }
            Root::Project | Root::UntitledRooted(_) => {
                Ok(PathResolution::Rootless(id.vpath().share(alloc)?))
            }
            Root::Package(spec) => {
                if names_workspace(spec) {
                    return Err(FileFault::File(FileError::Other(None)));
                }
                let root = self.resolve_package_root(alloc, spec)?;
                let path = id.vpath().realize(alloc, root.as_str())?;
                Ok(PathResolution::Resolved(path))
            }
        }
    }

    /// The root of an id: its workspace or package, or none.
    ///
    /// # Errors
    ///
    /// As those of `path_for_id`.
    fn resolve_root(&self, alloc: Global, id: &FileId) -> FileResult<Option<ImmutPath>>
        ensures { SaysIdRoot (root_of_id (known self.now) id.now) result }
    {
        match id.root() {
            Root::Workspace(root) | Root::UntitledRooted(root) => {
                Ok(Some(shared_text(alloc, root.as_str())?))
            }
            Root::Project => Ok(None),
            Root::Package(spec) => {
                if names_workspace(spec) {
                    return Err(FileFault::File(FileError::Other(None)));
                }
                Ok(Some(self.resolve_package_root(alloc, spec)?))
            }
        }
    }
}

pub(crate) fn shared_text(alloc: Global, text: &str) -> Result<ImmutPath, OutOfMemory>
    ensures { IfOk result (λ path. path_text path ≡ text.now) }
{
    Ok(Arc::new(alloc, String::from_str(alloc, text)?)?)
}

pub(crate) fn names_workspace(spec: &PackageSpec) -> bool
    ensures { result ≡ is_workspace_spec (spec_of spec.now) }
{
    spec.namespace.as_str() == WORKSPACE_NS
}

/// A resolver that lists no package.
#[derive(Clone, Copy, Debug)]
pub struct MockRootResolver;

impl RootResolver for MockRootResolver {
    ghost use Rattle.std.specs.FinMap as map;

    ghost known = { λ _. map.empty };

    fn resolve_package_root(&self, alloc: Global, spec: &PackageSpec) -> FileResult<ImmutPath> {
        Err(FileFault::File(FileError::Package(PackageError::NotFound(spec.share(alloc)?))))
    }

    fn share(&self, _alloc: Global) -> Result<MockRootResolver, OutOfMemory> {
        Ok(*self)
    }
}
