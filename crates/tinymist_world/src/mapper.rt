//! The path of an id, where a registry knows the roots of packages.
ghost use Rattle.std.specs.Prelude.{◌≡◌, IfOk};
ghost use Rattle.std.specs.Arc.{arc_value};

use std::alloc::Global;
use std::marker::Model;
use std::sync::Arc;
use tinymist_package::{PackageFault, PackageRegistry};
use tinymist_vfs::RootResolver;
use ty_path::{ImmutPath, OutOfMemory};
use ty_syntax::{FileError, FileFault, FileResult, PackageSpec};

/// A resolver over a registry, which its shares have in common. Contracts see the registry.
#[derive(Drop)]
pub struct RegistryPathMapper<T> {
    registry: Arc<T>,
}

impl<T> Model for RegistryPathMapper<T> {
    ghost use Rattle.std.specs.Arc.{arc_value};

    ghost Value = { T };

    ghost coded = { T.code };

    ghost view = { λ m. arc_value m.registry };
}

impl<T> RegistryPathMapper<T> {
    /// The resolver over a registry.
    pub fn new(registry: Arc<T>) -> RegistryPathMapper<T>
        ensures { result ≡ arc_value registry }
    {
        RegistryPathMapper { registry }
    }
}

impl<T: PackageRegistry> RootResolver for RegistryPathMapper<T> {
    ghost known = { T.listing };

    /// A registry's refusal is that of the file.
    #[tactic(auto, using(crate::proofs::Mapped::found_root, crate::proofs::Mapped::refused_root))]
    fn resolve_package_root(&self, alloc: Global, spec: &PackageSpec) -> FileResult<ImmutPath> {
        match self.registry.resolve(alloc, spec) {
            Ok(path) => Ok(path),
            Err(PackageFault::Package(error)) => Err(FileFault::File(FileError::Package(error))),
            Err(PackageFault::OutOfMemory) => Err(FileFault::OutOfMemory),
        }
    }

    fn share(&self, _alloc: Global) -> Result<RegistryPathMapper<T>, OutOfMemory> {
        Ok(RegistryPathMapper {
            registry: Arc::try_clone(&self.registry)?,
        })
    }
}
