//! A registry without packages.
ghost use Rattle.std.specs.Prelude.{◌≡◌, [], None};
ghost use Rattle.std.specs.FinMap as map;

use crate::fault::{PackageFault, PackageResult};
use crate::index::PackageIndexEntry;
use crate::registry::PackageRegistry;
use std::alloc::Global;
use ty_path::{ImmutPath, Share};
use ty_syntax::{PackageError, PackageSpec};

/// A registry without packages.
#[derive(Clone, Copy, Debug)]
pub struct DummyRegistry;

impl DummyRegistry {
    /// The folders in which it looks for packages: none.
    pub fn paths(&self) -> &[ImmutPath]
        ensures { result.now ≡ [] }
    {
        &[]
    }
}

impl PackageRegistry for DummyRegistry {
    ghost listing = { λ _. map.empty };

    ghost stated = { λ _. None };

    ghost offers = { λ _. [] };

    fn reset(&mut self) {}

    fn revision(&self) -> Option<u64> {
        None
    }

    fn resolve(&self, alloc: Global, spec: &PackageSpec) -> PackageResult<ImmutPath> {
        Err(PackageFault::Package(PackageError::NotFound(spec.share(alloc)?)))
    }

    fn packages(&self) -> &[PackageIndexEntry] {
        &[]
    }

    ghost alike = { λ a b n h k spec. absurd (Prim.cc) };
}
