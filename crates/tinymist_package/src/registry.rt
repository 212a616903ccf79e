//! Registries: which packages there are, and where they stand.
ghost use Rattle.std.specs.Prelude.{◌≡◌, ℕ, List, Option, Some};
ghost use Rattle.std.specs.FinMap as map;
ghost use Rattle.ty_model.specs.Values as plain;
ghost use Rattle.ty_model.specs.Places.{Resolver};
ghost use Rattle.ty_syntax.specs.Spec.{spec_of};
ghost use Rattle.tinymist_package.specs.Registry.{root_in, IsRoot};
ghost use Rattle.tinymist_package.specs.declared.index.PackageIndexEntry.{PackageIndexEntry};

mod dummy;
mod memory;

use crate::fault::PackageResult;
use crate::index::PackageIndexEntry;
pub use dummy::DummyRegistry;
pub use memory::MemoryRegistry;
use std::alloc::Global;
use ty_path::ImmutPath;
use ty_syntax::PackageSpec;

/// What knows where packages stand. Two registries of one type that state one revision list the same roots and refusals.
pub trait PackageRegistry: Drop {
    /// The packages that it lists, each with its root or a refusal.
    ghost listing: { Self → Resolver };

    /// The revision that it states, if it states one.
    ghost stated: { Self → Option ℕ };

    /// The packages that it offers.
    ghost offers: { Self → List PackageIndexEntry };

    /// Forgets what it keeps to answer faster. Its answers stay.
    fn reset(&mut self)
        ensures listing { listing self.new ≡ listing self.old }
        ensures revision { stated self.new ≡ stated self.old }
        ensures offers { offers self.new ≡ offers self.old };

    /// A number that two registries of its type share only where they list alike, if it states one.
    fn revision(&self) -> Option<u64>
        ensures { result ≡ stated self.now };

    /// The folder of a package.
    ///
    /// # Errors
    ///
    /// `NotFound` where the package isn't listed, and else what is listed as wrong with it.
    fn resolve(&self, alloc: Global, spec: &PackageSpec) -> PackageResult<ImmutPath>
        ensures { IsRoot (root_in (listing self.now) (spec_of spec.now)) result };

    /// The packages that it offers, if it knows.
    fn packages(&self) -> &[PackageIndexEntry]
        ensures { result.now ≡ offers self.now };

    /// One stated revision, one answer.
    ghost alike: { (a b : Self) (n : ℕ) → stated a ≡ Some n → stated b ≡ Some n
        → (spec : plain.Spec) → map.get (listing a) spec ≡ map.get (listing b) spec };
}
