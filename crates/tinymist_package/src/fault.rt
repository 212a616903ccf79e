//! Why there is no package.
ghost use Rattle.std.specs.Prelude.{◌≡◌};

use thiserror::Error;
use ty_path::OutOfMemory;
use ty_syntax::PackageError;

/// Why there is no package: what is wrong with it, or that it could not be said.
#[derive(Debug, PartialEq, Eq, Drop, Error)]
pub enum PackageFault {
    /// Something is wrong with the package.
    #[error(transparent)]
    Package(PackageError),
    /// No memory was left.
    #[error("out of memory")]
    OutOfMemory,
}

/// A package, or part of one, or why there is none.
pub type PackageResult<T> = Result<T, PackageFault>;

impl From<OutOfMemory> for PackageFault {
    ghost use Rattle.tinymist_package.specs.declared.fault.PackageFault.TheVariants.{OutOfMemory as no_memory};

    ghost from_gives = { λ _ fault. fault ≡ no_memory };

    fn from(_: OutOfMemory) -> Self {
        PackageFault::OutOfMemory
    }
}
