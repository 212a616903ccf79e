//! Package specifications.
ghost use Rattle.std.specs.Prelude.{◌≡◌, ℕ, List, Some};
ghost use Rattle.ty_model.specs.Values as plain;
ghost use Rattle.ty_syntax.specs.Spec.{spec_of, names_of, numbers_of, numbers_text, spec_text};

use std::alloc::Global;
use std::fmt;
use ty_path::{OutOfMemory, Share};

/// The version of a package. Versions are ordered by these numbers in turn.
#[derive(Clone, Copy, Debug, PartialEq, Eq, PartialOrd, Ord, Hash)]
pub struct PackageVersion {
    /// It rises with a change that breaks callers.
    pub major: u32,
    /// It rises with what is new.
    pub minor: u32,
    /// It rises with what is mended.
    pub patch: u32,
}

/// A package of one version.
#[derive(Debug, PartialEq, Eq, PartialOrd, Ord, Hash, Drop)]
pub struct PackageSpec {
    /// Where the package comes from, as `preview`.
    pub namespace: String,
    /// The package within its namespace.
    pub name: String,
    /// Which of its versions it is.
    pub version: PackageVersion,
}

/// `major.minor.patch`.
impl fmt::Display for PackageVersion {
    ghost output = { λ v. Some (numbers_text (numbers_of v)) };

    fn fmt<W: fmt::Write>(&self, f: &mut fmt::Formatter<W>) -> fmt::Result {
        let PackageVersion {
            major,
            minor,
            patch,
        } = *self;
        write!(f, "{major}.{minor}.{patch}")
    }
}

/// `@namespace/name:major.minor.patch`.
impl fmt::Display for PackageSpec {
    ghost output = { λ s. Some (spec_text (spec_of s)) };

    fn fmt<W: fmt::Write>(&self, f: &mut fmt::Formatter<W>) -> fmt::Result {
        let version = self.version;
        write!(f, "@{}/{}:{version}", self.namespace, self.name)
    }
}

/// A package of any version.
#[derive(Debug, PartialEq, Eq, PartialOrd, Ord, Hash, Drop)]
pub struct VersionlessPackageSpec {
    /// Where the package comes from, as `preview`.
    pub namespace: String,
    /// The package within its namespace.
    pub name: String,
}

impl Share for PackageSpec {
    ghost Seen = { plain.Spec };

    ghost seen = { spec_of };

    fn share(&self, _alloc: Global) -> Result<Self, OutOfMemory> {
        Ok(PackageSpec {
            namespace: self.namespace.clone()?,
            name: self.name.clone()?,
            version: self.version,
        })
    }
}

impl Share for VersionlessPackageSpec {
    ghost Seen = { List ℕ × List ℕ };

    ghost seen = { names_of };

    fn share(&self, _alloc: Global) -> Result<Self, OutOfMemory> {
        Ok(VersionlessPackageSpec {
            namespace: self.namespace.clone()?,
            name: self.name.clone()?,
        })
    }
}
