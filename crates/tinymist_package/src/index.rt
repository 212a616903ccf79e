//! The index of a registry: the packages that it offers.
ghost use Rattle.std.specs.Prelude.{◌≡◌, ◌↔◌, IsTrue, IfOk, List, ℕ, codes};
ghost use Rattle.std.specs.String.{string_bytes};
ghost use Rattle.ty_syntax.specs.Spec.{spec_of, names_of};
ghost use Rattle.tinymist_package.specs.Index.{spec_of_entry, names_of_entry};

use ty_path::OutOfMemory;
use ty_syntax::{PackageSpec, PackageVersion, VersionlessPackageSpec};

/// The registry of Typst's packages.
pub const DEFAULT_REGISTRY: &str = "https://packages.typst.org";

/// The namespace of the packages that Typst's registry offers.
pub const PREVIEW_NS: &str = "preview";

/// Where packages stand, below the folders of data and of cached files.
pub const DEFAULT_PACKAGES_SUBDIR: &str = "typst/packages";

/// A package of an index.
#[derive(Debug, PartialEq, Eq, Drop)]
pub struct PackageIndexEntry {
    /// Where the package comes from, as `preview`.
    pub namespace: String,
    /// The package within its namespace.
    pub name: String,
    /// Its version.
    pub version: PackageVersion,
    /// What it is for.
    pub description: Option<String>,
    /// When it was changed last, in seconds since 1970.
    pub updated_at: Option<i64>,
    /// Where it stands, if it isn't to be fetched.
    pub path: Option<String>,
}

impl PackageIndexEntry {
    /// The specification of the package.
    pub fn spec(&self) -> Result<PackageSpec, OutOfMemory>
        ensures { IfOk result (λ spec. spec_of spec ≡ spec_of_entry self.now) }
    {
        Ok(PackageSpec {
            namespace: self.namespace.clone()?,
            name: self.name.clone()?,
            version: self.version,
        })
    }

    /// Whether this is the package.
    pub fn matches(&self, spec: &PackageSpec) -> bool
        ensures { IsTrue result ↔ (spec_of_entry self.now ≡ spec_of spec.now) }
    {
        self.namespace == spec.namespace && self.name == spec.name && self.version == spec.version
    }

    /// Whether this is the package in some version.
    pub fn matches_versionless(&self, spec: &VersionlessPackageSpec) -> bool
        ensures { IsTrue result ↔ (names_of_entry self.now ≡ names_of spec.now) }
    {
        self.namespace == spec.namespace && self.name == spec.name
    }
}

/// What a specification says of its registry.
pub trait PackageSpecExt {
    ghost namespace_of: { Self → List ℕ };

    /// Whether the namespace is that of Typst's registry, `preview`.
    fn is_preview(&self) -> bool
        ensures { IsTrue result ↔ (namespace_of self.now ≡ codes "preview") };
}

impl PackageSpecExt for PackageSpec {
    ghost namespace_of = { λ spec. string_bytes spec.namespace };

    fn is_preview(&self) -> bool {
        self.namespace.as_str() == PREVIEW_NS
    }
}

impl PackageSpecExt for VersionlessPackageSpec {
    ghost namespace_of = { λ spec. string_bytes spec.namespace };

    fn is_preview(&self) -> bool {
        self.namespace.as_str() == PREVIEW_NS
    }
}
