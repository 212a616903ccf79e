//! A registry of packages that are kept in memory.
ghost use Rattle.std.specs.Prelude.{◌≡◌, [], None, Ok, IfOk, OnOk, OnErr};
ghost use Rattle.std.specs.FinMap as map;
ghost use Rattle.ty_path.specs.Shared.{path_text};
ghost use Rattle.ty_syntax.specs.Spec.{spec_of};
ghost use Rattle.std.specs.Option.{option_map, option_copied};
ghost use Rattle.tinymist_package.specs.MemoryRegistry.{memory_root, root_at};

use crate::fault::{PackageFault, PackageResult};
use crate::index::PackageIndexEntry;
use crate::registry::PackageRegistry;
use std::alloc::Global;
use std::marker::Model;
use std::sync::Arc;
use ty_path::{ImmutPath, OutOfMemory, Share};
use ty_persist::Map;
use ty_syntax::{PackageError, PackageSpec, SpecKey};

/// A registry of packages that are kept in memory. Contracts see what it lists.
#[derive(Drop)]
pub struct MemoryRegistry {
    packages: Map<SpecKey, ImmutPath>,
}

impl Model for MemoryRegistry {
    ghost use Rattle.ty_model.specs.Places.{Resolver};
    ghost use Rattle.tinymist_package.specs.MemoryRegistry.{listing_of, resolver_code};

    ghost Value = { Resolver };

    ghost coded = { resolver_code };

    ghost view = { λ r. listing_of r.packages.entries };
}

impl MemoryRegistry {
    /// A registry without packages, which takes no memory.
    pub fn new(alloc: Global) -> MemoryRegistry
        ensures { result ≡ map.empty }
    {
        MemoryRegistry {
            packages: Map::new(alloc),
        }
    }

    /// The folder of a package, if it is listed.
    #[tactic(auto, using(crate::proofs::Listings::get_listed))]
    fn found(&self, key: &SpecKey) -> Option<&ImmutPath>
        ensures { option_map root_at (option_copied result) ≡ map.get self.now key.now }
    {
        self.packages.get(key)
    }

    /// Lists a package, and answers its folder: `/internal-packages/<name>/<version>`, with the name as it is written, and
    /// whatever the namespace. Out of memory leaves the registry as it was.
    #[tactic(auto, using(crate::proofs::Listings::put_listed))]
    pub fn add_memory_package(
        &mut self,
        alloc: Global,
        spec: PackageSpec,
    ) -> Result<ImmutPath, OutOfMemory>
        ensures path { IfOk result (λ path. path_text path ≡ memory_root (spec_of spec)) }
        ensures ok { OnOk result (self.new ≡ map.insert self.old (spec_of spec) (Ok (memory_root (spec_of spec)))) }
        ensures err { OnErr result (self.new ≡ self.old) }
    {
        let path = root_of(alloc, &spec)?;
        self.packages.set(SpecKey::new(spec), path.share(alloc)?)?;
        Ok(path)
    }
}

fn root_of(alloc: Global, spec: &PackageSpec) -> Result<ImmutPath, OutOfMemory>
    ensures { IfOk result (λ path. path_text path ≡ memory_root (spec_of spec.now)) }
{
    let version = spec.version;
    let path = format!(in alloc; "/internal-packages/{}/{version}", spec.name)?;
    Ok(Arc::new(alloc, path)?)
}

impl Share for MemoryRegistry {
    ghost use Rattle.ty_model.specs.Places.{Resolver};

    ghost Seen = { Resolver };

    ghost seen = { λ registry. registry };

    fn share(&self, _alloc: Global) -> Result<MemoryRegistry, OutOfMemory> {
        Ok(MemoryRegistry {
            packages: self.packages.snapshot()?,
        })
    }
}

impl PackageRegistry for MemoryRegistry {
    ghost listing = { λ registry. registry };

    ghost stated = { λ _. None };

    ghost offers = { λ _. [] };

    fn reset(&mut self) {}

    fn revision(&self) -> Option<u64> {
        None
    }

    fn resolve(&self, alloc: Global, spec: &PackageSpec) -> PackageResult<ImmutPath> {
        let key = SpecKey::new(spec.share(alloc)?);
        match self.found(&key) {
            Some(path) => Ok(path.share(alloc)?),
            None => Err(PackageFault::Package(PackageError::NotFound(spec.share(alloc)?))),
        }
    }

    fn packages(&self) -> &[PackageIndexEntry] {
        &[]
    }

    ghost alike = { λ a b n h k spec. absurd (Prim.cc) };
}
