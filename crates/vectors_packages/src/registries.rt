//! Registries, and one of a user's own.
ghost use Rattle.std.specs.Prelude.{◌≡◌, [], Some, refl};
ghost use Rattle.std.specs.FinMap as map;

use std::alloc::Global;
use std::process::Abort;
use std::test::Fail;
use tinymist_package::{
    DummyRegistry, MemoryRegistry, PREVIEW_NS, PackageFault, PackageIndexEntry, PackageRegistry,
    PackageResult, PackageSpecExt,
};
use ty_path::{ImmutPath, Share};
use ty_syntax::{PackageError, PackageSpec, PackageVersion};

/// The package of this name in a namespace, of the version 0.1.0.
fn package(alloc: Global, namespace: &str, name: &str) -> Result<PackageSpec, Fail> {
    Ok(PackageSpec {
        namespace: String::from_str(alloc, namespace)?,
        name: String::from_str(alloc, name)?,
        version: PackageVersion {
            major: 0,
            minor: 1,
            patch: 0,
        },
    })
}

/// Compares the folder of a package, where no text stands for one that isn't found.
fn finds<R: Abort + AllocGlobal, P: PackageRegistry>(
    rt: &R,
    registry: &P,
    spec: &PackageSpec,
    folder: &str,
) -> Result<(), Fail> {
    match registry.resolve(rt.alloc(), spec) {
        Ok(path) => assert_eq!(rt; path.as_str(), folder),
        Err(fault) => {
            let missing = PackageError::NotFound(spec.share(rt.alloc())?);
            assert_eq!(rt; fault, PackageFault::Package(missing));
            assert_eq!(rt; folder, "");
        }
    }
    Ok(())
}

#[test]
fn an_empty_registry_finds_nothing(rt: HostRuntime) -> Result<(), Fail> {
    let registry = DummyRegistry;
    finds(&rt, &registry, &package(rt.alloc(), PREVIEW_NS, "a")?, "")?;
    assert!(rt; registry.paths().is_empty());
    assert!(rt; registry.packages().is_empty());
    assert_eq!(rt; registry.revision(), None);
    Ok(())
}

#[test]
fn a_package_in_memory_is_found(rt: HostRuntime) -> Result<(), Fail> {
    let alloc = rt.alloc();
    let mut registry = MemoryRegistry::new(alloc);
    let path = registry.add_memory_package(alloc, package(alloc, "preview", "a")?)?;
    assert_eq!(rt; path.as_str(), "/internal-packages/a/0.1.0");
    let before = registry.share(alloc)?;
    registry.add_memory_package(alloc, package(alloc, "local", "b")?)?;
    registry.reset();
    finds(
        &rt,
        &registry,
        &package(alloc, "preview", "a")?,
        "/internal-packages/a/0.1.0",
    )?;
    finds(
        &rt,
        &registry,
        &package(alloc, "local", "b")?,
        "/internal-packages/b/0.1.0",
    )?;
    finds(&rt, &registry, &package(alloc, "local", "a")?, "")?;
    finds(&rt, &before, &package(alloc, "local", "b")?, "")?;
    assert!(rt; registry.packages().is_empty());
    assert_eq!(rt; registry.revision(), None);
    Ok(())
}

#[test]
fn namespaces_tell_whose_a_package_is(rt: HostRuntime) -> Result<(), Fail> {
    assert!(rt; package(rt.alloc(), "preview", "a")?.is_preview());
    assert!(rt; !package(rt.alloc(), "local", "a")?.is_preview());
    Ok(())
}

#[test]
fn an_entry_of_an_index_matches_its_package(rt: HostRuntime) -> Result<(), Fail> {
    let alloc = rt.alloc();
    let spec = package(alloc, "preview", "a")?;
    let entry = PackageIndexEntry {
        namespace: spec.namespace.clone()?,
        name: spec.name.clone()?,
        version: spec.version,
        description: None,
        updated_at: None,
        path: None,
    };
    assert!(rt; entry.matches(&spec));
    assert!(rt; !entry.matches(&package(alloc, "local", "a")?));
    assert_eq!(rt; entry.spec()?, spec);
    Ok(())
}

/// A registry of a user's own: a fetched list of packages, none so far, under a number that tells it apart.
#[derive(Drop)]
struct Numbered {
    number: u64,
}

impl PackageRegistry for Numbered {
    ghost listing = { λ _. map.empty };

    ghost stated = { λ registry. Some registry.number };

    ghost offers = { λ _. [] };

    fn reset(&mut self) {}

    fn revision(&self) -> Option<u64> {
        Some(self.number)
    }

    fn resolve(&self, alloc: Global, spec: &PackageSpec) -> PackageResult<ImmutPath> {
        Err(PackageFault::Package(PackageError::NotFound(spec.share(alloc)?)))
    }

    fn packages(&self) -> &[PackageIndexEntry] {
        &[]
    }

    ghost alike = { λ a b n h k spec. refl };
}

#[test]
fn an_own_registry_states_its_revision(rt: HostRuntime) -> Result<(), Fail> {
    let registry = Numbered { number: 7 };
    assert_eq!(rt; registry.revision(), Some(7));
    finds(&rt, &registry, &package(rt.alloc(), "preview", "a")?, "")
}
