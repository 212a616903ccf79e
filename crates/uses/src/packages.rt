//! A resolver of one's own: one package, and the folder in which it stands.
ghost use Rattle.std.specs.Prelude.{◌≡◌, Ok, IfOk};
ghost use Rattle.ty_model.specs.Places.{package_root};
ghost use Rattle.ty_path.specs.Shared.{path_text};
ghost use Rattle.ty_syntax.specs.Spec.{spec_of};

use std::alloc::Global;
use std::marker::Model;
use tinymist_vfs::{RootResolver, Vfs};
use ty_path::{ImmutPath, OutOfMemory, Share};
use ty_syntax::{
    FileError, FileFault, FileResult, PackageError, PackageSpec, SpecKey, TagFault, Tags,
};

/// A resolver that knows one package. Contracts see its specification and its root.
#[derive(Drop)]
pub struct OnePackage {
    key: SpecKey,
    root: ImmutPath,
}

impl Model for OnePackage {
    ghost use Rattle.std.specs.Prelude.{ℕ, List};
    ghost use Rattle.ty_model.specs.Values.{Spec};
    ghost use Rattle.ty_path.specs.Shared.{path_text};

    ghost Value = { Spec × List ℕ };

    ghost view = { λ p. (p.key, path_text p.root) };
}

impl OnePackage {
    /// A resolver of this package, which stands in that folder.
    pub fn new(spec: PackageSpec, root: ImmutPath) -> OnePackage
        ensures { result ≡ (spec_of spec, path_text root) }
    {
        let key = SpecKey::new(spec);
        OnePackage { key, root }
    }
}

impl RootResolver for OnePackage {
    ghost use Rattle.uses.specs.OnePackage.{one_package};

    ghost known = { λ p. one_package p.0 p.1 };

    fn resolve_package_root(&self, alloc: Global, spec: &PackageSpec) -> FileResult<ImmutPath> {
        let asked = SpecKey::new(spec.share(alloc)?);
        if asked == self.key {
            return Ok(self.root.share(alloc)?);
        }
        Err(FileFault::File(FileError::Package(PackageError::NotFound(spec.share(alloc)?))))
    }

    fn share(&self, alloc: Global) -> Result<OnePackage, OutOfMemory> {
        Ok(OnePackage {
            key: self.key.share(alloc)?,
            root: self.root.share(alloc)?,
        })
    }
}

/// A live state whose packages are one: files of that package stand below its root.
#[tactic(auto, using(crate::proofs::Listed::live_lists))]
pub fn live_with_package(
    alloc: Global,
    spec: PackageSpec,
    root: ImmutPath,
    tags: &mut Tags,
) -> Result<Vfs<OnePackage>, TagFault>
    ensures { IfOk result (λ live. package_root (⟦<OnePackage as RootResolver>⟧.known live.resolver) (spec_of spec) ≡ Ok (path_text root)) }
{
    Vfs::new(alloc, OnePackage::new(spec, root), tags)
}
