//! A closure that takes files.
ghost use Rattle.std.specs.Prelude.{◌≡◌};
ghost use Rattle.tinymist_package.specs.Walk.{Calls};

use crate::fault::PackageResult;
use crate::pack::TakesFiles;
use crate::pack::file::PackFile;
use std::alloc::Global;

/// A closure that is lent to a walk.
#[derive(Drop)]
pub(crate) struct Lent<'f, G> {
    pub(crate) f: &'f mut G,
}

impl<G: FnMut(&str, PackFile) -> PackageResult<()>> TakesFiles for Lent<'_, G> {
    ghost takes = { λ a file r b. Calls G.step a.f.now file r b.f.now × (b.f.ghost_name ≡ a.f.ghost_name) };

    ghost takes_any = { λ a. G.IsAlwaysCallable a.f.now };

    fn take(&mut self, _alloc: Global, path: &str, file: PackFile) -> PackageResult<()> {
        (self.f)(path, file)
    }
}
