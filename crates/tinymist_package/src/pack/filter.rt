//! A pack of which a test leaves files out.
ghost use Rattle.std.specs.Prelude.{◌≡◌};
ghost use Rattle.tinymist_package.specs.Walk.{Passes, Accepted};

use crate::fault::PackageResult;
use crate::pack::file::PackFile;
use crate::pack::map_pack::MapPack;
use crate::pack::{PackFs, TakesFiles};
use std::alloc::Global;

/// The files of a pack in memory that a test accepts.
pub struct FilterPack<'p, G> {
    pack: &'p mut MapPack,
    filter: G,
}

impl<G: Drop> Drop for FilterPack<'_, G> {
    fn drop(self)
        ensures { self.exit.0.now ≡ self.entry.pack.now }
    {
        let FilterPack { pack: _, filter: _ } = self;
    }
}

impl<'p, G: Fn(&str) -> bool> FilterPack<'p, G> {
    pub(crate) fn new(pack: &'p mut MapPack, filter: G) -> FilterPack<'p, G>
        ensures same_pack { result.pack.ghost_name ≡ pack.entry.ghost_name }
        ensures pack { result.pack.now ≡ pack.old }
        ensures filter { result.filter ≡ filter }
    {
        FilterPack { pack, filter }
    }
}

/// A taker that is handed what a test accepts.
#[derive(Drop)]
pub(crate) struct Filtered<'t, G, T> {
    pub(crate) filter: &'t G,
    pub(crate) taker: &'t mut T,
}

impl<G: Fn(&str) -> bool, T: TakesFiles> TakesFiles for Filtered<'_, G, T> {
    ghost takes = { λ a file r b. Passes (G.post a.filter.now) T.takes file a.taker.now r b.taker.now × (b.taker.ghost_name ≡ a.taker.ghost_name) × (b.filter ≡ a.filter) };

    ghost takes_any = { λ a. G.IsAlwaysCallable a.filter.now × T.takes_any a.taker.now };

    fn take(&mut self, alloc: Global, path: &str, file: PackFile) -> PackageResult<()> {
        if (self.filter)(path) {
            self.taker.take(alloc, path, file)
        } else {
            Ok(())
        }
    }
}

impl<G: Fn(&str) -> bool> PackFs for FilterPack<'_, G> {
    ghost use Rattle.std.specs.Prelude.{◌≡◌};
    ghost use Rattle.tinymist_package.specs.Walk.{files_of};

    ghost tells = { λ p files. Accepted (G.post p.filter) (λ all. all ≡ files_of p.pack.now.files.entries) files };

    ghost can_walk = { λ p. G.IsAlwaysCallable p.filter };

    ghost faults = { λ _. 0 };

    fn hand_to<T: TakesFiles>(&mut self, alloc: Global, taker: &mut T) -> PackageResult<()> {
        let mut filtered = Filtered {
            filter: &self.filter,
            taker,
        };
        self.pack.hand_to(alloc, &mut filtered)
    }
}
