//! Packs: the files of a package, which are walked and cloned into other packs.
ghost use Rattle.std.specs.Prelude.{◌≡◌, ◌≤◌, ℕ, List, Result};
ghost use Rattle.tinymist_package.specs.Walk.{File, bytes_of, Walks, IsOwn, Calls};
ghost use Rattle.tinymist_package.specs.declared.fault.PackageFault as fault;

mod file;
mod filter;
mod lent;
mod map_pack;

use crate::fault::PackageResult;
use crate::pack::lent::Lent;
pub use file::{PackEntries, PackFile, Unsupported};
pub use filter::FilterPack;
pub use map_pack::MapPack;
use std::alloc::Global;

/// What takes the files of a pack, one after another.
pub trait TakesFiles {
    /// What one call makes of the taker.
    ghost takes: { Self → File → Result (Unit {0}) fault.PackageFault → Self → Type 0 };

    /// It can be called with any file.
    ghost takes_any: { Self → Type 0 };

    /// Takes a file. A refusal ends the walk.
    fn take(&mut self, alloc: Global, path: &str, file: PackFile) -> PackageResult<()>
        requires { takes_any self.old }
        ensures taken { takes self.old (path.now, bytes_of file) result self.new }
        ensures again { takes_any self.new };
}

/// The files of a package, in an order of their own.
pub trait PackFs {
    /// These are its files, where it tells them.
    ghost tells: { Self → List File → Type 0 };

    /// It can be walked: what it calls can be called.
    ghost can_walk: { Self → Type 0 };

    /// How often a call on its folders has failed.
    ghost faults: { Self → ℕ };

    /// Hands each file to the taker, in order, up to the first refusal. Where the pack tells no files it hands over some.
    ///
    /// # Errors
    ///
    /// That of the taker; out of memory; `Other` with the text `folder fault`, where the count of faults rose; or `Other`
    /// with the text `too deep`. No pack of this crate gives the last two.
    fn hand_to<T: TakesFiles>(&mut self, alloc: Global, taker: &mut T) -> PackageResult<()>
        requires pack { can_walk self.old }
        requires taker { T.takes_any taker.old }
        ensures walked { (all : List File) → tells self.old all → Walks T.takes (IsOwn (faults self.old) (faults self.new)) taker.old all result taker.new }
        ensures causes { (files : List File) × Walks T.takes (IsOwn (faults self.old) (faults self.new)) taker.old files result taker.new }
        ensures same { (all : List File) → tells self.old all → tells self.new all }
        ensures again { can_walk self.new }
        ensures faults { faults self.old ≤ faults self.new };

    /// Hands each file to a closure, as `hand_to`.
    final fn read_all<G: FnMut(&str, PackFile) -> PackageResult<()>>(
        &mut self,
        alloc: Global,
        f: &mut G,
    ) -> PackageResult<()>
        requires pack { can_walk self.old }
        requires call { G.IsAlwaysCallable f.old }
        ensures walked { (all : List File) → tells self.old all → Walks (Calls G.step) (IsOwn (faults self.old) (faults self.new)) f.old all result f.new }
        ensures causes { (files : List File) × Walks (Calls G.step) (IsOwn (faults self.old) (faults self.new)) f.old files result f.new }
        ensures same { (all : List File) → tells self.old all → tells self.new all }
        ensures again { can_walk self.new }
        ensures faults { faults self.old ≤ faults self.new }
    {
        let mut lent = Lent { f };
        self.hand_to(alloc, &mut lent)
    }

    /// One file, where the pack can give it without a walk. No pack of this crate can.
    fn read(&self, _path: &str) -> Result<PackFile, Unsupported> {
        Err(Unsupported)
    }

    /// The paths of all files, where the pack can give them without a walk. No pack of this crate can.
    fn entries(&self) -> Result<PackEntries, Unsupported> {
        Err(Unsupported)
    }
}
