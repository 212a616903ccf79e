//! A pack in memory, its filter, and what it takes from other packs.
ghost use Rattle.std.specs.Prelude.{◌≡◌, ◌+◌, ◌<◌, List, OnOk, OnErr};
ghost use Rattle.indexmap.specs.IndexMap.{insert_entry};
ghost use Rattle.std.specs.Str.{bytes_eq};
ghost use Rattle.tinymist_package.specs.Walk.{File, files_of, bytes_of, Walks, IsOwn, Writes, written_all};

use crate::fault::{PackageFault, PackageResult};
use crate::pack::file::PackFile;
use crate::pack::filter::FilterPack;
use crate::pack::{PackFs, TakesFiles};
use indexmap::IndexMap;
use std::alloc::Global;
use ty_path::{ImmutBytes, OutOfMemory, Share};

/// Files in memory, in the order of their map.
#[derive(Drop)]
pub struct MapPack {
    /// The bytes of each file, under its path.
    pub files: IndexMap<String, ImmutBytes>,
}

impl MapPack {
    /// The pack of these files.
    pub fn new(files: IndexMap<String, ImmutBytes>) -> MapPack
        ensures { result.files ≡ files }
    {
        MapPack { files }
    }

    /// The files whose paths the test accepts.
    pub fn filter<G: Fn(&str) -> bool>(&mut self, f: G) -> FilterPack<'_, G>
        ensures same_pack { result.pack.ghost_name ≡ self.entry.ghost_name }
        ensures pack { result.pack.now ≡ self.old }
        ensures filter { result.filter ≡ f }
    {
        FilterPack::new(self, f)
    }

    /// Takes all files of another pack, in order, up to a refusal. Those that were taken before it stay.
    pub fn clone_into_pack<P: PackFs>(&mut self, alloc: Global, pack: &mut P) -> PackageResult<()>
        requires { P.can_walk pack.old }
        ensures walked { (all : List File) → P.tells pack.old all
            → Walks Writes (IsOwn (P.faults pack.old) (P.faults pack.new)) (files_of self.old.files.entries) all result (files_of self.new.files.entries) }
        ensures all { (all : List File) → P.tells pack.old all
            → OnOk result (files_of self.new.files.entries ≡ written_all (files_of self.old.files.entries) all) }
        ensures same { (all : List File) → P.tells pack.old all → P.tells pack.new all }
        ensures again { P.can_walk pack.new }
    {
        pack.hand_to(alloc, self)
    }

    /// Puts a file in. One of the same path gives way to it and keeps its place.
    fn put(&mut self, alloc: Global, path: &str, file: PackFile) -> Result<(), OutOfMemory>
        ensures ok { OnOk result (files_of self.new.files.entries ≡ insert_entry bytes_eq (files_of self.old.files.entries) path.now (bytes_of file)) }
        ensures err { OnErr result (files_of self.new.files.entries ≡ files_of self.old.files.entries) }
    {
        let path = String::from_str(alloc, path)?;
        let bytes = file.into_shared(alloc)?;
        match self.files.insert(path, bytes) {
            Ok(_) => Ok(()),
            Err(_) => Err(OutOfMemory),
        }
    }
}

impl PackFs for MapPack {
    ghost use Rattle.std.specs.Prelude.{◌≡◌};
    ghost use Rattle.tinymist_package.specs.Walk.{files_of};

    ghost tells = { λ p all. all ≡ files_of p.files.entries };

    ghost can_walk = { λ _. Unit {0} };

    ghost faults = { λ _. 0 };

    fn hand_to<T: TakesFiles>(&mut self, alloc: Global, taker: &mut T) -> PackageResult<()> {
        let mut at = 0;
        while let Some((path, bytes)) = self.files.get_index(at) {
            let file = match bytes.share(alloc) {
                Ok(bytes) => PackFile::Data(bytes),
                Err(OutOfMemory) => return Err(PackageFault::OutOfMemory),
            };
            match taker.take(alloc, path.as_str(), file) {
                Ok(()) => {}
                Err(fault) => return Err(fault),
            }
            at = next(at, self.files.len());
        }
        Ok(())
    }
}

/// The index after one of a file.
fn next(at: usize, len: usize) -> usize
    requires { at < len }
    ensures { result ≡ at + 1 }
{
    at + 1
}

impl TakesFiles for MapPack {
    ghost use Rattle.tinymist_package.specs.Walk.{Writes, files_of};

    ghost takes = { λ a file r b. Writes (files_of a.files.entries) file r (files_of b.files.entries) };

    ghost takes_any = { λ _. Unit {0} };

    fn take(&mut self, alloc: Global, path: &str, file: PackFile) -> PackageResult<()> {
        match self.put(alloc, path, file) {
            Ok(()) => Ok(()),
            Err(OutOfMemory) => Err(PackageFault::OutOfMemory),
        }
    }
}
