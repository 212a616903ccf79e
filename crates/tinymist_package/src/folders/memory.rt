//! Folders in memory, for tests: they tell what they hold, and fail at the calls that are listed.
ghost use Rattle.std.specs.Prelude.{◌≡◌, ◌≤◌, ◌||◌, ◌<◌, [], Some, None, not, true, false, map, is_some, IfOk, IfSome, OnOk, OnErr};
ghost use Rattle.std.specs.FinMap as finmap;
ghost use Rattle.std.specs.Option.{option_map, option_copied};
ghost use Rattle.std.specs.String.{string_bytes};
ghost use Rattle.ty_model.specs.Faults.{Rose};
ghost use Rattle.ty_model.specs.Paths.{clean};
ghost use Rattle.ty_path.specs.Shared.{shared_bytes};
ghost use Rattle.tinymist_package.specs.Folders as plain;
ghost use Rattle.tinymist_package.specs.Folders.{Folder, FileOf, HasCause, Tells, Leaves, Makes, stored_at, list_in, listed_in, name_in, entry_in, folder_of, is_folder, holds_folder, plain_entry, can_write};
ghost use Rattle.tinymist_package.specs.MemoryFolders.{stored_of, contents_of, no_files, counted, fails_next, called, asked, faults_after, FailsWhere, is_file};

use crate::folders::{FolderAnswer, FolderEntry, Folders};
use std::alloc::Global;
use std::marker::Model;
use std::sync::Arc;
use ty_path::{CleanPath, ImmutBytes, OutOfMemory, Share};
use ty_persist::Map;

/// What stands at a path.
#[derive(Drop)]
pub(crate) enum Stored {
    Folder,
    File(ImmutBytes),
}

impl Stored {
    fn is_folder(&self) -> bool
        ensures { result ≡ is_folder (Some (stored_of self.now)) }
    {
        match self {
            Stored::Folder => true,
            Stored::File(_) => false,
        }
    }
}

impl Share for Stored {
    ghost Seen = { plain.Stored };

    ghost seen = { stored_of };

    fn share(&self, alloc: Global) -> Result<Stored, OutOfMemory> {
        match self {
            Stored::Folder => Ok(Stored::Folder),
            Stored::File(bytes) => Ok(Stored::File(bytes.share(alloc)?)),
        }
    }
}

/// Folders and files in memory. `/` and `.` are folders from the first on. Contracts see what they hold.
#[derive(Drop)]
pub struct MemoryFolders {
    tree: Map<CleanPath, Stored>,
    fails: Vec<u64>,
    calls: u64,
    faults: u64,
}

impl Model for MemoryFolders {
    ghost use Rattle.tinymist_package.specs.MemoryFolders.{FoldersHold, contents_of, holds_code};

    ghost Value = { FoldersHold };

    ghost coded = { holds_code };

    ghost view = { λ f. record { contents = contents_of f.tree.entries; fails = f.fails.items; calls = f.calls; faults = f.faults } };
}

impl MemoryFolders {
    /// The folders `/` and `.` with nothing in them, and no call that is listed to fail.
    pub fn new(alloc: Global) -> Result<MemoryFolders, OutOfMemory>
        ensures { IfOk result (λ f. f ≡ record { contents = no_files; fails = []; calls = 0; faults = 0 }) }
    {
        Ok(MemoryFolders {
            tree: roots(alloc)?,
            fails: Vec::new(alloc),
            calls: 0,
            faults: 0,
        })
    }

    /// Lets the calls with these numbers fail. They are counted anew, from 1 on.
    pub fn fail_at(&mut self, calls: Vec<u64>)
        ensures { self.new ≡ record self.old { fails = calls.items; calls = 0 } }
    {
        self.fails = calls;
        self.calls = 0;
    }

    /// Counts a call, and tells whether it fails.
    fn fails_now(&mut self) -> bool
        ensures listed { result ≡ fails_next self.old }
        ensures after { self.new ≡ called self.old }
    {
        let call = self.calls.saturating_add(1);
        let listed = self.fails.contains(&call);
        self.calls = call;
        listed
    }

    fn failed<T: Drop>(&mut self) -> FolderAnswer<T>
        ensures failed { FailsWhere result true }
        ensures after { self.new ≡ record self.old { faults = faults_after self.old.faults result } }
        ensures cause { HasCause result self.old.faults self.new.faults }
    {
        self.faults = self.faults.saturating_add(1);
        FolderAnswer::Failed
    }
}

impl Folders for MemoryFolders {
    ghost seen = { λ f. record { contents = Some f.contents; faults = f.faults } };

    fn exists(&mut self, alloc: Global, path: &str) -> FolderAnswer<bool>
        ensures there { Tells result (Some self.old.contents) (λ contents there. there ≡ is_some (stored_at contents path.now)) }
        ensures same { Some self.new.contents ≡ Some self.old.contents }
        ensures cause { HasCause result self.old.faults self.new.faults }
        ensures fails { FailsWhere result (fails_next self.old) }
        ensures after { self.new ≡ asked self.old result }
    {
        if self.fails_now() {
            return self.failed();
        }
        match CleanPath::new(alloc, path) {
            Ok(path) => FolderAnswer::Done(at(&self.tree, &path).is_some()),
            Err(OutOfMemory) => FolderAnswer::OutOfMemory,
        }
    }

    fn list(&mut self, alloc: Global, path: &str) -> FolderAnswer<Vec<FolderEntry>>
        ensures entries { Tells result (Some self.old.contents) (λ contents entries. map plain_entry entries.items ≡ list_in contents path.now) }
        ensures same { Some self.new.contents ≡ Some self.old.contents }
        ensures cause { HasCause result self.old.faults self.new.faults }
        ensures fails { FailsWhere result (fails_next self.old) }
        ensures after { self.new ≡ asked self.old result }
    {
        if self.fails_now() {
            return self.failed();
        }
        match listed(alloc, &self.tree, path) {
            Ok(entries) => FolderAnswer::Done(entries),
            Err(OutOfMemory) => FolderAnswer::OutOfMemory,
        }
    }

    fn read(&mut self, alloc: Global, path: &str) -> FolderAnswer<Vec<u8>>
        ensures bytes { Tells result (Some self.old.contents) (λ contents bytes. stored_at contents path.now ≡ Some (FileOf bytes.items)) }
        ensures same { Some self.new.contents ≡ Some self.old.contents }
        ensures cause { HasCause result self.old.faults self.new.faults }
        ensures fails { FailsWhere result (fails_next self.old || not (is_file (stored_at self.old.contents path.now))) }
        ensures after { self.new ≡ asked self.old result }
    {
        if self.fails_now() {
            return self.failed();
        }
        match content_at(alloc, &self.tree, path) {
            Ok(Some(bytes)) => FolderAnswer::Done(bytes),
            Ok(None) => self.failed(),
            Err(OutOfMemory) => FolderAnswer::OutOfMemory,
        }
    }

    fn make(&mut self, alloc: Global, path: &str) -> FolderAnswer<()>
        ensures made { Leaves result (Some self.old.contents) (Some self.new.contents) (λ before after. Makes before (clean path.now) after) }
        ensures cause { HasCause result self.old.faults self.new.faults }
        ensures counted { (self.new.fails ≡ self.old.fails) × (self.new.calls ≡ counted self.old.calls) }
    {
        if self.fails_now() {
            return self.failed();
        }
        match made(alloc, &self.tree, path) {
            Ok(Some(tree)) => {
                self.tree = tree;
                FolderAnswer::Done(())
            }
            Ok(None) => self.failed(),
            Err(OutOfMemory) => FolderAnswer::OutOfMemory,
        }
    }

    fn write(&mut self, alloc: Global, path: &str, bytes: &[u8]) -> FolderAnswer<()>
        ensures written { Leaves result (Some self.old.contents) (Some self.new.contents) (λ before after. (can_write before (clean path.now) ≡ true) × (after ≡ finmap.insert before (clean path.now) (FileOf bytes.now))) }
        ensures cause { HasCause result self.old.faults self.new.faults }
        ensures fails { FailsWhere result (fails_next self.old || not (can_write self.old.contents (clean path.now))) }
        ensures counted { (self.new.fails ≡ self.old.fails) × (self.new.calls ≡ counted self.old.calls) }
    {
        if self.fails_now() {
            return self.failed();
        }
        match put(alloc, &mut self.tree, path, bytes) {
            Ok(true) => FolderAnswer::Done(()),
            Ok(false) => self.failed(),
            Err(OutOfMemory) => FolderAnswer::OutOfMemory,
        }
    }
}

/// The folders `.` and `/`.
fn roots(alloc: Global) -> Result<Map<CleanPath, Stored>, OutOfMemory>
    ensures { IfOk result (λ tree. contents_of tree.entries ≡ no_files) }
{
    let mut tree = Map::new(alloc);
    put_folder(&mut tree, CleanPath::new(alloc, ".")?)?;
    put_folder(&mut tree, CleanPath::new(alloc, "/")?)?;
    Ok(tree)
}

#[tactic(auto, using(crate::proofs::FolderMaps::put_stored))]
fn put_folder(tree: &mut Map<CleanPath, Stored>, path: CleanPath) -> Result<(), OutOfMemory>
    ensures { OnOk result (contents_of tree.new.entries ≡ finmap.insert (contents_of tree.old.entries) path Folder) }
{
    tree.set(path, Stored::Folder)
}

#[tactic(auto, using(crate::proofs::FolderMaps::put_stored))]
fn put_file(
    tree: &mut Map<CleanPath, Stored>,
    path: CleanPath,
    bytes: ImmutBytes,
) -> Result<(), OutOfMemory>
    ensures ok { OnOk result (contents_of tree.new.entries ≡ finmap.insert (contents_of tree.old.entries) path (FileOf (shared_bytes bytes))) }
    ensures err { OnErr result (tree.new ≡ tree.old) }
{
    tree.set(path, Stored::File(bytes))
}

/// What stands at a path.
#[tactic(auto, using(crate::proofs::FolderMaps::get_stored))]
fn at<'t>(tree: &'t Map<CleanPath, Stored>, path: &CleanPath) -> Option<&'t Stored>
    ensures { option_map stored_of (option_copied result) ≡ finmap.get (contents_of tree.now.entries) path.now }
{
    tree.get(path)
}

fn is_folder_at(tree: &Map<CleanPath, Stored>, path: &CleanPath) -> bool
    ensures { result ≡ is_folder (finmap.get (contents_of tree.now.entries) path.now) }
{
    matches!(at(tree, path), Some(Stored::Folder))
}

/// What the folder at a path lists.
fn listed(
    alloc: Global,
    tree: &Map<CleanPath, Stored>,
    path: &str,
) -> Result<Vec<FolderEntry>, OutOfMemory>
    ensures { IfOk result (λ entries. map plain_entry entries.items ≡ list_in (contents_of tree.now.entries) path.now) }
{
    let folder = CleanPath::new(alloc, path)?;
    if is_folder_at(tree, &folder) {
        entries_in(alloc, tree, &folder)
    } else {
        Ok(Vec::new(alloc))
    }
}

/// What stands directly in a folder.
fn entries_in(
    alloc: Global,
    tree: &Map<CleanPath, Stored>,
    folder: &CleanPath,
) -> Result<Vec<FolderEntry>, OutOfMemory>
    ensures { IfOk result (λ entries. map plain_entry entries.items ≡ listed_in folder.now (finmap.entries (contents_of tree.now.entries))) }
{
    let mut entries = Vec::new(alloc);
    for (path, stored) in tree.iter() {
        match entry_below(alloc, folder, path, stored)? {
            Some(entry) => entries.push(entry)?,
            None => {}
        }
    }
    Ok(entries)
}

/// The entry of what stands at a path, where it stands directly in the folder.
fn entry_below(
    alloc: Global,
    folder: &CleanPath,
    path: &CleanPath,
    stored: &Stored,
) -> Result<Option<FolderEntry>, OutOfMemory>
    ensures { IfOk result (λ entry. option_map plain_entry entry ≡ entry_in folder.now (path.now, stored_of stored.now)) }
{
    match name_below(alloc, folder, path)? {
        Some(name) => Ok(Some(FolderEntry {
            name,
            is_dir: stored.is_folder(),
        })),
        None => Ok(None),
    }
}

/// The name of a path, where it stands directly in the folder.
fn name_below(
    alloc: Global,
    folder: &CleanPath,
    path: &CleanPath,
) -> Result<Option<String>, OutOfMemory>
    ensures { IfOk result (λ name. option_map string_bytes name ≡ name_in folder.now path.now) }
{
    match path.parent(alloc)? {
        Some(parent) if parent.as_str() == folder.as_str() => path.file_name(alloc),
        _ => Ok(None),
    }
}

/// A copy of the bytes of a file, where one stands there.
fn content_at(
    alloc: Global,
    tree: &Map<CleanPath, Stored>,
    path: &str,
) -> Result<Option<Vec<u8>>, OutOfMemory>
    ensures file { IfOk result (λ found. IfSome found (λ bytes. stored_at (contents_of tree.now.entries) path.now ≡ Some (FileOf bytes.items))) }
    ensures none { IfOk result (λ found. is_some found ≡ is_file (stored_at (contents_of tree.now.entries) path.now)) }
{
    let path = CleanPath::new(alloc, path)?;
    match at(tree, &path) {
        Some(Stored::File(bytes)) => Ok(Some(bytes.to_vec(alloc)?)),
        _ => Ok(None),
    }
}

/// The tree in which a folder is made, where it can be.
fn made(
    alloc: Global,
    tree: &Map<CleanPath, Stored>,
    path: &str,
) -> Result<Option<Map<CleanPath, Stored>>, OutOfMemory>
    ensures { IfOk result (λ made. IfSome made (λ after. Makes (contents_of tree.now.entries) (clean path.now) (contents_of after.entries))) }
{
    let path = CleanPath::new(alloc, path)?;
    let levels = path.as_str().len();
    make_within(alloc, tree, &path, levels)
}

/// The same, of a path with at most so many folders above it.
fn make_within(
    alloc: Global,
    tree: &Map<CleanPath, Stored>,
    path: &CleanPath,
    levels: usize,
) -> Result<Option<Map<CleanPath, Stored>>, OutOfMemory>
    ensures { IfOk result (λ made. IfSome made (λ after. Makes (contents_of tree.now.entries) path.now (contents_of after.entries))) }
{
    match at(tree, path) {
        Some(Stored::Folder) => return Ok(Some(tree.snapshot()?)),
        Some(Stored::File(_)) => return Ok(None),
        None => {}
    }
    let Some(folder) = path.parent(alloc)? else {
        return Ok(None);
    };
    if levels == 0 {
        return Ok(None);
    }
    match make_within(alloc, tree, &folder, levels - 1)? {
        Some(mut held) => {
            put_folder(&mut held, path.share(alloc)?)?;
            Ok(Some(held))
        }
        None => Ok(None),
    }
}

/// Puts a file, where it can stand there.
fn put(
    alloc: Global,
    tree: &mut Map<CleanPath, Stored>,
    path: &str,
    bytes: &[u8],
) -> Result<bool, OutOfMemory>
    ensures can { IfOk result (λ done. done ≡ can_write (contents_of tree.old.entries) (clean path.now)) }
    ensures ok { IfOk result (λ done. done ≡ true → contents_of tree.new.entries ≡ finmap.insert (contents_of tree.old.entries) (clean path.now) (FileOf bytes.now)) }
    ensures refused { IfOk result (λ done. done ≡ false → tree.new ≡ tree.old) }
    ensures err { OnErr result (tree.new ≡ tree.old) }
{
    let path = CleanPath::new(alloc, path)?;
    if !can_stand(alloc, tree, &path)? {
        return Ok(false);
    }
    let bytes = Arc::new(alloc, bytes.to_vec(alloc)?)?;
    put_file(tree, path, bytes)?;
    Ok(true)
}

/// Whether a file can stand there: its folder is one, and it is none.
fn can_stand(
    alloc: Global,
    tree: &Map<CleanPath, Stored>,
    path: &CleanPath,
) -> Result<bool, OutOfMemory>
    ensures { IfOk result (λ can. can ≡ can_write (contents_of tree.now.entries) path.now) }
{
    let Some(folder) = path.parent(alloc)? else {
        return Ok(false);
    };
    Ok(is_folder_at(tree, &folder) && !is_folder_at(tree, path))
}
