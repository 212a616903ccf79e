//! Files that are open and locked.
ghost use Rattle.std.specs.Prelude.{◌≡◌, ℕ, List, None, Some, IfErr, IfSome, IsErrAnd, codes, string_bytes};
ghost use Rattle.std.specs.Option.{option_copied};
ghost use Rattle.std.specs.Path.{path_file_name, path_parent};
ghost use Rattle.tinymist_std.specs.FileLock.{lock_file, lock_path};
ghost use Rattle.tinymist_std.specs.Paths.{IsEntryFault, IsNameless};

use crate::error::Result;
use crate::paths::{entry_fault, folder_of, readable};
use std::alloc::Global;
use std::fs::{File, FileType};
use std::io::ErrorKind;
use std::path::Path;
use std::rt::Files;
use std::{fs, io};

/// An open file that holds a lock, which is given up when it is dropped.
pub struct FileLock {
    file: File,
    path: String,
}

impl FileLock {
    /// A file that holds its lock.
    pub(crate) fn new(file: File, path: String) -> FileLock
        ensures file { lock_file result ≡ file }
        ensures path { lock_path result ≡ string_bytes path }
    {
        FileLock { file, path }
    }

    /// The open file.
    pub fn file(&self) -> &File
        ensures { result.now ≡ lock_file self.now }
    {
        &self.file
    }

    /// The path of the file.
    pub fn path(&self) -> &str
        ensures { result.now ≡ lock_path self.now }
    {
        self.path.as_str()
    }

    /// The path of the file's folder; `None` where the path has no parent.
    pub fn parent(&self) -> Option<&str>
        ensures { option_copied result ≡ path_parent (lock_path self.now) }
    {
        folder_of(self.path.as_str())
    }

    /// Removes all that the file's folder holds beside it. Where the path has no parent or no name,
    /// this is refused with an error that names the path, and nothing is removed. Another error names
    /// the entry that failed, or the folder where it can't be read.
    pub fn remove_siblings<R: Files>(&self, rt: &R) -> Result<()>
        ensures err { IfErr result (λ error. (entry : List ℕ)
            × IsEntryFault (codes "remove_siblings") (lock_path self.now) entry error) }
        ensures nameless { let path = lock_path self.now in
            IsNameless path → IsErrAnd result (IsEntryFault (codes "remove_siblings") path path) }
    {
        let path = self.path.as_str();
        remove_beside(rt, *self.path.allocator(), "remove_siblings", path)
    }
}

impl Drop for FileLock {
    /// Gives the lock up, also where a clone of the handle is left.
    fn drop(self) {
        let _unlocked = self.file.unlock();
        let FileLock { file: _, path: _ } = self;
    }
}

/// Removes all that the folder of the path holds beside its name, where it has both.
fn remove_beside<R: Files>(rt: &R, alloc: Global, call: &'static str, path: &str) -> Result<()>
    ensures err { IfErr result (λ error. (entry : List ℕ) × IsEntryFault call.now path.now entry error) }
    ensures nameless { IsNameless path.now
        → IsErrAnd result (IsEntryFault call.now path.now path.now) }
{
    let Some((folder, name)) = folder_and_name(path) else {
        let refused = io::Error::from(ErrorKind::InvalidInput);
        return Err(entry_fault(alloc, call, path, path, refused));
    };
    let folder = readable(folder);
    let entries = match fs::read_dir(&(rt, alloc), folder) {
        Ok(entries) => entries,
        Err(cause) => return Err(entry_fault(alloc, call, path, folder, cause)),
    };
    for entry in entries {
        let entry = match entry {
            Ok(entry) => entry,
            Err(cause) => return Err(entry_fault(alloc, call, path, folder, cause)),
        };
        if entry.file_name() != name {
            let place = entry.path();
            let place = place.as_str();
            if let Err(cause) = remove(rt, alloc, place, entry.file_type()) {
                return Err(entry_fault(alloc, call, path, place, cause));
            }
        }
    }
    Ok(())
}

/// The folder in which a path stands, and its name there, where it has both.
fn folder_and_name(path: &str) -> Option<(&str, &str)>
    ensures some { IfSome result (λ parts. (path_parent path.now ≡ Some parts.0.now)
        × (path_file_name path.now ≡ Some parts.1.now)) }
    ensures none { result ≡ None → IsNameless path.now }
{
    Some((folder_of(path)?, Path::new(path).file_name()?))
}

/// Removes a file, or a folder with all that it holds.
fn remove<R: Files>(
    rt: &R,
    alloc: Global,
    path: &str,
    kind: io::Result<FileType>,
) -> io::Result<()> {
    if kind?.is_dir() {
        fs::remove_dir_all(&(rt, alloc), path)
    } else {
        fs::remove_file(rt, path)
    }
}
