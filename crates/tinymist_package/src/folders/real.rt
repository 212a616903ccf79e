//! The folders of the system, of which nothing is told.
ghost use Rattle.std.specs.Prelude.{◌≡◌, None};
ghost use Rattle.tinymist_package.specs.Folders.{FoldersSeen, HasCause};
ghost use Rattle.tinymist_package.specs.RealFolders as plain;
ghost use Rattle.tinymist_package.specs.RealFolders.{IsRefusal};

use crate::folders::{FolderAnswer, FolderEntry, Folders};
use std::alloc::Global;
use std::fs::{self, FileType};
use std::io::{self, ErrorKind};
use std::marker::Model;
use std::rt::Files;
use ty_path::{OutOfMemory, clean};

/// The folders of the system. What they hold is not proved: this is a thin edge. A link is taken for neither a folder nor a
/// file: it isn't listed, read or written to. Links above the path are followed. Contracts see the count of faults.
#[derive(Drop)]
pub struct RealFolders<R: Files + AllocGlobal + Drop> {
    rt: R,
    faults: u64,
}

impl<R: Files + AllocGlobal + Drop> Model for RealFolders<R> {
    ghost use Rattle.std.specs.Prelude.{None};
    ghost use Rattle.tinymist_package.specs.Folders.{FoldersSeen, seen_code};

    ghost Value = { FoldersSeen };

    ghost coded = { seen_code };

    ghost view = { λ f. record { contents = None; faults = f.faults } };
}

/// What stands at a path of the system.
#[derive(Clone, Copy, Debug, PartialEq, Eq)]
pub(crate) enum Standing {
    Folder,
    File,
    Other,
    Missing,
}

impl<R: Files + AllocGlobal + Drop> RealFolders<R> {
    /// The folders that the runtime reaches.
    pub fn new(rt: R) -> RealFolders<R>
        ensures { result ≡ record { contents = None; faults = 0 } }
    {
        RealFolders { rt, faults: 0 }
    }

    /// Counts a failure, unless memory is wanting.
    fn refused<T: Drop>(&mut self, kind: ErrorKind) -> FolderAnswer<T>
        ensures answer { IsRefusal kind result }
        ensures contents { self.new.contents ≡ self.old.contents }
        ensures cause { HasCause result self.old.faults self.new.faults }
    {
        if kind == ErrorKind::OutOfMemory {
            return FolderAnswer::OutOfMemory;
        }
        self.faults = self.faults.saturating_add(1);
        FolderAnswer::Failed
    }

    /// The answer of a call, whose failure is counted.
    fn answered<T: Drop>(&mut self, done: Result<T, ErrorKind>) -> FolderAnswer<T>
        ensures contents { self.new.contents ≡ self.old.contents }
        ensures cause { HasCause result self.old.faults self.new.faults }
    {
        match done {
            Ok(done) => FolderAnswer::Done(done),
            Err(kind) => self.refused(kind),
        }
    }
}

impl<R: Files + AllocGlobal + Drop> Folders for RealFolders<R> {
    ghost seen = { λ f. f };

    fn exists(&mut self, alloc: Global, path: &str) -> FolderAnswer<bool> {
        let found = exists(&self.rt, alloc, path);
        self.answered(found)
    }

    fn list(&mut self, alloc: Global, path: &str) -> FolderAnswer<Vec<FolderEntry>> {
        let listed = list(&self.rt, alloc, path);
        self.answered(listed)
    }

    fn read(&mut self, alloc: Global, path: &str) -> FolderAnswer<Vec<u8>> {
        let read = read(&self.rt, alloc, path);
        self.answered(read)
    }

    fn make(&mut self, alloc: Global, path: &str) -> FolderAnswer<()> {
        let made = make(&self.rt, alloc, path);
        self.answered(made)
    }

    fn write(&mut self, alloc: Global, path: &str, bytes: &[u8]) -> FolderAnswer<()> {
        let written = write(&self.rt, alloc, path, bytes);
        self.answered(written)
    }
}

/// What stands at a path, by what the system says of it. A path below a file is missing.
fn standing_of(found: io::Result<FileType>) -> Result<Standing, ErrorKind>
    ensures { result ≡ plain.standing_of found }
{
    match found {
        Ok(kind) if kind.is_dir() => Ok(Standing::Folder),
        Ok(kind) if kind.is_file() => Ok(Standing::File),
        Ok(_) => Ok(Standing::Other),
        Err(error) => match error.kind() {
            ErrorKind::NotFound | ErrorKind::NotADirectory => Ok(Standing::Missing),
            kind => Err(kind),
        },
    }
}

fn looked_at<R: Files>(rt: &R, path: &str) -> Result<Standing, ErrorKind> {
    match fs::symlink_metadata(rt, path) {
        Ok(found) => standing_of(Ok(found.file_type())),
        Err(error) => standing_of(Err(error)),
    }
}

fn exists<R: Files>(rt: &R, alloc: Global, path: &str) -> Result<bool, ErrorKind> {
    let path = cleaned(alloc, path)?;
    match looked_at(rt, path.as_str())? {
        Standing::Folder | Standing::File => Ok(true),
        Standing::Other | Standing::Missing => Ok(false),
    }
}

fn list<R: Files>(rt: &R, alloc: Global, path: &str) -> Result<Vec<FolderEntry>, ErrorKind> {
    let path = cleaned(alloc, path)?;
    match looked_at(rt, path.as_str())? {
        Standing::Folder => entries_of(rt, alloc, path.as_str()),
        _ => Ok(Vec::new(alloc)),
    }
}

fn read<R: Files>(rt: &R, alloc: Global, path: &str) -> Result<Vec<u8>, ErrorKind> {
    let path = cleaned(alloc, path)?;
    match looked_at(rt, path.as_str())? {
        Standing::File => done(fs::read(&(rt, alloc), path.as_str())),
        _ => Err(ErrorKind::InvalidInput),
    }
}

fn make<R: Files>(rt: &R, alloc: Global, path: &str) -> Result<(), ErrorKind> {
    let path = cleaned(alloc, path)?;
    match looked_at(rt, path.as_str())? {
        Standing::Folder => Ok(()),
        Standing::Missing => done(fs::create_dir_all(rt, path.as_str())),
        _ => Err(ErrorKind::AlreadyExists),
    }
}

fn write<R: Files>(rt: &R, alloc: Global, path: &str, bytes: &[u8]) -> Result<(), ErrorKind> {
    let path = cleaned(alloc, path)?;
    match looked_at(rt, path.as_str())? {
        Standing::File | Standing::Missing => done(fs::write(rt, path.as_str(), bytes)),
        _ => Err(ErrorKind::AlreadyExists),
    }
}

/// What stands in a folder but links, by name.
fn entries_of<R: Files>(
    rt: &R,
    alloc: Global,
    folder: &str,
) -> Result<Vec<FolderEntry>, ErrorKind> {
    let mut entries = Vec::new(alloc);
    for entry in done(fs::read_dir(&(rt, alloc), folder))? {
        let entry = done(entry)?;
        let is_dir = match standing_of(entry.file_type())? {
            Standing::Folder => true,
            Standing::File => false,
            _ => continue,
        };
        let Ok(name) = String::from_str(alloc, entry.file_name()) else {
            return Err(ErrorKind::OutOfMemory);
        };
        if entries.push(FolderEntry { name, is_dir }).is_err() {
            return Err(ErrorKind::OutOfMemory);
        }
    }
    entries.sort_unstable();
    Ok(entries)
}

fn cleaned(alloc: Global, path: &str) -> Result<String, ErrorKind> {
    match clean(alloc, path) {
        Ok(path) => Ok(path),
        Err(OutOfMemory) => Err(ErrorKind::OutOfMemory),
    }
}

fn done<T: Drop>(done: io::Result<T>) -> Result<T, ErrorKind> {
    match done {
        Ok(done) => Ok(done),
        Err(error) => Err(error.kind()),
    }
}
