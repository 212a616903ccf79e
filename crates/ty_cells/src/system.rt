//! The files of the system, of which nothing is told.
ghost use Rattle.std.specs.Prelude.{◌≡◌, ◌≢◌, None, IfOk, IsOk, IsTrue, string_bytes};
ghost use Rattle.std.specs.Result.{result_map_both};
ghost use Rattle.ty_model.specs.Values.{Refused};
ghost use Rattle.ty_cells.specs.System.{answer_of_read, refusal_of_kind};

use crate::disk::PathAccessModel;
use crate::snapshot::FileSnapshot;
use std::alloc::Global;
use std::fs;
use std::io::{self, ErrorKind};
use std::marker::Model;
use std::rt::Files;
use ty_path::OutOfMemory;
use ty_syntax::{Bytes, FileError};

/// The files of the system. What they hold is not proved: this is a thin edge.
#[derive(Drop)]
pub struct SystemAccessModel<R: Files + AllocGlobal + Drop> {
    rt: R,
}

/// What the system says of a file without its content.
#[derive(Clone, Copy, Debug, PartialEq, Eq)]
pub struct SystemFileMeta {
    /// Whether the path is that of a folder.
    pub is_dir: bool,
}

impl<R: Files + AllocGlobal + Drop> SystemAccessModel<R> {
    /// The files that the runtime reaches.
    pub fn new(rt: R) -> SystemAccessModel<R> {
        SystemAccessModel { rt }
    }

    /// What the system says of a path now.
    pub fn stat(&self, path: &str) -> io::Result<SystemFileMeta> {
        let meta = fs::metadata(&self.rt, path)?;
        Ok(SystemFileMeta {
            is_dir: meta.is_dir(),
        })
    }
}

impl<R: Files + AllocGlobal + Drop> PathAccessModel for SystemAccessModel<R> {
    ghost told = { λ _. None };

    ghost reset_gives = { λ _ _. Unit {0} };

    /// A folder is a directory, a missing file is not found, and a file that may not be read is denied.
    fn content(&mut self, alloc: Global, path: &str) -> Result<FileSnapshot, OutOfMemory> {
        read(&self.rt, alloc, path)
    }

    /// What a file holds later isn't known, so every answer is taken as it is.
    fn holds(&self, _path: &str, _answer: &FileSnapshot) -> bool
        ensures { IsTrue result }
    {
        true
    }

    fn reset(&mut self) {}
}

/// A file of the system that isn't opened before it is read. Contracts see its path.
#[derive(Drop)]
pub struct LazyFile {
    path: String,
}

impl Model for LazyFile {
    ghost use Rattle.std.specs.Prelude.{ℕ, List, string_bytes};

    ghost Value = { List ℕ };

    ghost view = { λ f. string_bytes f.path };
}

impl LazyFile {
    /// The file at a path.
    pub fn new(path: String) -> LazyFile
        ensures { result ≡ string_bytes path }
    {
        LazyFile { path }
    }

    /// What the file holds now, as `SystemAccessModel` says it. This is a thin edge.
    pub fn read<R: Files + AllocGlobal>(
        &self,
        rt: &R,
        alloc: Global,
    ) -> Result<FileSnapshot, OutOfMemory> {
        read(rt, alloc, self.path.as_str())
    }
}

fn read<R: Files + AllocGlobal>(
    rt: &R,
    alloc: Global,
    path: &str,
) -> Result<FileSnapshot, OutOfMemory> {
    answer_of(alloc, path, fs::read(rt, path))
}

/// What a read says of a path.
fn answer_of(
    alloc: Global,
    path: &str,
    read: io::Result<Vec<u8>>,
) -> Result<FileSnapshot, OutOfMemory>
    ensures { IfOk result (λ s. s ≡ answer_of_read path.now (result_map_both (λ bytes. bytes.items) (λ error. error) read)) }
{
    match read {
        Ok(bytes) => Ok(FileSnapshot::from_bytes(Bytes::new(alloc, bytes)?)),
        Err(error) => refusal(alloc, path, error.kind()),
    }
}

/// What a failed read says of a path: a missing file is not found, and a path below a file is another error.
fn refusal(alloc: Global, path: &str, kind: ErrorKind) -> Result<FileSnapshot, OutOfMemory>
    ensures answer { IfOk result (λ s. s ≡ Refused (refusal_of_kind path.now kind)) }
    ensures memory { IsOk result → kind ≢ ErrorKind.OutOfMemory }
{
    let error = match kind {
        ErrorKind::OutOfMemory => return Err(OutOfMemory),
        ErrorKind::NotFound => FileError::NotFound(String::from_str(alloc, path)?),
        ErrorKind::PermissionDenied => FileError::AccessDenied,
        ErrorKind::IsADirectory => FileError::IsDirectory,
        _ => FileError::Other(None),
    };
    FileSnapshot::from_error(alloc, error)
}
