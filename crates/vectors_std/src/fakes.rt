//! Files of the system of which one call is refused.
use std::alloc::Allocator;
use std::fs::{Metadata, OpenOptions};
use std::io;
use std::io::ErrorKind;
use std::rt::Files;

/// The call that is refused.
#[derive(Clone, Copy)]
pub enum Refused {
    /// No file is removed.
    RemoveFile,
    /// No file is renamed whose path ends with `-b`, as temporaries for a file `b` do. One that
    /// doesn't passes as renamed.
    Rename,
}

/// Files of which that call is refused.
#[derive(Drop)]
pub struct Refusing<'a, R> {
    pub files: &'a R,
    pub refused: Refused,
}

impl<R: Files> Files for Refusing<'_, R> {
    type File = R::File;

    type Dir = R::Dir;

    fn open_file(&self, how: &OpenOptions, path: &str) -> io::Result<R::File> {
        self.files.open_file(how, path)
    }

    fn open_dir(&self, path: &str) -> io::Result<R::Dir> {
        self.files.open_dir(path)
    }

    fn metadata(&self, path: &str) -> io::Result<Metadata> {
        self.files.metadata(path)
    }

    fn symlink_metadata(&self, path: &str) -> io::Result<Metadata> {
        self.files.symlink_metadata(path)
    }

    fn copy(&self, from: &str, to: &str) -> io::Result<u64> {
        self.files.copy(from, to)
    }

    fn rename(&self, from: &str, to: &str) -> io::Result<()> {
        match self.refused {
            Refused::Rename if from.ends_with("-b") => Err(denied()),
            Refused::Rename => Ok(()),
            Refused::RemoveFile => self.files.rename(from, to),
        }
    }

    fn remove_file(&self, path: &str) -> io::Result<()> {
        match self.refused {
            Refused::RemoveFile => Err(denied()),
            Refused::Rename => self.files.remove_file(path),
        }
    }

    fn create_dir(&self, path: &str) -> io::Result<()> {
        self.files.create_dir(path)
    }

    fn remove_dir(&self, path: &str) -> io::Result<()> {
        self.files.remove_dir(path)
    }

    fn remove_dir_all<B: Allocator>(&self, alloc: B, path: &str) -> io::Result<()> {
        self.files.remove_dir_all(alloc, path)
    }
}

fn denied() -> io::Error {
    io::Error::from(ErrorKind::PermissionDenied)
}
