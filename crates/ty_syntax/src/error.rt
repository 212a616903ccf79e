//! What can be wrong with a file.
ghost use Rattle.std.specs.Prelude.{◌≡◌, ◌↔◌, IsTrue, IfOk};
ghost use Rattle.ty_model.specs.Values as plain;
ghost use Rattle.ty_syntax.specs.Error.{refusal_of, package_refusal_of, text_of};
ghost use Rattle.ty_syntax.specs.declared.error.FileFault.TheVariants.{OutOfMemory as no_memory};

use crate::spec::{PackageSpec, PackageVersion};
use std::alloc::Global;
use std::fmt;
use thiserror::Error;
use ty_path::{OutOfMemory, Share};

/// What is wrong with a package.
#[derive(Debug, PartialEq, Eq, Drop, Error)]
pub enum PackageError {
    /// No such package is known.
    #[error("no package {0}")]
    NotFound(PackageSpec),
    /// The package is known, but not in this version; the latest one that is.
    #[error("no package {0}, whose latest version is {1}")]
    VersionNotFound(PackageSpec, PackageVersion),
    /// It could not be fetched, with a word on why if there is one.
    #[error("package not fetched{}", Because(.0))]
    NetworkFailed(Option<String>),
    /// What was fetched is no package, with a word on why if there is one.
    #[error("malformed package{}", Because(.0))]
    MalformedArchive(Option<String>),
    /// Anything else, with a word on it if there is one.
    #[error("package not loaded{}", Because(.0))]
    Other(Option<String>),
}

/// What is wrong with a file. This is an answer of a layer or a disk like any other.
#[derive(Debug, PartialEq, Eq, Drop, Error)]
pub enum FileError {
    /// There is no file at this path.
    #[error("no file at {0}")]
    NotFound(String),
    /// The file may not be read, or has no path at which it could be.
    #[error("access denied")]
    AccessDenied,
    /// There is a folder where a file should be.
    #[error("is a directory")]
    IsDirectory,
    /// The file is no source, and should be one.
    #[error("not a source file")]
    NotSource,
    /// The file is not UTF-8, and should be.
    #[error("not valid UTF-8")]
    InvalidUtf8,
    /// The file's package is refused.
    #[error(transparent)]
    Package(PackageError),
    /// Anything else, with a word on it if there is one.
    #[error("file not loaded{}", Because(.0))]
    Other(Option<String>),
}

/// Why there is no file: what is wrong with it, or that it could not be said.
#[derive(Debug, PartialEq, Eq, Drop, Error)]
pub enum FileFault {
    /// Something is wrong with the file.
    #[error(transparent)]
    File(FileError),
    /// No memory was left.
    #[error("out of memory")]
    OutOfMemory,
}

/// A file, or part of one, or why there is none.
pub type FileResult<T> = Result<T, FileFault>;

impl From<OutOfMemory> for FileFault {
    ghost from_gives = { λ _ e. e ≡ no_memory };

    fn from(_: OutOfMemory) -> Self {
        FileFault::OutOfMemory
    }
}

/// A reason after a message, if there is one.
#[derive(Clone, Copy)]
struct Because<'a>(&'a Option<String>);

impl fmt::Display for Because<'_> {
    fn fmt<W: fmt::Write>(&self, f: &mut fmt::Formatter<W>) -> fmt::Result {
        match self.0 {
            Some(reason) => write!(f, ": {reason}"),
            None => Ok(()),
        }
    }
}

fn copy_text(text: &Option<String>) -> Result<Option<String>, OutOfMemory>
    ensures { IfOk result (λ other. text_of other ≡ text_of text.now) }
{
    match text {
        None => Ok(None),
        Some(text) => Ok(Some(text.clone()?)),
    }
}

impl Share for PackageError {
    ghost Seen = { plain.PackageRefusal };

    ghost seen = { package_refusal_of };

    fn share(&self, alloc: Global) -> Result<Self, OutOfMemory> {
        match self {
            PackageError::NotFound(spec) => Ok(PackageError::NotFound(spec.share(alloc)?)),
            PackageError::VersionNotFound(spec, latest) => {
                Ok(PackageError::VersionNotFound(spec.share(alloc)?, *latest))
            }
            PackageError::NetworkFailed(text) => Ok(PackageError::NetworkFailed(copy_text(text)?)),
            PackageError::MalformedArchive(text) => {
                Ok(PackageError::MalformedArchive(copy_text(text)?))
            }
            PackageError::Other(text) => Ok(PackageError::Other(copy_text(text)?)),
        }
    }
}

impl Share for FileError {
    ghost Seen = { plain.Refusal };

    ghost seen = { refusal_of };

    fn share(&self, alloc: Global) -> Result<Self, OutOfMemory> {
        match self {
            FileError::NotFound(path) => Ok(FileError::NotFound(path.clone()?)),
            FileError::AccessDenied => Ok(FileError::AccessDenied),
            FileError::IsDirectory => Ok(FileError::IsDirectory),
            FileError::NotSource => Ok(FileError::NotSource),
            FileError::InvalidUtf8 => Ok(FileError::InvalidUtf8),
            FileError::Package(error) => Ok(FileError::Package(error.share(alloc)?)),
            FileError::Other(text) => Ok(FileError::Other(copy_text(text)?)),
        }
    }
}
