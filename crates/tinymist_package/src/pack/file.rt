//! A file of a pack, and what a pack without a walk can't give.

ghost use Rattle.std.specs.Prelude.{◌≡◌, IfOk};
ghost use Rattle.ty_path.specs.Shared.{shared_bytes};
ghost use Rattle.tinymist_package.specs.Walk.{bytes_of};

use std::alloc::Global;
use std::sync::Arc;
use thiserror::Error;
use ty_path::{ImmutBytes, ImmutPath, OutOfMemory};

/// A file of a pack.
#[derive(Debug, Drop)]
pub enum PackFile {
    /// Bytes that others share.
    Data(ImmutBytes),
    /// Bytes that were read for the caller.
    Read(Vec<u8>),
}

impl PackFile {
    /// The bytes as shared ones: those that are shared move, and others are put behind a pointer.
    pub fn into_shared(self, alloc: Global) -> Result<ImmutBytes, OutOfMemory>
        ensures { IfOk result (λ bytes. shared_bytes bytes ≡ bytes_of self) }
    {
        match self {
            PackFile::Data(bytes) => Ok(bytes),
            PackFile::Read(bytes) => Ok(Arc::new(alloc, bytes)?),
        }
    }
}

/// The paths of a pack's files.
#[derive(Debug, Drop)]
pub enum PackEntries {
    /// Paths of files that others share.
    Data(Vec<ImmutPath>),
    /// Paths of files that are to be read.
    Read(Vec<ImmutPath>),
}

/// The pack can't do this.
#[derive(Clone, Copy, Debug, PartialEq, Eq, Error)]
#[error("not supported by this pack")]
pub struct Unsupported;
