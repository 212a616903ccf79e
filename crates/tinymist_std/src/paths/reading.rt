//! Files that are opened and read.
ghost use Rattle.std.specs.Prelude.{IfErr, codes};
ghost use Rattle.tinymist_std.specs.Paths.{IsFileFault};

use crate::error::Result;
use crate::paths::named;
use std::alloc::Global;
use std::fs;
use std::fs::{File, Metadata};
use std::rt::Files;

/// The text of a file. A file that isn't UTF-8 is refused.
pub fn read<R: Files>(rt: &R, alloc: Global, path: &str) -> Result<String>
    ensures { IfErr result (IsFileFault (codes "read") path.now) }
{
    named(alloc, "read", path, fs::read_to_string(&(rt, alloc), path))
}

/// The bytes of a file.
pub fn read_bytes<R: Files>(rt: &R, alloc: Global, path: &str) -> Result<Vec<u8>>
    ensures { IfErr result (IsFileFault (codes "read_bytes") path.now) }
{
    named(alloc, "read_bytes", path, fs::read(&(rt, alloc), path))
}

/// The file, opened to be read.
pub fn open<R: Files>(rt: &R, alloc: Global, path: &str) -> Result<R::File>
    ensures { IfErr result (IsFileFault (codes "open") path.now) }
{
    named(alloc, "open", path, File::open(rt, path))
}

/// What the system keeps of a file or folder: its kind, length, permissions and times.
pub fn metadata<R: Files>(rt: &R, alloc: Global, path: &str) -> Result<Metadata>
    ensures { IfErr result (IsFileFault (codes "metadata") path.now) }
{
    named(alloc, "metadata", path, fs::metadata(rt, path))
}
