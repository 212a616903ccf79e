//! Files, and disks of them.
use std::alloc::Global;
use std::test::Fail;
use ty_cells::{FileSnapshot, MapAccess};
use ty_syntax::{Bytes, FileError};

/// A file with these bytes.
pub fn holding(alloc: Global, bytes: &str) -> Result<FileSnapshot, Fail> {
    let bytes = bytes.as_bytes().to_vec(alloc)?;
    Ok(FileSnapshot::from_bytes(Bytes::new(alloc, bytes)?))
}

/// What is said of a path where no file is.
pub fn absent(alloc: Global, path: &str) -> Result<FileSnapshot, Fail> {
    let path = String::from_str(alloc, path)?;
    Ok(FileSnapshot::from_error(alloc, FileError::NotFound(path))?)
}

/// A disk without files.
pub fn disk_without_files(alloc: Global) -> MapAccess {
    MapAccess::new(Vec::new(alloc))
}

/// A disk with one file.
pub fn disk_with(alloc: Global, path: &str, bytes: &str) -> Result<MapAccess, Fail> {
    let path = String::from_str(alloc, path)?;
    let files = vec![in alloc; (path, holding(alloc, bytes)?)]?;
    Ok(MapAccess::new(files))
}
