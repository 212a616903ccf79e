//! A disk for sessions.
use std::alloc::Global;
use std::test::Fail;
use ty_cells::{FileSnapshot, MapAccess};
use ty_syntax::Bytes;

/// A disk with `a` at this path alone, or without files.
pub fn disk_of(alloc: Global, path: Option<&str>) -> Result<MapAccess, Fail> {
    let mut files = Vec::new(alloc);
    if let Some(path) = path {
        let said = FileSnapshot::from_bytes(Bytes::new(alloc, b"a".to_vec(alloc)?)?);
        files.push((String::from_str(alloc, path)?, said))?;
    }
    Ok(MapAccess::new(files))
}
