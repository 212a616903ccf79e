//! Files, paths and ids that the tests of the layers are made of.
use crate::files::holding;
use std::alloc::Global;
use std::sync::Arc;
use std::test::Fail;
use tinymist_vfs::{FileChangeSet, MockRootResolver, ReviseFault, Vfs, WorkspaceResolver};
use ty_path::ImmutPath;
use ty_syntax::{FileId, PackageSpec, PackageVersion, Root, VirtualPath};

/// Layers that resolve no package.
pub type Layered = Vfs<MockRootResolver>;

/// Maps these files in one batch.
pub fn mapped(
    alloc: Global,
    vfs: &mut Layered,
    files: &[(&str, &str)],
) -> Result<Result<u64, ReviseFault>, Fail> {
    let mut batch = vfs.revise()?;
    for (path, bytes) in files {
        let file = holding(alloc, bytes)?;
        batch.map_shadow(path, file)?;
    }
    Ok(batch.finish())
}

/// A package of version 0.1.0.
pub fn package(alloc: Global, namespace: &str) -> Result<PackageSpec, Fail> {
    Ok(PackageSpec {
        namespace: String::from_str(alloc, namespace)?,
        name: String::from_str(alloc, "example")?,
        version: PackageVersion {
            major: 0,
            minor: 1,
            patch: 0,
        },
    })
}

/// The id of `a.typ` below a root.
pub fn id_below(alloc: Global, root: Root) -> Result<FileId, Fail> {
    let below = VirtualPath::new(alloc, "a.typ")?;
    Ok(FileId::intern(alloc, root, below)?)
}

/// A path that is shared.
pub fn path(alloc: Global, text: &str) -> Result<ImmutPath, Fail> {
    Ok(Arc::new(alloc, String::from_str(alloc, text)?)?)
}

/// The paths in their order, with a space behind each.
pub fn joined(alloc: Global, paths: &[ImmutPath]) -> Result<String, Fail> {
    let mut text = String::new(alloc);
    for path in paths {
        text.push_str(path.as_str())?;
        text.push(' ')?;
    }
    Ok(text)
}

/// A set that removes one path.
pub fn removes_one(alloc: Global) -> Result<FileChangeSet, Fail> {
    Ok(FileChangeSet::new_removes(alloc, vec![in alloc; path(alloc, "/a")?]?))
}

/// The ids of these files.
pub fn ids_of(alloc: Global, paths: &[&str]) -> Result<Vec<FileId>, Fail> {
    let mut ids = Vec::new(alloc);
    for path in paths {
        if let Some(id) = WorkspaceResolver::file_with_parent_root(alloc, path)? {
            ids.push(id)?;
        }
    }
    Ok(ids)
}
