//! The components of a path.
ghost use Rattle.std.specs.Prelude.{◌≡◌, map, IfOk, string_bytes};
ghost use Rattle.ty_model.specs.Paths as plain;
ghost use Rattle.ty_path.specs.Parts.{plain_component};
ghost use Rattle.ty_path.specs.Component.{component_seen};

use crate::memory::OutOfMemory;
use std::alloc::Global;
use std::path::{self, Path};

/// A piece of a path.
#[derive(Debug, Drop, PartialEq, Eq)]
pub enum Component {
    /// The slash that an absolute path begins with.
    RootDir,
    /// A `.` that a relative path begins with.
    CurDir,
    /// `..`
    ParentDir,
    /// A name.
    Normal(String),
}

/// The components of a path. Empty parts and each `.` but the first part of a relative path are
/// left out.
pub fn components(alloc: Global, path: &str) -> Result<Vec<Component>, OutOfMemory>
    ensures { IfOk result (λ parts. map component_seen parts.items ≡ plain.components path.now) }
{
    let mut parts = Vec::new(alloc);
    for component in Path::new(path).components() {
        parts.push(owned(alloc, component)?)?;
    }
    Ok(parts)
}

/// The same component, with a name of its own.
fn owned(alloc: Global, component: path::Component<'_>) -> Result<Component, OutOfMemory>
    ensures { IfOk result (λ own. component_seen own ≡ plain_component component.entry) }
{
    match component {
        path::Component::RootDir => Ok(Component::RootDir),
        path::Component::CurDir => Ok(Component::CurDir),
        path::Component::ParentDir => Ok(Component::ParentDir),
        path::Component::Normal(name) => Ok(Component::Normal(String::from_str(alloc, name)?)),
    }
}
