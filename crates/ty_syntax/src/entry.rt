//! The ids that have a tag from the start.
ghost use Rattle.std.specs.Prelude.{◌≡◌, IfOk, IsTrue};
ghost use Rattle.ty_model.specs.Places as plain;
ghost use Rattle.ty_model.specs.Values.{Project};
ghost use Rattle.ty_syntax.specs.Below.{is_virtual};
ghost use Rattle.ty_syntax.specs.Id.{tagged};

use crate::id::{FileId, Root};
use crate::vpath::VirtualPath;
use std::alloc::Global;
use ty_path::OutOfMemory;

/// The file of an editor that has none open.
pub fn detached_entry(alloc: Global) -> Result<FileId, OutOfMemory>
    ensures { IfOk result (λ id. id ≡ plain.detached_entry) }
{
    entry(alloc, "/__detached.typ", 1)
}

/// The main file that stands in memory alone.
pub fn memory_main_entry(alloc: Global) -> Result<FileId, OutOfMemory>
    ensures { IfOk result (λ id. id ≡ plain.memory_main_entry) }
{
    entry(alloc, "/__main__.typ", 2)
}

fn entry(alloc: Global, name: &str, tag: u64) -> Result<FileId, OutOfMemory>
    requires { IsTrue (is_virtual name.now) }
    ensures { IfOk result (λ id. id ≡ tagged Project name.now tag) }
{
    let vpath = VirtualPath::of_text(alloc, String::from_str(alloc, name)?)?;
    FileId::tagged(alloc, Root::Project, vpath, tag)
}
