//! An id as a text for people.
ghost use Rattle.std.specs.Prelude.{◌≡◌, Some};
ghost use Rattle.std.specs.Option.{option_copied};
ghost use Rattle.std.specs.Fmt.{WritesOnOk};
ghost use Rattle.ty_model.specs.Paths.{realize};
ghost use Rattle.tinymist_vfs.specs.Workspace.{id_text};

use std::alloc::Global;
use std::fmt;
use ty_syntax::{FileId, Root, VirtualPath};

/// An id that is being written: its path below a workspace, the path of an untitled file, or its package
/// and the path in that. Where memory is wanting, it isn't written.
#[derive(Drop)]
pub struct Resolving<'a> {
    pub(crate) alloc: Global,
    pub(crate) id: Option<&'a FileId>,
}

impl fmt::Display for Resolving<'_> {
    ghost output = { λ r. Some (id_text (option_copied r.id)) };

    fn fmt<W: fmt::Write>(&self, f: &mut fmt::Formatter<W>) -> fmt::Result {
        let Some(id) = self.id else {
            return f.write_str("unresolved-path");
        };
        match id.root() {
            Root::Project => f.write_str(id.vpath().get_with_slash()),
            Root::Workspace(root) => write_path(f, self.alloc, root.as_str(), id.vpath()),
            Root::UntitledRooted(_) => f.write_str(id.vpath().get_without_slash()),
            Root::Package(spec) => {
                let path = id.vpath().get_with_slash();
                write!(f, "{spec}{path}")
            }
        }
    }
}

fn write_path<W: fmt::Write>(
    f: &mut fmt::Formatter<W>,
    alloc: Global,
    root: &str,
    vpath: &VirtualPath,
) -> fmt::Result
    ensures { WritesOnOk W.write_str_gives f.old result (realize root.now vpath.now) f.new }
{
    match vpath.realize(alloc, root) {
        Ok(path) => f.write_str(path.as_str()),
        Err(_) => Err(fmt::Error),
    }
}
