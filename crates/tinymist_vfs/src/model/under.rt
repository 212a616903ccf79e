//! What a disk says of a path under some files that come first.
ghost use Rattle.std.specs.Prelude.{◌≡◌, IsSome, IfOk, Some, None};
ghost use Rattle.std.specs.Map.{lookup};
ghost use Rattle.ty_model.specs.Values.{Answer, same_answer};
ghost use Rattle.ty_persist.specs.Texts.{is_text};
ghost use Rattle.ty_cells.specs.Disk.{AnswersAsTold, HoldsAsTold};
ghost use Rattle.tinymist_vfs.specs.Under.{tells_under};

use std::alloc::Global;
use ty_cells::{FileSnapshot, PathAccessModel};
use ty_path::{ImmutPath, OutOfMemory, Share};
use ty_persist::Map;

/// What the files say of a path, and else what the inner model says, which isn't asked where they do.
pub(crate) fn content_under<N: PathAccessModel>(
    alloc: Global,
    files: &Map<ImmutPath, FileSnapshot>,
    inner: &mut N,
    path: &str,
) -> Result<FileSnapshot, OutOfMemory>
    ensures hit { (file : Answer) → lookup (is_text path.now) files.now.entries ≡ Some file → IfOk result (λ answer. answer ≡ file) }
    ensures miss { lookup (is_text path.now) files.now.entries ≡ None → AnswersAsTold (N.told inner.old) path.now result (N.told inner.new) }
    ensures answer { AnswersAsTold (tells_under files.now.entries (N.told inner.old)) path.now result (tells_under files.now.entries (N.told inner.new)) }
    ensures untouched { IsSome (lookup (is_text path.now) files.now.entries) → inner.new ≡ inner.old }
{
    match files.get_text(path) {
        Some(file) => file.share(alloc),
        None => inner.content(alloc, path),
    }
}

/// Whether the files say this of a path, or else the inner model.
pub(crate) fn holds_under<N: PathAccessModel>(
    files: &Map<ImmutPath, FileSnapshot>,
    inner: &N,
    path: &str,
    answer: &FileSnapshot,
) -> bool
    ensures hit { (file : Answer) → lookup (is_text path.now) files.now.entries ≡ Some file → result ≡ same_answer file answer.now }
    ensures told { HoldsAsTold (tells_under files.now.entries (N.told inner.now)) path.now answer.now result }
{
    match files.get_text(path) {
        Some(file) => file.same_as(answer),
        None => inner.holds(path, answer),
    }
}
