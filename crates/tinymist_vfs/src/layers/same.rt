//! Whether two versions of the layers have the same at a key.
ghost use Rattle.std.specs.Prelude.{◌≡◌, ◌||◌};
ghost use Rattle.std.specs.Option.{option_copied};
ghost use Rattle.ty_path.specs.Shared.{path_text};
ghost use Rattle.ty_model.specs.Values.{same_answer};
ghost use Rattle.ty_model.specs.Version.{same_stamp};
ghost use Rattle.ty_model.specs.Standing.{same_option};
ghost use Rattle.ty_model.specs.Touched.{same_id_at, same_path_at};
ghost use Rattle.tinymist_vfs.specs.Commits.{told_before};

use crate::layers::Layers;
use crate::layers::stamp::Stamp;
use crate::layers::store::{at_id, at_path};
use ty_cells::FileSnapshot;
use ty_path::ImmutPath;
use ty_syntax::FileId;

fn same_answers(a: Option<&FileSnapshot>, b: Option<&FileSnapshot>) -> bool
    ensures { result ≡ same_option same_answer (option_copied a.entry) (option_copied b.entry) }
{
    match (a, b) {
        (None, None) => true,
        (Some(x), Some(y)) => x.same_as(y),
        _ => false,
    }
}

fn same_stamps(a: Option<&Stamp>, b: Option<&Stamp>) -> bool
    ensures { result ≡ same_option same_stamp (option_copied a.entry) (option_copied b.entry) }
{
    match (a, b) {
        (None, None) => true,
        (Some(x), Some(y)) => x.same_as(y),
        _ => false,
    }
}

pub(crate) fn same_id(old: &Layers, new: &Layers, id: &FileId) -> bool
    ensures { result ≡ same_id_at old.now new.now id.now }
{
    same_answers(at_id(&old.by_id, id), at_id(&new.by_id, id))
}

pub(crate) fn same_path(old: &Layers, new: &Layers, path: &ImmutPath) -> bool
    ensures { result ≡ same_path_at old.now new.now (path_text path.now) }
{
    // The stamps first: where a path was dropped, no contents are compared.
    same_stamps(at_path(&old.drops, path), at_path(&new.drops, path))
        && same_answers(at_path(&old.by_path, path), at_path(&new.by_path, path))
        && same_answers(at_path(&old.told, path), at_path(&new.told, path))
}

/// Whether a path has the same told file.
pub(crate) fn same_told(old: &Layers, new: &Layers, path: &ImmutPath) -> bool
    ensures { result ≡ same_path_at (told_before old.now new.now) new.now (path_text path.now) }
{
    same_answers(at_path(&old.told, path), at_path(&new.told, path))
}

// Both are known by now, so that no branch is left.
pub(crate) fn either(a: bool, b: bool) -> bool
    ensures { result ≡ (a || b) }
{
    a || b
}
