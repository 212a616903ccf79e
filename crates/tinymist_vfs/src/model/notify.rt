//! Files that a watcher told, over another model.
ghost use Rattle.std.specs.Prelude.{◌≡◌, ◌<◌, [], IsSome, Some, None, OnOk, OnErr, IfOk};
ghost use Rattle.ty_model.specs.Batch.{inserted, removed};
ghost use Rattle.tinymist_vfs.specs.Maps.{path_map};
ghost use Rattle.tinymist_vfs.specs.ChangeSet.{removed_paths, inserted_files};

use crate::batch::item::FileChangeSet;
use crate::layers::told::change_told;
use crate::model::under::{content_under, holds_under};
use std::alloc::Global;
use std::marker::Brand;
use std::sync::ledger::{Blank, Ledger};
use ty_cells::{FileSnapshot, PathAccessModel};
use ty_path::{ImmutPath, OutOfMemory};
use ty_persist::{Map, Steps};

/// The told files over an inner model, which is asked only for what none of them has.
#[derive(Drop)]
pub struct NotifyAccessModel<N: Drop> {
    alloc: Global,
    files: Map<ImmutPath, FileSnapshot>,
    /// The model below.
    pub inner: N,
}

impl<N: Drop> NotifyAccessModel<N> {
    /// No files over a model.
    pub fn new(alloc: Global, inner: N) -> NotifyAccessModel<N>
        ensures files { result.files.entries ≡ [] }
        ensures inner { result.inner ≡ inner }
    {
        NotifyAccessModel {
            alloc,
            files: Map::new(alloc),
            inner,
        }
    }

    /// Takes a change set in: all that it removes, and then what it inserts. An error leaves the files as
    /// before.
    pub fn notify(&mut self, set: FileChangeSet) -> Result<(), OutOfMemory>
        ensures ok { OnOk result (path_map self.new.files.entries ≡ inserted (removed (path_map self.old.files.entries) (removed_paths set)) (inserted_files set)) }
        ensures err { OnErr result (self.new.files ≡ self.old.files) }
        ensures inner { self.new.inner ≡ self.old.inner }
    {
        self.files = changed::<Brand>(self.alloc, &self.files, &set, Blank::new(1))?;
        Ok(())
    }
}

/// The files after a change set, as a share of their own.
fn changed<L: Ledger>(
    alloc: Global,
    files: &Map<ImmutPath, FileSnapshot>,
    set: &FileChangeSet,
    blank: Blank,
) -> Result<Map<ImmutPath, FileSnapshot>, OutOfMemory>
    requires name { blank.name ≡ L.name }
    requires parts { blank.parts ≡ L.parts }
    requires some { 0 < L.parts }
    ensures { IfOk result (λ after. path_map after.entries ≡ inserted (removed (path_map files.now.entries) (removed_paths set.now)) (inserted_files set.now)) }
{
    let mut steps: Steps<L> = Steps::new(blank);
    let mut after = files.share(&mut steps)?;
    change_told(alloc, &mut after, set, &mut steps)?;
    Ok(after)
}

impl<N: PathAccessModel + Drop> PathAccessModel for NotifyAccessModel<N> {
    ghost use Rattle.std.specs.Prelude.{◌≡◌};
    ghost use Rattle.std.specs.Map.{lookup};
    ghost use Rattle.ty_persist.specs.Texts.{is_text};
    ghost use Rattle.ty_cells.specs.Disk.{AnswersAsTold, HoldsAsTold};
    ghost use Rattle.ty_model.specs.Values.{Answer, same_answer};
    ghost use Rattle.tinymist_vfs.specs.Under.{tells_under};

    ghost told = { λ s. tells_under s.files.entries (N.told s.inner) };

    ghost reset_gives = { λ before after. (after.files ≡ before.files) × N.reset_gives before.inner after.inner };

    /// What the files say of a path, and else what the inner model says, which isn't asked where they do.
    fn content(&mut self, alloc: Global, path: &str) -> Result<FileSnapshot, OutOfMemory>
        ensures hit { (file : Answer) → lookup (is_text path.now) self.old.files.entries ≡ Some file → IfOk result (λ answer. answer ≡ file) }
        ensures miss { lookup (is_text path.now) self.old.files.entries ≡ None → AnswersAsTold (N.told self.old.inner) path.now result (N.told self.new.inner) }
        ensures files { self.new.files ≡ self.old.files }
        ensures answer { AnswersAsTold (tells_under self.old.files.entries (N.told self.old.inner)) path.now result (tells_under self.new.files.entries (N.told self.new.inner)) }
        ensures untouched { IsSome (lookup (is_text path.now) self.old.files.entries) → self.new ≡ self.old }
    {
        content_under(alloc, &self.files, &mut self.inner, path)
    }

    fn holds(&self, path: &str, answer: &FileSnapshot) -> bool
        ensures hit { (file : Answer) → lookup (is_text path.now) self.now.files.entries ≡ Some file → result ≡ same_answer file answer.now }
        ensures told { HoldsAsTold (tells_under self.now.files.entries (N.told self.now.inner)) path.now answer.now result }
    {
        holds_under(&self.files, &self.inner, path, answer)
    }

    fn reset(&mut self) {
        self.inner.reset();
    }
}
