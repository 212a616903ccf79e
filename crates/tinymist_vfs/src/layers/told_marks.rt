//! Marks of told files, where nothing else of a path can have become other.
ghost use Rattle.std.specs.Prelude.{◌≡◌, [], ◌∷◌, IfOk, map};
ghost use Rattle.ty_path.specs.Shared.{path_text};
ghost use Rattle.ty_model.specs.Touched.{IsMarked};
ghost use Rattle.tinymist_vfs.specs.Commits.{told_before};

use crate::layers::Layers;
use crate::layers::changes::Changes;
use crate::layers::same::{either, same_told};
use std::alloc::Global;
use std::sync::ledger::Ledger;
use ty_cells::FileSnapshot;
use ty_path::{ImmutPath, OutOfMemory};
use ty_persist::Steps;

impl Changes {
    fn mark_told<L: Ledger>(
        &mut self,
        alloc: Global,
        old: &Layers,
        new: &Layers,
        path: &ImmutPath,
        revision: u64,
        steps: &mut Steps<L>,
    ) -> Result<bool, OutOfMemory>
        ensures { IfOk result (λ b. IsMarked (told_before old.now new.now) new.now revision self.old [] (path_text path.now ∷ []) b self.new) }
    {
        if same_told(old, new, path) {
            return Ok(false);
        }
        self.paths.put(alloc, path, revision, steps)?;
        Ok(true)
    }

    /// Marks the paths of which the told file became other.
    pub(crate) fn mark_told_files<L: Ledger>(
        &mut self,
        alloc: Global,
        old: &Layers,
        new: &Layers,
        files: &[(ImmutPath, FileSnapshot)],
        revision: u64,
        steps: &mut Steps<L>,
    ) -> Result<bool, OutOfMemory>
        ensures { IfOk result (λ b. IsMarked (told_before old.now new.now) new.now revision self.old [] (map (λ f. path_text f.0) files.now) b self.new) }
    {
        let mut differs = false;
        for (path, _) in files {
            let more = self.mark_told(alloc, old, new, path, revision, steps)?;
            differs = either(differs, more);
        }
        Ok(differs)
    }
}
