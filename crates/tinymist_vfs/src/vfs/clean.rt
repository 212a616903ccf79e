//! Which ids are clean since a revision.
ghost use Rattle.std.specs.Prelude.{◌≡◌, ◌+◌, ◌*◌, ◌≤◌, ◌∷◌, List, length, IfOk, IfErr, IsTrue};
ghost use Rattle.std.specs.List.{list_all};
ghost use Rattle.ty_model.specs.Version as plain;
ghost use Rattle.ty_model.specs.Standing.{clean_by, path_by, are_clean};
ghost use Rattle.ty_model.specs.Places.{place_of};
ghost use Rattle.ty_model.specs.Held.{version_of, Standing};
ghost use Rattle.ty_model.specs.Disk.{Told};
ghost use Rattle.ty_syntax.specs.declared.error.FileFault.TheVariants.{OutOfMemory as no_memory};
ghost use Rattle.tinymist_vfs.specs.Reuse.{SameAnswers};

use crate::ids::resolver::{PathResolution, RootResolver};
use crate::vfs::Vfs;
use std::sync::ledger::Ledger;
use ty_persist::Steps;
use ty_syntax::{FileFault, FileId, FileResult};

impl<R: RootResolver> Vfs<R> {
    fn is_path_clean<L: Ledger>(
        &self,
        rev: u64,
        id: &FileId,
        steps: &mut Steps<L>,
    ) -> FileResult<bool>
        ensures clean { IfOk result (λ b. b ≡ path_by self.now.held.changes rev (place_of (R.known self.now.resolver) id.now)) }
        ensures memory { IfErr result (λ fault. fault ≡ no_memory) }
        ensures cost { steps.new ≤ steps.old + 1 }
    {
        match self.resolver.path_for_id(self.alloc, id) {
            Ok(PathResolution::Resolved(path)) => {
                steps.tick();
                Ok(self.changes.of_path(&path) <= rev)
            }
            Ok(PathResolution::Rootless(_)) => Ok(true),
            Err(FileFault::File(_)) => Ok(true),
            Err(FileFault::OutOfMemory) => Err(FileFault::OutOfMemory),
        }
    }

    fn is_id_clean<L: Ledger>(
        &self,
        rev: u64,
        id: &FileId,
        steps: &mut Steps<L>,
    ) -> FileResult<bool>
        ensures clean { IfOk result (λ b. b ≡ clean_by self.now.held.changes (R.known self.now.resolver) rev id.now) }
        ensures memory { IfErr result (λ fault. fault ≡ no_memory) }
        ensures cost { steps.new ≤ steps.old + 2 }
    {
        if self.changes.reset() > rev {
            return Ok(false);
        }
        steps.tick();
        if self.changes.of_id(id) > rev {
            return Ok(false);
        }
        self.is_path_clean(rev, id, steps)
    }

    fn are_ids_clean<L: Ledger>(
        &self,
        rev: u64,
        ids: &[FileId],
        steps: &mut Steps<L>,
    ) -> FileResult<bool>
        ensures clean { IfOk result (λ b. b ≡ list_all (clean_by self.now.held.changes (R.known self.now.resolver) rev) ids.now) }
        ensures memory { IfErr result (λ fault. fault ≡ no_memory) }
        ensures cost { steps.new ≤ steps.old + 2 * length ids.now }
    {
        for id in ids {
            if !self.is_id_clean(rev, id, steps)? {
                return Ok(false);
            }
        }
        Ok(true)
    }

    /// Whether each of these ids is clean since a revision: nothing that its reading depends on has differed
    /// in any version since. An id without a path, or whose package is refused, is clean where its overlay is.
    /// Where all are clean, what was read of them in one version since, over a disk that stays the same, is what
    /// is read in every other: their answers and sources are the same.
    ///
    /// # Errors
    ///
    /// Only out of memory.
    pub fn is_clean_compile<L: Ledger>(
        &self,
        rev: u64,
        ids: &[FileId],
        steps: &mut Steps<L>,
    ) -> FileResult<bool>
        ensures clean { (past : List plain.Version) → Standing R.known self.now past → IfOk result (λ b. b ≡ are_clean (version_of R.known self.now ∷ past) rev ids.now) }
        ensures reusable { (past : List plain.Version) (disk : Told) → Standing R.known self.now past → IfOk result (λ b. IsTrue b → SameAnswers (version_of R.known self.now ∷ past) rev disk ids.now) }
        ensures memory { IfErr result (λ fault. fault ≡ no_memory) }
        ensures cost { steps.new ≤ steps.old + 4 * length ids.now }
    {
        if self.revision <= rev {
            return Ok(true);
        }
        self.are_ids_clean(rev, ids, steps)
    }
}
