//! Resets, which begin the past anew.
ghost use Rattle.std.specs.Prelude.{◌≡◌, ◌-◌, ◌^◌, ◌∷◌, ◌↔◌, List, IfOk, IfErr, OnOk, OnErr, IsErr, IsErrOf};
ghost use Rattle.ty_model.specs.Version as plain;
ghost use Rattle.ty_model.specs.Batch as change;
ghost use Rattle.ty_model.specs.Standing.{reset_held};
ghost use Rattle.ty_model.specs.Held.{version_of, Standing};
ghost use Rattle.tinymist_vfs.specs.Commits.{put_held};

use crate::batch::revise::ReviseFault;
use crate::ids::resolver::RootResolver;
use crate::layers::stamp::Stamp;
use crate::vfs::Vfs;
use ty_cells::{OwnCells, PathAccessModel};

impl<R: RootResolver> Vfs<R> {
    /// Sets a new reset stamp, and forgets what was dropped and what changed.
    fn renew(&mut self) -> Result<u64, ReviseFault>
        ensures after { OnOk result (self.new ≡ put_held self.old (reset_held self.old.held)) }
        ensures revision { IfOk result (λ n. n ≡ self.new.held.revision) }
        ensures err { OnErr result (self.new ≡ self.old) }
        ensures full { IsErrOf result ReviseFault.Full ↔ (self.old.held.revision ≡ 2 ^ 64 - 1) }
        ensures only { IfErr result (λ fault. fault ≡ ReviseFault.Full) }
    {
        if self.revision == u64::MAX {
            return Err(ReviseFault::Full);
        }
        let revision = self.revision + 1;
        self.layers.forget_drops(self.alloc);
        self.reset = Stamp::next(self.space, self.revision);
        self.changes.forget(self.alloc, revision);
        self.revision = revision;
        Ok(revision)
    }

    /// Sets a new reset stamp, and forgets what was dropped and what changed, under the same resolver. It takes no
    /// memory.
    ///
    /// # Errors
    ///
    /// `Full` exactly where the revision stands at its last value.
    pub fn reset_read(&mut self) -> Result<u64, ReviseFault>
        ensures after { OnOk result (self.new ≡ put_held self.old (reset_held self.old.held)) }
        ensures version { OnOk result (version_of R.known self.new ≡ change.reset self.old.held.space (version_of R.known self.old) (R.known self.old.resolver)) }
        ensures space { self.new.held.space ≡ self.old.held.space }
        ensures revision { IfOk result (λ n. n ≡ self.new.held.revision) }
        ensures standing { (past : List plain.Version) → Standing R.known self.old past → OnOk result (Standing R.known self.new (version_of R.known self.old ∷ past)) }
        ensures err { OnErr result (self.new ≡ self.old) }
        ensures full { IsErrOf result ReviseFault.Full ↔ (self.old.held.revision ≡ 2 ^ 64 - 1) }
        ensures only { IfErr result (λ fault. fault ≡ ReviseFault.Full) }
    {
        self.renew()
    }

    /// Sets a new reset stamp, and forgets what was dropped and what changed, under another resolver, which is handed
    /// back where it is refused.
    ///
    /// # Errors
    ///
    /// `Full` exactly where the revision stands at its last value.
    pub fn reset_with(&mut self, resolver: R) -> Result<u64, (R, ReviseFault)>
        ensures after { OnOk result (self.new ≡ record { held = reset_held self.old.held; resolver = resolver }) }
        ensures version { OnOk result (version_of R.known self.new ≡ change.reset self.old.held.space (version_of R.known self.old) (R.known resolver)) }
        ensures space { self.new.held.space ≡ self.old.held.space }
        ensures revision { IfOk result (λ n. n ≡ self.new.held.revision) }
        ensures standing { (past : List plain.Version) → Standing R.known self.old past → OnOk result (Standing R.known self.new (version_of R.known self.old ∷ past)) }
        ensures resolver { OnOk result (self.new.resolver ≡ resolver) }
        ensures err { IfErr result (λ e. (self.new ≡ self.old) × (e.0 ≡ resolver)) }
        ensures full { IsErr result ↔ (self.old.held.revision ≡ 2 ^ 64 - 1) }
        ensures only { IfErr result (λ e. e.1 ≡ ReviseFault.Full) }
    {
        match self.renew() {
            Ok(revision) => {
                self.resolver = resolver;
                Ok(revision)
            }
            Err(fault) => Err((resolver, fault)),
        }
    }

    /// Lets the disk forget what it keeps to answer faster, and changes nothing else.
    pub fn reset_access_model<M: PathAccessModel>(&self, cells: &mut OwnCells<'_, M>)
        ensures same_disk { cells.new.disk.ghost_name ≡ cells.old.disk.ghost_name }
        ensures told { M.told cells.new.disk.now ≡ M.told cells.old.disk.now }
        ensures reached { M.reset_gives cells.old.disk.now cells.new.disk.now }
    {
        cells.reset();
    }

    /// `reset_read`, and then `reset_access_model`. Where the first is refused nothing is done.
    ///
    /// # Errors
    ///
    /// `Full` exactly where the revision stands at its last value.
    pub fn reset_all<M: PathAccessModel>(
        &mut self,
        cells: &mut OwnCells<'_, M>,
    ) -> Result<u64, ReviseFault>
        ensures after { OnOk result (self.new ≡ put_held self.old (reset_held self.old.held)) }
        ensures version { OnOk result (version_of R.known self.new ≡ change.reset self.old.held.space (version_of R.known self.old) (R.known self.old.resolver)) }
        ensures space { self.new.held.space ≡ self.old.held.space }
        ensures revision { IfOk result (λ n. n ≡ self.new.held.revision) }
        ensures standing { (past : List plain.Version) → Standing R.known self.old past → OnOk result (Standing R.known self.new (version_of R.known self.old ∷ past)) }
        ensures err { OnErr result ((self.new ≡ self.old) × (cells.new.disk.now ≡ cells.old.disk.now)) }
        ensures full { IsErrOf result ReviseFault.Full ↔ (self.old.held.revision ≡ 2 ^ 64 - 1) }
        ensures only { IfErr result (λ fault. fault ≡ ReviseFault.Full) }
        ensures same_disk { cells.new.disk.ghost_name ≡ cells.old.disk.ghost_name }
        ensures told { M.told cells.new.disk.now ≡ M.told cells.old.disk.now }
        ensures reached { OnOk result (M.reset_gives cells.old.disk.now cells.new.disk.now) }
    {
        let revision = self.reset_read()?;
        self.reset_access_model(cells);
        Ok(revision)
    }
}
