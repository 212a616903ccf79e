//! A commit of a batch: one shadow in place, and all else over a share of the layers.
ghost use Rattle.std.specs.Prelude.{◌≡◌, ◌^◌, ◌<◌, ◌∷◌, [], OnErr, IfOk, IsErr, IsErrOf};
ghost use Rattle.ty_model.specs.Batch as change;

use crate::batch::item::Item;
use crate::batch::revise::ReviseFault;
use crate::batch::{Batch, changes_view, only_shadow};
use crate::layers::same::either;
use crate::layers::stamp::Stamp;
use crate::vfs::Vfs;
use std::marker::Brand;
use std::sync::ledger::{Blank, Ledger};
use ty_cells::FileSnapshot;
use ty_path::CleanPath;
use ty_persist::Steps;

impl<R> Vfs<R> {
    ghost use Rattle.tinymist_vfs.specs.Items.{items_of};
    ghost use Rattle.tinymist_vfs.specs.Commits.{committed, is_full};

    /// Commits the shadow of one path, in place where nobody shares what lies on the way to it.
    fn commit_shadow<L: Ledger>(
        &mut self,
        path: &CleanPath,
        shadow: &FileSnapshot,
        steps: &mut Steps<L>,
    ) -> Result<u64, ReviseFault>
        ensures ok { IfOk result (λ n. (self.new ≡ committed self.old (change.MapPath path.now shadow.now ∷ [])) × (n ≡ self.new.held.revision)) }
        ensures err { OnErr result (self.new ≡ self.old) }
        ensures full { IsErrOf result ReviseFault.Full → is_full self.old.held (change.MapPath path.now shadow.now ∷ []) }
        ensures small { IfOk result (λ n. n < 2 ^ 64) }
    {
        let revision = self.revision;
        if self.layers.has_shadow(path, shadow) {
            return Ok(revision);
        }
        if revision == u64::MAX {
            return Err(ReviseFault::Full);
        }
        let next = revision + 1;
        self.changes
            .map_path(self.alloc, &mut self.layers, path, shadow, next, steps)?;
        self.revision = next;
        Ok(next)
    }

    /// Commits items over a share of the layers, which takes the place of the layers where something differs.
    fn commit_staged<L: Ledger>(
        &mut self,
        batch: &[Item],
        steps: &mut Steps<L>,
    ) -> Result<u64, ReviseFault>
        ensures ok { IfOk result (λ n. (self.new ≡ committed self.old (items_of batch.now)) × (n ≡ self.new.held.revision)) }
        ensures err { OnErr result (self.new ≡ self.old) }
        ensures full { IsErrOf result ReviseFault.Full → is_full self.old.held (items_of batch.now) }
        ensures small { IfOk result (λ n. n < 2 ^ 64) }
    {
        let mut layers = self.layers.share(steps)?;
        let stamp = Stamp::next(self.space, self.revision);
        layers.apply_all(self.alloc, stamp, batch, steps)?;
        let mut changes = self.changes.share(self.alloc, steps)?;
        let revision = self.revision.saturating_add(1);
        let differs = changes.mark_all(self.alloc, &self.layers, &layers, batch, revision, steps)?;
        if !either(differs, changes_view(batch)) {
            return Ok(self.revision);
        }
        if self.revision == u64::MAX {
            return Err(ReviseFault::Full);
        }
        self.layers = layers;
        self.changes = changes;
        self.revision = revision;
        Ok(revision)
    }

    fn commit_steps<L: Ledger>(
        &mut self,
        batch: &[Item],
        steps: &mut Steps<L>,
    ) -> Result<u64, ReviseFault>
        ensures ok { IfOk result (λ n. (self.new ≡ committed self.old (items_of batch.now)) × (n ≡ self.new.held.revision)) }
        ensures err { OnErr result (self.new ≡ self.old) }
        ensures full { IsErrOf result ReviseFault.Full → is_full self.old.held (items_of batch.now) }
        ensures small { IfOk result (λ n. n < 2 ^ 64) }
    {
        match only_shadow(batch) {
            Some((path, shadow)) => self.commit_shadow(path, shadow, steps),
            None => self.commit_staged(batch, steps),
        }
    }

    fn commit_blank<L: Ledger>(&mut self, batch: &[Item], blank: Blank) -> Result<u64, ReviseFault>
        requires name { blank.name ≡ L.name }
        requires parts { blank.parts ≡ L.parts }
        requires some { 0 < L.parts }
        ensures ok { IfOk result (λ n. (self.new ≡ committed self.old (items_of batch.now)) × (n ≡ self.new.held.revision)) }
        ensures err { OnErr result (self.new ≡ self.old) }
        ensures full { IsErrOf result ReviseFault.Full → is_full self.old.held (items_of batch.now) }
        ensures small { IfOk result (λ n. n < 2 ^ 64) }
    {
        let mut steps: Steps<L> = Steps::new(blank);
        self.commit_steps(batch, &mut steps)
    }

    /// Commits a batch. What can be refused comes before the first write.
    pub(crate) fn commit_batch(&mut self, batch: &Batch) -> Result<u64, ReviseFault>
        ensures ok { IfOk result (λ n. (self.new ≡ committed self.old batch.now) × (n ≡ self.new.held.revision)) }
        ensures err { OnErr result (self.new ≡ self.old) }
        ensures full { IsErrOf result ReviseFault.Full → is_full self.old.held batch.now }
        ensures exact { is_full self.old.held batch.now → IsErr result }
    {
        self.commit_blank::<Brand>(batch.items(), Blank::new(1))
    }
}
