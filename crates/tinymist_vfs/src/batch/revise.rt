//! A batch of changes of the layers, over whatever holds them.
ghost use Rattle.std.specs.Prelude.{◌≡◌, List, [], ◌∷◌, ◌++◌, refl, OnOk, OnErr, IfOk, IsErr, IsErrOf, map, true, false};
ghost use Rattle.std.specs.Borrow.{sem, RestsIfErr};
ghost use Rattle.ty_model.specs.Held.{Kept};
ghost use Rattle.ty_model.specs.Standing.{Held};
ghost use Rattle.ty_model.specs.Version as plain;
ghost use Rattle.ty_model.specs.Batch as change;
ghost use Rattle.ty_model.specs.Paths as paths;
ghost use Rattle.tinymist_vfs.specs.Items.{item_of, clean_item, clean_text, clean_file, gathered};
ghost use Rattle.tinymist_vfs.specs.Revising.{items_in, all_in, IsOver, AddsItems};
ghost use Rattle.tinymist_vfs.specs.ChangeSet.{set_of};
ghost use Rattle.tinymist_vfs.specs.Commits.{put_held, committed, is_full};
ghost use Rattle.ty_model.specs.Touched.{commit_held};
ghost use Rattle.ty_model.specs.Places.{Resolver};
ghost use Rattle.ty_model.specs.Standing.{IsCommit, Stands, past_after, version_with};

use crate::batch::Batch;
use crate::batch::item::{FileChangeSet, Item};
use crate::vfs::Vfs;
use crate::watch::event::FilesystemEvent;
use std::alloc::Global;
use std::marker::PhantomData;
use thiserror::Error;
use ty_cells::FileSnapshot;
use ty_path::{CleanPath, OutOfMemory, Share};
use ty_syntax::FileId;

/// Why nothing was revised.
#[derive(Clone, Copy, Debug, PartialEq, Eq, Error)]
pub enum ReviseFault {
    /// The revision stands at its last value.
    #[error("the revision stands at its last value")]
    Full,
    /// No memory was left.
    #[error("out of memory")]
    OutOfMemory,
}

impl From<OutOfMemory> for ReviseFault {
    ghost use Rattle.std.specs.Prelude.{◌≡◌};
    ghost use Rattle.tinymist_vfs.specs.declared.batch.revise.ReviseFault.TheVariants.{OutOfMemory as no_memory};

    ghost from_gives = { λ _ e. e ≡ no_memory };

    fn from(_: OutOfMemory) -> Self {
        ReviseFault::OutOfMemory
    }
}

/// What holds layers and can commit a batch to them.
pub trait HoldsVfs<R> {
    /// The layers that are held.
    ghost kept: { Self → Kept R };

    /// The holder with these layers.
    ghost with_held: { Self → Held → Self };

    /// The layers that are held.
    fn vfs(&self) -> &Vfs<R>
        ensures { result.now ≡ kept self.now };

    /// Commits a batch, and answers the revision.
    ///
    /// # Errors
    ///
    /// `Full` exactly where the revision would rise past its last value.
    fn commit(&mut self, batch: &Batch) -> Result<u64, ReviseFault>
        ensures ok { IfOk result (λ n. (self.new ≡ with_held self.old (commit_held (kept self.old).held batch.now)) × (n ≡ (commit_held (kept self.old).held batch.now).revision)) }
        ensures err { OnErr result (self.new ≡ self.old) }
        ensures full { IsErrOf result ReviseFault.Full → is_full (kept self.old).held batch.now }
        ensures exact { is_full (kept self.old).held batch.now → IsErr result };

    /// The holder with these layers holds them.
    ghost holds: { (s : Self) (h : Held) → kept (with_held s h) ≡ put_held (kept s) h };
}

impl<R> HoldsVfs<R> for Vfs<R> {
    ghost kept = { λ k. k };

    ghost with_held = { put_held };

    fn vfs(&self) -> &Vfs<R> {
        self
    }

    fn commit(&mut self, batch: &Batch) -> Result<u64, ReviseFault> {
        self.commit_batch(batch)
    }

    ghost holds = { λ s h. refl };
}

/// The batch, and after it the change of view where there was one.
fn with_view(batch: Batch, changes_view: bool) -> Result<Batch, OutOfMemory>
    ensures { IfOk result (λ all. all ≡ gathered batch changes_view) }
{
    let mut all = batch;
    if changes_view {
        all.push(Item::ChangeView)?;
    }
    Ok(all)
}

/// A batch of changes over what holds the layers.
pub struct RevisingVfs<'a, R, H = Vfs<R>, B = Batch> {
    holder: &'a mut H,
    batch: B,
    changes_view: bool,
    alloc: Global,
    resolver: PhantomData<R>,
}

/// A batch that is dropped changes nothing.
impl<R, H, B: Drop> Drop for RevisingVfs<'_, R, H, B> {
    fn drop(self)
        ensures { self.exit.0.now ≡ self.entry.holder.now }
    {
        let RevisingVfs {
            holder: _,
            batch: _,
            changes_view: _,
            alloc: _,
            resolver: _,
        } = self;
    }
}

impl<'a, R, H: HoldsVfs<R>> RevisingVfs<'a, R, H> {
    /// An empty batch.
    pub fn new(alloc: Global, holder: &'a mut H) -> RevisingVfs<'a, R, H>
        ensures same { result.holder.ghost_name ≡ holder.entry.ghost_name }
        ensures now { result.holder.now ≡ holder.old }
        ensures batch { (result.batch ≡ []) × (result.changes_view ≡ false) }
    {
        RevisingVfs {
            holder,
            batch: Batch::new(alloc),
            changes_view: false,
            alloc,
            resolver: PhantomData,
        }
    }

    /// The layers as they stood before the batch.
    pub fn vfs(&self) -> &Vfs<R>
        ensures { result.now ≡ H.kept self.now.holder.now }
    {
        self.holder.vfs()
    }

    fn add(&mut self, item: Item) -> Result<(), OutOfMemory>
        ensures adds { AddsItems self.old self.new }
        ensures ok { OnOk result (items_in self.new ≡ items_in self.old ++ item_of item ∷ []) }
        ensures err { OnErr result (items_in self.new ≡ items_in self.old) }
    {
        self.batch.push(item)
    }

    /// Gathers an item. The paths of a change set are cleaned.
    pub fn push(&mut self, item: Item) -> Result<(), OutOfMemory>
        ensures adds { AddsItems self.old self.new }
        ensures ok { OnOk result (items_in self.new ≡ items_in self.old ++ clean_item item ∷ []) }
        ensures err { OnErr result (items_in self.new ≡ items_in self.old) }
    {
        match item {
            Item::ChangeSet(set) => self.notify_fs_changes(set),
            other => self.add(other),
        }
    }

    /// Maps a path, cleaned, to what the file is to be.
    pub fn map_shadow(&mut self, path: &str, snap: FileSnapshot) -> Result<(), OutOfMemory>
        ensures adds { AddsItems self.old self.new }
        ensures ok { OnOk result (items_in self.new ≡ items_in self.old ++ change.MapPath (paths.clean path.now) snap ∷ []) }
        ensures err { OnErr result (items_in self.new ≡ items_in self.old) }
    {
        let path = CleanPath::new(self.alloc, path)?;
        self.add(Item::MapPath(path, snap))
    }

    /// Takes a path, cleaned, out of the overlay, and stamps it as dropped, whether it was there or not.
    pub fn unmap_shadow(&mut self, path: &str) -> Result<(), OutOfMemory>
        ensures adds { AddsItems self.old self.new }
        ensures ok { OnOk result (items_in self.new ≡ items_in self.old ++ change.UnmapPath (paths.clean path.now) ∷ []) }
        ensures err { OnErr result (items_in self.new ≡ items_in self.old) }
    {
        let path = CleanPath::new(self.alloc, path)?;
        self.add(Item::UnmapPath(path))
    }

    /// Maps an id to what the file is to be, whatever its path.
    pub fn map_shadow_by_id(&mut self, id: &FileId, snap: FileSnapshot) -> Result<(), OutOfMemory>
        ensures adds { AddsItems self.old self.new }
        ensures ok { OnOk result (items_in self.new ≡ items_in self.old ++ change.MapId id.now snap ∷ []) }
        ensures err { OnErr result (items_in self.new ≡ items_in self.old) }
    {
        let id = id.share(self.alloc)?;
        self.add(Item::MapId(id, snap))
    }

    /// Takes an id out of the overlay.
    pub fn remove_shadow_by_id(&mut self, id: &FileId) -> Result<(), OutOfMemory>
        ensures adds { AddsItems self.old self.new }
        ensures ok { OnOk result (items_in self.new ≡ items_in self.old ++ change.UnmapId id.now ∷ []) }
        ensures err { OnErr result (items_in self.new ≡ items_in self.old) }
    {
        let id = id.share(self.alloc)?;
        self.add(Item::UnmapId(id))
    }

    /// Empties both overlays, and stamps each path that was in its overlay as dropped.
    pub fn reset_shadow(&mut self) -> Result<(), OutOfMemory>
        ensures adds { AddsItems self.old self.new }
        ensures ok { OnOk result (items_in self.new ≡ items_in self.old ++ change.Clear ∷ []) }
        ensures err { OnErr result (items_in self.new ≡ items_in self.old) }
    {
        self.add(Item::Clear)
    }

    /// Takes the removed paths out of the told files and stamps them as dropped, and then tells the inserted
    /// files, of which the last of a path stands. All paths are cleaned.
    pub fn notify_fs_changes(&mut self, event: FileChangeSet) -> Result<(), OutOfMemory>
        ensures adds { AddsItems self.old self.new }
        ensures ok { OnOk result (items_in self.new ≡ items_in self.old ++ change.ChangeSet (map clean_text event.removes.items) (map clean_file event.inserts.items) ∷ []) }
        ensures err { OnErr result (items_in self.new ≡ items_in self.old) }
    {
        let set = event.cleaned(self.alloc)?;
        self.add(Item::ChangeSet(set))
    }

    /// Gathers the change set of an event, as `notify_fs_changes` does.
    pub fn notify_fs_event(&mut self, event: FilesystemEvent) -> Result<(), OutOfMemory>
        ensures adds { AddsItems self.old self.new }
        ensures ok { OnOk result (items_in self.new ≡ items_in self.old ++ change.ChangeSet (map clean_text (set_of event).removes.items) (map clean_file (set_of event).inserts.items) ∷ []) }
        ensures err { OnErr result (items_in self.new ≡ items_in self.old) }
    {
        let (set, _upstream) = event.split();
        self.notify_fs_changes(set)
    }

    /// Raises the revision at the end of the batch, whether something differs or not. It takes no memory.
    pub fn change_view(&mut self)
        ensures over { IsOver self.old self.new }
        ensures view { all_in self.new ≡ items_in self.old ++ change.ChangeView ∷ [] }
        ensures items { items_in self.new ≡ items_in self.old }
    {
        self.changes_view = true;
    }

    /// Commits the batch, and answers the revision, which rises by one exactly where something in the
    /// version differs or the view was changed. The version is then that of the definition's commit, and the
    /// change revision of each id and path that became other is the new revision (`commit`).
    ///
    /// # Errors
    ///
    /// `Full` exactly where the revision would rise and stands at its last value; what holds the layers
    /// is then as before.
    pub fn finish(self) -> Result<u64, ReviseFault>
        ensures ok { let old = self.entry.holder.now in
            let after = commit_held (H.kept old).held (all_in self.entry) in
            IfOk result (λ n. (self.exit.0.now ≡ H.with_held old after) × (n ≡ after.revision)) }
        ensures kept { let old = H.kept self.entry.holder.now in
            OnOk result (H.kept self.exit.0.now ≡ committed old (all_in self.entry)) }
        ensures commit { OnOk result (IsCommit (H.kept self.entry.holder.now).held (all_in self.entry) (H.kept self.exit.0.now).held) }
        ensures err { OnErr result (self.exit.0.now ≡ self.entry.holder.now) }
        ensures full { IsErrOf result ReviseFault.Full → is_full (H.kept self.entry.holder.now).held (all_in self.entry) }
        ensures exact { is_full (H.kept self.entry.holder.now).held (all_in self.entry) → IsErr result }
        ensures standing { let old = (H.kept self.entry.holder.now).held in
            (resolver : Resolver) (past : List plain.Version) → Stands old resolver past
            → OnOk result (Stands (H.kept self.exit.0.now).held resolver (past_after old.space (version_with old resolver) past (all_in self.entry))) }
    {
        let RevisingVfs {
            holder,
            batch,
            changes_view,
            alloc: _,
            resolver: _,
        } = self;
        let batch = with_view(batch, changes_view)?;
        let answer = holder.commit(&batch);
        drop(batch);
        answer
    }
}

impl<R> Vfs<R> {
    ghost use Rattle.tinymist_vfs.specs.contracts.vfs.Vfs.{the_row};

    /// A batch of changes, which changes nothing before it is finished.
    pub fn revise(&mut self) -> Result<RevisingVfs<'_, R>, OutOfMemory>
        ensures* refused { sem 𝓛 (RestsIfErr (the_row R.row) self.entry (λ r. r.holder.ghost_name) result (λ n. n ≡ self.old)) }
        ensures same { IfOk result (λ r. r.holder.ghost_name ≡ self.entry.ghost_name) }
        ensures now { IfOk result (λ r. (r.holder.now ≡ self.old) × (r.batch ≡ []) × (r.changes_view ≡ false)) }
    {
        Ok(RevisingVfs::new(self.alloc, self))
    }
}
