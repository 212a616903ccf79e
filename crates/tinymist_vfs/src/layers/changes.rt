//! At which revision an id or a path last changed.
ghost use Rattle.std.specs.Prelude.{◌≡◌, ◌+◌, ◌≤◌, [], ◌∷◌, ◌++◌, IfOk, OnErr, OnOk, map as list_map};
ghost use Rattle.std.specs.FinMap as map;
ghost use Rattle.ty_path.specs.Shared.{path_text};
ghost use Rattle.ty_model.specs.Batch as change;
ghost use Rattle.ty_model.specs.Touched.{IsMarked, item_ids, item_paths, touched_ids, touched_paths};
ghost use Rattle.tinymist_vfs.specs.Items.{item_of, items_of, file_of};
ghost use Rattle.tinymist_vfs.specs.ChangeSet.{removed_paths, inserted_files};
ghost use Rattle.tinymist_vfs.specs.Commits.{IsStaged};
ghost use Rattle.tinymist_vfs.specs.Maps.{Path};
ghost use Rattle.ty_model.specs.Standing as plain;

use crate::batch::item::{FileChangeSet, Item};
use crate::batch::only_set;
use crate::layers::Layers;
use crate::layers::path_marks::PathMarks;
use crate::layers::same::{either, same_id, same_path};
use crate::layers::store::{at_id, put_id};
use std::alloc::Global;
use std::marker::Model;
use std::sync::ledger::Ledger;
use ty_cells::FileSnapshot;
use ty_path::{CleanPath, ImmutPath, OutOfMemory, Share};
use ty_persist::{Map, Steps};
use ty_syntax::FileId;

pub(crate) struct Changes {
    pub(crate) ids: Map<FileId, u64>,
    pub(crate) paths: PathMarks,
    pub(crate) reset: u64,
}

impl Model for Changes {
    ghost use Rattle.ty_model.specs.Standing as plain;
    ghost use Rattle.ty_model.specs.Held.{changes_code};
    ghost use Rattle.tinymist_vfs.specs.Maps.{id_map};
    ghost use Rattle.tinymist_vfs.specs.PathMarks.{marks_in};

    ghost Value = { plain.Changes };

    ghost coded = { changes_code };

    ghost view = { λ c. record { ids = id_map c.ids.entries; paths = marks_in c.paths; reset = c.reset } };
}

// By hand, as that of the layers.
impl Drop for Changes {
    fn drop(self) {
        let Changes {
            ids: _,
            paths: _,
            reset: _,
        } = self;
    }
}

impl Changes {
    pub(crate) fn new(alloc: Global) -> Changes
        ensures { result ≡ plain.no_changes }
    {
        Changes {
            ids: Map::new(alloc),
            paths: PathMarks::new(alloc),
            reset: 0,
        }
    }

    pub(crate) fn share<L: Ledger>(
        &self,
        alloc: Global,
        steps: &mut Steps<L>,
    ) -> Result<Changes, OutOfMemory>
        ensures same { IfOk result (λ again. again ≡ self.now) }
        ensures cost { steps.new ≤ steps.old + 2 }
    {
        Ok(Changes {
            ids: self.ids.share(steps)?,
            paths: self.paths.share(alloc, steps)?,
            reset: self.reset,
        })
    }
}

impl Changes {
    /// Forgets all changes but a reset at this revision.
    pub(crate) fn forget(&mut self, alloc: Global, revision: u64)
        ensures { self.new ≡ record { ids = map.empty; paths = map.empty; reset = revision } }
    {
        self.ids = Map::new(alloc);
        self.paths = PathMarks::new(alloc);
        self.reset = revision;
    }

    pub(crate) fn reset(&self) -> u64
        ensures { result ≡ self.now.reset }
    {
        self.reset
    }

    pub(crate) fn of_id(&self, id: &FileId) -> u64
        ensures { result ≡ plain.changed_id self.now id.now }
    {
        match at_id(&self.ids, id) {
            Some(revision) => *revision,
            None => 0,
        }
    }

    pub(crate) fn of_path(&self, path: &str) -> u64
        ensures { result ≡ plain.changed_path self.now path.now }
    {
        match self.paths.get(path) {
            Some(revision) => revision,
            None => 0,
        }
    }

    fn mark_id<L: Ledger>(
        &mut self,
        alloc: Global,
        old: &Layers,
        new: &Layers,
        id: &FileId,
        revision: u64,
        steps: &mut Steps<L>,
    ) -> Result<bool, OutOfMemory>
        ensures { IfOk result (λ b. IsMarked old.now new.now revision self.old (id.now ∷ []) [] b self.new) }
    {
        if same_id(old, new, id) {
            return Ok(false);
        }
        put_id(&mut self.ids, id.share(alloc)?, revision, steps)?;
        Ok(true)
    }

    fn mark_path<L: Ledger>(
        &mut self,
        alloc: Global,
        old: &Layers,
        new: &Layers,
        path: &ImmutPath,
        revision: u64,
        steps: &mut Steps<L>,
    ) -> Result<bool, OutOfMemory>
        ensures { IfOk result (λ b. IsMarked old.now new.now revision self.old [] (path_text path.now ∷ []) b self.new) }
    {
        if same_path(old, new, path) {
            return Ok(false);
        }
        self.paths.put(alloc, path, revision, steps)?;
        Ok(true)
    }

    fn mark_clean<L: Ledger>(
        &mut self,
        alloc: Global,
        old: &Layers,
        new: &Layers,
        path: &CleanPath,
        revision: u64,
        steps: &mut Steps<L>,
    ) -> Result<bool, OutOfMemory>
        ensures { IfOk result (λ b. IsMarked old.now new.now revision self.old [] (path.now ∷ []) b self.new) }
    {
        let path = path.to_shared(alloc)?;
        self.mark_path(alloc, old, new, &path, revision, steps)
    }

    fn mark_paths<L: Ledger>(
        &mut self,
        alloc: Global,
        old: &Layers,
        new: &Layers,
        paths: &[ImmutPath],
        revision: u64,
        steps: &mut Steps<L>,
    ) -> Result<bool, OutOfMemory>
        ensures { IfOk result (λ b. IsMarked old.now new.now revision self.old [] (list_map path_text paths.now) b self.new) }
    {
        let mut differs = false;
        for path in paths {
            let more = self.mark_path(alloc, old, new, path, revision, steps)?;
            differs = either(differs, more);
        }
        Ok(differs)
    }

    fn mark_files<L: Ledger>(
        &mut self,
        alloc: Global,
        old: &Layers,
        new: &Layers,
        files: &[(ImmutPath, FileSnapshot)],
        revision: u64,
        steps: &mut Steps<L>,
    ) -> Result<bool, OutOfMemory>
        ensures { IfOk result (λ b. IsMarked old.now new.now revision self.old [] (list_map (λ f. path_text f.0) files.now) b self.new) }
    {
        let mut differs = false;
        for (path, _) in files {
            let more = self.mark_path(alloc, old, new, path, revision, steps)?;
            differs = either(differs, more);
        }
        Ok(differs)
    }

    fn mark_overlay<L: Ledger>(
        &mut self,
        alloc: Global,
        old: &Layers,
        new: &Layers,
        revision: u64,
        steps: &mut Steps<L>,
    ) -> Result<bool, OutOfMemory>
        ensures { IfOk result (λ b. IsMarked old.now new.now revision self.old [] (map.keys old.now.by_path) b self.new) }
    {
        let mut differs = false;
        for (path, _) in old.by_path.iter() {
            let more = self.mark_path(alloc, old, new, path, revision, steps)?;
            differs = either(differs, more);
        }
        Ok(differs)
    }

    fn mark_ids<L: Ledger>(
        &mut self,
        alloc: Global,
        old: &Layers,
        new: &Layers,
        revision: u64,
        steps: &mut Steps<L>,
    ) -> Result<bool, OutOfMemory>
        ensures { IfOk result (λ b. IsMarked old.now new.now revision self.old (map.keys old.now.by_id) [] b self.new) }
    {
        let mut differs = false;
        for (id, _) in old.by_id.iter() {
            let more = self.mark_id(alloc, old, new, id, revision, steps)?;
            differs = either(differs, more);
        }
        Ok(differs)
    }

    fn mark_clear<L: Ledger>(
        &mut self,
        alloc: Global,
        old: &Layers,
        new: &Layers,
        revision: u64,
        steps: &mut Steps<L>,
    ) -> Result<bool, OutOfMemory>
        ensures { IfOk result (λ b. IsMarked old.now new.now revision self.old (map.keys old.now.by_id) (map.keys old.now.by_path) b self.new) }
    {
        let ids = self.mark_ids(alloc, old, new, revision, steps)?;
        let paths = self.mark_overlay(alloc, old, new, revision, steps)?;
        Ok(either(ids, paths))
    }

    fn mark_set<L: Ledger>(
        &mut self,
        alloc: Global,
        old: &Layers,
        new: &Layers,
        set: &FileChangeSet,
        revision: u64,
        steps: &mut Steps<L>,
    ) -> Result<bool, OutOfMemory>
        ensures { IfOk result (λ b. IsMarked old.now new.now revision self.old [] (list_map path_text set.now.removes.items ++ list_map (λ f. f.0) (list_map file_of set.now.inserts.items)) b self.new) }
    {
        let removed = self.mark_paths(alloc, old, new, &set.removes, revision, steps)?;
        let inserted = self.mark_files(alloc, old, new, &set.inserts, revision, steps)?;
        Ok(either(removed, inserted))
    }

    fn mark_item<L: Ledger>(
        &mut self,
        alloc: Global,
        old: &Layers,
        new: &Layers,
        item: &Item,
        revision: u64,
        steps: &mut Steps<L>,
    ) -> Result<bool, OutOfMemory>
        ensures { IfOk result (λ b. IsMarked old.now new.now revision self.old (item_ids old.now (item_of item.now)) (item_paths old.now (item_of item.now)) b self.new) }
    {
        match item {
            Item::MapPath(path, _) => self.mark_clean(alloc, old, new, path, revision, steps),
            Item::UnmapPath(path) => self.mark_clean(alloc, old, new, path, revision, steps),
            Item::MapId(id, _) => self.mark_id(alloc, old, new, id, revision, steps),
            Item::UnmapId(id) => self.mark_id(alloc, old, new, id, revision, steps),
            Item::Clear => self.mark_clear(alloc, old, new, revision, steps),
            Item::ChangeSet(set) => self.mark_set(alloc, old, new, set, revision, steps),
            Item::ChangeView => Ok(false),
        }
    }

    /// Sets the shadow of a path in place, and marks the path. Out of memory leaves both as they were: all that can
    /// be refused comes before the first change.
    pub(crate) fn map_path<L: Ledger>(
        &mut self,
        alloc: Global,
        layers: &mut Layers,
        path: &CleanPath,
        shadow: &FileSnapshot,
        revision: u64,
        steps: &mut Steps<L>,
    ) -> Result<(), OutOfMemory>
        ensures layers { OnOk result (layers.new ≡ record layers.old { by_path = map.insert layers.old.by_path path.now shadow.now }) }
        ensures marks { OnOk result (self.new ≡ record self.old { paths = map.insert self.old.paths path.now revision }) }
        ensures err { OnErr result ((layers.new ≡ layers.old) × (self.new ≡ self.old)) }
    {
        let marked = path.to_shared(alloc)?;
        self.paths.settle(alloc, steps)?;
        layers.map_path(alloc, path, shadow, steps)?;
        self.paths.wait(marked, revision);
        Ok(())
    }

    fn mark_items<L: Ledger>(
        &mut self,
        alloc: Global,
        old: &Layers,
        new: &Layers,
        batch: &[Item],
        revision: u64,
        steps: &mut Steps<L>,
    ) -> Result<bool, OutOfMemory>
        ensures { IfOk result (λ b. IsMarked old.now new.now revision self.old (touched_ids old.now (items_of batch.now)) (touched_paths old.now (items_of batch.now)) b self.new) }
    {
        let mut differs = false;
        for item in batch {
            let more = self.mark_item(alloc, old, new, item, revision, steps)?;
            differs = either(differs, more);
        }
        Ok(differs)
    }

    /// Marks the paths of a change set that is the whole batch. No shadow is another then, and a drop stamp only where
    /// a path was removed, so of an inserted file what is told alone is compared.
    fn mark_only_set<L: Ledger>(
        &mut self,
        alloc: Global,
        old: &Layers,
        new: &Layers,
        set: &FileChangeSet,
        revision: u64,
        steps: &mut Steps<L>,
    ) -> Result<bool, OutOfMemory>
        requires { IsStaged old.now (change.ChangeSet (removed_paths set.now) (inserted_files set.now) ∷ []) new.now }
        ensures { IfOk result (λ b. IsMarked old.now new.now revision self.old [] (removed_paths set.now ++ list_map (λ f. f.0) (inserted_files set.now)) b self.new) }
    {
        let removed = self.mark_paths(alloc, old, new, &set.removes, revision, steps)?;
        let inserted = self.mark_told_files(alloc, old, new, &set.inserts, revision, steps)?;
        Ok(either(removed, inserted))
    }

    /// Marks the keys that the batch made other, and tells whether there is one.
    pub(crate) fn mark_all<L: Ledger>(
        &mut self,
        alloc: Global,
        old: &Layers,
        new: &Layers,
        batch: &[Item],
        revision: u64,
        steps: &mut Steps<L>,
    ) -> Result<bool, OutOfMemory>
        requires { IsStaged old.now (items_of batch.now) new.now }
        ensures { IfOk result (λ b. IsMarked old.now new.now revision self.old (touched_ids old.now (items_of batch.now)) (touched_paths old.now (items_of batch.now)) b self.new) }
    {
        match only_set(batch) {
            Some(set) => self.mark_only_set(alloc, old, new, set, revision, steps),
            None => self.mark_items(alloc, old, new, batch, revision, steps),
        }
    }
}
