//! The layers that a commit changes.
ghost use Rattle.std.specs.Prelude.{◌≡◌, ◌+◌, ◌≤◌, Some, IfOk, OnErr, OnOk, map as list_map};
ghost use Rattle.std.specs.FinMap as map;
ghost use Rattle.ty_path.specs.Shared.{path_text};
ghost use Rattle.tinymist_vfs.specs.Maps.{path_map};
ghost use Rattle.tinymist_vfs.specs.Items.{item_of, items_of};
ghost use Rattle.tinymist_vfs.specs.ChangeSet.{removed_paths, inserted_files};
ghost use Rattle.ty_model.specs.Values.{same_answer};
ghost use Rattle.ty_model.specs.Standing.{same_option};
ghost use Rattle.ty_model.specs.Version as plain;
ghost use Rattle.ty_model.specs.Batch as change;

pub(crate) mod changes;
pub(crate) mod path_marks;
pub(crate) mod same;
pub(crate) mod stamp;
pub(crate) mod store;
pub(crate) mod told;
mod told_marks;

use crate::batch::item::{FileChangeSet, Item};
use crate::layers::stamp::Stamp;
use crate::layers::store::{at_text, put_id, put_path, take_id, take_path};
use crate::layers::told::change_told;
use std::alloc::Global;
use std::marker::Model;
use std::sync::ledger::Ledger;
use ty_cells::FileSnapshot;
use ty_path::{CleanPath, ImmutPath, OutOfMemory, Share};
use ty_persist::{Map, Steps};
use ty_syntax::FileId;

pub(crate) struct Layers {
    pub(crate) by_id: Map<FileId, FileSnapshot>,
    pub(crate) by_path: Map<ImmutPath, FileSnapshot>,
    pub(crate) told: Map<ImmutPath, FileSnapshot>,
    pub(crate) drops: Map<ImmutPath, Stamp>,
}

impl Model for Layers {
    ghost use Rattle.ty_model.specs.Version as plain;
    ghost use Rattle.ty_model.specs.Batch as change;
    ghost use Rattle.ty_model.specs.Codes.{layers_code};
    ghost use Rattle.tinymist_vfs.specs.Maps.{path_map, id_map};

    ghost Value = { plain.Layers };

    ghost coded = { layers_code };

    ghost view = { λ l. record { by_id = id_map l.by_id.entries; by_path = path_map l.by_path.entries; told = path_map l.told.entries; drops = path_map l.drops.entries } };
}

// By hand, so that a caller's proof sees one call and no case of a tree.
impl Drop for Layers {
    fn drop(self) {
        let Layers {
            by_id: _,
            by_path: _,
            told: _,
            drops: _,
        } = self;
    }
}

impl Layers {
    pub(crate) fn new(alloc: Global) -> Layers
        ensures { result ≡ plain.no_layers }
    {
        Layers {
            by_id: Map::new(alloc),
            by_path: Map::new(alloc),
            told: Map::new(alloc),
            drops: Map::new(alloc),
        }
    }

    pub(crate) fn share<L: Ledger>(&self, steps: &mut Steps<L>) -> Result<Layers, OutOfMemory>
        ensures same { IfOk result (λ again. again ≡ self.now) }
        ensures cost { steps.new ≤ steps.old + 4 }
    {
        Ok(Layers {
            by_id: self.by_id.share(steps)?,
            by_path: self.by_path.share(steps)?,
            told: self.told.share(steps)?,
            drops: self.drops.share(steps)?,
        })
    }
}

impl Layers {
    pub(crate) fn forget_drops(&mut self, alloc: Global)
        ensures { self.new ≡ record self.old { drops = map.empty } }
    {
        self.drops = Map::new(alloc);
    }

    /// Whether this is the shadow of a path.
    pub(crate) fn has_shadow(&self, path: &CleanPath, shadow: &FileSnapshot) -> bool
        ensures { result ≡ same_option same_answer (map.get self.now.by_path path.now) (Some shadow.now) }
    {
        match at_text(&self.by_path, path.as_str()) {
            Some(before) => before.same_as(shadow),
            None => false,
        }
    }

    /// Sets the shadow of a path. Out of memory leaves the layers as they were.
    pub(crate) fn map_path<L: Ledger>(
        &mut self,
        alloc: Global,
        path: &CleanPath,
        snap: &FileSnapshot,
        steps: &mut Steps<L>,
    ) -> Result<(), OutOfMemory>
        ensures ok { OnOk result (self.new ≡ record self.old { by_path = map.insert self.old.by_path path.now snap.now }) }
        ensures err { OnErr result (self.new ≡ self.old) }
    {
        put_path(
            &mut self.by_path,
            path.to_shared(alloc)?,
            snap.share(alloc)?,
            steps,
        )
    }

    fn unmap_path<L: Ledger>(
        &mut self,
        alloc: Global,
        stamp: Stamp,
        path: &CleanPath,
        steps: &mut Steps<L>,
    ) -> Result<(), OutOfMemory>
        ensures { OnOk result (self.new ≡ record self.old { by_path = map.remove self.old.by_path path.now; drops = map.insert self.old.drops path.now stamp }) }
    {
        let path = path.to_shared(alloc)?;
        take_path(&mut self.by_path, &path, steps)?;
        put_path(&mut self.drops, path, stamp, steps)
    }

    fn map_id<L: Ledger>(
        &mut self,
        alloc: Global,
        id: &FileId,
        snap: &FileSnapshot,
        steps: &mut Steps<L>,
    ) -> Result<(), OutOfMemory>
        ensures { OnOk result (self.new ≡ record self.old { by_id = map.insert self.old.by_id id.now snap.now }) }
    {
        put_id(&mut self.by_id, id.share(alloc)?, snap.share(alloc)?, steps)
    }

    fn unmap_id<L: Ledger>(&mut self, id: &FileId, steps: &mut Steps<L>) -> Result<(), OutOfMemory>
        ensures { OnOk result (self.new ≡ record self.old { by_id = map.remove self.old.by_id id.now }) }
    {
        take_id(&mut self.by_id, id, steps)
    }

    fn clear<L: Ledger>(
        &mut self,
        alloc: Global,
        stamp: Stamp,
        steps: &mut Steps<L>,
    ) -> Result<(), OutOfMemory>
        ensures { OnOk result (self.new ≡ record self.old { by_id = map.empty; by_path = map.empty; drops = change.dropped stamp self.old.drops (map.keys self.old.by_path) }) }
    {
        drop_keys(alloc, &self.by_path, &mut self.drops, stamp, steps)?;
        self.by_id = Map::new(alloc);
        self.by_path = Map::new(alloc);
        Ok(())
    }

    fn change<L: Ledger>(
        &mut self,
        alloc: Global,
        stamp: Stamp,
        set: &FileChangeSet,
        steps: &mut Steps<L>,
    ) -> Result<(), OutOfMemory>
        ensures { OnOk result (self.new ≡ record self.old {
          told = change.inserted (change.removed self.old.told (removed_paths set.now)) (inserted_files set.now);
          drops = change.dropped stamp self.old.drops (removed_paths set.now);
        }) }
    {
        change_told(alloc, &mut self.told, set, steps)?;
        drop_paths(alloc, &set.removes, &mut self.drops, stamp, steps)
    }

    /// One item of a batch.
    pub(crate) fn apply<L: Ledger>(
        &mut self,
        alloc: Global,
        stamp: Stamp,
        item: &Item,
        steps: &mut Steps<L>,
    ) -> Result<(), OutOfMemory>
        ensures { OnOk result (self.new ≡ change.applied stamp self.old (item_of item.now)) }
    {
        match item {
            Item::MapPath(path, snap) => self.map_path(alloc, path, snap, steps),
            Item::UnmapPath(path) => self.unmap_path(alloc, stamp, path, steps),
            Item::MapId(id, snap) => self.map_id(alloc, id, snap, steps),
            Item::UnmapId(id) => self.unmap_id(id, steps),
            Item::Clear => self.clear(alloc, stamp, steps),
            Item::ChangeSet(set) => self.change(alloc, stamp, set, steps),
            Item::ChangeView => Ok(()),
        }
    }

    /// The items of a batch, one after another.
    pub(crate) fn apply_all<L: Ledger>(
        &mut self,
        alloc: Global,
        stamp: Stamp,
        batch: &[Item],
        steps: &mut Steps<L>,
    ) -> Result<(), OutOfMemory>
        ensures { OnOk result (self.new ≡ change.applied_all stamp self.old (items_of batch.now)) }
    {
        for item in batch {
            self.apply(alloc, stamp, item, steps)?;
        }
        Ok(())
    }
}

fn drop_paths<L: Ledger>(
    alloc: Global,
    paths: &[ImmutPath],
    drops: &mut Map<ImmutPath, Stamp>,
    stamp: Stamp,
    steps: &mut Steps<L>,
) -> Result<(), OutOfMemory>
    ensures { OnOk result (path_map drops.new.entries ≡ change.dropped stamp (path_map drops.old.entries) (list_map path_text paths.now)) }
{
    for path in paths {
        put_path(drops, path.share(alloc)?, stamp, steps)?;
    }
    Ok(())
}

fn drop_keys<L: Ledger>(
    alloc: Global,
    files: &Map<ImmutPath, FileSnapshot>,
    drops: &mut Map<ImmutPath, Stamp>,
    stamp: Stamp,
    steps: &mut Steps<L>,
) -> Result<(), OutOfMemory>
    ensures { OnOk result (path_map drops.new.entries ≡ change.dropped stamp (path_map drops.old.entries) (map.keys (path_map files.now.entries))) }
{
    for (path, _) in files.iter() {
        put_path(drops, path.share(alloc)?, stamp, steps)?;
    }
    Ok(())
}
