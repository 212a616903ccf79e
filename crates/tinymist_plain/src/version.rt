//! A version as plain lists: what its overlays map, what is told, and when paths were dropped.
ghost use Rattle.std.specs.Prelude.{◌≡◌, map, IfOk, OnOk};
ghost use Rattle.std.specs.Option.{option_copied, option_or};
ghost use Rattle.std.specs.FinMap as finmap;
ghost use Rattle.ty_model.specs.Values.{text_cmp};
ghost use Rattle.ty_model.specs.Version as model;
ghost use Rattle.ty_model.specs.Version.{first_version};
ghost use Rattle.ty_model.specs.Batch as batch;
ghost use Rattle.ty_model.specs.Disk.{Told, IsFixed};
ghost use Rattle.ty_model.specs.Standing.{same_at_path, same_entries_at};
ghost use Rattle.ty_path.specs.Shared.{path_text};
ghost use Rattle.tinymist_vfs.specs.Items.{clean_item, clean_text, clean_file};
ghost use Rattle.session_grammar.specs.Plain.{plain_changes};
ghost use Rattle.tinymist_plain.specs.Lists.{pairs, id_pairs, put_all, without_all};
ghost use Rattle.tinymist_plain.specs.Kept.{layers_of, version_of, lists_of, listed, said_at, said_in, looked, same_lists, stamped, path_entries, place_entries, id_entries};
ghost use Rattle.tinymist_plain.specs.Stands.{place_said};

use crate::entries::{
    Entry, copy_answers, copy_stamps, find, put, remove, same_answers, same_stamps,
};
use crate::ids::{IdEntry, copy_ids, find_id, put_id, remove_id, same_ids};
use crate::place::{Place, place_of};
use crate::same::{same_answer, same_stamp};
use crate::stamp::Stamp;
use std::alloc::Global;
use std::sync::Arc;
use tinymist_vfs::{FileChangeSet, Item};
use ty_cells::{FileSnapshot, PathAccessModel};
use ty_path::{ImmutPath, OutOfMemory, Share, clean};
use ty_syntax::{FileError, FileId};

/// What is mapped, told and dropped, at a revision.
#[derive(Drop)]
pub(crate) struct Version {
    pub(crate) revision: u64,
    reset: Stamp,
    by_id: Vec<IdEntry>,
    by_path: Vec<Entry<FileSnapshot>>,
    told: Vec<Entry<FileSnapshot>>,
    drops: Vec<Entry<Stamp>>,
}

impl Version {
    /// The first version, in which nothing is mapped.
    pub(crate) fn first(alloc: Global) -> Version
        ensures { version_of result ≡ listed (first_version 1 finmap.empty) }
    {
        Version {
            revision: 2,
            reset: Stamp::new(1, 2),
            by_id: Vec::new(alloc),
            by_path: Vec::new(alloc),
            told: Vec::new(alloc),
            drops: Vec::new(alloc),
        }
    }

    /// A whole copy.
    pub(crate) fn copy(&self, alloc: Global) -> Result<Version, OutOfMemory>
        ensures { IfOk result (λ v. version_of v ≡ version_of self.now) }
    {
        Ok(Version {
            revision: self.revision,
            reset: self.reset,
            by_id: copy_ids(alloc, &self.by_id)?,
            by_path: copy_answers(alloc, &self.by_path)?,
            told: copy_answers(alloc, &self.told)?,
            drops: copy_stamps(alloc, &self.drops)?,
        })
    }

    /// Edits it by an item, where drops get this stamp.
    pub(crate) fn edit(
        &mut self,
        alloc: Global,
        item: &Item,
        stamp: Stamp,
    ) -> Result<(), OutOfMemory>
        ensures layers { (l : model.Layers) → layers_of self.old ≡ lists_of l → OnOk result (layers_of self.new ≡ lists_of (batch.applied stamp l (clean_item item.now))) }
        ensures revision { self.new.revision ≡ self.old.revision }
        ensures reset { self.new.reset ≡ self.old.reset }
    {
        match item {
            Item::MapPath(path, answer) => self.map_path(alloc, path.as_str(), answer),
            Item::UnmapPath(path) => self.unmap_path(alloc, path.as_str(), stamp),
            Item::MapId(id, answer) => self.map_id(alloc, id, answer),
            Item::UnmapId(id) => {
                self.unmap_id(id);
                Ok(())
            }
            Item::Clear => self.clear(alloc, stamp),
            Item::ChangeSet(changes) => self.notify(alloc, changes, stamp),
            Item::ChangeView => Ok(()),
        }
    }

    /// Maps a path, whatever was mapped there.
    fn map_path(
        &mut self,
        alloc: Global,
        path: &str,
        answer: &FileSnapshot,
    ) -> Result<(), OutOfMemory>
        ensures layers { (stamp : model.Stamp) (l : model.Layers) → layers_of self.old ≡ lists_of l → OnOk result (layers_of self.new ≡ lists_of (batch.applied stamp l (batch.MapPath path.now answer.now))) }
        ensures revision { self.new.revision ≡ self.old.revision }
        ensures reset { self.new.reset ≡ self.old.reset }
    {
        let path = String::from_str(alloc, path)?;
        put(&mut self.by_path, path, answer.share(alloc)?)
    }

    /// Takes away what is mapped at a path, and drops the path.
    fn unmap_path(&mut self, alloc: Global, path: &str, stamp: Stamp) -> Result<(), OutOfMemory>
        ensures layers { (l : model.Layers) → layers_of self.old ≡ lists_of l → OnOk result (layers_of self.new ≡ lists_of (batch.applied stamp l (batch.UnmapPath path.now))) }
        ensures revision { self.new.revision ≡ self.old.revision }
        ensures reset { self.new.reset ≡ self.old.reset }
    {
        remove(&mut self.by_path, path);
        put(&mut self.drops, String::from_str(alloc, path)?, stamp)
    }

    /// Maps an id, whatever was mapped there.
    fn map_id(
        &mut self,
        alloc: Global,
        id: &FileId,
        answer: &FileSnapshot,
    ) -> Result<(), OutOfMemory>
        ensures layers { (stamp : model.Stamp) (l : model.Layers) → layers_of self.old ≡ lists_of l → OnOk result (layers_of self.new ≡ lists_of (batch.applied stamp l (batch.MapId id.now answer.now))) }
        ensures revision { self.new.revision ≡ self.old.revision }
        ensures reset { self.new.reset ≡ self.old.reset }
    {
        let id = id.share(alloc)?;
        put_id(&mut self.by_id, id, answer.share(alloc)?)
    }

    /// Takes away what is mapped at an id, and stamps nothing.
    fn unmap_id(&mut self, id: &FileId)
        ensures layers { (stamp : model.Stamp) (l : model.Layers) → layers_of self.old ≡ lists_of l → layers_of self.new ≡ lists_of (batch.applied stamp l (batch.UnmapId id.now)) }
        ensures revision { self.new.revision ≡ self.old.revision }
        ensures reset { self.new.reset ≡ self.old.reset }
    {
        remove_id(&mut self.by_id, id);
    }

    /// Takes away all that is mapped, and drops the paths.
    fn clear(&mut self, alloc: Global, stamp: Stamp) -> Result<(), OutOfMemory>
        ensures layers { (l : model.Layers) → layers_of self.old ≡ lists_of l → OnOk result (layers_of self.new ≡ lists_of (batch.applied stamp l batch.Clear)) }
        ensures revision { self.new.revision ≡ self.old.revision }
        ensures reset { self.new.reset ≡ self.old.reset }
    {
        let paths = self.paths(alloc)?;
        drop_paths(alloc, &mut self.drops, &paths, stamp)?;
        self.by_path = Vec::new(alloc);
        self.by_id = Vec::new(alloc);
        Ok(())
    }

    /// Tells a change set: its removed paths are dropped, and then its files are told.
    fn notify(
        &mut self,
        alloc: Global,
        changes: &FileChangeSet,
        stamp: Stamp,
    ) -> Result<(), OutOfMemory>
        ensures layers { (l : model.Layers) → layers_of self.old ≡ lists_of l → OnOk result (layers_of self.new ≡ lists_of (batch.applied stamp l (batch.ChangeSet (plain_changes changes.now).removes (plain_changes changes.now).inserts))) }
        ensures revision { self.new.revision ≡ self.old.revision }
        ensures reset { self.new.reset ≡ self.old.reset }
    {
        let removes = cleaned(alloc, &changes.removes)?;
        remove_paths(&mut self.told, &removes);
        put_files(alloc, &mut self.told, &changes.inserts)?;
        drop_paths(alloc, &mut self.drops, &removes, stamp)
    }

    /// The paths at which something is mapped, ascending.
    pub(crate) fn paths(&self, alloc: Global) -> Result<Vec<ImmutPath>, OutOfMemory>
        ensures { IfOk result (λ paths. map path_text paths.items ≡ map (λ e. e.0) (pairs self.now.by_path.items)) }
    {
        let mut paths = Vec::new(alloc);
        for entry in &self.by_path {
            paths.push(Arc::new(alloc, entry.path.clone()?)?)?;
        }
        Ok(paths)
    }

    /// The ids at which something is mapped, ascending.
    pub(crate) fn ids(&self, alloc: Global) -> Result<Vec<FileId>, OutOfMemory>
        ensures { IfOk result (λ ids. ids.items ≡ map (λ e. e.0) (id_pairs self.now.by_id.items)) }
    {
        let mut ids = Vec::new(alloc);
        for entry in &self.by_id {
            ids.push(entry.id.share(alloc)?)?;
        }
        Ok(ids)
    }

    /// Whether both have the same lists.
    pub(crate) fn same_layers(&self, other: &Version) -> bool
        ensures { result ≡ same_lists (layers_of self.now) (layers_of other.now) }
    {
        same_ids(&other.by_id, &self.by_id)
            && same_answers(&other.by_path, &self.by_path)
            && same_answers(&other.told, &self.told)
            && same_stamps(&other.drops, &self.drops)
    }

    /// Whether both have the same entries for an id.
    pub(crate) fn same_at(
        &self,
        alloc: Global,
        other: &Version,
        id: &FileId,
    ) -> Result<bool, OutOfMemory>
        ensures { IfOk result (λ same. same ≡ same_entries_at (id_entries (version_of self.now) id.now) (id_entries (version_of other.now) id.now)) }
    {
        let place = place_of(alloc, id)?;
        Ok(
            same_answer(find_id(&self.by_id, id), find_id(&other.by_id, id))
                && self.same_at_place(other, &place)
                && self.reset.same_as(&other.reset),
        )
    }

    /// Whether both have the same at a place.
    fn same_at_place(&self, other: &Version, place: &Place) -> bool
        ensures { result ≡ same_at_path (place_entries (layers_of self.now) (place_said place.now)) (place_entries (layers_of other.now) (place_said place.now)) }
    {
        match place {
            Place::At(path) => self.same_at_path(other, path.as_str()),
            Place::Rootless | Place::RefusedAt(_) => true,
        }
    }

    /// Whether both have the same at a path.
    fn same_at_path(&self, other: &Version, path: &str) -> bool
        ensures { result ≡ same_at_path (path_entries (layers_of self.now) path.now) (path_entries (layers_of other.now) path.now) }
    {
        same_answer(find(&self.by_path, path), find(&other.by_path, path))
            && same_answer(find(&self.told, path), find(&other.told, path))
            && same_stamp(find(&self.drops, path), find(&other.drops, path))
    }

    /// What an id has: by this version, or else by the disk.
    pub(crate) fn look<M: PathAccessModel>(
        &self,
        alloc: Global,
        disk: &mut M,
        id: &FileId,
    ) -> Result<FileSnapshot, OutOfMemory>
        ensures answer { (told : Told) → M.told disk.old ≡ Some told → IfOk result (λ said. said ≡ looked (version_of self.now) told id.now) }
        ensures left { (told : Told) → M.told disk.old ≡ Some told → IsFixed told → M.told disk.new ≡ Some told }
    {
        if let Some(answer) = find_id(&self.by_id, id) {
            return answer.share(alloc);
        }
        let place = place_of(alloc, id)?;
        self.look_in(alloc, disk, place)
    }

    /// What a place has.
    fn look_in<M: PathAccessModel>(
        &self,
        alloc: Global,
        disk: &mut M,
        place: Place,
    ) -> Result<FileSnapshot, OutOfMemory>
        ensures answer { (told : Told) → M.told disk.old ≡ Some told → IfOk result (λ said. said ≡ said_in (layers_of self.now) told (place_said place)) }
        ensures left { (told : Told) → M.told disk.old ≡ Some told → IsFixed told → M.told disk.new ≡ Some told }
    {
        match place {
            Place::At(path) => self.look_at(alloc, disk, path.as_str()),
            Place::Rootless => FileSnapshot::from_error(alloc, FileError::AccessDenied),
            Place::RefusedAt(error) => FileSnapshot::from_error(alloc, error),
        }
    }

    /// What a path has.
    fn look_at<M: PathAccessModel>(
        &self,
        alloc: Global,
        disk: &mut M,
        path: &str,
    ) -> Result<FileSnapshot, OutOfMemory>
        ensures answer { (told : Told) → M.told disk.old ≡ Some told → IfOk result (λ said. said ≡ said_at (layers_of self.now) told path.now) }
        ensures left { (told : Told) → M.told disk.old ≡ Some told → IsFixed told → M.told disk.new ≡ Some told }
    {
        match self.said_of(path) {
            Some(answer) => answer.share(alloc),
            None => disk.content(alloc, path),
        }
    }

    /// What is mapped at a path, or else told of it.
    fn said_of(&self, path: &str) -> Option<&FileSnapshot>
        ensures { option_copied result ≡ option_or (finmap.find text_cmp path.now (layers_of self.now).by_path) (finmap.find text_cmp path.now (layers_of self.now).told) }
    {
        match find(&self.by_path, path) {
            Some(answer) => Some(answer),
            None => find(&self.told, path),
        }
    }
}

/// The paths, each cleaned.
fn cleaned(alloc: Global, paths: &[ImmutPath]) -> Result<Vec<ImmutPath>, OutOfMemory>
    ensures { IfOk result (λ all. map path_text all.items ≡ map clean_text paths.now) }
{
    let mut all = Vec::with_capacity(alloc, paths.len())?;
    for path in paths {
        all.push(Arc::new(alloc, clean(alloc, path.as_str())?)?)?;
    }
    Ok(all)
}

/// Stamps paths as dropped.
fn drop_paths(
    alloc: Global,
    drops: &mut Vec<Entry<Stamp>>,
    paths: &[ImmutPath],
    stamp: Stamp,
) -> Result<(), OutOfMemory>
    ensures { OnOk result (pairs drops.new.items ≡ put_all (pairs drops.old.items) (stamped stamp (map path_text paths.now))) }
{
    for path in paths {
        put(drops, String::from_str(alloc, path.as_str())?, stamp)?;
    }
    Ok(())
}

/// Takes away what is told of paths.
fn remove_paths(told: &mut Vec<Entry<FileSnapshot>>, paths: &[ImmutPath])
    ensures { pairs told.new.items ≡ without_all (pairs told.old.items) (map path_text paths.now) }
{
    for path in paths {
        remove(told, path.as_str());
    }
}

/// Tells files, each under its cleaned path. The last of a path stands.
fn put_files(
    alloc: Global,
    told: &mut Vec<Entry<FileSnapshot>>,
    files: &[(ImmutPath, FileSnapshot)],
) -> Result<(), OutOfMemory>
    ensures { OnOk result (pairs told.new.items ≡ put_all (pairs told.old.items) (map clean_file files.now)) }
{
    for (path, answer) in files {
        let path = clean(alloc, path.as_str())?;
        put(told, path, answer.share(alloc)?)?;
    }
    Ok(())
}
