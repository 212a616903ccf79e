//! What a line asks without an edit: reads of views, lists, places and clean ids.
ghost use Rattle.std.specs.Prelude.{◌≡◌, map, IfOk};
ghost use Rattle.std.specs.Option.{option_map};
ghost use Rattle.ty_model.specs.Disk.{Told, IsFixed};
ghost use Rattle.ty_model.specs.Space as model;
ghost use Rattle.tinymist_session.specs.Machine as machine;
ghost use Rattle.session_grammar.specs.Reply.{reply_to, text_reply, line_reply, place_reply};
ghost use Rattle.session_grammar.specs.Plain.{plain_id, plain_reply, plain_target};
ghost use Rattle.tinymist_plain.specs.Kept.{IsKept, space_of, part_of};
ghost use Rattle.tinymist_plain.specs.Stands.{place_said};

use crate::place::{Place, place_of};
use crate::source::{place_reply, text_for};
use crate::space::Space;
use crate::state::State;
use std::alloc::Global;
use tinymist_session::{IdWord, Reply, Target};
use ty_cells::{FileSnapshot, PathAccessModel};
use ty_path::{OutOfMemory, Share};
use ty_syntax::{FileFault, FileId};

impl State {
    /// Looks an id up in the last version of a view.
    pub(crate) fn read_view<M: PathAccessModel>(
        &self,
        alloc: Global,
        disk: &mut M,
        view: u64,
        word: &IdWord,
    ) -> Result<Reply, OutOfMemory>
        ensures reply { (told : Told) (s : machine.State) → M.told disk.old ≡ Some told → IsKept self.now s → IfOk result (λ r. plain_reply r ≡ (machine.read_step s told view (plain_id word.now)).reply) }
        ensures left { (told : Told) → M.told disk.old ≡ Some told → IsFixed told → M.told disk.new ≡ Some told }
    {
        let Some(space) = self.view(view) else {
            return Ok(Reply::BadView);
        };
        let Some(id) = self.id_of(alloc, word)? else {
            return Ok(Reply::BadId);
        };
        reply_to(alloc, space.latest.look(alloc, disk, &id)?)
    }

    /// Reads the source of an id in the last version of a view.
    pub(crate) fn source_in<M: PathAccessModel>(
        &self,
        alloc: Global,
        disk: &mut M,
        view: u64,
        word: &IdWord,
    ) -> Result<Reply, OutOfMemory>
        ensures reply { (told : Told) (s : machine.State) → M.told disk.old ≡ Some told → IsKept self.now s → IfOk result (λ r. plain_reply r ≡ (machine.source_step s told view (plain_id word.now) text_reply).reply) }
        ensures left { (told : Told) → M.told disk.old ≡ Some told → IsFixed told → M.told disk.new ≡ Some told }
    {
        let Some(space) = self.view(view) else {
            return Ok(Reply::BadView);
        };
        let Some(id) = self.id_of(alloc, word)? else {
            return Ok(Reply::BadId);
        };
        match text_for(alloc, &space.latest, disk, &id) {
            Ok(text) => Ok(Reply::Text(text)),
            Err(FileFault::File(error)) => Ok(Reply::Fails(error)),
            Err(FileFault::OutOfMemory) => Err(OutOfMemory),
        }
    }

    /// Finds the place of an offset in the source of an id in the last version of a view.
    pub(crate) fn line_in<M: PathAccessModel>(
        &self,
        alloc: Global,
        disk: &mut M,
        view: u64,
        word: &IdWord,
        offset: u64,
    ) -> Result<Reply, OutOfMemory>
        ensures reply { (told : Told) (s : machine.State) → M.told disk.old ≡ Some told → IsKept self.now s → IfOk result (λ r. plain_reply r ≡ (machine.source_step s told view (plain_id word.now) (line_reply offset)).reply) }
        ensures left { (told : Told) → M.told disk.old ≡ Some told → IsFixed told → M.told disk.new ≡ Some told }
    {
        let Some(space) = self.view(view) else {
            return Ok(Reply::BadView);
        };
        let Some(id) = self.id_of(alloc, word)? else {
            return Ok(Reply::BadId);
        };
        match text_for(alloc, &space.latest, disk, &id) {
            Ok(text) => place_reply(alloc, &id, text, offset),
            Err(FileFault::File(error)) => Ok(Reply::Fails(error)),
            Err(FileFault::OutOfMemory) => Err(OutOfMemory),
        }
    }

    /// Lists the paths of the overlay of a target.
    pub(crate) fn list_paths(&self, alloc: Global, target: Target) -> Result<Reply, OutOfMemory>
        ensures { (s : machine.State) → IsKept self.now s → IfOk result (λ r. plain_reply r ≡ machine.listed machine.path_list (machine.space_at s (plain_target target))) }
    {
        match self.space(target) {
            Some(space) => Ok(Reply::PathList(space.latest.paths(alloc)?)),
            None => Ok(Reply::BadView),
        }
    }

    /// Lists the ids of the overlay of a target.
    pub(crate) fn list_ids(&self, alloc: Global, target: Target) -> Result<Reply, OutOfMemory>
        ensures { (s : machine.State) → IsKept self.now s → IfOk result (λ r. plain_reply r ≡ machine.listed machine.id_list (machine.space_at s (plain_target target))) }
    {
        match self.space(target) {
            Some(space) => Ok(Reply::IdList(space.latest.ids(alloc)?)),
            None => Ok(Reply::BadView),
        }
    }

    /// Finds where an id stands.
    pub(crate) fn path_in(
        &self,
        alloc: Global,
        target: Target,
        word: &IdWord,
    ) -> Result<Reply, OutOfMemory>
        ensures { (s : machine.State) → IsKept self.now s → IfOk result (λ r. plain_reply r ≡ (machine.path_step s (plain_target target) (plain_id word.now)).reply) }
    {
        if !self.has_space(target) {
            return Ok(Reply::BadView);
        }
        let Some(id) = self.id_of(alloc, word)? else {
            return Ok(Reply::BadId);
        };
        let place = place_of(alloc, &id)?;
        stands_reply(alloc, &id, place)
    }

    /// Whether ids of a target are clean since a revision.
    pub(crate) fn clean_in(
        &self,
        alloc: Global,
        target: Target,
        revision: u64,
        words: &[IdWord],
    ) -> Result<Reply, OutOfMemory>
        ensures { (s : machine.State) → IsKept self.now s → IfOk result (λ r. plain_reply r ≡ (machine.clean_step s (plain_target target) revision (map plain_id words.now)).reply) }
    {
        let Some(space) = self.space(target) else {
            return Ok(Reply::BadView);
        };
        let Some(ids) = self.ids_of(alloc, words)? else {
            return Ok(Reply::BadId);
        };
        clean_since(alloc, space, revision, &ids)
    }

    /// The ids that words name, where each names one.
    fn ids_of(&self, alloc: Global, words: &[IdWord]) -> Result<Option<Vec<FileId>>, OutOfMemory>
        ensures { IfOk result (λ ids. option_map (λ found. found.items) ids ≡ machine.ids_for self.now.tagged.items (map plain_id words.now)) }
    {
        let mut ids = Vec::new(alloc);
        for word in words {
            let Some(id) = self.id_of(alloc, word)? else {
                return Ok(None);
            };
            ids.push(id)?;
        }
        Ok(Some(ids))
    }
}

/// The reply to a read that has this answer.
fn reply_to(alloc: Global, answer: FileSnapshot) -> Result<Reply, OutOfMemory>
    ensures { IfOk result (λ r. plain_reply r ≡ reply_to answer) }
{
    match answer.into_content(alloc) {
        Ok(bytes) => Ok(Reply::Contents(bytes)),
        Err(FileFault::File(error)) => Ok(Reply::Fails(error)),
        Err(FileFault::OutOfMemory) => Err(OutOfMemory),
    }
}

/// The reply with where an id stands.
fn stands_reply(alloc: Global, id: &FileId, place: Place) -> Result<Reply, OutOfMemory>
    ensures { IfOk result (λ r. plain_reply r ≡ place_reply id.now (place_said place)) }
{
    match place {
        Place::At(path) => Ok(Reply::AtPath(path)),
        Place::Rootless => Ok(Reply::RootlessAt(id.vpath().share(alloc)?)),
        Place::RefusedAt(error) => Ok(Reply::Fails(error)),
    }
}

/// Whether ids are clean since a revision that the space had.
fn clean_since(
    alloc: Global,
    space: &Space,
    revision: u64,
    ids: &[FileId],
) -> Result<Reply, OutOfMemory>
    ensures { (s : model.Space) → space_of space.now ≡ part_of s → IfOk result (λ r. plain_reply r ≡ machine.clean_reply s revision ids.now) }
{
    if revision < 2 || revision > space.latest.revision {
        return Ok(Reply::BadRevision);
    }
    Ok(Reply::IsClean(space.are_clean(alloc, revision, ids)?))
}
