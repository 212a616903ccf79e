//! What a line asks without an edit: reads of views, lists, places and clean ids.
ghost use Rattle.std.specs.Prelude.{◌≡◌, ◌++◌, map, take, IfOk, Some};
ghost use Rattle.std.specs.Option.{option_map};
ghost use Rattle.ty_model.specs.Disk.{Told, IsFixed};
ghost use Rattle.tinymist_session.specs.Machine as plain;
ghost use Rattle.session_grammar.specs.Reply.{text_reply, line_reply};
ghost use Rattle.session_grammar.specs.Plain.{plain_reply, plain_target, plain_id};
ghost use Rattle.tinymist_session.specs.Shown.{MachineShows};

use crate::machine::Machine;
use crate::machine::spaces::{clean_since, line_of, place_of, read_of, source_of};
use session_grammar::{IdWord, Reply, Target};
use ty_cells::PathAccessModel;
use ty_path::OutOfMemory;
use ty_syntax::FileId;

impl Machine {
    /// Reads an id in a view.
    pub(crate) fn read_view<M: PathAccessModel>(
        &self,
        disk: &mut M,
        view: u64,
        word: &IdWord,
    ) -> Result<Reply, OutOfMemory>
        ensures reply { (told : Told) (s : plain.State) → M.told disk.old ≡ Some told → MachineShows self.now s → IfOk result (λ r. plain_reply r ≡ (plain.read_step s told view (plain_id word.now)).reply) }
        ensures left { (told : Told) → M.told disk.old ≡ Some told → IsFixed told → M.told disk.new ≡ Some told }
    {
        let Some(vfs) = self.view(view) else {
            return Ok(Reply::BadView);
        };
        let Some(id) = self.id_of(word)? else {
            return Ok(Reply::BadId);
        };
        read_of(vfs, disk, &id)
    }

    /// Reads the source of an id in a view.
    pub(crate) fn source_in<M: PathAccessModel>(
        &self,
        disk: &mut M,
        view: u64,
        word: &IdWord,
    ) -> Result<Reply, OutOfMemory>
        ensures reply { (told : Told) (s : plain.State) → M.told disk.old ≡ Some told → MachineShows self.now s → IfOk result (λ r. plain_reply r ≡ (plain.source_step s told view (plain_id word.now) text_reply).reply) }
        ensures left { (told : Told) → M.told disk.old ≡ Some told → IsFixed told → M.told disk.new ≡ Some told }
    {
        let Some(vfs) = self.view(view) else {
            return Ok(Reply::BadView);
        };
        let Some(id) = self.id_of(word)? else {
            return Ok(Reply::BadId);
        };
        source_of(self.alloc, vfs, disk, &id)
    }

    /// Finds the place of an offset in the source of an id in a view.
    pub(crate) fn line_in<M: PathAccessModel>(
        &self,
        disk: &mut M,
        view: u64,
        word: &IdWord,
        offset: u64,
    ) -> Result<Reply, OutOfMemory>
        ensures reply { (told : Told) (s : plain.State) → M.told disk.old ≡ Some told → MachineShows self.now s → IfOk result (λ r. plain_reply r ≡ (plain.source_step s told view (plain_id word.now) (line_reply offset)).reply) }
        ensures left { (told : Told) → M.told disk.old ≡ Some told → IsFixed told → M.told disk.new ≡ Some told }
    {
        let Some(vfs) = self.view(view) else {
            return Ok(Reply::BadView);
        };
        let Some(id) = self.id_of(word)? else {
            return Ok(Reply::BadId);
        };
        line_of(self.alloc, vfs, disk, &id, offset)
    }

    /// The paths of a target's overlay.
    pub(crate) fn list_paths(&self, target: Target) -> Result<Reply, OutOfMemory>
        ensures { (s : plain.State) → MachineShows self.now s → IfOk result (λ r. plain_reply r ≡ plain.listed plain.path_list (plain.space_at s (plain_target target))) }
    {
        match self.space(target) {
            Some(vfs) => Ok(Reply::PathList(vfs.shadow_paths()?)),
            None => Ok(Reply::BadView),
        }
    }

    /// The ids of a target's overlay.
    pub(crate) fn list_ids(&self, target: Target) -> Result<Reply, OutOfMemory>
        ensures { (s : plain.State) → MachineShows self.now s → IfOk result (λ r. plain_reply r ≡ plain.listed plain.id_list (plain.space_at s (plain_target target))) }
    {
        match self.space(target) {
            Some(vfs) => Ok(Reply::IdList(vfs.shadow_ids()?)),
            None => Ok(Reply::BadView),
        }
    }

    /// Finds where an id stands in a target.
    pub(crate) fn path_in(&self, target: Target, word: &IdWord) -> Result<Reply, OutOfMemory>
        ensures { (s : plain.State) → MachineShows self.now s → IfOk result (λ r. plain_reply r ≡ (plain.path_step s (plain_target target) (plain_id word.now)).reply) }
    {
        let Some(space) = self.space(target) else {
            return Ok(Reply::BadView);
        };
        match self.id_of(word)? {
            Some(id) => place_of(space, &id),
            None => Ok(Reply::BadId),
        }
    }

    /// Whether ids of a target are clean since a revision.
    pub(crate) fn clean_in(
        &self,
        target: Target,
        revision: u64,
        words: &[IdWord],
    ) -> Result<Reply, OutOfMemory>
        ensures { (s : plain.State) → MachineShows self.now s → IfOk result (λ r. plain_reply r ≡ (plain.clean_step s (plain_target target) revision (map plain_id words.now)).reply) }
    {
        let Some(vfs) = self.space(target) else {
            return Ok(Reply::BadView);
        };
        match self.ids_of(words)? {
            Some(ids) => clean_since(vfs, revision, &ids),
            None => Ok(Reply::BadId),
        }
    }

    /// The ids that fields name, where each names one.
    fn ids_of(&self, words: &[IdWord]) -> Result<Option<Vec<FileId>>, OutOfMemory>
        ensures { IfOk result (λ ids. option_map (λ found. found.items) ids ≡ plain.ids_for self.now.tags.ids.items (map plain_id words.now)) }
    {
        let mut ids = Vec::new(self.alloc);
        for word in words {
            let Some(id) = self.id_of(word)? else {
                return Ok(None);
            };
            ids.push(id)?;
        }
        Ok(Some(ids))
    }
}
