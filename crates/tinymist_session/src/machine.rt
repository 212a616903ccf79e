//! The machine that answers commands: the live state, the views taken of it, and the ids that have a tag.
ghost use Rattle.std.specs.Prelude.{◌≡◌, ◌+◌, ◌-◌, ◌^◌, ◌<◌, ◌≤◌, ◌++◌, ◌∷◌, [], length, map, Option, IfOk, OnOk, Some, None};
ghost use Rattle.std.specs.Option.{option_map, option_copied};
ghost use Rattle.ty_model.specs.Batch as batch;
ghost use Rattle.ty_model.specs.Disk.{Told, IsFixed};
ghost use Rattle.tinymist_vfs.specs.Items.{clean_item};
ghost use Rattle.session_grammar.specs.Command.{View};
ghost use Rattle.session_grammar.specs.Grammar.{answer_at};
ghost use Rattle.tinymist_session.specs.Machine as plain;
ghost use Rattle.session_grammar.specs.Reply as replies;
ghost use Rattle.session_grammar.specs.Plain.{plain_reply, plain_command, plain_target, plain_content, plain_id};
ghost use Rattle.tinymist_session.specs.Shown.{MachineShows, KeepsOthers, kept_at, target_kept, top_of, next_number};

use session_grammar::{Command, ContentWord, IdWord, Reply, Target};

mod questions;
mod spaces;
pub(crate) mod tags;

use crate::machine::spaces::{edit_space, snapshot_of};
use crate::machine::tags::TaggedIds;
use std::alloc::Global;
use tinymist_vfs::{Item, MockRootResolver, Vfs, WorkspaceResolver};
use ty_cells::PathAccessModel;
use ty_path::{OutOfMemory, Share};
use ty_syntax::{FileId, TagFault};

/// The live state, and the views with view 1 first.
#[derive(Drop)]
pub(crate) struct Machine {
    pub(crate) alloc: Global,
    pub(crate) tags: TaggedIds,
    pub(crate) live: Vfs<MockRootResolver>,
    pub(crate) views: Vec<Vfs<MockRootResolver>>,
}

impl Machine {
    /// The state at the start: nothing in it, and no view.
    pub(crate) fn new(alloc: Global) -> Result<Machine, OutOfMemory>
        ensures shown { IfOk result (λ m. MachineShows m plain.opening) }
        ensures revision { IfOk result (λ m. top_of m ≡ 2) }
        ensures number { IfOk result (λ m. next_number m.tags ≡ 3) }
    {
        let mut tags = TaggedIds::new(alloc)?;
        match Vfs::new(alloc, MockRootResolver, &mut tags.counters) {
            Ok(live) => Ok(Machine {
                alloc,
                tags,
                live,
                views: Vec::new(alloc),
            }),
            Err(TagFault::Full) => unreachable!(),
            Err(TagFault::OutOfMemory) => Err(OutOfMemory),
        }
    }

    /// Answers a command.
    pub(crate) fn step<M: PathAccessModel>(
        &mut self,
        disk: &mut M,
        command: Command,
    ) -> Result<Reply, OutOfMemory>
        requires revision { top_of self.old < 2 ^ 64 - 1 }
        requires number { next_number self.old.tags < 2 ^ 64 - 1 }
        ensures reply { (told : Told) (s : plain.State) → M.told disk.old ≡ Some told → MachineShows self.old s → IfOk result (λ r. plain_reply r ≡ (plain.step s told (plain_command command)).reply) }
        ensures state { (told : Told) (s : plain.State) → M.told disk.old ≡ Some told → MachineShows self.old s → OnOk result (MachineShows self.new (plain.step s told (plain_command command)).state) }
        ensures others { KeepsOthers (plain.edited_space (plain_command command)) self.old self.new }
        ensures left { (told : Told) → M.told disk.old ≡ Some told → IsFixed told → M.told disk.new ≡ Some told }
        ensures revision { top_of self.new ≤ top_of self.old + 1 }
        ensures number { next_number self.new.tags ≤ next_number self.old.tags + 1 }
    {
        match command {
            Command::Edit(target, item) => self.edit_target(target, item),
            Command::MapId(target, word, content) => self.map_id(target, &word, content),
            Command::UnmapId(target, word) => self.unmap_id(target, &word),
            Command::Rootless(vpath) => {
                let tag = self.tags.make_rootless(self.alloc, vpath)?;
                Ok(Reply::IdTag(tag))
            }
            Command::Snapshot => {
                let number = self.take_snapshot()?;
                Ok(Reply::ViewNumber(number))
            }
            Command::Read(view, word) => self.read_view(disk, view, &word),
            Command::Source(view, word) => self.source_in(disk, view, &word),
            Command::Line(view, word, offset) => self.line_in(disk, view, &word, offset),
            Command::Paths(target) => self.list_paths(target),
            Command::Ids(target) => self.list_ids(target),
            Command::Path(target, word) => self.path_in(target, &word),
            Command::Clean(target, revision, words) => self.clean_in(target, revision, &words),
        }
    }

    /// Edits a target, and answers its revision.
    fn edit_target(&mut self, target: Target, item: Item) -> Result<Reply, OutOfMemory>
        requires { top_of self.old < 2 ^ 64 - 1 }
        ensures reply { (s : plain.State) → MachineShows self.old s → IfOk result (λ r. plain_reply r ≡ (plain.edit_step s (plain_target target) (clean_item item)).reply) }
        ensures state { (s : plain.State) → MachineShows self.old s → OnOk result (MachineShows self.new (plain.edit_step s (plain_target target) (clean_item item)).state) }
        ensures others { KeepsOthers (Some (plain_target target)) self.old self.new }
        ensures revision { top_of self.new ≤ top_of self.old + 1 }
        ensures tags { self.new.tags ≡ self.old.tags }
    {
        match target {
            Target::Live => {
                let revision = edit_space(&mut self.live, item)?;
                Ok(Reply::AtRevision(revision))
            }
            Target::View(view) => self.edit_view(view, item),
        }
    }

    /// Edits a view, and answers its revision.
    fn edit_view(&mut self, view: u64, item: Item) -> Result<Reply, OutOfMemory>
        requires { top_of self.old < 2 ^ 64 - 1 }
        ensures reply { (s : plain.State) → MachineShows self.old s → IfOk result (λ r. plain_reply r ≡ (plain.edit_step s (View view) (clean_item item)).reply) }
        ensures state { (s : plain.State) → MachineShows self.old s → OnOk result (MachineShows self.new (plain.edit_step s (View view) (clean_item item)).state) }
        ensures others { KeepsOthers (Some (View view)) self.old self.new }
        ensures revision { top_of self.new ≤ top_of self.old + 1 }
        ensures tags { self.new.tags ≡ self.old.tags }
    {
        if view == 0 {
            return Ok(Reply::BadView);
        }
        let k = (view - 1) as usize;
        if k >= self.views.len() {
            return Ok(Reply::BadView);
        }
        let revision = edit_space(&mut self.views[k], item)?;
        Ok(Reply::AtRevision(revision))
    }

    /// Maps an id of a target, and answers its revision.
    fn map_id(
        &mut self,
        target: Target,
        word: &IdWord,
        content: ContentWord,
    ) -> Result<Reply, OutOfMemory>
        requires { top_of self.old < 2 ^ 64 - 1 }
        ensures reply { (s : plain.State) → MachineShows self.old s → IfOk result (λ r. plain_reply r ≡ (plain.id_edit_step s (plain_target target) (plain_id word.now) (λ id. batch.MapId id (answer_at id.vpath (plain_content content)))).reply) }
        ensures state { (s : plain.State) → MachineShows self.old s → OnOk result (MachineShows self.new (plain.id_edit_step s (plain_target target) (plain_id word.now) (λ id. batch.MapId id (answer_at id.vpath (plain_content content)))).state) }
        ensures others { KeepsOthers (Some (plain_target target)) self.old self.new }
        ensures revision { top_of self.new ≤ top_of self.old + 1 }
        ensures tags { self.new.tags ≡ self.old.tags }
    {
        let Some(_) = self.space(target) else {
            return Ok(Reply::BadView);
        };
        let Some(id) = self.id_of(word)? else {
            return Ok(Reply::BadId);
        };
        let answer = content.answer_at(self.alloc, id.vpath().get_with_slash())?;
        self.edit_target(target, Item::MapId(id, answer))
    }

    /// Takes an id out of a target's overlay, and answers its revision.
    fn unmap_id(&mut self, target: Target, word: &IdWord) -> Result<Reply, OutOfMemory>
        requires { top_of self.old < 2 ^ 64 - 1 }
        ensures reply { (s : plain.State) → MachineShows self.old s → IfOk result (λ r. plain_reply r ≡ (plain.id_edit_step s (plain_target target) (plain_id word.now) batch.UnmapId).reply) }
        ensures state { (s : plain.State) → MachineShows self.old s → OnOk result (MachineShows self.new (plain.id_edit_step s (plain_target target) (plain_id word.now) batch.UnmapId).state) }
        ensures others { KeepsOthers (Some (plain_target target)) self.old self.new }
        ensures revision { top_of self.new ≤ top_of self.old + 1 }
        ensures tags { self.new.tags ≡ self.old.tags }
    {
        let Some(_) = self.space(target) else {
            return Ok(Reply::BadView);
        };
        let Some(id) = self.id_of(word)? else {
            return Ok(Reply::BadId);
        };
        self.edit_target(target, Item::UnmapId(id))
    }

    /// Takes a snapshot of the live state, and answers its number.
    fn take_snapshot(&mut self) -> Result<usize, OutOfMemory>
        requires { self.old.tags.counters.next_space < 2 ^ 64 - 1 }
        ensures reply { (s : plain.State) → MachineShows self.old s → IfOk result (λ n. replies.ViewNumber n ≡ (plain.snapshot_step s).reply) }
        ensures state { (s : plain.State) → MachineShows self.old s → OnOk result (MachineShows self.new (plain.snapshot_step s).state) }
        ensures others { KeepsOthers None self.old self.new }
        ensures revision { top_of self.new ≤ top_of self.old }
        ensures number { next_number self.new.tags ≤ next_number self.old.tags + 1 }
    {
        match snapshot_of(&self.live, &mut self.tags.counters) {
            Ok(view) => {
                self.views.push(view)?;
                Ok(self.views.len())
            }
            Err(TagFault::Full) => unreachable!(),
            Err(TagFault::OutOfMemory) => Err(OutOfMemory),
        }
    }

    /// The id that a field names, if any.
    pub(crate) fn id_of(&self, word: &IdWord) -> Result<Option<FileId>, OutOfMemory>
        ensures { IfOk result (λ id. id ≡ plain.id_for self.now.tags.ids.items (plain_id word.now)) }
    {
        match word {
            IdWord::Path(path) => WorkspaceResolver::file_of(self.alloc, path),
            IdWord::Tag(tag) => match self.tags.at(*tag) {
                Some(id) => Ok(Some(id.share(self.alloc)?)),
                None => Ok(None),
            },
        }
    }

    /// The space of a target.
    pub(crate) fn space(&self, target: Target) -> Option<&Vfs<MockRootResolver>>
        ensures { option_copied result ≡ target_kept self.now.live self.now.views.items (plain_target target) }
    {
        match target {
            Target::Live => Some(&self.live),
            Target::View(view) => self.view(view),
        }
    }

    /// View k, where 0 is none.
    pub(crate) fn view(&self, k: u64) -> Option<&Vfs<MockRootResolver>>
        ensures { option_copied result ≡ kept_at self.now.views.items k }
    {
        if k == 0 {
            return None;
        }
        self.views.get((k - 1) as usize)
    }
}
