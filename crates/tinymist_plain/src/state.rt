//! The state of the plain program: the live space, a whole copy of it for each view, and the ids that have a tag.
ghost use Rattle.std.specs.Prelude.{◌≡◌, ◌+◌, ◌-◌, ◌^◌, ◌<◌, ◌≤◌, IfOk, OnOk};
ghost use Rattle.std.specs.Option.{option_copied, is_some};
ghost use Rattle.ty_model.specs.Batch as batch;
ghost use Rattle.ty_model.specs.Disk.{Told, IsFixed};
ghost use Rattle.tinymist_vfs.specs.Items.{clean_item};
ghost use Rattle.session_grammar.specs.Command.{View};
ghost use Rattle.session_grammar.specs.Grammar.{answer_at};
ghost use Rattle.tinymist_session.specs.Machine as machine;
ghost use Rattle.session_grammar.specs.Plain.{plain_command, plain_content, plain_id, plain_reply, plain_target};
ghost use Rattle.tinymist_plain.specs.Kept.{IsKept, top_revision, view_kept, space_kept};

use crate::content::answer_at;
use crate::place::id_by_parent;
use crate::space::Space;
use std::alloc::Global;
use tinymist_session::{Command, ContentWord, IdWord, Reply, Target};
use tinymist_vfs::Item;
use ty_cells::PathAccessModel;
use ty_path::{OutOfMemory, Share};
use ty_syntax::{FileId, Root, TagFault, Tags, VirtualPath, detached_entry, memory_main_entry};

/// The live space, the views with view 1 first, what is drawn next, and the ids that have a tag with that of tag 1
/// first.
#[derive(Drop)]
pub(crate) struct State {
    pub(crate) live: Space,
    pub(crate) views: Vec<Space>,
    pub(crate) next_space: u64,
    pub(crate) next_tag: u64,
    tagged: Vec<FileId>,
}

impl State {
    /// The state at the start.
    pub(crate) fn opening(alloc: Global) -> Result<State, OutOfMemory>
        ensures kept { IfOk result (λ p. IsKept p machine.opening) }
        ensures revision { IfOk result (λ p. top_revision p ≡ 2) }
        ensures space { IfOk result (λ p. p.next_space ≡ 2) }
        ensures tag { IfOk result (λ p. p.next_tag ≡ 3) }
    {
        let mut tagged = Vec::new(alloc);
        tagged.push(detached_entry(alloc)?)?;
        tagged.push(memory_main_entry(alloc)?)?;
        Ok(State {
            live: Space::first(alloc),
            views: Vec::new(alloc),
            next_space: 2,
            next_tag: 3,
            tagged,
        })
    }

    /// Answers a command.
    pub(crate) fn step<M: PathAccessModel>(
        &mut self,
        alloc: Global,
        disk: &mut M,
        command: &Command,
    ) -> Result<Reply, OutOfMemory>
        requires revision { top_revision self.old < 2 ^ 64 - 1 }
        requires space { self.old.next_space < 2 ^ 64 - 1 }
        requires tag { self.old.next_tag < 2 ^ 64 - 1 }
        ensures reply { (told : Told) (s : machine.State) → M.told disk.old ≡ Some told → IsKept self.old s → IfOk result (λ r. plain_reply r ≡ (machine.step s told (plain_command command.now)).reply) }
        ensures state { (told : Told) (s : machine.State) → M.told disk.old ≡ Some told → IsKept self.old s → OnOk result (IsKept self.new (machine.step s told (plain_command command.now)).state) }
        ensures left { (told : Told) → M.told disk.old ≡ Some told → IsFixed told → M.told disk.new ≡ Some told }
        ensures revision { top_revision self.new ≤ top_revision self.old + 1 }
        ensures space { self.new.next_space ≤ self.old.next_space + 1 }
        ensures tag { self.new.next_tag ≤ self.old.next_tag + 1 }
    {
        match command {
            Command::Edit(target, item) => self.edit_target(alloc, *target, item),
            Command::MapId(target, word, content) => self.map_id(alloc, *target, word, content),
            Command::UnmapId(target, word) => self.unmap_id(alloc, *target, word),
            Command::Rootless(vpath) => self.make_rootless(alloc, vpath),
            Command::Snapshot => self.take_snapshot(alloc),
            Command::Read(view, word) => self.read_view(alloc, disk, *view, word),
            Command::Source(view, word) => self.source_in(alloc, disk, *view, word),
            Command::Line(view, word, offset) => self.line_in(alloc, disk, *view, word, *offset),
            Command::Paths(target) => self.list_paths(alloc, *target),
            Command::Ids(target) => self.list_ids(alloc, *target),
            Command::Path(target, word) => self.path_in(alloc, *target, word),
            Command::Clean(target, revision, words) => {
                self.clean_in(alloc, *target, *revision, words)
            }
        }
    }

    /// Edits a target, and answers its revision.
    fn edit_target(
        &mut self,
        alloc: Global,
        target: Target,
        item: &Item,
    ) -> Result<Reply, OutOfMemory>
        requires { top_revision self.old < 2 ^ 64 - 1 }
        ensures reply { (s : machine.State) → IsKept self.old s → IfOk result (λ r. plain_reply r ≡ (machine.edit_step s (plain_target target) (clean_item item.now)).reply) }
        ensures state { (s : machine.State) → IsKept self.old s → OnOk result (IsKept self.new (machine.edit_step s (plain_target target) (clean_item item.now)).state) }
        ensures revision { top_revision self.new ≤ top_revision self.old + 1 }
        ensures space { self.new.next_space ≡ self.old.next_space }
        ensures tag { self.new.next_tag ≡ self.old.next_tag }
    {
        match target {
            Target::Live => {
                self.live.edit(alloc, item)?;
                Ok(Reply::AtRevision(self.live.latest.revision))
            }
            Target::View(view) => self.edit_view(alloc, view, item),
        }
    }

    /// Edits a view, and answers its revision.
    fn edit_view(&mut self, alloc: Global, view: u64, item: &Item) -> Result<Reply, OutOfMemory>
        requires { top_revision self.old < 2 ^ 64 - 1 }
        ensures reply { (s : machine.State) → IsKept self.old s → IfOk result (λ r. plain_reply r ≡ (machine.edit_step s (View view) (clean_item item.now)).reply) }
        ensures state { (s : machine.State) → IsKept self.old s → OnOk result (IsKept self.new (machine.edit_step s (View view) (clean_item item.now)).state) }
        ensures revision { top_revision self.new ≤ top_revision self.old + 1 }
        ensures space { self.new.next_space ≡ self.old.next_space }
        ensures tag { self.new.next_tag ≡ self.old.next_tag }
    {
        if view == 0 {
            return Ok(Reply::BadView);
        }
        let k = (view - 1) as usize;
        if k >= self.views.len() {
            return Ok(Reply::BadView);
        }
        self.views[k].edit(alloc, item)?;
        Ok(Reply::AtRevision(self.views[k].latest.revision))
    }

    /// Maps an id of a target, and answers its revision.
    fn map_id(
        &mut self,
        alloc: Global,
        target: Target,
        word: &IdWord,
        content: &ContentWord,
    ) -> Result<Reply, OutOfMemory>
        requires { top_revision self.old < 2 ^ 64 - 1 }
        ensures reply { (s : machine.State) → IsKept self.old s → IfOk result (λ r. plain_reply r ≡ (machine.id_edit_step s (plain_target target) (plain_id word.now) (λ id. batch.MapId id (answer_at id.vpath (plain_content content.now)))).reply) }
        ensures state { (s : machine.State) → IsKept self.old s → OnOk result (IsKept self.new (machine.id_edit_step s (plain_target target) (plain_id word.now) (λ id. batch.MapId id (answer_at id.vpath (plain_content content.now)))).state) }
        ensures revision { top_revision self.new ≤ top_revision self.old + 1 }
        ensures space { self.new.next_space ≡ self.old.next_space }
        ensures tag { self.new.next_tag ≡ self.old.next_tag }
    {
        if !self.has_space(target) {
            return Ok(Reply::BadView);
        }
        let Some(id) = self.id_of(alloc, word)? else {
            return Ok(Reply::BadId);
        };
        let answer = answer_at(alloc, id.vpath().get_with_slash(), content)?;
        self.edit_target(alloc, target, &Item::MapId(id, answer))
    }

    /// Takes an id out of a target's overlay, and answers its revision.
    fn unmap_id(
        &mut self,
        alloc: Global,
        target: Target,
        word: &IdWord,
    ) -> Result<Reply, OutOfMemory>
        requires { top_revision self.old < 2 ^ 64 - 1 }
        ensures reply { (s : machine.State) → IsKept self.old s → IfOk result (λ r. plain_reply r ≡ (machine.id_edit_step s (plain_target target) (plain_id word.now) batch.UnmapId).reply) }
        ensures state { (s : machine.State) → IsKept self.old s → OnOk result (IsKept self.new (machine.id_edit_step s (plain_target target) (plain_id word.now) batch.UnmapId).state) }
        ensures revision { top_revision self.new ≤ top_revision self.old + 1 }
        ensures space { self.new.next_space ≡ self.old.next_space }
        ensures tag { self.new.next_tag ≡ self.old.next_tag }
    {
        if !self.has_space(target) {
            return Ok(Reply::BadView);
        }
        let Some(id) = self.id_of(alloc, word)? else {
            return Ok(Reply::BadId);
        };
        self.edit_target(alloc, target, &Item::UnmapId(id))
    }

    /// Makes an id of no workspace, and answers its tag.
    fn make_rootless(&mut self, alloc: Global, vpath: &VirtualPath) -> Result<Reply, OutOfMemory>
        requires { self.old.next_tag < 2 ^ 64 - 1 }
        ensures reply { (s : machine.State) → IsKept self.old s → IfOk result (λ r. plain_reply r ≡ (machine.rootless_step s vpath.now).reply) }
        ensures state { (s : machine.State) → IsKept self.old s → OnOk result (IsKept self.new (machine.rootless_step s vpath.now).state) }
        ensures revision { top_revision self.new ≡ top_revision self.old }
        ensures space { self.new.next_space ≡ self.old.next_space }
        ensures tag { self.new.next_tag ≤ self.old.next_tag + 1 }
    {
        let tag = self.next_tag;
        let id = rootless_id(alloc, vpath, tag)?;
        self.tagged.push(id)?;
        self.next_tag = tag + 1;
        Ok(Reply::IdTag(tag))
    }

    /// Copies the live space whole, as the next view.
    fn take_snapshot(&mut self, alloc: Global) -> Result<Reply, OutOfMemory>
        requires { self.old.next_space < 2 ^ 64 - 1 }
        ensures reply { (s : machine.State) → IsKept self.old s → IfOk result (λ r. plain_reply r ≡ (machine.snapshot_step s).reply) }
        ensures state { (s : machine.State) → IsKept self.old s → OnOk result (IsKept self.new (machine.snapshot_step s).state) }
        ensures revision { top_revision self.new ≤ top_revision self.old }
        ensures space { self.new.next_space ≤ self.old.next_space + 1 }
        ensures tag { self.new.next_tag ≡ self.old.next_tag }
    {
        let view = self.live.copy(alloc, self.next_space)?;
        self.views.push(view)?;
        self.next_space += 1;
        Ok(Reply::ViewNumber(self.views.len()))
    }

    /// The id that a word names, if any.
    pub(crate) fn id_of(&self, alloc: Global, word: &IdWord) -> Result<Option<FileId>, OutOfMemory>
        ensures { IfOk result (λ id. id ≡ machine.id_for self.now.tagged.items (plain_id word.now)) }
    {
        match word {
            IdWord::Path(path) => id_by_parent(alloc, path.as_str()),
            IdWord::Tag(tag) => match self.tagged_at(*tag) {
                Some(id) => Ok(Some(id.share(alloc)?)),
                None => Ok(None),
            },
        }
    }

    /// The id of a tag, where 0 is none.
    fn tagged_at(&self, tag: u64) -> Option<&FileId>
        ensures { option_copied result ≡ machine.tagged_at self.now.tagged.items tag }
    {
        if tag == 0 {
            return None;
        }
        self.tagged.get((tag - 1) as usize)
    }

    /// The space of a target.
    pub(crate) fn space(&self, target: Target) -> Option<&Space>
        ensures { option_copied result ≡ space_kept self.now (plain_target target) }
    {
        match target {
            Target::Live => Some(&self.live),
            Target::View(view) => self.view(view),
        }
    }

    /// Whether the target is there.
    pub(crate) fn has_space(&self, target: Target) -> bool
        ensures { result ≡ is_some (space_kept self.now (plain_target target)) }
    {
        self.space(target).is_some()
    }

    /// View k, where 0 is none.
    pub(crate) fn view(&self, k: u64) -> Option<&Space>
        ensures { option_copied result ≡ view_kept self.now.views.items k }
    {
        if k == 0 {
            return None;
        }
        self.views.get((k - 1) as usize)
    }
}

/// The id of no workspace that has this tag.
fn rootless_id(alloc: Global, vpath: &VirtualPath, tag: u64) -> Result<FileId, OutOfMemory>
    requires { tag < 2 ^ 64 - 1 }
    ensures { IfOk result (λ id. id ≡ machine.rootless_id vpath.now tag) }
{
    let mut tags = Tags::at(tag, 0);
    match FileId::unique(alloc, Root::Project, vpath.share(alloc)?, &mut tags) {
        Ok(id) => Ok(id),
        Err(TagFault::Full) => unreachable!(),
        Err(TagFault::OutOfMemory) => Err(OutOfMemory),
    }
}
