//! The ids that have a tag, and the counters.
ghost use Rattle.std.specs.Prelude.{◌≡◌, ◌+◌, ◌-◌, ◌^◌, ◌<◌, ◌≤◌, ◌++◌, ◌∷◌, [], Option, IfOk};
ghost use Rattle.std.specs.Option.{option_copied};
ghost use Rattle.ty_model.specs.Places.{detached_entry, memory_main_entry};
ghost use Rattle.tinymist_session.specs.Machine.{rootless_id, tagged_at};

use std::alloc::Global;
use tinymist_vfs::WorkspaceResolver;
use ty_path::OutOfMemory;
use ty_syntax::{FileId, TagFault, Tags, VirtualPath, detached_entry, memory_main_entry};

/// The counters, and the ids that have a tag, with that of tag 1 first.
#[derive(Drop)]
pub(crate) struct TaggedIds {
    pub(crate) counters: Tags,
    ids: Vec<FileId>,
}

impl TaggedIds {
    /// The detached entry and the main file in memory.
    pub(crate) fn new(alloc: Global) -> Result<TaggedIds, OutOfMemory>
        ensures counters { IfOk result (λ t. t.counters ≡ record { next_id = 3; next_space = 1 }) }
        ensures ids { IfOk result (λ t. t.ids.items ≡ detached_entry ∷ memory_main_entry ∷ []) }
    {
        let mut ids = Vec::new(alloc);
        ids.push(detached_entry(alloc)?)?;
        ids.push(memory_main_entry(alloc)?)?;
        Ok(TaggedIds {
            counters: Tags::new(),
            ids,
        })
    }

    /// The id of a tag, if one has it.
    pub(crate) fn at(&self, tag: u64) -> Option<&FileId>
        ensures { option_copied result ≡ tagged_at self.now.ids.items tag }
    {
        if tag == 0 {
            return None;
        }
        self.ids.get((tag - 1) as usize)
    }

    /// Makes an id of no workspace, and answers its tag.
    pub(crate) fn make_rootless(
        &mut self,
        alloc: Global,
        vpath: VirtualPath,
    ) -> Result<u64, OutOfMemory>
        requires { self.old.counters.next_id < 2 ^ 64 - 1 }
        ensures space { self.new.counters.next_space ≡ self.old.counters.next_space }
        ensures next { self.new.counters.next_id ≤ self.old.counters.next_id + 1 }
        ensures ok { IfOk result (λ n. (n ≡ self.old.counters.next_id) × (self.new.counters.next_id ≡ n + 1) × (self.new.ids.items ≡ self.old.ids.items ++ rootless_id vpath n ∷ [])) }
    {
        match WorkspaceResolver::rootless_file(alloc, vpath, &mut self.counters) {
            Ok(id) => {
                let tag = id.tag();
                self.ids.push(id)?;
                Ok(tag)
            }
            Err(TagFault::Full) => unreachable!(),
            Err(TagFault::OutOfMemory) => Err(OutOfMemory),
        }
    }
}
