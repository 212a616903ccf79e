//! A space as all its versions.
ghost use Rattle.std.specs.Prelude.{map, not, ◌≡◌, ◌||◌, ◌+◌, ◌-◌, ◌^◌, ◌<◌, ◌≤◌, ◌∷◌, [], IfOk, OnOk};
ghost use Rattle.std.specs.FinMap as finmap;
ghost use Rattle.ty_model.specs.Version.{first_version};
ghost use Rattle.ty_model.specs.Batch as batch;
ghost use Rattle.ty_model.specs.Batch.{staged, is_view};
ghost use Rattle.ty_model.specs.Space as model;
ghost use Rattle.ty_model.specs.Space.{after_commit};
ghost use Rattle.tinymist_vfs.specs.Items.{clean_item};
ghost use Rattle.tinymist_plain.specs.Kept.{layers_of, lists_of, listed, version_of, same_lists, same_past, all_clean, space_of, part_of};

use crate::stamp::Stamp;
use crate::version::Version;
use std::alloc::Global;
use std::mem;
use tinymist_vfs::Item;
use ty_path::OutOfMemory;
use ty_syntax::FileId;

/// The last version, and those before it, the newest first.
#[derive(Drop)]
pub(crate) struct Space {
    number: u64,
    pub(crate) latest: Version,
    past: Vec<Version>,
}

impl Space {
    /// The space at the start: one version, in which nothing is mapped.
    pub(crate) fn first(alloc: Global) -> Space
        ensures { space_of result ≡ (1, listed (first_version 1 finmap.empty) ∷ []) }
    {
        Space {
            number: 1,
            latest: Version::first(alloc),
            past: Vec::new(alloc),
        }
    }

    /// A whole copy under another number.
    pub(crate) fn copy(&self, alloc: Global, number: u64) -> Result<Space, OutOfMemory>
        ensures { IfOk result (λ s. space_of s ≡ (number, (space_of self.now).1)) }
    {
        let mut past = Vec::new(alloc);
        for version in &self.past {
            past.push(version.copy(alloc)?)?;
        }
        Ok(Space {
            number,
            latest: self.latest.copy(alloc)?,
            past,
        })
    }

    /// Edits the last version by an item.
    pub(crate) fn edit(&mut self, alloc: Global, item: &Item) -> Result<(), OutOfMemory>
        requires { self.old.latest.revision < 2 ^ 64 - 1 }
        ensures space { (s : model.Space) → space_of self.old ≡ part_of s → OnOk result (space_of self.new ≡ part_of (after_commit s (clean_item item.now ∷ []))) }
        ensures revision { self.new.latest.revision ≤ self.old.latest.revision + 1 }
    {
        let stamp = Stamp::new(self.number, self.latest.revision + 1);
        let mut edited = self.latest.copy(alloc)?;
        edited.edit(alloc, item, stamp)?;
        self.take_in(edited, changes_view(item))
    }

    /// The version that an edit made of the last one comes after it, where something differs or the view was changed.
    fn take_in(&mut self, mut edited: Version, changes_view: bool) -> Result<(), OutOfMemory>
        requires revision { self.old.latest.revision < 2 ^ 64 - 1 }
        requires reset { edited.reset ≡ self.old.latest.reset }
        ensures space { (s : model.Space) (item : batch.Item) → space_of self.old ≡ part_of s → is_view item ≡ changes_view
            → layers_of edited ≡ lists_of (staged s.number s.now.revision s.now.layers (item ∷ [])) → OnOk result (space_of self.new ≡ part_of (after_commit s (item ∷ []))) }
        ensures revision { self.new.latest.revision ≤ self.old.latest.revision + 1 }
    {
        if !self.rises(&edited, changes_view) {
            return Ok(());
        }
        edited.revision = self.latest.revision + 1;
        let before = mem::replace(&mut self.latest, edited);
        self.past.insert(0, before)?;
        Ok(())
    }

    /// Whether the revision rises by what an edit made of the last version.
    fn rises(&self, edited: &Version, changes_view: bool) -> bool
        ensures { result ≡ (not (same_lists (layers_of self.now.latest) (layers_of edited.now)) || changes_view) }
    {
        !self.latest.same_layers(edited) || changes_view
    }

    /// Whether ids are clean since a revision: all versions from there on have the same entries for each of them.
    pub(crate) fn are_clean(
        &self,
        alloc: Global,
        revision: u64,
        ids: &[FileId],
    ) -> Result<bool, OutOfMemory>
        ensures { IfOk result (λ clean. clean ≡ all_clean self.now revision ids.now) }
    {
        for id in ids {
            if !self.is_clean(alloc, revision, id)? {
                return Ok(false);
            }
        }
        Ok(true)
    }

    /// Whether the versions before the last one have the same entries for an id as that, from a revision on.
    fn is_clean(&self, alloc: Global, revision: u64, id: &FileId) -> Result<bool, OutOfMemory>
        ensures { IfOk result (λ clean. clean ≡ same_past (version_of self.now.latest) revision id.now (map version_of self.now.past.items)) }
    {
        for version in &self.past {
            if version.revision < revision {
                continue;
            }
            if !self.latest.same_at(alloc, version, id)? {
                return Ok(false);
            }
        }
        Ok(true)
    }
}

/// Whether an item is a change of view.
fn changes_view(item: &Item) -> bool
    ensures { result ≡ is_view (clean_item item.now) }
{
    matches!(item, Item::ChangeView)
}
