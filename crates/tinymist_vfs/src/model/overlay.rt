//! Files over another model.
ghost use Rattle.std.specs.Prelude.{◌≡◌, [], IsSome, Some, None, OnOk, OnErr, IfOk, map};
ghost use Rattle.std.specs.Borrow.{Lends, sem};
ghost use Rattle.std.specs.Map.{remove_entry};
ghost use Rattle.std.specs.BTreeMap.{is_at};
ghost use Rattle.ty_cells.specs.Snapshot.{AnswersAs};
ghost use Rattle.ty_persist.specs.Contents.{put_entry};

use crate::layers::store::at_id;
use crate::model::access::AccessModel;
use crate::model::under::{content_under, holds_under};
use std::alloc::Global;
use ty_cells::{FileSnapshot, PathAccessModel};
use ty_path::{ImmutPath, OutOfMemory, Share};
use ty_persist::Map;
use ty_syntax::{Bytes, FileId, FileResult};

/// Files over an inner model, which is asked only for what none of them has.
#[derive(Drop)]
pub struct OverlayAccessModel<K: Ord + Share, N: Drop> {
    alloc: Global,
    files: Map<K, FileSnapshot>,
    inner: N,
}

impl<K: Ord + Share, N: Drop> OverlayAccessModel<K, N> {
    /// No files over a model.
    pub fn new(alloc: Global, inner: N) -> OverlayAccessModel<K, N>
        ensures files { result.files.entries ≡ [] }
        ensures inner { result.inner ≡ inner }
    {
        OverlayAccessModel {
            alloc,
            files: Map::new(alloc),
            inner,
        }
    }

    /// The inner model.
    pub fn inner(&self) -> &N
        ensures { result.now ≡ self.now.inner }
    {
        &self.inner
    }

    /// Drops all files.
    pub fn clear_shadow(&mut self)
        ensures files { self.new.files.entries ≡ [] }
        ensures inner { self.new.inner ≡ self.old.inner }
    {
        self.files = Map::new(self.alloc);
    }

    /// The keys of the files, in ascending order.
    pub fn file_paths(&self) -> Result<Vec<K>, OutOfMemory>
        ensures { IfOk result (λ keys. map K.seen keys.items ≡ map (λ e. K.seen e.0) self.now.files.entries) }
    {
        let mut keys = Vec::new(self.alloc);
        for (key, _) in self.files.iter() {
            keys.push(key.share(self.alloc)?)?;
        }
        Ok(keys)
    }

    /// Sets what a key has.
    pub fn add_file(&mut self, key: K, snap: FileSnapshot) -> Result<(), OutOfMemory>
        ensures ok { OnOk result (self.new.files.entries ≡ put_entry K.cmp self.old.files.entries key snap) }
        ensures err { OnErr result (self.new.files ≡ self.old.files) }
        ensures inner { self.new.inner ≡ self.old.inner }
    {
        self.files.set(key, snap)
    }

    /// Drops what a key has.
    pub fn remove_file(&mut self, key: &K) -> Result<(), OutOfMemory>
        ensures ok { OnOk result (self.new.files.entries ≡ remove_entry (is_at (K.cmp key.now)) self.old.files.entries) }
        ensures err { OnErr result (self.new.files ≡ self.old.files) }
        ensures inner { self.new.inner ≡ self.old.inner }
    {
        let _before = self.files.take(key)?;
        Ok(())
    }
}

impl<K: Ord + Share, N: Drop> OverlayAccessModel<K, N> {
    ghost use Rattle.tinymist_vfs.specs.contracts.model.overlay.OverlayAccessModel.{the_row as overlay_row};

    /// The inner model. What is written through it stays in this model.
    pub fn inner_mut(&mut self) -> &mut N
        ensures* lends { sem 𝓛 (Lends (overlay_row K.row N.row (record { cmp = K.cmp }) (record { eq = K.eq }) (record { partial_cmp = K.partial_cmp }) (record { Seen = K.Seen; seen = K.seen })) N.row self.entry result (λ inner. record self.old { inner = inner })) }
        ensures now { result.now ≡ self.old.inner }
    {
        &mut self.inner
    }
}

impl<N: PathAccessModel + Drop> PathAccessModel for OverlayAccessModel<ImmutPath, N> {
    ghost use Rattle.std.specs.Prelude.{◌≡◌};
    ghost use Rattle.std.specs.Map.{lookup};
    ghost use Rattle.ty_persist.specs.Texts.{is_text};
    ghost use Rattle.ty_cells.specs.Disk.{AnswersAsTold, HoldsAsTold};
    ghost use Rattle.ty_model.specs.Values.{Answer, same_answer};
    ghost use Rattle.tinymist_vfs.specs.Under.{tells_under};

    ghost told = { λ s. tells_under s.files.entries (N.told s.inner) };

    ghost reset_gives = { λ before after. (after.files ≡ before.files) × N.reset_gives before.inner after.inner };

    /// What the files say of a path, and else what the inner model says, which isn't asked where they do.
    fn content(&mut self, alloc: Global, path: &str) -> Result<FileSnapshot, OutOfMemory>
        ensures hit { (file : Answer) → lookup (is_text path.now) self.old.files.entries ≡ Some file → IfOk result (λ answer. answer ≡ file) }
        ensures miss { lookup (is_text path.now) self.old.files.entries ≡ None → AnswersAsTold (N.told self.old.inner) path.now result (N.told self.new.inner) }
        ensures files { self.new.files ≡ self.old.files }
        ensures answer { AnswersAsTold (tells_under self.old.files.entries (N.told self.old.inner)) path.now result (tells_under self.new.files.entries (N.told self.new.inner)) }
        ensures untouched { IsSome (lookup (is_text path.now) self.old.files.entries) → self.new ≡ self.old }
    {
        content_under(alloc, &self.files, &mut self.inner, path)
    }

    fn holds(&self, path: &str, answer: &FileSnapshot) -> bool
        ensures hit { (file : Answer) → lookup (is_text path.now) self.now.files.entries ≡ Some file → result ≡ same_answer file answer.now }
        ensures told { HoldsAsTold (tells_under self.now.files.entries (N.told self.now.inner)) path.now answer.now result }
    {
        holds_under(&self.files, &self.inner, path, answer)
    }

    fn reset(&mut self) {
        self.inner.reset();
    }
}

impl<N: AccessModel + Drop> AccessModel for OverlayAccessModel<FileId, N> {
    ghost use Rattle.std.specs.FinMap as map;
    ghost use Rattle.tinymist_vfs.specs.Maps.{id_map};
    ghost use Rattle.std.specs.Prelude.{◌↔◌};
    ghost use Rattle.ty_model.specs.Disk.{Told};
    ghost use Rattle.ty_model.specs.Values.{Id, Answer};
    ghost use Rattle.tinymist_vfs.specs.Access.{AnswersOver, Found, Shadowed};

    ghost told = { λ s. N.told s.inner };

    ghost gives = { λ s id. Shadowed (map.get (id_map s.files.entries) id) (N.gives s.inner id) };

    /// What the file of an id says, and else what the inner model says, which isn't asked where there is one.
    fn content(&mut self, alloc: Global, id: &FileId) -> (Option<ImmutPath>, FileResult<Bytes>)
        ensures answer { AnswersOver (Shadowed (map.get (id_map self.old.files.entries) id.now) (N.gives self.old.inner id.now)) (N.told self.old.inner) result (N.told self.new.inner) }
        ensures same { (other : Id) (disk : Told) (found : Found) (left : Told) → Shadowed (map.get (id_map self.new.files.entries) other) (N.gives self.new.inner other) disk found left ↔ Shadowed (map.get (id_map self.old.files.entries) other) (N.gives self.old.inner other) disk found left }
        ensures hit { (file : Answer) → map.get (id_map self.old.files.entries) id.now ≡ Some file → (result.0 ≡ None) × AnswersAs file result.1 }
        ensures miss { map.get (id_map self.old.files.entries) id.now ≡ None → AnswersOver (N.gives self.old.inner id.now) (N.told self.old.inner) result (N.told self.new.inner) }
        ensures files { self.new.files ≡ self.old.files }
        ensures untouched { IsSome (map.get (id_map self.old.files.entries) id.now) → self.new ≡ self.old }
    {
        match at_id(&self.files, id) {
            Some(file) => (None, bytes_of(alloc, file)),
            None => self.inner.content(alloc, id),
        }
    }
}

fn bytes_of(alloc: Global, file: &FileSnapshot) -> FileResult<Bytes>
    ensures { AnswersAs file.now result }
{
    let again = file.share(alloc)?;
    again.into_content(alloc)
}
