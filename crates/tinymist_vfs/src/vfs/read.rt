//! A read of an id, and its source: what the layers decide, else what the disk says.
ghost use Rattle.std.specs.Prelude.{◌≡◌, ◌⊎◌, IfOk, Option, string_bytes};
ghost use Rattle.ty_model.specs.Values.{Answer, Content};
ghost use Rattle.ty_model.specs.LookUp as plain;
ghost use Rattle.ty_model.specs.Disk.{Told};
ghost use Rattle.ty_model.specs.Held.{version_of};
ghost use Rattle.tinymist_vfs.specs.Reading.{decision_of, ReadsAsTold, AsksAsTold, SourcesAs, SourcesAsTold};

use crate::ids::resolver::{PathResolution, RootResolver};
use crate::layers::Layers;
use crate::layers::store::{at_id, at_text};
use crate::vfs::Vfs;
use std::alloc::Global;
use ty_cells::{FileSnapshot, OwnCells, PathAccessModel};
use ty_path::{OutOfMemory, Share};
use ty_syntax::{Bytes, FileError, FileFault, FileId, FileResult, Source, text_of};

/// What a version says of an id by itself.
#[derive(Drop)]
pub(crate) enum Decision {
    /// An overlay or a told file has it.
    Says(FileSnapshot),
    /// It has no path, or its package is refused.
    Refuses(FileError),
    /// The disk decides.
    Asks(String),
}

impl Layers {
    /// The path overlay before the told files, and these before the disk.
    fn decide(&self, alloc: Global, path: String) -> Result<Decision, OutOfMemory>
        ensures { IfOk result (λ d. decision_of d ≡ plain.path_decision self.now (string_bytes path)) }
    {
        if let Some(shadow) = at_text(&self.by_path, &path) {
            return Ok(Decision::Says(shadow.share(alloc)?));
        }
        if let Some(told) = at_text(&self.told, &path) {
            return Ok(Decision::Says(told.share(alloc)?));
        }
        Ok(Decision::Asks(path))
    }
}

impl<R: RootResolver> Vfs<R> {
    fn decide(&self, id: &FileId) -> Result<Decision, OutOfMemory>
        ensures { IfOk result (λ d. decision_of d ≡ plain.decision (version_of R.known self.now) id.now) }
    {
        if let Some(shadow) = at_id(&self.layers.by_id, id) {
            return Ok(Decision::Says(shadow.share(self.alloc)?));
        }
        match self.resolver.path_for_id(self.alloc, id) {
            Ok(PathResolution::Resolved(path)) => self.layers.decide(self.alloc, path),
            Ok(PathResolution::Rootless(_)) => Ok(Decision::Refuses(FileError::AccessDenied)),
            Err(FileFault::File(error)) => Ok(Decision::Refuses(error)),
            Err(FileFault::OutOfMemory) => Err(OutOfMemory),
        }
    }

    /// The bytes of an id: the overlay by id, else by its path, else the told file, else the disk, which is
    /// asked for nothing else.
    ///
    /// # Errors
    ///
    /// `AccessDenied` of an id without a path that no overlay has, the refusal of its package, or the
    /// error that the deciding layer or the disk has for it.
    pub fn read<M: PathAccessModel>(
        &self,
        cells: &mut OwnCells<'_, M>,
        id: &FileId,
    ) -> FileResult<Bytes>
        ensures same_disk { cells.new.disk.ghost_name ≡ cells.old.disk.ghost_name }
        ensures read { ReadsAsTold (plain.decision (version_of R.known self.now) id.now) (M.told cells.old.disk.now) result (M.told cells.new.disk.now) }
        ensures untouched { (answer : Answer) → plain.decision (version_of R.known self.now) id.now ≡ plain.Says answer → cells.new.disk.now ≡ cells.old.disk.now }
    {
        match self.decide(id)? {
            Decision::Says(snap) => snap.into_content(self.alloc),
            Decision::Refuses(error) => Err(FileFault::File(error)),
            Decision::Asks(path) => self.ask(cells, path.as_str()),
        }
    }

    /// The source of an id: the text of what `read` gives, after at most one byte order mark.
    ///
    /// # Errors
    ///
    /// `InvalidUtf8` exactly where the bytes have no text; else as `read`.
    pub fn source<M: PathAccessModel>(
        &self,
        cells: &mut OwnCells<'_, M>,
        id: &FileId,
    ) -> FileResult<Source>
        ensures same_disk { cells.new.disk.ghost_name ≡ cells.old.disk.ghost_name }
        ensures read { SourcesAsTold (plain.decision (version_of R.known self.now) id.now) id.now (M.told cells.old.disk.now) result (M.told cells.new.disk.now) }
        ensures untouched { (answer : Answer) → plain.decision (version_of R.known self.now) id.now ≡ plain.Says answer → cells.new.disk.now ≡ cells.old.disk.now }
    {
        let bytes = self.read(cells, id)?;
        source_with(self.alloc, id, &bytes)
    }

    fn ask<M: PathAccessModel>(&self, cells: &mut OwnCells<'_, M>, path: &str) -> FileResult<Bytes>
        ensures same_disk { cells.new.disk.ghost_name ≡ cells.old.disk.ghost_name }
        ensures read { AsksAsTold path.now (M.told cells.old.disk.now) result (M.told cells.new.disk.now) }
    {
        let answer = cells.ask(self.alloc, path)?;
        answer.into_content(self.alloc)
    }
}

/// The source of an id with these bytes.
fn source_with(alloc: Global, id: &FileId, bytes: &Bytes) -> FileResult<Source>
    ensures { SourcesAs (Content bytes.now) id.now result }
{
    let text = text_of(bytes.as_slice())?;
    Ok(source_of_text(alloc, id, text)?)
}

fn source_of_text(alloc: Global, id: &FileId, text: &str) -> Result<Source, OutOfMemory>
    ensures { IfOk result (λ source. source ≡ record { id = id.now; text = text.now }) }
{
    let text = String::from_str(alloc, text)?;
    Source::new(alloc, id.share(alloc)?, text)
}
