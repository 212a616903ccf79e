//! Models of files by ids.
ghost use Rattle.std.specs.Prelude.{◌≡◌, ◌↔◌, Option, IfOk};
ghost use Rattle.ty_path.specs.Shared.{path_text};
ghost use Rattle.std.specs.String.{string_bytes};
ghost use Rattle.ty_model.specs.Disk.{Told};
ghost use Rattle.ty_model.specs.Values.{Id};
ghost use Rattle.ty_model.specs.Places.{place_of};
ghost use Rattle.tinymist_vfs.specs.Access.{Found, AnswersOver, path_at};
ghost use Rattle.tinymist_vfs.specs.Reading.{AsksAsTold};
ghost use Rattle.tinymist_vfs.specs.RootResolver.{SaysRoot};

use crate::ids::resolver::RootResolver;
use std::alloc::Global;
use std::sync::Arc;
use ty_cells::PathAccessModel;
use ty_path::{ImmutPath, OutOfMemory};
use ty_syntax::{Bytes, FileId, FileResult};

/// Files by their ids.
pub trait AccessModel {
    /// What the disk below tells, where it does.
    ghost told: { Self → Option Told };

    /// Over a disk that tells this: what is found of an id, and what the disk tells then.
    ghost gives: { Self → Id → Told → Found → Told → Type 0 };

    /// The path of an id, where one was resolved, and what the file holds.
    fn content(&mut self, alloc: Global, id: &FileId) -> (Option<ImmutPath>, FileResult<Bytes>)
        ensures answer { AnswersOver (gives self.old id.now) (told self.old) result (told self.new) }
        ensures same { (other : Id) (disk : Told) (found : Found) (left : Told) → gives self.new other disk found left ↔ gives self.old other disk found left };
}

/// A disk below the paths of ids.
#[derive(Drop)]
pub struct ResolveAccessModel<R: Drop, N: Drop> {
    /// Tells the paths.
    pub resolver: R,
    /// The disk.
    pub inner: N,
}

impl<R: RootResolver, N: Drop> ResolveAccessModel<R, N> {
    fn place(&self, alloc: Global, id: &FileId) -> FileResult<ImmutPath>
        ensures { SaysRoot (path_at (place_of (R.known self.now.resolver) id.now)) result }
    {
        let path = self.resolver.path_for_id(alloc, id)?.to_err()?;
        Ok(shared(alloc, path)?)
    }
}

fn shared(alloc: Global, path: String) -> Result<ImmutPath, OutOfMemory>
    ensures { IfOk result (λ made. path_text made ≡ string_bytes path) }
{
    Ok(Arc::new(alloc, path)?)
}

fn ask<N: PathAccessModel>(alloc: Global, inner: &mut N, path: &str) -> FileResult<Bytes>
    ensures { AsksAsTold path.now (N.told inner.old) result (N.told inner.new) }
{
    let answer = inner.content(alloc, path)?;
    answer.into_content(alloc)
}

impl<R: RootResolver, N: PathAccessModel + Drop> AccessModel for ResolveAccessModel<R, N> {
    ghost use Rattle.std.specs.Prelude.{◌≡◌, ◌↔◌, ℕ, List, None, Ok, Err};
    ghost use Rattle.ty_model.specs.Places.{place_of};
    ghost use Rattle.ty_model.specs.Values.{Id, Refusal, Refused};
    ghost use Rattle.ty_model.specs.Disk.{Told};
    ghost use Rattle.ty_cells.specs.Snapshot.{AnswersAs};
    ghost use Rattle.tinymist_vfs.specs.Access.{Asked, AnswersOver, Found, path_at};

    ghost told = { λ s. N.told s.inner };

    ghost gives = { λ s id. Asked (path_at (place_of (R.known s.resolver) id)) };

    /// What the disk says of the path of an id, and else why it has none. The disk is asked for that path alone.
    fn content(&mut self, alloc: Global, id: &FileId) -> (Option<ImmutPath>, FileResult<Bytes>)
        ensures answer { AnswersOver (Asked (path_at (place_of (R.known self.old.resolver) id.now))) (N.told self.old.inner) result (N.told self.new.inner) }
        ensures same { (other : Id) (disk : Told) (found : Found) (left : Told) → Asked (path_at (place_of (R.known self.new.resolver) other)) disk found left ↔ Asked (path_at (place_of (R.known self.old.resolver) other)) disk found left }
        ensures asked { (path : List ℕ) → path_at (place_of (R.known self.old.resolver) id.now) ≡ Ok path → AsksAsTold path (N.told self.old.inner) result.1 (N.told self.new.inner) }
        ensures refused { (refusal : Refusal) → path_at (place_of (R.known self.old.resolver) id.now) ≡ Err refusal → (result.0 ≡ None) × AnswersAs (Refused refusal) result.1 × (self.new.inner ≡ self.old.inner) }
        ensures resolver { self.new.resolver ≡ self.old.resolver }
    {
        match self.place(alloc, id) {
            Ok(path) => {
                let bytes = ask(alloc, &mut self.inner, path.as_str());
                (Some(path), bytes)
            }
            Err(fault) => (None, Err(fault)),
        }
    }
}
