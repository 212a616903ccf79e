//! A disk of one's own, and a read over it.
ghost use Rattle.std.specs.Prelude.{◌≡◌, ◌↔◌, ℕ, List, IsTrue, Some};
ghost use Rattle.ty_model.specs.Disk.{IsFixed, answer_of};
ghost use Rattle.ty_model.specs.Held.{version_of};
ghost use Rattle.ty_model.specs.LookUp.{Asks, decision};
ghost use Rattle.ty_model.specs.Values.{Content, NotFound, Refused, same_answer};
ghost use Rattle.ty_cells.specs.Disk.{TellsFixed, answers_at};
ghost use Rattle.ty_cells.specs.Snapshot.{AnswersAs};
ghost use Rattle.ty_syntax.specs.Error.{refusal_of};
ghost use Rattle.uses.specs.OneFile.{one_file};

use std::alloc::Global;
use std::marker::Model;
use tinymist_vfs::{RootResolver, Vfs};
use ty_cells::{FileSnapshot, OwnCells, PathAccessModel};
use ty_path::{OutOfMemory, Share};
use ty_syntax::{Bytes, FileError, FileId, FileResult};

/// A disk with one file: every other path is not found. Contracts see what it tells.
#[derive(Drop)]
pub struct OneFile {
    path: String,
    file: FileSnapshot,
}

impl Model for OneFile {
    ghost use Rattle.std.specs.Prelude.{string_bytes};
    ghost use Rattle.ty_model.specs.Disk.{Told};
    ghost use Rattle.ty_model.specs.Codes.{told_code};
    ghost use Rattle.uses.specs.OneFile.{one_file};

    ghost Value = { Told };

    ghost coded = { told_code };

    ghost view = { λ d. one_file (string_bytes d.path) d.file };
}

impl OneFile {
    ghost use Rattle.std.specs.Prelude.{string_bytes};

    /// A disk with these bytes at this path.
    pub fn new(path: String, bytes: Bytes) -> OneFile
        ensures tells { result ≡ one_file (string_bytes path) (Content bytes) }
        ensures fixed { TellsFixed (Some result) }
    {
        OneFile {
            path,
            file: FileSnapshot::from_bytes(bytes),
        }
    }
}

impl PathAccessModel for OneFile {
    ghost told = { Some };

    ghost reset_gives = { λ before after. after ≡ before };

    fn content(&mut self, alloc: Global, path: &str) -> Result<FileSnapshot, OutOfMemory> {
        if self.path.as_str() == path {
            return self.file.share(alloc);
        }
        FileSnapshot::from_error(alloc, FileError::NotFound(String::from_str(alloc, path)?))
    }

    fn holds(&self, path: &str, answer: &FileSnapshot) -> bool {
        if self.path.as_str() == path {
            return self.file.same_as(answer);
        }
        is_missing(path, answer)
    }

    fn reset(&mut self) {}
}

/// Whether the answer is that nothing is at the path.
fn is_missing(path: &str, answer: &FileSnapshot) -> bool
    ensures { IsTrue result ↔ (answer.now ≡ Refused (NotFound path.now)) }
{
    match &answer.0 {
        Ok(_) => false,
        Err(error) => is_not_found(path, error),
    }
}

fn is_not_found(path: &str, error: &FileError) -> bool
    ensures { IsTrue result ↔ (refusal_of error.now ≡ NotFound path.now) }
{
    match error {
        FileError::NotFound(missing) => missing.as_str() == path,
        _ => false,
    }
}

/// Reads an id over a disk that is lent for this read. What no layer has is what the disk says of the id's
/// path.
#[tactic(auto, using(crate::proofs::Said::reads_stay))]
pub fn read_from_disk<R: RootResolver>(
    live: &Vfs<R>,
    disk: &mut OneFile,
    id: &FileId,
) -> FileResult<Bytes>
    ensures asked { (path : List ℕ) → decision (version_of R.known live.now) id.now ≡ Asks path → AnswersAs (answer_of disk.old path) result }
    ensures stays { IsFixed disk.old → disk.new ≡ disk.old }
{
    let mut cells = OwnCells::new(disk);
    live.read(&mut cells, id)
}
