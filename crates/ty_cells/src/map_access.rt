//! A disk in memory, with one answer for each path.
ghost use Rattle.std.specs.Prelude.{◌≡◌, ◌↔◌, [], ◌∷◌, IsTrue, Some, IfOk, map};
ghost use Rattle.std.specs.List.{IsDistinct};
ghost use Rattle.std.specs.Str.{bytes_eq};
ghost use Rattle.ty_model.specs.Disk.{answer_of};
ghost use Rattle.ty_cells.specs.Disk.{answers_at, TellsFixed};
ghost use Rattle.ty_cells.specs.MapAccess.{path_of, told_by};

use crate::disk::PathAccessModel;
use crate::snapshot::FileSnapshot;
use std::alloc::Global;
use std::marker::Model;
use ty_path::{OutOfMemory, Share};
use ty_syntax::FileError;

/// A fixed disk: each of its paths has one answer, and every other path is not found. Contracts see what it tells.
#[derive(Drop)]
pub struct MapAccess {
    files: Vec<(String, FileSnapshot)>,
}

impl Model for MapAccess {
    ghost use Rattle.ty_model.specs.Disk.{Told};
    ghost use Rattle.ty_model.specs.Codes.{told_code};
    ghost use Rattle.ty_cells.specs.MapAccess.{told_by};

    ghost Value = { Told };

    ghost coded = { told_code };

    ghost view = { λ m. told_by m.files.items };
}

impl MapAccess {
    /// A disk of these files, in which no path stands twice.
    #[tactic(auto, using(crate::proofs::Files::map_is_fixed))]
    pub fn new(files: Vec<(String, FileSnapshot)>) -> MapAccess
        requires { IsDistinct bytes_eq (map path_of files.items) }
        ensures files { result ≡ told_by files.items }
        ensures fixed { TellsFixed (Some result) }
    {
        MapAccess { files }
    }
}

fn find(
    alloc: Global,
    files: &[(String, FileSnapshot)],
    path: &str,
) -> Result<FileSnapshot, OutOfMemory>
    ensures { IfOk result (λ s. s ≡ answer_of (told_by files.now) path.now) }
{
    for (name, said) in files {
        if name.as_str() == path {
            return said.share(alloc);
        }
    }
    let text = String::from_str(alloc, path)?;
    FileSnapshot::from_error(alloc, FileError::NotFound(text))
}

fn holds(files: &[(String, FileSnapshot)], path: &str, answer: &FileSnapshot) -> bool
    ensures { IsTrue result ↔ (answers_at (told_by files.now) path.now ≡ answer.now ∷ []) }
{
    for (listed, said) in files {
        if listed.as_str() == path {
            return said.says_same(answer);
        }
    }
    answer.is_missing(path)
}

impl PathAccessModel for MapAccess {
    ghost told = { Some };

    ghost reset_gives = { λ before after. after ≡ before };

    fn content(&mut self, alloc: Global, path: &str) -> Result<FileSnapshot, OutOfMemory> {
        find(alloc, &self.files, path)
    }

    fn holds(&self, path: &str, answer: &FileSnapshot) -> bool {
        holds(&self.files, path, answer)
    }

    fn reset(&mut self) {}
}
