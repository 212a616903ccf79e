//! A disk that denies every path.
ghost use Rattle.std.specs.Prelude.{◌≡◌, Some};
ghost use Rattle.ty_cells.specs.Disk.{all_denied, TellsFixed};

use crate::disk::PathAccessModel;
use crate::snapshot::FileSnapshot;
use std::alloc::Global;
use ty_path::OutOfMemory;
use ty_syntax::FileError;

/// A disk that denies every path.
#[derive(Clone, Copy, Debug)]
pub struct DummyAccessModel;

impl DummyAccessModel {
    /// The disk, which is fixed.
    pub fn new() -> DummyAccessModel
        ensures fixed { TellsFixed (⟦<DummyAccessModel as PathAccessModel>⟧.told result) }
    {
        DummyAccessModel
    }
}

impl PathAccessModel for DummyAccessModel {
    ghost told = { λ _. Some all_denied };

    ghost reset_gives = { λ before after. after ≡ before };

    fn content(&mut self, alloc: Global, _path: &str) -> Result<FileSnapshot, OutOfMemory> {
        FileSnapshot::from_error(alloc, FileError::AccessDenied)
    }

    fn holds(&self, _path: &str, answer: &FileSnapshot) -> bool {
        answer.is_denied()
    }

    fn reset(&mut self) {}
}
