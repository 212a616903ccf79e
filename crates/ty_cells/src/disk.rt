//! A disk: what a path has that no layer above it decides.
ghost use Rattle.std.specs.Prelude.{◌≡◌, Option};
ghost use Rattle.ty_model.specs.Disk.{Told};
ghost use Rattle.ty_cells.specs.Disk.{AnswersAsTold, HoldsAsTold};

use crate::snapshot::FileSnapshot;
use std::alloc::Global;
use ty_path::OutOfMemory;

/// A disk that is asked for paths. Whatever it says of a path is its answer: it has no fault of its own.
pub trait PathAccessModel {
    /// The answers that are still to come for each path, where the disk tells them.
    ghost told: { Self → Option Told };

    /// What a reset may make of the disk.
    ghost reset_gives: { Self → Self → Type 0 };

    /// What the disk says of a path now.
    fn content(&mut self, alloc: Global, path: &str) -> Result<FileSnapshot, OutOfMemory>
        ensures { AnswersAsTold (told self.old) path.now result (told self.new) };

    /// Whether this is what the disk says of a path, now and from now on.
    fn holds(&self, path: &str, answer: &FileSnapshot) -> bool
        ensures { HoldsAsTold (told self.now) path.now answer.now result };

    /// Forgets what the disk keeps to answer faster. What it tells stays.
    fn reset(&mut self)
        ensures told { told self.new ≡ told self.old }
        ensures gives { reset_gives self.old self.new };
}
