//! The cells of one reader: the disk that it was lent.
ghost use Rattle.std.specs.Prelude.{◌≡◌, []};
ghost use Rattle.std.specs.Borrow.{Lends, sem};
ghost use mir.Syntax.{named};
ghost use Rattle.ty_cells.specs.Disk.{AnswersAsTold};

use crate::disk::PathAccessModel;
use crate::snapshot::FileSnapshot;
use std::alloc::Global;
use ty_path::OutOfMemory;

/// A disk that is lent to one reader.
#[derive(Drop)]
pub struct OwnCells<'d, M> {
    disk: &'d mut M,
}

impl<'d, M: PathAccessModel> OwnCells<'d, M> {
    ghost use Rattle.ty_cells.specs.contracts.cells.OwnCells.{the_row as cells_row};

    /// The cells over a disk.
    pub fn new(disk: &'d mut M) -> OwnCells<'d, M>
        ensures same_disk { result.disk.ghost_name ≡ disk.entry.ghost_name }
        ensures disk { result.disk.now ≡ disk.old }
    {
        OwnCells { disk }
    }

    /// The disk. What is written through it stays in the cells.
    pub fn disk(&mut self) -> &mut M
        ensures* lends { sem 𝓛 (Lends (cells_row (record { mir = named 1; lft = [] }) M.row) M.row self.entry result (λ disk. record self.old { disk = record (self.old.disk) { now = disk } })) }
        ensures now { result.now ≡ self.old.disk.now }
    {
        &mut *self.disk
    }

    /// What the disk says of a path now.
    pub fn ask(&mut self, alloc: Global, path: &str) -> Result<FileSnapshot, OutOfMemory>
        ensures same_disk { self.new.disk.ghost_name ≡ self.old.disk.ghost_name }
        ensures answer { AnswersAsTold (M.told self.old.disk.now) path.now result (M.told self.new.disk.now) }
    {
        self.disk.content(alloc, path)
    }

    /// Lets the disk forget what it keeps to answer faster. What it tells stays.
    pub fn reset(&mut self)
        ensures same_disk { self.new.disk.ghost_name ≡ self.old.disk.ghost_name }
        ensures told { M.told self.new.disk.now ≡ M.told self.old.disk.now }
        ensures gives { M.reset_gives self.old.disk.now self.new.disk.now }
    {
        self.disk.reset();
    }
}
