//! What was read is known again by its fingerprint, and a failure says where and of what.
ghost use Rattle.std.specs.Prelude.{◌≡◌, ℕ, List, IfOk, IfErr, codes};
ghost use Rattle.ty_model.specs.Held.{version_of};
ghost use Rattle.ty_model.specs.LookUp.{Says, decision};
ghost use Rattle.ty_model.specs.Values.{Content};
ghost use Rattle.tinymist_std.specs.Hash.{fingerprint_of};
ghost use Rattle.tinymist_std.specs.Paths.{IsFileFault};

use std::alloc::Global;
use tinymist_std::{
    Base128, ErrKind, Error, Fingerprint, FingerprintBuilder, Result, WithContext, error_once,
};
use tinymist_vfs::{RootResolver, Vfs};
use ty_cells::{OwnCells, PathAccessModel};
use ty_syntax::{Bytes, FileError, FileFault, FileId};

/// The fingerprint of what an id reads as, under a hash that is handed in as a type. An error says that it was
/// met here, at which path and why.
pub fn fingerprint_of_file<B: Base128, R: RootResolver, M: PathAccessModel>(
    alloc: Global,
    view: &Vfs<R>,
    cells: &mut OwnCells<'_, M>,
    id: &FileId,
) -> Result<Fingerprint>
    ensures bytes { (bytes : List ℕ) → decision (version_of R.known view.now) id.now ≡ Says (Content bytes) → IfOk result (λ f. f ≡ fingerprint_of (B.hash128_of bytes)) }
    ensures named { IfErr result (IsFileFault (codes "fingerprint_of_file") id.now.vpath) }
{
    let bytes = read_named(alloc, view, cells, id)?;
    let builder: FingerprintBuilder<B> = FingerprintBuilder::new(alloc);
    builder
        .resolve_unchecked(&bytes.as_slice())
        .context(alloc, "fingerprint_of_file")
}

/// The bytes of an id, or an error that names it.
#[tactic(auto, using(crate::proofs::Said::says_bytes))]
fn read_named<R: RootResolver, M: PathAccessModel>(
    alloc: Global,
    view: &Vfs<R>,
    cells: &mut OwnCells<'_, M>,
    id: &FileId,
) -> Result<Bytes>
    ensures bytes { (bytes : List ℕ) → decision (version_of R.known view.now) id.now ≡ Says (Content bytes) → IfOk result (λ read. read ≡ bytes) }
    ensures named { IfErr result (IsFileFault (codes "fingerprint_of_file") id.now.vpath) }
{
    match view.read(cells, id) {
        Ok(bytes) => Ok(bytes),
        Err(FileFault::OutOfMemory) => Err(Error::new(
            "fingerprint_of_file",
            ErrKind::OutOfMemory,
            None,
        )),
        Err(FileFault::File(error)) => Err(refused(alloc, id.vpath().get_with_slash(), &error)),
    }
}

/// The error of a file that isn't read: its path and why.
fn refused(alloc: Global, path: &str, error: &FileError) -> Error
    ensures { IsFileFault (codes "fingerprint_of_file") path.now result }
{
    error_once!(alloc, "fingerprint_of_file", path: path, error: *error)
}
