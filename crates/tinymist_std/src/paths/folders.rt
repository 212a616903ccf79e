//! Folders that are made, and files and folders that are removed.
ghost use Rattle.std.specs.Prelude.{ℕ, ◌⊎◌, List, Ok, Err, IfOk, IfErr, codes, string_bytes};
ghost use Rattle.std.specs.Borrow.{Bor};
ghost use Rattle.tinymist_std.specs.Paths.{IsFileFault, StandsIn};

use crate::error::{Error, Result};
use crate::paths::temporary::{Place, made_in, random_part};
use crate::paths::{named, readable};
use std::alloc::Global;
use std::rt::Files;
use std::{fs, io};

/// Makes the folder, and each folder above it that is missing.
pub fn create_dir_all<R: Files>(rt: &R, alloc: Global, path: &str) -> Result<()>
    ensures { IfErr result (IsFileFault (codes "create_dir_all") path.now) }
{
    named(alloc, "create_dir_all", path, fs::create_dir_all(rt, path))
}

/// Removes the folder with all that it holds.
pub fn remove_dir_all<R: Files>(rt: &R, alloc: Global, path: &str) -> Result<()>
    ensures { IfErr result (IsFileFault (codes "remove_dir_all") path.now) }
{
    named(
        alloc,
        "remove_dir_all",
        path,
        fs::remove_dir_all(&(rt, alloc), path),
    )
}

/// Removes the folder, which must be empty.
pub fn remove_dir<R: Files>(rt: &R, alloc: Global, path: &str) -> Result<()>
    ensures { IfErr result (IsFileFault (codes "remove_dir") path.now) }
{
    named(alloc, "remove_dir", path, fs::remove_dir(rt, path))
}

/// Removes the file.
pub fn remove_file<R: Files>(rt: &R, alloc: Global, path: &str) -> Result<()>
    ensures { IfErr result (IsFileFault (codes "remove_file") path.now) }
{
    named(alloc, "remove_file", path, fs::remove_file(rt, path))
}

/// What `f` answers for a new folder in that of the path, which is made where it is missing. The new
/// folder is removed afterwards; a removal that fails is passed over. An empty path is the folder in
/// which the program runs.
pub fn temp_dir_in<R: Files, T, E: Into<Error>, G: FnOnce(&str) -> Result<T, E> + Drop>(
    rt: &R,
    alloc: Global,
    path: &str,
    f: G,
) -> Result<T>
    requires { G.IsAlwaysCallable f }
    ensures ok { IfOk result (λ value. (folder : Bor (List ℕ))
        × StandsIn path.now folder.now × G.post f folder (Ok value)) }
    ensures err { IfErr result (λ error. IsFileFault (codes "temp_dir_in") path.now error
        ⊎ ((folder : Bor (List ℕ)) × ((e : E)
        × (StandsIn path.now folder.now × G.post f folder (Err e) × E.converts e error)))) }
{
    let folder = named(alloc, "temp_dir_in", path, create_in(rt, alloc, path))?;
    let answer = f(folder.as_str());
    let _removed = fs::remove_dir_all(&(rt, alloc), folder.as_str());
    match answer {
        Ok(value) => Ok(value),
        Err(error) => Err(error.into()),
    }
}

/// A new folder in that of the path, which is made where it is missing.
fn create_in<R: Files>(rt: &R, alloc: Global, path: &str) -> io::Result<String>
    ensures { IfOk result (λ folder. StandsIn path.now (string_bytes folder)) }
{
    let place = Place {
        folder: path,
        target: path,
        unique: random_part(rt),
    };
    let (folder, ()) = made_in(
        alloc,
        place,
        |folder| fs::create_dir_all(rt, readable(folder)),
        |folder| fs::create_dir(rt, folder),
    )?;
    Ok(folder)
}
