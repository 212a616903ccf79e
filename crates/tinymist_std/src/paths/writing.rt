//! Files that are made and written.
ghost use Rattle.std.specs.Prelude.{◌≡◌, ◌≢◌, ◌↔◌, Some, true, IfOk, IfErr, IsSomeAnd, IsTrue, bit_and, codes, string_bytes};
ghost use Rattle.std.specs.Option.{option_map};
ghost use Rattle.std.specs.Result.{result_ok};
ghost use Rattle.std.specs.Fs.{metadata_mode, new_options, permissions_mode, with_append, with_create};
ghost use Rattle.std.specs.Path.{path_parent};
ghost use Rattle.tinymist_std.specs.Paths.{IsCopyFault, IsFileFault, IsPresent, StandsIn};

use crate::error::Result;
use crate::paths::temporary::{Place, first_free, random_part};
use crate::paths::{copied, folder_of, named};
use std::alloc::Global;
use std::fs::{File, Metadata, OpenFile, OpenOptions, Permissions};
use std::io::{ErrorKind, Write};
use std::os::unix::fs::PermissionsExt;
use std::rt::Files;
use std::{fs, io};

/// Makes the file, or empties it, and opens it to be written.
pub fn create<R: Files>(rt: &R, alloc: Global, path: &str) -> Result<R::File>
    ensures { IfErr result (IsFileFault (codes "create") path.now) }
{
    named(alloc, "create", path, File::create(rt, path))
}

/// Makes a file hold these bytes and no others.
pub fn write<R: Files>(rt: &R, alloc: Global, path: &str, contents: &[u8]) -> Result<()>
    ensures { IfErr result (IsFileFault (codes "write") path.now) }
{
    named(alloc, "write", path, fs::write(rt, path, contents))
}

/// As [`write`], by a new file that takes the path's name once it is written: who reads meanwhile
/// finds the old content or the new one. Of the permissions of a file that stands there those to read,
/// write and run are kept, and no others: the new file belongs to the caller, and must not run with
/// the rights of the old one's owner. A link is replaced by a file, and other hard links keep the old
/// content.
pub fn write_atomic<R: Files>(rt: &R, alloc: Global, path: &str, contents: &[u8]) -> Result<()>
    ensures { IfErr result (IsFileFault (codes "write_atomic") path.now) }
{
    named(
        alloc,
        "write_atomic",
        path,
        replace(rt, alloc, path, contents),
    )
}

/// As [`write`], but a file that holds these bytes already is only read.
pub fn write_if_changed<R: Files>(rt: &R, alloc: Global, path: &str, contents: &[u8]) -> Result<()>
    ensures { IfErr result (IsFileFault (codes "write_if_changed") path.now) }
{
    named(
        alloc,
        "write_if_changed",
        path,
        update(rt, alloc, path, contents),
    )
}

/// Adds the bytes to the end of a file, which is made where there is none.
pub fn append<R: Files>(rt: &R, alloc: Global, path: &str, contents: &[u8]) -> Result<()>
    ensures { IfErr result (IsFileFault (codes "append") path.now) }
{
    named(alloc, "append", path, extend(rt, path, contents))
}

/// Copies a file's content and permissions, and answers the count of bytes. The error names both
/// paths. A file that is copied onto itself loses its content.
pub fn copy<R: Files>(rt: &R, alloc: Global, from: &str, to: &str) -> Result<u64>
    ensures { IfErr result (IsCopyFault (codes "copy") from.now to.now) }
{
    copied(alloc, "copy", from, to, fs::copy(rt, from, to))
}

/// Adds the bytes to the file's end.
fn extend<R: Files>(rt: &R, path: &str, contents: &[u8]) -> io::Result<()> {
    appending_options().open(rt, path)?.write_all(contents)
}

/// How a file is opened so that what is written goes to its end; a missing file is made.
fn appending_options() -> OpenOptions
    ensures { result ≡ with_create (with_append new_options true) true }
{
    let mut options = OpenOptions::new();
    options.append(true).create(true);
    options
}

/// Makes the file hold the bytes, and writes it only where it is missing or holds others.
fn update<R: Files>(rt: &R, alloc: Global, path: &str, contents: &[u8]) -> io::Result<()> {
    let kept = present(fs::read(&(rt, alloc), path))?;
    if must_write(&kept, contents) {
        return fs::write(rt, path, contents);
    }
    Ok(())
}

/// What was read, or `None` of a file that is missing.
fn present<T>(answer: io::Result<T>) -> io::Result<Option<T>>
    ensures { IsPresent answer result }
{
    match answer {
        Ok(found) => Ok(Some(found)),
        Err(cause) => match cause.kind() {
            ErrorKind::NotFound => Ok(None),
            _ => Err(cause),
        },
    }
}

/// Whether a file must be written to hold the contents: it is missing, or holds others.
fn must_write(kept: &Option<Vec<u8>>, contents: &[u8]) -> bool
    ensures { IsTrue result ↔ (option_map (λ v. v.items) kept.now ≢ Some contents.now) }
{
    match kept {
        Some(bytes) => bytes.as_slice() != contents,
        None => true,
    }
}

/// Writes a new file beside the path, and gives it the path's name. Where that fails, the new file
/// is removed.
fn replace<R: Files>(rt: &R, alloc: Global, path: &str, contents: &[u8]) -> io::Result<()> {
    let (beside, file) = create_beside(rt, alloc, path)?;
    match fill(rt, file, beside.as_str(), path, contents) {
        Ok(()) => Ok(()),
        Err(cause) => {
            let _removed = fs::remove_file(rt, beside.as_str());
            Err(cause)
        }
    }
}

/// Gives the new file the permissions of the one that stands at the path, fills it and renames it.
fn fill<R: Files>(
    rt: &R,
    mut file: R::File,
    beside: &str,
    path: &str,
    contents: &[u8],
) -> io::Result<()> {
    if let Some(kept) = kept_permissions(fs::metadata(rt, path)) {
        file.set_permissions(kept)?;
    }
    file.write_all(contents)?;
    file.sync_all()?;
    fs::rename(rt, beside, path)
}

/// The permissions of a file that takes another's place: those to read, write and run. Of a file of
/// which the system tells nothing there are none to keep.
fn kept_permissions(there: io::Result<Metadata>) -> Option<Permissions>
    ensures { option_map permissions_mode result
        ≡ option_map (λ m. bit_and (metadata_mode m) 0o777) (result_ok there) }
{
    match there {
        Ok(there) => Some(Permissions::from_mode(there.permissions().mode() & 0o777)),
        Err(_) => None,
    }
}

/// A new file in the folder of the path, and its path.
fn create_beside<R: Files>(rt: &R, alloc: Global, path: &str) -> io::Result<(String, R::File)>
    ensures { IfOk result (λ made. IsSomeAnd (path_parent path.now)
        (λ folder. StandsIn folder (string_bytes made.0))) }
{
    let Some(folder) = folder_of(path) else {
        return Err(io::Error::from(ErrorKind::InvalidInput));
    };
    first_free(
        alloc,
        Place {
            folder,
            target: path,
            unique: random_part(rt),
        },
        |beside| File::create_new(rt, beside),
    )
}
