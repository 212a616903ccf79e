//! Files and folders of the system by their paths, with errors that name the call and the path.
//!
//! What a file holds is not proved: these are thin edges over the library's files.
ghost use Rattle.std.specs.Prelude.{◌≡◌, false, Some, Ok, IsOkAnd, IfOk, IfErr, IsTrue, MatchResult, codes, string_bytes};
ghost use Rattle.std.specs.Option.{option_copied};
ghost use Rattle.std.specs.Path.{path_parent};
ghost use Rattle.std.specs.Str.{IsUtf8};
ghost use Rattle.tinymist_std.specs.Context.{IsRefusal, IsWantOfMemory, KeepsWant, reason_alone};
ghost use Rattle.tinymist_std.specs.PathAncestors.{path_next, path_stop};
ghost use Rattle.std.specs.IoError.{error_kind};
ghost use Rattle.tinymist_std.specs.Error.{no_memory, plain};
ghost use Rattle.tinymist_std.specs.Paths.{IsCopyFault, IsEntryFault, IsFileFault, TellsCause, any_has_colon, joined_paths, readable_folder, separator_arguments};

use crate::error::{ErrKind, Error, Result};
use crate::error_args::ErrorArgs;
use crate::path_ancestors::PathAncestors;
use std::alloc::Global;
use std::fmt::Display;
use std::io;
use std::io::ErrorKind;
use std::path::Path;

mod folders;
mod reading;
mod temporary;
mod writing;

pub use folders::{create_dir_all, remove_dir, remove_dir_all, remove_file, temp_dir_in};
pub use reading::{metadata, open, read, read_bytes};
pub use writing::{append, copy, create, write, write_atomic, write_if_changed};

/// The paths as one text for an environment variable, with `:` between. The error, which names the
/// variable, comes where a path has a `:`, and else only where memory runs out.
pub fn join_paths(alloc: Global, paths: &[String], env: &str) -> Result<String>
    ensures joined { IfOk result (λ text. string_bytes text ≡ joined_paths paths.now) }
    ensures apart { IfOk result (λ _. any_has_colon paths.now ≡ false) }
    ensures refused { IfErr result (IsRefusal (codes "join_paths")
        (Some (separator_arguments env.now)) (IsTrue (any_has_colon paths.now))) }
{
    if any_has_colon(paths) {
        return Err(
            ErrorArgs::new(alloc)
                .with(alloc, "env", &env)
                .with(alloc, "error", &"path segment contains separator `:`")
                .error("join_paths"),
        );
    }
    within_memory("join_paths", paths.join(alloc, ":"))
}

/// Whether a path has a `:`.
fn any_has_colon(paths: &[String]) -> bool
    ensures { result ≡ any_has_colon paths.now }
{
    paths.iter().any(|path| path.as_bytes().contains(&b':'))
}

/// The bytes of a path.
pub fn path2bytes(path: &str) -> Result<&[u8]>
    ensures { IsOkAnd result (λ bytes. bytes.now ≡ path.now) }
{
    Ok(path.as_bytes())
}

/// The path of the bytes. The error comes where they aren't UTF-8, which it says, and else only
/// where memory runs out.
pub fn bytes2path(alloc: Global, bytes: &[u8]) -> Result<String>
    ensures path { IfOk result (λ path. string_bytes path ≡ bytes.now) }
    ensures refused { IfErr result
        (IsRefusal (codes "bytes2path") (Some (reason_alone (codes "the path is not UTF-8")))
        (¬ (IsUtf8 bytes.now))) }
{
    let Ok(text) = str::from_utf8(bytes) else {
        return Err(
            ErrorArgs::new(alloc)
                .with(alloc, "error", &"the path is not UTF-8")
                .error("bytes2path"),
        );
    };
    within_memory("bytes2path", String::from_str(alloc, text))
}

/// The path and then its parents, up to `stop` where it is one of them, and else to the end.
pub fn ancestors<'p>(path: &'p str, stop: Option<&'p str>) -> PathAncestors<'p>
    ensures first { path_next result ≡ Some path.now }
    ensures stop { path_stop result ≡ option_copied stop.entry }
{
    PathAncestors::new(path, stop)
}

/// The path of the folder in which a path stands; `None` where the path has no parent.
pub(crate) fn folder_of(path: &str) -> Option<&str>
    ensures { option_copied result ≡ path_parent path.now }
{
    match Path::new(path).parent() {
        Some(folder) => Some(folder.as_str()),
        None => None,
    }
}

/// The folder as the system reads it: an empty path is the folder in which the program runs.
pub(crate) fn readable(folder: &str) -> &str
    ensures { result.now ≡ readable_folder folder.now }
{
    if folder.is_empty() { "." } else { folder }
}

/// The result, whose error says that memory ran out at the call.
pub(crate) fn within_memory<T, E: Drop>(
    call: &'static str,
    answer: std::result::Result<T, E>,
) -> Result<T>
    ensures { MatchResult result (λ value. answer ≡ Ok value) (IsWantOfMemory call.now) }
{
    match answer {
        Ok(value) => Ok(value),
        Err(_) => Err(Error::new(call, ErrKind::OutOfMemory, None)),
    }
}

/// The result, whose error names the call and the path.
pub(crate) fn named<T>(
    alloc: Global,
    call: &'static str,
    path: &str,
    answer: io::Result<T>,
) -> Result<T>
    ensures names { MatchResult result (λ value. answer ≡ Ok value) (IsFileFault call.now path.now) }
    ensures memory { IfErr answer (λ cause. IfErr result
        (λ e. KeepsWant (error_kind cause ≡ ErrorKind.OutOfMemory) e.kind)) }
{
    match answer {
        Ok(value) => Ok(value),
        Err(cause) => Err(fault(alloc, call, path, cause)),
    }
}

/// The error of a call that failed at a path, which tells the cause.
fn fault(alloc: Global, call: &'static str, path: &str, cause: io::Error) -> Error
    ensures names { IsFileFault call.now path.now result }
    ensures memory { error_kind cause ≡ ErrorKind.OutOfMemory → result.kind ≡ plain no_memory }
{
    match cause.kind() {
        ErrorKind::OutOfMemory => Error::new(call, ErrKind::OutOfMemory, None),
        _ => told(alloc, call, path, &cause),
    }
}

/// The error of a call at a path that tells a cause by what it prints.
pub(crate) fn told<D: Display>(alloc: Global, call: &'static str, path: &str, cause: &D) -> Error
    ensures names { IsFileFault call.now path.now result }
    ensures tells { TellsCause path.now (D.output cause.now) result }
{
    ErrorArgs::new(alloc)
        .with(alloc, "path", &path)
        .with(alloc, "error", cause)
        .error(call)
}

/// The result of a copy, whose error names the call and both paths.
pub(crate) fn copied<T>(
    alloc: Global,
    call: &'static str,
    from: &str,
    to: &str,
    answer: io::Result<T>,
) -> Result<T>
    ensures names { MatchResult result (λ value. answer ≡ Ok value) (IsCopyFault call.now from.now to.now) }
    ensures memory { IfErr answer (λ cause. IfErr result
        (λ e. KeepsWant (error_kind cause ≡ ErrorKind.OutOfMemory) e.kind)) }
{
    match answer {
        Ok(value) => Ok(value),
        Err(cause) => Err(copy_fault(alloc, call, from, to, cause)),
    }
}

/// The error of a copy, which names both paths and tells the cause.
fn copy_fault(alloc: Global, call: &'static str, from: &str, to: &str, cause: io::Error) -> Error
    ensures names { IsCopyFault call.now from.now to.now result }
    ensures memory { error_kind cause ≡ ErrorKind.OutOfMemory → result.kind ≡ plain no_memory }
{
    match cause.kind() {
        ErrorKind::OutOfMemory => Error::new(call, ErrKind::OutOfMemory, None),
        _ => ErrorArgs::new(alloc)
            .with(alloc, "from", &from)
            .with(alloc, "to", &to)
            .with(alloc, "error", &cause)
            .error(call),
    }
}

/// The error of a call at a path that failed at an entry beside it.
pub(crate) fn entry_fault(
    alloc: Global,
    call: &'static str,
    path: &str,
    entry: &str,
    cause: io::Error,
) -> Error
    ensures names { IsEntryFault call.now path.now entry.now result }
    ensures memory { error_kind cause ≡ ErrorKind.OutOfMemory → result.kind ≡ plain no_memory }
{
    match cause.kind() {
        ErrorKind::OutOfMemory => Error::new(call, ErrKind::OutOfMemory, None),
        _ => ErrorArgs::new(alloc)
            .with(alloc, "path", &path)
            .with(alloc, "entry", &entry)
            .with(alloc, "error", &cause)
            .error(call),
    }
}
