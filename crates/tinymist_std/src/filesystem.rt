//! A folder whose files are opened with a lock.
ghost use Rattle.std.specs.Prelude.{◌≡◌, ◌≢◌, ◌↔◌, true, Ok, IfOk, IfErr, IfSome, IsTrue, MatchResult, OnOk, OnErr, codes, string_bytes};
ghost use Rattle.std.specs.Fs.{asks_write, new_options, with_create, with_read, with_write};
ghost use Rattle.std.specs.IoError.{error_kind};
ghost use Rattle.tinymist_std.specs.Context.{KeepsWant};
ghost use Rattle.tinymist_std.specs.Error.{no_memory, plain};
ghost use Rattle.tinymist_std.specs.FileLock.{IsTaken, IsWaited, lock_path};
ghost use Rattle.tinymist_std.specs.Paths.{IsFileFault};
ghost use Rattle.ty_model.specs.Paths as plain;

use crate::error::{ErrKind, Error, Result};
use crate::file_lock::FileLock;
use crate::paths::{folder_of, named, told, within_memory};
use std::alloc::Global;
use std::fmt::Display;
use std::fs::{File, OpenOptions, TryLockError};
use std::io::ErrorKind;
use std::marker::Model;
use std::rt::Files;
use std::{fmt, fs, io};
use ty_path::{OutOfMemory, join};

/// A folder whose files are reached through locks. Its path alone is reached without.
#[derive(Debug, Drop)]
pub struct Filesystem {
    root: String,
}

impl Model for Filesystem {
    ghost use Rattle.std.specs.Prelude.{ℕ, List, string_bytes};

    ghost Value = { List ℕ };

    ghost view = { λ f. string_bytes f.root };
}

impl Filesystem {
    /// The folder of a path.
    pub fn new(root: String) -> Filesystem
        ensures { result ≡ string_bytes root }
    {
        Filesystem { root }
    }

    /// The folder of a path below this one. An absolute path stands alone, as in `ty_path::join`.
    pub fn join(&self, other: &str) -> Result<Filesystem, OutOfMemory>
        ensures { IfOk result (λ folder. folder ≡ plain.join self.now other.now) }
    {
        let root = join(self.alloc(), self.root.as_str(), other)?;
        Ok(Filesystem { root })
    }

    /// Goes to the folder of a path below this one, or to that of an absolute path.
    pub fn push(&mut self, other: &str) -> Result<(), OutOfMemory>
        ensures ok { OnOk result (self.new ≡ plain.join self.old other.now) }
        ensures err { OnErr result (self.new ≡ self.old) }
    {
        self.root = join(self.alloc(), self.root.as_str(), other)?;
        Ok(())
    }

    /// The path of the folder, which no lock guards.
    pub fn into_path_unlocked(self) -> String
        ensures { string_bytes result ≡ self }
    {
        self.root
    }

    /// The path of the folder, which no lock guards.
    pub fn as_path_unlocked(&self) -> &str
        ensures { result.now ≡ self.now }
    {
        self.root.as_str()
    }

    /// Makes the folder, and each folder above it that is missing.
    pub fn create_dir<R: Files>(&self, rt: &R) -> Result<()>
        ensures { IfErr result (IsFileFault (codes "create_dir") self.now) }
    {
        let root = self.root.as_str();
        named(
            self.alloc(),
            "create_dir",
            root,
            fs::create_dir_all(rt, root),
        )
    }

    /// Opens a file of the folder to be read and written, and waits for the lock that no other
    /// holder shares. A missing file is made, and the folder that it stands in. An absolute path
    /// stands alone. `msg` is not printed.
    pub fn open_rw_exclusive_create<R: Files<File = File>>(
        &self,
        rt: &R,
        path: &str,
        _msg: &str,
    ) -> Result<FileLock>
        ensures path { IfOk result (λ lock. lock_path lock ≡ plain.join self.now path.now) }
        ensures err { IfErr result
            (IsFileFault (codes "open_rw_exclusive_create") (plain.join self.now path.now)) }
    {
        self.acquire(rt, "open_rw_exclusive_create", path, Access::Write)
    }

    /// As [`Filesystem::open_rw_exclusive_create`], but `None` where the system says that the lock
    /// is held.
    pub fn try_open_rw_exclusive_create<R: Files<File = File>>(
        &self,
        rt: &R,
        path: &str,
    ) -> Result<Option<FileLock>>
        ensures path { IfOk result (λ found. IfSome found (λ lock.
            lock_path lock ≡ plain.join self.now path.now)) }
        ensures err { IfErr result
            (IsFileFault (codes "try_open_rw_exclusive_create") (plain.join self.now path.now)) }
    {
        self.try_acquire(rt, "try_open_rw_exclusive_create", path, Access::Write)
    }

    /// Opens a file of the folder to be read, and waits for the lock that readers share. An absolute
    /// path stands alone. `msg` is not printed.
    pub fn open_ro_shared<R: Files<File = File>>(
        &self,
        rt: &R,
        path: &str,
        _msg: &str,
    ) -> Result<FileLock>
        ensures path { IfOk result (λ lock. lock_path lock ≡ plain.join self.now path.now) }
        ensures err { IfErr result
            (IsFileFault (codes "open_ro_shared") (plain.join self.now path.now)) }
    {
        self.acquire(rt, "open_ro_shared", path, Access::Read)
    }

    /// As [`Filesystem::open_ro_shared`], but a missing file is made, and the folder that it stands
    /// in. The handle reads alone, also that of a file that was made.
    pub fn open_ro_shared_create<R: Files<File = File>>(
        &self,
        rt: &R,
        path: &str,
        _msg: &str,
    ) -> Result<FileLock>
        ensures path { IfOk result (λ lock. lock_path lock ≡ plain.join self.now path.now) }
        ensures err { IfErr result
            (IsFileFault (codes "open_ro_shared_create") (plain.join self.now path.now)) }
    {
        self.acquire(rt, "open_ro_shared_create", path, Access::ReadOrCreate)
    }

    /// As [`Filesystem::open_ro_shared_create`], but `None` where the system says that the lock is
    /// held.
    pub fn try_open_ro_shared_create<R: Files<File = File>>(
        &self,
        rt: &R,
        path: &str,
    ) -> Result<Option<FileLock>>
        ensures path { IfOk result (λ found. IfSome found (λ lock.
            lock_path lock ≡ plain.join self.now path.now)) }
        ensures err { IfErr result
            (IsFileFault (codes "try_open_ro_shared_create") (plain.join self.now path.now)) }
    {
        self.try_acquire(rt, "try_open_ro_shared_create", path, Access::ReadOrCreate)
    }

    /// The file with its lock, once it is free.
    fn acquire<R: Files<File = File>>(
        &self,
        rt: &R,
        call: &'static str,
        path: &str,
        access: Access,
    ) -> Result<FileLock>
        ensures path { IfOk result (λ lock. lock_path lock ≡ plain.join self.now path.now) }
        ensures err { IfErr result (IsFileFault call.now (plain.join self.now path.now)) }
    {
        let path = self.place(call, path)?;
        let opened = open(rt, path.as_str(), access);
        let file = named(self.alloc(), call, path.as_str(), opened)?;
        let answer = waited(access.lock(&file));
        lock_named(self.alloc(), call, path.as_str(), answer)?;
        Ok(FileLock::new(file, path))
    }

    /// The file with its lock, unless that is held.
    fn try_acquire<R: Files<File = File>>(
        &self,
        rt: &R,
        call: &'static str,
        path: &str,
        access: Access,
    ) -> Result<Option<FileLock>>
        ensures path { IfOk result (λ found. IfSome found (λ lock.
            lock_path lock ≡ plain.join self.now path.now)) }
        ensures err { IfErr result (IsFileFault call.now (plain.join self.now path.now)) }
    {
        let path = self.place(call, path)?;
        let opened = open(rt, path.as_str(), access);
        let file = named(self.alloc(), call, path.as_str(), opened)?;
        let answer = taken(access.try_lock(&file));
        if lock_named(self.alloc(), call, path.as_str(), answer)? {
            return Ok(Some(FileLock::new(file, path)));
        }
        Ok(None)
    }

    /// The path of a file of the folder.
    fn place(&self, call: &'static str, path: &str) -> Result<String>
        ensures err { IfErr result (IsFileFault call.now (plain.join self.now path.now)) }
        ensures path { IfOk result (λ place. string_bytes place ≡ plain.join self.now path.now) }
    {
        within_memory(call, join(self.alloc(), self.root.as_str(), path))
    }

    fn alloc(&self) -> Global {
        *self.root.allocator()
    }
}

/// How a file is opened and locked.
#[derive(Clone, Copy)]
enum Access {
    /// To be read and written, made where it is missing, and locked for one holder.
    Write,
    /// To be read, and locked for readers.
    Read,
    /// The same, made where it is missing.
    ReadOrCreate,
}

impl Access {
    /// Whether a missing file is made.
    fn creates(self) -> bool
        ensures { IsTrue result ↔ (self ≢ Access.Read) }
    {
        !matches!(self, Access::Read)
    }

    /// Whether the file is opened to be written too, and its lock is shared with nobody.
    fn writes(self) -> bool
        ensures { IsTrue result ↔ (self ≡ Access.Write) }
    {
        matches!(self, Access::Write)
    }

    /// Waits for the lock.
    fn lock(self, file: &File) -> io::Result<()> {
        if self.writes() {
            file.lock()
        } else {
            file.lock_shared()
        }
    }

    /// The lock, unless another holds it.
    fn try_lock(self, file: &File) -> std::result::Result<(), TryLockError> {
        if self.writes() {
            file.try_lock()
        } else {
            file.try_lock_shared()
        }
    }
}

/// The answer of a lock that was waited for. A file system that has no locks goes on without one.
fn waited(answer: io::Result<()>) -> io::Result<()>
    ensures { IsWaited answer result }
{
    match answer {
        Ok(()) => Ok(()),
        Err(cause) => match cause.kind() {
            ErrorKind::Unsupported => Ok(()),
            _ => Err(cause),
        },
    }
}

/// Whether the lock was taken; it wasn't where another holds it. A file system that has no locks goes
/// on without one.
fn taken(answer: std::result::Result<(), TryLockError>) -> io::Result<bool>
    ensures { IsTaken answer result }
{
    match answer {
        Ok(()) => Ok(true),
        Err(TryLockError::WouldBlock) => Ok(false),
        Err(TryLockError::Error(cause)) => {
            waited(Err(cause))?;
            Ok(true)
        }
    }
}

/// Why an open file has no lock.
#[derive(Drop)]
struct NotLocked<'a, D>(&'a D);

impl<D: Display> Display for NotLocked<'_, D> {
    ghost use Rattle.std.specs.Prelude.{Some, codes};
    ghost use Rattle.std.specs.Fmt.{◌++?◌};

    ghost output = { λ n. Some (codes "the file is open, but not locked: ") ++? D.output n.0.now };

    fn fmt<W: fmt::Write>(&self, f: &mut fmt::Formatter<W>) -> fmt::Result {
        f.write_str("the file is open, but not locked: ")?;
        self.0.fmt(f)
    }
}

/// The result of a lock, whose error names the call and the path, and says that the file was opened.
fn lock_named<T>(alloc: Global, call: &'static str, path: &str, answer: io::Result<T>) -> Result<T>
    ensures names { MatchResult result (λ value. answer ≡ Ok value) (IsFileFault call.now path.now) }
    ensures memory { IfErr answer (λ cause. IfErr result
        (λ e. KeepsWant (error_kind cause ≡ ErrorKind.OutOfMemory) e.kind)) }
{
    match answer {
        Ok(value) => Ok(value),
        Err(cause) => Err(lock_fault(alloc, call, path, cause)),
    }
}

/// The error of a lock.
fn lock_fault(alloc: Global, call: &'static str, path: &str, cause: io::Error) -> Error
    ensures names { IsFileFault call.now path.now result }
    ensures memory { error_kind cause ≡ ErrorKind.OutOfMemory → result.kind ≡ plain no_memory }
{
    match cause.kind() {
        ErrorKind::OutOfMemory => Error::new(call, ErrKind::OutOfMemory, None),
        _ => told(alloc, call, path, &NotLocked(&cause)),
    }
}

/// The file. Where it is missing and may be made, it is, after its folder; to be read alone it is then
/// opened again.
fn open<R: Files<File = File>>(rt: &R, path: &str, access: Access) -> io::Result<File> {
    match present_options(access).open(rt, path) {
        Err(cause) if must_create(access, &cause) => {
            create(rt, path)?;
            present_options(access).open(rt, path)
        }
        opened => opened,
    }
}

/// Whether a file that wasn't opened for this cause is to be made: it is missing, and may be made.
fn must_create(access: Access, cause: &io::Error) -> bool
    ensures { IsTrue result
        ↔ ((access ≢ Access.Read) × (error_kind cause.now ≡ ErrorKind.NotFound)) }
{
    access.creates() && cause.kind() == ErrorKind::NotFound
}

/// How a file that is there is opened: to be read, and to be written too where that is asked for.
fn present_options(access: Access) -> OpenOptions
    ensures all { result ≡ with_write (with_read new_options true) (asks_write result) }
    ensures write { IsTrue (asks_write result) ↔ (access ≡ Access.Write) }
{
    let mut options = OpenOptions::new();
    options.read(true).write(access.writes());
    options
}

/// Makes the file, after its folder; what is there by then stays.
fn create<R: Files<File = File>>(rt: &R, path: &str) -> io::Result<()> {
    if let Some(folder) = folder_of(path) {
        fs::create_dir_all(rt, folder)?;
    }
    let _made = creating_options().open(rt, path)?;
    Ok(())
}

/// How a file is made where it is missing, and one that is there is left as it is.
fn creating_options() -> OpenOptions
    ensures { result ≡ with_create (with_write new_options true) true }
{
    let mut options = OpenOptions::new();
    options.write(true).create(true);
    options
}
