//! Files that are opened with a lock: a row names a file of a new folder, and what is done with its locks.
use crate::fakes::{Refused, Refusing};
use crate::steps::{Call, Step, act, below, expect_number, expect_read};
use std::alloc::Global;
use std::fs::File;
use std::io::{Read, Write};
use std::process::Abort;
use std::rt::Files;
use tinymist_std::{FileLock, Filesystem, Result, WithContext, WithContextUntyped};

/// A way to open a file with a lock.
#[derive(Clone, Copy)]
enum Way {
    Exclusive,
    TryExclusive,
    Shared,
    SharedCreate,
    TryShared,
}

impl Way {
    /// The lock, or none where another holds one that isn't shared.
    fn open<R: Files<File = File>>(
        self,
        rt: &R,
        files: &Filesystem,
        path: &str,
    ) -> Result<Option<FileLock>> {
        match self {
            Way::Exclusive => some(files.open_rw_exclusive_create(rt, path, "waits")),
            Way::TryExclusive => files.try_open_rw_exclusive_create(rt, path),
            Way::Shared => some(files.open_ro_shared(rt, path, "waits")),
            Way::SharedCreate => some(files.open_ro_shared_create(rt, path, "waits")),
            Way::TryShared => files.try_open_ro_shared_create(rt, path),
        }
    }
}

fn some(lock: Result<FileLock>) -> Result<Option<FileLock>> {
    match lock {
        Ok(lock) => Ok(Some(lock)),
        Err(error) => Err(error),
    }
}

/// What a row does at its path.
#[derive(Clone, Copy)]
enum Lock {
    /// The file is opened, and its lock is held as the last one.
    Takes(Way),
    /// A lock is given, or is refused; it is given up at once.
    Gives(Way, bool),
    /// The file of the last lock is written.
    Writes(&'static [u8]),
    /// The file of the last lock can't be written.
    OnlyReads,
    /// The file of the last lock holds these bytes.
    Reads(&'static [u8]),
    /// The path of the last lock ends so, and that of its folder.
    IsNamed(&'static str, &'static str),
    /// A clone of the handle of the last lock is kept.
    Clones,
    /// The last lock is given up.
    Drops,
    /// What stands beside the file of the last lock is removed.
    Clears,
    /// That is refused with an error that names the path of the lock.
    RefusesToClear,
    /// That fails at the path of this row where no file can be removed.
    FailsToClear,
    /// Something else is done at the path, or found there.
    Does(Step),
}

/// A path below the folder, and what happens there.
type Row = (&'static str, Lock);

/// The tables.
#[derive(Clone, Copy)]
pub enum LockTable {
    /// Held locks refuse others.
    Held,
    /// Dropped locks are free beside clones.
    Cloned,
    /// Readers do not write.
    Readers,
    /// Locked files are made.
    Made,
    /// Readers share locks.
    Shared,
    /// Shared locks are held by each.
    SharedTwice,
    /// Siblings are removed.
    Cleared,
    /// Failed removals name the entry.
    NotCleared,
    /// Nothing is removed beside no name.
    Nameless,
}

impl LockTable {
    /// The rows of the table.
    fn rows(self) -> &'static [Row] {
        match self {
            LockTable::Held => &HELD,
            LockTable::Cloned => &CLONED,
            LockTable::Readers => &READERS,
            LockTable::Made => &MADE,
            LockTable::Shared => &SHARED,
            LockTable::SharedTwice => &SHARED_TWICE,
            LockTable::Cleared => &CLEARED,
            LockTable::NotCleared => &NOT_CLEARED,
            LockTable::Nameless => &NAMELESS,
        }
    }
}

/// The locks that are held, and the handles that are kept.
#[derive(Drop)]
struct Held {
    locks: Vec<FileLock>,
    clones: Vec<File>,
}

impl Held {
    /// The last lock.
    fn last(&self, alloc: Global) -> Result<&FileLock> {
        self.locks.last().context(alloc, "last")
    }
}

/// Takes a lock, or tries to.
fn open<R: Files<File = File> + Abort>(
    rt: &R,
    held: &mut Held,
    files: &Filesystem,
    path: &str,
    step: Lock,
) -> Result<()> {
    match step {
        Lock::Takes(way) => take(rt, held, way.open(rt, files, path)?),
        Lock::Gives(way, want) => {
            let given = way.open(rt, files, path)?.is_some();
            expect_number(rt, path, given as u64, want as u64);
            Ok(())
        }
        _ => panic!(rt; "no lock"),
    }
}

/// Holds the lock.
fn take(rt: &impl Abort, held: &mut Held, lock: Option<FileLock>) -> Result<()> {
    let alloc = *held.locks.allocator();
    match lock {
        Some(lock) => held.locks.push(lock).context_ut(alloc, "take"),
        None => panic!(rt; "held by another"),
    }
}

/// Writes or reads the file of a lock.
fn transfer(rt: &impl Abort, alloc: Global, mut file: &File, step: Lock) -> Result<()> {
    match step {
        Lock::Writes(bytes) => file.write_all(bytes).context_ut(alloc, "transfer")?,
        Lock::OnlyReads => assert!(rt; file.write_all(b"x").is_err()),
        Lock::Reads(want) => {
            let mut bytes = Vec::new(alloc);
            let _count = file.read_to_end(&mut bytes).context_ut(alloc, "transfer")?;
            expect_read(rt, "", bytes.as_slice(), want);
        }
        _ => panic!(rt; "nothing to write or read"),
    }
    Ok(())
}

/// Removes what stands beside the file of a lock, or tries to.
fn clear<R: Files<File = File> + Abort>(
    rt: &R,
    lock: &FileLock,
    path: &str,
    step: Lock,
) -> Result<()> {
    match step {
        Lock::Clears => lock.remove_siblings(rt),
        Lock::RefusesToClear => {
            expect_entry(rt, lock.remove_siblings(rt), lock.path(), lock.path());
            Ok(())
        }
        Lock::FailsToClear => {
            let files = Refusing {
                files: rt,
                refused: Refused::RemoveFile,
            };
            expect_entry(rt, lock.remove_siblings(&files), lock.path(), path);
            Ok(())
        }
        _ => panic!(rt; "nothing to clear"),
    }
}

/// The error names the path of the lock and the entry that failed.
fn expect_entry(rt: &impl Abort, answer: Result<()>, path: &str, entry: &str) {
    match answer {
        Ok(()) => panic!(rt; "removed"),
        Err(error) => {
            assert_eq!(rt; error.loc(), "remove_siblings");
            assert!(rt;
                matches!(error.arguments(), [("path", a), ("entry", b), ("error", _)]
                    if a.as_str() == path && b.as_str() == entry)
            );
        }
    }
}

/// The path of the lock ends so, and that of its folder.
fn expect_named(rt: &impl Abort, lock: &FileLock, path: &str, folder: &str) {
    assert!(rt; lock.path().ends_with(path));
    assert!(rt; lock.parent().is_some_and(|parent| parent.ends_with(folder)));
}

/// Keeps a clone of the handle of the last lock, or gives the lock up.
fn change(rt: &impl Abort, alloc: Global, held: &mut Held, step: Lock) -> Result<()> {
    match step {
        Lock::Clones => {
            let clone = held
                .last(alloc)?
                .file()
                .try_clone()
                .context_ut(alloc, "change")?;
            held.clones.push(clone).context_ut(alloc, "change")
        }
        Lock::Drops => {
            assert!(rt; held.locks.pop().is_some());
            Ok(())
        }
        _ => panic!(rt; "nothing to change"),
    }
}

/// Takes one row, whose path is in the folder of `files`.
fn play<R: Files<File = File> + Abort>(
    rt: &R,
    alloc: Global,
    files: &Filesystem,
    held: &mut Held,
    row: Row,
) -> Result<()> {
    let (name, step) = row;
    let folder = files.as_path_unlocked();
    let path = below(alloc, folder, name)?;
    match step {
        Lock::Takes(_) | Lock::Gives(..) => open(rt, held, files, name, step),
        Lock::Writes(_) | Lock::OnlyReads | Lock::Reads(_) => {
            transfer(rt, alloc, held.last(alloc)?.file(), step)
        }
        Lock::Clears | Lock::RefusesToClear | Lock::FailsToClear => {
            clear(rt, held.last(alloc)?, path.as_str(), step)
        }
        Lock::IsNamed(path, folder) => {
            expect_named(rt, held.last(alloc)?, path, folder);
            Ok(())
        }
        Lock::Clones | Lock::Drops => change(rt, alloc, held, step),
        Lock::Does(step) => act(rt, alloc, folder, path.as_str(), step),
    }
}

/// Takes the rows in their order.
fn play_rows<R: Files<File = File> + Abort>(
    rt: &R,
    alloc: Global,
    files: &Filesystem,
    held: &mut Held,
    rows: &[Row],
) -> Result<()> {
    for row in rows {
        play(rt, alloc, files, held, *row)?;
    }
    Ok(())
}

/// Takes the rows of a table with no lock held before.
fn play_table<R: Files<File = File> + Abort>(
    rt: &R,
    alloc: Global,
    files: &Filesystem,
    table: LockTable,
) -> Result<()> {
    let mut held = Held {
        locks: Vec::new(alloc),
        clones: Vec::new(alloc),
    };
    play_rows(rt, alloc, files, &mut held, table.rows())
}

/// Takes the rows of a table in a folder that is made.
pub fn play_in<R: Files<File = File> + Abort>(
    rt: &R,
    alloc: Global,
    folder: &str,
    table: LockTable,
) -> Result<()> {
    let files = Filesystem::new(below(alloc, folder, "locks")?);
    files.create_dir(rt)?;
    play_table(rt, alloc, &files, table)
}

static HELD: [Row; 11] = [
    ("sub/a", Lock::Takes(Way::Exclusive)),
    ("sub/a", Lock::Writes(b"x")),
    ("sub/a", Lock::IsNamed("/locks/sub/a", "/locks/sub")),
    ("sub/a", Lock::Gives(Way::TryExclusive, false)),
    ("sub/a", Lock::Gives(Way::TryShared, false)),
    ("sub/a", Lock::Drops),
    ("sub/a", Lock::Gives(Way::TryExclusive, true)),
    ("sub/a", Lock::Gives(Way::TryShared, true)),
    ("sub/a", Lock::Takes(Way::TryExclusive)),
    ("sub/a", Lock::Reads(b"x")),
    ("sub/a", Lock::Drops),
];

static CLONED: [Row; 5] = [
    ("a", Lock::Takes(Way::Exclusive)),
    ("a", Lock::Clones),
    ("a", Lock::Drops),
    ("a", Lock::Gives(Way::TryExclusive, true)),
    ("a", Lock::Gives(Way::TryShared, true)),
];

/// A handle that readers get reads alone, of a file that was made and of one that was there.
static READERS: [Row; 4] = [
    ("a", Lock::Takes(Way::SharedCreate)),
    ("a", Lock::OnlyReads),
    ("a", Lock::Takes(Way::SharedCreate)),
    ("a", Lock::OnlyReads),
];

/// A file is made with its folder, by either lock.
static MADE: [Row; 2] = [
    ("new/a", Lock::Gives(Way::TryExclusive, true)),
    ("new/b", Lock::Gives(Way::TryShared, true)),
];

/// Readers share a lock, and need no leave to write.
static SHARED: [Row; 8] = [
    ("sub", Lock::Does(Step::Does(Call::CreateDirAll))),
    ("sub/a", Lock::Does(Step::Does(Call::Write(b"x")))),
    ("sub/a", Lock::Does(Step::SetMode(0o444))),
    ("sub/a", Lock::Takes(Way::Shared)),
    ("sub/a", Lock::Gives(Way::TryShared, true)),
    ("sub/a", Lock::Does(Step::SetMode(0o644))),
    ("sub/a", Lock::Gives(Way::TryExclusive, false)),
    ("sub/a", Lock::Gives(Way::TryShared, true)),
];

/// A lock that two share is held until both are dropped.
static SHARED_TWICE: [Row; 10] = [
    ("sub/b", Lock::Takes(Way::SharedCreate)),
    ("sub/b", Lock::Takes(Way::SharedCreate)),
    ("sub/b", Lock::Gives(Way::TryExclusive, false)),
    ("sub/b", Lock::Gives(Way::TryShared, true)),
    ("sub/b", Lock::Drops),
    ("sub/b", Lock::Gives(Way::TryExclusive, false)),
    ("sub/b", Lock::Gives(Way::TryShared, true)),
    ("sub/b", Lock::Drops),
    ("sub/b", Lock::Gives(Way::TryExclusive, true)),
    ("sub/b", Lock::Gives(Way::TryShared, true)),
];

/// What stands beside a locked file is removed.
static CLEARED: [Row; 10] = [
    ("sub/d/e", Lock::Does(Step::Does(Call::CreateDirAll))),
    ("sub/a", Lock::Does(Step::Does(Call::Write(b"x")))),
    ("sub/b", Lock::Does(Step::Does(Call::Write(b"x")))),
    ("sub/c", Lock::Does(Step::Does(Call::Write(b"")))),
    ("sub/a", Lock::Takes(Way::Shared)),
    ("sub/a", Lock::Clears),
    ("sub/a", Lock::Does(Step::Holds(b"x"))),
    ("sub/b", Lock::Does(Step::IsMissing)),
    ("sub/a", Lock::Does(Step::Does(Call::RemoveFile))),
    ("sub", Lock::Does(Step::Does(Call::RemoveDir))),
];

/// An entry that can't be removed is named.
static NOT_CLEARED: [Row; 6] = [
    ("sub", Lock::Does(Step::Does(Call::CreateDirAll))),
    ("sub/a", Lock::Does(Step::Does(Call::Write(b"x")))),
    ("sub/b", Lock::Does(Step::Does(Call::Write(b"x")))),
    ("sub/a", Lock::Takes(Way::Shared)),
    ("sub/b", Lock::FailsToClear),
    ("sub/b", Lock::Does(Step::Holds(b"x"))),
];

/// Beside a path without a name nothing is removed.
static NAMELESS: [Row; 8] = [
    ("sub/d/e", Lock::Does(Step::Does(Call::CreateDirAll))),
    ("sub/a", Lock::Does(Step::Does(Call::Write(b"x")))),
    ("sub/b", Lock::Does(Step::Does(Call::Write(b"x")))),
    ("sub/..", Lock::Takes(Way::Shared)),
    ("sub/..", Lock::RefusesToClear),
    ("sub/a", Lock::Does(Step::Holds(b"x"))),
    ("sub/b", Lock::Does(Step::Holds(b"x"))),
    ("sub/d/e", Lock::Does(Step::IsFolder)),
];
