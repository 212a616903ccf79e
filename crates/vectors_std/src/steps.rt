//! Tests on files as tables: a row names a path of a new folder, what is done there and what is found.
use crate::fakes::{Refused, Refusing};
use std::alloc::Global;
use std::fs::{File, FileTimes, OpenOptions, Permissions};
use std::io::Write;
use std::os::unix::fs::PermissionsExt;
use std::process::Abort;
use std::rt::Files;
use std::time::{Duration, SystemTime, UNIX_EPOCH};
use std::{fs, io};
use tinymist_std::paths::{
    append, copy, create, create_dir_all, metadata, open, read, read_bytes, remove_dir,
    remove_dir_all, remove_file, temp_dir_in, write, write_atomic, write_if_changed,
};
use tinymist_std::{
    ErrKind, Error, Filesystem, ReadAllOnce, Result, WithContext, WithContextUntyped,
};

/// A call at a path.
#[derive(Clone, Copy)]
pub enum Call {
    Append(&'static [u8]),
    Create(&'static [u8]),
    CreateDirAll,
    Metadata,
    Open,
    OpenShared,
    Read,
    ReadBytes,
    RemoveDir,
    RemoveDirAll,
    RemoveFile,
    TempDirIn,
    Write(&'static [u8]),
    WriteAtomic(&'static [u8]),
    WriteIfChanged(&'static [u8]),
}

/// What a row of a test does at its path, or finds there.
#[derive(Clone, Copy)]
pub enum Step {
    /// The call goes through.
    Does(Call),
    /// The call fails with an error that names it and the path.
    Fails(Call),
    /// The file is copied to this path, and so many bytes are counted.
    Copies(&'static str, u64),
    /// The file can't be copied to this path; the error names both paths.
    FailsToCopy(&'static str),
    /// An atomic write to the file fails where no file can be renamed.
    FailsToRename,
    /// The file is given these permissions.
    SetMode(u32),
    /// The file is given a time long past.
    SetOld,
    /// A file with these bytes stands there.
    Holds(&'static [u8]),
    /// A file of that length stands there.
    HasLength(u64),
    /// What stands there has these permissions, those for set-user-id and the like among them.
    HasMode(u32),
    /// The file has the time of `SetOld`, or hasn't.
    IsOld(bool),
    /// A folder stands there.
    IsFolder,
    /// Nothing stands there.
    IsMissing,
}

/// A path below the folder, and what happens there.
pub type Row = (&'static str, Step);

/// The path of a name below a folder.
pub fn below(alloc: Global, folder: &str, name: &str) -> Result<String> {
    match ty_path::join(alloc, folder, name) {
        Ok(path) => Ok(path),
        Err(_) => Err(Error::new("below", ErrKind::OutOfMemory, None)),
    }
}

/// Makes a file with the bytes.
fn create_with<R: Files>(rt: &R, alloc: Global, path: &str, bytes: &[u8]) -> Result<()> {
    let mut made = create(rt, alloc, path)?;
    made.write_all(bytes).context_ut(alloc, "create_with")
}

/// Opens and reads a file.
fn open_and_read<R: Files>(rt: &R, alloc: Global, path: &str) -> Result<Vec<u8>> {
    let opened = open(rt, alloc, path)?;
    let mut bytes = Vec::new(alloc);
    match opened.read_all(&mut bytes) {
        Ok(_) => Ok(bytes),
        Err(cause) => Err(cause).context_ut(alloc, "open_and_read"),
    }
}

/// Opens a file with a lock that readers share.
fn open_shared<R: Files<File = File>>(rt: &R, alloc: Global, path: &str) -> Result<()> {
    let files = Filesystem::new(below(alloc, "/", "")?);
    match files.open_ro_shared(rt, path, "waits") {
        Ok(_) => Ok(()),
        Err(error) => Err(error),
    }
}

impl Call {
    /// The name of the call, as errors have it.
    fn name(self) -> &'static str {
        match self {
            Call::Append(_) => "append",
            Call::Create(_) => "create",
            Call::CreateDirAll => "create_dir_all",
            Call::Metadata => "metadata",
            Call::Open => "open",
            Call::OpenShared => "open_ro_shared",
            Call::Read => "read",
            Call::ReadBytes => "read_bytes",
            Call::RemoveDir => "remove_dir",
            Call::RemoveDirAll => "remove_dir_all",
            Call::RemoveFile => "remove_file",
            Call::TempDirIn => "temp_dir_in",
            Call::Write(_) => "write",
            Call::WriteAtomic(_) => "write_atomic",
            Call::WriteIfChanged(_) => "write_if_changed",
        }
    }

    /// Makes the call.
    pub fn run<R: Files<File = File>>(self, rt: &R, alloc: Global, path: &str) -> Result<()> {
        match self {
            Call::Append(bytes) => append(rt, alloc, path, bytes),
            Call::Create(bytes) => create_with(rt, alloc, path, bytes),
            Call::CreateDirAll => create_dir_all(rt, alloc, path),
            Call::Metadata => done(metadata(rt, alloc, path)),
            Call::Open => done(open_and_read(rt, alloc, path)),
            Call::OpenShared => open_shared(rt, alloc, path),
            Call::Read => done(read(rt, alloc, path)),
            Call::ReadBytes => done(read_bytes(rt, alloc, path)),
            Call::RemoveDir => remove_dir(rt, alloc, path),
            Call::RemoveDirAll => remove_dir_all(rt, alloc, path),
            Call::RemoveFile => remove_file(rt, alloc, path),
            Call::TempDirIn => temp_dir_in(rt, alloc, path, |_| -> Result<()> { Ok(()) }),
            Call::Write(bytes) => write(rt, alloc, path, bytes),
            Call::WriteAtomic(bytes) => write_atomic(rt, alloc, path, bytes),
            Call::WriteIfChanged(bytes) => write_if_changed(rt, alloc, path, bytes),
        }
    }
}

/// The result without its value.
fn done<T: Drop>(answer: Result<T>) -> Result<()> {
    match answer {
        Ok(_) => Ok(()),
        Err(error) => Err(error),
    }
}

/// The error of a call names it and the path.
pub fn expect_named<T>(rt: &impl Abort, answer: Result<T>, call: &str, path: &str) {
    match answer {
        Ok(_) => panic!(rt; "{call} went through"),
        Err(error) => {
            assert_eq!(rt; error.loc(), call);
            assert!(rt;
                matches!(error.arguments(), [("path", named), _] if named.as_str() == path)
            );
        }
    }
}

/// The error of a copy names both paths.
fn expect_copy_fault(rt: &impl Abort, answer: Result<u64>, from: &str, to: &str) {
    match answer {
        Ok(_) => panic!(rt; "copied"),
        Err(error) => {
            assert_eq!(rt; error.loc(), "copy");
            assert!(rt;
                matches!(error.arguments(), [("from", a), ("to", b), ("error", _)]
                    if a.as_str() == from && b.as_str() == to)
            );
        }
    }
}

/// A new file that can't take the name is an error.
fn expect_no_rename<R: Files + Abort>(rt: &R, alloc: Global, path: &str) {
    let files = Refusing {
        files: rt,
        refused: Refused::Rename,
    };
    assert!(rt; write_atomic(&files, alloc, path, b"new").is_err());
}

/// The bytes of the file, read by both calls.
pub fn expect_bytes<R: Files + Abort>(
    rt: &R,
    alloc: Global,
    path: &str,
    want: &[u8],
) -> Result<()> {
    expect_read(rt, path, read_bytes(rt, alloc, path)?.as_slice(), want);
    expect_read(rt, path, open_and_read(rt, alloc, path)?.as_slice(), want);
    Ok(())
}

/// These bytes were read at the path.
pub fn expect_read(rt: &impl Abort, path: &str, bytes: &[u8], want: &[u8]) {
    assert!(rt; bytes == want, "other bytes at {path}");
}

/// This number was found at the path.
pub fn expect_number(rt: &impl Abort, path: &str, number: u64, want: u64) {
    assert_eq!(rt; number, want, "at {path}");
}

/// That holds at the path.
fn expect_so(rt: &impl Abort, path: &str, holds: bool) {
    assert!(rt; holds, "at {path}");
}

/// The permissions of a file, with the bits for set-user-id and the like.
fn mode<R: Files>(rt: &R, alloc: Global, path: &str) -> Result<u32> {
    Ok(metadata(rt, alloc, path)?.permissions().mode() & 0o7777)
}

/// A time long past.
fn long_ago(alloc: Global) -> Result<SystemTime> {
    UNIX_EPOCH
        .checked_add(Duration::from_secs(1_000_000))
        .context(alloc, "long_ago")
}

fn set_old<R: Files<File = File>>(rt: &R, alloc: Global, path: &str) -> Result<()> {
    let times = FileTimes::new().set_modified(long_ago(alloc)?);
    age(rt, path, times).context_ut(alloc, "set_old")
}

fn age<R: Files<File = File>>(rt: &R, path: &str, times: FileTimes) -> io::Result<()> {
    let opened = OpenOptions::new().write(true).open(rt, path)?;
    opened.set_times(times)
}

fn is_old<R: Files>(rt: &R, alloc: Global, path: &str) -> Result<bool> {
    let written = metadata(rt, alloc, path)?
        .modified()
        .context_ut(alloc, "is_old")?;
    Ok(written == long_ago(alloc)?)
}

/// What is done at a path.
pub fn act<R: Files<File = File> + Abort>(
    rt: &R,
    alloc: Global,
    folder: &str,
    path: &str,
    step: Step,
) -> Result<()> {
    match step {
        Step::Does(call) => call.run(rt, alloc, path)?,
        Step::Fails(call) => expect_named(rt, call.run(rt, alloc, path), call.name(), path),
        Step::Copies(to, count) => {
            let to = below(alloc, folder, to)?;
            expect_number(rt, path, copy(rt, alloc, path, to.as_str())?, count);
        }
        Step::FailsToCopy(to) => {
            let to = below(alloc, folder, to)?;
            expect_copy_fault(rt, copy(rt, alloc, path, to.as_str()), path, to.as_str());
        }
        Step::FailsToRename => expect_no_rename(rt, alloc, path),
        Step::SetMode(mode) => {
            fs::set_permissions(rt, path, Permissions::from_mode(mode)).context_ut(
                alloc, "set_mode",
            )?;
        }
        Step::SetOld => set_old(rt, alloc, path)?,
        other => find(rt, alloc, path, other)?,
    }
    Ok(())
}

/// What is found at a path.
fn find<R: Files + Abort>(rt: &R, alloc: Global, path: &str, step: Step) -> Result<()> {
    match step {
        Step::Holds(bytes) => expect_bytes(rt, alloc, path, bytes)?,
        Step::HasLength(want) => expect_number(rt, path, metadata(rt, alloc, path)?.len(), want),
        Step::HasMode(want) => expect_number(rt, path, mode(rt, alloc, path)? as u64, want as u64),
        Step::IsOld(want) => expect_so(rt, path, is_old(rt, alloc, path)? == want),
        Step::IsFolder => expect_so(rt, path, metadata(rt, alloc, path)?.is_dir()),
        Step::IsMissing => expect_so(rt, path, metadata(rt, alloc, path).is_err()),
        _ => panic!(rt; "nothing to find"),
    }
    Ok(())
}

/// Takes the rows in their order.
pub fn take<R: Files<File = File> + Abort>(
    rt: &R,
    alloc: Global,
    folder: &str,
    rows: &[Row],
) -> Result<()> {
    for (name, step) in rows {
        let path = below(alloc, folder, name)?;
        act(rt, alloc, folder, path.as_str(), *step)?;
    }
    Ok(())
}
