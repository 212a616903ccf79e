//! Folders in memory and of the system.
use std::alloc::Global;
use std::env;
use std::os::unix::fs::symlink;
use std::process::Abort;
use std::rt::Files;
use std::test::Fail;
use tinymist_package::{FolderAnswer, FolderEntry, Folders, MemoryFolders, RealFolders};
use tinymist_std::paths::temp_dir_in;
use tinymist_std::{ErrKind, Error};
use ty_path::OutOfMemory;

/// A call on folders.
#[derive(Clone, Copy)]
enum Call {
    Exists,
    List,
    Read,
    Make,
    Write(&'static str),
}

/// A call, its path, and what it answers: `yes`, `no`, `failed`, the bytes of a file, or names, with `/` after a folder's.
type Row = (Call, &'static str, &'static str);

/// What happens in a folder, in memory as on the system.
static STEPS: [Row; 27] = [
    (Call::Exists, "d", "no"),
    (Call::List, "d", ""),
    (Call::Make, "d/local/a/0.2.0", "done"),
    (Call::Make, "d/local/a/0.2.0", "done"),
    (Call::Exists, "d/local", "yes"),
    (Call::Exists, "d/./x/../local", "yes"),
    (Call::List, "d/local", "a/"),
    (Call::Write("A"), "d/local/a/0.2.0/lib.typ", "done"),
    (Call::Write("B"), "d/local/b", "done"),
    (Call::Make, "d/local/a-b", "done"),
    (Call::List, "d/local", "a/ a-b/ b"),
    (Call::Read, "d/local/a/0.2.0/lib.typ", "A"),
    (Call::Write("AA"), "d/local/a/0.2.0/lib.typ", "done"),
    (Call::Read, "d/local/a/0.2.0/lib.typ", "AA"),
    (Call::Read, "d/local/b", "B"),
    (Call::Read, "d/local", "failed"),
    (Call::Read, "d/none", "failed"),
    (Call::Read, "d/local/b/below", "failed"),
    (Call::Exists, "d/local/b/below", "no"),
    (Call::List, "d/local/b", ""),
    (Call::Make, "d/local/b", "failed"),
    (Call::Make, "d/local/b/below", "failed"),
    (Call::Write("C"), "d/local", "failed"),
    (Call::Write("C"), "d/none/c", "failed"),
    (Call::Write("C"), "d/local/b/c", "failed"),
    (Call::Exists, "d/none", "no"),
    (Call::List, "d/local", "a/ a-b/ b"),
];

/// What a call answers, as a text.
fn answer<D: Folders>(
    alloc: Global,
    folders: &mut D,
    call: Call,
    path: &str,
) -> Result<String, OutOfMemory> {
    match call {
        Call::Exists => match folders.exists(alloc, path) {
            FolderAnswer::Done(true) => text(alloc, "yes"),
            FolderAnswer::Done(false) => text(alloc, "no"),
            other => undone(alloc, other),
        },
        Call::List => match folders.list(alloc, path) {
            FolderAnswer::Done(entries) => names(alloc, &entries),
            other => undone(alloc, other),
        },
        Call::Read => match folders.read(alloc, path) {
            FolderAnswer::Done(bytes) => written(alloc, &bytes),
            other => undone(alloc, other),
        },
        Call::Make => undone(alloc, folders.make(alloc, path)),
        Call::Write(bytes) => undone(alloc, folders.write(alloc, path, bytes.as_bytes())),
    }
}

/// The bytes of a file as a text.
fn written(alloc: Global, bytes: &[u8]) -> Result<String, OutOfMemory> {
    match std::str::from_utf8(bytes) {
        Ok(bytes) => text(alloc, bytes),
        Err(_) => text(alloc, "no text"),
    }
}

fn text(alloc: Global, text: &str) -> Result<String, OutOfMemory> {
    Ok(String::from_str(alloc, text)?)
}

/// An answer without what is done.
fn undone<T: Drop>(alloc: Global, answer: FolderAnswer<T>) -> Result<String, OutOfMemory> {
    match answer {
        FolderAnswer::Done(_) => text(alloc, "done"),
        FolderAnswer::Failed => text(alloc, "failed"),
        FolderAnswer::OutOfMemory => text(alloc, "out of memory"),
    }
}

/// The names of entries, with `/` after a folder's.
fn names(alloc: Global, entries: &[FolderEntry]) -> Result<String, OutOfMemory> {
    let mut all = String::new(alloc);
    for entry in entries {
        if !all.is_empty() {
            all.push(' ')?;
        }
        all.push_str(entry.name.as_str())?;
        if entry.is_dir {
            all.push('/')?;
        }
    }
    Ok(all)
}

/// Takes the steps in a folder, and counts the calls that failed.
fn take<R: Abort + AllocGlobal, D: Folders>(
    rt: &R,
    folders: &mut D,
    base: &str,
    steps: &[Row],
) -> Result<(), OutOfMemory> {
    let alloc = rt.alloc();
    for (call, path, wanted) in steps {
        let path = format!(in alloc; "{base}{path}")?;
        let said = answer(alloc, folders, *call, path.as_str())?;
        assert_eq!(rt; said.as_str(), *wanted, "{path}");
    }
    Ok(())
}

#[test]
fn folders_in_memory(rt: HostRuntime) -> Result<(), Fail> {
    let mut folders = MemoryFolders::new(rt.alloc())?;
    take(&rt, &mut folders, "/", &STEPS)?;
    take(&rt, &mut folders, "", &STEPS)?;
    Ok(())
}

#[test]
fn listed_calls_fail(rt: HostRuntime) -> Result<(), Fail> {
    let alloc = rt.alloc();
    let mut folders = MemoryFolders::new(alloc)?;
    folders.fail_at(vec![in alloc; 2, 3]?);
    let steps: [Row; 4] = [
        (Call::Make, "/d", "done"),
        (Call::Exists, "/d", "failed"),
        (Call::Write("A"), "/d/a", "failed"),
        (Call::List, "/d", ""),
    ];
    take(&rt, &mut folders, "", &steps)?;
    Ok(())
}

/// The same of a folder of the system, whose path ends without a slash.
fn take_below<R: Files + Abort + AllocGlobal + Clone + Drop>(
    rt: &R,
    folder: &str,
    steps: &[Row],
) -> Result<(), OutOfMemory> {
    let base = format!(in rt.alloc(); "{folder}/")?;
    let mut folders = RealFolders::new(rt.clone()?);
    take(rt, &mut folders, base.as_str(), steps)
}

/// What a visit of a new folder ends with.
fn visited(end: Result<(), OutOfMemory>) -> tinymist_std::Result<()> {
    match end {
        Ok(()) => Ok(()),
        Err(OutOfMemory) => Err(Error::new("visited", ErrKind::OutOfMemory, None)),
    }
}

#[test]
fn folders_of_the_system(rt: HostRuntime) -> Result<(), Fail> {
    let base = env::temp_dir(&rt)?;
    temp_dir_in(&rt, rt.alloc(), base.as_str(), |folder| {
        visited(take_below(&rt, folder, &STEPS))
    })?;
    Ok(())
}

/// A folder with a file in it.
static FILES: [Row; 2] = [(Call::Make, "d", "done"), (Call::Write("A"), "d/a", "done")];

/// Links to the folder above, to a file and to nothing: each target, and the link's path.
static TARGETS: [(&str, &str); 3] = [("..", "d/up"), ("a", "d/link"), ("none", "d/gone")];

/// None of them is there.
static LINKS: [Row; 9] = [
    (Call::List, "d", "a"),
    (Call::Exists, "d/up", "no"),
    (Call::Read, "d/link", "failed"),
    (Call::Write("C"), "d/link", "failed"),
    (Call::Write("C"), "d/gone", "failed"),
    (Call::Make, "d/up", "failed"),
    (Call::List, "d/up", ""),
    (Call::Exists, "d/gone", "no"),
    (Call::Read, "d/a", "A"),
];

fn take_links<R: Files + Abort + AllocGlobal + Clone + Drop>(
    rt: &R,
    folder: &str,
) -> Result<(), OutOfMemory> {
    take_below(rt, folder, &FILES)?;
    for (target, path) in &TARGETS {
        let link = format!(in rt.alloc(); "{folder}/{path}")?;
        assert!(rt; symlink(rt, *target, link.as_str()).is_ok());
    }
    take_below(rt, folder, &LINKS)
}

#[test]
fn links_are_not_followed(rt: HostRuntime) -> Result<(), Fail> {
    let base = env::temp_dir(&rt)?;
    temp_dir_in(
        &rt,
        rt.alloc(),
        base.as_str(),
        |folder| visited(take_links(&rt, folder)),
    )?;
    Ok(())
}
