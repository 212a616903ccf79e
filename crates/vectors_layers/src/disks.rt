//! Disks, and what they say of files.
use crate::files::{absent, disk_with, disk_without_files, holding};
use std::alloc::Global;
use std::process::Abort;
use std::test::Fail;
use ty_cells::{
    DummyAccessModel, FileSnapshot, LazyFile, OwnCells, PathAccessModel, SystemAccessModel,
};
use ty_path::Share;
use ty_syntax::{FileError, FileFault};

#[test]
fn an_empty_disk_finds_nothing(rt: HostRuntime) -> Result<(), Fail> {
    let mut disk = disk_without_files(rt.alloc());
    let mut cells = OwnCells::new(&mut disk);
    let missing = absent(rt.alloc(), "/w/a.typ")?;
    assert!(rt; cells.ask(rt.alloc(), "/w/a.typ")?.same_as(&missing));
    let said = cells.disk().content(rt.alloc(), "/w/a.typ")?;
    assert!(rt; said.same_as(&missing));
    Ok(())
}

#[test]
fn a_disk_of_one_file_finds_it(rt: HostRuntime) -> Result<(), Fail> {
    let alloc = rt.alloc();
    let mut disk = disk_with(alloc, "/w/a.typ", "a")?;
    let found = disk.content(alloc, "/w/a.typ")?;
    let missing = disk.content(alloc, "/w/b.typ")?;
    let changed = holding(alloc, "b")?;
    assert!(rt; found.same_as(&holding(alloc, "a")?));
    assert!(rt; missing.same_as(&absent(alloc, "/w/b.typ")?));
    assert!(rt; disk.holds("/w/a.typ", &found));
    assert!(rt; !disk.holds("/w/a.typ", &changed));
    assert!(rt; !disk.holds("/w/a.typ", &missing));
    assert!(rt; disk.holds("/w/b.typ", &missing));
    Ok(())
}

/// Five answers, each other than the others.
fn answers(alloc: Global) -> Result<Vec<FileSnapshot>, Fail> {
    Ok(vec![in alloc;
        holding(alloc, "")?,
        holding(alloc, "a")?,
        absent(alloc, "/a")?,
        FileSnapshot::from_error(alloc, FileError::AccessDenied)?,
        FileSnapshot::from_error(alloc, FileError::Other(None))?,
    ]?)
}

/// Compares an answer, which stands at this index, with a share of each.
fn compare<R: Abort + AllocGlobal>(
    rt: &R,
    all: &[FileSnapshot],
    one: &FileSnapshot,
    index: usize,
) -> Result<(), Fail> {
    for (other_index, other) in all.iter().enumerate() {
        let copy = other.share(rt.alloc())?;
        let is_same = index == other_index;
        assert_eq!(rt; one.same_as(&copy), is_same, "{index} and {other_index}");
        assert_eq!(rt; *one == copy, is_same, "{index} and {other_index}");
    }
    Ok(())
}

#[test]
fn answers_are_compared_by_their_content(rt: HostRuntime) -> Result<(), Fail> {
    let all = answers(rt.alloc())?;
    for (index, one) in all.iter().enumerate() {
        compare(&rt, &all, one, index)?;
    }
    Ok(())
}

#[test]
fn bytes_are_a_file(rt: HostRuntime) -> Result<(), Fail> {
    let alloc = rt.alloc();
    let file = holding(alloc, "a")?;
    assert_eq!(rt; file.content(alloc)?.as_slice(), b"a".as_slice());
    assert!(rt; file.is_file(alloc)?);
    Ok(())
}

#[test]
fn an_error_is_no_file(rt: HostRuntime) -> Result<(), Fail> {
    let alloc = rt.alloc();
    let denied = FileSnapshot::from_error(alloc, FileError::AccessDenied)?;
    let refused = Some(FileFault::File(FileError::AccessDenied));
    assert_eq!(rt; denied.is_file(alloc).err(), refused);
    assert_eq!(rt; denied.content(alloc).err(), refused);
    assert_eq!(rt; denied.into_content(alloc).err(), refused);
    Ok(())
}

#[test]
fn a_disk_holds_what_it_says(rt: HostRuntime) -> Result<(), Fail> {
    let alloc = rt.alloc();
    let mut empty = disk_without_files(alloc);
    let missing = empty.content(alloc, "/a")?;
    let denied = FileSnapshot::from_error(alloc, FileError::AccessDenied)?;
    assert!(rt; empty.holds("/a", &missing));
    assert!(rt; !empty.holds("/b", &missing));
    assert!(rt; !empty.holds("/a", &denied));
    empty.reset();
    assert!(rt; empty.holds("/a", &missing));
    Ok(())
}

#[test]
fn a_disk_denies_each_path(rt: HostRuntime) -> Result<(), Fail> {
    let alloc = rt.alloc();
    let mut dummy = DummyAccessModel::new();
    let denied = dummy.content(alloc, "/a")?;
    assert_eq!(rt;
        denied.is_file(alloc).err(),
        Some(FileFault::File(FileError::AccessDenied))
    );
    assert!(rt; dummy.holds("/b", &denied));
    assert!(rt; !dummy.holds("/a", &absent(alloc, "/a")?));
    dummy.reset();
    assert!(rt; dummy.holds("/b", &denied));
    Ok(())
}

/// The file of the system at a path.
fn file_at(alloc: Global, path: &str) -> Result<LazyFile, Fail> {
    Ok(LazyFile::new(String::from_str(alloc, path)?))
}

// A folder, a path where nothing is, and a path below something that is no folder.
#[test]
fn the_system_says_why_it_reads_no_file(rt: HostRuntime) -> Result<(), Fail> {
    let alloc = rt.alloc();
    for (path, error) in [
        ("/", FileError::IsDirectory),
        (
            "/no/such/file",
            FileError::NotFound(String::from_str(alloc, "/no/such/file")?),
        ),
        ("/dev/null/file", FileError::Other(None)),
    ] {
        let said = file_at(alloc, path)?.read(&rt, alloc)?;
        assert_eq!(rt;
            said.is_file(alloc).err(),
            Some(FileFault::File(error)),
            "{path}"
        );
    }
    Ok(())
}

#[test]
fn the_system_tells_of_its_folders(rt: HostRuntime) -> Result<(), Fail> {
    let system = SystemAccessModel::new(rt);
    assert!(rt; system.stat("/").is_ok_and(|meta| meta.is_dir));
    assert!(rt; system.stat("/no/such/file").is_err());
    Ok(())
}
