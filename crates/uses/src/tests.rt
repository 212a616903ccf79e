//! Each use once.
ghost use Rattle.std.specs.Prelude.{◌≡◌, ◌<◌};

use crate::{
    Kept, OneFile, edit, fingerprint_of_file, live_with_package, read_from_disk, reuse,
    source_of_view, take_event, view_and_ask,
};
use std::alloc::Global;
use std::marker::Brand;
use std::process::Abort;
use std::sync::Arc;
use std::sync::ledger::{Blank, Ledger};
use std::test::Fail;
use tinymist_std::{Base128, Fingerprint};
use tinymist_vfs::{FileChangeSet, FilesystemEvent, MockRootResolver, Vfs, WorkspaceResolver};
use ty_cells::{DummyAccessModel, FileSnapshot, OwnCells};
use ty_path::Share;
use ty_persist::Steps;
use ty_syntax::{Bytes, FileId, PackageSpec, PackageVersion, Root, Tags, VirtualPath};

fn bytes(alloc: Global, text: &str) -> Result<Bytes, Fail> {
    let bytes = text.as_bytes().to_vec(alloc)?;
    Ok(Bytes::new(alloc, bytes)?)
}

fn id_of(alloc: Global, path: &str) -> Result<FileId, Fail> {
    let id = WorkspaceResolver::file_with_parent_root(alloc, path)?.ok_or("no id")?;
    Ok(id)
}

/// Layers that resolve no package.
type Layered = Vfs<MockRootResolver>;

/// The bytes are those of the text.
fn expect_bytes(rt: &impl Abort, read: &Bytes, want: &str) {
    assert!(rt; read.as_slice() == want.as_bytes(), "not {want}");
}

/// A view gives the old text.
fn views<L: Ledger>(
    rt: &impl Abort,
    alloc: Global,
    live: &mut Layered,
    tags: &mut Tags,
    steps: &mut Steps<L>,
) -> Result<(), Fail> {
    let id = id_of(alloc, "/w/a.typ")?;
    let new = bytes(alloc, "new")?;
    let mut disk = DummyAccessModel;
    let mut cells = OwnCells::new(&mut disk);
    let source = source_of_view(live, tags, steps, &mut cells, &id, "/w/a.typ", new)?;
    assert!(rt; source.text() == "old");
    Ok(())
}

/// What the old text made may not be used again, and what the new one made may.
fn results<L: Ledger>(
    rt: &impl Abort,
    alloc: Global,
    live: &Layered,
    tags: &mut Tags,
    steps: &mut Steps<L>,
) -> Result<(), Fail> {
    let ids = vec![in alloc; id_of(alloc, "/w/a.typ")?]?;
    let (_view, clean) = view_and_ask(live, tags, steps, 3, &ids)?;
    assert!(rt; !clean);
    let kept = Kept {
        result: 'r',
        ids,
        revision: 4,
    };
    let again = reuse(live, steps, kept)?;
    assert!(rt; again == Some('r'));
    Ok(())
}

fn edits<L: Ledger>(rt: &impl Abort, alloc: Global, steps: &mut Steps<L>) -> Result<(), Fail> {
    let mut tags = Tags::new();
    let mut live = Vfs::new(alloc, MockRootResolver, &mut tags)?;
    let _revision = edit(&mut live, "/w/a.typ", bytes(alloc, "old")?)?;
    views(rt, alloc, &mut live, &mut tags, steps)?;
    results(rt, alloc, &live, &mut tags, steps)
}

fn edits_counted<L: Ledger>(rt: &impl Abort, alloc: Global, blank: Blank) -> Result<(), Fail>
    requires name { blank.name ≡ L.name }
    requires parts { blank.parts ≡ L.parts }
    requires some { 0 < L.parts }
{
    let mut steps: Steps<L> = Steps::new(blank);
    edits(rt, alloc, &mut steps)
}

/// A watcher tells a file.
fn tell(alloc: Global, live: &mut Layered) -> Result<(), Fail> {
    let path = Arc::new(alloc, String::from_str(alloc, "/w/a.typ")?)?;
    let file = FileSnapshot::from_bytes(bytes(alloc, "told")?);
    let files = vec![in alloc; (path, file)]?;
    let event = FilesystemEvent::Update(FileChangeSet::new_inserts(alloc, files), false);
    let _revision = take_event(live, event)?;
    Ok(())
}

fn disk_with(alloc: Global, path: &str, text: &str) -> Result<OneFile, Fail> {
    let path = String::from_str(alloc, path)?;
    Ok(OneFile::new(path, bytes(alloc, text)?))
}

fn expect_read(
    rt: &impl Abort,
    alloc: Global,
    live: &Layered,
    path: &str,
    want: &str,
) -> Result<(), Fail> {
    let id = id_of(alloc, path)?;
    let mut disk = disk_with(alloc, "/w/b.typ", "disk")?;
    let read = read_from_disk(live, &mut disk, &id)?;
    expect_bytes(rt, &read, want);
    Ok(())
}

/// A told file is read, and beside it one of the disk.
fn reads(rt: &impl Abort, alloc: Global) -> Result<(), Fail> {
    let mut live = Vfs::new(alloc, MockRootResolver, &mut Tags::new())?;
    tell(alloc, &mut live)?;
    expect_read(rt, alloc, &live, "/w/a.typ", "told")?;
    expect_read(rt, alloc, &live, "/w/b.typ", "disk")
}

/// A hash under which all data meets.
struct Zero;

impl Base128 for Zero {
    ghost use Rattle.std.specs.Prelude.{ℕ};

    ghost hash128_of = { λ _. (0, 0) };

    ghost hash64_of = { λ _. 0 };

    ghost hash32_of = { λ _. 0 };

    fn hash128(_bytes: &[u8]) -> (u64, u64) {
        (0, 0)
    }

    fn hash64(_bytes: &[u8]) -> u64 {
        0
    }

    fn hash32(_bytes: &[u8]) -> u32 {
        0
    }
}

/// The fingerprint of a path, over a disk of one file.
fn fingerprint_at(alloc: Global, path: &str) -> Result<tinymist_std::Result<Fingerprint>, Fail> {
    let live = Vfs::new(alloc, MockRootResolver, &mut Tags::new())?;
    let id = id_of(alloc, path)?;
    let mut disk = disk_with(alloc, "/w/a.typ", "x")?;
    let mut cells = OwnCells::new(&mut disk);
    Ok(fingerprint_of_file::<Zero, _, _>(alloc, &live, &mut cells, &id))
}

/// What is no file has an error that names it.
const MISSING: &str =
    "fingerprint_of_file, with [(\"path\", \"/b.typ\"), (\"error\", \"no file at /w/b.typ\")]";

fn fingerprints(rt: &impl Abort, alloc: Global) -> Result<(), Fail> {
    let known = fingerprint_at(alloc, "/w/a.typ")?;
    assert!(rt; matches!(known, Ok(f) if f == Fingerprint::from_pair(0, 0)));
    let missing = fingerprint_at(alloc, "/w/b.typ")?;
    let text = missing.err().ok_or("no error")?.to_string(alloc)?;
    assert!(rt; text.as_str() == MISSING, "{text}");
    Ok(())
}

fn package(alloc: Global) -> Result<PackageSpec, Fail> {
    Ok(PackageSpec {
        namespace: String::from_str(alloc, "local")?,
        name: String::from_str(alloc, "example")?,
        version: PackageVersion {
            major: 0,
            minor: 1,
            patch: 0,
        },
    })
}

/// A file of a package stands below its root.
fn packages(rt: &impl Abort, alloc: Global) -> Result<(), Fail> {
    let spec = package(alloc)?;
    let root = Arc::new(alloc, String::from_str(alloc, "/packages/example")?)?;
    let live = live_with_package(alloc, spec.share(alloc)?, root, &mut Tags::new())?;
    let id = FileId::intern(
        alloc,
        Root::Package(spec),
        VirtualPath::new(alloc, "a.typ")?,
    )?;
    let path = live.file_path(&id)?.to_err()?;
    assert!(rt; path.as_str() == "/packages/example/a.typ", "{path}");
    Ok(())
}

#[test]
fn uses_do_what_they_say(rt: HostRuntime) -> Result<(), Fail> {
    let alloc = rt.alloc();
    edits_counted::<Brand>(&rt, alloc, Blank::new(1))?;
    reads(&rt, alloc)?;
    fingerprints(&rt, alloc)?;
    packages(&rt, alloc)
}
