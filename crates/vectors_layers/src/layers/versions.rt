//! Snapshots, forks and resets, and which ids are clean after them.
ghost use Rattle.std.specs.Prelude.{◌≡◌, ◌<◌};

use crate::layers::made::{Layered, ids_of, mapped};
use std::marker::Brand;
use std::sync::ledger::{Blank, Ledger};
use std::test::Fail;
use tinymist_vfs::{MockRootResolver, Vfs};
use ty_cells::{DummyAccessModel, OwnCells};
use ty_persist::Steps;
use ty_syntax::{FileId, FileResult, Tags};

/// The layers that snapshots and forks make, and what ids are clean, with a count of steps that nobody reads.
fn snapshot_of<L: Ledger>(vfs: &Layered, tags: &mut Tags, blank: Blank) -> Result<Layered, Fail>
    requires name { blank.name ≡ L.name }
    requires parts { blank.parts ≡ L.parts }
    requires some { 0 < L.parts }
{
    let mut steps: Steps<L> = Steps::new(blank);
    Ok(vfs.snapshot(tags, &mut steps)?)
}

fn fork_of<L: Ledger>(vfs: &Layered, tags: &mut Tags, blank: Blank) -> Result<Layered, Fail>
    requires name { blank.name ≡ L.name }
    requires parts { blank.parts ≡ L.parts }
    requires some { 0 < L.parts }
{
    let mut steps: Steps<L> = Steps::new(blank);
    Ok(vfs.fork(tags, &mut steps)?)
}

fn clean_since<L: Ledger>(
    vfs: &Layered,
    revision: u64,
    ids: &[FileId],
    blank: Blank,
) -> FileResult<bool>
    requires name { blank.name ≡ L.name }
    requires parts { blank.parts ≡ L.parts }
    requires some { 0 < L.parts }
{
    let mut steps: Steps<L> = Steps::new(blank);
    vfs.is_clean_compile(revision, ids, &mut steps)
}

pub fn is_clean(vfs: &Layered, revision: u64, ids: &[FileId]) -> FileResult<bool> {
    clean_since::<Brand>(vfs, revision, ids, Blank::new(1))
}

#[test]
fn clean_by_what_differed_since(rt: HostRuntime) -> Result<(), Fail> {
    let alloc = rt.alloc();
    let mut live = Vfs::new(alloc, MockRootResolver, &mut Tags::new())?;
    for (text, revision) in [("x", 3), ("y", 4), ("x", 5)] {
        assert_eq!(rt; mapped(alloc, &mut live, &[("/w/a", text)])?, Ok(revision));
    }
    let edited = ids_of(alloc, &["/w/a"])?;
    let others = ids_of(alloc, &["/w/b", "/w/c"])?;
    assert!(rt; !is_clean(&live, 3, &edited)?);
    assert!(rt; is_clean(&live, 5, &edited)?);
    assert!(rt; is_clean(&live, 2, &others)?);
    assert!(rt; is_clean(&live, 2, &[])?);
    assert_eq!(rt; live.reset_read()?, 6);
    assert!(rt; !is_clean(&live, 5, &others)?);
    assert!(rt; is_clean(&live, 6, &others)?);
    let mut disk = DummyAccessModel;
    let mut cells = OwnCells::new(&mut disk);
    live.reset_access_model(&mut cells);
    assert_eq!(rt; live.reset_all(&mut cells)?, 7);
    assert_eq!(rt; live.reset_with(MockRootResolver).ok(), Some(8));
    Ok(())
}

#[test]
fn copies_keep_what_they_saw(rt: HostRuntime) -> Result<(), Fail> {
    let alloc = rt.alloc();
    let mut tags = Tags::new();
    let mut live = Vfs::new(alloc, MockRootResolver, &mut tags)?;
    assert_eq!(rt; mapped(alloc, &mut live, &[("/w/a", "old")])?, Ok(3));
    let view = snapshot_of::<Brand>(&live, &mut tags, Blank::new(1))?;
    let fork = fork_of::<Brand>(&live, &mut tags, Blank::new(1))?;
    assert_eq!(rt; mapped(alloc, &mut live, &[("/w/a", "new")])?, Ok(4));
    let ids = ids_of(alloc, &["/w/a"])?;
    assert_eq!(rt; ids.len(), 1);
    let mut disk = DummyAccessModel;
    let mut cells = OwnCells::new(&mut disk);
    for (vfs, space, revision, text) in [
        (&live, 1, 4, "new"),
        (&view, 2, 3, "old"),
        (&fork, 3, 2, "old"),
    ] {
        assert_eq!(rt; (vfs.space(), vfs.revision()), (space, revision));
        assert_eq!(rt; vfs.read(&mut cells, &ids[0])?.as_slice(), text.as_bytes());
        assert!(rt;
            vfs.resolve_root(&ids[0])?
                .is_some_and(|root| root.as_str() == "/w")
        );
        assert_eq!(rt; vfs.file_path(&ids[0])?.to_err()?.as_str(), "/w/a");
    }
    assert!(rt; !is_clean(&live, 3, &ids)?);
    assert!(rt; is_clean(&fork, 2, &ids)?);
    Ok(())
}
