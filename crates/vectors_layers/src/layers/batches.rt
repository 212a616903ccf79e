//! Batches, and the revisions that they raise.
use crate::files::holding;
use crate::layers::made::{Layered, id_below, joined, mapped, path};
use std::alloc::Global;
use std::test::Fail;
use tinymist_vfs::{FileChangeSet, FilesystemEvent, MockRootResolver, ReviseFault, Vfs};
use ty_syntax::{FileId, Root, Tags};

/// Batches over one set of layers, and the revision that each answers.
static BATCHES: [(&[(&str, &str)], u64); 6] = [
    (&[], 2),
    (&[("/a", "x")], 3),
    (&[("/a", "x")], 3),
    (&[("/a", "y"), ("/a", "x")], 3),
    (&[("/a", "x"), ("/b/.", "x")], 4),
    (&[("/b", "")], 5),
];

#[test]
fn revisions_rise_with_what_differs(rt: HostRuntime) -> Result<(), Fail> {
    let mut tags = Tags::new();
    let Ok(mut live) = Vfs::new(rt.alloc(), MockRootResolver, &mut tags) else {
        assert!(rt; false, "no layers");
        return Ok(());
    };
    for (files, revision) in BATCHES {
        assert_eq!(rt; mapped(rt.alloc(), &mut live, files)?, Ok(revision));
    }
    Ok(())
}

#[test]
fn refused_batches_have_texts(rt: HostRuntime) -> Result<(), Fail> {
    let alloc = rt.alloc();
    let full = format!(in alloc; "{}", ReviseFault::Full)?;
    assert_eq!(rt; full.as_str(), "the revision stands at its last value");
    let memory = format!(in alloc; "{}", ReviseFault::OutOfMemory)?;
    assert_eq!(rt; memory.as_str(), "out of memory");
    Ok(())
}

/// Layers without files.
fn empty(alloc: Global) -> Result<Layered, Fail> {
    Ok(Vfs::new(alloc, MockRootResolver, &mut Tags::new())?)
}

/// Maps a path and an id. The revisions that the batch sees and that it ends with.
fn map_both(alloc: Global, live: &mut Layered, id: &FileId) -> Result<(u64, u64), Fail> {
    let mut batch = live.revise()?;
    batch.map_shadow("/w/./a", holding(alloc, "x")?)?;
    batch.map_shadow_by_id(id, holding(alloc, "y")?)?;
    let before = batch.vfs().revision();
    Ok((before, batch.finish()?))
}

fn unmap_both(live: &mut Layered, id: &FileId) -> Result<u64, Fail> {
    let mut batch = live.revise()?;
    batch.unmap_shadow("/w//a")?;
    batch.remove_shadow_by_id(id)?;
    Ok(batch.finish()?)
}

fn unmap_absent(live: &mut Layered) -> Result<u64, Fail> {
    let mut batch = live.revise()?;
    batch.unmap_shadow("/w/absent")?;
    Ok(batch.finish()?)
}

#[test]
fn shadows_come_and_go(rt: HostRuntime) -> Result<(), Fail> {
    let alloc = rt.alloc();
    let mut live = empty(alloc)?;
    let id = id_below(alloc, Root::Project)?;
    assert_eq!(rt; map_both(alloc, &mut live, &id)?, (2, 3));
    assert_eq!(rt; joined(alloc, &live.shadow_paths()?)?.as_str(), "/w/a ");
    assert!(rt; matches!(live.shadow_ids()?.as_slice(), [shadow] if *shadow == id));
    assert_eq!(rt; unmap_both(&mut live, &id)?, 4);
    assert!(rt; live.shadow_paths()?.is_empty());
    assert!(rt; live.shadow_ids()?.is_empty());
    assert_eq!(rt; unmap_absent(&mut live)?, 5);
    Ok(())
}

fn tell(alloc: Global, live: &mut Layered, text: &str) -> Result<u64, Fail> {
    let files = vec![in alloc; (path(alloc, "/w/./c")?, holding(alloc, text)?)]?;
    let mut batch = live.revise()?;
    batch.notify_fs_changes(FileChangeSet::new_inserts(alloc, files))?;
    Ok(batch.finish()?)
}

fn tell_of_removal(alloc: Global, live: &mut Layered) -> Result<u64, Fail> {
    let gone = FileChangeSet::new_removes(alloc, vec![in alloc; path(alloc, "/w/c")?]?);
    let mut batch = live.revise()?;
    batch.notify_fs_event(FilesystemEvent::Update(gone, false))?;
    Ok(batch.finish()?)
}

#[test]
fn told_files_raise_where_they_differ(rt: HostRuntime) -> Result<(), Fail> {
    let alloc = rt.alloc();
    let mut live = empty(alloc)?;
    for (text, revision) in [("told", 3), ("told", 3), ("other", 4)] {
        assert_eq!(rt; tell(alloc, &mut live, text)?, revision);
    }
    assert_eq!(rt; tell_of_removal(alloc, &mut live)?, 5);
    Ok(())
}

fn change_view(live: &mut Layered) -> Result<u64, Fail> {
    let mut batch = live.revise()?;
    batch.change_view();
    Ok(batch.finish()?)
}

fn clear(live: &mut Layered) -> Result<u64, Fail> {
    let mut batch = live.revise()?;
    batch.reset_shadow()?;
    Ok(batch.finish()?)
}

#[test]
fn views_rise_and_overlays_are_emptied(rt: HostRuntime) -> Result<(), Fail> {
    let alloc = rt.alloc();
    let mut live = empty(alloc)?;
    assert_eq!(rt; change_view(&mut live)?, 3);
    assert_eq!(rt; mapped(alloc, &mut live, &[("/w/d", "d")])?, Ok(4));
    for revision in [5, 5] {
        assert_eq!(rt; clear(&mut live)?, revision);
    }
    Ok(())
}
