//! Change sets, and what watchers tell.
use crate::files::holding;
use crate::layers::made::{joined, path, removes_one};
use std::test::Fail;
use tinymist_vfs::{FileChangeSet, FilesystemEvent, NotifyDeps, UpstreamUpdateEvent};
use ty_path::ImmutPath;

#[test]
fn change_sets_grow(rt: HostRuntime) -> Result<(), Fail> {
    let alloc = rt.alloc();
    let mut set = FileChangeSet::new_removes(alloc, vec![in alloc; path(alloc, "/a")?]?);
    assert!(rt; !set.is_empty());
    set.may_insert(None)?;
    set.may_insert(Some((path(alloc, "/b")?, holding(alloc, "b")?)))?;
    let more = vec![in alloc; (path(alloc, "/c")?, holding(alloc, "c")?)]?;
    set.may_extend(Some(more))?;
    set.may_extend(None)?;
    assert_eq!(rt; joined(alloc, &set.removes)?.as_str(), "/a ");
    let [(first, one), (second, two)] = set.inserts.as_slice() else {
        panic!(rt; "two files were inserted");
    };
    assert_eq!(rt; (first.as_str(), second.as_str()), ("/b", "/c"));
    assert!(rt; one.same_as(&holding(alloc, "b")?) && two.same_as(&holding(alloc, "c")?));
    let none = Vec::new(alloc);
    assert!(rt; FileChangeSet::new_inserts(alloc, none).is_empty());
    Ok(())
}

#[test]
fn watchers_tell_of_changes(rt: HostRuntime) -> Result<(), Fail> {
    let event = FilesystemEvent::Update(removes_one(rt.alloc())?, true);
    let (set, upstream, is_sync) = event.split_with_is_sync();
    assert_eq!(rt; joined(rt.alloc(), &set.removes)?.as_str(), "/a ");
    assert_eq!(rt; (upstream.is_none(), is_sync), (true, true));
    Ok(())
}

#[test]
fn watchers_answer_what_was_asked(rt: HostRuntime) -> Result<(), Fail> {
    let alloc = rt.alloc();
    let asked = UpstreamUpdateEvent {
        invalidates: Vec::new(alloc),
        opaque: 7,
    };
    let event = FilesystemEvent::UpstreamUpdate {
        changeset: removes_one(alloc)?,
        upstream_event: Some(asked),
    };
    let (set, upstream, is_sync) = event.split_with_is_sync();
    assert_eq!(rt; joined(alloc, &set.removes)?.as_str(), "/a ");
    assert_eq!(rt;
        (upstream.map(|event| event.opaque), is_sync),
        (Some(7), false)
    );
    Ok(())
}

#[test]
fn watched_paths_are_told(rt: HostRuntime) -> Result<(), Fail> {
    let alloc = rt.alloc();
    let watched = vec![in alloc; path(alloc, "/a")?, path(alloc, "/bc")?]?;
    let mut lengths: usize = 0;
    let mut each = |path: &ImmutPath| {
        lengths = lengths
            .saturating_mul(10)
            .saturating_add(path.as_str().len());
    };
    watched.dependencies(&mut each);
    assert_eq!(rt; lengths, 23);
    Ok(())
}
