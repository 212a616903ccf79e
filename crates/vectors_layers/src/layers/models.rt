//! Access models: files by path and by id over a disk.
use crate::files::holding;
use crate::layers::made::{id_below, joined, path, removes_one};
use std::alloc::Global;
use std::test::Fail;
use tinymist_vfs::{
    AccessModel, FileChangeSet, MockRootResolver, NotifyAccessModel, OverlayAccessModel,
    ResolveAccessModel,
};
use ty_cells::{DummyAccessModel, FileSnapshot, PathAccessModel};
use ty_path::ImmutPath;
use ty_syntax::{FileError, FileFault, FileId, Root};

#[test]
fn files_stand_over_a_disk(rt: HostRuntime) -> Result<(), Fail> {
    let alloc = rt.alloc();
    let told = NotifyAccessModel::new(alloc, DummyAccessModel);
    let mut over: OverlayAccessModel<ImmutPath, _> = OverlayAccessModel::new(alloc, told);
    over.add_file(path(alloc, "/w/a.typ")?, holding(alloc, "over")?)?;
    let files = vec![in alloc;
        (path(alloc, "/w/a.typ")?, holding(alloc, "told")?),
        (path(alloc, "/w/b.typ")?, holding(alloc, "told")?),
    ]?;
    over.inner_mut()
        .notify(FileChangeSet::new_inserts(alloc, files))?;
    assert!(rt;
        over.content(alloc, "/w/a.typ")?
            .same_as(&holding(alloc, "over")?)
    );
    assert!(rt;
        over.content(alloc, "/w/b.typ")?
            .same_as(&holding(alloc, "told")?)
    );
    assert!(rt; over.holds("/w/b.typ", &holding(alloc, "told")?));
    assert_eq!(rt; joined(alloc, &over.file_paths()?)?.as_str(), "/w/a.typ ");
    over.remove_file(&path(alloc, "/w/a.typ")?)?;
    over.reset();
    assert!(rt;
        over.content(alloc, "/w/a.typ")?
            .same_as(&holding(alloc, "told")?)
    );
    Ok(())
}

#[test]
fn told_files_are_taken_back(rt: HostRuntime) -> Result<(), Fail> {
    let alloc = rt.alloc();
    let mut told = NotifyAccessModel::new(alloc, DummyAccessModel);
    let files = vec![in alloc; (path(alloc, "/a")?, holding(alloc, "told")?)]?;
    told.notify(FileChangeSet::new_inserts(alloc, files))?;
    told.notify(removes_one(alloc)?)?;
    let over: OverlayAccessModel<ImmutPath, _> = OverlayAccessModel::new(alloc, told);
    let denied = FileSnapshot::from_error(alloc, FileError::AccessDenied)?;
    assert!(rt; over.inner().holds("/a", &denied));
    Ok(())
}

#[test]
fn ids_stand_over_their_paths(rt: HostRuntime) -> Result<(), Fail> {
    let alloc = rt.alloc();
    let mut disk: OverlayAccessModel<ImmutPath, _> = OverlayAccessModel::new(
        alloc,
        DummyAccessModel,
    );
    disk.add_file(path(alloc, "/w/a.typ")?, holding(alloc, "path")?)?;
    let resolved = ResolveAccessModel {
        resolver: MockRootResolver,
        inner: disk,
    };
    let mut over: OverlayAccessModel<FileId, _> = OverlayAccessModel::new(alloc, resolved);
    let folder = Root::Workspace(String::from_str(alloc, "/w")?);
    let id = id_below(alloc, folder)?;
    let (place, bytes) = over.content(alloc, &id);
    assert!(rt; place.is_some_and(|place| place.as_str() == "/w/a.typ"));
    assert_eq!(rt; bytes?.as_slice(), b"path".as_slice());
    over.add_file(id_below(alloc, Root::Project)?, holding(alloc, "id")?)?;
    let (place, bytes) = over.content(alloc, &id_below(alloc, Root::Project)?);
    assert!(rt; place.is_none());
    assert_eq!(rt; bytes?.as_slice(), b"id".as_slice());
    over.clear_shadow();
    let (_, bytes) = over.content(alloc, &id_below(alloc, Root::Project)?);
    assert_eq!(rt; bytes.err(), Some(FileFault::File(FileError::AccessDenied)));
    Ok(())
}
