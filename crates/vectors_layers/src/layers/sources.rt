//! The sources of ids, and what has none.

use crate::files::holding;
use crate::layers::made::{id_below, path};
use std::alloc::Global;
use std::test::Fail;
use tinymist_vfs::{MockRootResolver, OverlayAccessModel, Vfs};
use ty_cells::{DummyAccessModel, FileSnapshot, OwnCells};
use ty_path::ImmutPath;
use ty_syntax::{Bytes, FileError, FileFault, FileId, Root, Tags, VirtualPath};

/// The id of a file in `/w`.
fn in_folder(alloc: Global, name: &str) -> Result<FileId, Fail> {
    let folder = Root::Workspace(String::from_str(alloc, "/w")?);
    let below = VirtualPath::new(alloc, name)?;
    Ok(FileId::intern(alloc, folder, below)?)
}

#[test]
fn sources_are_texts_of_files(rt: HostRuntime) -> Result<(), Fail> {
    let alloc = rt.alloc();
    let mut live = Vfs::new(alloc, MockRootResolver, &mut Tags::new())?;
    let loose = id_below(alloc, Root::Project)?;
    let no_text = Bytes::new(alloc, vec![in alloc; 0xFF]?)?;
    let mut batch = live.revise()?;
    batch.map_shadow("/w/marked", holding(alloc, "\u{FEFF}\u{FEFF}a")?)?;
    batch.map_shadow("/w/bytes", FileSnapshot::from_bytes(no_text))?;
    batch.map_shadow_by_id(&loose, holding(alloc, "by id")?)?;
    assert_eq!(rt; batch.finish()?, 3);
    let mut disk: OverlayAccessModel<ImmutPath, _> = OverlayAccessModel::new(
        alloc,
        DummyAccessModel,
    );
    disk.add_file(path(alloc, "/w/disk")?, holding(alloc, "on the disk")?)?;
    let mut cells = OwnCells::new(&mut disk);
    for (id, text) in [
        (in_folder(alloc, "marked")?, "\u{FEFF}a"),
        (in_folder(alloc, "disk")?, "on the disk"),
        (loose, "by id"),
    ] {
        let source = live.source(&mut cells, &id)?;
        assert!(rt; source.id() == &id);
        assert_eq!(rt; source.text(), text);
    }
    let no_source = live.source(&mut cells, &in_folder(alloc, "bytes")?);
    assert_eq!(rt;
        no_source.err(),
        Some(FileFault::File(FileError::InvalidUtf8))
    );
    let denied = live.source(&mut cells, &in_folder(alloc, "absent")?);
    assert_eq!(rt;
        denied.err(),
        Some(FileFault::File(FileError::AccessDenied))
    );
    Ok(())
}
