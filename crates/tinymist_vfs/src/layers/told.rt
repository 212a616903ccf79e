//! The told files, and what a change set makes of them.
ghost use Rattle.std.specs.Prelude.{◌≡◌, OnOk, Some, map};
ghost use Rattle.std.specs.FinMap as finmap;
ghost use Rattle.ty_path.specs.Shared.{path_text};
ghost use Rattle.ty_model.specs.Values.{same_answer};
ghost use Rattle.ty_model.specs.Standing.{same_option};
ghost use Rattle.ty_model.specs.Batch.{inserted, removed};
ghost use Rattle.tinymist_vfs.specs.Maps.{path_map};
ghost use Rattle.tinymist_vfs.specs.Items.{file_of};
ghost use Rattle.tinymist_vfs.specs.ChangeSet.{removed_paths, inserted_files};

use crate::batch::item::FileChangeSet;
use crate::layers::store::{at_path, put_path, take_path};
use std::alloc::Global;
use std::sync::ledger::Ledger;
use ty_cells::FileSnapshot;
use ty_path::{ImmutPath, OutOfMemory, Share};
use ty_persist::{Map, Steps};

/// Takes all removed paths out, and then puts the inserted files in, of which the last of a path stands.
pub(crate) fn change_told<L: Ledger>(
    alloc: Global,
    told: &mut Map<ImmutPath, FileSnapshot>,
    set: &FileChangeSet,
    steps: &mut Steps<L>,
) -> Result<(), OutOfMemory>
    ensures { OnOk result (path_map told.new.entries ≡ inserted (removed (path_map told.old.entries) (removed_paths set.now)) (inserted_files set.now)) }
{
    remove_all(told, &set.removes, steps)?;
    insert_all(alloc, told, &set.inserts, steps)
}

fn remove_all<L: Ledger>(
    told: &mut Map<ImmutPath, FileSnapshot>,
    paths: &[ImmutPath],
    steps: &mut Steps<L>,
) -> Result<(), OutOfMemory>
    ensures { OnOk result (path_map told.new.entries ≡ removed (path_map told.old.entries) (map path_text paths.now)) }
{
    for path in paths {
        take_path(told, path, steps)?;
    }
    Ok(())
}

fn insert_all<L: Ledger>(
    alloc: Global,
    told: &mut Map<ImmutPath, FileSnapshot>,
    files: &[(ImmutPath, FileSnapshot)],
    steps: &mut Steps<L>,
) -> Result<(), OutOfMemory>
    ensures { OnOk result (path_map told.new.entries ≡ inserted (path_map told.old.entries) (map file_of files.now)) }
{
    for (path, snap) in files {
        tell(alloc, told, path, snap, steps)?;
    }
    Ok(())
}

/// Tells a file. What is told already isn't put again.
fn tell<L: Ledger>(
    alloc: Global,
    told: &mut Map<ImmutPath, FileSnapshot>,
    path: &ImmutPath,
    snap: &FileSnapshot,
    steps: &mut Steps<L>,
) -> Result<(), OutOfMemory>
    ensures { OnOk result (path_map told.new.entries ≡ finmap.insert (path_map told.old.entries) (path_text path.now) snap.now) }
{
    if is_told(told, path, snap) {
        return Ok(());
    }
    put_path(told, path.share(alloc)?, snap.share(alloc)?, steps)
}

/// Whether this is told of a path.
fn is_told(told: &Map<ImmutPath, FileSnapshot>, path: &ImmutPath, snap: &FileSnapshot) -> bool
    ensures { result ≡ same_option same_answer (finmap.get (path_map told.now.entries) (path_text path.now)) (Some snap.now) }
{
    match at_path(told, path) {
        Some(before) => before.same_as(snap),
        None => false,
    }
}
