//! Work in a new folder of the system's one for temporary files, which is removed afterwards.
use crate::files::make_parents;
use crate::locks::{LockTable, play_in};
use crate::replacing::replace_whole;
use crate::steps::take;
use crate::tables::FileTable;
use std::alloc::Global;
use std::env;
use std::env::Env;
use std::fs::File;
use std::process::Abort;
use std::rt::Files;
use std::test::Fail;
use tinymist_std::paths::temp_dir_in;
use tinymist_std::{Result, WithContextUntyped};

/// What is done in the folder.
#[derive(Clone, Copy)]
enum Work {
    /// The rows of a table on files are taken.
    Files(FileTable),
    /// The rows of a table on locks are taken.
    Locks(LockTable),
    /// Readers keep the old content.
    Replacing,
    /// Parents of new folders are made.
    Parents,
}

impl Work {
    fn run<R: Files<File = File> + Abort>(self, rt: &R, alloc: Global, folder: &str) -> Result<()> {
        match self {
            Work::Files(table) => take(rt, alloc, folder, table.rows()),
            Work::Locks(table) => play_in(rt, alloc, folder, table),
            Work::Replacing => replace_whole(rt, alloc, folder),
            Work::Parents => make_parents(rt, alloc, folder),
        }
    }
}

static WORK: [Work; 24] = [
    Work::Files(FileTable::Written),
    Work::Files(FileTable::Folders),
    Work::Files(FileTable::Unchanged),
    Work::Files(FileTable::SameLength),
    Work::Files(FileTable::Failing),
    Work::Files(FileTable::NotCopied),
    Work::Files(FileTable::NotOpened),
    Work::Files(FileTable::FolderStays),
    Work::Files(FileTable::NothingBeside),
    Work::Files(FileTable::Permissions),
    Work::Files(FileTable::LongName),
    Work::Files(FileTable::OldStays),
    Work::Files(FileTable::NoneStays),
    Work::Locks(LockTable::Held),
    Work::Locks(LockTable::Cloned),
    Work::Locks(LockTable::Readers),
    Work::Locks(LockTable::Made),
    Work::Locks(LockTable::Shared),
    Work::Locks(LockTable::SharedTwice),
    Work::Locks(LockTable::Cleared),
    Work::Locks(LockTable::NotCleared),
    Work::Locks(LockTable::Nameless),
    Work::Replacing,
    Work::Parents,
];

#[test]
fn work_in_new_folders_holds(rt: HostRuntime) -> std::result::Result<(), Fail> {
    for work in &WORK {
        anew(&rt, *work)?;
    }
    Ok(())
}

/// Does the work in a new folder.
fn anew<R: Files<File = File> + Abort + Env + AllocGlobal>(rt: &R, work: Work) -> Result<()> {
    let alloc = rt.alloc();
    let base = env::temp_dir(rt).context_ut(alloc, "anew")?;
    temp_dir_in(
        rt,
        alloc,
        base.as_str(),
        move |folder| work.run(rt, alloc, folder),
    )
}
