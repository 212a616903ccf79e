//! Gathering a change set.
ghost use Rattle.std.specs.Prelude.{◌≡◌, ◌↔◌, ◌++◌, [], IsTrue, IfOk, OnOk, OnErr, map};
ghost use Rattle.std.specs.Option.{option_to_list};
ghost use Rattle.ty_path.specs.Shared.{path_text};
ghost use Rattle.tinymist_vfs.specs.Items.{file_of, clean_text, clean_file};
ghost use Rattle.tinymist_vfs.specs.ChangeSet.{removed_paths, inserted_files, files_in};

use crate::batch::item::FileChangeSet;
use std::alloc::Global;
use std::sync::Arc;
use ty_cells::FileSnapshot;
use ty_path::{ImmutPath, OutOfMemory, clean, is_clean};

impl FileChangeSet {
    /// Whether nothing is removed and nothing inserted.
    pub fn is_empty(&self) -> bool
        ensures { IsTrue result ↔ ((removed_paths self.now ≡ []) × (inserted_files self.now ≡ [])) }
    {
        self.removes.is_empty() && self.inserts.is_empty()
    }

    /// A set that inserts nothing.
    pub fn new_removes(alloc: Global, removes: Vec<ImmutPath>) -> FileChangeSet
        ensures removes { removed_paths result ≡ map path_text removes.items }
        ensures inserts { inserted_files result ≡ [] }
    {
        FileChangeSet {
            removes,
            inserts: Vec::new(alloc),
        }
    }

    /// A set that removes nothing.
    pub fn new_inserts(alloc: Global, inserts: Vec<(ImmutPath, FileSnapshot)>) -> FileChangeSet
        ensures removes { removed_paths result ≡ [] }
        ensures inserts { inserted_files result ≡ map file_of inserts.items }
    {
        FileChangeSet {
            removes: Vec::new(alloc),
            inserts,
        }
    }

    /// Inserts one more file after the others, if there is one.
    pub fn may_insert(
        &mut self,
        insert: Option<(ImmutPath, FileSnapshot)>,
    ) -> Result<(), OutOfMemory>
        ensures removes { removed_paths self.new ≡ removed_paths self.old }
        ensures ok { OnOk result (inserted_files self.new ≡ inserted_files self.old ++ map file_of (option_to_list insert)) }
        ensures err { OnErr result (inserted_files self.new ≡ inserted_files self.old) }
    {
        if let Some(file) = insert {
            self.inserts.push(file)?;
        }
        Ok(())
    }

    /// Inserts these files after the others, if there are any. An error inserts none.
    pub fn may_extend(
        &mut self,
        inserts: Option<Vec<(ImmutPath, FileSnapshot)>>,
    ) -> Result<(), OutOfMemory>
        ensures removes { removed_paths self.new ≡ removed_paths self.old }
        ensures ok { OnOk result (inserted_files self.new ≡ inserted_files self.old ++ map file_of (files_in inserts)) }
        ensures err { OnErr result (inserted_files self.new ≡ inserted_files self.old) }
    {
        if let Some(mut files) = inserts {
            self.inserts.append(&mut files)?;
        }
        Ok(())
    }

    /// The set with each path cleaned. What is clean is moved.
    pub(crate) fn cleaned(self, alloc: Global) -> Result<FileChangeSet, OutOfMemory>
        ensures removes { IfOk result (λ set. removed_paths set ≡ map clean_text self.removes.items) }
        ensures inserts { IfOk result (λ set. inserted_files set ≡ map clean_file self.inserts.items) }
    {
        Ok(FileChangeSet {
            removes: cleaned_paths(alloc, self.removes)?,
            inserts: cleaned_files(alloc, self.inserts)?,
        })
    }
}

/// The path, cleaned.
fn cleaned_path(alloc: Global, path: ImmutPath) -> Result<ImmutPath, OutOfMemory>
    ensures { IfOk result (λ shared. path_text shared ≡ clean_text path) }
{
    if is_clean(path.as_str()) {
        return Ok(path);
    }
    Ok(Arc::new(alloc, clean(alloc, path.as_str())?)?)
}

/// The paths, each cleaned.
fn cleaned_paths(alloc: Global, from: Vec<ImmutPath>) -> Result<Vec<ImmutPath>, OutOfMemory>
    ensures { IfOk result (λ cleaned. map path_text cleaned.items ≡ map clean_text from.items) }
{
    let mut paths = Vec::with_capacity(alloc, from.len())?;
    for path in from {
        paths.push(cleaned_path(alloc, path)?)?;
    }
    Ok(paths)
}

/// The files, each under its cleaned path.
fn cleaned_files(
    alloc: Global,
    from: Vec<(ImmutPath, FileSnapshot)>,
) -> Result<Vec<(ImmutPath, FileSnapshot)>, OutOfMemory>
    ensures { IfOk result (λ cleaned. map file_of cleaned.items ≡ map clean_file from.items) }
{
    let mut files = Vec::with_capacity(alloc, from.len())?;
    for (path, snap) in from {
        files.push((cleaned_path(alloc, path)?, snap))?;
    }
    Ok(files)
}
