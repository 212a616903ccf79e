//! Ids of files in workspaces.
ghost use Rattle.std.specs.Prelude.{◌≡◌, ◌+◌, ◌-◌, ◌^◌, ◌↔◌, IfOk, OnErr, IsErr, IsErrOf, None, Some, true, string_bytes};
ghost use Rattle.std.specs.Option.{option_copied};
ghost use Rattle.ty_path.specs.Shared.{path_text};
ghost use Rattle.ty_model.specs.Paths.{clean, is_absolute, parent, file_name};
ghost use Rattle.ty_model.specs.Places.{id_by_parent, id_below, interned};
ghost use Rattle.ty_model.specs.Values.{Project, Workspace};
ghost use Rattle.ty_syntax.specs.Id.{root_of, tagged};
ghost use Rattle.tinymist_vfs.specs.Workspace.{untitled_in};

use crate::ids::display::Resolving;
use crate::ids::resolver::{names_workspace, shared_text};
use std::alloc::Global;
use std::sync::Arc;
use ty_path::{
    CleanPath, ImmutPath, OutOfMemory, clean, file_name, folder_and_name, is_absolute, is_clean,
    parent,
};
use ty_syntax::{
    FileError, FileFault, FileId, FileResult, PathFault, Root, TagFault, Tags, VirtualPath,
};

/// A workspace, by its cleaned root.
#[derive(Drop)]
pub struct WorkspaceId {
    /// The cleaned path of its folder.
    pub root: ImmutPath,
}

impl WorkspaceId {
    /// The root as a text.
    pub fn path(&self) -> &str
        ensures { result.now ≡ path_text self.now.root }
    {
        self.root.as_str()
    }
}

/// What an id stands in.
#[derive(Drop)]
pub enum WorkspaceResolution {
    /// A file of a workspace.
    Workspace(WorkspaceId),
    /// A file of a workspace that has no path yet.
    UntitledRooted(WorkspaceId),
    /// A file of no workspace.
    Rootless,
    /// A file of a package.
    Package,
}

/// Makes and reads the ids of workspaces.
#[derive(Clone, Copy, Debug)]
pub struct WorkspaceResolver;

impl WorkspaceResolver {
    ghost use Rattle.tinymist_vfs.specs.Workspace.{is_workspace_root, is_package_root, kind_in, SaysKind, file_in, counted_in, untitled_in};

    /// Whether the id has the root of a workspace, as a file with a path or an untitled one.
    pub fn is_workspace_file(id: &FileId) -> bool
        ensures { result ≡ is_workspace_root id.now.root }
    {
        match id.root() {
            Root::Workspace(_) | Root::UntitledRooted(_) => true,
            Root::Project | Root::Package(_) => false,
        }
    }

    /// Whether the id is that of a file in a package, and the package names no files of a workspace.
    pub fn is_package_file(id: &FileId) -> bool
        ensures { result ≡ is_package_root id.now.root }
    {
        match id.root() {
            Root::Package(spec) => !names_workspace(spec),
            Root::Project | Root::Workspace(_) | Root::UntitledRooted(_) => false,
        }
    }

    /// The workspace of a root, cleaned.
    pub fn workspace_id(alloc: Global, root: &str) -> Result<WorkspaceId, OutOfMemory>
        ensures { IfOk result (λ id. path_text id.root ≡ clean root.now) }
    {
        Ok(WorkspaceId {
            root: Arc::new(alloc, clean(alloc, root)?)?,
        })
    }

    /// An id of no workspace, with a fresh tag.
    ///
    /// # Errors
    ///
    /// `Full` exactly where the counter of tags stands at its last value.
    pub fn rootless_file(
        alloc: Global,
        path: VirtualPath,
        tags: &mut Tags,
    ) -> Result<FileId, TagFault>
        ensures ok { IfOk result (λ id. (id ≡ tagged Project path tags.old.next_id) × (tags.new ≡ record tags.old { next_id = tags.old.next_id + 1 })) }
        ensures err { OnErr result (tags.new ≡ tags.old) }
        ensures full { IsErrOf result TagFault.Full ↔ (tags.old.next_id ≡ 2 ^ 64 - 1) }
    {
        FileId::unique(alloc, Root::Project, path, tags)
    }

    /// The id of an absolute path in the workspace of its parent. There is none exactly where the path is
    /// relative, or has no parent or no file name, or its file name holds a NUL byte.
    pub fn file_with_parent_root(alloc: Global, path: &str) -> Result<Option<FileId>, OutOfMemory>
        ensures { IfOk result (λ id. id ≡ id_by_parent path.now) }
    {
        if !is_absolute(path) {
            return Ok(None);
        }
        if is_clean(path) {
            return cut_file(alloc, path);
        }
        let Some(root) = parent(alloc, path)? else {
            return Ok(None);
        };
        match file_name(alloc, path)? {
            Some(name) => file_below(alloc, root, name.as_str()),
            None => Ok(None),
        }
    }

    /// As `file_with_parent_root`, of a path that is clean by its type.
    pub fn file_of(alloc: Global, path: &CleanPath) -> Result<Option<FileId>, OutOfMemory>
        ensures { IfOk result (λ id. id ≡ id_by_parent path.now) }
    {
        let text = path.as_str();
        if !is_absolute(text) {
            return Ok(None);
        }
        cut_file(alloc, text)
    }

    /// The id of a file in a workspace, or an id of no workspace with a fresh tag.
    ///
    /// # Errors
    ///
    /// `Full` exactly where there is no workspace and the counter of tags stands at its last value.
    pub fn workspace_file(
        alloc: Global,
        root: Option<&str>,
        path: VirtualPath,
        tags: &mut Tags,
    ) -> Result<FileId, TagFault>
        ensures ok { IfOk result (λ id. (id ≡ file_in (option_copied root.entry) path tags.old.next_id) × (tags.new ≡ counted_in (option_copied root.entry) tags.old)) }
        ensures err { OnErr result (tags.new ≡ tags.old) }
        ensures full { IsErrOf result TagFault.Full ↔ ((option_copied root.entry ≡ None) × (tags.old.next_id ≡ 2 ^ 64 - 1)) }
    {
        match root {
            Some(root) => Ok(interned_file(alloc, root, path)?),
            None => WorkspaceResolver::rootless_file(alloc, path, tags),
        }
    }

    /// The id of an untitled file, with a fresh tag: in a workspace, or in none.
    ///
    /// # Errors
    ///
    /// `Full` exactly where the counter of tags stands at its last value.
    pub fn rooted_untitled(
        alloc: Global,
        root: Option<&str>,
        path: VirtualPath,
        tags: &mut Tags,
    ) -> Result<FileId, TagFault>
        ensures ok { IfOk result (λ id. (id ≡ tagged (untitled_in (option_copied root.entry)) path tags.old.next_id) × (tags.new ≡ record tags.old { next_id = tags.old.next_id + 1 })) }
        ensures err { OnErr result (tags.new ≡ tags.old) }
        ensures full { IsErrOf result TagFault.Full → tags.old.next_id ≡ 2 ^ 64 - 1 }
        ensures exact { tags.old.next_id ≡ 2 ^ 64 - 1 → IsErr result }
    {
        let root = untitled_root(alloc, root)?;
        FileId::unique(alloc, root, path, tags)
    }

    /// What the id stands in.
    ///
    /// # Errors
    ///
    /// `Other` exactly for a package that names files of a workspace.
    pub fn resolve(alloc: Global, id: &FileId) -> FileResult<WorkspaceResolution>
        ensures { SaysKind (kind_in id.now.root) result }
    {
        match id.root() {
            Root::Workspace(root) => Ok(WorkspaceResolution::Workspace(WorkspaceId {
                root: shared_text(alloc, root.as_str())?,
            })),
            Root::UntitledRooted(root) => Ok(WorkspaceResolution::UntitledRooted(WorkspaceId {
                root: shared_text(alloc, root.as_str())?,
            })),
            Root::Project => Ok(WorkspaceResolution::Rootless),
            Root::Package(spec) => {
                if names_workspace(spec) {
                    return Err(FileFault::File(FileError::Other(None)));
                }
                Ok(WorkspaceResolution::Package)
            }
        }
    }

    /// The id as a text for people.
    pub fn display<'a>(alloc: Global, id: Option<&'a FileId>) -> Resolving<'a>
        ensures { option_copied result.id ≡ option_copied id.entry }
    {
        Resolving { alloc, id }
    }
}

fn interned_file(alloc: Global, root: &str, path: VirtualPath) -> Result<FileId, OutOfMemory>
    ensures { IfOk result (λ id. id ≡ interned (Workspace root.now) path) }
{
    FileId::intern(alloc, Root::Workspace(String::from_str(alloc, root)?), path)
}

fn untitled_root(alloc: Global, root: Option<&str>) -> Result<Root, OutOfMemory>
    ensures { IfOk result (λ made. root_of made ≡ untitled_in (option_copied root.entry)) }
{
    match root {
        Some(root) => Ok(Root::UntitledRooted(String::from_str(alloc, root)?)),
        None => Ok(Root::Project),
    }
}

/// The id of an absolute clean path, which is cut at its last slash.
fn cut_file(alloc: Global, path: &str) -> Result<Option<FileId>, OutOfMemory>
    requires clean { clean path.now ≡ path.now }
    requires absolute { is_absolute path.now ≡ true }
    ensures { IfOk result (λ id. id ≡ id_below (parent path.now) (file_name path.now)) }
{
    match folder_and_name(path) {
        Some((folder, name)) => file_below(alloc, String::from_str(alloc, folder)?, name),
        None => Ok(None),
    }
}

/// The id of a file name in a folder.
fn file_below(alloc: Global, root: String, name: &str) -> Result<Option<FileId>, OutOfMemory>
    ensures { IfOk result (λ id. id ≡ id_below (Some (string_bytes root)) (Some name.now)) }
{
    match VirtualPath::new(alloc, name) {
        Ok(vpath) => Ok(Some(FileId::intern(alloc, Root::Workspace(root), vpath)?)),
        Err(PathFault::OutOfMemory) => Err(OutOfMemory),
        Err(_) => Ok(None),
    }
}
