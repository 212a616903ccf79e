//! Roots, paths and kinds of ids, and how ids are shown.
use crate::layers::made::{id_below, ids_of, package};
use std::alloc::Global;
use std::test::Fail;
use tinymist_vfs::{MockRootResolver, RootResolver, WorkspaceResolution, WorkspaceResolver};
use ty_syntax::{FileError, FileFault, FileResult, PackageError, Root, Tags, VirtualPath};

/// The path of `a.typ` below a root.
fn path_below(alloc: Global, root: Root) -> Result<FileResult<String>, Fail> {
    let id = id_below(alloc, root)?;
    match MockRootResolver.path_for_id(alloc, &id) {
        Ok(resolution) => Ok(resolution.to_err()),
        Err(fault) => Ok(Err(fault)),
    }
}

/// The root of `a.typ` below a root, where there is one.
fn root_text(alloc: Global, root: Root) -> Result<FileResult<Option<String>>, Fail> {
    let id = id_below(alloc, root)?;
    match MockRootResolver.resolve_root(alloc, &id) {
        Ok(Some(path)) => Ok(Ok(Some(String::from_str(alloc, path.as_str())?))),
        Ok(None) => Ok(Ok(None)),
        Err(fault) => Ok(Err(fault)),
    }
}

#[test]
fn roots_have_paths(rt: HostRuntime) -> Result<(), Fail> {
    let alloc = rt.alloc();
    let folder = Root::Workspace(String::from_str(alloc, "/w/./b/..")?);
    assert_eq!(rt;
        path_below(alloc, folder)?,
        Ok(String::from_str(alloc, "/w/a.typ")?)
    );
    let untitled = Root::UntitledRooted(String::from_str(alloc, "/w/")?);
    let denied = Err(FileFault::File(FileError::AccessDenied));
    assert_eq!(rt; path_below(alloc, untitled)?, denied);
    let denied = Err(FileFault::File(FileError::AccessDenied));
    assert_eq!(rt; path_below(alloc, Root::Project)?, denied);
    let refused = Err(FileFault::File(FileError::Other(None)));
    assert_eq!(rt;
        path_below(alloc, Root::Package(package(alloc, "ws")?))?,
        refused
    );
    let missing = FileError::Package(PackageError::NotFound(package(alloc, "preview")?));
    let unknown = Root::Package(package(alloc, "preview")?);
    assert_eq!(rt; path_below(alloc, unknown)?, Err(FileFault::File(missing)));
    Ok(())
}

#[test]
fn roots_are_those_of_ids(rt: HostRuntime) -> Result<(), Fail> {
    let alloc = rt.alloc();
    let folder = Root::Workspace(String::from_str(alloc, "/w/./b/..")?);
    assert_eq!(rt; root_text(alloc, folder)??.as_deref(), Some("/w"));
    let untitled = Root::UntitledRooted(String::from_str(alloc, "/w/")?);
    assert_eq!(rt; root_text(alloc, untitled)??.as_deref(), Some("/w"));
    assert_eq!(rt; root_text(alloc, Root::Project)?, Ok(None));
    assert_eq!(rt;
        root_text(alloc, Root::Package(package(alloc, "ws")?))?,
        Err(FileFault::File(FileError::Other(None)))
    );
    Ok(())
}

/// An id of each kind, and the text that it is shown as.
fn shown(alloc: Global, root: Root) -> Result<String, Fail> {
    let id = id_below(alloc, root)?;
    Ok(format!(in alloc; "{}", WorkspaceResolver::display(alloc, Some(&id)))?)
}

#[test]
fn ids_are_shown(rt: HostRuntime) -> Result<(), Fail> {
    let alloc = rt.alloc();
    let folder = Root::Workspace(String::from_str(alloc, "/w")?);
    assert_eq!(rt; shown(alloc, folder)?.as_str(), "/w/a.typ");
    let untitled = Root::UntitledRooted(String::from_str(alloc, "/w")?);
    assert_eq!(rt; shown(alloc, untitled)?.as_str(), "a.typ");
    assert_eq!(rt; shown(alloc, Root::Project)?.as_str(), "/a.typ");
    let known = Root::Package(package(alloc, "preview")?);
    assert_eq!(rt;
        shown(alloc, known)?.as_str(),
        "@preview/example:0.1.0/a.typ"
    );
    let none = format!(in alloc; "{}", WorkspaceResolver::display(alloc, None))?;
    assert_eq!(rt; none.as_str(), "unresolved-path");
    Ok(())
}

/// `a.typ` as a virtual path.
fn below(alloc: Global) -> Result<VirtualPath, Fail> {
    Ok(VirtualPath::new(alloc, "a.typ")?)
}

#[test]
fn workspaces_make_ids(rt: HostRuntime) -> Result<(), Fail> {
    let alloc = rt.alloc();
    let mut tags = Tags::new();
    let file = WorkspaceResolver::workspace_file(alloc, Some("/w/"), below(alloc)?, &mut tags)?;
    let loose = WorkspaceResolver::workspace_file(alloc, None, below(alloc)?, &mut tags)?;
    let fresh = WorkspaceResolver::rooted_untitled(alloc, Some("/w"), below(alloc)?, &mut tags)?;
    assert_eq!(rt; (file.tag(), loose.tag(), fresh.tag()), (0, 3, 4));
    assert!(rt; WorkspaceResolver::is_workspace_file(&file));
    assert!(rt; WorkspaceResolver::is_workspace_file(&fresh));
    assert!(rt; !WorkspaceResolver::is_workspace_file(&loose));
    assert!(rt; !WorkspaceResolver::is_package_file(&loose));
    assert_eq!(rt;
        WorkspaceResolver::workspace_id(alloc, "/w/.")?.path(),
        "/w"
    );
    Ok(())
}

#[test]
fn untitled_files_may_have_no_workspace(rt: HostRuntime) -> Result<(), Fail> {
    let alloc = rt.alloc();
    let mut tags = Tags::new();
    let loose = WorkspaceResolver::rooted_untitled(alloc, None, below(alloc)?, &mut tags)?;
    assert!(rt; *loose.root() == Root::Project);
    assert_eq!(rt; loose.tag(), 3);
    Ok(())
}

/// The kind of an id below a root, as a text.
fn kind_of(alloc: Global, root: Root) -> Result<FileResult<String>, Fail> {
    let id = id_below(alloc, root)?;
    match WorkspaceResolver::resolve(alloc, &id) {
        Ok(WorkspaceResolution::Workspace(folder)) => {
            Ok(Ok(format!(in alloc; "of {}", folder.path())?))
        }
        Ok(WorkspaceResolution::UntitledRooted(folder)) => {
            Ok(Ok(format!(in alloc; "untitled of {}", folder.path())?))
        }
        Ok(WorkspaceResolution::Rootless) => Ok(Ok(String::from_str(alloc, "of none")?)),
        Ok(WorkspaceResolution::Package) => Ok(Ok(String::from_str(alloc, "of a package")?)),
        Err(fault) => Ok(Err(fault)),
    }
}

#[test]
fn ids_stand_in_workspaces_and_packages(rt: HostRuntime) -> Result<(), Fail> {
    let alloc = rt.alloc();
    let folder = Root::Workspace(String::from_str(alloc, "/w/.")?);
    assert_eq!(rt; kind_of(alloc, folder)??.as_str(), "of /w");
    let untitled = Root::UntitledRooted(String::from_str(alloc, "/w")?);
    assert_eq!(rt; kind_of(alloc, untitled)??.as_str(), "untitled of /w");
    assert_eq!(rt; kind_of(alloc, Root::Project)??.as_str(), "of none");
    let known = Root::Package(package(alloc, "preview")?);
    assert_eq!(rt; kind_of(alloc, known)??.as_str(), "of a package");
    assert_eq!(rt;
        kind_of(alloc, Root::Package(package(alloc, "ws")?))?,
        Err(FileFault::File(FileError::Other(None)))
    );
    Ok(())
}

#[test]
fn packages_may_name_workspaces(rt: HostRuntime) -> Result<(), Fail> {
    let alloc = rt.alloc();
    let known = id_below(alloc, Root::Package(package(alloc, "preview")?))?;
    let named = id_below(alloc, Root::Package(package(alloc, "ws")?))?;
    assert!(rt; WorkspaceResolver::is_package_file(&known));
    assert!(rt; !WorkspaceResolver::is_package_file(&named));
    assert!(rt; !WorkspaceResolver::is_workspace_file(&named));
    Ok(())
}

// Paths that have no file of a parent: a relative one, the root, and one with a NUL byte.
#[test]
fn paths_without_an_id(rt: HostRuntime) -> Result<(), Fail> {
    let alloc = rt.alloc();
    for path in ["a.typ", "/", "", "/w/a\0.typ"] {
        let id = WorkspaceResolver::file_with_parent_root(alloc, path)?;
        assert!(rt; id.is_none(), "{path:?}");
    }
    assert_eq!(rt; ids_of(alloc, &["/a.typ", "/w/./a.typ"])?.len(), 2);
    Ok(())
}
