//! Worked virtual paths: each call against a table.

use std::alloc::Global;
use std::test::Fail;
use ty_syntax::{PathFault, VirtualPath};

/// A text, and the virtual path that it names or why it names none.
static VIRTUAL: [(&str, Result<&str, PathFault>); 23] = [
    ("", Ok("/")),
    ("/", Ok("/")),
    (".", Ok("/")),
    ("a.typ", Ok("/a.typ")),
    ("/a.typ", Ok("/a.typ")),
    ("//a//b/", Ok("/a/b")),
    ("./a/./b", Ok("/a/b")),
    ("a/../b", Ok("/b")),
    ("/a/b/../../c", Ok("/c")),
    ("a/..", Ok("/")),
    ("...", Ok("/...")),
    ("é/日本", Ok("/é/日本")),
    ("..", Err(PathFault::Escapes)),
    ("/..", Err(PathFault::Escapes)),
    ("../a", Err(PathFault::Escapes)),
    ("/../a", Err(PathFault::Escapes)),
    ("a/../..", Err(PathFault::Escapes)),
    ("a/../../a", Err(PathFault::Escapes)),
    ("./..", Err(PathFault::Escapes)),
    ("\0", Err(PathFault::BadByte)),
    ("a\0b", Err(PathFault::BadByte)),
    ("../\0", Err(PathFault::BadByte)),
    ("a/\0/../../..", Err(PathFault::BadByte)),
];

/// A root, a virtual path, and the path that it stands for.
static REALIZED: [(&str, &str, &str); 8] = [
    ("/w", "/a.typ", "/w/a.typ"),
    ("/w/", "/a/b", "/w/a/b"),
    ("/w/../x", "/a", "/x/a"),
    ("/", "/a", "/a"),
    ("/w", "/", "/w"),
    (".", "/a", "a"),
    (".", "/", "."),
    ("w", "/a", "w/a"),
];

/// A root, a path, and the virtual path of it below the root or why it has none.
static VIRTUALIZED: [(&str, &str, Result<&str, PathFault>); 31] = [
    ("/a", "/a/b", Ok("/b")),
    ("/a", "/a", Ok("/")),
    ("/a/", "/a//b/", Ok("/b")),
    ("/a/./b/..", "/a/c/../d", Ok("/d")),
    ("/a", "/a/b/../c", Ok("/c")),
    ("/a", "/b/../a/c", Ok("/c")),
    ("/a", "/../a/c", Ok("/c")),
    ("/", "/a/b", Ok("/a/b")),
    ("/", "/", Ok("/")),
    ("/\0/..", "/b", Ok("/b")),
    ("/w", "/w/é/日本", Ok("/é/日本")),
    (".", "a/b", Ok("/a/b")),
    (".", ".", Ok("/")),
    ("", "a", Ok("/a")),
    ("a", "a/b", Ok("/b")),
    ("..", "../a", Ok("/a")),
    ("../..", "../../x/y", Ok("/x/y")),
    ("/a", "/ab", Err(PathFault::Escapes)),
    ("/a", "/", Err(PathFault::Escapes)),
    ("/a", "/a/../b", Err(PathFault::Escapes)),
    ("/a/b", "/a", Err(PathFault::Escapes)),
    ("/", "a", Err(PathFault::Escapes)),
    (".", "../a", Err(PathFault::Escapes)),
    (".", "/a", Err(PathFault::Escapes)),
    ("a", "b", Err(PathFault::Escapes)),
    ("a", "/a/b", Err(PathFault::Escapes)),
    ("..", "a", Err(PathFault::Escapes)),
    ("..", "../../a", Err(PathFault::Escapes)),
    ("/a", "\0", Err(PathFault::BadByte)),
    ("/a", "/b/\0", Err(PathFault::BadByte)),
    ("/a", "/a/\0/../b", Err(PathFault::BadByte)),
];

/// A virtual path, a text behind it, and the virtual path of both or why they are none.
static JOINED: [(&str, &str, Result<&str, PathFault>); 13] = [
    ("/a", "b", Ok("/a/b")),
    ("/a", "/b", Ok("/a/b")),
    ("/a", "", Ok("/a")),
    ("/a", "..", Ok("/")),
    ("/a", "../b", Ok("/b")),
    ("/", "b", Ok("/b")),
    ("/a/b", "./c//d", Ok("/a/b/c/d")),
    ("/", "..", Err(PathFault::Escapes)),
    ("/a", "../..", Err(PathFault::Escapes)),
    ("/a/b", "../../..", Err(PathFault::Escapes)),
    ("/a/b", "../../../c", Err(PathFault::Escapes)),
    ("/a", "b\0", Err(PathFault::BadByte)),
    ("/a", "../../\0", Err(PathFault::BadByte)),
];

/// The text of what was made, or why nothing was.
fn as_text(made: &Result<VirtualPath, PathFault>) -> Result<&str, PathFault> {
    match made {
        Ok(made) => Ok(made.get_with_slash()),
        Err(fault) => Err(*fault),
    }
}

#[test]
fn paths_below_a_root(rt: HostRuntime) {
    for (root, path, named) in &VIRTUALIZED {
        let made = VirtualPath::virtualize(rt.alloc(), root, path);
        assert_eq!(rt; as_text(&made), *named, "of {path:?} below {root:?}");
    }
}

/// A text behind a virtual path.
fn joined(alloc: Global, path: &str, text: &str) -> Result<VirtualPath, PathFault> {
    VirtualPath::new(alloc, path)?.join(alloc, text)
}

#[test]
fn texts_behind_a_path(rt: HostRuntime) {
    for (path, text, named) in &JOINED {
        let made = joined(rt.alloc(), path, text);
        assert_eq!(rt; as_text(&made), *named, "of {text:?} behind {path:?}");
    }
}

#[test]
fn virtual_paths(rt: HostRuntime) {
    for (text, named) in &VIRTUAL {
        let made = VirtualPath::new(rt.alloc(), text);
        assert_eq!(rt; as_text(&made), *named, "of {text:?}");
    }
}

/// The path below a root, where the text names a virtual path.
fn realized(alloc: Global, root: &str, text: &str) -> Result<Option<String>, Fail> {
    match VirtualPath::new(alloc, text) {
        Ok(below) => Ok(Some(below.realize(alloc, root)?)),
        Err(_) => Ok(None),
    }
}

#[test]
fn realized_paths(rt: HostRuntime) -> Result<(), Fail> {
    for (root, text, path) in &REALIZED {
        assert_eq!(rt;
            realized(rt.alloc(), root, text)?.as_deref(),
            Some(*path),
            "of {text} below {root}"
        );
    }
    Ok(())
}
