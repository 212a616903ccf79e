//! Paths as bytes and lists, and walks up.
use crate::errors::{expect, text};
use std::alloc::{AllocError, Global};
use std::test::Fail;
use tinymist_std::Filesystem;
use tinymist_std::paths::{ancestors, bytes2path, join_paths, path2bytes};

#[test]
fn paths_are_bytes(rt: HostRuntime) -> Result<(), Fail> {
    let alloc = rt.alloc();
    assert_eq!(rt; path2bytes("/é")?, b"/\xc3\xa9".as_slice());
    assert_eq!(rt; bytes2path(alloc, b"/\xc3\xa9")?.as_str(), "/é");
    let refused = bytes2path(alloc, b"/\xc3").err().ok_or("no error")?;
    expect(
        &rt,
        alloc,
        &refused,
        "bytes2path, with [(\"error\", \"the path is not UTF-8\")]",
    )?;
    Ok(())
}

fn two(alloc: Global) -> Result<Vec<String>, AllocError> {
    Ok(vec![in alloc; text(alloc, "/a")?, text(alloc, "b")?]?)
}

#[test]
fn paths_are_lists(rt: HostRuntime) -> Result<(), Fail> {
    let paths = two(rt.alloc())?;
    let joined = join_paths(rt.alloc(), paths.as_slice(), "PATH")?;
    assert_eq!(rt; joined.as_str(), "/a:b");
    let paths = vec![in rt.alloc(); text(rt.alloc(), "a:b")?]?;
    let refused = join_paths(rt.alloc(), paths.as_slice(), "PATH")
        .err()
        .ok_or("no error")?;
    assert_eq!(rt; refused.loc(), "join_paths");
    assert!(rt; matches!(refused.arguments(), [("env", name), _] if name.as_str() == "PATH"));
    Ok(())
}

/// The walk up, with spaces between.
fn walk(alloc: Global, path: &str, stop: Option<&str>) -> Result<String, AllocError> {
    let mut words = String::new(alloc);
    for (number, word) in ancestors(path, stop).enumerate() {
        if number > 0 {
            words.push(' ')?;
        }
        words.push_str(word)?;
    }
    Ok(words)
}

#[test]
fn ancestors_go_up_to_a_stop(rt: HostRuntime) -> Result<(), Fail> {
    let rows: [(&str, Option<&str>, &str); 6] = [
        ("/a/b/c", None, "/a/b/c /a/b /a /"),
        ("/a/b/c", Some("/a"), "/a/b/c /a/b /a"),
        ("/a/b/c", Some("/a/b/c"), "/a/b/c"),
        ("/a/b", Some("/x"), "/a/b /a /"),
        ("a/b", None, "a/b a "),
        ("/", None, "/"),
    ];
    for (path, stop, want) in rows {
        let words = walk(rt.alloc(), path, stop)?;
        assert_eq!(rt; words.as_str(), want, "of {path}");
    }
    Ok(())
}

#[test]
fn folders_have_paths(rt: HostRuntime) -> Result<(), Fail> {
    let alloc = rt.alloc();
    let mut files = Filesystem::new(text(alloc, "/a")?);
    assert_eq!(rt; files.join("b")?.as_path_unlocked(), "/a/b");
    files.push("c/d")?;
    assert_eq!(rt; files.into_path_unlocked().as_str(), "/a/c/d");
    Ok(())
}
