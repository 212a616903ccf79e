//! Worked paths: each call against a table.

use std::alloc::Global;
use std::sync::Arc;
use std::test::Fail;
use ty_path::{
    Component, ImmutBytes, OutOfMemory, Share, clean, components, diff, file_name, is_absolute,
    join, normalize_path, parent, strip_prefix, unix_slash,
};

/// A path, and its cleaned, its normalized and its slashed form.
static FORMS: [(&str, &str, &str, &str); 43] = [
    ("", ".", "", "."),
    (".", ".", "", "."),
    ("..", "..", "", ".."),
    ("/", "/", "/", "/"),
    ("//", "/", "/", "/"),
    ("./", ".", "", "."),
    ("../", "..", "", ".."),
    ("/.", "/", "/", "/"),
    ("/..", "/", "/", "/.."),
    ("/../", "/", "/", "/.."),
    ("../..", "../..", "", "../.."),
    ("/../..", "/", "/", "/../.."),
    ("a", "a", "a", "a"),
    ("a/", "a", "a", "a"),
    ("/a", "/a", "/a", "/a"),
    ("/a/", "/a", "/a", "/a"),
    ("a/b", "a/b", "a/b", "a/b"),
    ("a//b", "a/b", "a/b", "a/b"),
    ("/a/b", "/a/b", "/a/b", "/a/b"),
    ("/a//b/", "/a/b", "/a/b", "/a/b"),
    ("./a", "a", "a", "a"),
    ("./a/../b", "b", "b", "a/../b"),
    ("a/.", "a", "a", "a"),
    ("a/./b", "a/b", "a/b", "a/b"),
    ("/a/./b", "/a/b", "/a/b", "/a/b"),
    ("a/..", ".", "", "a/.."),
    ("a/../b", "b", "b", "a/../b"),
    ("a/b/..", "a", "a", "a/b/.."),
    ("a/../..", "..", "", "a/../.."),
    ("/a/../..", "/", "/", "/a/../.."),
    ("/a/../../b", "/b", "/b", "/a/../../b"),
    ("../a", "../a", "a", "../a"),
    ("../../a/b", "../../a/b", "a/b", "../../a/b"),
    ("../a/..", "..", "", "../a/.."),
    ("./..", "..", "", ".."),
    ("a/b/../../..", "..", "", "a/b/../../.."),
    ("...", "...", "...", "..."),
    ("a/...", "a/...", "a/...", "a/..."),
    ("a./b", "a./b", "a./b", "a./b"),
    ("é/..", ".", "", "é/.."),
    ("/é/日本", "/é/日本", "/é/日本", "/é/日本"),
    ("/a/b/../c/./d", "/a/c/d", "/a/c/d", "/a/b/../c/d"),
    ("a/ /b", "a/ /b", "a/ /b", "a/ /b"),
];

/// A path, its components with a space between (names in quotes), its parent and its last name.
static PARTS: [(&str, &str, Option<&str>, Option<&str>); 43] = [
    ("", "", None, None),
    (".", ".", Some(""), None),
    ("..", "..", Some(""), None),
    ("/", "/", None, None),
    ("//", "/", None, None),
    ("./", ".", Some(""), None),
    ("../", "..", Some(""), None),
    ("/.", "/", None, None),
    ("/..", "/ ..", Some("/"), None),
    ("/../", "/ ..", Some("/"), None),
    ("../..", ".. ..", Some(".."), None),
    ("/../..", "/ .. ..", Some("/.."), None),
    ("a", "'a'", Some(""), Some("a")),
    ("a/", "'a'", Some(""), Some("a")),
    ("/a", "/ 'a'", Some("/"), Some("a")),
    ("/a/", "/ 'a'", Some("/"), Some("a")),
    ("a/b", "'a' 'b'", Some("a"), Some("b")),
    ("a//b", "'a' 'b'", Some("a"), Some("b")),
    ("/a/b", "/ 'a' 'b'", Some("/a"), Some("b")),
    ("/a//b/", "/ 'a' 'b'", Some("/a"), Some("b")),
    ("./a", ". 'a'", Some("."), Some("a")),
    ("./a/../b", ". 'a' .. 'b'", Some("./a/.."), Some("b")),
    ("a/.", "'a'", Some(""), Some("a")),
    ("a/./b", "'a' 'b'", Some("a"), Some("b")),
    ("/a/./b", "/ 'a' 'b'", Some("/a"), Some("b")),
    ("a/..", "'a' ..", Some("a"), None),
    ("a/../b", "'a' .. 'b'", Some("a/.."), Some("b")),
    ("a/b/..", "'a' 'b' ..", Some("a/b"), None),
    ("a/../..", "'a' .. ..", Some("a/.."), None),
    ("/a/../..", "/ 'a' .. ..", Some("/a/.."), None),
    ("/a/../../b", "/ 'a' .. .. 'b'", Some("/a/../.."), Some("b")),
    ("../a", ".. 'a'", Some(".."), Some("a")),
    ("../../a/b", ".. .. 'a' 'b'", Some("../../a"), Some("b")),
    ("../a/..", ".. 'a' ..", Some("../a"), None),
    ("./..", ". ..", Some("."), None),
    ("a/b/../../..", "'a' 'b' .. .. ..", Some("a/b/../.."), None),
    ("...", "'...'", Some(""), Some("...")),
    ("a/...", "'a' '...'", Some("a"), Some("...")),
    ("a./b", "'a.' 'b'", Some("a."), Some("b")),
    ("é/..", "'é' ..", Some("é"), None),
    ("/é/日本", "/ 'é' '日本'", Some("/é"), Some("日本")),
    (
        "/a/b/../c/./d",
        "/ 'a' 'b' .. 'c' 'd'",
        Some("/a/b/../c"),
        Some("d"),
    ),
    ("a/ /b", "'a' ' ' 'b'", Some("a/ "), Some("b")),
];

/// A base, a path below it, and both joined.
static JOINS: [(&str, &str, &str); 40] = [
    ("", "", ""),
    ("", "a", "a"),
    ("", "/a", "/a"),
    ("", ".", "."),
    ("", "..", ".."),
    ("a", "", "a"),
    ("/", "", "/"),
    ("/a/", "", "/a/"),
    (".", "", "."),
    ("a", "b", "a/b"),
    ("a/", "b", "a/b"),
    ("a//", "b", "a//b"),
    ("/", "a", "/a"),
    ("/a", "b", "/a/b"),
    ("/a/", "b", "/a/b"),
    ("//", "a", "//a"),
    (".", "a", "./a"),
    ("./", "a", "./a"),
    ("..", "a", "../a"),
    ("a", ".", "a/."),
    ("a", "..", "a/.."),
    ("a", "../b", "a/../b"),
    ("/a", "../b", "/a/../b"),
    ("a", "./b", "a/./b"),
    ("a", "b/", "a/b/"),
    ("a", "b//c", "a/b//c"),
    ("a/b", "c/d", "a/b/c/d"),
    ("/a/b", "c/d/", "/a/b/c/d/"),
    ("a", "/b", "/b"),
    ("/a", "/b", "/b"),
    ("/a", "/", "/"),
    ("a", "//b", "//b"),
    ("/", "/", "/"),
    ("", "//", "//"),
    ("é", "日本", "é/日本"),
    ("/é/", "b c", "/é/b c"),
    (" ", "a", " /a"),
    ("a", " ", "a/ "),
    ("a/..", "b", "a/../b"),
    ("/..", "a", "/../a"),
];

/// A path, a prefix, and what is left of the path after it.
static PREFIXES: [(&str, &str, Option<&str>); 41] = [
    ("", "", Some("")),
    ("a", "", Some("a")),
    ("/a", "", Some("/a")),
    ("./a", "", Some("./a")),
    ("", "a", None),
    ("", ".", None),
    ("", "/", None),
    ("/", "/", Some("")),
    ("//", "/", Some("")),
    ("/a", "/", Some("a")),
    ("/a/b", "/", Some("a/b")),
    ("a", "/", None),
    ("/a", "a", None),
    ("a", "a", Some("")),
    ("a/", "a", Some("")),
    ("a", "a//", Some("")),
    ("a/b", "a", Some("b")),
    ("a/b", "a/b", Some("")),
    ("a/b", "a/b/c", None),
    ("a/b", "b", None),
    ("ab", "a", None),
    ("a/bc", "a/b", None),
    ("/ab/c", "/a", None),
    ("/a/b", "/a", Some("b")),
    ("/a/b", "/a/b", Some("")),
    ("/a//b/c/", "/a/b", Some("c")),
    ("/a/./b/c", "/a/b", Some("c")),
    ("/a/../b", "/a", Some("../b")),
    ("/a/../b", "/b", None),
    ("..", "a", None),
    ("../a", "..", Some("a")),
    ("../../a", "..", Some("../a")),
    ("a/..", "a", Some("..")),
    (".", ".", Some("")),
    ("./", ".", Some("")),
    ("./a", ".", Some("a")),
    ("a", ".", None),
    ("./a", "a", None),
    ("./a/b", "./a", Some("b")),
    ("/é/日本/c", "/é/日本", Some("c")),
    ("a/b/c", "a//b/", Some("c")),
];

/// A path, a base, and the way from the base to the path.
static WAYS: [(&str, &str, Option<&str>); 45] = [
    ("", "", Some("")),
    ("a", "", Some("a")),
    ("", "a", Some("..")),
    (".", "a", Some("..")),
    ("a", ".", Some("a")),
    ("./a", "", Some("a")),
    ("a", "a", Some("")),
    ("a/b", "a", Some("b")),
    ("a", "a/b", Some("..")),
    ("a/b/c", "a/d", Some("../b/c")),
    ("a/b", "c/d", Some("../../a/b")),
    ("a/bc", "a/b", Some("../bc")),
    ("a//b/", "a", Some("b")),
    ("a/./b", "a/b", Some("")),
    ("a/../b", "b", Some("")),
    ("a/../b", "c", Some("../b")),
    ("..", "..", Some("")),
    ("..", "", Some("..")),
    ("..", "a", Some("../..")),
    ("a", "..", None),
    ("a", "../b", None),
    ("../a", "..", Some("a")),
    ("../a", "../b", Some("../a")),
    ("../../a", "..", Some("../a")),
    ("..", "../..", None),
    ("a/..", "b", Some("..")),
    ("/", "/", Some("")),
    ("/a", "/", Some("a")),
    ("/", "/a", Some("..")),
    ("/a", "/a", Some("")),
    ("/a/b/c", "/a/d", Some("../b/c")),
    ("/a/b", "/c/d/e", Some("../../../a/b")),
    ("/a/b/", "/a//b", Some("")),
    ("/..", "/a", Some("..")),
    ("/a/./b", "/a", Some("b")),
    ("/a/b", "/a/../c", Some("../a/b")),
    ("/a", "b", Some("/a")),
    ("/a//b/", "c", Some("/a//b/")),
    ("/a/./b", "c", Some("/a/b")),
    ("/a/../b", "..", Some("/b")),
    ("/", "a", Some("/")),
    ("a", "/b", None),
    ("", "/", None),
    ("..", "/", None),
    ("/é/日本", "/é/b", Some("../日本")),
];

/// Appends a name in quotes.
fn push_quoted(words: &mut String, name: &str) -> Result<(), OutOfMemory> {
    words.push('\'')?;
    words.push_str(name)?;
    words.push('\'')?;
    Ok(())
}

/// The components with a space between, each name in quotes.
fn in_words(alloc: Global, parts: &[Component]) -> Result<String, OutOfMemory> {
    let mut words = String::new(alloc);
    for part in parts {
        if !words.is_empty() {
            words.push(' ')?;
        }
        match part {
            Component::RootDir => words.push('/')?,
            Component::CurDir => words.push('.')?,
            Component::ParentDir => words.push_str("..")?,
            Component::Normal(name) => push_quoted(&mut words, name.as_str())?,
        }
    }
    Ok(words)
}

#[test]
fn cleaned_forms(rt: HostRuntime) -> Result<(), Fail> {
    for (path, cleaned, _, _) in &FORMS {
        assert_eq!(rt; clean(rt.alloc(), path)?.as_str(), *cleaned, "of {path}");
    }
    Ok(())
}

#[test]
fn normalized_forms(rt: HostRuntime) -> Result<(), Fail> {
    for (path, _, normalized, _) in &FORMS {
        assert_eq!(rt;
            normalize_path(rt.alloc(), path)?.as_str(),
            *normalized,
            "of {path}"
        );
    }
    Ok(())
}

#[test]
fn slashed_forms(rt: HostRuntime) -> Result<(), Fail> {
    for (path, _, _, slashed) in &FORMS {
        assert_eq!(rt;
            unix_slash(rt.alloc(), path)?.as_str(),
            *slashed,
            "of {path}"
        );
    }
    Ok(())
}

#[test]
fn components_of_paths(rt: HostRuntime) -> Result<(), Fail> {
    for (path, words, _, _) in &PARTS {
        let parts = components(rt.alloc(), path)?;
        assert_eq!(rt; in_words(rt.alloc(), &parts)?.as_str(), *words, "of {path}");
    }
    Ok(())
}

#[test]
fn parents(rt: HostRuntime) -> Result<(), Fail> {
    for (path, _, front, _) in &PARTS {
        assert_eq!(rt; parent(rt.alloc(), path)?.as_deref(), *front, "of {path}");
    }
    Ok(())
}

#[test]
fn last_names(rt: HostRuntime) -> Result<(), Fail> {
    for (path, _, _, name) in &PARTS {
        assert_eq!(rt; file_name(rt.alloc(), path)?.as_deref(), *name, "of {path}");
    }
    Ok(())
}

#[test]
fn absolute_paths(rt: HostRuntime) {
    for (path, words, _, _) in &PARTS {
        assert_eq!(rt; is_absolute(path), words.starts_with('/'), "of {path}");
    }
}

#[test]
fn joined_paths(rt: HostRuntime) -> Result<(), Fail> {
    for (base, other, joined) in &JOINS {
        assert_eq!(rt;
            join(rt.alloc(), base, other)?.as_str(),
            *joined,
            "of {base} and {other}"
        );
    }
    Ok(())
}

#[test]
fn rests_after_a_prefix(rt: HostRuntime) -> Result<(), Fail> {
    for (path, prefix, rest) in &PREFIXES {
        assert_eq!(rt;
            strip_prefix(rt.alloc(), path, prefix)?.as_deref(),
            *rest,
            "of {path} after {prefix}"
        );
    }
    Ok(())
}

#[test]
fn ways_between_paths(rt: HostRuntime) -> Result<(), Fail> {
    for (path, base, way) in &WAYS {
        assert_eq!(rt;
            diff(rt.alloc(), path, base)?.as_deref(),
            *way,
            "from {base} to {path}"
        );
    }
    Ok(())
}

#[test]
fn shared_bytes_come_again(rt: HostRuntime) -> Result<(), Fail> {
    let alloc = rt.alloc();
    let bytes: ImmutBytes = Arc::new(alloc, vec![in alloc; 255, 0, 10]?)?;
    let again = bytes.share(alloc)?;
    drop(bytes);
    assert_eq!(rt; again.as_slice(), [255, 0, 10].as_slice());
    Ok(())
}

#[test]
fn out_of_memory_has_a_text(rt: HostRuntime) -> Result<(), Fail> {
    let text = format!(in rt.alloc(); "{}", OutOfMemory)?;
    assert_eq!(rt; text.as_str(), "out of memory");
    Ok(())
}
