//! Clean paths: which texts are clean, and paths that are kept clean.

use std::alloc::Global;
use std::cmp::Ordering;
use std::sync::Arc;
use std::test::Fail;
use ty_path::{CleanPath, ImmutPath, Share, clean, clean_join, is_clean};

/// A text, and whether it is its own cleaned form.
static CLEAN: [(&str, bool); 44] = [
    ("", false),
    (".", true),
    ("..", true),
    ("...", true),
    ("/", true),
    ("//", false),
    ("./", false),
    ("../", false),
    ("/.", false),
    ("/..", false),
    ("/...", true),
    ("/../a", false),
    ("/./a", false),
    ("./a", false),
    ("./..", false),
    ("../.", false),
    ("../..", true),
    ("../../a", true),
    ("../a/..", false),
    ("../..a", true),
    ("..a/..", false),
    ("a", true),
    ("a/", false),
    ("a/.", false),
    ("a/..", false),
    ("a/./b", false),
    ("a/../b", false),
    ("a//b", false),
    ("a/b", true),
    ("a/.b", true),
    ("a/..b", true),
    ("a/b.", true),
    ("a/b..", true),
    ("a/...", true),
    (".a", true),
    ("/a", true),
    ("//a", false),
    ("/a/", false),
    ("/a/b", true),
    ("/a/b/", false),
    ("\0", true),
    ("/a\0/b", true),
    ("/é/日本", true),
    ("é/日本/", false),
];

#[test]
fn clean_texts(rt: HostRuntime) {
    for (text, is) in &CLEAN {
        assert_eq!(rt; is_clean(text), *is, "of {text:?}");
    }
}

/// Whether the text is clean exactly where cleaning leaves it as it is.
fn agrees_with_clean(alloc: Global, text: &str) -> Result<bool, Fail> {
    Ok(is_clean(text) == (clean(alloc, text)?.as_str() == text))
}

#[test]
fn clean_texts_are_those_that_stay(rt: HostRuntime) -> Result<(), Fail> {
    for (text, _) in &CLEAN {
        assert!(rt; agrees_with_clean(rt.alloc(), text)?, "of {text:?}");
    }
    Ok(())
}

/// A base, a path below it, and the cleaned form of both.
static JOINS: [(&str, &str, &str); 18] = [
    ("/", "a", "/a"),
    ("/w", "a", "/w/a"),
    ("/w", "a/b", "/w/a/b"),
    ("w", "a", "w/a"),
    (".", "a", "a"),
    (".", "a/b", "a/b"),
    ("..", "a", "../a"),
    ("../..", "a", "../../a"),
    ("/w", "", "/w"),
    (".", "", "."),
    ("/w", ".", "/w"),
    ("/w", "..", "/"),
    ("/w", "/a", "/a"),
    ("/w/", "a", "/w/a"),
    ("/w/../x", "a", "/x/a"),
    ("", "a", "a"),
    ("/w", "a//b", "/w/a/b"),
    ("/é", "日本", "/é/日本"),
];

#[test]
fn joins_are_clean(rt: HostRuntime) -> Result<(), Fail> {
    for (base, other, both) in &JOINS {
        let path = clean_join(rt.alloc(), base, other)?;
        assert_eq!(rt; path.as_str(), *both, "of {base:?} and {other:?}");
    }
    Ok(())
}

#[test]
fn clean_paths_join(rt: HostRuntime) -> Result<(), Fail> {
    for (base, other, both) in &JOINS {
        let path = CleanPath::new(rt.alloc(), base)?.join(rt.alloc(), other)?;
        let want = clean(rt.alloc(), both)?;
        assert_eq!(rt; path.as_str(), want.as_str(), "of {base:?} and {other:?}");
    }
    Ok(())
}

/// A path, its cleaned form, and the cleaned parent and the last name of that.
static PATHS: [(&str, &str, Option<&str>, Option<&str>); 10] = [
    ("/", "/", None, None),
    ("//a/", "/a", Some("/"), Some("a")),
    ("/a/./b", "/a/b", Some("/a"), Some("b")),
    ("a", "a", Some("."), Some("a")),
    ("a/b", "a/b", Some("a"), Some("b")),
    (".", ".", Some("."), None),
    ("", ".", Some("."), None),
    ("..", "..", Some("."), None),
    ("../a", "../a", Some(".."), Some("a")),
    ("/é/日本/", "/é/日本", Some("/é"), Some("日本")),
];

/// The path as text, if there is one.
fn path_text(path: &Option<CleanPath>) -> Option<&str> {
    match path {
        Some(path) => Some(path.as_str()),
        None => None,
    }
}

#[test]
fn parents_of_clean_paths(rt: HostRuntime) -> Result<(), Fail> {
    for (text, cleaned, parent, _) in &PATHS {
        let path = CleanPath::new(rt.alloc(), text)?;
        assert_eq!(rt; path.as_str(), *cleaned, "of {text:?}");
        let above = path.parent(rt.alloc())?;
        assert_eq!(rt; path_text(&above), *parent, "of {text:?}");
    }
    Ok(())
}

#[test]
fn names_of_clean_paths(rt: HostRuntime) -> Result<(), Fail> {
    for (text, _, _, name) in &PATHS {
        let path = CleanPath::new(rt.alloc(), text)?;
        assert_eq!(rt;
            path.file_name(rt.alloc())?.as_deref(),
            *name,
            "of {text:?}"
        );
    }
    Ok(())
}

/// A clean path by way of a shared text.
fn through_shares(alloc: Global, text: &str) -> Result<ImmutPath, Fail> {
    let given: ImmutPath = Arc::new(alloc, String::from_str(alloc, text)?)?;
    let path = CleanPath::from_shared(alloc, &given)?.share(alloc)?;
    drop(path.to_shared(alloc)?);
    Ok(path.into_shared())
}

#[test]
fn shared_paths_come_back(rt: HostRuntime) -> Result<(), Fail> {
    for (text, cleaned, _, _) in &PATHS {
        let path = through_shares(rt.alloc(), text)?;
        assert_eq!(rt; path.as_str(), *cleaned, "of {text:?}");
    }
    Ok(())
}

/// How two texts compare once they are cleaned.
fn compared(alloc: Global, text: &str, other: &str) -> Result<(Ordering, bool), Fail> {
    let path = CleanPath::new(alloc, text)?;
    let other = CleanPath::new(alloc, other)?;
    Ok((path.cmp(&other), path == other))
}

#[test]
fn clean_paths_compare_as_texts(rt: HostRuntime) -> Result<(), Fail> {
    let alloc = rt.alloc();
    assert!(rt; compared(alloc, "/a//b", "/a/b/")? == (Ordering::Equal, true));
    assert!(rt; compared(alloc, "/a", "/a/b")? == (Ordering::Less, false));
    assert!(rt; compared(alloc, "/b", "/a/b")? == (Ordering::Greater, false));
    Ok(())
}

#[test]
fn clean_paths_print(rt: HostRuntime) -> Result<(), Fail> {
    let path = CleanPath::new(rt.alloc(), "/a//b")?;
    let text = format!(in rt.alloc(); "{path} {path:?}")?;
    assert_eq!(rt; text.as_str(), "/a/b \"/a/b\"");
    Ok(())
}
