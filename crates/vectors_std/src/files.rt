//! Folders of the system that are made for a while, and what causes print.
use crate::errors::expect;
use crate::steps::{Call, Row, Step, below, take};
use std::alloc::Global;
use std::env;
use std::fs::File;
use std::process::Abort;
use std::rt::Files;
use std::test::Fail;
use tinymist_std::paths::{metadata, read, temp_dir_in, write};
use tinymist_std::{ErrorArgs, Result};

/// What is done in a new folder, whose path is the answer.
#[derive(Clone, Copy)]
enum Visit {
    /// Nothing.
    Names,
    /// A file is made.
    Makes,
    /// A file is made, and then it fails with an error that names the folder.
    Fails,
}

impl Visit {
    fn run<R: Files>(self, rt: &R, alloc: Global, folder: &str) -> Result<String> {
        match self {
            Visit::Names => below(alloc, folder, ""),
            Visit::Makes => {
                make(rt, alloc, folder)?;
                below(alloc, folder, "")
            }
            Visit::Fails => fail(alloc, folder, make(rt, alloc, folder)),
        }
    }
}

/// Makes a file in the folder.
fn make<R: Files>(rt: &R, alloc: Global, folder: &str) -> Result<()> {
    write(rt, alloc, below(alloc, folder, "a")?.as_str(), b"x")
}

/// Fails with an error that names the folder, once the file is made.
fn fail(alloc: Global, folder: &str, made: Result<()>) -> Result<String> {
    match made {
        Ok(()) => Err(
            ErrorArgs::new(alloc)
                .with(alloc, "folder", &folder)
                .error("make_and_fail"),
        ),
        Err(error) => Err(error),
    }
}

/// Visits a new folder in that of the path.
fn visited<R: Files>(rt: &R, alloc: Global, path: &str, visit: Visit) -> Result<String> {
    temp_dir_in(rt, alloc, path, move |folder| visit.run(rt, alloc, folder))
}

#[test]
fn new_folders_are_gone_at_the_end(rt: HostRuntime) -> std::result::Result<(), Fail> {
    let base = env::temp_dir(&rt)?;
    let folder = visited(&rt, rt.alloc(), base.as_str(), Visit::Makes)?;
    assert!(rt; metadata(&rt, rt.alloc(), folder.as_str()).is_err());
    Ok(())
}

#[test]
fn folders_of_failures_are_gone(rt: HostRuntime) -> std::result::Result<(), Fail> {
    let base = env::temp_dir(&rt)?;
    let error = visited(&rt, rt.alloc(), base.as_str(), Visit::Fails)
        .err()
        .ok_or("no error")?;
    assert_eq!(rt; error.loc(), "make_and_fail");
    match error.arguments() {
        [("folder", folder)] => {
            assert!(rt; metadata(&rt, rt.alloc(), folder.as_str()).is_err());
        }
        _ => panic!(rt; "other arguments"),
    }
    Ok(())
}

/// The parent is empty, but for what was removed.
static EMPTY: [Row; 1] = [("deep/target", Step::Does(Call::RemoveDir))];

/// The folder is made, and stays; the names of new folders carry its name, and differ.
pub fn make_parents<R: Files<File = File> + Abort>(
    rt: &R,
    alloc: Global,
    folder: &str,
) -> Result<()> {
    let parent = below(alloc, folder, "deep/target")?;
    let first = visited(rt, alloc, parent.as_str(), Visit::Names)?;
    let second = visited(rt, alloc, parent.as_str(), Visit::Names)?;
    expect_apart(rt, first.as_str(), second.as_str());
    take(rt, alloc, folder, &EMPTY)
}

/// Both carry the name of their parent, and differ.
fn expect_apart(rt: &impl Abort, first: &str, second: &str) {
    assert!(rt;
        first.ends_with("-target/") || first.ends_with("-target"),
        "{first}"
    );
    assert_ne!(rt; first, second);
}

#[test]
fn causes_are_printed(rt: HostRuntime) -> std::result::Result<(), Fail> {
    let error = read(&rt, rt.alloc(), "").err().ok_or("no error")?;
    expect(
        &rt,
        rt.alloc(),
        &error,
        "read, with [(\"path\", \"\"), (\"error\", \"No such file or directory (os error 2)\")]",
    )?;
    Ok(())
}
