//! Atomic writes: the old content or the new one, and nothing beside.
use crate::steps::{Call, Row, Step, below, expect_read, take};
use std::alloc::Global;
use std::fs::File;
use std::io::Read;
use std::process::Abort;
use std::rt::Files;
use tinymist_std::paths::open;
use tinymist_std::{Result, WithContextUntyped};

static OLD: [Row; 1] = [("a", Step::Does(Call::WriteAtomic(b"old content")))];

static NEW: [Row; 2] = [
    ("a", Step::Does(Call::WriteAtomic(b"new"))),
    ("a", Step::Holds(b"new")),
];

/// Who opened the file before reads the old content, whole.
pub fn replace_whole<R: Files<File = File> + Abort>(
    rt: &R,
    alloc: Global,
    folder: &str,
) -> Result<()> {
    take(rt, alloc, folder, &OLD)?;
    let path = below(alloc, folder, "a")?;
    replace_beside(rt, alloc, folder, open(rt, alloc, path.as_str())?)
}

/// Replaces the file, and reads the one that was opened before.
fn replace_beside<R: Files<File = File> + Abort>(
    rt: &R,
    alloc: Global,
    folder: &str,
    before: File,
) -> Result<()> {
    take(rt, alloc, folder, &NEW)?;
    expect_old(rt, alloc, before)
}

/// The file holds the old content.
fn expect_old(rt: &impl Abort, alloc: Global, mut before: File) -> Result<()> {
    let mut text = Vec::new(alloc);
    let _count = before
        .read_to_end(&mut text)
        .context_ut(alloc, "expect_old")?;
    expect_read(rt, "a", text.as_slice(), b"old content");
    Ok(())
}
