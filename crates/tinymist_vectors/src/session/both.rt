//! Both programs over one input: the real one through its top call, and the plain one beside it.
use crate::disk::disk_of;
use std::alloc::Global;
use std::process::Abort;
use std::test::Fail;
use tinymist_plain::{End, plain_session};
use tinymist_session::{DEFAULT_LIMITS, Limits, MemorySink, MemorySource, run_program};
use ty_cells::MapAccess;

/// What a session shows, its lines, and the replies to them. Each of its lines is good.
pub type Row = (&'static str, &'static str, &'static str);

/// What the real program came to.
#[derive(Drop)]
pub struct Run {
    pub status: u8,
    pub replies: MemorySink,
    pub faults: MemorySink,
}

/// A sink that takes all.
pub fn sink(alloc: Global) -> MemorySink {
    MemorySink::new(Vec::new(alloc), Vec::new(alloc), Vec::new(alloc))
}

/// The real program under these arguments, over an input that comes whole.
pub fn program(
    alloc: Global,
    words: &[&str],
    input: &[u8],
    disk: &mut MapAccess,
) -> Result<Run, Fail> {
    let mut arguments = Vec::new(alloc);
    for word in words {
        arguments.push(String::from_str(alloc, word)?)?;
    }
    let mut source = MemorySource::new(input.to_vec(alloc)?, Vec::new(alloc), Vec::new(alloc));
    let mut replies = sink(alloc);
    let mut faults = sink(alloc);
    let status = run_program(
        alloc,
        &arguments,
        &mut source,
        &mut replies,
        &mut faults,
        disk,
    );
    Ok(Run {
        status,
        replies,
        faults,
    })
}

/// The real program under these limits.
fn limited(
    alloc: Global,
    limits: &Limits,
    input: &[u8],
    disk: &mut MapAccess,
) -> Result<Run, Fail> {
    let line = format!(in alloc; "{}", limits.max_line)?;
    let lines = format!(in alloc; "{}", limits.max_lines)?;
    let words = [
        "session",
        "--max-line",
        line.as_str(),
        "--max-lines",
        lines.as_str(),
    ];
    program(alloc, &words, input, disk)
}

/// The status and the fault line of an end.
fn told_of(alloc: Global, end: End) -> Result<(u8, String), Fail> {
    match end {
        End::Whole => Ok((0, String::new(alloc))),
        End::Bad(line) => Ok((3, format!(in alloc; "bad line {line}\n")?)),
        End::Over => Ok((4, String::from_str(alloc, "too many lines\n")?)),
    }
}

/// Checks that a run ended so, after these replies, and flushed them.
fn run_ends<R: Abort + AllocGlobal>(
    rt: &R,
    run: &Run,
    end: End,
    replies: &[u8],
    input: &[u8],
) -> Result<(), Fail> {
    let (status, line) = told_of(rt.alloc(), end)?;
    assert_eq!(rt; run.status, status, "real: {input:?}");
    assert_eq!(rt; run.faults.bytes(), line.as_bytes(), "{input:?}");
    assert_eq!(rt; run.replies.bytes(), replies, "{input:?}");
    assert!(rt; run.replies.is_flushed(), "{input:?}");
    Ok(())
}

/// Runs both programs over an input, checks that both answer alike and end so, and gives the replies.
pub fn both_end<R: Abort + AllocGlobal>(
    rt: &R,
    input: &[u8],
    limits: Limits,
    disk: &mut MapAccess,
    end: End,
) -> Result<Vec<u8>, Fail> {
    let plain = plain_session(rt.alloc(), input, &limits, disk)?;
    let run = limited(rt.alloc(), &limits, input, disk)?;
    assert_eq!(rt; plain.end, end, "plain: {input:?}");
    run_ends(rt, &run, end, &plain.replies, input)?;
    Ok(plain.replies)
}

/// Checks that both programs answer these rows as they say, over a disk with `a` at this path alone.
pub fn rows_hold<R: Abort + AllocGlobal>(
    rt: &R,
    path: Option<&str>,
    rows: &[Row],
) -> Result<(), Fail> {
    let mut disk = disk_of(rt.alloc(), path)?;
    for (shows, lines, wanted) in rows {
        let lines = lines.as_bytes();
        let replies = both_end(rt, lines, DEFAULT_LIMITS, &mut disk, End::Whole)?;
        assert_eq!(rt; replies.as_slice(), wanted.as_bytes(), "{shows}");
    }
    Ok(())
}

/// Checks that both programs answer these inputs of good lines alike, over a disk with one file.
pub fn alike<R: Abort + AllocGlobal>(rt: &R, inputs: &[&str]) -> Result<(), Fail> {
    let mut disk = disk_of(rt.alloc(), Some("/w/a.typ"))?;
    for input in inputs {
        let lines = input.as_bytes();
        let replies = both_end(rt, lines, DEFAULT_LIMITS, &mut disk, End::Whole)?;
        assert!(rt; !replies.is_empty(), "{input}");
    }
    Ok(())
}
