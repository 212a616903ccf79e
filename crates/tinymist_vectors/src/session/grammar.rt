//! Lines at the edges of the grammar: the good ones are answered, and the others end a session.
use crate::disk::disk_of;
use crate::session::both::both_end;
use std::alloc::Global;
use std::test::Fail;
use tinymist_plain::End;
use tinymist_session::DEFAULT_LIMITS;

/// Lines that are commands.
static GOOD: [&[u8]; 23] = [
    b"snapshot",
    b"map\t0\t/\xc3\xa9\t=61",
    b"map\t0\t/..a\t=61",
    b"map\t1\t/a\t=61",
    b"map\t0\t/a\t=AbcD",
    b"map\t0\t/a\t=",
    b"map\t0\t/a\t!not-found",
    b"unmap\t0\t/a",
    b"clear\t0",
    b"paths\t18446744073709551615",
    b"notify",
    b"notify\t-/a",
    b"notify\t-/a\t-/a",
    b"notify\t+/a\t=61\t-/a",
    b"map-id\t0\t#1\t=61",
    b"unmap-id\t0\t#18446744073709551615",
    b"rootless\t/n",
    b"ids\t0",
    b"path\t0\t#1",
    b"source\t1\t/a",
    b"line\t1\t/a\t0",
    b"clean\t0\t2",
    b"clean\t0\t2\t/a\t#1\t/b",
];

/// Lines that are no command.
static BAD: [&[u8]; 89] = [
    b"",
    b"snapshot\r",
    b"snapshot\x00",
    b"snapshot\x7f",
    b"snapshot\t",
    b" snapshot",
    b"Snapshot",
    b"map\t0\t/\xff\t=61",
    b"map\t0\tw\t=61",
    b"map\t0\t/w/../a\t=61",
    b"map\t0\t/w//a\t=61",
    b"map\t0\t/w/\t=61",
    b"map\t0\t/w/.\t=61",
    b"map\t00\t/a\t=61",
    b"map\t-1\t/a\t=61",
    b"map\t0\t/a\t=6",
    b"map\t0\t/a\t=6g",
    b"map\t0\t/a\t61",
    b"map\t0\t/a\t!package",
    b"map\t0\t/a\t!",
    b"map\t0\t/a\tother",
    b"map\t0\t/a\t!other ",
    b"map\t0\t/a",
    b"map\t0\t/a\t=61\t",
    b"read\t1\t/a\t",
    b"read\t1",
    b"read\t\t/a",
    b"read\t01\t/a",
    b"read\t18446744073709551616\t/a",
    b"read\t+1\t/a",
    b"unmap\t0\ta",
    b"unmap\t0",
    b"unmap\t0\t/a\t=61",
    b"clear",
    b"clear\t",
    b"clear\t0\t0",
    b"paths\t18446744073709551616",
    b"paths",
    b"notify\t",
    b"notify\t/a",
    b"notify\t-",
    b"notify\t-a",
    b"notify\t-/a\t=61",
    b"notify\t+/a",
    b"notify\t+/a\t-/a",
    b"notify\t+/a/\t=61",
    b"map-id\t0\t#01\t=61",
    b"map-id\t0\t#\t=61",
    b"map-id\t0\t1\t=61",
    b"map-id\t0\t/a",
    b"unmap-id\t0\t#18446744073709551616",
    b"rootless\tn",
    b"rootless\t/n/../m",
    b"rootless\t#1",
    b"ids",
    b"path\t0",
    b"source\t1\t/a\t",
    b"line\t1\t/a\t00",
    b"clean\t0",
    b"clean\t0\t2\t",
    b"snapshots",
    b"map\t\t/a\t=61",
    b"map\t0\t/a\t",
    b"read\t1\ta",
    b"unmap\t0\t/a\t",
    b"unmap\t\t/a",
    b"clear\t00",
    b"clear\t0\t/a",
    b"paths\t-1",
    b"paths\t0\t/a",
    b"notify\t+/a\t61",
    b"notify\t+/a\t=6",
    b"notify\t+/a\t=61\t=62",
    b"notify\t-/a\t",
    b"map\t0\t/a\t!found",
    b"map\t0\t/a\t!Other",
    b"map-id\t0\ta\t=61",
    b"map-id\t0\t#1\t61",
    b"unmap-id\t0",
    b"unmap-id\t0\t#",
    b"rootless",
    b"rootless\ta",
    b"rootless\t/a/../b",
    b"ids\t0\t/a",
    b"path\t0\t#x",
    b"line\t1\t/a",
    b"line\t1\t/a\t-1",
    b"clean\t0\t02",
    b"clean\t0\t2\t/a\t",
];

/// A line between two others that are good.
fn between(alloc: Global, line: &[u8]) -> Result<Vec<u8>, Fail> {
    let mut input = b"snapshot\n".to_vec(alloc)?;
    input.extend_from_slice(line)?;
    input.extend_from_slice(b"\nsnapshot\n")?;
    Ok(input)
}

#[test]
fn good_lines_are_answered(rt: HostRuntime) -> Result<(), Fail> {
    let mut disk = disk_of(rt.alloc(), None)?;
    for line in &GOOD {
        let input = between(rt.alloc(), line)?;
        both_end(&rt, &input, DEFAULT_LIMITS, &mut disk, End::Whole)?;
    }
    Ok(())
}

#[test]
fn a_last_line_needs_no_end(rt: HostRuntime) -> Result<(), Fail> {
    let mut disk = disk_of(rt.alloc(), None)?;
    for line in &GOOD {
        both_end(&rt, line, DEFAULT_LIMITS, &mut disk, End::Whole)?;
    }
    Ok(())
}

#[test]
fn bad_lines_end_a_session(rt: HostRuntime) -> Result<(), Fail> {
    let mut disk = disk_of(rt.alloc(), None)?;
    for line in &BAD {
        let input = between(rt.alloc(), line)?;
        let replies = both_end(&rt, &input, DEFAULT_LIMITS, &mut disk, End::Bad(2))?;
        assert_eq!(rt; replies.as_slice(), b"view\t1\n".as_slice(), "{line:?}");
    }
    Ok(())
}
