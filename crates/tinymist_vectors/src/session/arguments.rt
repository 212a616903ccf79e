//! The program's arguments, and the fault lines of its statuses.
use crate::disk::disk_of;
use crate::session::both::{program, sink};
use std::test::Fail;
use tinymist_session::{SessionFault, bad_words, out_of_memory};

const THREE: &str = "view\t1\nview\t2\nview\t3\n";

/// Arguments, and the status, the replies to three lines `snapshot`, and the fault line.
static ROWS: [(&[&str], u8, &str, &str); 20] = [
    (&[], 0, THREE, ""),
    (&["session"], 0, THREE, ""),
    (&["session", "--max-lines", "3"], 0, THREE, ""),
    (
        &["session", "--max-lines", "2"],
        4,
        "view\t1\nview\t2\n",
        "too many lines\n",
    ),
    (&["session", "--max-lines", "0"], 4, "", "too many lines\n"),
    (&["session", "--max-line", "8"], 0, THREE, ""),
    (&["session", "--max-line", "7"], 3, "", "bad line 1\n"),
    (
        &["session", "--max-line", "7", "--max-lines", "0"],
        4,
        "",
        "too many lines\n",
    ),
    (
        &["session", "--max-lines", "3", "--max-line", "8"],
        0,
        THREE,
        "",
    ),
    (&["session", "--max-line", "4294967295"], 0, THREE, ""),
    (
        &["session", "--max-line", "4294967296"],
        6,
        "",
        "bad words\n",
    ),
    (&["session", "--max-line", "08"], 6, "", "bad words\n"),
    (&["session", "--max-line", "-1"], 6, "", "bad words\n"),
    (&["session", "--max-line", ""], 6, "", "bad words\n"),
    (&["session", "--max-line"], 6, "", "bad words\n"),
    (
        &["session", "--max-line", "8", "--max-line", "8"],
        6,
        "",
        "bad words\n",
    ),
    (&["session", "--max-bytes", "8"], 6, "", "bad words\n"),
    (&["session", "session"], 6, "", "bad words\n"),
    (&["--max-line", "8"], 6, "", "bad words\n"),
    (&[""], 6, "", "bad words\n"),
];

#[test]
fn arguments_and_fault_lines(rt: HostRuntime) -> Result<(), Fail> {
    let mut disk = disk_of(rt.alloc(), None)?;
    for (words, status, replies, line) in &ROWS {
        let run = program(
            rt.alloc(),
            words,
            b"snapshot\nsnapshot\nsnapshot\n",
            &mut disk,
        )?;
        assert_eq!(rt; run.status, *status, "{words:?}");
        assert_eq!(rt; run.replies.bytes(), replies.as_bytes(), "{words:?}");
        assert_eq!(rt; run.faults.bytes(), line.as_bytes(), "{words:?}");
    }
    Ok(())
}

// A program that answers out of memory to every input would end with 5 here.
#[test]
fn always_out_of_memory(rt: HostRuntime) -> Result<(), Fail> {
    let mut disk = disk_of(rt.alloc(), None)?;
    let run = program(rt.alloc(), &[], b"map\t0\t/w/a\t=61\n", &mut disk)?;
    assert_eq!(rt; run.status, 0);
    assert_eq!(rt; run.replies.bytes(), b"ok\t3\n".as_slice());
    Ok(())
}

#[test]
fn statuses_without_a_session(rt: HostRuntime) -> Result<(), Fail> {
    let mut faults = sink(rt.alloc());
    assert_eq!(rt; out_of_memory(&mut faults), 5);
    assert_eq!(rt; faults.bytes(), b"out of memory\n".as_slice());
    let mut faults = sink(rt.alloc());
    assert_eq!(rt; bad_words(&mut faults), 6);
    assert_eq!(rt; faults.bytes(), b"bad words\n".as_slice());
    Ok(())
}

#[test]
fn faults_have_texts(rt: HostRuntime) -> Result<(), Fail> {
    let rows = [
        (SessionFault::ReadFault, "read fault"),
        (SessionFault::WriteFault, "write fault"),
        (SessionFault::BadLine(7), "bad line 7"),
        (SessionFault::Full, "too many lines"),
        (SessionFault::OutOfMemory, "out of memory"),
    ];
    for (fault, text) in rows {
        let printed = format!(in rt.alloc(); "{fault}")?;
        assert_eq!(rt; printed.as_str(), text);
    }
    Ok(())
}
