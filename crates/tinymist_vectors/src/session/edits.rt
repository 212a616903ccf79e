//! Sessions that edit: maps, unmaps, clears and change sets.
use crate::session::both::{Row, rows_hold};
use std::test::Fail;

/// Over a disk without files.
static ROWS: [Row; 15] = [
    (
        "an equal edit leaves the revision, and an edit back to an older content raises it",
        "map\t0\t/a\t=61\nmap\t0\t/a\t=61\nmap\t0\t/a\t=62\nmap\t0\t/a\t=61\nmap\t0\t/b\t=\nmap\t0\t/a\t=61\n",
        "ok\t3\nok\t3\nok\t4\nok\t5\nok\t6\nok\t6\n",
    ),
    (
        "an empty content is another content",
        "map\t0\t/w/a.typ\t=61\nmap\t0\t/w/a.typ\t=61\nmap\t0\t/w/a.typ\t=\n",
        "ok\t3\nok\t3\nok\t4\n",
    ),
    (
        "a told error is compared like a content, and an unmap always raises",
        "map\t0\t/a\t!not-found\nmap\t0\t/a\t!not-found\nunmap\t0\t/a\nunmap\t0\t/a\npaths\t0\nclear\t0\n",
        "ok\t3\nok\t3\nok\t4\nok\t5\npaths\nok\t5\n",
    ),
    (
        "each word for an error is read back",
        "map\t0\t/a\t!not-found\nmap\t0\t/b\t!access-denied\nmap\t0\t/c\t!is-directory\nmap\t0\t/d\t!not-source\nmap\t0\t/e\t!invalid-utf8\nmap\t0\t/f\t!other\nsnapshot\nread\t1\t/a\nread\t1\t/b\nread\t1\t/c\nread\t1\t/d\nread\t1\t/e\nread\t1\t/f\nnotify\t+/f\t!other\nmap\t0\t/a\t!not-found\n",
        "ok\t3\nok\t4\nok\t5\nok\t6\nok\t7\nok\t8\nview\t1\nfail\tnot-found\nfail\taccess-denied\nfail\tis-directory\nfail\tnot-source\nfail\tinvalid-utf8\nfail\tother\nok\t9\nok\t9\n",
    ),
    (
        "errors are mapped in the live state and in a view",
        "map\t0\t/b\t!other\nmap\t0\t/a\t!not-source\nsnapshot\nread\t1\t/a\nread\t1\t/b\nmap\t1\t/a\t!is-directory\nmap\t1\t/b\t!access-denied\nread\t1\t/a\nread\t1\t/b\nmap\t1\t/a\t!invalid-utf8\nread\t1\t/a\npaths\t0\npaths\t1\n",
        "ok\t3\nok\t4\nview\t1\nfail\tnot-source\nfail\tother\nok\t5\nok\t6\nfail\tis-directory\nfail\taccess-denied\nok\t7\nfail\tinvalid-utf8\npaths\t/a\t/b\npaths\t/a\t/b\n",
    ),
    (
        "an unmap drops its path, mapped or not, each time",
        "unmap\t0\t/a\nunmap\t0\t/a\nclear\t0\nmap\t0\t/a\t=61\nclear\t0\nclear\t0\n",
        "ok\t3\nok\t4\nok\t4\nok\t5\nok\t6\nok\t6\n",
    ),
    (
        "paths ascend by their bytes, each once, and an unmapped one goes",
        "paths\t0\nmap\t0\t/b\t=62\nmap\t0\t/a/b\t=61\nmap\t0\t/a\t=61\nmap\t0\t/b\t=63\nmap\t0\t/ab\t=\npaths\t0\nunmap\t0\t/a\npaths\t0\n",
        "paths\nok\t3\nok\t4\nok\t5\nok\t6\nok\t7\npaths\t/a\t/a/b\t/ab\t/b\nok\t8\npaths\t/a/b\t/ab\t/b\n",
    ),
    (
        "an equal change set leaves the revision, and so does an empty one",
        "notify\t+/w/a.typ\t=61\t+/w/b.typ\t=62\nnotify\t+/w/a.typ\t=63\t+/w/b.typ\t=62\nsnapshot\nread\t1\t/w/a.typ\nnotify\nnotify\t-/w/b.typ\t+/w/b.typ\t=62\nsnapshot\nread\t2\t/w/b.typ\n",
        "ok\t3\nok\t4\nview\t1\nbytes\t63\nok\t4\nok\t5\nview\t2\nbytes\t62\n",
    ),
    (
        "removes come before inserts, and the last insert of a path counts",
        "notify\t+/a\t=61\t+/a\t=62\t-/a\nsnapshot\nread\t1\t/a\n",
        "ok\t3\nview\t1\nbytes\t62\n",
    ),
    (
        "removes come first wherever they stand",
        "notify\t+/a\t=61\t-/a\t-/a\t+/a\t=62\nsnapshot\nread\t1\t/a\nnotify\t-/b\t-/b\nnotify\t-/b\nnotify\t+/a\t=62\t+/a\t=62\n",
        "ok\t3\nview\t1\nbytes\t62\nok\t4\nok\t5\nok\t5\n",
    ),
    (
        "told files stay when the overlay is cleared",
        "notify\t+/a\t=61\nmap\t0\t/a\t=62\nsnapshot\nread\t1\t/a\nclear\t0\nsnapshot\nread\t2\t/a\nread\t1\t/a\n",
        "ok\t3\nok\t4\nview\t1\nbytes\t62\nok\t5\nview\t2\nbytes\t61\nbytes\t62\n",
    ),
    (
        "digits are read in either case and written in lower case",
        "map\t0\t/a\t=AbcD\nsnapshot\nread\t1\t/a",
        "ok\t3\nview\t1\nbytes\tabcd\n",
    ),
    (
        "an empty content is read as one",
        "map\t0\t/a\t=\nsnapshot\nread\t1\t/a",
        "ok\t3\nview\t1\nbytes\t\n",
    ),
    (
        "a path beyond ASCII",
        "map\t0\t/é\t=61\nsnapshot\nread\t1\t/é",
        "ok\t3\nview\t1\nbytes\t61\n",
    ),
    (
        "the root can be mapped, and names no file",
        "map\t0\t/\t=61\nsnapshot\nread\t1\t/\n",
        "ok\t3\nview\t1\nerr\tid\n",
    ),
];

/// Over a disk that has `a` at `/w/a.typ` alone.
static OVER_A_FILE: [Row; 3] = [
    (
        "a file that is told to be missing, and then is dropped",
        "notify\t+/w/a.typ\t!not-found\nsnapshot\nread\t1\t/w/a.typ\nnotify\t-/w/a.typ\nsnapshot\nread\t2\t/w/a.typ\n",
        "ok\t3\nview\t1\nfail\tnot-found\nok\t4\nview\t2\nbytes\t61\n",
    ),
    (
        "the overlay comes before what is told, and that before the disk",
        "notify\t+/w/a.typ\t=62\nmap\t0\t/w/a.typ\t=63\nsnapshot\nread\t1\t/w/a.typ\npaths\t0\nclear\t0\nclear\t0\nsnapshot\nread\t2\t/w/a.typ\nnotify\t-/w/a.typ\nsnapshot\nread\t3\t/w/a.typ\n",
        "ok\t3\nok\t4\nview\t1\nbytes\t63\npaths\t/w/a.typ\nok\t5\nok\t5\nview\t2\nbytes\t62\nok\t6\nview\t3\nbytes\t61\n",
    ),
    (
        "a view keeps its overlay after the live one is cleared",
        "notify\t+/w/a.typ\t=62\nmap\t0\t/w/a.typ\t=63\nsnapshot\nread\t1\t/w/a.typ\npaths\t0\nclear\t0\nclear\t0\nsnapshot\nread\t2\t/w/a.typ\nread\t1\t/w/a.typ\n",
        "ok\t3\nok\t4\nview\t1\nbytes\t63\npaths\t/w/a.typ\nok\t5\nok\t5\nview\t2\nbytes\t62\nbytes\t63\n",
    ),
];

#[test]
fn edits(rt: HostRuntime) -> Result<(), Fail> {
    rows_hold(&rt, None, &ROWS)
}

#[test]
fn edits_over_a_file(rt: HostRuntime) -> Result<(), Fail> {
    rows_hold(&rt, Some("/w/a.typ"), &OVER_A_FILE)
}
