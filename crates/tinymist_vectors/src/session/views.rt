//! Sessions that take views and read them.
use crate::session::both::{Row, rows_hold};
use std::test::Fail;
use tinymist_plain::{map_and_read, no_line, two_views};

/// Over a disk without files.
static ROWS: [Row; 12] = [
    ("no line, no reply", "", ""),
    (
        "a mapped file is read in a view by a last line without LF",
        "map\t0\t/w/a.typ\t=6869\nsnapshot\nread\t1\t/w/a.typ",
        "ok\t3\nview\t1\nbytes\t6869\n",
    ),
    (
        "two views of a file with an edit between",
        "map\t0\t/w/a.typ\t=6f6c64\nsnapshot\nmap\t0\t/w/a.typ\t=6e6577\nsnapshot\nread\t1\t/w/a.typ\nread\t2\t/w/a.typ\nread\t3\t/w/a.typ\n",
        "ok\t3\nview\t1\nok\t4\nview\t2\nbytes\t6f6c64\nbytes\t6e6577\nerr\tview\n",
    ),
    (
        "a view is read after later edits, twice",
        "map\t0\t/a\t=61\nsnapshot\nmap\t0\t/a\t=62\nmap\t0\t/b\t=63\nread\t1\t/a\nread\t1\t/b\nread\t1\t/a\nsnapshot\nread\t2\t/a\nread\t2\t/b\n",
        "ok\t3\nview\t1\nok\t4\nok\t5\nbytes\t61\nfail\tnot-found\nbytes\t61\nview\t2\nbytes\t62\nbytes\t63\n",
    ),
    (
        "a path below a file is another path",
        "map\t0\t/w\t=61\nmap\t0\t/w/a\t=62\nsnapshot\nread\t1\t/w\nread\t1\t/w/a\nread\t1\t/w/a/b\n",
        "ok\t3\nok\t4\nview\t1\nbytes\t61\nbytes\t62\nfail\tnot-found\n",
    ),
    (
        "paths that are prefixes of one another",
        "map\t0\t/w\t=61\nmap\t0\t/w/a\t=62\nmap\t0\t/wa\t=63\nsnapshot\nread\t1\t/w\nread\t1\t/w/a\nread\t1\t/w/a/b\nread\t1\t/wa\n",
        "ok\t3\nok\t4\nok\t5\nview\t1\nbytes\t61\nbytes\t62\nfail\tnot-found\nbytes\t63\n",
    ),
    (
        "a view that there is not comes before an id that there is not",
        "snapshot\nread\t1\t/\nread\t0\t/a\nread\t18446744073709551615\t/a\n",
        "view\t1\nerr\tid\nerr\tview\nerr\tview\n",
    ),
    (
        "the live state is no view to read",
        "snapshot\nread\t0\t/a\nread\t2\t/a\nread\t18446744073709551615\t/a\nread\t0\t/\nread\t1\t/\n",
        "view\t1\nerr\tview\nerr\tview\nerr\tview\nerr\tview\nerr\tid\n",
    ),
    (
        "each view is edited alone",
        "map\t0\t/a\t=61\nsnapshot\nsnapshot\nclear\t1\nmap\t2\t/b\t=62\npaths\t0\npaths\t1\npaths\t2\nread\t1\t/a\nread\t2\t/a\nunmap\t2\t/a\npaths\t2\n",
        "ok\t3\nview\t1\nview\t2\nok\t4\nok\t4\npaths\t/a\npaths\npaths\t/a\t/b\nfail\tnot-found\nbytes\t61\nok\t5\npaths\t/b\n",
    ),
    (
        "edits of a view leave the live state and the other views",
        "map\t0\t/a\t=61\nsnapshot\nsnapshot\nmap\t1\t/a\t=62\nmap\t1\t/b\t=63\nread\t1\t/a\nread\t2\t/a\npaths\t1\npaths\t0\nunmap\t1\t/a\nread\t1\t/a\nclear\t2\npaths\t2\nread\t2\t/a\nclear\t1\npaths\t1\nmap\t0\t/a\t=61\n",
        "ok\t3\nview\t1\nview\t2\nok\t4\nok\t5\nbytes\t62\nbytes\t61\npaths\t/a\t/b\npaths\t/a\nok\t6\nfail\tnot-found\nok\t4\npaths\nfail\tnot-found\nok\t7\npaths\nok\t3\n",
    ),
    (
        "views that there are not",
        "map\t1\t/a\t=61\nunmap\t1\t/a\nclear\t1\npaths\t1\nsnapshot\nclear\t2\n",
        "err\tview\nerr\tview\nerr\tview\nerr\tview\nview\t1\nerr\tview\n",
    ),
    (
        "a view past the last one",
        "map\t1\t/a\t=61\nunmap\t1\t/a\nclear\t1\npaths\t1\nsnapshot\nmap\t2\t/a\t=61\nunmap\t18446744073709551615\t/a\nclear\t2\npaths\t2\npaths\t1\n",
        "err\tview\nerr\tview\nerr\tview\nerr\tview\nview\t1\nerr\tview\nerr\tview\nerr\tview\nerr\tview\npaths\n",
    ),
];

/// Over a disk that has `a` at `/w/a.typ` alone.
static OVER_A_FILE: [Row; 2] = [
    (
        "the disk is read where no layer decides",
        "snapshot\nread\t1\t/w/a.typ\nread\t1\t/w\n",
        "view\t1\nbytes\t61\nfail\tnot-found\n",
    ),
    (
        "the overlay of one view is not that of another",
        "snapshot\nmap\t0\t/w/a.typ\t=62\nsnapshot\nread\t2\t/w/a.typ\nread\t1\t/w/a.typ\n",
        "view\t1\nok\t3\nview\t2\nbytes\t62\nbytes\t61\n",
    ),
];

#[test]
fn views(rt: HostRuntime) -> Result<(), Fail> {
    rows_hold(&rt, None, &ROWS)
}

#[test]
fn views_over_a_file(rt: HostRuntime) -> Result<(), Fail> {
    rows_hold(&rt, Some("/w/a.typ"), &OVER_A_FILE)
}

// The replies that clauses of the plain program say of three sessions.
#[test]
fn sessions_worked_by_the_definition(rt: HostRuntime) -> Result<(), Fail> {
    for worked in [no_line(), map_and_read(), two_views()] {
        rows_hold(
            &rt,
            None,
            &[("as its clauses say", worked.input, worked.replies)],
        )?;
    }
    Ok(())
}
