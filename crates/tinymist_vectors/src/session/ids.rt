//! Sessions that name ids.
use crate::session::both::{Row, rows_hold};
use std::test::Fail;

/// Over a disk without files.
static ROWS: [Row; 4] = [
    (
        "a mapped id hides the path below it",
        "map-id\t0\t/w/a\t!not-found\nmap-id\t0\t/w/a\t!not-found\nmap\t0\t/w/a\t=61\nsnapshot\nread\t1\t/w/a\nunmap\t0\t/w/a\nunmap-id\t0\t/w/a\nunmap\t0\t/w/a\n",
        "ok\t3\nok\t3\nok\t4\nview\t1\nfail\tnot-found\nok\t5\nok\t6\nok\t7\n",
    ),
    (
        "the two ids that are always there, and ids that there are not",
        "path\t0\t#1\npath\t0\t#2\npath\t0\t#3\npath\t0\t#0\npath\t0\t/\npath\t1\t#9\nmap-id\t1\t#9\t=61\nmap-id\t0\t#9\t=61\nunmap-id\t1\t/\nunmap-id\t0\t/\nread\t0\t#9\nids\t1\nrootless\t/\npath\t0\t#3\n",
        "rootless\t/__detached.typ\nrootless\t/__main__.typ\nerr\tid\nerr\tid\nerr\tid\nerr\tview\nerr\tview\nerr\tid\nerr\tview\nerr\tid\nerr\tview\nerr\tview\nid\t#3\nrootless\t/\n",
    ),
    (
        "a file without a workspace has an id of its own",
        "rootless\t/n.typ\nmap-id\t0\t#3\t=61\nsnapshot\nread\t1\t#3\npath\t1\t#3\nunmap-id\t0\t#3\nsnapshot\nread\t2\t#3\nread\t2\t#4\npath\t2\t/w/a.typ\n",
        "id\t#3\nok\t3\nview\t1\nbytes\t61\nrootless\t/n.typ\nok\t4\nview\t2\nfail\taccess-denied\nerr\tid\npath\t/w/a.typ\n",
    ),
    (
        "ids are listed by tag, then by path",
        "rootless\t/n\nrootless\t/n\nmap-id\t0\t#4\t=34\nmap-id\t0\t/w/b\t=62\nmap-id\t0\t#2\t=32\nmap-id\t0\t/w/a\t=61\nmap-id\t0\t/v/z\t=7a\nids\t0\nsnapshot\nread\t1\t#3\nmap-id\t1\t#3\t=33\nread\t1\t#3\nids\t0\nclear\t0\nids\t0\nids\t1\n",
        "id\t#3\nid\t#4\nok\t3\nok\t4\nok\t5\nok\t6\nok\t7\nids\t#2\t#4\t/v/z\t/w/a\t/w/b\nview\t1\nfail\taccess-denied\nok\t8\nbytes\t33\nids\t#2\t#4\t/v/z\t/w/a\t/w/b\nok\t8\nids\nids\t#2\t#3\t#4\t/v/z\t/w/a\t/w/b\n",
    ),
];

/// Over a disk that has `a` at `/w/a.typ` alone.
static OVER_A_FILE: [Row; 1] = [(
    "the overlay by id comes before the overlay by path",
    "notify\t+/w/a.typ\t=62\nmap\t0\t/w/a.typ\t=63\nmap-id\t0\t/w/a.typ\t=64\nids\t0\nsnapshot\nread\t1\t/w/a.typ\nunmap-id\t0\t/w/a.typ\nunmap-id\t0\t/w/a.typ\nsnapshot\nread\t2\t/w/a.typ\npaths\t0\nclear\t0\nclear\t0\nsnapshot\nread\t3\t/w/a.typ\n",
    "ok\t3\nok\t4\nok\t5\nids\t/w/a.typ\nview\t1\nbytes\t64\nok\t6\nok\t6\nview\t2\nbytes\t63\npaths\t/w/a.typ\nok\t7\nok\t7\nview\t3\nbytes\t62\n",
)];

#[test]
fn ids(rt: HostRuntime) -> Result<(), Fail> {
    rows_hold(&rt, None, &ROWS)
}

#[test]
fn ids_over_a_file(rt: HostRuntime) -> Result<(), Fail> {
    rows_hold(&rt, Some("/w/a.typ"), &OVER_A_FILE)
}
