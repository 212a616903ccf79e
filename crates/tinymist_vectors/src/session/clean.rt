//! Sessions that ask which ids are clean.
use crate::session::both::{Row, rows_hold};
use std::test::Fail;

/// Over a disk without files.
static ROWS: [Row; 6] = [
    (
        "an equal edit is clean, and revisions are checked against the current one",
        "map\t0\t/w/a.typ\t=61\nmap\t0\t/w/a.typ\t=61\nclean\t0\t3\t/w/a.typ\nclean\t0\t4\t/w/a.typ\nclean\t0\t1\nclean\t0\t3\n",
        "ok\t3\nok\t3\nclean\nerr\trevision\nerr\trevision\nclean\n",
    ),
    (
        "an edit back to an older content is dirty",
        "map\t0\t/w/a.typ\t=61\nmap\t0\t/w/a.typ\t=62\nmap\t0\t/w/a.typ\t=61\nclean\t0\t3\t/w/a.typ\nclean\t0\t5\t/w/a.typ\n",
        "ok\t3\nok\t4\nok\t5\ndirty\nclean\n",
    ),
    (
        "a path that a change set tells again equal is clean",
        "notify\t+/w/a.typ\t=61\t+/w/b.typ\t=62\nnotify\t+/w/a.typ\t=63\t+/w/b.typ\t=62\nclean\t0\t3\t/w/a.typ\nclean\t0\t3\t/w/b.typ\nsnapshot\nread\t1\t/w/a.typ\nnotify\nnotify\t-/w/b.typ\t+/w/b.typ\t=62\nclean\t0\t4\t/w/b.typ\n",
        "ok\t3\nok\t4\ndirty\nclean\nview\t1\nbytes\t63\nok\t4\nok\t5\ndirty\n",
    ),
    (
        "a path that no edit names is clean, in each view by its own edits",
        "map\t0\t/w/a.typ\t=61\nsnapshot\nread\t1\t/w/a.typ\nmap\t0\t/w/a.typ\t=62\nsnapshot\nread\t2\t/w/a.typ\nclean\t0\t3\t/w/a.typ\nclean\t0\t3\t/w/q.typ\nclean\t1\t3\t/w/a.typ\nclean\t2\t3\t/w/a.typ\nclean\t1\t4\t/w/a.typ\n",
        "ok\t3\nview\t1\nbytes\t61\nok\t4\nview\t2\nbytes\t62\ndirty\nclean\nclean\ndirty\nerr\trevision\n",
    ),
    (
        "ids without a path",
        "rootless\t/n\nmap-id\t0\t#3\t=61\nmap-id\t0\t#3\t=61\nclean\t0\t3\t#3\nclean\t0\t2\t#3\nclean\t0\t2\t#1\t/a\nclean\t0\t2\t#1\t#3\t/a\nunmap-id\t0\t#3\nclean\t0\t3\t#3\nunmap\t0\t/a\nclean\t0\t4\t#3\nclean\t0\t4\t/a\n",
        "id\t#3\nok\t3\nok\t3\nclean\ndirty\nclean\ndirty\nok\t4\ndirty\nok\t5\nclean\ndirty\n",
    ),
    (
        "the view comes before the id, and the id before the revision",
        "clean\t1\t9\t#9\nclean\t0\t9\t#9\nclean\t0\t9\t/a\nclean\t0\t18446744073709551615\nclean\t0\t2\t/\nclean\t0\t0\nclean\t0\t2\n",
        "err\tview\nerr\tid\nerr\trevision\nerr\trevision\nerr\tid\nerr\trevision\nclean\n",
    ),
];

/// Over a disk that has `a` at `/w/a.typ` alone.
static OVER_A_FILE: [Row; 1] = [(
    "a drop is dirty, though nothing was told",
    "snapshot\nread\t1\t/w/a.typ\nnotify\t-/w/a.typ\nclean\t0\t2\t/w/a.typ\nclean\t0\t3\t/w/a.typ\n",
    "view\t1\nbytes\t61\nok\t3\ndirty\nclean\n",
)];

#[test]
fn clean(rt: HostRuntime) -> Result<(), Fail> {
    rows_hold(&rt, None, &ROWS)
}

#[test]
fn clean_over_a_file(rt: HostRuntime) -> Result<(), Fail> {
    rows_hold(&rt, Some("/w/a.typ"), &OVER_A_FILE)
}
