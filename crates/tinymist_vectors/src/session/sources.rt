//! Sessions that read sources and places in them.
use crate::session::both::{Row, rows_hold};
use std::test::Fail;

/// Over a disk without files.
static ROWS: [Row; 5] = [
    (
        "at most one byte order mark goes, and bytes without a text have none",
        "map\t0\t/w/a.typ\t=efbbbfefbbbf61\nmap\t0\t/w/b.typ\t=ff\nsnapshot\nsource\t1\t/w/a.typ\nread\t1\t/w/b.typ\nsource\t1\t/w/b.typ\n",
        "ok\t3\nok\t4\nview\t1\ntext\tefbbbf61\nbytes\tff\nfail\tinvalid-utf8\n",
    ),
    (
        "lines end at LF, CR, both together and the other separators; columns in characters and in UTF-16",
        "map\t0\t/w/t\t=610d0a62e280a8c3a9f09d849e\nsnapshot\nline\t1\t/w/t\t0\nline\t1\t/w/t\t2\nline\t1\t/w/t\t3\nline\t1\t/w/t\t4\nline\t1\t/w/t\t5\nline\t1\t/w/t\t7\nline\t1\t/w/t\t8\nline\t1\t/w/t\t9\nline\t1\t/w/t\t13\nline\t1\t/w/t\t14\n",
        "ok\t3\nview\t1\nat\t0\t0\t0\nat\t0\t2\t2\nat\t1\t0\t0\nat\t1\t1\t1\nerr\toffset\nat\t2\t0\t0\nerr\toffset\nat\t2\t1\t1\nat\t2\t2\t3\nerr\toffset\n",
    ),
    (
        "the detached file has an empty source",
        "snapshot\nsource\t1\t#1\nread\t1\t#1\nread\t1\t/\nmap\t1\t/w/t\t=61\nline\t1\t/w/t\t9\nline\t1\t/w/t\t1\nline\t1\t/w/t\t18446744073709551615\n",
        "view\t1\ntext\t\nfail\taccess-denied\nerr\tid\nok\t3\nerr\toffset\nat\t0\t1\t1\nerr\toffset\n",
    ),
    (
        "an id overlay does not change the detached source",
        "snapshot\nmap-id\t1\t#1\t=61\nread\t1\t#1\nsource\t1\t#1\nline\t1\t#1\t0\nline\t1\t#1\t1\nsource\t1\t#2\nline\t1\t#2\t9\nline\t1\t/a\t9\n",
        "view\t1\nok\t3\nbytes\t61\ntext\t\nat\t0\t0\t0\nerr\toffset\nfail\taccess-denied\nfail\taccess-denied\nfail\tnot-found\n",
    ),
    (
        "the view comes before the id, and the id before the offset",
        "source\t1\t#9\nline\t0\t#9\t0\nsnapshot\nsource\t1\t#9\nline\t1\t/\t0\nmap\t1\t/w/e\t=c3a9\nline\t1\t/w/e\t1\nline\t1\t/w/e\t2\nmap\t1\t/w/e\t=efbbbf\nsource\t1\t/w/e\nline\t1\t/w/e\t0\nmap\t1\t/w/e\t!other\nline\t1\t/w/e\t7\n",
        "err\tview\nerr\tview\nview\t1\nerr\tid\nerr\tid\nok\t3\nerr\toffset\nat\t0\t1\t1\nok\t4\ntext\t\nat\t0\t0\t0\nok\t5\nfail\tother\n",
    ),
];

#[test]
fn sources(rt: HostRuntime) -> Result<(), Fail> {
    rows_hold(&rt, None, &ROWS)
}
