//! Short sessions that ask for clean ids: the plain program compares whole versions, and the real one keeps revisions.
use crate::session::both::alike;
use std::test::Fail;

/// Sessions of good lines with drops, edits back to an older value, id overlays, views edited after their snapshot, and revisions from the first to past the current one.
static CLEANS: [&str; 40] = [
    "clean\t0\t2\t/a\nclean\t0\t3\t/a\nclean\t0\t1\t/a\nclean\t0\t2\nclean\t0\t2\t/a\t/a\t/a\n",
    "map\t0\t/a\t=61\nclean\t0\t2\t/a\nclean\t0\t3\t/a\nclean\t0\t4\t/a\nclean\t0\t2\t/b\nclean\t0\t3\t/b\nclean\t0\t2\t/b\t/a\nclean\t0\t3\t/b\t/a\n",
    "map\t0\t/a\t=61\nmap\t0\t/a\t=62\nmap\t0\t/a\t=61\nclean\t0\t2\t/a\nclean\t0\t3\t/a\nclean\t0\t4\t/a\nclean\t0\t5\t/a\nclean\t0\t6\t/a\n",
    "map\t0\t/a\t=61\nmap\t0\t/b\t=61\nmap\t0\t/a\t=62\nmap\t0\t/a\t=61\nmap\t0\t/b\t=61\nclean\t0\t3\t/a\nclean\t0\t4\t/b\nclean\t0\t3\t/b\nclean\t0\t6\t/a\nclean\t0\t6\t/a\t/b\n",
    "map\t0\t/a\t=61\nunmap\t0\t/a\nmap\t0\t/a\t=61\nclean\t0\t3\t/a\nclean\t0\t4\t/a\nclean\t0\t5\t/a\nclean\t0\t2\t/a\nclean\t0\t2\t/b\n",
    "unmap\t0\t/a\nclean\t0\t2\t/a\nclean\t0\t3\t/a\nunmap\t0\t/a\nclean\t0\t3\t/a\nclean\t0\t4\t/a\nunmap\t0\t/b\nclean\t0\t4\t/a\nclean\t0\t4\t/b\nclean\t0\t5\t/b\n",
    "map\t0\t/a\t=61\nmap\t0\t/b\t=62\nclear\t0\nclean\t0\t2\t/a\nclean\t0\t4\t/a\nclean\t0\t4\t/b\nclean\t0\t5\t/a\t/b\nclean\t0\t2\t/c\nclear\t0\nclean\t0\t5\t/a\t/b\n",
    "map\t0\t/a\t=61\nclear\t0\nmap\t0\t/a\t=61\nclear\t0\nclean\t0\t3\t/a\nclean\t0\t4\t/a\nclean\t0\t5\t/a\nclean\t0\t6\t/a\nclean\t0\t7\t/a\n",
    "notify\t+/a\t=61\nnotify\t+/a\t=62\nnotify\t+/a\t=61\nclean\t0\t3\t/a\nclean\t0\t4\t/a\nclean\t0\t5\t/a\nclean\t0\t2\t/a\nclean\t0\t2\t/b\nnotify\nclean\t0\t5\t/a\n",
    "notify\t-/a\nclean\t0\t2\t/a\nclean\t0\t3\t/a\nnotify\t-/a\nclean\t0\t3\t/a\nclean\t0\t4\t/a\nnotify\t-/a\t+/a\t=61\nclean\t0\t4\t/a\nclean\t0\t5\t/a\nclean\t0\t6\t/a\n",
    "notify\t+/a\t=61\t+/b\t=62\nnotify\t-/b\t+/b\t=62\nclean\t0\t3\t/a\nclean\t0\t3\t/b\nclean\t0\t4\t/a\t/b\nnotify\t+/a\t=61\t+/b\t=62\nclean\t0\t4\t/a\t/b\nnotify\t-/c\nclean\t0\t4\t/a\t/b\nclean\t0\t4\t/c\n",
    "notify\t+/a\t=61\nmap\t0\t/a\t=61\nclean\t0\t3\t/a\nmap\t0\t/a\t=62\nunmap\t0\t/a\nclean\t0\t2\t/a\nclean\t0\t3\t/a\nclean\t0\t5\t/a\nclean\t0\t6\t/a\nnotify\t-/a\nclean\t0\t6\t/a\n",
    "map-id\t0\t/a\t=61\nclean\t0\t2\t/a\nclean\t0\t3\t/a\nmap-id\t0\t/a\t=62\nmap-id\t0\t/a\t=61\nclean\t0\t3\t/a\nclean\t0\t4\t/a\nclean\t0\t5\t/a\nunmap-id\t0\t/a\nclean\t0\t5\t/a\nclean\t0\t6\t/a\nclean\t0\t2\t/a\n",
    "map-id\t0\t/a\t=61\nunmap-id\t0\t/a\nmap-id\t0\t/a\t=61\nunmap-id\t0\t/a\nclean\t0\t2\t/a\nclean\t0\t3\t/a\nclean\t0\t4\t/a\nclean\t0\t5\t/a\nclean\t0\t6\t/a\nunmap-id\t0\t/a\nclean\t0\t6\t/a\nclean\t0\t7\t/a\n",
    "map-id\t0\t/a\t=61\nmap\t0\t/a\t=62\nclean\t0\t3\t/a\nclean\t0\t4\t/a\nunmap-id\t0\t/a\nclean\t0\t4\t/a\nclean\t0\t5\t/a\nunmap\t0\t/a\nclean\t0\t5\t/a\nclean\t0\t6\t/a\n",
    "map-id\t0\t#1\t=61\nclean\t0\t2\t#1\nclean\t0\t3\t#1\nclean\t0\t2\t#2\nclean\t0\t2\t#3\nclear\t0\nclean\t0\t3\t#1\nclean\t0\t4\t#1\nclean\t0\t2\t#1\t#2\nclear\t0\nclean\t0\t4\t#1\t#2\n",
    "rootless\t/n\nclean\t0\t2\t#3\nmap-id\t0\t#3\t=61\nclean\t0\t2\t#3\nclean\t0\t3\t#3\nmap\t0\t/n\t=61\nclean\t0\t3\t#3\nclean\t0\t3\t/n\nnotify\t-/n\nclean\t0\t4\t#3\nunmap-id\t0\t#3\nclean\t0\t5\t#3\nclean\t0\t6\t#3\n",
    "rootless\t/n\nrootless\t/n\nmap-id\t0\t#3\t=61\nmap-id\t0\t#4\t=61\nclean\t0\t2\t#3\nclean\t0\t3\t#3\nclean\t0\t3\t#4\nclean\t0\t4\t#3\t#4\nunmap-id\t0\t#4\nclean\t0\t4\t#3\nclean\t0\t4\t#4\nclean\t0\t4\t#5\n",
    "map\t0\t/a\t=61\nsnapshot\nclean\t1\t2\t/a\nclean\t1\t3\t/a\nclean\t1\t4\t/a\nmap\t0\t/a\t=62\nclean\t1\t3\t/a\nclean\t0\t3\t/a\nclean\t1\t4\t/a\nclean\t0\t4\t/a\n",
    "map\t0\t/a\t=61\nsnapshot\nmap\t1\t/a\t=62\nmap\t1\t/a\t=61\nclean\t1\t3\t/a\nclean\t1\t4\t/a\nclean\t1\t5\t/a\nclean\t0\t3\t/a\nclean\t0\t4\t/a\nmap\t0\t/b\t=61\nclean\t0\t3\t/a\nclean\t0\t4\t/b\n",
    "snapshot\nunmap\t1\t/a\nclean\t1\t2\t/a\nclean\t1\t3\t/a\nclean\t0\t2\t/a\nclean\t0\t3\t/a\nsnapshot\nclean\t2\t2\t/a\nunmap\t0\t/a\nclean\t0\t2\t/a\nclean\t2\t2\t/a\nclean\t2\t3\t/a\n",
    "unmap\t0\t/a\nsnapshot\nclear\t1\nclean\t1\t2\t/a\nclean\t1\t3\t/a\nunmap\t1\t/a\nclean\t1\t3\t/a\nclean\t1\t4\t/a\nclean\t0\t3\t/a\nclean\t0\t4\t/a\n",
    "map\t0\t/a\t=61\nmap\t0\t/b\t=62\nsnapshot\nclear\t1\nclean\t1\t4\t/a\nclean\t1\t5\t/a\nclean\t1\t4\t/c\nmap\t1\t/a\t=61\nclean\t1\t4\t/a\nclean\t1\t6\t/a\nclean\t0\t4\t/a\t/b\n",
    "map-id\t0\t/a\t=61\nsnapshot\nunmap-id\t1\t/a\nclean\t1\t3\t/a\nclean\t1\t4\t/a\nmap-id\t1\t/a\t=61\nclean\t1\t3\t/a\nclean\t1\t4\t/a\nclean\t1\t5\t/a\nclean\t0\t3\t/a\nclean\t1\t2\t/a\n",
    "map\t0\t/a\t!not-found\nmap\t0\t/a\t!not-found\nclean\t0\t3\t/a\nmap\t0\t/a\t!other\nclean\t0\t3\t/a\nclean\t0\t4\t/a\nmap\t0\t/a\t!not-found\nclean\t0\t3\t/a\nclean\t0\t5\t/a\nunmap\t0\t/a\nclean\t0\t5\t/a\n",
    "map-id\t0\t/a\t!not-found\nmap-id\t0\t/a\t!not-found\nclean\t0\t3\t/a\nmap-id\t0\t/a\t!access-denied\nmap-id\t0\t/a\t!not-found\nclean\t0\t3\t/a\nclean\t0\t5\t/a\nclean\t0\t4\t/a\nclear\t0\nclean\t0\t5\t/a\nclean\t0\t6\t/a\n",
    "notify\t+/a\t!not-found\nnotify\t+/a\t!not-found\nclean\t0\t3\t/a\nnotify\t-/a\nclean\t0\t3\t/a\nclean\t0\t4\t/a\nnotify\t-/b\nclean\t0\t4\t/a\nnotify\t+/a\t!not-found\nclean\t0\t4\t/a\nclean\t0\t6\t/a\n",
    "map\t0\t/w/a\t=61\nmap\t0\t/w/a/b\t=62\nclean\t0\t3\t/w/a\nclean\t0\t3\t/w/a/b\nclean\t0\t2\t/w\nclean\t0\t2\t/w/a\t/w/a/b\nclean\t0\t4\t/w/a\t/w/a/b\nunmap\t0\t/w/a\nclean\t0\t4\t/w/a/b\nclean\t0\t4\t/w/a\n",
    "clean\t1\t2\t/a\nclean\t1\t1\t#9\nclean\t0\t1\t#9\nclean\t0\t9\t#9\nclean\t0\t9\t/\nclean\t0\t9\t/a\nsnapshot\nclean\t1\t9\t#9\nclean\t1\t9\t/a\nclean\t1\t0\t/a\nclean\t2\t2\t/a\n",
    "map\t0\t/a\t=61\nclean\t0\t2\t/a\t/\nclean\t0\t3\t/\t/a\nclean\t0\t3\t/a\t#9\nclean\t0\t3\t#9\t/a\nclean\t0\t3\t/a\t#1\t#2\nclean\t0\t4\t/a\t#9\nclean\t0\t18446744073709551615\t/a\n",
    "map\t0\t/a\t=\nclean\t0\t2\t/a\nmap\t0\t/a\t=\nclean\t0\t3\t/a\nmap-id\t0\t/a\t=\nclean\t0\t3\t/a\nclean\t0\t4\t/a\nclear\t0\nclean\t0\t4\t/a\nclean\t0\t5\t/a\nclean\t0\t2\t/b\n",
    "map\t0\t/a\t=61\nmap\t0\t/a\t=62\nsnapshot\nclean\t1\t3\t/a\nclean\t1\t4\t/a\nmap\t1\t/a\t=61\nclean\t1\t3\t/a\nclean\t1\t4\t/a\nclean\t1\t5\t/a\nsnapshot\nclean\t2\t3\t/a\nclean\t2\t4\t/a\nclean\t2\t5\t/a\n",
    "notify\t+/a\t=61\nsnapshot\nnotify\t+/a\t=62\nsnapshot\nnotify\t+/a\t=61\nclean\t1\t2\t/a\nclean\t1\t3\t/a\nclean\t2\t3\t/a\nclean\t2\t4\t/a\nclean\t0\t3\t/a\nclean\t0\t4\t/a\nclean\t0\t5\t/a\n",
    "notify\t+/a\t=61\nmap\t1\t/a\t=61\nsnapshot\nmap\t1\t/a\t=61\nunmap\t1\t/a\nclean\t1\t2\t/a\nclean\t1\t3\t/a\nclean\t1\t4\t/a\nclean\t1\t5\t/a\nclean\t0\t3\t/a\nclean\t1\t6\t/a\n",
    "unmap\t0\t/a\nunmap\t0\t/b\nunmap\t0\t/a\nclean\t0\t2\t/c\nclean\t0\t3\t/a\nclean\t0\t3\t/b\nclean\t0\t4\t/b\nclean\t0\t5\t/a\nclean\t0\t4\t/a\nclean\t0\t5\t/a\t/b\t/c\n",
    "map-id\t0\t#1\t=61\nmap-id\t0\t#2\t=62\nmap\t0\t/__detached.typ\t=63\nclean\t0\t3\t#1\nclean\t0\t4\t#2\nclean\t0\t4\t#1\t#2\nclean\t0\t2\t#1\nclean\t0\t2\t#2\nnotify\t-/__detached.typ\nclean\t0\t5\t#1\nclean\t0\t5\t/__detached.typ\n",
    "map\t0\t/a\t=61\nsnapshot\nmap\t0\t/a\t=62\nmap\t1\t/a\t=62\nclean\t0\t3\t/a\nclean\t1\t3\t/a\nsnapshot\nclean\t2\t3\t/a\nclean\t2\t4\t/a\nmap\t2\t/a\t=61\nclean\t2\t3\t/a\nclean\t2\t5\t/a\nclean\t1\t5\t/a\n",
    "map\t0\t/a\t=61\nmap\t0\t/b\t=61\nmap\t0\t/c\t=61\nmap\t0\t/b\t=62\nclean\t0\t2\t/a\t/b\t/c\nclean\t0\t3\t/a\nclean\t0\t4\t/b\nclean\t0\t5\t/c\nclean\t0\t5\t/b\nclean\t0\t6\t/a\t/b\t/c\nclean\t0\t5\t/a\t/c\nclean\t0\t5\t/c\t/a\n",
    "notify\t+/a\t=61\t+/b\t=61\t+/c\t=61\nnotify\t-/a\t-/c\nclean\t0\t3\t/a\nclean\t0\t3\t/b\nclean\t0\t3\t/c\nclean\t0\t4\t/a\t/b\t/c\nnotify\t+/a\t=61\t+/c\t=61\nclean\t0\t3\t/b\nclean\t0\t4\t/a\nclean\t0\t5\t/a\t/b\t/c\nread\t0\t/a\n",
    "rootless\t/n\nsnapshot\nmap-id\t1\t#3\t=61\nclean\t1\t2\t#3\nclean\t1\t3\t#3\nclean\t0\t2\t#3\nunmap-id\t1\t#3\nclean\t1\t2\t#3\nclean\t1\t3\t#3\nclean\t1\t4\t#3\nclean\t1\t4\t#3\t/n\t#1\t#2\nrootless\t/m\nclean\t1\t4\t#4\nclean\t0\t2\t#4\n",
];

#[test]
fn sessions_that_ask_for_clean_ids(rt: HostRuntime) -> Result<(), Fail> {
    alike(&rt, &CLEANS)
}
