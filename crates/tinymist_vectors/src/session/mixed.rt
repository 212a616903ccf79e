//! Short sessions that mix all commands: the plain program and the real one answer them alike.
use crate::session::both::alike;
use std::test::Fail;

/// Sessions of good lines, with told errors, repeated paths, ids with tags, and words that name nothing.
static MIXED: [&str; 40] = [
    "map\t0\t/w/a.typ\t=61\nsnapshot\nread\t1\t/w/a.typ\nsource\t1\t/w/a.typ\nline\t1\t/w/a.typ\t1\npath\t0\t/w/a.typ\nclean\t0\t3\t/w/a.typ\nids\t0\npaths\t0\n",
    "snapshot\nread\t1\t#1\nsource\t1\t#1\nline\t1\t#1\t0\nline\t1\t#1\t1\nread\t1\t#2\nsource\t1\t#2\npath\t1\t#1\npath\t0\t#2\n",
    "map-id\t0\t#1\t=6869\nsnapshot\nread\t1\t#1\nsource\t1\t#1\nline\t1\t#1\t0\nline\t1\t#1\t2\nids\t0\nids\t1\nunmap-id\t0\t#1\nids\t0\n",
    "map-id\t0\t#2\t=c3a9\nsnapshot\nread\t1\t#2\nsource\t1\t#2\nline\t1\t#2\t1\nline\t1\t#2\t2\nclear\t0\nsnapshot\nsource\t2\t#2\nsource\t1\t#2\n",
    "rootless\t/n.typ\nrootless\t/n.typ\nmap-id\t0\t#3\t=61\nmap-id\t0\t#4\t=62\nids\t0\nsnapshot\nread\t1\t#3\nread\t1\t#4\nread\t1\t#5\npath\t1\t#4\nclean\t0\t3\t#3\nclean\t0\t3\t#4\n",
    "rootless\t/a/b/c\npath\t0\t#3\nmap-id\t0\t#3\t!not-found\nsnapshot\nread\t1\t#3\nsource\t1\t#3\nline\t1\t#3\t0\nmap-id\t0\t#3\t!not-found\nmap-id\t0\t#3\t!other\n",
    "map-id\t0\t/w/a.typ\t!not-found\nsnapshot\nread\t1\t/w/a.typ\nunmap-id\t0\t/w/a.typ\nsnapshot\nread\t2\t/w/a.typ\nread\t1\t/w/a.typ\nmap\t0\t/w/a.typ\t!not-found\nsnapshot\nread\t3\t/w/a.typ\n",
    "map-id\t0\t/w/b\t!access-denied\nmap-id\t0\t/w/c\t!is-directory\nmap-id\t0\t/w/d\t!not-source\nmap-id\t0\t/w/e\t!invalid-utf8\nmap-id\t0\t/w/f\t!other\nids\t0\nsnapshot\nread\t1\t/w/b\nread\t1\t/w/c\nsource\t1\t/w/d\nsource\t1\t/w/e\nline\t1\t/w/f\t0\n",
    "map\t0\t/w/b\t=62\nmap-id\t0\t/w/b\t=63\nsnapshot\nread\t1\t/w/b\nunmap-id\t0\t/w/b\nsnapshot\nread\t2\t/w/b\nunmap\t0\t/w/b\nsnapshot\nread\t3\t/w/b\nread\t2\t/w/b\nread\t1\t/w/b\n",
    "notify\t+/w/b\t=61\nmap\t0\t/w/b\t=62\nmap-id\t0\t/w/b\t=63\nsnapshot\nclear\t0\nsnapshot\nnotify\t-/w/b\nsnapshot\nsource\t1\t/w/b\nsource\t2\t/w/b\nsource\t3\t/w/b\nids\t1\nids\t2\npaths\t1\npaths\t2\n",
    "map-id\t0\t/w/b\t=61\nmap-id\t0\t/w/a\t=61\nmap-id\t0\t/v/z\t=61\nmap-id\t0\t/w/a\t=62\nids\t0\nunmap-id\t0\t/w/a\nids\t0\nunmap-id\t0\t/w/a\nclear\t0\nids\t0\nclear\t0\n",
    "map-id\t0\t#1\t=61\nmap-id\t0\t#2\t=62\nmap-id\t0\t/a\t=63\nmap-id\t0\t/b/a\t=64\nrootless\t/a\nmap-id\t0\t#3\t=65\nids\t0\nsnapshot\nids\t1\nclear\t1\nids\t1\nids\t0\n",
    "map-id\t1\t/a\t=61\nunmap-id\t1\t/a\nids\t1\npath\t1\t/a\nclean\t1\t2\t/a\nsource\t1\t/a\nline\t1\t/a\t0\nread\t1\t/a\npaths\t1\n",
    "map-id\t1\t#9\t=61\nunmap-id\t1\t#9\npath\t1\t#9\nclean\t1\t2\t#9\nsource\t1\t#9\nline\t1\t#9\t0\nread\t1\t#9\nsnapshot\nmap-id\t1\t#9\t=61\nunmap-id\t1\t#9\npath\t1\t#9\nclean\t1\t2\t#9\nclean\t1\t1\t#9\nsource\t1\t#9\nline\t1\t#9\t0\nread\t1\t#9\n",
    "map-id\t0\t#0\t=61\nunmap-id\t0\t#0\npath\t0\t#0\nclean\t0\t2\t#0\nsnapshot\nread\t1\t#0\nsource\t1\t#0\nline\t1\t#0\t0\nmap-id\t0\t#18446744073709551615\t=61\npath\t0\t#18446744073709551615\n",
    "map-id\t0\t/\t=61\nunmap-id\t0\t/\npath\t0\t/\nclean\t0\t2\t/\nsnapshot\nread\t1\t/\nsource\t1\t/\nline\t1\t/\t0\nmap\t0\t/\t=61\nunmap\t0\t/\n",
    "snapshot\nmap-id\t1\t/w/a.typ\t=62\nread\t1\t/w/a.typ\nsnapshot\nread\t2\t/w/a.typ\nids\t0\nids\t1\nids\t2\nunmap-id\t1\t/w/a.typ\nread\t1\t/w/a.typ\nmap\t1\t/w/a.typ\t=63\nread\t1\t/w/a.typ\nsource\t2\t/w/a.typ\n",
    "map\t0\t/w/t\t=610d0a62e280a8c3a9f09d849e\nsnapshot\nline\t1\t/w/t\t0\nline\t1\t/w/t\t3\nline\t1\t/w/t\t5\nline\t1\t/w/t\t7\nline\t1\t/w/t\t13\nline\t1\t/w/t\t14\nline\t1\t/w/t\t18446744073709551615\nsource\t1\t/w/t\n",
    "map\t0\t/w/t\t=\nsnapshot\nread\t1\t/w/t\nsource\t1\t/w/t\nline\t1\t/w/t\t0\nline\t1\t/w/t\t1\nmap-id\t1\t/w/t\t=0a\nline\t1\t/w/t\t0\nline\t1\t/w/t\t1\nline\t1\t/w/t\t2\n",
    "map\t0\t/w/t\t=efbbbf\nmap\t0\t/w/u\t=efbbbfefbbbf\nmap\t0\t/w/v\t=efbb\nmap\t0\t/w/x\t=ff\nsnapshot\nsource\t1\t/w/t\nsource\t1\t/w/u\nsource\t1\t/w/v\nsource\t1\t/w/x\nread\t1\t/w/v\nline\t1\t/w/u\t0\nline\t1\t/w/u\t3\nline\t1\t/w/v\t0\n",
    "map\t0\t/w/t\t=0d0a0d0a\nsnapshot\nline\t1\t/w/t\t0\nline\t1\t/w/t\t1\nline\t1\t/w/t\t2\nline\t1\t/w/t\t3\nline\t1\t/w/t\t4\nline\t1\t/w/t\t5\n",
    "map\t0\t/w/t\t=f09f9880610ac3a9\nsnapshot\nline\t1\t/w/t\t4\nline\t1\t/w/t\t5\nline\t1\t/w/t\t6\nline\t1\t/w/t\t7\nline\t1\t/w/t\t8\nline\t1\t/w/t\t2\n",
    "notify\t+/w/t\t=610a62\t+/w/u\t!other\t-/w/a.typ\nsnapshot\nline\t1\t/w/t\t2\nline\t1\t/w/u\t0\nsource\t1\t/w/a.typ\nline\t1\t/w/a.typ\t1\nclean\t0\t2\t/w/t\t/w/u\nclean\t0\t3\t/w/t\t/w/u\t/w/a.typ\n",
    "snapshot\nsource\t1\t/w/a.typ\nline\t1\t/w/a.typ\t0\nline\t1\t/w/a.typ\t1\nline\t1\t/w/a.typ\t2\nsource\t1\t/w/b.typ\nline\t1\t/w/b.typ\t0\n",
    "path\t0\t/w/a.typ\npath\t0\t/a\npath\t0\t/w/a/b/c.typ\nsnapshot\npath\t1\t/w/a.typ\npath\t2\t/w/a.typ\nrootless\t/w/a.typ\npath\t0\t#3\npath\t1\t#3\npath\t1\t#4\n",
    "rootless\t/a\nsnapshot\nrootless\t/b\nsnapshot\nmap-id\t1\t#3\t=61\nmap-id\t1\t#4\t=62\nmap-id\t2\t#4\t=63\nread\t1\t#3\nread\t2\t#3\nread\t1\t#4\nread\t2\t#4\nids\t1\nids\t2\nids\t0\n",
    "unmap-id\t0\t/w/a.typ\nunmap-id\t0\t#1\nclear\t0\nmap-id\t0\t/w/a.typ\t=61\nmap-id\t0\t/w/a.typ\t=61\nunmap-id\t0\t/w/a.typ\nmap-id\t0\t/w/a.typ\t=61\nclean\t0\t3\t/w/a.typ\nclean\t0\t5\t/w/a.typ\n",
    "map\t0\t/b\t=62\nmap-id\t0\t/a\t=61\npaths\t0\nids\t0\nclear\t0\npaths\t0\nids\t0\nmap-id\t0\t/a\t=61\nclear\t0\nsnapshot\npaths\t1\nids\t1\nread\t1\t/a\nread\t1\t/b\n",
    "map\t0\t/w/é\t=61\nmap-id\t0\t/w/é\t=62\npaths\t0\nids\t0\npath\t0\t/w/é\nsnapshot\nread\t1\t/w/é\nsource\t1\t/w/é\nrootless\t/é\npath\t1\t#3\n",
    "map-id\t0\t/w/a\t=61\nmap-id\t0\t/w/a/b\t=62\nmap-id\t0\t/wa\t=63\nmap\t0\t/w/a/b\t=64\nids\t0\npaths\t0\nsnapshot\nread\t1\t/w/a\nread\t1\t/w/a/b\nread\t1\t/wa\nread\t1\t/w\n",
    "notify\t+/a\t=61\t+/a\t=62\t-/a\t-/b\t+/b\t!other\nsnapshot\nread\t1\t/a\nread\t1\t/b\nsource\t1\t/b\nnotify\t+/b\t!other\nnotify\t-/b\t+/b\t!other\nclean\t0\t3\t/a\nclean\t0\t3\t/b\n",
    "notify\nnotify\t-/a\nnotify\t-/a\t-/a\nsnapshot\nclean\t0\t2\t/a\nclean\t1\t2\t/a\nnotify\t+/a\t=\nsnapshot\nread\t2\t/a\nsource\t2\t/a\nline\t2\t/a\t0\n",
    "map\t0\t/a\t=61\nunmap\t0\t/a\nmap\t0\t/a\t=61\nsnapshot\nunmap\t1\t/a\nunmap\t1\t/a\nread\t1\t/a\nread\t0\t/a\nclean\t1\t5\t/a\nclean\t1\t6\t/a\nclean\t1\t7\t/a\nclean\t1\t8\t/a\n",
    "snapshot\nsnapshot\nsnapshot\nmap\t3\t/a\t=63\nmap-id\t2\t/a\t=62\nnotify\t+/a\t=61\nread\t1\t/a\nread\t2\t/a\nread\t3\t/a\nsnapshot\nread\t4\t/a\nclean\t3\t2\t/a\nclean\t2\t2\t/a\nclean\t1\t2\t/a\nclean\t0\t2\t/a\n",
    "rootless\t/x\nrootless\t/y\nrootless\t/z\nmap-id\t0\t#5\t=63\nmap-id\t0\t#4\t=62\nmap-id\t0\t#3\t=61\nids\t0\nunmap-id\t0\t#4\nids\t0\nsnapshot\nread\t1\t#3\nread\t1\t#4\nread\t1\t#5\nclean\t1\t2\t#3\t#4\t#5\n",
    "map-id\t0\t#1\t=\nmap-id\t0\t#2\t=\nmap-id\t0\t/z\t=\nmap-id\t0\t/y/z\t=\nids\t0\npaths\t0\nclear\t0\nids\t0\nmap\t0\t/z\t=\npaths\t0\nids\t0\n",
    "map\t0\t/w/a.typ\t!invalid-utf8\nsnapshot\nsource\t1\t/w/a.typ\nmap-id\t1\t/w/a.typ\t=ff\nsource\t1\t/w/a.typ\nread\t1\t/w/a.typ\nmap-id\t1\t/w/a.typ\t=61\nsource\t1\t/w/a.typ\nline\t1\t/w/a.typ\t1\n",
    "clean\t0\t2\nclean\t0\t3\nclean\t0\t1\nclean\t0\t0\nclean\t1\t2\nsnapshot\nclean\t1\t2\nclean\t1\t3\nmap\t0\t/a\t=61\nclean\t0\t3\nclean\t0\t4\nclean\t0\t2\nclean\t1\t3\nclean\t0\t18446744073709551615\n",
    "map\t0\t/w/a.typ\t=6869\nmap\t0\t/w/a.typ\t=6869\nmap\t0\t/w/a.typ\t=686921\nnotify\t+/w/a.typ\t=61\nsnapshot\nunmap\t1\t/w/a.typ\nsource\t1\t/w/a.typ\nclear\t1\nsource\t1\t/w/a.typ\nnotify\t-/w/a.typ\nsnapshot\nsource\t2\t/w/a.typ\nunmap\t2\t/w/a.typ\nsource\t2\t/w/a.typ\n",
    "snapshot\nline\t1\t#3\t0\nrootless\t/q\nline\t1\t#3\t0\nmap-id\t1\t#3\t=610a\nline\t1\t#3\t2\nline\t1\t#3\t3\nsource\t1\t#3\npath\t1\t#3\npath\t2\t#3\nunmap-id\t2\t#3\nmap-id\t2\t#3\t=61\nclean\t1\t2\t#3\t/w/a.typ\nclean\t1\t3\t#3\t/w/a.typ\n",
];

#[test]
fn sessions_of_all_commands(rt: HostRuntime) -> Result<(), Fail> {
    alike(&rt, &MIXED)
}
