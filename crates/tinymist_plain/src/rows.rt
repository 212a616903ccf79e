//! Worked sessions, as the definition answers them over a disk without files.
ghost use Rattle.std.specs.Prelude.{◌≡◌, [], codes};
ghost use Rattle.tinymist_plain.specs.Worked.{IsWorked};

/// An input, and the replies to it under the default limits over a disk without files. Each of its lines is good.
#[derive(Clone, Copy, Debug)]
pub struct WorkedSession {
    /// The lines.
    pub input: &'static str,
    /// The reply lines.
    pub replies: &'static str,
}

/// No line.
#[tactic(auto, using(crate::proofs::Replies::no_lines))]
pub fn no_line() -> WorkedSession
    ensures input { result.input.now ≡ [] }
    ensures replies { result.replies.now ≡ [] }
    ensures worked { IsWorked result.input.now result.replies.now }
{
    WorkedSession {
        input: "",
        replies: "",
    }
}

/// A file that is mapped, and read in a snapshot by a last line without LF.
pub fn map_and_read() -> WorkedSession
    ensures input { result.input.now ≡ codes "map\t0\t/w/a.typ\t=6869\nsnapshot\nread\t1\t/w/a.typ" }
    ensures replies { result.replies.now ≡ codes "ok\t3\nview\t1\nbytes\t6869\n" }
    ensures worked { IsWorked result.input.now result.replies.now }
{
    WorkedSession {
        input: "map\t0\t/w/a.typ\t=6869\nsnapshot\nread\t1\t/w/a.typ",
        replies: "ok\t3\nview\t1\nbytes\t6869\n",
    }
}

/// Two views of a file with an edit between, and a view that there isn't.
pub fn two_views() -> WorkedSession
    ensures input { result.input.now ≡ codes "map\t0\t/w/a.typ\t=6f6c64\nsnapshot\nmap\t0\t/w/a.typ\t=6e6577\nsnapshot\nread\t1\t/w/a.typ\nread\t2\t/w/a.typ\nread\t3\t/w/a.typ\n" }
    ensures replies { result.replies.now ≡ codes "ok\t3\nview\t1\nok\t4\nview\t2\nbytes\t6f6c64\nbytes\t6e6577\nerr\tview\n" }
    ensures worked { IsWorked result.input.now result.replies.now }
{
    WorkedSession {
        input: "map\t0\t/w/a.typ\t=6f6c64\nsnapshot\nmap\t0\t/w/a.typ\t=6e6577\nsnapshot\nread\t1\t/w/a.typ\nread\t2\t/w/a.typ\nread\t3\t/w/a.typ\n",
        replies: "ok\t3\nview\t1\nok\t4\nview\t2\nbytes\t6f6c64\nbytes\t6e6577\nerr\tview\n",
    }
}
