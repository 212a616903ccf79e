//! The limits of a session: how long a line may be, and how many lines there may be.
use crate::disk::disk_of;
use crate::session::both::both_end;
use std::test::Fail;
use tinymist_plain::End;
use tinymist_session::Limits;

/// The longest line, the most lines, an input, its replies and its end.
static ROWS: [(u32, u32, &str, &str, End); 12] = [
    (
        8,
        3,
        "snapshot\nsnapshot\nsnapshot\n",
        "view\t1\nview\t2\nview\t3\n",
        End::Whole,
    ),
    (
        8,
        2,
        "snapshot\nsnapshot\nsnapshot\n",
        "view\t1\nview\t2\n",
        End::Over,
    ),
    (7, 3, "snapshot\nsnapshot\nsnapshot\n", "", End::Bad(1)),
    (7, 2, "snapshot\nsnapshot\nsnapshot\n", "", End::Bad(1)),
    (8, 0, "snapshot\nsnapshot\nsnapshot\n", "", End::Over),
    (7, 0, "snapshot\nsnapshot\nsnapshot\n", "", End::Over),
    (
        8,
        2,
        "snapshot\nsnapshot\n",
        "view\t1\nview\t2\n",
        End::Whole,
    ),
    (8, 1, "snapshot\n\n", "view\t1\n", End::Over),
    (
        8,
        2,
        "snapshot\nsnapshots\nsnapshot\n",
        "view\t1\n",
        End::Bad(2),
    ),
    (8, 2, "snapshot\nx", "view\t1\n", End::Bad(2)),
    (8, 0, "", "", End::Whole),
    (0, 1, "\n", "", End::Bad(1)),
];

#[test]
fn limits_of_lines(rt: HostRuntime) -> Result<(), Fail> {
    let mut disk = disk_of(rt.alloc(), None)?;
    for (max_line, max_lines, input, wanted, end) in ROWS {
        let limits = Limits {
            max_line,
            max_lines,
        };
        let replies = both_end(&rt, input.as_bytes(), limits, &mut disk, end)?;
        assert_eq!(rt; replies.as_slice(), wanted.as_bytes(), "{input:?}");
    }
    Ok(())
}
