//! Sources that give pieces or fail, and sinks that take pieces, stop or fail.
ghost use Rattle.std.specs.Prelude.{◌≡◌};
ghost use Rattle.session_lines.specs.Memory.{are_positive};

use crate::disk::disk_of;
use crate::session::both::{Run, sink};
use std::alloc::Global;
use std::test::Fail;
use tinymist_session::{LineSource, MemorySink, MemorySource, ReadStep, run_program};

const MAP_AND_READ: &str = "map\t0\t/w/a.typ\t=6869\nsnapshot\nread\t1\t/w/a.typ";

fn all_positive(sizes: &[usize]) -> bool
    ensures { result ≡ are_positive sizes.now }
{
    sizes.iter().all(|size| *size > 0)
}

/// A source of these bytes, in pieces of these sizes. A size of 0 is a fault of the test.
fn source_of(alloc: Global, input: &[u8], sizes: Vec<usize>) -> Result<MemorySource, Fail> {
    if !all_positive(&sizes) {
        return Err(Fail::new("a size of 0"));
    }
    Ok(MemorySource::new(input.to_vec(alloc)?, sizes, Vec::new(alloc)))
}

/// The program over this source and into this sink, without files.
fn run(alloc: Global, source: MemorySource, replies: MemorySink) -> Result<Run, Fail> {
    let mut source = source;
    let mut replies = replies;
    let mut faults = sink(alloc);
    let mut disk = disk_of(alloc, None)?;
    let status = run_program(
        alloc,
        &[],
        &mut source,
        &mut replies,
        &mut faults,
        &mut disk,
    );
    Ok(Run {
        status,
        replies,
        faults,
    })
}

#[test]
fn lines_in_pieces(rt: HostRuntime) -> Result<(), Fail> {
    let sizes = vec![in rt.alloc(); 1, 1, 2, 30, 1, 3]?;
    let source = source_of(rt.alloc(), MAP_AND_READ.as_bytes(), sizes)?;
    let run = run(rt.alloc(), source, sink(rt.alloc()))?;
    assert_eq!(rt; run.status, 0);
    assert_eq!(rt;
        run.replies.bytes(),
        b"ok\t3\nview\t1\nbytes\t6869\n".as_slice()
    );
    Ok(())
}

// The sink takes three bytes, and then nothing: it is asked for nothing more.
#[test]
fn a_sink_that_stops(rt: HostRuntime) -> Result<(), Fail> {
    let source = source_of(rt.alloc(), MAP_AND_READ.as_bytes(), Vec::new(rt.alloc()))?;
    let most = vec![in rt.alloc(); 3, 0]?;
    let stops = MemorySink::new(Vec::new(rt.alloc()), most, Vec::new(rt.alloc()));
    let run = run(rt.alloc(), source, stops)?;
    assert_eq!(rt; run.status, 2);
    assert_eq!(rt; run.replies.bytes(), b"ok\t".as_slice());
    assert_eq!(rt; run.faults.bytes(), b"write fault\n".as_slice());
    assert!(rt; !run.replies.is_flushed());
    Ok(())
}

// The source gives the first line, and then fails.
#[test]
fn a_source_that_fails(rt: HostRuntime) -> Result<(), Fail> {
    let input = MAP_AND_READ.as_bytes().to_vec(rt.alloc())?;
    let sizes = vec![in rt.alloc(); 21]?;
    let fails = vec![in rt.alloc(); 2]?;
    let source = MemorySource::new(input, sizes, fails);
    let run = run(rt.alloc(), source, sink(rt.alloc()))?;
    assert_eq!(rt; run.status, 1);
    assert_eq!(rt; run.replies.bytes(), b"ok\t3\n".as_slice());
    assert_eq!(rt; run.faults.bytes(), b"read fault\n".as_slice());
    Ok(())
}

// Replies to the lines of a piece are written before the next read, which fails.
#[test]
fn replies_before_a_read_fault(rt: HostRuntime) -> Result<(), Fail> {
    let input = b"snapshot\nsnapshot\nsnap".to_vec(rt.alloc())?;
    let fails = vec![in rt.alloc(); 2]?;
    let source = MemorySource::new(input, Vec::new(rt.alloc()), fails);
    let run = run(rt.alloc(), source, sink(rt.alloc()))?;
    assert_eq!(rt; run.status, 1);
    assert_eq!(rt; run.replies.bytes(), b"view\t1\nview\t2\n".as_slice());
    assert!(rt; run.replies.is_flushed());
    Ok(())
}

/// How many bytes one more read gives.
fn left_of(source: &mut MemorySource) -> usize {
    let mut buffer = [0; 64];
    match source.read(&mut buffer) {
        ReadStep::Got(n) => n,
        ReadStep::End | ReadStep::Failed => 0,
    }
}

/// Runs the program over this input in pieces of nine bytes, and gives its status and what is left of the input.
fn left_after(alloc: Global, input: &str) -> Result<(u8, usize), Fail> {
    let sizes = vec![in alloc; 9, 9]?;
    let mut source = source_of(alloc, input.as_bytes(), sizes)?;
    let mut replies = sink(alloc);
    let mut faults = sink(alloc);
    let mut disk = disk_of(alloc, None)?;
    let status = run_program(
        alloc,
        &[],
        &mut source,
        &mut replies,
        &mut faults,
        &mut disk,
    );
    Ok((status, left_of(&mut source)))
}

// Good input is read to its end, and a bad line stops the reading.
#[test]
fn how_far_the_input_is_read(rt: HostRuntime) -> Result<(), Fail> {
    assert_eq!(rt; left_after(rt.alloc(), "snapshot\nsnapshot\n")?, (0, 0));
    assert_eq!(rt; left_after(rt.alloc(), "nonsense\nsnapshot\n")?, (3, 9));
    Ok(())
}

// The sink of faults takes three bytes, and then nothing: the status stays.
#[test]
fn a_fault_line_that_stops(rt: HostRuntime) -> Result<(), Fail> {
    let mut source = source_of(rt.alloc(), b"snapshots\n", Vec::new(rt.alloc()))?;
    let mut replies = sink(rt.alloc());
    let most = vec![in rt.alloc(); 3, 0]?;
    let mut faults = MemorySink::new(Vec::new(rt.alloc()), most, Vec::new(rt.alloc()));
    let mut disk = disk_of(rt.alloc(), None)?;
    let status = run_program(
        rt.alloc(),
        &[],
        &mut source,
        &mut replies,
        &mut faults,
        &mut disk,
    );
    assert_eq!(rt; status, 3);
    assert_eq!(rt; faults.bytes(), b"bad".as_slice());
    Ok(())
}

/// A session with one line longer than a piece, and its replies: `large` bytes are mapped and read.
fn long_session(alloc: Global, large: usize) -> Result<(Vec<u8>, Vec<u8>), Fail> {
    let mut input = b"map\t0\t/w/a\t=61\nmap\t0\t/w/b\t=".to_vec(alloc)?;
    let mut replies = b"ok\t3\nok\t4\nview\t1\nbytes\t".to_vec(alloc)?;
    for _byte in 0..large {
        input.extend_from_slice(b"7a")?;
        replies.extend_from_slice(b"7a")?;
    }
    input.extend_from_slice(b"\nsnapshot\nread\t1\t/w/b\nread\t1\t/w/a")?;
    replies.extend_from_slice(b"\nbytes\t61\n")?;
    Ok((input, replies))
}

/// The program over pieces of this size, into a sink that takes so many bytes a call.
fn in_pieces(alloc: Global, input: &[u8], piece: usize, most: usize) -> Result<Run, Fail> {
    let sizes = vec![in alloc; piece; input.len()]?;
    let source = source_of(alloc, input, sizes)?;
    let takes = vec![in alloc; most; input.len()]?;
    run(
        alloc,
        source,
        MemorySink::new(Vec::new(alloc), takes, Vec::new(alloc)),
    )
}

/// Sizes of pieces, and how many bytes the sink takes a call.
static PIECES: [(usize, usize); 8] = [
    (1, 1),
    (2, 3),
    (7, 100_000),
    (65_535, 1),
    (65_536, 3),
    (65_537, 100_000),
    (80_044, 3),
    (1, 100_000),
];

#[test]
fn pieces_of_any_size(rt: HostRuntime) -> Result<(), Fail> {
    let (input, replies) = long_session(rt.alloc(), 40_000)?;
    for (piece, most) in PIECES {
        let run = in_pieces(rt.alloc(), &input, piece, most)?;
        assert_eq!(rt; run.status, 0, "{piece} {most}");
        assert!(rt; run.replies.bytes() == replies.as_slice(), "{piece} {most}");
    }
    Ok(())
}
