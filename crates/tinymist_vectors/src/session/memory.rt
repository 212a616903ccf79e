//! The steps of a source and a sink in memory.
use std::test::Fail;
use tinymist_session::{
    ByteSink, FlushStep, LineSource, MemorySink, MemorySource, ReadStep, WriteStep,
};

// Each piece has the next size, the third call fails, and past the sizes a piece is what is left.
#[test]
fn pieces_of_a_source(rt: HostRuntime) -> Result<(), Fail> {
    let sizes = vec![in rt.alloc(); 2, 1]?;
    let fails = vec![in rt.alloc(); 3]?;
    let mut source = MemorySource::new(b"abcdef".to_vec(rt.alloc())?, sizes, fails);
    let mut buf = *b"........";
    assert_eq!(rt; source.read(&mut buf), ReadStep::Got(2));
    assert_eq!(rt; source.read(&mut buf), ReadStep::Got(1));
    assert_eq!(rt; source.read(&mut buf), ReadStep::Failed);
    assert_eq!(rt; source.read(&mut buf), ReadStep::Got(3));
    assert_eq!(rt; source.read(&mut buf), ReadStep::End);
    assert_eq!(rt; buf.as_slice(), b"def.....".as_slice());
    Ok(())
}

// Each write takes the next number of bytes, the second call fails, and past the numbers all is taken.
#[test]
fn takes_of_a_sink(rt: HostRuntime) -> Result<(), Fail> {
    let most = vec![in rt.alloc(); 1, 0]?;
    let fails = vec![in rt.alloc(); 2]?;
    let mut sink = MemorySink::new(Vec::new(rt.alloc()), most, fails);
    assert_eq!(rt; sink.write(b"xyz"), WriteStep::Took(1));
    assert_eq!(rt; sink.flush(), FlushStep::Failed);
    assert_eq!(rt; sink.write(b"yz"), WriteStep::Took(0));
    assert_eq!(rt; sink.write(b"yz"), WriteStep::Took(2));
    assert!(rt; !sink.is_flushed());
    assert_eq!(rt; sink.flush(), FlushStep::Done);
    assert_eq!(rt; sink.bytes(), b"xyz".as_slice());
    Ok(())
}
