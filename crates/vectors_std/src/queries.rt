//! That queries keep what was computed, which no clause says, and that calls succeed.
use std::test::Fail;
use tinymist_std::*;

#[test]
fn queries_keep_their_result(rt: HostRuntime) -> Result<(), Fail> {
    let query: QueryRef<u8, &str, u8> = QueryRef::with_context(rt.alloc(), 5);
    let mut note = query.note();
    assert!(rt; query.get_uninitialized(&mut note).is_none());
    let answer = query.compute_with_context(|ctx| Ok(*ctx), &mut note);
    assert!(rt; matches!(answer, Ok(5)));
    let mut other = query.note();
    assert!(rt; matches!(query.compute(|| Err("late"), &mut other), Ok(5)));
    assert!(rt; matches!(query.get_uninitialized(&mut query.note()), Some(Ok(5))));
    Ok(())
}

#[test]
fn queries_keep_their_error(rt: HostRuntime) -> Result<(), Fail> {
    let query: QueryRef<u8, &str> = QueryRef::with_context(rt.alloc(), ());
    let mut note = query.note();
    let first = query.compute(|| Err("first"), &mut note);
    assert!(rt; matches!(first, Err(QueryFault::Query(&"first"))));
    let again = query.compute(|| Ok(1), &mut note);
    assert!(rt; matches!(again, Err(QueryFault::Query(&"first"))));
    Ok(())
}

#[test]
fn queries_of_a_value_run_nothing(rt: HostRuntime) -> Result<(), Fail> {
    let query: QueryRef<u8, &str> = QueryRef::with_value(rt.alloc(), 7);
    let mut note = query.note();
    assert!(rt; matches!(query.compute(|| Err("run"), &mut note), Ok(7)));
    assert!(rt; matches!(query.get_uninitialized(&mut note), Some(Ok(7))));
    Ok(())
}

#[test]
fn query_faults_have_texts(rt: HostRuntime) -> Result<(), Fail> {
    let alloc = rt.alloc();
    let text = QueryFault::Query(&"first").to_string(alloc)?;
    assert_eq!(rt; text.as_str(), "first");
    let text = QueryFault::<u8>::OutOfMemory.to_string(alloc)?;
    assert_eq!(rt; text.as_str(), "out of memory");
    Ok(())
}
