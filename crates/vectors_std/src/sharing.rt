//! Maps and queries that threads share.
use std::alloc::Global;
use std::process::Abort;
use std::sync::Wait;
use std::test::Fail;
use std::thread;
use std::thread::Threads;
use tinymist_std::{Fingerprint, FingerprintMap, FxDashMap, QueryRef};
use ty_path::OutOfMemory;

/// Puts the keys from one up to another into the map.
fn fill<R: Wait>(rt: &R, map: &FxDashMap<u64, u64>, from: u64, to: u64) -> Result<(), OutOfMemory> {
    for key in from..to {
        let _absent = map.insert(rt, key, key)?;
    }
    Ok(())
}

/// Both halves of the keys, each from a thread of its own.
fn fill_both<R: Threads + Wait + Sync>(
    rt: &R,
    map: &FxDashMap<u64, u64>,
) -> Result<(), OutOfMemory> {
    let (first, second) = thread::join(rt, || fill(rt, map, 0, 50), || fill(rt, map, 50, 100));
    first?;
    second
}

#[test]
fn threads_fill_one_dash_map(rt: HostRuntime) -> Result<(), Fail> {
    let map: FxDashMap<u64, u64> = FxDashMap::new(rt.alloc(), 4)?;
    fill_both(&rt, &map)?;
    for key in 0..100u64 {
        expect_kept(&rt, key, map.remove(&rt, &key));
    }
    Ok(())
}

/// The key was kept as its own value.
fn expect_kept(rt: &impl Abort, key: u64, value: Option<u64>) {
    assert_eq!(rt; value, Some(key));
}

/// Puts the fingerprints from one up to another into the map.
fn file<R: Wait>(rt: &R, map: &FingerprintMap<u64>, from: u64, to: u64) -> Result<(), OutOfMemory> {
    for low in from..to {
        put(rt, map, Fingerprint::from_pair(low, 0), low)?;
    }
    Ok(())
}

fn put<R: Wait>(
    rt: &R,
    map: &FingerprintMap<u64>,
    fingerprint: Fingerprint,
    value: u64,
) -> Result<(), OutOfMemory> {
    let _absent = map.shard(fingerprint).write(rt).insert(fingerprint, value)?;
    Ok(())
}

fn file_both<R: Threads + Wait + Sync>(
    rt: &R,
    map: &FingerprintMap<u64>,
) -> Result<(), OutOfMemory> {
    let (first, second) = thread::join(rt, || file(rt, map, 0, 50), || file(rt, map, 50, 100));
    first?;
    second
}

#[test]
fn threads_fill_one_fingerprint_map(rt: HostRuntime) -> Result<(), Fail> {
    let map: FingerprintMap<u64> = FingerprintMap::new(rt.alloc(), 4)?;
    file_both(&rt, &map)?;
    let items = map.into_items()?;
    assert_eq!(rt; items.len(), 100);
    for (number, (_, value)) in items.iter().enumerate() {
        expect_kept(&rt, number as u64, Some(*value));
    }
    Ok(())
}

/// What the query answers to one who asks first with that value.
fn asked(query: &QueryRef<u64, &'static str>, value: u64) -> Option<u64> {
    let mut note = query.note();
    match query.compute(|| Ok(value), &mut note) {
        Ok(answer) => Some(*answer),
        Err(_) => None,
    }
}

#[test]
fn threads_have_one_answer(rt: HostRuntime) -> Result<(), Fail> {
    let query: QueryRef<u64, &'static str> = QueryRef::with_context(rt.alloc(), ());
    let query = &query;
    let (first, second) = thread::join(&rt, || asked(query, 1), || asked(query, 2));
    assert!(rt; first.is_some());
    assert_eq!(rt; first, second);
    Ok(())
}
