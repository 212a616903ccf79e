//! Maps behind rows of locks.
use std::alloc::Global;
use std::process::Abort;
use std::sync::Wait;
use std::test::Fail;
use tinymist_std::{Fingerprint, FingerprintMap, FxDashMap};
use ty_path::OutOfMemory;

/// Puts each fingerprint into a new map of so many parts.
fn filled<R: Wait>(
    rt: &R,
    alloc: Global,
    parts: Parts,
    fingerprints: &[(u64, u64)],
) -> Result<FingerprintMap<u8>, OutOfMemory> {
    let map = empty(alloc, parts)?;
    for (low, high) in fingerprints {
        put(rt, &map, Fingerprint::from_pair(*low, *high))?;
    }
    Ok(map)
}

/// How many parts a map is asked for.
enum Parts {
    Three,
    Four,
}

fn empty(alloc: Global, parts: Parts) -> Result<FingerprintMap<u8>, OutOfMemory> {
    match parts {
        Parts::Three => FingerprintMap::new(alloc, 3),
        Parts::Four => FingerprintMap::new(alloc, 4),
    }
}

fn put<R: Wait>(
    rt: &R,
    map: &FingerprintMap<u8>,
    fingerprint: Fingerprint,
) -> Result<(), OutOfMemory> {
    let _absent = map.shard(fingerprint).write(rt).insert(fingerprint, 1)?;
    Ok(())
}

#[test]
fn fingerprint_maps_have_a_power_of_two_of_parts(rt: HostRuntime) -> Result<(), Fail> {
    let mut map = empty(rt.alloc(), Parts::Three)?;
    assert_eq!(rt; map.as_mut_slice().len(), 4);
    Ok(())
}

#[test]
fn fingerprint_maps_hold_entries(rt: HostRuntime) -> Result<(), Fail> {
    let map = filled(&rt, rt.alloc(), Parts::Three, &[(1, 2), (0, 9), (1, 1)])?;
    assert!(rt; map.contains_key(&rt, &Fingerprint::from_pair(1, 1)));
    assert!(rt; !map.contains_key(&rt, &Fingerprint::from_pair(5, 5)));
    let items = map.into_items()?;
    let wanted = [
        Fingerprint::from_pair(0, 9),
        Fingerprint::from_pair(1, 1),
        Fingerprint::from_pair(1, 2),
    ];
    assert_eq!(rt; items.len(), wanted.len());
    for (item, want) in items.iter().zip(&wanted) {
        assert!(rt; item.0 == *want);
    }
    Ok(())
}

/// Fingerprints, and of four parts the one in which each stands: only the low 32 bits count.
static FINGERPRINTS: [(u64, u64); 7] = [
    (0, 1),
    (5, 0),
    (2, 3),
    (7, 0),
    (0xffff_ffff, 1),
    (0x1_0000_0002, 0),
    (0x3_0000_0000, 7),
];

static PARTS: [usize; 7] = [0, 1, 2, 3, 3, 2, 0];

/// Whether each fingerprint stands in the part of that number exactly where the table says so.
fn expect_part(rt: &impl Abort, part: &mut tinymist_std::FingerprintMapShard<u8>, number: usize) {
    for ((low, high), place) in FINGERPRINTS.iter().zip(&PARTS) {
        let holds = part
            .get_mut()
            .contains_key(&Fingerprint::from_pair(*low, *high));
        assert!(rt; holds == (*place == number), "{low} in {number}");
    }
}

#[test]
fn fingerprints_stand_in_their_parts(rt: HostRuntime) -> Result<(), Fail> {
    let mut map = filled(&rt, rt.alloc(), Parts::Four, &FINGERPRINTS)?;
    for (number, part) in map.as_mut_slice().iter_mut().enumerate() {
        expect_part(&rt, part, number);
    }
    assert_eq!(rt; map.into_items()?.len(), FINGERPRINTS.len());
    Ok(())
}

#[test]
fn parts_have_numbers(rt: HostRuntime) -> Result<(), Fail> {
    let map = empty(rt.alloc(), Parts::Four)?;
    for ((low, high), place) in FINGERPRINTS.iter().zip(&PARTS) {
        assert_eq!(rt;
            map.shard_number(Fingerprint::from_pair(*low, *high)),
            *place
        );
    }
    Ok(())
}

#[test]
fn dash_maps_hold_entries(rt: HostRuntime) -> Result<(), Fail> {
    let map: FxDashMap<u64, u8> = FxDashMap::new(rt.alloc(), 5)?;
    assert_eq!(rt; map.insert(&rt, 1, 10)?, None);
    assert_eq!(rt; map.insert(&rt, 1, 11)?, Some(10));
    assert!(rt; map.contains_key(&rt, &1));
    assert_eq!(rt; map.remove(&rt, &1), Some(11));
    assert!(rt; !map.contains_key(&rt, &1));
    assert_eq!(rt; map.remove(&rt, &1), None);
    Ok(())
}

/// What a call does with a key, and what it answers.
#[derive(Clone, Copy)]
enum Step {
    Insert(u64, Option<u64>),
    Remove(Option<u64>),
    Holds(bool),
}

fn apply<R: Abort + Wait>(
    rt: &R,
    map: &FxDashMap<u64, u64>,
    key: u64,
    step: Step,
) -> Result<(), OutOfMemory> {
    match step {
        Step::Insert(value, want) => assert_eq!(rt; map.insert(rt, key, value)?, want),
        Step::Remove(want) => assert_eq!(rt; map.remove(rt, &key), want),
        Step::Holds(want) => assert_eq!(rt; map.contains_key(rt, &key), want),
    }
    Ok(())
}

#[test]
fn dash_maps_keep_their_keys_apart(rt: HostRuntime) -> Result<(), Fail> {
    let map: FxDashMap<u64, u64> = FxDashMap::new(rt.alloc(), 5)?;
    for key in 0..20u64 {
        apply(&rt, &map, key, Step::Insert(100 + key, None))?;
    }
    for key in 0..10u64 {
        apply(&rt, &map, key, Step::Remove(Some(100 + key)))?;
    }
    for key in 0..20u64 {
        apply(&rt, &map, key, Step::Holds(key >= 10))?;
    }
    for key in 10..20u64 {
        apply(&rt, &map, key, Step::Insert(key, Some(100 + key)))?;
    }
    Ok(())
}
