//! Maps from fingerprints behind a row of locks.
ghost use Rattle.std.specs.Prelude.{◌≡◌, ◌%◌, ◌^◌, ◌<◌, ◌++◌, Some, length, min, slice_get, IfOk, OnOk, IsPermutation};
ghost use Rattle.std.specs.List.{flat_map};
ghost use Rattle.std.specs.Borrow.{Array, Lends, sem};
ghost use Rattle.std.specs.Int.{IsNextPowerOfTwo};
ghost use Rattle.std.specs.List.Sorted.{IsSortedByKey};
ghost use Rattle.tinymist_std.specs.Fingerprint.{halves_cmp};

use crate::fingerprint::Fingerprint;
use crate::parts::{each_unlocked, holds, part_of};
use std::alloc::{AllocError, Global};
use std::collections::HashMap;
use std::hash::{BuildHasher, BuildHasherDefault, FoldHasher};
use std::sync::{RwLock, Wait};
use ty_path::OutOfMemory;

/// One part of a [`FingerprintMap`], behind a lock of its own.
pub type FingerprintMapShard<V> = RwLock<HashMap<Fingerprint, V>>;

/// A map from fingerprints whose entries stand in a row of parts, each behind a lock.
#[derive(Drop)]
pub struct FingerprintMap<V> {
    shards: Vec<FingerprintMapShard<V>>,
    ghost some: { 0 < length shards.items },
}

impl<V: Drop> FingerprintMap<V> {
    ghost use Rattle.tinymist_std.specs.FingerprintMap.{shard_row, shards_of, with_shards};
    ghost use Rattle.tinymist_std.specs.contracts.fingerprint_map.FingerprintMap.{the_row};

    /// An empty map of so many parts, or of the next power of two, but of 512 at most.
    pub fn new(alloc: Global, shards: u32) -> Result<FingerprintMap<V>, OutOfMemory>
        requires { 0 < shards }
        ensures { IfOk result (λ map. IsNextPowerOfTwo (min shards 512) (length (shards_of map))) }
    {
        let count = shards.min(512).next_power_of_two();
        let mut shards = Vec::with_capacity(alloc, count as usize)?;
        for _shard in 0..count {
            shards.push(RwLock::new(HashMap::new(alloc)))?;
        }
        Ok(FingerprintMap { shards })
    }

    /// The part in which the fingerprint stands: the one whose number is the low 32 bits modulo
    /// the count of parts.
    pub fn shard(&self, fg: Fingerprint) -> &FingerprintMapShard<V>
        ensures { slice_get (shards_of self.now) (fg.low % 2 ^ 32 % length (shards_of self.now))
            ≡ Some result.now }
    {
        part_of_fingerprint(self.shards.as_slice(), fg)
    }

    /// The number of that part.
    pub fn shard_number(&self, fg: Fingerprint) -> usize
        ensures { result ≡ fg.low % 2 ^ 32 % length (shards_of self.now) }
    {
        fg.lower32() as usize % self.shards.len()
    }

    /// The parts, to be written. The map then holds what was written.
    pub fn as_mut_slice(&mut self) -> &mut [FingerprintMapShard<V>]
        ensures* writes_back { sem 𝓛 (Lends (the_row V.row)
            (Array (shard_row V.row ⟦<BuildHasherDefault<FoldHasher> as BuildHasher>⟧) 0)
            self.entry result (with_shards self.old)) }
        ensures value { result.now ≡ shards_of self.old }
    {
        self.shards.as_mut_slice()
    }

    /// Whether the map holds the fingerprint.
    pub fn contains_key<R: Wait>(&self, rt: &R, fg: &Fingerprint) -> bool {
        holds(&*self.shard(*fg).read(rt), fg)
    }

    /// The entries, which ascend by the fingerprint's low half, and then by its high half.
    pub fn into_items(self) -> Result<Vec<(Fingerprint, V)>, OutOfMemory>
        ensures { IfOk result (λ items.
            IsSortedByKey (λ item. item.0) halves_cmp items.items) }
    {
        let alloc = *self.shards.allocator();
        let parts = each_unlocked(alloc, self.shards, |shard| shard.into_inner())?;
        Ok(items_of(alloc, parts)?)
    }
}

/// All entries of the parts, in the order of their fingerprints.
fn items_of<V: Drop>(
    alloc: Global,
    parts: Vec<HashMap<Fingerprint, V>>,
) -> Result<Vec<(Fingerprint, V)>, AllocError>
    ensures all { IfOk result (λ items.
        IsPermutation (flat_map (λ part. part.entries) parts.items) items.items) }
    ensures sorted { IfOk result (λ items. IsSortedByKey (λ item. item.0) halves_cmp items.items) }
{
    let mut items = Vec::new(alloc);
    for part in parts {
        append_part(&mut items, part)?;
    }
    sort_items(&mut items);
    Ok(items)
}

/// The part in which the fingerprint stands, of a row of parts of any type.
fn part_of_fingerprint<T>(parts: &[T], fg: Fingerprint) -> &T
    requires { 0 < length parts.now }
    ensures { slice_get parts.now (fg.low % 2 ^ 32 % length parts.now) ≡ Some result.now }
{
    part_of(parts, fg.lower32() as usize)
}

/// Appends all entries of a part.
fn append_part<V: Drop>(
    items: &mut Vec<(Fingerprint, V)>,
    part: HashMap<Fingerprint, V>,
) -> Result<(), AllocError>
    ensures { OnOk result (items.new.items ≡ items.old.items ++ part.entries) }
{
    items.extend(part)
}

/// Puts the items in the order of their fingerprints.
fn sort_items<V>(items: &mut Vec<(Fingerprint, V)>)
    ensures all { IsPermutation items.old.items items.new.items }
    ensures sorted { IsSortedByKey (λ item. item.0) halves_cmp items.new.items }
{
    items.sort_unstable_by_key(|item| item.0);
}
