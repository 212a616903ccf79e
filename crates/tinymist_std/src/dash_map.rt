//! Maps behind a row of locks.
ghost use Rattle.std.specs.Prelude.{◌≡◌, ◌<◌, Some, length, slice_get, IfOk};
ghost use Rattle.tinymist_std.specs.PartNumber.{part_number};

use crate::parts::{holds, part_of, put_into, take_from};
use std::alloc::Global;
use std::collections::HashMap;
use std::hash::{BuildHasher, BuildHasherDefault, FoldHasher, Hash};
use std::sync::{RwLock, Wait};
use ty_path::OutOfMemory;

/// A map whose entries stand in a row of parts, each behind a lock. A key stands in the part that
/// its hash names.
#[derive(Drop)]
pub struct FxDashMap<K: Eq + Hash, V> {
    shards: Vec<RwLock<HashMap<K, V>>>,
    ghost some: { 0 < length shards.items },
}

impl<K: Eq + Hash + Drop, V: Drop> FxDashMap<K, V> {
    ghost use Rattle.tinymist_std.specs.FxDashMap.{part_count, parts_of};

    /// An empty map of so many parts.
    pub fn new(alloc: Global, shards: u32) -> Result<FxDashMap<K, V>, OutOfMemory>
        requires { 0 < shards }
        ensures { IfOk result (λ map. part_count map ≡ shards) }
    {
        let count = shards;
        let mut shards = Vec::with_capacity(alloc, count as usize)?;
        for _shard in 0..count {
            shards.push(RwLock::new(HashMap::new(alloc)))?;
        }
        Ok(FxDashMap { shards })
    }

    /// Puts the value under the key, and answers the one that stood there.
    pub fn insert<R: Wait>(&self, rt: &R, k: K, v: V) -> Result<Option<V>, OutOfMemory> {
        let mut shard = self.shard(&k).write(rt);
        put_into(&mut *shard, k, v)
    }

    /// Takes the key's entry out, and answers its value.
    pub fn remove<R: Wait>(&self, rt: &R, k: &K) -> Option<V> {
        let mut shard = self.shard(k).write(rt);
        take_from(&mut *shard, k)
    }

    /// Whether the map holds the key.
    pub fn contains_key<R: Wait>(&self, rt: &R, k: &K) -> bool {
        holds(&*self.shard(k).read(rt), k)
    }

    /// The part of the key.
    fn shard(&self, k: &K) -> &RwLock<HashMap<K, V>>
        ensures { slice_get (parts_of self.now) (part_number (K.hash_input k.now) (part_count self.now))
            ≡ Some result.now }
    {
        part_of_key(self.shards.as_slice(), k)
    }
}

/// The part of the key, of a row of parts of any type. What the key feeds to the hash and the count
/// of parts decide it.
fn part_of_key<'a, K: Hash, T>(parts: &'a [T], k: &K) -> &'a T
    requires { 0 < length parts.now }
    ensures { slice_get parts.now (part_number (K.hash_input k.now) (length parts.now))
        ≡ Some result.now }
{
    let hasher: BuildHasherDefault<FoldHasher> = BuildHasherDefault::default();
    part_of(parts, hasher.hash_one(k) as usize)
}
