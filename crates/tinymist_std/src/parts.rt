//! Rows of parts, of which a number picks one, and what is done to a part once its lock is taken.
ghost use Rattle.std.specs.Prelude.{◌≡◌, ◌%◌, ◌<◌, Some, None, IfOk, OnOk, OnErr, is_some, length, slice_get};
ghost use Rattle.std.specs.HashMap.{IsUnchanged, Updates, get};
ghost use Rattle.std.specs.List.{AllZip};

use std::alloc::{AllocError, Global};
use std::collections::HashMap;
use std::hash::Hash;
use ty_path::OutOfMemory;

/// The part of that number, where numbers past the row's end begin at its front again. Locks are
/// seen as equal whatever they hold, so parts of any type are taken: there the clause tells them
/// apart.
pub(crate) fn part_of<T>(parts: &[T], number: usize) -> &T
    requires { 0 < length parts.now }
    ensures { slice_get parts.now (number % length parts.now) ≡ Some result.now }
{
    &parts[number % parts.len()]
}

/// What `unlock` gives of each part, in the order of the parts.
pub(crate) fn each_unlocked<S: Drop, M: Drop, F: Fn(S) -> M + Drop>(
    alloc: Global,
    parts: Vec<S>,
    unlock: F,
) -> Result<Vec<M>, AllocError>
    requires { F.IsAlwaysCallable unlock }
    ensures { IfOk result (λ maps.
        AllZip (λ part given. F.post unlock part given) parts.items maps.items) }
{
    let mut unlocked = Vec::new(alloc);
    for part in parts {
        unlocked.push(unlock(part))?;
    }
    Ok(unlocked)
}

/// Puts the value under the key, and answers the one that stood there; where memory runs out, the
/// part is as before.
pub(crate) fn put_into<K: Eq + Hash + Drop, V: Drop>(
    part: &mut HashMap<K, V>,
    k: K,
    v: V,
) -> Result<Option<V>, OutOfMemory>
    ensures before { IfOk result (λ before. before ≡ get K.eq part.old k) }
    ensures ok { OnOk result (Updates K.eq part.old part.new k (Some v)) }
    ensures err { OnErr result (IsUnchanged part.old part.new) }
{
    Ok(part.insert(k, v)?)
}

/// Takes the key's entry out, and answers its value.
pub(crate) fn take_from<K: Eq + Hash + Drop, V: Drop>(part: &mut HashMap<K, V>, k: &K) -> Option<V>
    ensures value { result ≡ get K.eq part.old k.now }
    ensures gone { Updates K.eq part.old part.new k.now None }
{
    part.remove(k)
}

/// Whether the part holds the key.
pub(crate) fn holds<K: Eq + Hash, V>(part: &HashMap<K, V>, k: &K) -> bool
    ensures { result ≡ is_some (get K.eq part.now k.now) }
{
    part.contains_key(k)
}
