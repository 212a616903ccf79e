//! The plain form of the map: a sorted list, which `share` copies. It answers as `Map` does, and costs more.
ghost use Rattle.std.specs.Prelude.{◌≡◌, ◌+◌, ◌≤◌, ◌↔◌, [], length, IsTrue, IfOk, IfErr, OnOk, OnErr};
ghost use Rattle.std.specs.Option.{option_copied, option_map};
ghost use Rattle.std.specs.Map.{lookup, remove_entry};
ghost use Rattle.std.specs.BTreeMap.{is_at};
ghost use Rattle.std.specs.Map.Iter.{ShowsInOrder, deref_pair};
ghost use Rattle.ty_persist.specs.Contents.{put_entry, IsAscending, IsLow};
ghost use Rattle.ty_persist.specs.Texts.{is_text};
ghost use Rattle.ty_persist_plain.specs.ListMap.{pairs, IsFoundAt, IsGapAt};

use crate::ListIter;
use crate::entry::Entry;
use std::alloc::Global;
use std::cmp::Ordering;
use std::marker::Model;
use std::sync::Arc;
use std::sync::ledger::Ledger;
use ty_path::{ImmutPath, OutOfMemory, Share};
use ty_persist::Steps;

/// A map as a sorted list of its entries. Its clauses are those of `Map` but for the costs.
pub struct ListMap<K: Ord + Share, V: Share> {
    alloc: Global,
    entries: Vec<Arc<Entry<K, V>>>,
}

impl<K: Ord + Share, V: Share> Model for ListMap<K, V> {
    ghost use Rattle.ty_persist.specs.Contents.{Contents, contents_code, IsAscending};

    ghost Value = { Contents K V };

    ghost coded = { contents_code K.code V.code };

    ghost use Rattle.ty_persist_plain.specs.ListMap.{pairs, plain_contents};

    ghost view = { λ m. plain_contents m.entries.items };

    ghost invariant = { λ m. IsAscending K.cmp (pairs m.entries.items) };
}

impl<K: Ord + Share, V: Share> Drop for ListMap<K, V> {
    fn drop(self) {
        let ListMap {
            alloc: _,
            entries: _,
        } = self;
    }
}

// Where a key is, or where it would go.
fn place<K: Ord + Share, V: Share>(entries: &[Arc<Entry<K, V>>], key: &K) -> Result<usize, usize>
    ensures found { IfOk result (λ i. IsFoundAt K.cmp key.now entries.now i) }
    ensures absent { IfErr result (λ i. IsGapAt K.cmp key.now entries.now i) }
{
    let mut i = 0;
    while i < entries.len() {
        let entry = &entries[i];
        match key.cmp(&entry.key) {
            Ordering::Less => return Err(i),
            Ordering::Equal => return Ok(i),
            Ordering::Greater => i += 1,
        }
    }
    Err(i)
}

// The entries again.
fn copied<K: Ord + Share, V: Share, L: Ledger>(
    alloc: Global,
    entries: &[Arc<Entry<K, V>>],
    steps: &mut Steps<L>,
) -> Result<Vec<Arc<Entry<K, V>>>, OutOfMemory>
    ensures same { IfOk result (λ v. pairs v.items ≡ pairs entries.now) }
    ensures cost { steps.new ≤ steps.old + length entries.now }
{
    let mut made = Vec::new(alloc);
    for entry in entries {
        steps.tick();
        made.push(Arc::try_clone(entry)?)?;
    }
    Ok(made)
}

impl<K: Ord + Share, V: Share> ListMap<K, V> {
    /// A map without entries, which takes no memory.
    pub fn new(alloc: Global) -> ListMap<K, V>
        ensures { result.entries ≡ [] }
    {
        ListMap {
            alloc,
            entries: Vec::new(alloc),
        }
    }

    /// The same map again, which later changes of either leave as it is.
    pub fn share<L: Ledger>(&self, steps: &mut Steps<L>) -> Result<ListMap<K, V>, OutOfMemory>
        ensures same { IfOk result (λ again. again ≡ self.now) }
        ensures cost { steps.new ≤ steps.old + length self.now.entries }
    {
        Ok(ListMap {
            alloc: self.alloc,
            entries: copied(self.alloc, &self.entries, steps)?,
        })
    }

    /// The value at a key.
    pub fn get(&self, key: &K) -> Option<&V>
        ensures { option_copied result ≡ lookup (is_at (K.cmp key.now)) self.now.entries }
    {
        match place(&self.entries, key) {
            Ok(i) => Some(&self.entries[i].value),
            Err(_) => None,
        }
    }

    /// How many keys there are.
    pub fn len(&self) -> usize
        ensures len { result ≡ length self.now.entries }
        ensures ascending { IsAscending K.cmp self.now.entries }
        ensures low { IsLow self.now }
    {
        self.entries.len()
    }

    /// Whether there is no key.
    pub fn is_empty(&self) -> bool
        ensures { IsTrue result ↔ (self.now.entries ≡ []) }
    {
        self.entries.is_empty()
    }

    /// The entries in the order of their keys.
    pub fn iter(&self) -> ListIter<'_, K, V>
        ensures rest { result ≡ self.now.entries }
        ensures runs { ShowsInOrder (deref_pair {K = K} {X = V}) }
        ensures ascending { IsAscending K.cmp self.now.entries }
    {
        ListIter::new(&self.entries)
    }

    /// Sets the value of a key, and answers a share of the one before. Out of memory leaves the map as it was.
    pub fn insert<L: Ledger>(
        &mut self,
        key: K,
        value: V,
        steps: &mut Steps<L>,
    ) -> Result<Option<V>, OutOfMemory>
        ensures before { IfOk result (λ before. option_map V.seen before ≡ option_map V.seen (lookup (is_at (K.cmp key)) self.old.entries)) }
        ensures ok { OnOk result (self.new.entries ≡ put_entry K.cmp self.old.entries key value) }
        ensures err { OnErr result (self.new ≡ self.old) }
        ensures low { IsLow self.old }
        ensures cost { steps.new ≤ steps.old + 1 }
    {
        match place(&self.entries, &key) {
            Ok(i) => {
                let before = self.entries[i].value.share(self.alloc)?;
                steps.tick();
                self.entries[i] = Arc::new(self.alloc, Entry { key, value })?;
                Ok(Some(before))
            }
            Err(i) => {
                steps.tick();
                let entry = Arc::new(self.alloc, Entry { key, value })?;
                self.entries.insert(i, entry)?;
                Ok(None)
            }
        }
    }

    /// Sets the value of a key, as `insert`, and answers nothing of the one before.
    pub fn put<L: Ledger>(
        &mut self,
        key: K,
        value: V,
        steps: &mut Steps<L>,
    ) -> Result<(), OutOfMemory>
        ensures ok { OnOk result (self.new.entries ≡ put_entry K.cmp self.old.entries key value) }
        ensures err { OnErr result (self.new ≡ self.old) }
        ensures low { IsLow self.old }
        ensures cost { steps.new ≤ steps.old + 1 }
    {
        let _before = self.insert(key, value, steps)?;
        Ok(())
    }

    /// Takes a key out, and answers a share of its value. Out of memory leaves the map as it was.
    pub fn remove<L: Ledger>(
        &mut self,
        key: &K,
        steps: &mut Steps<L>,
    ) -> Result<Option<V>, OutOfMemory>
        ensures before { IfOk result (λ before. option_map V.seen before ≡ option_map V.seen (lookup (is_at (K.cmp key.now)) self.old.entries)) }
        ensures ok { OnOk result (self.new.entries ≡ remove_entry (is_at (K.cmp key.now)) self.old.entries) }
        ensures ascending { IsAscending K.cmp self.old.entries }
        ensures err { OnErr result (self.new ≡ self.old) }
        ensures low { IsLow self.old }
        ensures cost { steps.new ≤ steps.old }
    {
        match place(&self.entries, key) {
            Ok(i) => {
                let before = self.entries[i].value.share(self.alloc)?;
                self.entries.remove(i);
                Ok(Some(before))
            }
            Err(_) => Ok(None),
        }
    }
}

// The value of the first entry whose key has this text.
fn value_at_text<'a, V>(entries: &'a [Arc<Entry<ImmutPath, V>>], text: &str) -> Option<&'a V>
    ensures { option_copied result ≡ lookup (is_text text.now) (pairs entries.now) }
{
    for shared in entries {
        let entry: &'a Entry<ImmutPath, V> = shared;
        if let Ordering::Equal = text.as_bytes().cmp(entry.key.as_bytes()) {
            return Some(&entry.value);
        }
    }
    None
}

impl<V: Share> ListMap<ImmutPath, V> {
    /// The value at the path with this text, as `get` at that path. It takes no memory.
    pub fn get_text(&self, path: &str) -> Option<&V>
        ensures { option_copied result ≡ lookup (is_text path.now) self.now.entries }
    {
        value_at_text(&self.entries, path)
    }
}
