//! An ordered map whose older versions stay: a share costs one step, and a value is put and a key is taken out in place
//! where nobody shares what lies on the way to it. What others share is copied, and so is a path that gets lower or
//! turns twice.
ghost use Rattle.std.specs.Prelude.{◌≡◌, ◌+◌, ◌*◌, ◌≤◌, ◌↔◌, [], length, IsTrue, is_some, IfOk, OnOk, OnErr};
ghost use Rattle.std.specs.Option.{option_copied, option_map};
ghost use Rattle.std.specs.Map.{lookup, remove_entry};
ghost use Rattle.std.specs.BTreeMap.{is_at};
ghost use Rattle.std.specs.Map.Iter.{ShowsInOrder, deref_pair};
ghost use Rattle.ty_persist.specs.Contents.{put_entry, IsAscending, IsLow};
ghost use Rattle.ty_persist.specs.Texts.{is_text, has_text};

use crate::tree::{Outcome, Removal, Tree};
use crate::{Iter, Steps};
use std::alloc::Global;
use std::marker::Model;
use std::sync::ledger::Ledger;
use ty_path::{CleanPath, ImmutPath, OutOfMemory, Share};

mod plain;

/// A map in the order of its keys, whose shares cost one step.
pub struct Map<K: Ord + Share, V: Share> {
    alloc: Global,
    len: usize,
    tree: Tree<K, V>,
}

impl<K: Ord + Share, V: Share> Model for Map<K, V> {
    ghost use Rattle.ty_persist.specs.Contents.{Contents, contents_code, IsMap};

    ghost Value = { Contents K V };

    ghost coded = { contents_code K.code V.code };

    ghost view = { λ m. m.tree };

    ghost invariant = { λ m. IsMap K.cmp m.len m.tree };
}

impl<K: Ord + Share, V: Share> Drop for Map<K, V> {
    fn drop(self) {
        let Map {
            alloc: _,
            len: _,
            tree: _,
        } = self;
    }
}

impl<K: Ord + Share, V: Share> Map<K, V> {
    /// A map without entries, which takes no memory.
    pub fn new(alloc: Global) -> Map<K, V>
        ensures { result.entries ≡ [] }
    {
        Map {
            alloc,
            len: 0,
            tree: Tree::new(),
        }
    }

    /// The same map again, which later changes of either leave as it is. An error leaves the map as
    /// it was, and may have counted the step.
    pub fn share<L: Ledger>(&self, steps: &mut Steps<L>) -> Result<Map<K, V>, OutOfMemory>
        ensures same { IfOk result (λ again. again ≡ self.now) }
        ensures cost { steps.new ≤ steps.old + 1 }
    {
        steps.tick();
        Ok(Map {
            alloc: self.alloc,
            len: self.len,
            tree: self.tree.share()?,
        })
    }

    /// The value at a key.
    pub fn get(&self, key: &K) -> Option<&V>
        ensures { option_copied result ≡ lookup (is_at (K.cmp key.now)) self.now.entries }
    {
        self.tree.get(key)
    }

    /// Sets the value of a key, and answers the one before, or a share of it. The key is looked up once, and what
    /// nobody shares is written in place. Out of memory leaves the map as it was, and so does a new key where
    /// `usize::MAX` keys are there.
    pub fn insert<L: Ledger>(
        &mut self,
        key: K,
        value: V,
        steps: &mut Steps<L>,
    ) -> Result<Option<V>, OutOfMemory>
        ensures before { IfOk result (λ before. option_map V.seen before ≡ option_map V.seen (lookup (is_at (K.cmp key)) self.old.entries)) }
        ensures ok { OnOk result (self.new.entries ≡ put_entry K.cmp self.old.entries key value) }
        ensures err { OnErr result (self.new ≡ self.old) }
        ensures low { IsLow self.old }
        ensures cost { steps.new ≤ steps.old + 4 * (self.old.height + 1) }
    {
        self.place(key, value, true, steps)
    }

    /// Sets the value of a key, as `insert`, and shares nothing of the one before.
    pub fn put<L: Ledger>(
        &mut self,
        key: K,
        value: V,
        steps: &mut Steps<L>,
    ) -> Result<(), OutOfMemory>
        ensures ok { OnOk result (self.new.entries ≡ put_entry K.cmp self.old.entries key value) }
        ensures err { OnErr result (self.new ≡ self.old) }
        ensures low { IsLow self.old }
        ensures cost { steps.new ≤ steps.old + 4 * (self.old.height + 1) }
    {
        let _before = self.place(key, value, false, steps)?;
        Ok(())
    }

    // Sets the value of a key. The value before comes back where it is wanted.
    fn place<L: Ledger>(
        &mut self,
        key: K,
        value: V,
        wanted: bool,
        steps: &mut Steps<L>,
    ) -> Result<Option<V>, OutOfMemory>
        ensures before { IfOk result (λ before. IsTrue wanted → option_map V.seen before ≡ option_map V.seen (lookup (is_at (K.cmp key)) self.old.entries)) }
        ensures ok { OnOk result (self.new.entries ≡ put_entry K.cmp self.old.entries key value) }
        ensures err { OnErr result (self.new ≡ self.old) }
        ensures low { IsLow self.old }
        ensures cost { steps.new ≤ steps.old + 4 * (self.old.height + 1) }
    {
        let grown = one_more(self.len)?;
        match self.tree.put(self.alloc, key, value, wanted, steps)? {
            Outcome::Replaced(before) => Ok(before),
            Outcome::Added => {
                self.len = grown;
                Ok(None)
            }
            Outcome::Waits(entry) => {
                self.tree.add(self.alloc, entry, steps)?;
                self.len = grown;
                Ok(None)
            }
        }
    }

    /// Takes a key out, and answers a share of its value. The key is looked up once where nobody shares what lies on
    /// the way to it, and that is written in place. Out of memory leaves the map as it was.
    pub fn remove<L: Ledger>(
        &mut self,
        key: &K,
        steps: &mut Steps<L>,
    ) -> Result<Option<V>, OutOfMemory>
        ensures before { IfOk result (λ before. option_map V.seen before ≡ option_map V.seen (lookup (is_at (K.cmp key.now)) self.old.entries)) }
        ensures ok { OnOk result (self.new.entries ≡ remove_entry (is_at (K.cmp key.now)) self.old.entries) }
        ensures ascending { IsAscending K.cmp self.old.entries }
        ensures err { OnErr result (self.new ≡ self.old) }
        ensures low { IsLow self.old }
        ensures cost { steps.new ≤ steps.old + 4 * (self.old.height + 1) }
    {
        match self.tree.cut(self.alloc, key, steps)? {
            Removal::Absent => Ok(None),
            Removal::Gone(before) => {
                self.len -= 1;
                Ok(Some(before))
            }
            Removal::Waits(before) => {
                self.tree = self.tree.without_key(self.alloc, key, steps)?;
                self.len -= 1;
                Ok(Some(before))
            }
        }
    }

    /// The entries in the order of their keys.
    pub fn iter(&self) -> Iter<'_, K, V>
        ensures rest { result ≡ self.now.entries }
        ensures runs { ShowsInOrder (deref_pair {K = K} {X = V}) }
        ensures ascending { IsAscending K.cmp self.now.entries }
    {
        Iter::new(&self.tree)
    }

    /// How many keys there are.
    pub fn len(&self) -> usize
        ensures len { result ≡ length self.now.entries }
        ensures ascending { IsAscending K.cmp self.now.entries }
        ensures low { IsLow self.now }
    {
        self.len
    }

    /// Whether there is no key.
    pub fn is_empty(&self) -> bool
        ensures { IsTrue result ↔ (self.now.entries ≡ []) }
    {
        self.len == 0
    }
}

impl<V: Share> Map<ImmutPath, V> {
    /// The value at the path with this text, as `get` at that path. It takes no memory.
    pub fn get_text(&self, path: &str) -> Option<&V>
        ensures { option_copied result ≡ lookup (is_text path.now) self.now.entries }
    {
        self.tree.get_text(path)
    }
}

impl<V: Share> Map<CleanPath, V> {
    /// The value at the clean path with this text, as `get` at that path. It takes no memory.
    pub fn get_text(&self, path: &str) -> Option<&V>
        ensures { option_copied result ≡ lookup (has_text path.now) self.now.entries }
    {
        self.tree.get_text(path)
    }
}

fn one_more(len: usize) -> Result<usize, OutOfMemory>
    ensures { IfOk result (λ n. n ≡ len + 1) }
{
    match len.checked_add(1) {
        Some(len) => Ok(len),
        None => Err(OutOfMemory),
    }
}
