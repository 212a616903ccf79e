//! The entries of a sorted list in order.
ghost use Rattle.std.specs.Prelude.{◌≡◌, length};
ghost use Rattle.std.specs.Iterator.{at_most};
ghost use Rattle.std.specs.Map.Iter.{TakesFirst, deref_pair};
ghost use Rattle.ty_persist_plain.specs.ListMap.{pairs};

use crate::entry::Entry;
use std::marker::Model;
use std::sync::Arc;

/// The entries that are left of a walk over a `ListMap`, in the order of their keys.
#[derive(Drop)]
pub struct ListIter<'a, K, V> {
    entries: &'a [Arc<Entry<K, V>>],
    place: usize,
}

impl<'a, K, V> Model for ListIter<'a, K, V> {
    ghost use Rattle.std.specs.Prelude.{List, drop};
    ghost use Rattle.ty_persist_plain.specs.ListMap.{pairs};

    ghost Value = { List (K × V) };

    ghost view = { λ i. pairs (drop i.place i.entries.now) };
}

impl<'a, K, V> ListIter<'a, K, V> {
    pub(crate) fn new(entries: &'a [Arc<Entry<K, V>>]) -> ListIter<'a, K, V>
        ensures { result ≡ pairs entries.now }
    {
        ListIter { entries, place: 0 }
    }
}

impl<'a, K, V> Iterator for ListIter<'a, K, V> {
    type Item = (&'a K, &'a V);

    ghost next_gives = { TakesFirst deref_pair };

    ghost remaining = { λ s. at_most (length s) };

    fn next(&mut self) -> Option<(&'a K, &'a V)> {
        if self.place < self.entries.len() {
            let entry: &'a Entry<K, V> = &self.entries[self.place];
            self.place += 1;
            Some((&entry.key, &entry.value))
        } else {
            None
        }
    }
}
