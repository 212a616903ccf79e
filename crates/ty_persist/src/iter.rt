//! The entries in order. Each next key is looked up by the key before it, so an iterator takes no memory.
ghost use Rattle.std.specs.Prelude.{◌≡◌, length};
ghost use Rattle.std.specs.Iterator.{at_most};
ghost use Rattle.std.specs.Map.Iter.{TakesFirst, deref_pair};
ghost use Rattle.std.specs.Option.{option_map};
ghost use Rattle.ty_persist.specs.Contents.{IsAscending, first_of};
ghost use Rattle.ty_persist.specs.Shape.{pair};

use crate::entry::Entry;
use crate::tree::Tree;
use std::marker::Model;
use ty_path::Share;

/// The entries that are left of a walk over a map, in the order of their keys.
#[derive(Drop)]
pub struct Iter<'a, K: Ord + Share, V: Share> {
    tree: &'a Tree<K, V>,
    last: Option<&'a K>,
}

impl<'a, K: Ord + Share, V: Share> Model for Iter<'a, K, V> {
    ghost use Rattle.std.specs.Prelude.{List};
    ghost use Rattle.ty_persist.specs.Contents.{IsAscending};
    ghost use Rattle.ty_persist.specs.Rest.{rest_after};

    ghost Value = { List (K × V) };

    ghost view = { λ i. rest_after K.cmp i.last i.tree.now.entries };

    ghost invariant = { λ i. IsAscending K.cmp i.tree.now.entries };
}

impl<'a, K: Ord + Share, V: Share> Iter<'a, K, V> {
    pub(crate) fn new(tree: &'a Tree<K, V>) -> Iter<'a, K, V>
        requires { IsAscending K.cmp tree.now.entries }
        ensures { result ≡ tree.now.entries }
    {
        Iter { tree, last: None }
    }

    fn first(&self) -> Option<&'a Entry<K, V>>
        ensures { option_map (λ e. pair e.now) result ≡ first_of self.now }
    {
        match self.last {
            None => self.tree.first(),
            Some(key) => self.tree.first_above(key),
        }
    }
}

impl<'a, K: Ord + Share, V: Share> Iterator for Iter<'a, K, V> {
    type Item = (&'a K, &'a V);

    ghost next_gives = { TakesFirst deref_pair };

    ghost remaining = { λ s. at_most (length s) };

    fn next(&mut self) -> Option<(&'a K, &'a V)> {
        match self.first() {
            None => None,
            Some(entry) => {
                self.last = Some(&entry.key);
                Some((&entry.key, &entry.value))
            }
        }
    }
}
