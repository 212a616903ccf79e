//! A value put at a key: nodes and entries that nobody shares are written to, and others are copied.
ghost use Rattle.std.specs.Prelude.{◌≡◌, ◌+◌, ◌*◌, ◌<◌, ◌≤◌, ◌^◌, Some, None, IsTrue, IfOk, IfSome, IfNone, OnOk, OnErr};
ghost use Rattle.std.specs.declared.cmp.Ordering.TheVariants.{Less, Greater};
ghost use Rattle.std.specs.Arc.{arc_value};
ghost use Rattle.std.specs.Option.{option_map};
ghost use Rattle.std.specs.Map.{lookup};
ghost use Rattle.std.specs.BTreeMap.{is_at};
ghost use Rattle.ty_persist.specs.Contents.{put_entry, IsLow};
ghost use Rattle.ty_persist.specs.Shape.{node_contents, IsBalanced};
ghost use Rattle.ty_persist.specs.Puts.{IsPut, IsBefore, WaitsWithin};

use super::{Node, Root, Tree};
use crate::Steps;
use crate::entry::Entry;
use std::alloc::Global;
use std::cmp::Ordering;
use std::mem;
use std::sync::Arc;
use std::sync::ledger::Ledger;
use ty_path::{OutOfMemory, Share};

/// What a put did.
#[derive(Drop)]
pub(crate) enum Outcome<K, V> {
    /// The key was there. This is its value before, where it was wanted.
    Replaced(Option<V>),
    /// The key is new, and has its entry.
    Added,
    /// The key is new, and its entry has no place yet, since the tree would grow.
    Waits(Arc<Entry<K, V>>),
}

// A share of a value, where it is wanted.
fn share_wanted<V: Share>(alloc: Global, value: &V, wanted: bool) -> Result<Option<V>, OutOfMemory>
    ensures { IfOk result (λ again. IsTrue wanted → option_map V.seen again ≡ Some (V.seen value.now)) }
{
    if wanted {
        Ok(Some(value.share(alloc)?))
    } else {
        Ok(None)
    }
}

// Sets the key and the value of an entry.
fn set_entry<K: Ord + Share, V: Share, L: Ledger>(
    alloc: Global,
    entry: &mut Arc<Entry<K, V>>,
    key: K,
    value: V,
    wanted: bool,
    steps: &mut Steps<L>,
) -> Result<Option<V>, OutOfMemory>
    ensures key { OnOk result ((arc_value entry.new).key ≡ key) }
    ensures value { OnOk result ((arc_value entry.new).value ≡ value) }
    ensures before { IfOk result (λ before. IsTrue wanted → option_map V.seen before ≡ Some (V.seen (arc_value entry.old).value)) }
    ensures err { OnErr result (entry.new ≡ entry.old) }
    ensures cost { steps.new ≤ steps.old + 1 }
{
    let Some(own) = Arc::get_mut(entry) else {
        let before = share_wanted(alloc, &entry.value, wanted)?;
        steps.tick();
        *entry = Arc::new(alloc, Entry { key, value })?;
        return Ok(before);
    };
    own.key = key;
    Ok(Some(mem::replace(&mut own.value, value)))
}

impl<K: Ord + Share, V: Share> Tree<K, V> {
    // Adds an entry to a tree that others share, or whose sides aren't level.
    fn add_in_copies<L: Ledger>(
        &mut self,
        alloc: Global,
        entry: Arc<Entry<K, V>>,
        steps: &mut Steps<L>,
    ) -> Result<(), OutOfMemory>
        requires height_fits { self.old.height < 2 ^ 63 }
        ensures ok { OnOk result (self.new.entries ≡ put_entry K.cmp self.old.entries (arc_value entry).key (arc_value entry).value) }
        ensures err { OnErr result (self.new ≡ self.old) }
        ensures height { (self.old.height ≤ self.new.height) × (self.new.height ≤ self.old.height + 1) }
        ensures low { IsLow self.old → IsLow self.new }
        ensures cost { steps.new ≤ steps.old + 3 * self.old.height + 1 }
    {
        *self = self.with_entry(alloc, entry, steps)?;
        Ok(())
    }

    // Adds an entry. A level node that nobody shares grows where it is.
    pub(crate) fn add<L: Ledger>(
        &mut self,
        alloc: Global,
        entry: Arc<Entry<K, V>>,
        steps: &mut Steps<L>,
    ) -> Result<(), OutOfMemory>
        requires height_fits { self.old.height < 2 ^ 63 }
        ensures ok { OnOk result (self.new.entries ≡ put_entry K.cmp self.old.entries (arc_value entry).key (arc_value entry).value) }
        ensures err { OnErr result (self.new ≡ self.old) }
        ensures height { (self.old.height ≤ self.new.height) × (self.new.height ≤ self.old.height + 1) }
        ensures low { IsLow self.old → IsLow self.new }
        ensures cost { steps.new ≤ steps.old + 3 * self.old.height + 1 }
    {
        let Root::Fork(n) = &mut self.root else {
            return self.add_in_copies(alloc, entry, steps);
        };
        let Some(node) = Arc::get_mut(n) else {
            return self.add_in_copies(alloc, entry, steps);
        };
        if node.left.height() != node.right.height() {
            return self.add_in_copies(alloc, entry, steps);
        }
        match entry.key.cmp(&node.entry.key) {
            Ordering::Less => {
                node.left.add(alloc, entry, steps)?;
                node.height = node.left.height() + 1;
                Ok(())
            }
            Ordering::Equal => {
                node.entry = entry;
                Ok(())
            }
            Ordering::Greater => {
                node.right.add(alloc, entry, steps)?;
                node.height = node.right.height() + 1;
                Ok(())
            }
        }
    }
}

// Takes the left side off a child, which gets the entry and the right side of the node above it.
fn hang_right<K: Ord + Share, V: Share>(
    child: &mut Node<K, V>,
    entry: &mut Arc<Entry<K, V>>,
    right: Tree<K, V>,
) -> Tree<K, V>
    requires height_fits { right.height + 1 < 2 ^ 64 }
    ensures outer { result ≡ child.old.left }
    ensures inner { child.new.left ≡ child.old.right }
    ensures right { child.new.right ≡ right }
    ensures lowered { child.new.entry ≡ entry.old }
    ensures raised { entry.new ≡ child.old.entry }
    ensures height { child.new.height ≡ right.height + 1 }
{
    child.height = right.height() + 1;
    let inner = mem::replace(&mut child.right, right);
    mem::swap(&mut child.entry, entry);
    mem::replace(&mut child.left, inner)
}

// Turns a node to the right, if its left side is higher, nobody shares that, and the key is left of it. The
// entries and the height stay, and the left side is then lower.
fn turn_right<K: Ord + Share, V: Share>(node: &mut Node<K, V>, key: &K) -> bool
    requires balanced { IsBalanced K.cmp node.old }
    requires height_fits { node.old.height < 2 ^ 63 }
    ensures entries { (node_contents node.new).entries ≡ (node_contents node.old).entries }
    ensures height { node.new.height ≡ node.old.height }
    ensures balanced { IsBalanced K.cmp node.new }
    ensures key { IsTrue result → K.cmp key.now (arc_value node.new.entry).key ≡ Less }
    ensures lower { IsTrue result → node.new.left.height + 1 ≤ node.new.right.height }
{
    if node.left.height() <= node.right.height() {
        return false;
    }
    let side = &mut node.left;
    let Root::Fork(n) = &mut side.root else {
        return false;
    };
    let Some(child) = Arc::get_mut(n) else {
        return false;
    };
    if child.left.height() < child.right.height() {
        return false;
    }
    let Ordering::Less = key.cmp(&child.entry.key) else {
        return false;
    };
    let right = mem::replace(&mut node.right, Tree::new());
    let outer = hang_right(child, &mut node.entry, right);
    node.right = mem::replace(&mut node.left, outer);
    true
}

// Whether the left side is lower, or is so after a turn, and the key still leads there.
fn has_room_left<K: Ord + Share, V: Share>(node: &mut Node<K, V>, key: &K) -> bool
    requires balanced { IsBalanced K.cmp node.old }
    requires left { K.cmp key.now (arc_value node.old.entry).key ≡ Less }
    requires height_fits { node.old.height < 2 ^ 63 }
    ensures entries { (node_contents node.new).entries ≡ (node_contents node.old).entries }
    ensures height { node.new.height ≡ node.old.height }
    ensures balanced { IsBalanced K.cmp node.new }
    ensures key { IsTrue result → K.cmp key.now (arc_value node.new.entry).key ≡ Less }
    ensures lower { IsTrue result → node.new.left.height + 1 ≤ node.new.right.height }
{
    if node.left.height() < node.right.height() {
        return true;
    }
    turn_right(node, key)
}

// Gives an entry a place on the left side, where the node doesn't grow by it. Else the entry waits.
fn settle_left<K: Ord + Share, V: Share, L: Ledger>(
    alloc: Global,
    node: &mut Node<K, V>,
    entry: Arc<Entry<K, V>>,
    steps: &mut Steps<L>,
) -> Result<Outcome<K, V>, OutOfMemory>
    requires balanced { IsBalanced K.cmp node.old }
    requires absent { lookup (is_at (K.cmp (arc_value entry).key)) (node_contents node.old).entries ≡ None }
    requires left { K.cmp (arc_value entry).key (arc_value node.old.entry).key ≡ Less }
    requires height_fits { node.old.height < 2 ^ 63 }
    ensures ok { IfOk result (λ p. IsPut K.cmp (arc_value entry).key (arc_value entry).value (node_contents node.old).entries (node_contents node.new).entries p) }
    ensures err { OnErr result ((node_contents node.new).entries ≡ (node_contents node.old).entries) }
    ensures balanced { IsBalanced K.cmp node.new }
    ensures height { node.new.height ≡ node.old.height }
    ensures cost { steps.new ≤ steps.old + 3 * node.old.height }
    ensures waits { IfOk result (λ p. WaitsWithin steps.old steps.new p) }
{
    if !has_room_left(node, &entry.key) {
        return Ok(Outcome::Waits(entry));
    }
    node.left.add(alloc, entry, steps)?;
    Ok(Outcome::Added)
}

// Takes the right side off a child, which gets the entry and the left side of the node above it.
fn hang_left<K: Ord + Share, V: Share>(
    child: &mut Node<K, V>,
    entry: &mut Arc<Entry<K, V>>,
    left: Tree<K, V>,
) -> Tree<K, V>
    requires height_fits { left.height + 1 < 2 ^ 64 }
    ensures outer { result ≡ child.old.right }
    ensures inner { child.new.right ≡ child.old.left }
    ensures left { child.new.left ≡ left }
    ensures lowered { child.new.entry ≡ entry.old }
    ensures raised { entry.new ≡ child.old.entry }
    ensures height { child.new.height ≡ left.height + 1 }
{
    child.height = left.height() + 1;
    let inner = mem::replace(&mut child.left, left);
    mem::swap(&mut child.entry, entry);
    mem::replace(&mut child.right, inner)
}

// Turns a node to the left, if its right side is higher, nobody shares that, and the key is right of it. The
// entries and the height stay, and the right side is then lower.
fn turn_left<K: Ord + Share, V: Share>(node: &mut Node<K, V>, key: &K) -> bool
    requires balanced { IsBalanced K.cmp node.old }
    requires height_fits { node.old.height < 2 ^ 63 }
    ensures entries { (node_contents node.new).entries ≡ (node_contents node.old).entries }
    ensures height { node.new.height ≡ node.old.height }
    ensures balanced { IsBalanced K.cmp node.new }
    ensures key { IsTrue result → K.cmp key.now (arc_value node.new.entry).key ≡ Greater }
    ensures lower { IsTrue result → node.new.right.height + 1 ≤ node.new.left.height }
{
    if node.right.height() <= node.left.height() {
        return false;
    }
    let side = &mut node.right;
    let Root::Fork(n) = &mut side.root else {
        return false;
    };
    let Some(child) = Arc::get_mut(n) else {
        return false;
    };
    if child.right.height() < child.left.height() {
        return false;
    }
    let Ordering::Greater = key.cmp(&child.entry.key) else {
        return false;
    };
    let left = mem::replace(&mut node.left, Tree::new());
    let outer = hang_left(child, &mut node.entry, left);
    node.left = mem::replace(&mut node.right, outer);
    true
}

// Whether the right side is lower, or is so after a turn, and the key still leads there.
fn has_room_right<K: Ord + Share, V: Share>(node: &mut Node<K, V>, key: &K) -> bool
    requires balanced { IsBalanced K.cmp node.old }
    requires right { K.cmp key.now (arc_value node.old.entry).key ≡ Greater }
    requires height_fits { node.old.height < 2 ^ 63 }
    ensures entries { (node_contents node.new).entries ≡ (node_contents node.old).entries }
    ensures height { node.new.height ≡ node.old.height }
    ensures balanced { IsBalanced K.cmp node.new }
    ensures key { IsTrue result → K.cmp key.now (arc_value node.new.entry).key ≡ Greater }
    ensures lower { IsTrue result → node.new.right.height + 1 ≤ node.new.left.height }
{
    if node.right.height() < node.left.height() {
        return true;
    }
    turn_left(node, key)
}

// Gives an entry a place on the right side, where the node doesn't grow by it. Else the entry waits.
fn settle_right<K: Ord + Share, V: Share, L: Ledger>(
    alloc: Global,
    node: &mut Node<K, V>,
    entry: Arc<Entry<K, V>>,
    steps: &mut Steps<L>,
) -> Result<Outcome<K, V>, OutOfMemory>
    requires balanced { IsBalanced K.cmp node.old }
    requires absent { lookup (is_at (K.cmp (arc_value entry).key)) (node_contents node.old).entries ≡ None }
    requires right { K.cmp (arc_value entry).key (arc_value node.old.entry).key ≡ Greater }
    requires height_fits { node.old.height < 2 ^ 63 }
    ensures ok { IfOk result (λ p. IsPut K.cmp (arc_value entry).key (arc_value entry).value (node_contents node.old).entries (node_contents node.new).entries p) }
    ensures err { OnErr result ((node_contents node.new).entries ≡ (node_contents node.old).entries) }
    ensures balanced { IsBalanced K.cmp node.new }
    ensures height { node.new.height ≡ node.old.height }
    ensures cost { steps.new ≤ steps.old + 3 * node.old.height }
    ensures waits { IfOk result (λ p. WaitsWithin steps.old steps.new p) }
{
    if !has_room_right(node, &entry.key) {
        return Ok(Outcome::Waits(entry));
    }
    node.right.add(alloc, entry, steps)?;
    Ok(Outcome::Added)
}

impl<K: Ord + Share, V: Share> Tree<K, V> {
    // Puts a value at a key of a tree that others share, or that has no entry.
    fn put_in_copies<L: Ledger>(
        &mut self,
        alloc: Global,
        key: K,
        value: V,
        wanted: bool,
        steps: &mut Steps<L>,
    ) -> Result<Outcome<K, V>, OutOfMemory>
        requires height_fits { self.old.height < 2 ^ 63 }
        ensures ok { IfOk result (λ p. IsPut K.cmp key value self.old.entries self.new.entries p) }
        ensures before { IfOk result (λ p. IsBefore V.seen wanted (lookup (is_at (K.cmp key)) self.old.entries) p) }
        ensures err { OnErr result (self.new.entries ≡ self.old.entries) }
        ensures height { self.new.height ≡ self.old.height }
        ensures cost { steps.new ≤ steps.old + 3 * self.old.height + 2 }
        ensures waits { IfOk result (λ p. WaitsWithin (steps.old + 1) steps.new p) }
    {
        let before = match self.get(&key) {
            Some(there) => share_wanted(alloc, there, wanted)?,
            None => {
                steps.tick();
                return Ok(Outcome::Waits(Arc::new(alloc, Entry { key, value })?));
            }
        };
        steps.tick();
        let entry = Arc::new(alloc, Entry { key, value })?;
        *self = self.with_entry(alloc, entry, steps)?;
        Ok(Outcome::Replaced(before))
    }

    // Puts a value at a key, where that doesn't make the tree higher. The value before is shared where it is wanted.
    pub(crate) fn put<L: Ledger>(
        &mut self,
        alloc: Global,
        key: K,
        value: V,
        wanted: bool,
        steps: &mut Steps<L>,
    ) -> Result<Outcome<K, V>, OutOfMemory>
        requires height_fits { self.old.height < 2 ^ 63 }
        ensures ok { IfOk result (λ p. IsPut K.cmp key value self.old.entries self.new.entries p) }
        ensures before { IfOk result (λ p. IsBefore V.seen wanted (lookup (is_at (K.cmp key)) self.old.entries) p) }
        ensures err { OnErr result (self.new.entries ≡ self.old.entries) }
        ensures height { self.new.height ≡ self.old.height }
        ensures cost { steps.new ≤ steps.old + 3 * self.old.height + 2 }
        ensures waits { IfOk result (λ p. WaitsWithin (steps.old + 1) steps.new p) }
    {
        let Root::Fork(n) = &mut self.root else {
            return self.put_in_copies(alloc, key, value, wanted, steps);
        };
        let Some(node) = Arc::get_mut(n) else {
            return self.put_in_copies(alloc, key, value, wanted, steps);
        };
        match key.cmp(&node.entry.key) {
            Ordering::Less => match node.left.put(alloc, key, value, wanted, steps)? {
                Outcome::Waits(entry) => settle_left(alloc, node, entry, steps),
                done => Ok(done),
            },
            Ordering::Equal => {
                let before = set_entry(alloc, &mut node.entry, key, value, wanted, steps)?;
                Ok(Outcome::Replaced(before))
            }
            Ordering::Greater => match node.right.put(alloc, key, value, wanted, steps)? {
                Outcome::Waits(entry) => settle_right(alloc, node, entry, steps),
                done => Ok(done),
            },
        }
    }
}
