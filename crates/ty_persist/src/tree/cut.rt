//! A key taken out: nodes that nobody shares are written to where the tree stays as high, and others are copied.
ghost use Rattle.std.specs.Prelude.{◌≡◌, ◌+◌, ◌*◌, ◌<◌, ◌≤◌, ◌^◌, Some, IsTrue, IfOk, OnErr};
ghost use Rattle.std.specs.declared.cmp.Ordering.TheVariants.{Less, Equal, Greater};
ghost use Rattle.std.specs.Option.{option_map};
ghost use Rattle.std.specs.Map.{lookup};
ghost use Rattle.std.specs.BTreeMap.{is_at};
ghost use Rattle.std.specs.Arc.{arc_value};
ghost use Rattle.ty_persist.specs.Contents.{IsLow};
ghost use Rattle.ty_persist.specs.Shape.{node_contents, IsBalanced};
ghost use Rattle.ty_persist.specs.Cuts.{IsCut, CutWaitsWithin};

use super::{Node, Root, Tree};
use crate::Steps;
use std::alloc::Global;
use std::cmp::Ordering;
use std::sync::Arc;
use std::sync::ledger::Ledger;
use ty_path::{OutOfMemory, Share};

/// What a removal did.
#[derive(Drop)]
pub(crate) enum Removal<V> {
    /// There is no such key.
    Absent,
    /// The key is gone. This is a share of its value.
    Gone(V),
    /// The key is there still, since the tree would be lower without it. This is a share of its value.
    Waits(V),
}

// Takes out the entry of a node, where its sides are level and there is an entry on the right to take its place.
fn cut_entry<K: Ord + Share, V: Share, L: Ledger>(
    alloc: Global,
    node: &mut Node<K, V>,
    key: &K,
    steps: &mut Steps<L>,
) -> Result<Removal<V>, OutOfMemory>
    requires balanced { IsBalanced K.cmp node.old }
    requires here { K.cmp key.now (arc_value node.old.entry).key ≡ Equal }
    requires height_fits { node.old.height < 2 ^ 63 }
    ensures ok { IfOk result (λ p. IsCut K.cmp key.now V.seen (node_contents node.old).entries (node_contents node.new).entries p) }
    ensures err { OnErr result ((node_contents node.new).entries ≡ (node_contents node.old).entries) }
    ensures balanced { IsBalanced K.cmp node.new }
    ensures height { node.new.height ≡ node.old.height }
    ensures cost { steps.new ≤ steps.old + 3 * node.old.height }
    ensures waits { IfOk result (λ p. CutWaitsWithin steps.old steps.new p) }
{
    let before = node.entry.value.share(alloc)?;
    if node.left.height() != node.right.height() {
        return Ok(Removal::Waits(before));
    }
    match node.right.without_first(alloc, steps)? {
        None => Ok(Removal::Waits(before)),
        Some((first, right)) => {
            node.entry = first;
            node.right = right;
            Ok(Removal::Gone(before))
        }
    }
}

// Takes a key out of the left side, where the sides are level, so that the node stays as high. Else the key waits.
fn cut_left<K: Ord + Share, V: Share, L: Ledger>(
    alloc: Global,
    node: &mut Node<K, V>,
    key: &K,
    before: V,
    level: bool,
    steps: &mut Steps<L>,
) -> Result<Removal<V>, OutOfMemory>
    requires balanced { IsBalanced K.cmp node.old }
    requires left { K.cmp key.now (arc_value node.old.entry).key ≡ Less }
    requires there { option_map V.seen (lookup (is_at (K.cmp key.now)) (node_contents node.old).entries) ≡ Some (V.seen before) }
    requires level { IsTrue level → node.old.left.height ≡ node.old.right.height }
    requires low { IsLow node.old.right }
    requires height_fits { node.old.height < 2 ^ 63 }
    ensures ok { IfOk result (λ p. IsCut K.cmp key.now V.seen (node_contents node.old).entries (node_contents node.new).entries p) }
    ensures err { OnErr result ((node_contents node.new).entries ≡ (node_contents node.old).entries) }
    ensures balanced { IsBalanced K.cmp node.new }
    ensures height { node.new.height ≡ node.old.height }
    ensures cost { steps.new ≤ steps.old + 3 * node.old.height }
    ensures waits { IfOk result (λ p. CutWaitsWithin steps.old steps.new p) }
{
    if !level {
        return Ok(Removal::Waits(before));
    }
    node.left = node.left.without_key(alloc, key, steps)?;
    Ok(Removal::Gone(before))
}

// Takes a key out of the right side, where the sides are level, so that the node stays as high. Else the key waits.
fn cut_right<K: Ord + Share, V: Share, L: Ledger>(
    alloc: Global,
    node: &mut Node<K, V>,
    key: &K,
    before: V,
    level: bool,
    steps: &mut Steps<L>,
) -> Result<Removal<V>, OutOfMemory>
    requires balanced { IsBalanced K.cmp node.old }
    requires right { K.cmp key.now (arc_value node.old.entry).key ≡ Greater }
    requires there { option_map V.seen (lookup (is_at (K.cmp key.now)) (node_contents node.old).entries) ≡ Some (V.seen before) }
    requires level { IsTrue level → node.old.left.height ≡ node.old.right.height }
    requires low { IsLow node.old.left }
    requires height_fits { node.old.height < 2 ^ 63 }
    ensures ok { IfOk result (λ p. IsCut K.cmp key.now V.seen (node_contents node.old).entries (node_contents node.new).entries p) }
    ensures err { OnErr result ((node_contents node.new).entries ≡ (node_contents node.old).entries) }
    ensures balanced { IsBalanced K.cmp node.new }
    ensures height { node.new.height ≡ node.old.height }
    ensures cost { steps.new ≤ steps.old + 3 * node.old.height }
    ensures waits { IfOk result (λ p. CutWaitsWithin steps.old steps.new p) }
{
    if !level {
        return Ok(Removal::Waits(before));
    }
    node.right = node.right.without_key(alloc, key, steps)?;
    Ok(Removal::Gone(before))
}

impl<K: Ord + Share, V: Share> Tree<K, V> {
    // Looks for a key in a tree that others share, or that has no entry.
    fn find(&self, alloc: Global, key: &K) -> Result<Removal<V>, OutOfMemory>
        ensures ok { IfOk result (λ p. IsCut K.cmp key.now V.seen self.now.entries self.now.entries p) }
    {
        match self.get(key) {
            Some(there) => Ok(Removal::Waits(there.share(alloc)?)),
            None => Ok(Removal::Absent),
        }
    }

    // Takes a key out, where that doesn't make the tree lower.
    pub(crate) fn cut<L: Ledger>(
        &mut self,
        alloc: Global,
        key: &K,
        steps: &mut Steps<L>,
    ) -> Result<Removal<V>, OutOfMemory>
        requires height_fits { self.old.height < 2 ^ 63 }
        ensures ok { IfOk result (λ p. IsCut K.cmp key.now V.seen self.old.entries self.new.entries p) }
        ensures err { OnErr result (self.new.entries ≡ self.old.entries) }
        ensures height { self.new.height ≡ self.old.height }
        ensures low { IsLow self.old → IsLow self.new }
        ensures cost { steps.new ≤ steps.old + 3 * self.old.height }
        ensures waits { IfOk result (λ p. CutWaitsWithin steps.old steps.new p) }
    {
        let Root::Fork(n) = &mut self.root else {
            return self.find(alloc, key);
        };
        let Some(node) = Arc::get_mut(n) else {
            return self.find(alloc, key);
        };
        let level = node.left.height() == node.right.height();
        match key.cmp(&node.entry.key) {
            Ordering::Less => match node.left.cut(alloc, key, steps)? {
                Removal::Waits(before) => cut_left(alloc, node, key, before, level, steps),
                done => Ok(done),
            },
            Ordering::Equal => cut_entry(alloc, node, key, steps),
            Ordering::Greater => match node.right.cut(alloc, key, steps)? {
                Removal::Waits(before) => cut_right(alloc, node, key, before, level, steps),
                done => Ok(done),
            },
        }
    }
}
