//! A height-balanced tree whose nodes are shared.
ghost use Rattle.std.specs.Prelude.{◌≡◌, ◌+◌, ◌*◌, ◌^◌, ◌<◌, ◌≤◌, [], ◌∷◌, ◌++◌, length, max, IsSome, IfOk, IfSome, IfNone, MatchOption};
ghost use Rattle.std.specs.Arc.{arc_value};
ghost use Rattle.std.specs.Option.{option_copied, option_map};
ghost use Rattle.std.specs.Map.{lookup, remove_entry};
ghost use Rattle.std.specs.BTreeMap.{is_at};
ghost use Rattle.ty_persist.specs.Contents.{put_entry, above, first_of, IsAscending, IsLow};
ghost use Rattle.std.specs.Ordering.{nat_cmp, is_eq};
ghost use Rattle.std.specs.Cmp.Lexicographic.{slice_cmp};
ghost use Rattle.ty_persist.specs.Shape.{pair, around, DifferByAtMost, IsHeightAfterRebalance};

use crate::Steps;
use crate::entry::Entry;
use crate::text_key::TextKey;
use std::alloc::Global;
use std::cmp::Ordering;
use std::marker::Model;
use std::sync::Arc;
use std::sync::ledger::Ledger;
use ty_path::{OutOfMemory, Share};

mod cut;
mod put;

pub(crate) use cut::Removal;
pub(crate) use put::Outcome;

/// Entries in the order of their keys, as a tree whose nodes are shared.
#[cycle(tree)]
#[derive(Drop)]
pub(crate) struct Tree<K: Ord + Share, V: Share> {
    root: Root<K, V>,
}

/// No entry, or a node that other trees may share.
#[cycle(tree)]
#[derive(Drop)]
enum Root<K: Ord + Share, V: Share> {
    Leaf,
    Fork(Arc<Node<K, V>>),
}

/// An entry between two trees nearly of one height, and the height of the whole.
#[cycle(tree)]
#[derive(Drop)]
struct Node<K: Ord + Share, V: Share> {
    left: Tree<K, V>,
    entry: Arc<Entry<K, V>>,
    height: u64,
    right: Tree<K, V>,
}

impl<K: Ord + Share, V: Share> Model for Tree<K, V> {
    ghost use Rattle.std.specs.Prelude.{length};
    ghost use Rattle.ty_persist.specs.Contents.{Contents, contents_code};

    ghost Value = { Contents K V };

    ghost coded = { contents_code K.code V.code };

    ghost use Rattle.std.specs.Ordering.{nat_cmp, is_eq};
    ghost use Rattle.std.specs.Cmp.Lexicographic.{slice_cmp};
    ghost use Rattle.ty_persist.specs.Shape.{contents, IsAvl};

    ghost view = { λ a. contents a.root };

    ghost invariant = { λ a. IsAvl K.cmp a.root };

    ghost size = { λ c. length c.entries };

    ghost use Rattle.std.proofs.Common.{arith, length-append};

    ghost size_decreases = { λ a h. Prim.grind (arith, length-append) };
}

impl<K: Ord + Share, V: Share> Tree<K, V> {
    pub(crate) fn new() -> Tree<K, V>
        ensures entries { result.entries ≡ [] }
        ensures height { result.height ≡ 0 }
    {
        Tree { root: Root::Leaf }
    }

    fn height(&self) -> u64
        ensures height { result ≡ self.now.height }
        ensures ascending { IsAscending K.cmp self.now.entries }
        ensures low { IsLow self.now }
    {
        match &self.root {
            Root::Leaf => 0,
            Root::Fork(n) => n.height,
        }
    }

    pub(crate) fn share(&self) -> Result<Tree<K, V>, OutOfMemory>
        ensures same { IfOk result (λ again. again ≡ self.now) }
        ensures low { IfOk result (λ t. IsLow t) }
    {
        match &self.root {
            Root::Leaf => Ok(Tree { root: Root::Leaf }),
            Root::Fork(n) => Ok(Tree {
                root: Root::Fork(Arc::try_clone(n)?),
            }),
        }
    }

    pub(crate) fn get(&self, key: &K) -> Option<&V>
        ensures { option_copied result ≡ lookup (is_at (K.cmp key.now)) self.now.entries }
    {
        match &self.root {
            Root::Leaf => None,
            Root::Fork(n) => match key.cmp(&n.entry.key) {
                Ordering::Less => n.left.get(key),
                Ordering::Equal => Some(&n.entry.value),
                Ordering::Greater => n.right.get(key),
            },
        }
    }
}

// A node of these sides, which are nearly of one height.
fn fork<K: Ord + Share, V: Share, L: Ledger>(
    alloc: Global,
    left: Tree<K, V>,
    entry: Arc<Entry<K, V>>,
    right: Tree<K, V>,
    steps: &mut Steps<L>,
) -> Result<Tree<K, V>, OutOfMemory>
    requires ascending { IsAscending K.cmp (around left (arc_value entry) right) }
    requires near { DifferByAtMost 1 left.height right.height }
    requires height_fits { max left.height right.height + 1 < 2 ^ 64 }
    ensures entries { IfOk result (λ t. t.entries ≡ around left (arc_value entry) right) }
    ensures height { IfOk result (λ t. t.height ≡ max left.height right.height + 1) }
    ensures cost { steps.new ≡ steps.old + 1 }
    ensures low { IfOk result (λ t. IsLow t) }
{
    steps.tick();
    let height = left.height().max(right.height()) + 1;
    let made = Node {
        left,
        entry,
        height,
        right,
    };
    Ok(Tree {
        root: Root::Fork(Arc::new(alloc, made)?),
    })
}

// The double rotation: the middle is taken apart.
fn fork_apart<K: Ord + Share, V: Share, L: Ledger>(
    alloc: Global,
    left: Tree<K, V>,
    first: Arc<Entry<K, V>>,
    middle: &Tree<K, V>,
    last: Arc<Entry<K, V>>,
    right: Tree<K, V>,
    steps: &mut Steps<L>,
) -> Result<Tree<K, V>, OutOfMemory>
    requires ascending { IsAscending K.cmp (around left (arc_value first) middle.now ++ pair (arc_value last) ∷ right.entries) }
    requires level { left.height ≡ right.height }
    requires one_higher { middle.now.height ≡ left.height + 1 }
    requires height_fits { left.height < 2 ^ 63 }
    ensures entries { IfOk result (λ t. t.entries ≡ around left (arc_value first) middle.now ++ pair (arc_value last) ∷ right.entries) }
    ensures height { IfOk result (λ t. t.height ≡ left.height + 2) }
    ensures cost { steps.new ≤ steps.old + 3 }
    ensures low { IfOk result (λ t. IsLow t) }
{
    let Root::Fork(n) = &middle.root else {
        unreachable!()
    };
    let n: &Node<K, V> = n;
    let left = fork(alloc, left, first, n.left.share()?, steps)?;
    let right = fork(alloc, n.right.share()?, last, right, steps)?;
    fork(alloc, left, Arc::try_clone(&n.entry)?, right, steps)
}

// A node of these sides, rotated, where the left one is two levels higher.
fn lean_left<K: Ord + Share, V: Share, L: Ledger>(
    alloc: Global,
    left: &Tree<K, V>,
    entry: Arc<Entry<K, V>>,
    right: Tree<K, V>,
    steps: &mut Steps<L>,
) -> Result<Tree<K, V>, OutOfMemory>
    requires ascending { IsAscending K.cmp (around left.now (arc_value entry) right) }
    requires two_higher { left.now.height ≡ right.height + 2 }
    requires height_fits { right.height < 2 ^ 63 }
    ensures entries { IfOk result (λ t. t.entries ≡ around left.now (arc_value entry) right) }
    ensures height { IfOk result (λ t. (left.now.height ≤ t.height) × (t.height ≤ left.now.height + 1)) }
    ensures cost { steps.new ≤ steps.old + 3 }
    ensures low { IfOk result (λ t. IsLow t) }
{
    let Root::Fork(n) = &left.root else {
        unreachable!()
    };
    let n: &Node<K, V> = n;
    let first = Arc::try_clone(&n.entry)?;
    if n.left.height() >= n.right.height() {
        let right = fork(alloc, n.right.share()?, entry, right, steps)?;
        fork(alloc, n.left.share()?, first, right, steps)
    } else {
        fork_apart(alloc, n.left.share()?, first, &n.right, entry, right, steps)
    }
}

// A node of these sides, rotated, where the right one is two levels higher.
fn lean_right<K: Ord + Share, V: Share, L: Ledger>(
    alloc: Global,
    left: Tree<K, V>,
    entry: Arc<Entry<K, V>>,
    right: &Tree<K, V>,
    steps: &mut Steps<L>,
) -> Result<Tree<K, V>, OutOfMemory>
    requires ascending { IsAscending K.cmp (around left (arc_value entry) right.now) }
    requires two_higher { right.now.height ≡ left.height + 2 }
    requires height_fits { left.height < 2 ^ 63 }
    ensures entries { IfOk result (λ t. t.entries ≡ around left (arc_value entry) right.now) }
    ensures height { IfOk result (λ t. (right.now.height ≤ t.height) × (t.height ≤ right.now.height + 1)) }
    ensures cost { steps.new ≤ steps.old + 3 }
    ensures low { IfOk result (λ t. IsLow t) }
{
    let Root::Fork(n) = &right.root else {
        unreachable!()
    };
    let n: &Node<K, V> = n;
    let last = Arc::try_clone(&n.entry)?;
    if n.right.height() >= n.left.height() {
        let left = fork(alloc, left, entry, n.left.share()?, steps)?;
        fork(alloc, left, last, n.right.share()?, steps)
    } else {
        fork_apart(alloc, left, entry, &n.left, last, n.right.share()?, steps)
    }
}

// A node of these sides, rotated where one is two levels higher.
fn balanced<K: Ord + Share, V: Share, L: Ledger>(
    alloc: Global,
    left: Tree<K, V>,
    entry: Arc<Entry<K, V>>,
    right: Tree<K, V>,
    steps: &mut Steps<L>,
) -> Result<Tree<K, V>, OutOfMemory>
    requires ascending { IsAscending K.cmp (around left (arc_value entry) right) }
    requires near { DifferByAtMost 2 left.height right.height }
    requires height_fits { max left.height right.height ≤ 2 ^ 63 }
    ensures entries { IfOk result (λ t. t.entries ≡ around left (arc_value entry) right) }
    ensures height { IfOk result (λ t. IsHeightAfterRebalance left.height right.height t.height) }
    ensures cost { steps.new ≤ steps.old + 3 }
    ensures low { IfOk result (λ t. IsLow t) }
{
    let (low, high) = (left.height(), right.height());
    if low > high + 1 {
        lean_left(alloc, &left, entry, right, steps)
    } else if high > low + 1 {
        lean_right(alloc, left, entry, &right, steps)
    } else {
        fork(alloc, left, entry, right, steps)
    }
}

// The node with another left side, rotated where one is two levels higher. The old one stays.
fn with_left<K: Ord + Share, V: Share, L: Ledger>(
    alloc: Global,
    node: &Node<K, V>,
    left: Tree<K, V>,
    steps: &mut Steps<L>,
) -> Result<Tree<K, V>, OutOfMemory>
    requires ascending { IsAscending K.cmp (around left (arc_value node.now.entry) node.now.right) }
    requires near { DifferByAtMost 2 left.height node.now.right.height }
    requires height_fits { max left.height node.now.right.height ≤ 2 ^ 63 }
    ensures entries { IfOk result (λ t. t.entries ≡ around left (arc_value node.now.entry) node.now.right) }
    ensures height { IfOk result (λ t. IsHeightAfterRebalance left.height node.now.right.height t.height) }
    ensures cost { steps.new ≤ steps.old + 3 }
    ensures low { IfOk result (λ t. IsLow t) }
{
    let entry = Arc::try_clone(&node.entry)?;
    let right = node.right.share()?;
    balanced(alloc, left, entry, right, steps)
}

// The node with another right side, rotated where one is two levels higher. The old one stays.
fn with_right<K: Ord + Share, V: Share, L: Ledger>(
    alloc: Global,
    node: &Node<K, V>,
    right: Tree<K, V>,
    steps: &mut Steps<L>,
) -> Result<Tree<K, V>, OutOfMemory>
    requires ascending { IsAscending K.cmp (around node.now.left (arc_value node.now.entry) right) }
    requires near { DifferByAtMost 2 node.now.left.height right.height }
    requires height_fits { max node.now.left.height right.height ≤ 2 ^ 63 }
    ensures entries { IfOk result (λ t. t.entries ≡ around node.now.left (arc_value node.now.entry) right) }
    ensures height { IfOk result (λ t. IsHeightAfterRebalance node.now.left.height right.height t.height) }
    ensures cost { steps.new ≤ steps.old + 3 }
    ensures low { IfOk result (λ t. IsLow t) }
{
    let left = node.left.share()?;
    let entry = Arc::try_clone(&node.entry)?;
    balanced(alloc, left, entry, right, steps)
}

impl<K: Ord + Share, V: Share> Tree<K, V> {
    // The tree with an entry put in. This one stays.
    pub(crate) fn with_entry<L: Ledger>(
        &self,
        alloc: Global,
        entry: Arc<Entry<K, V>>,
        steps: &mut Steps<L>,
    ) -> Result<Tree<K, V>, OutOfMemory>
        requires height_fits { self.now.height < 2 ^ 63 }
        ensures entries { IfOk result (λ t. t.entries ≡ put_entry K.cmp self.now.entries (arc_value entry).key (arc_value entry).value) }
        ensures height { IfOk result (λ t. (self.now.height ≤ t.height) × (t.height ≤ self.now.height + 1)) }
        ensures level { IsSome (lookup (is_at (K.cmp (arc_value entry).key)) self.now.entries) → IfOk result (λ t. t.height ≡ self.now.height) }
        ensures cost { steps.new ≤ steps.old + 3 * self.now.height + 1 }
        ensures low { IfOk result (λ t. IsLow t) }
    {
        match &self.root {
            Root::Leaf => fork(alloc, Tree::new(), entry, Tree::new(), steps),
            Root::Fork(n) => {
                let n: &Node<K, V> = n;
                match entry.key.cmp(&n.entry.key) {
                    Ordering::Less => {
                        let left = n.left.with_entry(alloc, entry, steps)?;
                        with_left(alloc, n, left, steps)
                    }
                    Ordering::Equal => fork(alloc, n.left.share()?, entry, n.right.share()?, steps),
                    Ordering::Greater => {
                        let right = n.right.with_entry(alloc, entry, steps)?;
                        with_right(alloc, n, right, steps)
                    }
                }
            }
        }
    }
}

impl<K: Ord + Share, V: Share> Tree<K, V> {
    // The first entry, and the tree without it.
    fn without_first<L: Ledger>(
        &self,
        alloc: Global,
        steps: &mut Steps<L>,
    ) -> Result<Option<(Arc<Entry<K, V>>, Tree<K, V>)>, OutOfMemory>
        requires height_fits { self.now.height < 2 ^ 63 }
        ensures entries { IfOk result (λ found. MatchOption found (self.now.entries ≡ []) (λ p. self.now.entries ≡ pair (arc_value p.0) ∷ p.1.entries)) }
        ensures none { IfOk result (λ found. IfNone found (self.now.height ≡ 0)) }
        ensures height { IfOk result (λ found. IfSome found (λ p. (p.1.height ≤ self.now.height) × (self.now.height ≤ p.1.height + 1))) }
        ensures cost { steps.new ≤ steps.old + 3 * self.now.height }
        ensures low { IfOk result (λ found. IfSome found (λ p. IsLow p.1)) }
    {
        match &self.root {
            Root::Leaf => Ok(None),
            Root::Fork(n) => {
                let n: &Node<K, V> = n;
                match n.left.without_first(alloc, steps)? {
                    None => Ok(Some((Arc::try_clone(&n.entry)?, n.right.share()?))),
                    Some((first, left)) => Ok(Some((first, with_left(alloc, n, left, steps)?))),
                }
            }
        }
    }

    // The tree without a key. This one stays.
    pub(crate) fn without_key<L: Ledger>(
        &self,
        alloc: Global,
        key: &K,
        steps: &mut Steps<L>,
    ) -> Result<Tree<K, V>, OutOfMemory>
        requires height_fits { self.now.height < 2 ^ 63 }
        ensures entries { IfOk result (λ t. t.entries ≡ remove_entry (is_at (K.cmp key.now)) self.now.entries) }
        ensures height { IfOk result (λ t. (t.height ≤ self.now.height) × (self.now.height ≤ t.height + 1)) }
        ensures cost { steps.new ≤ steps.old + 3 * self.now.height }
        ensures low { IfOk result (λ t. IsLow t) }
    {
        match &self.root {
            Root::Leaf => Ok(Tree::new()),
            Root::Fork(n) => {
                let n: &Node<K, V> = n;
                match key.cmp(&n.entry.key) {
                    Ordering::Less => {
                        let left = n.left.without_key(alloc, key, steps)?;
                        with_left(alloc, n, left, steps)
                    }
                    Ordering::Equal => match n.right.without_first(alloc, steps)? {
                        None => Ok(n.left.share()?),
                        Some((first, right)) => balanced(
                            alloc,
                            n.left.share()?,
                            first,
                            right,
                            steps,
                        ),
                    },
                    Ordering::Greater => {
                        let right = n.right.without_key(alloc, key, steps)?;
                        with_right(alloc, n, right, steps)
                    }
                }
            }
        }
    }
}

impl<K: Ord + Share, V: Share> Tree<K, V> {
    // The first entry.
    pub(crate) fn first(&self) -> Option<&Entry<K, V>>
        ensures { option_map (λ e. pair e.now) result ≡ first_of self.now.entries }
    {
        match &self.root {
            Root::Leaf => None,
            Root::Fork(n) => {
                let n: &Node<K, V> = n;
                match n.left.first() {
                    Some(found) => Some(found),
                    None => Some(&n.entry),
                }
            }
        }
    }

    // The first entry whose key is above this one.
    pub(crate) fn first_above(&self, key: &K) -> Option<&Entry<K, V>>
        ensures { option_map (λ e. pair e.now) result ≡ first_of (above K.cmp key.now self.now.entries) }
    {
        match &self.root {
            Root::Leaf => None,
            Root::Fork(n) => {
                let n: &Node<K, V> = n;
                match key.cmp(&n.entry.key) {
                    Ordering::Less => match n.left.first_above(key) {
                        Some(found) => Some(found),
                        None => Some(&n.entry),
                    },
                    Ordering::Equal => n.right.first(),
                    Ordering::Greater => n.right.first_above(key),
                }
            }
        }
    }
}

impl<K: TextKey + Share, V: Share> Tree<K, V> {
    // The value at the key with this text.
    pub(crate) fn get_text(&self, text: &str) -> Option<&V>
        ensures { option_copied result ≡ lookup (λ k. is_eq (slice_cmp nat_cmp text.now (K.text_of k))) self.now.entries }
    {
        match &self.root {
            Root::Leaf => None,
            Root::Fork(n) => {
                let n: &Node<K, V> = n;
                match n.entry.key.compare_with(text) {
                    Ordering::Less => n.left.get_text(text),
                    Ordering::Equal => Some(&n.entry.value),
                    Ordering::Greater => n.right.get_text(text),
                }
            }
        }
    }
}
