//! Searches for roots by their order, and for pairs by their key. Each recursive call goes to a
//! child or to the next tree.
ghost use Rattle.std.specs.Prelude.{◌≡◌, ◌≢◌, ◌⊎◌, ℕ, ◌+◌, Some, None, IfNone, IfSome, IsPermutation, ◌∷◌, option_map, true, false};
ghost use Rattle.std.specs.List.{AllByRecursion};
ghost use Rattle.std.specs.declared.cmp.Ordering.TheVariants.{Equal, Greater};
ghost use Rattle.pend_queue.specs.Pairs.{KeyIsAbsent};
ghost use Rattle.binom_queue.specs.declared.forest.Forest.TheVariants.{Empty};
ghost use Rattle.binom_queue.specs.Trees.{items, tree_items, root_of, AreChildren, AreRoots, IsTakenOut, IsRaised};

use crate::forest::{Forest, Node, before, cut};
use std::cmp::Ordering;
use std::mem;

// Returns the root with the least key.
pub(crate) fn least<K: Ord, V>(roots: &Forest<K, V>) -> Option<&Node<K, V>>
    requires { AreRoots K.cmp 0 roots.now }
    ensures none { IfNone result (roots.now ≡ Empty) }
    ensures found { IfSome result (λ root. root_of root.now.order roots.now ≡ Some root.now.pair) }
    ensures least { IfSome result (λ root. AllByRecursion (λ p. K.cmp root.now.pair.0 p.0 ≢ Greater) (items roots.now)) }
{
    let Forest::Of(root) = roots else {
        return None;
    };
    let root: &Node<K, V> = root;
    Some(least_with(root, &root.next))
}

// Returns the root with the least key among `first` and the roots of a row.
fn least_with<'a, K: Ord, V>(first: &'a Node<K, V>, roots: &'a Forest<K, V>) -> &'a Node<K, V>
    requires { AreRoots K.cmp 0 roots.now }
    ensures found { (result.now ≡ first.now) ⊎ (root_of result.now.order roots.now ≡ Some result.now.pair) }
    ensures not_above { K.cmp result.now.pair.0 first.now.pair.0 ≢ Greater }
    ensures least { AllByRecursion (λ p. K.cmp result.now.pair.0 p.0 ≢ Greater) (items roots.now) }
{
    let Forest::Of(root) = roots else {
        return first;
    };
    let root: &Node<K, V> = root;
    match first.pair.0.cmp(&root.pair.0) {
        Ordering::Greater => least_with(root, &root.next),
        _ => least_with(first, &root.next),
    }
}

// Takes out the tree of this order.
pub(crate) fn detach<K: Ord + Drop, V: Drop>(
    roots: &mut Forest<K, V>,
    order: u32,
) -> Option<Box<Node<K, V>>>
    requires { AreRoots K.cmp 0 roots.old }
    ensures pair { option_map (λ root. root.value.pair) result ≡ root_of order roots.old }
    ensures none { IfNone result (roots.new ≡ roots.old) }
    ensures some { IfSome result (λ root. IsTakenOut K.cmp roots.old roots.new root.value) }
{
    match mem::replace(roots, Forest::Empty) {
        Forest::Empty => None,
        Forest::Of(root) => {
            let (root, mut rest) = cut(root);
            if root.order == order {
                *roots = rest;
                Some(root)
            } else {
                let found = detach(&mut rest, order);
                *roots = before(root, rest);
                found
            }
        }
    }
}

// Takes out the tree that holds a key, with the key's pair at its root.
pub(crate) fn detach_key<K: Ord + Drop, V: Drop>(
    roots: &mut Forest<K, V>,
    key: &K,
) -> Option<Box<Node<K, V>>>
    requires { AreRoots K.cmp 0 roots.old }
    ensures none { IfNone result ((roots.new ≡ roots.old) × KeyIsAbsent K.cmp key.now (items roots.old)) }
    ensures key { IfSome result (λ root. K.cmp root.value.pair.0 key.now ≡ Equal) }
    ensures some { IfSome result (λ root. IsTakenOut K.cmp roots.old roots.new root.value) }
{
    match mem::replace(roots, Forest::Empty) {
        Forest::Empty => None,
        Forest::Of(root) => {
            let (mut root, mut rest) = cut(root);
            if holds(&mut root, key) {
                *roots = rest;
                Some(root)
            } else {
                let found = detach_key(&mut rest, key);
                *roots = before(root, rest);
                found
            }
        }
    }
}

// Says whether a tree holds a key, and brings the key's pair to the root. It looks below a root
// only where its key is smaller.
#[cycle(raise)]
fn holds<K: Ord, V>(root: &mut Node<K, V>, key: &K) -> bool
    requires { AreChildren K.cmp root.old.pair.0 root.old.order root.old.child }
    ensures found { result ≡ true → IsRaised K.cmp key.now root.old.pair root.old.child root.new.pair root.new.child }
    ensures rest { (root.new.order ≡ root.old.order) × (root.new.next ≡ root.old.next) }
    ensures missed { result ≡ false → (root.new ≡ root.old) × KeyIsAbsent K.cmp key.now (tree_items root.old) }
{
    match key.cmp(&root.pair.0) {
        Ordering::Less => false,
        Ordering::Equal => true,
        Ordering::Greater => raise(&mut root.pair, &mut root.child, key),
    }
}

// Says whether trees hold a key, and exchanges the key's pair with the one above them.
#[cycle(raise)]
fn raise<K: Ord, V>(above: &mut (K, V), trees: &mut Forest<K, V>, key: &K) -> bool
    requires { (n : ℕ) × AreChildren K.cmp above.old.0 n trees.old }
    ensures found { result ≡ true → IsRaised K.cmp key.now above.old trees.old above.new trees.new }
    ensures missed { result ≡ false → (above.new ≡ above.old) × (trees.new ≡ trees.old) × KeyIsAbsent K.cmp key.now (items trees.old) }
{
    let Forest::Of(root) = trees else {
        return false;
    };
    let root: &mut Node<K, V> = root;
    if holds(root, key) {
        mem::swap(above, &mut root.pair);
        return true;
    }
    raise(above, &mut root.next, key)
}
