//! Trees that are linked to larger ones. Each recursive call goes to the next tree, so the depth is
//! at most the number of trees.
ghost use Rattle.std.specs.Prelude.{◌≡◌, ◌≢◌, ℕ, ◌+◌, ◌^◌, ◌<◌, ◌≤◌, ◌∷◌, ◌++◌, length, IsPermutation};
ghost use Rattle.std.specs.declared.cmp.Ordering.TheVariants.{Greater};
ghost use Rattle.binom_queue.specs.declared.forest.Forest.TheVariants.{Empty};
ghost use Rattle.binom_queue.specs.Trees.{items, tree_items, trees, AreChildren, IsTree, AreRoots};

use crate::forest::{Forest, Node, before, cut};
use crate::links::{Links, link};

// Adds a tree to a row of trees of no smaller order.
pub(crate) fn add<K: Ord + Drop, V: Drop>(
    roots: Forest<K, V>,
    tree: Box<Node<K, V>>,
    links: &mut Links,
) -> Forest<K, V>
    requires tree { IsTree K.cmp tree.value }
    requires roots { AreRoots K.cmp tree.value.order roots }
    requires fits { length (tree_items tree.value) + length (items roots) < 2 ^ 64 }
    ensures roots { AreRoots K.cmp tree.value.order result }
    ensures pairs { IsPermutation (tree_items tree.value ++ items roots) (items result) }
    ensures links { links.new.count + trees result ≡ links.old.count + trees roots + 1 }
    ensures no_fewer { links.old.count ≤ links.new.count }
{
    match roots {
        Forest::Empty => Forest::Of(tree),
        Forest::Of(first) => {
            if first.order == tree.order {
                let (first, rest) = cut(first);
                add(rest, link(tree, first, links), links)
            } else {
                before(tree, Forest::Of(first))
            }
        }
    }
}

// Merges two rows of trees.
pub(crate) fn union<K: Ord + Drop, V: Drop>(
    left: Forest<K, V>,
    right: Forest<K, V>,
    links: &mut Links,
) -> Forest<K, V>
    requires left { AreRoots K.cmp 0 left }
    requires right { AreRoots K.cmp 0 right }
    requires fits { length (items left) + length (items right) < 2 ^ 64 }
    ensures roots { (n : ℕ) → AreRoots K.cmp n left → AreRoots K.cmp n right → AreRoots K.cmp n result }
    ensures pairs { IsPermutation (items left ++ items right) (items result) }
    ensures links { links.new.count + trees result ≡ links.old.count + (trees left + trees right) }
    ensures no_fewer { links.old.count ≤ links.new.count }
{
    match (left, right) {
        (Forest::Empty, right) => right,
        (left, Forest::Empty) => left,
        (Forest::Of(first), Forest::Of(second)) => {
            if first.order < second.order {
                let (first, rest) = cut(first);
                before(first, union(rest, Forest::Of(second), links))
            } else if second.order < first.order {
                let (second, rest) = cut(second);
                before(second, union(Forest::Of(first), rest, links))
            } else {
                let (root, left) = cut(first);
                let (other, right) = cut(second);
                let rest = union(left, right, links);
                add(rest, link(root, other, links), links)
            }
        }
    }
}

// Puts the children of a root before a row of trees whose orders aren't smaller than its own.
pub(crate) fn raised<K: Ord + Drop, V: Drop>(
    children: Forest<K, V>,
    greater: Forest<K, V>,
) -> Forest<K, V>
    requires { (key : K) × (n : ℕ) × AreChildren K.cmp key n children × AreRoots K.cmp n greater }
    ensures roots { AreRoots K.cmp 0 result }
    ensures pairs { IsPermutation (items children ++ items greater) (items result) }
{
    match children {
        Forest::Empty => greater,
        Forest::Of(child) => {
            let (child, rest) = cut(child);
            raised(rest, before(child, greater))
        }
    }
}
