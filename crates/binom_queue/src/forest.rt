//! Rows of trees: each is a root with its first child and its next tree.
ghost use Rattle.std.specs.Prelude.{◌≡◌};
ghost use Rattle.std.specs.Box.{with_value};
ghost use Rattle.binom_queue.specs.declared.forest.Forest.TheVariants.{Empty, Of};

use std::mem;

/// A row of trees: the root of the first one, with its children, and the trees after it.
#[cycle(forest)]
#[derive(Drop)]
pub(crate) enum Forest<K, V> {
    Empty,
    Of(Box<Node<K, V>>),
}

/// A root with the trees below it, the greatest first, and the trees after it.
#[cycle(forest)]
#[derive(Drop)]
pub(crate) struct Node<K, V> {
    pub(crate) pair: (K, V),

    // A tree of order n has 2 to the n nodes.
    pub(crate) order: u32,

    pub(crate) child: Forest<K, V>,

    pub(crate) next: Forest<K, V>,
}

// Separates a root's own tree from the trees after it.
#[inline(always)]
pub(crate) fn cut<K: Drop, V: Drop>(mut root: Box<Node<K, V>>) -> (Box<Node<K, V>>, Forest<K, V>)
    ensures tree { result.0 ≡ with_value root (record root.value { next = Empty }) }
    ensures rest { result.1 ≡ root.value.next }
{
    let rest = mem::replace(&mut root.next, Forest::Empty);
    (root, rest)
}

// Puts a tree before a row of trees.
#[inline(always)]
pub(crate) fn before<K: Drop, V: Drop>(
    mut root: Box<Node<K, V>>,
    rest: Forest<K, V>,
) -> Forest<K, V>
    requires { root.value.next ≡ Empty }
    ensures { result ≡ Of (with_value root (record root.value { next = rest })) }
{
    root.next = rest;
    Forest::Of(root)
}
