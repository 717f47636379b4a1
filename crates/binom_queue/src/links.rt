//! The linking of two trees, and the number of times that a queue did it, which contracts alone
//! see. Only this file raises the number, and only the holder of an allocator, who makes a queue,
//! begins one.
ghost use Rattle.std.specs.Prelude.{◌≡◌, ◌≢◌, ℕ, ◌+◌, ◌<◌, ◌∷◌, ◌++◌, IsPermutation};
ghost use Rattle.std.specs.Borrow.{ftrue};
ghost use Rattle.std.specs.declared.cmp.Ordering.TheVariants.{Greater};
ghost use Rattle.binom_queue.specs.Trees.{items, tree_items, IsTree};

use crate::forest::{Forest, Node};
use std::alloc::Global;
use std::cmp::Ordering;
use std::marker::Model;
use std::mem;

/// The number of links of a queue. It takes no memory, and its methods do nothing at run time.
#[derive(Drop)]
pub(crate) struct Links {
    ghost count: { ℕ },
}

impl Model for Links {
    ghost also_owns = { λ _. ftrue };
}

impl Links {
    /// The number of a new queue, which is 0.
    pub(crate) fn of_new_queue(_alloc: Global) -> Links
        ensures { result.count ≡ 0 }
    {
        Links::none()
    }

    fn none() -> Links
        ensures { result.count ≡ 0 }
    {
        Links {}
    }

    #[inline(always)]
    fn and_one(&self) -> Links
        ensures { result.count ≡ self.now.count + 1 }
    {
        Links {}
    }
}

// Links two trees of one order to one tree.
pub(crate) fn link<K: Ord + Drop, V: Drop>(
    first: Box<Node<K, V>>,
    second: Box<Node<K, V>>,
    links: &mut Links,
) -> Box<Node<K, V>>
    requires first { IsTree K.cmp first.value }
    requires second { IsTree K.cmp second.value }
    requires order { second.value.order ≡ first.value.order }
    requires small { first.value.order < 64 }
    ensures tree { IsTree K.cmp result.value }
    ensures order { result.value.order ≡ first.value.order + 1 }
    ensures pairs { IsPermutation (tree_items first.value ++ tree_items second.value) (tree_items result.value) }
    ensures links { links.new.count ≡ links.old.count + 1 }
{
    *links = links.and_one();
    match first.pair.0.cmp(&second.pair.0) {
        Ordering::Greater => under(second, first),
        _ => under(first, second),
    }
}

// Puts the second tree below the first one's root, as its first child.
fn under<K: Ord + Drop, V: Drop>(
    mut root: Box<Node<K, V>>,
    mut child: Box<Node<K, V>>,
) -> Box<Node<K, V>>
    requires root { IsTree K.cmp root.value }
    requires child { IsTree K.cmp child.value }
    requires order { child.value.order ≡ root.value.order }
    requires heap { K.cmp root.value.pair.0 child.value.pair.0 ≢ Greater }
    requires small { root.value.order < 64 }
    ensures tree { IsTree K.cmp result.value }
    ensures order { result.value.order ≡ root.value.order + 1 }
    ensures pairs { tree_items result.value ≡ root.value.pair ∷ (tree_items child.value ++ items root.value.child) }
{
    child.next = mem::replace(&mut root.child, Forest::Empty);
    root.child = Forest::Of(child);
    root.order += 1;
    root
}
