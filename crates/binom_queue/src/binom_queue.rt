ghost use Rattle.std.specs.Prelude.{◌≡◌, ℕ, ◌+◌, ◌-◌, ◌*◌, ◌^◌, ◌<◌, ◌≤◌, [], ◌++◌, length, count_ones, IfOk, IsOk, IsPermutation};
ghost use Rattle.pend_queue.specs.Pairs.{IsAscending, HaveNoCommonKey, merged};
ghost use Rattle.binom_queue.specs.declared.forest.Forest.TheVariants.{Empty};
ghost use Rattle.binom_queue.specs.Trees.{items, AreChildren, AreRoots};

use crate::forest::{Forest, Node};
use crate::grow::{add, raised, union};
use crate::links::Links;
use crate::search::{detach, detach_key, least};
use crate::single::Single;
use pend_queue::PendQueue;
use std::alloc::{AllocError, AllocFailed, Global};
use std::marker::Model;
use std::mem;

/// A queue as a row of binomial trees: heap-ordered, of rising orders, one for each 1 among the
/// binary digits of the length.
///
/// Adding, removing and merging allocate nothing, and free only the nodes that they return. They
/// recurse no deeper than twice the number of binary digits of the length.
#[derive(Drop)]
pub struct BinomQueue<K: Ord, V> {
    roots: Forest<K, V>,
    len: usize,
    room: usize,
    links: Links,
}

impl<K: Ord, V> Model for BinomQueue<K, V> {
    ghost use Rattle.binom_queue.specs.Queue.{Binomial, IsBinomial, seen};

    ghost Value = { Binomial K V };

    ghost view = { λ queue. seen K.cmp queue.roots queue.room queue.links.count };

    ghost invariant = { λ queue. IsBinomial K.cmp queue.roots queue.len queue.room };
}

impl<K: Ord + Drop, V: Drop> BinomQueue<K, V> {
    /// Moves all pairs of `other` over as [`merge`](PendQueue::merge) does, and returns the number
    /// of times that it linked two trees: one for each carry in the binary addition of the two
    /// lengths. `O(log n)` for `n` pairs in both.
    pub fn merge_counted(&mut self, other: &mut Self) -> u64
        requires room { length self.old.pairs + length other.old.pairs ≤ self.old.room }
        requires apart { HaveNoCommonKey K.cmp self.old.pairs other.old.pairs }
        ensures pairs { self.new.pairs ≡ merged K.cmp self.old.pairs other.old.pairs }
        ensures room { self.new.room ≡ self.old.room }
        ensures emptied { other.new.pairs ≡ [] }
        ensures other_room { other.new.room ≡ other.old.room }

        // The number of links is the number of 1 digits of both lengths less that of their sum.
        ensures answer { let n = length self.old.pairs in let m = length other.old.pairs in result ≡ count_ones n + count_ones m - count_ones (n + m) }
        ensures links { self.new.links ≡ self.old.links + result }
        ensures other_links { other.new.links ≡ other.old.links }

        // The pairs of both queues, by rising key.
        ensures ascending { IsAscending K.cmp self.new.pairs }
        ensures permutation { IsPermutation (self.old.pairs ++ other.old.pairs) self.new.pairs }
    {
        let trees = self.len.count_ones() + other.len.count_ones();
        let left = mem::replace(&mut self.roots, Forest::Empty);
        let right = mem::replace(&mut other.roots, Forest::Empty);
        self.roots = union(left, right, &mut self.links);
        self.len += other.len;
        other.len = 0;
        (trees - self.len.count_ones()) as u64
    }
}

impl<K: Ord + Drop, V: Drop> PendQueue<K, V> for BinomQueue<K, V> {
    type Node = Single<K, V>;

    ghost pairs = { λ queue. queue.pairs };

    ghost room = { λ queue. queue.room };

    ghost pair_of = { λ node. node };

    ghost links = { λ queue. queue.links };

    // One link for each carry in the binary addition of the two lengths.
    ghost links_of_merge = { λ held more. count_ones held + count_ones more - count_ones (held + more) };

    /// Allocates nothing, and never fails.
    fn with_room(alloc: Global, most: usize) -> Result<Self, AllocError>
        ensures empty { IfOk result (λ queue. queue.pairs ≡ []) }
        ensures room { IfOk result (λ queue. queue.room ≡ most) }
        ensures made { IsOk result }
    {
        Ok(BinomQueue {
            roots: Forest::Empty,
            len: 0,
            room: most,
            links: Links::of_new_queue(alloc),
        })
    }

    fn node(alloc: Global, key: K, value: V) -> Result<Single<K, V>, AllocFailed<(K, V)>> {
        Single::new(alloc, key, value)
    }

    fn pair(node: &Single<K, V>) -> (&K, &V) {
        let pair = &node.root.pair;
        (&pair.0, &pair.1)
    }

    fn into_pair(node: Single<K, V>) -> (K, V) {
        let Node { pair, .. } = Box::into_inner(node.root);
        pair
    }

    /// By the type's invariant there is one tree for each 1 among the binary digits of the length,
    /// and no walk from a root, by children and siblings, passes more nodes than twice the number
    /// of those digits.
    fn len(&self) -> usize
        ensures len { result ≡ length self.now.pairs }
        ensures ascending { IsAscending K.cmp self.now.pairs }
        ensures fits { length self.now.pairs ≤ self.now.room }
        ensures trees { self.now.trees ≡ count_ones (length self.now.pairs) }
        ensures shallow { (digits : ℕ) → length self.now.pairs < 2 ^ digits → self.now.depth ≤ 2 * digits }
    {
        self.len
    }

    fn is_empty(&self) -> bool {
        self.len == 0
    }

    /// `O(log n)`: looks at the root of each tree.
    fn first(&self) -> Option<&K> {
        match least(&self.roots) {
            Some(root) => Some(&root.pair.0),
            None => None,
        }
    }

    /// `O(1)` on average over consecutive pushes, `O(log n)` at most: one link for each carry of the length.
    fn push(&mut self, node: Single<K, V>) {
        let roots = mem::replace(&mut self.roots, Forest::Empty);
        self.roots = add(roots, node.root, &mut self.links);
        self.len += 1;
    }

    /// `O(log n)`.
    fn pop(&mut self) -> Option<Single<K, V>> {
        let order = least(&self.roots)?.order;
        let root = detach(&mut self.roots, order)?;
        self.len -= 1;
        Some(part(&mut self.roots, root, &mut self.links))
    }

    /// Looks below a root only where its key is smaller, so at `n` pairs at most. Taking the pair
    /// out is `O(log n)`.
    fn remove(&mut self, key: &K) -> Option<Single<K, V>> {
        let root = detach_key(&mut self.roots, key)?;
        self.len -= 1;
        Some(part(&mut self.roots, root, &mut self.links))
    }

    /// `O(log n)` for `n` pairs in both.
    fn merge(&mut self, other: &mut Self) {
        self.merge_counted(other);
    }
}

// Puts the trees below a root that was taken out back into the row.
fn part<K: Ord + Drop, V: Drop>(
    roots: &mut Forest<K, V>,
    mut root: Box<Node<K, V>>,
    links: &mut Links,
) -> Single<K, V>
    requires roots { AreRoots K.cmp 0 roots.old }
    requires below { (key : K) × AreChildren K.cmp key root.value.order root.value.child }
    requires alone { root.value.next ≡ Empty }
    requires fits { length (items root.value.child) + length (items roots.old) < 2 ^ 64 }
    ensures pair { result ≡ root.value.pair }
    ensures roots { AreRoots K.cmp 0 roots.new }
    ensures rest { IsPermutation (items root.value.child ++ items roots.old) (items roots.new) }
{
    let children = mem::replace(&mut root.child, Forest::Empty);
    let others = mem::replace(roots, Forest::Empty);
    *roots = union(raised(children, Forest::Empty), others, links);
    root.order = 0;
    Single { root }
}
