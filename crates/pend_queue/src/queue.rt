ghost use Rattle.std.specs.Prelude.{◌≡◌, ℕ, ◌+◌, ◌<◌, ◌≤◌, ◌↔◌, List, [], ◌∷◌, ◌++◌, length, drop, slice_get, option_map, option_copied, option_to_list, IfOk, IfErr, IsTrue, IsPermutation};
ghost use Rattle.pend_queue.specs.Pairs.{IsAscending, KeyIsAbsent, HaveNoCommonKey, inserted, pair_at, pairs_without, merged};

use std::alloc::{AllocError, AllocFailed, Global};

/// A queue of pairs of a key and a value, by rising key, with a fixed room.
///
/// Only [`with_room`](PendQueue::with_room) and [`node`](PendQueue::node) allocate.
pub trait PendQueue<K: Ord, V>: Drop {
    /// A pair with all the memory that it needs in a queue.
    type Node: Drop;

    /// The pairs, by rising key.
    ghost pairs: { Self → List (K × V) };

    /// The most pairs that it may hold.
    ghost room: { Self → ℕ };

    ghost pair_of: { Self.Node → K × V };

    /// The number of times that it has linked two trees of pairs; 0 for a queue without trees.
    ghost links: { Self → ℕ };

    /// The number of links of a merge of two queues with these numbers of pairs.
    ghost links_of_merge: { ℕ → ℕ → ℕ };

    /// Makes an empty queue. Fails only where memory for the room is refused.
    fn with_room(alloc: Global, most: usize) -> Result<Self, AllocError>
        ensures empty { IfOk result (λ queue. pairs queue ≡ []) }
        ensures room { IfOk result (λ queue. room queue ≡ most) };

    /// Makes a node. Fails only where memory is refused, and returns the pair then.
    fn node(alloc: Global, key: K, value: V) -> Result<Self::Node, AllocFailed<(K, V)>>
        ensures ok { IfOk result (λ node. pair_of node ≡ (key, value)) }
        ensures err { IfErr result (λ refused. refused.value ≡ (key, value)) };

    /// Returns the pair of a node.
    fn pair(node: &Self::Node) -> (&K, &V)
        ensures { pair_of node.now ≡ (result.0.now, result.1.now) };

    /// Takes the pair out of a node.
    fn into_pair(node: Self::Node) -> (K, V)
        ensures { result ≡ pair_of node };

    /// Returns the number of pairs.
    fn len(&self) -> usize
        ensures len { result ≡ length (pairs self.now) }
        ensures ascending { IsAscending K.cmp (pairs self.now) }
        ensures fits { length (pairs self.now) ≤ room self.now };

    fn is_empty(&self) -> bool
        ensures { IsTrue result ↔ (pairs self.now ≡ []) };

    /// Returns the least key; `None` only where the queue is empty.
    fn first(&self) -> Option<&K>
        ensures { option_copied result ≡ option_map (λ p. p.0) (slice_get (pairs self.now) 0) };

    /// Inserts a pair.
    fn push(&mut self, node: Self::Node)
        requires room { length (pairs self.old) < room self.old }
        requires absent { KeyIsAbsent K.cmp (pair_of node).0 (pairs self.old) }
        ensures pairs { pairs self.new ≡ inserted K.cmp (pair_of node) (pairs self.old) }
        ensures room { room self.new ≡ room self.old }

        // The old pairs and the new one, by rising key.
        ensures ascending { IsAscending K.cmp (pairs self.new) }
        ensures permutation { IsPermutation (pair_of node ∷ pairs self.old) (pairs self.new) };

    /// Takes out the pair of the least key; `None` only where the queue is empty.
    fn pop(&mut self) -> Option<Self::Node>
        ensures value { option_map pair_of result ≡ slice_get (pairs self.old) 0 }
        ensures pairs { pairs self.new ≡ drop 1 (pairs self.old) }
        ensures room { room self.new ≡ room self.old };

    /// Takes out the pair of a key; `None` only where no pair has the key.
    fn remove(&mut self, key: &K) -> Option<Self::Node>
        ensures value { option_map pair_of result ≡ pair_at K.cmp key.now (pairs self.old) }
        ensures pairs { pairs self.new ≡ pairs_without K.cmp key.now (pairs self.old) }
        ensures room { room self.new ≡ room self.old }

        // The returned pair and the rest, still by rising key, are the old pairs.
        ensures ascending { IsAscending K.cmp (pairs self.new) }
        ensures permutation { IsPermutation (pairs self.old) (option_to_list (option_map pair_of result) ++ pairs self.new) };

    /// Moves all pairs of `other` over. `other` is empty afterwards, and keeps its room.
    fn merge(&mut self, other: &mut Self)
        requires room { length (pairs self.old) + length (pairs other.old) ≤ room self.old }
        requires apart { HaveNoCommonKey K.cmp (pairs self.old) (pairs other.old) }
        ensures pairs { pairs self.new ≡ merged K.cmp (pairs self.old) (pairs other.old) }
        ensures room { room self.new ≡ room self.old }
        ensures emptied { pairs other.new ≡ [] }
        ensures other_room { room other.new ≡ room other.old }

        // No other call says how many links it makes, so only one merge gives this number.
        ensures links { links self.new ≡ links self.old + links_of_merge (length (pairs self.old)) (length (pairs other.old)) }
        ensures other_links { links other.new ≡ links other.old }

        // The pairs of both queues, by rising key.
        ensures ascending { IsAscending K.cmp (pairs self.new) }
        ensures permutation { IsPermutation (pairs self.old ++ pairs other.old) (pairs self.new) };
}
