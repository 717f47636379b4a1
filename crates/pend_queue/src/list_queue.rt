ghost use Rattle.std.specs.Prelude.{◌≡◌, ◌+◌, ◌<◌, ◌≤◌, [], reverse, vec_len, vec_capacity, option_copied, option_map, IfOk, IfErr};
ghost use Rattle.pend_queue.specs.Pairs.{IsAscending, KeyIsAbsent, HaveNoCommonKey, inserted, pair_at, pairs_without, merged};
ghost use Rattle.pend_queue.specs.Ranks.{KeyIsAt, IsGapFor};

use crate::queue::PendQueue;
use std::alloc::{AllocError, AllocFailed, Global};
use std::marker::Model;

/// A queue as a sorted `Vec`, whose memory is allocated once.
///
/// `first` and `pop` are `O(1)`. `push` and `remove` compare `O(log n)` keys and move up to `n`
/// pairs, and `merge` is a `push` of each pair.
#[derive(Drop)]
pub struct ListQueue<K: Ord, V> {
    // By falling key, so that the least one is removed at the end.
    items: Vec<(K, V)>,
}

impl<K: Ord, V> Model for ListQueue<K, V> {
    ghost use Rattle.std.specs.Prelude.{reverse, vec_capacity};
    ghost use Rattle.pend_queue.specs.Held.{Held};
    ghost use Rattle.pend_queue.specs.Pairs.{IsAscending};

    ghost Value = { Held K V };

    ghost view = { λ queue. record { pairs = reverse queue.items.items; room = vec_capacity queue.items } };

    ghost invariant = { λ queue. IsAscending K.cmp (reverse queue.items.items) };
}

impl<K: Ord, V> ListQueue<K, V> {
    /// Returns the value of a key, by `O(log n)` comparisons; `None` only where no pair has the key.
    pub fn get(&self, key: &K) -> Option<&V>
        ensures { option_copied result ≡ option_map (λ p. p.1) (pair_at K.cmp key.now self.now.pairs) }
    {
        match insertion_index(&self.items, key) {
            Ok(at) => Some(&self.items[at].1),
            Err(_) => None,
        }
    }
}

impl<K: Ord + Drop, V: Drop> PendQueue<K, V> for ListQueue<K, V> {
    type Node = (K, V);

    ghost pairs = { λ queue. queue.pairs };

    ghost room = { λ queue. queue.room };

    ghost pair_of = { λ node. node };

    ghost links = { λ queue. 0 };

    ghost links_of_merge = { λ held more. 0 };

    fn with_room(alloc: Global, most: usize) -> Result<Self, AllocError> {
        let items = Vec::with_capacity(alloc, most)?;
        Ok(ListQueue { items })
    }

    /// A node is its pair, so this never fails.
    fn node(_alloc: Global, key: K, value: V) -> Result<(K, V), AllocFailed<(K, V)>>
        ensures { result ≡ Ok (key, value) }
    {
        Ok((key, value))
    }

    fn pair(node: &(K, V)) -> (&K, &V) {
        (&node.0, &node.1)
    }

    fn into_pair(node: (K, V)) -> (K, V) {
        node
    }

    fn len(&self) -> usize {
        self.items.len()
    }

    fn is_empty(&self) -> bool {
        self.items.is_empty()
    }

    fn first(&self) -> Option<&K> {
        match self.items.last() {
            Some(pair) => Some(&pair.0),
            None => None,
        }
    }

    fn push(&mut self, node: (K, V)) {
        put(&mut self.items, node);
    }

    fn pop(&mut self) -> Option<(K, V)> {
        self.items.pop()
    }

    fn remove(&mut self, key: &K) -> Option<(K, V)> {
        take_out(&mut self.items, key)
    }

    fn merge(&mut self, other: &mut Self) {
        move_over(&mut self.items, &mut other.items);
    }
}

// Moves all pairs of `more` over.
fn move_over<K: Ord + Drop, V: Drop>(items: &mut Vec<(K, V)>, more: &mut Vec<(K, V)>)
    requires ascending { IsAscending K.cmp (reverse items.old.items) }
    requires more_ascending { IsAscending K.cmp (reverse more.old.items) }
    requires room { vec_len items.old + vec_len more.old ≤ vec_capacity items.old }
    requires apart { HaveNoCommonKey K.cmp (reverse items.old.items) (reverse more.old.items) }
    ensures items { reverse items.new.items ≡ merged K.cmp (reverse items.old.items) (reverse more.old.items) }
    ensures capacity { vec_capacity items.new ≡ vec_capacity items.old }
    ensures emptied { more.new.items ≡ [] }
    ensures more_capacity { vec_capacity more.new ≡ vec_capacity more.old }
{
    'moving: while let Some(pair) = more.pop() {
        put(items, pair);
    }
}

// Inserts a pair.
fn put<K: Ord + Drop, V: Drop>(items: &mut Vec<(K, V)>, pair: (K, V))
    requires ascending { IsAscending K.cmp (reverse items.old.items) }
    requires room { vec_len items.old < vec_capacity items.old }
    requires absent { KeyIsAbsent K.cmp pair.0 (reverse items.old.items) }
    ensures items { reverse items.new.items ≡ inserted K.cmp pair (reverse items.old.items) }
    ensures len { vec_len items.new ≡ vec_len items.old + 1 }
    ensures capacity { vec_capacity items.new ≡ vec_capacity items.old }
{
    match insertion_index(items, &pair.0) {
        Ok(_) => unreachable!(),
        Err(at) => {
            let _ = items.insert(at, pair);
        }
    }
}

// Takes out the pair of a key.
fn take_out<K: Ord, V>(items: &mut Vec<(K, V)>, key: &K) -> Option<(K, V)>
    requires { IsAscending K.cmp (reverse items.old.items) }
    ensures value { result ≡ pair_at K.cmp key.now (reverse items.old.items) }
    ensures items { reverse items.new.items ≡ pairs_without K.cmp key.now (reverse items.old.items) }
    ensures capacity { vec_capacity items.new ≡ vec_capacity items.old }
{
    match insertion_index(items, key) {
        Ok(at) => Some(items.remove(at)),
        Err(_) => None,
    }
}

// Returns the index of the key, or the index where it would go.
fn insertion_index<K: Ord, V>(items: &[(K, V)], key: &K) -> Result<usize, usize>
    requires { IsAscending K.cmp (reverse items.now) }
    ensures found { IfOk result (KeyIsAt K.cmp key.now items.now) }
    ensures absent { IfErr result (IsGapFor K.cmp key.now items.now) }
{
    items.binary_search_by(|pair| key.cmp(&pair.0))
}
