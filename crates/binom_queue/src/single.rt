//! A node that stands in no queue.
ghost use Rattle.std.specs.Prelude.{◌≡◌, IfOk, IfErr};

use crate::forest::{Forest, Node};
use std::alloc::{AllocFailed, Global};
use std::marker::Model;

/// A pair with all the memory that it needs in a queue.
#[derive(Drop)]
pub struct Single<K, V> {
    pub(crate) root: Box<Node<K, V>>,
}

impl<K, V> Model for Single<K, V> {
    ghost use Rattle.binom_queue.specs.Alone.{IsAlone};

    ghost Value = { K × V };

    ghost view = { λ single. single.root.value.pair };

    ghost invariant = { λ single. IsAlone single.root.value };
}

impl<K: Drop, V: Drop> Single<K, V> {
    pub(crate) fn new(alloc: Global, key: K, value: V) -> Result<Self, AllocFailed<(K, V)>>
        ensures ok { IfOk result (λ single. single ≡ (key, value)) }
        ensures err { IfErr result (λ refused. refused.value ≡ (key, value)) }
    {
        let node = Node {
            pair: (key, value),
            order: 0,
            child: Forest::Empty,
            next: Forest::Empty,
        };
        match Box::new(alloc, node) {
            Ok(root) => Ok(Single { root }),
            Err(AllocFailed { value: refused }) => {
                let Node { pair, .. } = refused;
                Err(AllocFailed { value: pair })
            }
        }
    }
}
