use binom_queue::BinomQueue;
use pend_queue::{ListQueue, PendQueue};
use std::alloc::{AllocFailed, Global};

// Where memory was refused, the pair comes back, and is put into a node again.
fn node_in_the_end<Q: PendQueue<u64, u64>>(
    alloc: Global,
) -> Result<Q::Node, AllocFailed<(u64, u64)>> {
    match Q::node(alloc, 1, 2) {
        Ok(node) => Ok(node),
        Err(refused) => {
            let (key, value) = refused.value;
            Q::node(alloc, key, value)
        }
    }
}

fn pair_in_the_end<Q: PendQueue<u64, u64>>(alloc: Global) -> Option<(u64, u64)> {
    match node_in_the_end::<Q>(alloc) {
        Ok(node) => Some(Q::into_pair(node)),
        Err(_) => None,
    }
}

// The test succeeds whichever single allocation is refused.
#[test]
fn a_refused_growth_hands_the_pair_back(rt: HostRuntime) {
    assert_eq!(rt;
        pair_in_the_end::<ListQueue<u64, u64>>(rt.alloc()),
        Some((1, 2))
    );
    assert_eq!(rt;
        pair_in_the_end::<BinomQueue<u64, u64>>(rt.alloc()),
        Some((1, 2))
    );
}
