ghost use Rattle.std.specs.Prelude.{◌≡◌};
ghost use Rattle.log_entries.specs.declared.queue.Queue.{Queue};
ghost use Rattle.log_entries.specs.Rows.{queue_cmp};

/// A queue of waiting requests. The backend's queue is first in the order, then the servers' in file order.
#[derive(Clone, Copy, Debug, PartialEq, Eq, PartialOrd, Ord)]
pub enum Queue {
    /// The backend's queue: its requests may go to any server. Traces write it `*`.
    Backend,
    /// The queue of one server.
    Server(usize),
}

/// The law of the order of queues: code with a bound `Ord` compares queues by `queue_cmp`.
pub fn order_of_queues()
    ensures { (a b : Queue) → ⟦<Queue as Ord>⟧.cmp a b ≡ queue_cmp a b }
{}
