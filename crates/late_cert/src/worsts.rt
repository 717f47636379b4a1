ghost use Rattle.std.specs.Prelude.{◌≡◌, ◌<◌, length, Some, None, if◌then◌else◌, IfOk};
ghost use Rattle.std.specs.Int.{int_max};
ghost use Rattle.std.specs.Option.{option_map_or};
ghost use Rattle.log_entries.specs.Rows.{same_queue};
ghost use Rattle.log_entries.specs.declared.queue.Queue.{Queue};
ghost use Rattle.late_cert.specs.Table.{worst_of};
ghost use Rattle.log_entries.specs.Queues.{IsQueueOf};

use log_entries::Queue;
use std::alloc::{AllocError, Global};

/// The greatest lateness of each queue, in milliseconds, for the requests of one class.
#[derive(Drop)]
pub struct Worsts {
    pub backend: Option<i64>,
    pub servers: Vec<Option<i64>>,
}

impl Worsts {
    pub fn new(alloc: Global, servers: usize) -> Result<Worsts, AllocError>
        ensures none { IfOk result (λ row. (queue : Queue) → worst_of row queue ≡ None) }
        ensures long { IfOk result (λ row. length row.servers.items ≡ servers) }
    {
        Ok(Worsts {
            backend: None,
            servers: vec![in alloc; None; servers]?,
        })
    }

    pub fn of(&self, queue: Queue) -> Option<i64>
        ensures { result ≡ worst_of self.now queue }
    {
        match queue {
            Queue::Backend => self.backend,
            Queue::Server(server) => self.servers.get(server).copied().unwrap_or(None),
        }
    }

    pub fn note(&mut self, queue: Queue, late: i64)
        requires { IsQueueOf (length self.old.servers.items) queue }
        ensures worst { (other : Queue) → worst_of self.new other ≡ (if same_queue other queue then Some (option_map_or (int_max late) (worst_of self.old queue) late) else worst_of self.old other) }
        ensures long { length self.new.servers.items ≡ length self.old.servers.items }
    {
        let worst = greater(self.of(queue), late);
        self.set(queue, Some(worst));
    }

    fn set(&mut self, queue: Queue, worst: Option<i64>)
        requires { IsQueueOf (length self.old.servers.items) queue }
        ensures worst { (other : Queue) → worst_of self.new other ≡ (if same_queue other queue then worst else worst_of self.old other) }
        ensures long { length self.new.servers.items ≡ length self.old.servers.items }
    {
        match queue {
            Queue::Backend => self.backend = worst,
            Queue::Server(server) => self.servers[server] = worst,
        }
    }

    pub fn clear(&mut self)
        ensures none { (queue : Queue) → worst_of self.new queue ≡ None }
        ensures long { length self.new.servers.items ≡ length self.old.servers.items }
    {
        self.backend = None;
        self.servers.fill(None);
    }
}

// Returns the greater of a lateness and the worst before it, if there was one.
fn greater(worst: Option<i64>, late: i64) -> i64
    ensures { result ≡ option_map_or (int_max late) worst late }
{
    match worst {
        Some(worst) => worst.max(late),
        None => late,
    }
}
