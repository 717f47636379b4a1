use crate::assertions::same;
use due_key::Class;
use late_cert::Running;
use log_entries::Queue;

#[test]
fn the_greatest_lateness_is_kept(rt: HostRuntime) {
    let alloc = rt.alloc();
    let class = Class::clamp(1);
    let mut running = Running::new(alloc, 1).expect(&rt, "memory");
    running.reserve(alloc, class).expect(&rt, "memory");
    running.granted(Queue::Server(0), class, -3);
    running.granted(Queue::Server(0), class, 19);
    running.granted(Queue::Server(0), class, 5);
    same(&rt, running.worst(Queue::Server(0), class), Some(19));
    same(&rt, running.worst(Queue::Backend, class), None);
    same(&rt, running.worst(Queue::Server(0), Class::clamp(0)), None);
    running.clear();
    same(&rt, running.worst(Queue::Server(0), class), None);
}
