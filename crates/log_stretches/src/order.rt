//! Whether requests that wait together get their slots in the order of their keys.

ghost use Rattle.std.specs.Prelude.{◌≡◌, ◌↔◌, All, IfOk, IsTrue, filter_map};
ghost use Rattle.log_stretches.specs.Orders.{stay_in, WaitedTogether, KeepOrder, AreInOrder};
ghost use Rattle.due_key.specs.Order.{ComesBefore};
ghost use Rattle.log_stretches.specs.Stretches.{stretches_of};

use crate::course::Course;
use crate::stretch::{Lane, Stretch};
use due_key::Key;
use log_entries::Queue;
use std::alloc::{AllocError, Global};

/// A wait that has ended. Positions count the entries of a log from 1.
#[derive(Clone, Copy, Debug, PartialEq, Eq)]
pub struct Stayed {
    pub key: Key,
    pub queue: Queue,
    /// The position at which it joined the queue.
    pub joined: usize,
    /// The position at which it left the queue.
    pub left: usize,
}

/// Returns the waits of a log that have ended, in the order in which they began.
pub fn stays_in(alloc: Global, course: &Course) -> Result<Vec<Stayed>, AllocError>
    ensures { IfOk result (λ stays. stays.items ≡ filter_map (stay_in course.now) (stretches_of course.now)) }
{
    course
        .stretches()
        .iter()
        .filter_map(|stretch| stay_in(course, stretch))
        .collect(alloc)
}

fn stay_in(course: &Course, stretch: &Stretch) -> Option<Stayed>
    ensures { result ≡ stay_in course.now stretch.now }
{
    let Lane::Queue(queue) = stretch.lane else {
        return None;
    };
    let came = course.arrival(stretch.ticket)?;
    Some(Stayed {
        key: came.arrival.key(),
        queue,
        joined: stretch.from,
        left: stretch.to?,
    })
}

/// Says whether of any two that waited together the one with the smaller key left first. `O(n²)`.
pub fn are_in_order(stays: &[Stayed]) -> bool
    ensures { IsTrue result ↔ AreInOrder stays.now }
{
    stays.iter().all(|stay| keeps_order_with(stay, stays))
}

fn keeps_order_with(stay: &Stayed, others: &[Stayed]) -> bool
    ensures { IsTrue result ↔ All (KeepOrder stay.now) others.now }
{
    others.iter().all(|other| keep_order(stay, other))
}

fn keep_order(stay: &Stayed, other: &Stayed) -> bool
    ensures { IsTrue result ↔ KeepOrder stay.now other.now }
{
    !waited_together(stay, other) || !comes_before(stay.key, other.key) || stay.left < other.left
}

fn waited_together(stay: &Stayed, other: &Stayed) -> bool
    ensures { IsTrue result ↔ WaitedTogether stay.now other.now }
{
    stay.queue == other.queue && stay.joined < other.left && other.joined < stay.left
}

fn comes_before(key: Key, other: Key) -> bool
    ensures { IsTrue result ↔ ComesBefore key other }
{
    key < other
}
