ghost use Rattle.std.specs.Prelude.{◌≡◌, ◌<◌, ◌≤◌, ℤ, pos, ◌-ℤ◌, IfOk, OnOk, OnErr, IsTrue, None, length, take, drop};
ghost use Rattle.std.specs.List.{AllByRecursion};
ghost use Rattle.log_reading.specs.Grants.{grants};
ghost use Rattle.log_reading.specs.Windows.{window_of};
ghost use Rattle.due_key.specs.Range.{IsBetween};
ghost use Rattle.due_key.specs.declared.class.TheConstants.{LOWEST_CLASS, HIGHEST_CLASS};
ghost use Rattle.log_entries.specs.declared.queue.Queue.{Queue};
ghost use Rattle.log_entries.specs.Queues.{IsQueueOf};
ghost use Rattle.late_cert.specs.Running.{worst_with, worst_so_far, has_class_room, IsWorstAmong, HasRoomFor};

use crate::check::lateness;
use crate::table::{CLASSES, Running};
use crate::worsts::Worsts;
use due_key::{Class, LOWEST_CLASS};
use log_entries::Queue;
use log_reading::Log;
use std::alloc::{AllocError, Global};

impl Running {
    /// For the queues of so many servers and the backend's; no room for any class yet. Fails only where memory is refused.
    pub fn new(alloc: Global, servers: usize) -> Result<Running, AllocError>
        ensures servers { IfOk result (λ it. it.servers ≡ servers) }
        ensures worst { IfOk result (λ it. (queue : Queue) (class : ℤ) → worst_so_far it queue class ≡ None) }
    {
        let mut table = Vec::with_capacity(alloc, CLASSES)?;
        for _ in 0..CLASSES {
            table.push(None)?;
        }
        Ok(Running { table, servers })
    }

    /// Makes room for the grants of a class, from whatever queue. Changes no answer; where memory is refused, nothing.
    pub fn reserve(&mut self, alloc: Global, class: Class) -> Result<(), AllocError>
        ensures ok { OnOk result (IsTrue (has_class_room self.new class)) }
        ensures room { (other : ℤ) → IsTrue (has_class_room self.old other) → IsTrue (has_class_room self.new other) }
        ensures worst { (queue : Queue) (other : ℤ) → worst_so_far self.new queue other ≡ worst_so_far self.old queue other }
        ensures servers { self.new.servers ≡ self.old.servers }
        ensures err { OnErr result (self.new ≡ self.old) }
    {
        let row = row_of(class);
        if self.table[row].is_none() {
            self.table[row] = Some(Worsts::new(alloc, self.servers)?);
        }
        Ok(())
    }

    /// A request of a class for which there is room was granted a slot from a queue, so many milliseconds late; early, where that is
    /// below 0. Takes no memory.
    pub fn granted(&mut self, queue: Queue, class: Class, late: i64)
        requires queue { IsQueueOf self.old.servers queue }
        requires room { IsTrue (has_class_room self.old class) }
        ensures worst { (other : Queue) (number : ℤ) → IsBetween LOWEST_CLASS HIGHEST_CLASS number → worst_so_far self.new other number ≡ worst_with (worst_so_far self.old) queue class late other number }
        ensures room { (other : ℤ) → has_class_room self.new other ≡ has_class_room self.old other }
        ensures servers { self.new.servers ≡ self.old.servers }
    {
        let Some(row) = &mut self.table[row_of(class)] else {
            unreachable!()
        };
        row.note(queue, late);
    }

    /// Tells of the grants of a log from one on. `O(1)` for each; takes no memory.
    pub fn granted_from(&mut self, log: &Log, from: usize)
        requires from { from ≤ length (grants (window_of log.now)) }
        requires told { IsWorstAmong (take from (grants (window_of log.now))) self.old }
        requires room { AllByRecursion (HasRoomFor self.old) (drop from (grants (window_of log.now))) }
        ensures worst { IsWorstAmong (grants (window_of log.now)) self.new }
        ensures room { (class : ℤ) → has_class_room self.new class ≡ has_class_room self.old class }
        ensures servers { self.new.servers ≡ self.old.servers }
    {
        let grants = log.grants();
        for number in from..grants.len() {
            let grant = &grants[number];
            self.granted(grant.queue, grant.class, lateness(grant));
        }
    }

    /// The greatest lateness of a queue and class since the last `clear`, in milliseconds; `None` only where it has no grant. Takes no memory.
    pub fn worst(&self, queue: Queue, class: Class) -> Option<i64>
        ensures worst { result ≡ worst_so_far self.now queue class }
        ensures range { IsBetween LOWEST_CLASS HIGHEST_CLASS class }
    {
        self.table[row_of(class)].as_ref()?.of(queue)
    }

    /// Forgets all grants and keeps the room. Takes no memory.
    pub fn clear(&mut self)
        ensures worst { (queue : Queue) (class : ℤ) → worst_so_far self.new queue class ≡ None }
        ensures room { (class : ℤ) → has_class_room self.new class ≡ has_class_room self.old class }
        ensures servers { self.new.servers ≡ self.old.servers }
    {
        for at in 0..CLASSES {
            if let Some(row) = &mut self.table[at] {
                row.clear();
            }
        }
    }
}

// The number of a class's row: how far the class lies above the lowest one.
fn row_of(class: Class) -> usize
    ensures number { pos result ≡ class -ℤ LOWEST_CLASS }
    ensures in_range { result < 4095 }
    ensures class { IsBetween LOWEST_CLASS HIGHEST_CLASS class }
{
    (class.get() - LOWEST_CLASS) as usize
}
