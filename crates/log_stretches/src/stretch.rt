ghost use Rattle.std.specs.Prelude.{◌≡◌, ◌+◌, ◌==◌, ◌++◌, ◌∷◌, ℕ, List, Some, IfOk, OnOk, if◌then◌else◌};
ghost use Rattle.std.specs.BTreeMap.{get};
ghost use Rattle.std.specs.Ordering.{nat_cmp};
ghost use Rattle.log_entries.specs.declared.entry.Entry.{Entry};
ghost use Rattle.log_stretches.specs.Stretches.{placing_in, stretch_to, stretches_of};
ghost use Rattle.log_stretches.specs.ReadBack.{AreReadBack};

use log_entries::{Entry, Queue};
use std::alloc::{AllocError, Global};
use std::collections::BTreeMap;

/// Where a request is: in a queue, or at a server.
#[derive(Clone, Copy, Debug, PartialEq, Eq)]
pub enum Lane {
    /// It waits in this queue.
    Queue(Queue),
    /// It is served by this server.
    Server(usize),
}

/// A stay of a request in a queue, or its service by a server. Positions count the entries of a log from 1.
#[derive(Clone, Copy, Debug, PartialEq, Eq)]
pub struct Stretch {
    pub ticket: u64,
    pub lane: Lane,
    /// The position of the entry that it begins with.
    pub from: usize,
    /// The position of the entry that ends it; `None` where no entry does.
    pub to: Option<usize>,
}

/// The lane that an entry gives a request.
#[derive(Clone, Copy)]
pub(crate) struct Placing {
    pub(crate) ticket: u64,
    /// The lane from then on; `None` where there is none any more.
    pub(crate) lane: Option<Lane>,
}

/// Returns the stretches of a log, in the order in which they begin: one for each entry that puts a
/// request into a queue or into a slot of a server, and no others. `O(n log n)`.
pub fn stretches_of(alloc: Global, entries: &[Entry]) -> Result<Vec<Stretch>, AllocError>
    ensures { IfOk result (λ stretches. stretches.items ≡ stretches_of entries.now) }
{
    let mut next = BTreeMap::new(alloc);
    let mut stretches = Vec::new(alloc);
    let mut rest = entries;
    'entries: while let Some((entry, front)) = rest.split_last() {
        take(&mut next, &mut stretches, entry, rest.len())?;
        rest = front;
    }
    stretches.reverse();
    Ok(stretches)
}

// Takes the entry at a position, after the entries after it. For each ticket it keeps which of
// those places it first, and the stretches so far, the last one first.
fn take(
    next: &mut BTreeMap<u64, usize>,
    stretches: &mut Vec<Stretch>,
    entry: &Entry,
    at: usize,
) -> Result<(), AllocError>
    ensures { OnOk result ((count : ℕ) (later : List Entry) → at ≡ count + 1 → AreReadBack at later (get nat_cmp next.old) stretches.old.items
        → AreReadBack count (entry.now ∷ later) (get nat_cmp next.new) stretches.new.items) }
{
    match placing_in(entry) {
        None => Ok(()),
        Some(placing) => {
            let to = place(next, placing.ticket, at)?;
            begin(stretches, placing, at, to)
        }
    }
}

// Notes that a ticket is placed at a position, and returns where it is placed next.
fn place(
    next: &mut BTreeMap<u64, usize>,
    ticket: u64,
    at: usize,
) -> Result<Option<usize>, AllocError>
    ensures later { IfOk result (λ to. to ≡ get nat_cmp next.old ticket) }
    ensures next { OnOk result ((other : ℕ) → get nat_cmp next.new other ≡ (if ticket == other then Some at else get nat_cmp next.old other)) }
{
    let later = next.insert(ticket, at)?;
    Ok(later)
}

// Adds the stretch from one position to another, where one begins.
fn begin(
    stretches: &mut Vec<Stretch>,
    placing: Placing,
    at: usize,
    to: Option<usize>,
) -> Result<(), AllocError>
    ensures { OnOk result (stretches.new.items ≡ stretches.old.items ++ stretch_to at placing to) }
{
    match placing.lane {
        None => Ok(()),
        Some(lane) => {
            stretches.push(Stretch {
                ticket: placing.ticket,
                lane,
                from: at,
                to,
            })?;
            Ok(())
        }
    }
}

fn placing_in(entry: &Entry) -> Option<Placing>
    ensures { result ≡ placing_in entry.now }
{
    match *entry {
        Entry::Direct(ticket, server) | Entry::Granted(ticket, _, server) => {
            placed(ticket, Lane::Server(server))
        }
        Entry::Joined(ticket, queue) => placed(ticket, Lane::Queue(queue)),
        Entry::Moved(ticket, _) => placed(ticket, Lane::Queue(Queue::Backend)),
        Entry::Freed(ticket, _) | Entry::Left(ticket, _) => Some(Placing { ticket, lane: None }),
        _ => None,
    }
}

fn placed(ticket: u64, lane: Lane) -> Option<Placing>
    ensures { result ≡ Some (record { ticket = ticket; lane = Some lane }) }
{
    Some(Placing {
        ticket,
        lane: Some(lane),
    })
}
