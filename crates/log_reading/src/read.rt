ghost use Rattle.std.specs.Prelude.{◌≡◌, ◌<◌, ◌+◌, [], ◌∷◌, ◌++◌, IfOk, IfErr, OnOk, None, Some, length, IsTrue, ◌↔◌, List, take};
ghost use Rattle.log_entries.specs.declared.entry.Entry.{Entry};
ghost use Rattle.log_entries.specs.declared.entry.Entry.TheVariants.{Granted};
ghost use Rattle.log_reading.specs.Grants.{arrival_in, joining_in, grant_in};
ghost use Rattle.log_reading.specs.Windows.{base_rows};
ghost use Rattle.log_reading.specs.declared.base.BaseRow.{BaseRow};
ghost use Rattle.log_reading.specs.Index.{IsIndexOf};
ghost use Rattle.log_reading.specs.Readable.{MayFollow, IsReadable};
ghost use Rattle.log_reading.specs.declared.read.Unreadable.TheVariants.{NotReadable};

use crate::base::{Base, BaseRow};
use crate::log::Log;
use due_key::Key;
use log_entries::{Entry, Queue};
use std::alloc::{AllocError, Global};
use std::collections::BTreeMap;
use thiserror::Error;

/// Why entries weren't read.
#[derive(Clone, Copy, Debug, PartialEq, Eq, Error)]
pub enum Unreadable {
    /// The system refused memory.
    #[error("no memory")]
    NoMemory,
    /// They aren't readable.
    #[error("not a readable log")]
    NotReadable,
}

/// What is known of each ticket in the base and the entries so far: its key, and where it last
/// joined each queue; 0 is the base.
#[derive(Drop)]
struct Index {
    keys: BTreeMap<u64, Key>,
    joinings: BTreeMap<(u64, Queue), usize>,
}

impl Log {
    /// Reads these entries after this base as a window without further room, whoever made them.
    /// `O(n log n)`. Refused where memory is, or else exactly where they aren't readable.
    pub fn read(alloc: Global, base: Base, entries: &[Entry]) -> Result<Log, Unreadable>
        ensures ok { IfOk result (λ log. log ≡ record { base = base; entries = entries.now; room = length entries.now }) }
        ensures readable { OnOk result (IsReadable (record { base = base_rows base.rows; entries = entries.now })) }
        ensures unreadable { IfErr result (λ error. error ≡ NotReadable → IsReadable (record { base = base_rows base.rows; entries = entries.now }) → ⊥) }
    {
        let Ok(mut log) = Log::with_room(alloc, base, entries.len()) else {
            return Err(Unreadable::NoMemory);
        };
        let Ok(mut index) = index_of(alloc, log.base()) else {
            return Err(Unreadable::NoMemory);
        };
        for entry in entries {
            follow(&mut log, &mut index, *entry)?;
        }
        Ok(log)
    }
}

/// Returns the index of a window's base.
fn index_of(alloc: Global, base: &[BaseRow]) -> Result<Index, AllocError>
    ensures { IfOk result (λ index. IsIndexOf base.now [] index) }
{
    let mut index = Index {
        keys: BTreeMap::new(alloc),
        joinings: BTreeMap::new(alloc),
    };
    for row in base {
        note_row(&mut index, *row)?;
    }
    Ok(index)
}

/// Adds a live request of the base to the index.
fn note_row(index: &mut Index, row: BaseRow) -> Result<(), AllocError>
    ensures { OnOk result ((base : List BaseRow) → IsIndexOf base [] index.old → IsIndexOf (base ++ row ∷ []) [] index.new) }
{
    let key = Key {
        class: row.class,
        due: row.due,
        ticket: row.ticket,
    };
    index.keys.insert(row.ticket, key)?;
    if let Some(queue) = row.queue {
        index.joinings.insert((row.ticket, queue), 0)?;
    }
    Ok(())
}

/// Appends an entry if it may follow.
fn follow(log: &mut Log, index: &mut Index, entry: Entry) -> Result<(), Unreadable>
    requires room { length log.old.entries < log.old.room }
    requires indexed { IsIndexOf (base_rows log.old.base.rows) log.old.entries index.old }
    ensures follows { OnOk result (MayFollow (base_rows log.old.base.rows) log.old.entries entry) }
    ensures log { OnOk result (log.new ≡ record log.old { entries = log.old.entries ++ entry ∷ [] }) }
    ensures indexed { OnOk result (IsIndexOf (base_rows log.old.base.rows) (log.old.entries ++ entry ∷ []) index.new) }
    ensures unreadable { IfErr result (λ error. error ≡ NotReadable → MayFollow (base_rows log.old.base.rows) log.old.entries entry → ⊥) }
{
    if let Entry::Granted(ticket, queue, server) = entry {
        return follow_grant(log, index, ticket, queue, server);
    }
    if !log.may_note(&entry) {
        return Err(Unreadable::NotReadable);
    }
    log.note(entry);
    let Ok(()) = note(index, &entry, log.len()) else {
        return Err(Unreadable::NoMemory);
    };
    Ok(())
}

/// Appends a grant if it is inside an event, and its ticket has arrived and joined the queue.
fn follow_grant(
    log: &mut Log,
    index: &Index,
    ticket: u64,
    queue: Queue,
    server: usize,
) -> Result<(), Unreadable>
    requires room { length log.old.entries < log.old.room }
    requires indexed { IsIndexOf (base_rows log.old.base.rows) log.old.entries index.now }
    ensures follows { OnOk result (MayFollow (base_rows log.old.base.rows) log.old.entries (Granted ticket queue server)) }
    ensures log { OnOk result (log.new ≡ record log.old { entries = log.old.entries ++ Granted ticket queue server ∷ [] }) }
    ensures unreadable { IfErr result (λ error. MayFollow (base_rows log.old.base.rows) log.old.entries (Granted ticket queue server) → ⊥) }
{
    if log.is_empty() {
        return Err(Unreadable::NotReadable);
    }
    let Some(known) = index.keys.get(&ticket) else {
        return Err(Unreadable::NotReadable);
    };
    let Some(joined) = index.joinings.get(&(ticket, queue)).copied() else {
        return Err(Unreadable::NotReadable);
    };
    let key = Key { ticket, ..*known };
    log.note_grant(key, queue, server, joined);
    Ok(())
}

/// Adds an entry at a position to the index.
fn note(index: &mut Index, entry: &Entry, position: usize) -> Result<(), AllocError>
    ensures { OnOk result ((base : List BaseRow) (log : List Entry) → position ≡ length log + 1 → IsIndexOf base log index.old → IsIndexOf base (log ++ entry.now ∷ []) index.new) }
{
    match entry {
        Entry::Arrive(_, arrival) => {
            index.keys.insert(arrival.ticket, arrival.key())?;
            Ok(())
        }
        Entry::Joined(ticket, queue) => note_joining(index, *ticket, *queue, position),
        Entry::Moved(ticket, _) => note_joining(index, *ticket, Queue::Backend, position),
        _ => Ok(()),
    }
}

/// Adds an entry that puts a ticket into a queue to the index.
fn note_joining(
    index: &mut Index,
    ticket: u64,
    queue: Queue,
    position: usize,
) -> Result<(), AllocError>
    ensures { OnOk result ((base : List BaseRow) (log : List Entry) (entry : Entry) → position ≡ length log + 1 → arrival_in entry ≡ None → joining_in entry ≡ Some (record { ticket = ticket; queue = queue }) → IsIndexOf base log index.old → IsIndexOf base (log ++ entry ∷ []) index.new) }
{
    index.joinings.insert((ticket, queue), position)?;
    Ok(())
}
