ghost use Rattle.std.specs.Prelude.{◌≡◌, ◌<◌, ◌≤◌, [], ◌∷◌, ◌++◌, None, IfOk, length, IsTrue, ◌↔◌, vec_len, vec_capacity};
ghost use Rattle.log_entries.specs.declared.entry.Entry.TheVariants.{Granted};
ghost use Rattle.log_reading.specs.Grants.{moment_in, grant_in, joining_of, has_joined, grants};
ghost use Rattle.log_reading.specs.Readable.{MayFollow, HasArrived, IsReadable};
ghost use Rattle.log_reading.specs.Windows.{base_rows, window_of};

use crate::base::{Base, BaseRow};
use crate::grant::{SlotGrant, Stay};
use due_key::{Key, Moment};
use log_entries::{Entry, Queue, Row};
use std::alloc::{AllocError, Global};
use std::marker::Model;
use std::mem;

/// A window of a dispatcher's log: the state at its base, the entries since, in order, and their
/// grants. It is always readable: it begins with an event, moments never fall, and a ticket that is
/// granted a slot has arrived and joined the queue that it leaves, in the window or before it. Its
/// memory is allocated once, and its room never changes.
#[derive(Debug, Drop)]
pub struct Log {
    base: Base,
    // The live requests of the base.
    listed: Vec<BaseRow>,
    list: Vec<Entry>,
    granted: Vec<SlotGrant>,
    moment: Moment,
    most: usize,
}

impl Model for Log {
    ghost use Rattle.std.specs.Prelude.{◌≡◌, vec_capacity};
    ghost use Rattle.log_entries.specs.Logs.{Recorded};
    ghost use Rattle.log_reading.specs.LogParts.{LogIsKept, IsLog};
    ghost use Rattle.log_reading.specs.Windows.{base_rows};

    ghost Value = { Recorded };

    ghost view = { λ log. record { base = log.base; entries = log.list.items; room = log.most } };

    ghost invariant = { λ log. IsLog log.base log.listed.items (vec_capacity log.listed) × LogIsKept (base_rows log.base.rows) log.list.items log.granted.items log.moment log.most × (vec_capacity log.list ≡ log.most) × (vec_capacity log.granted ≡ log.most) };
}

impl Log {
    /// Makes a window without an entry, which begins with this base, with room for this number of
    /// entries, and as many grants.
    pub fn with_room(alloc: Global, base: Base, room: usize) -> Result<Log, AllocError>
        ensures { IfOk result (λ log. log ≡ record { base = base; entries = []; room = room }) }
    {
        let mut listed = Vec::with_capacity(alloc, base.rows().len())?;
        list_rows(&mut listed, base.rows());
        Ok(Log {
            listed,
            list: Vec::with_capacity(alloc, room)?,
            granted: Vec::with_capacity(alloc, room)?,
            moment: Moment::zero(),
            most: room,
            base,
        })
    }

    /// Begins the next window with this base, and drops the entries; the old base is returned in
    /// its place. `O(places)`, without allocating.
    pub fn begin(&mut self, base: &mut Base)
        requires { length base.old.rows ≡ length self.old.base.rows }
        ensures window { self.new ≡ record { base = base.old; entries = []; room = self.old.room } }
        ensures back { base.new ≡ self.old.base }
    {
        mem::swap(&mut self.base, base);
        self.list.clear();
        self.granted.clear();
        self.moment = Moment::zero();
        list_rows(&mut self.listed, self.base.rows());
    }

    /// Returns the live requests of the base, by rising place.
    pub fn base(&self) -> &[BaseRow]
        ensures { result.now ≡ base_rows self.now.base.rows }
    {
        self.listed.as_slice()
    }

    /// Returns the entries; the position of the first one is 1.
    pub fn entries(&self) -> &[Entry]
        ensures entries { result.now ≡ self.now.entries }
        ensures readable { IsReadable (window_of self.now) }
    {
        self.list.as_slice()
    }

    /// Returns the grants of the entries, in order.
    pub fn grants(&self) -> &[SlotGrant]
        ensures grants { result.now ≡ grants (window_of self.now) }
        ensures readable { IsReadable (window_of self.now) }
    {
        self.granted.as_slice()
    }

    pub fn len(&self) -> usize
        ensures { result ≡ length self.now.entries }
    {
        self.list.len()
    }

    pub fn is_empty(&self) -> bool
        ensures { IsTrue result ↔ (length self.now.entries ≡ 0) }
    {
        self.list.is_empty()
    }

    /// Returns the number of entries that it has room for.
    pub fn room(&self) -> usize
        ensures { result ≡ self.now.room }
    {
        self.most
    }

    /// Appends an entry other than a grant. `O(1)`, without allocating.
    pub fn note(&mut self, entry: Entry)
        requires room { length self.old.entries < self.old.room }
        requires follows { MayFollow (base_rows self.old.base.rows) self.old.entries entry }
        requires ungranted { grant_in entry ≡ None }
        ensures { self.new ≡ record self.old { entries = self.old.entries ++ entry ∷ [] } }
    {
        self.moment = moment_in(&entry).unwrap_or(self.moment);
        put(&mut self.list, entry);
    }

    /// Says whether this entry, which isn't a grant, may come next.
    pub(crate) fn may_note(&self, entry: &Entry) -> bool
        requires { grant_in entry.now ≡ None }
        ensures { IsTrue result ↔ MayFollow (base_rows self.now.base.rows) self.now.entries entry.now }
    {
        match moment_in(entry) {
            Some(moment) => self.moment <= moment,
            None => !self.list.is_empty(),
        }
    }

    /// Appends the grant of a server's slot to a ticket that waits in the queue. The caller passes
    /// what the entry doesn't hold: the key of the ticket's last arrival, and the position of the
    /// entry that last put it into the queue; 0 where it waited there in the base. `O(1)`, without
    /// allocating.
    pub fn note_grant(&mut self, key: Key, queue: Queue, server: usize, joined: usize)
        requires room { length self.old.entries < self.old.room }
        requires begun { 0 < length self.old.entries }
        requires arrived { HasArrived (base_rows self.old.base.rows) self.old.entries key.ticket key.class key.due }
        requires joined { joining_of key.ticket queue self.old.entries ≡ joined }
        requires waits { IsTrue (has_joined (base_rows self.old.base.rows) key.ticket queue self.old.entries) }
        ensures { self.new ≡ record self.old { entries = self.old.entries ++ Granted key.ticket queue server ∷ [] } }
    {
        let slot = self.list.len() + 1;
        let stay = Stay {
            ticket: key.ticket,
            joined,
            slot,
            due: key.due,
        };
        let grant = SlotGrant {
            queue,
            class: key.class,
            moment: self.moment,
            stay,
        };
        put(&mut self.granted, grant);
        put(&mut self.list, Entry::Granted(key.ticket, queue, server));
    }
}

/// Returns the moment of an event.
fn moment_in(entry: &Entry) -> Option<Moment>
    ensures { result ≡ moment_in entry.now }
{
    match entry {
        Entry::Arrive(moment, _)
        | Entry::Done(moment, _)
        | Entry::Fail(moment, _)
        | Entry::Abort(moment, _)
        | Entry::Tick(moment)
        | Entry::Check(moment, _, _)
        | Entry::Limit(moment, _, _) => Some(*moment),
        _ => None,
    }
}

/// Appends an item within the room that is there.
fn put<T>(list: &mut Vec<T>, item: T)
    requires { vec_len list.old < vec_capacity list.old }
    ensures items { list.new.items ≡ list.old.items ++ item ∷ [] }
    ensures room { vec_capacity list.new ≡ vec_capacity list.old }
{
    list.push_reserved(item);
}

/// Lists the live requests, by place.
fn list_rows(list: &mut Vec<BaseRow>, rows: &[Option<Row>])
    requires { length rows.now ≤ vec_capacity list.old }
    ensures rows { list.new.items ≡ base_rows rows.now }
    ensures room { vec_capacity list.new ≡ vec_capacity list.old }
{
    list.clear();
    for row in rows {
        if let Some(row) = row {
            list.push_reserved(BaseRow {
                ticket: row.key.ticket,
                class: row.key.class,
                due: row.key.due,
                queue: row.phase.queue(),
            });
        }
    }
}
