ghost use Rattle.std.specs.Prelude.{◌≡◌, ℕ, ◌<◌, ◌≤◌, [], ◌∷◌, ◌++◌, true, IfOk, All, Contains, MatchOption, IfSome, filter, length, vec_len, vec_capacity};
ghost use Rattle.slot_ledger.specs.Tickets.{AreStretches, HasTicketAmong, IsAboveLast, TicketIsAbsent, IsInStretches, IsRising, TicketsAreWithin, SweepsOneOn, Removes, has_place, number_pairs, stretches};

use std::alloc::{AllocError, Global};
use std::marker::Model;

/// A ticket, and its place until the ticket is removed.
#[derive(Clone, Copy)]
struct TicketPlace {
    ticket: u64,
    place: Option<usize>,
}

/// The places of tickets. Each call is `O(log n)` while each new ticket is above all before it.
///
/// A removed ticket stays as an pair without a place until a sweep passes it, and each new ticket
/// moves the sweep on by four pairs. With at most `p` tickets, a sweep that begins with `f`
/// pairs is over after `f / 3` new tickets, rounded up, and leaves at most `p - 1` pairs and
/// one for each of these. So none begins with more than `3p / 2` pairs, and there are never more
/// than `2p`.
#[derive(Drop)]
pub(crate) struct Tickets {
    // By rising ticket: the pairs before `kept`, which the sweep has passed, and those from
    // `next` on. The pairs between them no longer count.
    pairs: Vec<TicketPlace>,
    kept: usize,
    next: usize,
}

impl Model for Tickets {
    ghost use Rattle.std.specs.Prelude.{vec_capacity};
    ghost use Rattle.slot_ledger.specs.Tickets.{AreStretches, Indexed, number_pairs, stretches};

    ghost Value = { Indexed };

    ghost view = { λ index. record { pairs = number_pairs (stretches index.kept index.next index.pairs.items); room = vec_capacity index.pairs } };

    ghost invariant = { λ index. AreStretches index.kept index.next index.pairs.items };
}

impl Tickets {
    /// Makes room for this number of tickets. `O(1)`.
    pub(crate) fn with_room(alloc: Global, places: usize) -> Result<Tickets, AllocError>
        ensures empty { IfOk result (λ index. index.pairs ≡ []) }
        ensures room { IfOk result (λ index. places ≤ index.room) }
    {
        Ok(Tickets {
            pairs: Vec::with_capacity(alloc, places.saturating_mul(2))?,
            kept: 0,
            next: 0,
        })
    }

    /// Returns the place of a ticket. `O(log n)`.
    pub(crate) fn get(&self, ticket: u64) -> Option<usize>
        ensures { MatchOption result (TicketIsAbsent ticket self.now.pairs) (λ place. Contains self.now.pairs (ticket, place)) }
    {
        let at = position(&self.pairs, self.kept, self.next, ticket)?;
        self.pairs[at].place
    }

    /// Adds a ticket above all others. `O(1)`, and `O(n)` where a higher one was removed.
    pub(crate) fn push(&mut self, ticket: u64, place: usize)
        requires room { length self.old.pairs < self.old.room }
        requires highest { All (λ pair. pair.0 < ticket) self.old.pairs }
        ensures pairs { self.new.pairs ≡ self.old.pairs ++ (ticket, place) ∷ [] }
        ensures room { self.new.room ≡ self.old.room }
    {
        for _ in 0..4 {
            self.sweep();
        }
        // A ticket above all removed ones always finds room.
        if !takes(&self.pairs, ticket) {
            compact(&mut self.pairs, self.kept, self.next);
            self.kept = 0;
            self.next = 0;
        }
        self.pairs.push_reserved(TicketPlace {
            ticket,
            place: Some(place),
        });
    }

    /// Removes a ticket. `O(log n)`.
    pub(crate) fn remove(&mut self, ticket: u64)
        requires { (place : ℕ) × Contains self.old.pairs (ticket, place) }
        ensures removed { Removes ticket self.old.pairs self.new.pairs }
        ensures room { self.new.room ≡ self.old.room }
    {
        if let Some(at) = position(&self.pairs, self.kept, self.next, ticket) {
            self.pairs[at] = TicketPlace {
                ticket,
                place: None,
            };
        }
    }

    // Passes one pair, and begins again after the last one.
    fn sweep(&mut self)
        ensures { self.new ≡ self.old }
    {
        if self.pairs.is_empty() {
            return;
        }
        self.kept = keep_if_placed(&mut self.pairs, self.kept, self.next);
        self.next += 1;
        if self.next == self.pairs.len() {
            self.pairs.truncate(self.kept);
            self.kept = 0;
            self.next = 0;
        }
    }
}

// Keeps the pair at `next` if it has a place. Returns how many are kept then.
fn keep_if_placed(pairs: &mut [TicketPlace], kept: usize, next: usize) -> usize
    requires within { next < length pairs.old }
    requires stretches { AreStretches kept next pairs.old }
    ensures { SweepsOneOn kept next result pairs.old pairs.new }
{
    let pair = pairs[next];
    if pair.place.is_none() {
        return kept;
    }
    pairs[kept] = pair;
    kept + 1
}

// Says whether the ticket can be appended as it is.
fn takes(pairs: &Vec<TicketPlace>, ticket: u64) -> bool
    ensures room { result ≡ true → vec_len pairs.now < vec_capacity pairs.now }
    ensures highest { result ≡ true → IsAboveLast ticket pairs.now.items }
{
    pairs.len() < pairs.capacity() && pairs.last().is_none_or(|last| last.ticket < ticket)
}

// Keeps the pairs that have a place alone. `O(n)`.
fn compact(pairs: &mut Vec<TicketPlace>, kept: usize, next: usize)
    requires { TicketsAreWithin kept next pairs.old.items }
    ensures items { pairs.new.items ≡ filter has_place (stretches kept next pairs.old.items) }
    ensures capacity { vec_capacity pairs.new ≡ vec_capacity pairs.old }
{
    cut(pairs, kept, next);
    pairs.retain(|pair| pair.place.is_some());
}

// Removes the pairs from one position up to another.
fn cut(pairs: &mut Vec<TicketPlace>, from: usize, to: usize)
    requires { TicketsAreWithin from to pairs.old.items }
    ensures items { pairs.new.items ≡ stretches from to pairs.old.items }
    ensures capacity { vec_capacity pairs.new ≡ vec_capacity pairs.old }
{
    pairs.drain(from..to);
}

// Returns the position of a ticket's pair.
fn position(pairs: &[TicketPlace], kept: usize, next: usize, ticket: u64) -> Option<usize>
    requires { AreStretches kept next pairs.now }
    ensures { MatchOption result (TicketIsAbsent ticket (number_pairs (stretches kept next pairs.now))) (λ at. IsInStretches ticket kept next pairs.now at) }
{
    if let Some(ahead) = guess(&pairs[next..], ticket) {
        return Some(next + ahead);
    }
    if let Some(at) = search(&pairs[..kept], ticket) {
        return Some(at);
    }
    let at = search(&pairs[next..], ticket)?;
    Some(next + at)
}

// The same among pairs by rising ticket.
fn search(pairs: &[TicketPlace], ticket: u64) -> Option<usize>
    requires { IsRising pairs.now }
    ensures { MatchOption result (TicketIsAbsent ticket (number_pairs pairs.now)) (λ at. HasTicketAmong ticket pairs.now at) }
{
    if let Some(at) = guess(pairs, ticket) {
        return Some(at);
    }
    pairs.binary_search_by_key(&ticket, |pair| pair.ticket).ok()
}

// The same at once where no ticket is missing from the first to it, as when requests end in the
// order in which they came.
fn guess(pairs: &[TicketPlace], ticket: u64) -> Option<usize>
    ensures { IfSome result (λ at. HasTicketAmong ticket pairs.now at) }
{
    let at = ticket.checked_sub(pairs.first()?.ticket)? as usize;
    if pairs.get(at)?.ticket == ticket {
        Some(at)
    } else {
        None
    }
}
