ghost use Rattle.std.specs.Prelude.{◌≡◌, ℕ, ◌+◌, ◌<◌, ◌≤◌, ◌==◌, IfOk, length, replicate, slice_index_or, vec_len, OnOk};
ghost use Rattle.slot_ledger.specs.Counts.{one_if};

use log_entries::{Phase, Queue};
use std::alloc::{AllocError, Global};
use std::marker::Model;

/// The number of requests that each server serves, and that wait in each queue.
#[derive(Debug, Drop)]
pub(crate) struct Counts {
    served: Vec<usize>,
    own: Vec<usize>,
    backend: usize,
}

impl Model for Counts {
    ghost use Rattle.slot_ledger.specs.Counts.{Counted};

    ghost Value = { Counted };

    ghost view = { λ counts. record { served = counts.served.items; own = counts.own.items; backend = counts.backend } };
}

impl Counts {
    ghost use Rattle.slot_ledger.specs.Counts.{IsPhaseOf, IsOneMore, HasChangedPhase, Includes, AreAtMost, served_at, queued_at};

    /// Makes the counts without a request.
    pub(crate) fn new(alloc: Global, servers: usize) -> Result<Counts, AllocError>
        ensures { IfOk result (λ counts. counts ≡ record { served = replicate servers 0; own = replicate servers 0; backend = 0 }) }
    {
        Ok(Counts {
            served: vec![in alloc; 0; servers]?,
            own: vec![in alloc; 0; servers]?,
            backend: 0,
        })
    }

    pub(crate) fn served(&self, server: usize) -> usize
        ensures { result ≡ served_at self.now server }
    {
        self.served.get(server).copied().unwrap_or(0)
    }

    pub(crate) fn queued(&self, queue: Queue) -> usize
        ensures { result ≡ queued_at self.now queue }
    {
        match queue {
            Queue::Backend => self.backend,
            Queue::Server(server) => self.own.get(server).copied().unwrap_or(0),
        }
    }

    /// Moves a request from one phase into another.
    pub(crate) fn change_phase(&mut self, before: Phase, after: Phase)
        requires counted { Includes before self.old }
        requires within { IsPhaseOf (length self.old.served) after }
        requires own { length self.old.own ≡ length self.old.served }
        requires few { AreAtMost 4096 self.old }
        ensures passed { HasChangedPhase before after self.old self.new }
        ensures served { length self.new.served ≡ length self.old.served }
        ensures own { length self.new.own ≡ length self.old.own }
    {
        self.leave(before);
        self.enter(after);
    }

    fn enter(&mut self, phase: Phase)
        requires within { IsPhaseOf (length self.old.served) phase }
        requires own { length self.old.own ≡ length self.old.served }
        requires few { AreAtMost 4096 self.old }
        ensures more { IsOneMore phase self.old self.new }
        ensures served { length self.new.served ≡ length self.old.served }
        ensures own { length self.new.own ≡ length self.old.own }
    {
        match phase {
            Phase::Serving(server) => raise(&mut self.served, server),
            Phase::Waiting(queue, _) => match queue {
                Queue::Backend => self.backend += 1,
                Queue::Server(server) => raise(&mut self.own, server),
            },
            Phase::Loose | Phase::Told(_) => {}
        }
    }

    fn leave(&mut self, phase: Phase)
        requires counted { Includes phase self.old }
        ensures less { IsOneMore phase self.new self.old }
        ensures served { length self.new.served ≡ length self.old.served }
        ensures own { length self.new.own ≡ length self.old.own }
    {
        match phase {
            Phase::Serving(server) => lower(&mut self.served, server),
            Phase::Waiting(queue, _) => match queue {
                Queue::Backend => self.backend -= 1,
                Queue::Server(server) => lower(&mut self.own, server),
            },
            Phase::Loose | Phase::Told(_) => {}
        }
    }
}

fn raise(list: &mut Vec<usize>, at: usize)
    requires within { at < vec_len list.old }
    requires few { slice_index_or list.old.items at 0 ≤ 4096 }
    ensures raised { (k : ℕ) → slice_index_or list.new.items k 0 ≡ slice_index_or list.old.items k 0 + one_if (at == k) }
    ensures length { vec_len list.new ≡ vec_len list.old }
{
    list[at] += 1;
}

fn lower(list: &mut Vec<usize>, at: usize)
    requires some { 1 ≤ slice_index_or list.old.items at 0 }
    ensures lowered { (k : ℕ) → slice_index_or list.old.items k 0 ≡ slice_index_or list.new.items k 0 + one_if (at == k) }
    ensures length { vec_len list.new ≡ vec_len list.old }
{
    list[at] -= 1;
}
