//! The windows that were handed over.

ghost use Rattle.std.specs.Prelude.{◌≡◌, ◌≤◌, ◌<◌, ◌++◌, ◌∷◌, [], Some, true, false, IfOk, IsTrue, ◌↔◌, length};
ghost use Rattle.std.specs.Option.{option_to_list};
ghost use Rattle.std.specs.VecDeque.{deque_len, deque_capacity};
ghost use Rattle.run_windows.specs.Sums.{plus, nothing_for, with_window};

use crate::printed::{PrintFault, PrintedWindows};
use crate::sums::Sums;
use dispatch_reports::EndedWindow;
use due_key::Moment;
use late_cert::Reports;
use std::alloc::{AllocError, Global};
use std::collections::VecDeque;
use std::mem;
use std::snapshot::Snapshot;

/// The most windows that wait to be printed.
const MOST: usize = 16;

/// A window to be printed.
#[derive(Debug, Drop)]
pub struct Numbered {
    /// The number of the window, counted from 1 in the order in which they were handed over.
    pub number: u64,
    /// When the window before it ended, and when this one did.
    pub began: Moment,
    pub ended: Moment,
    pub reports: Reports,
}

/// What shows that a window was handed over. Only `Handed::hand_over` makes it.
#[derive(Drop)]
pub struct HandedOver {
    window: Snapshot<EndedWindow>,
    ended: Moment,
}

/// All windows that were handed over, in numbers, and those that wait to be printed.
#[derive(Drop)]
pub struct Handed {
    told: PrintedWindows,
    waiting: VecDeque<Numbered>,
    /// The number of windows that were left out and not reported yet.
    left_out: u64,
    /// When the last one ended.
    ended: Moment,
    is_over: bool,
    ghost roomy: { deque_capacity waiting ≡ 16 },
}

impl Handed {
    /// Makes the empty state, for this number of servers. It allocates the memory for all windows that may wait.
    pub fn new(alloc: Global, servers: usize) -> Result<Handed, AllocError>
        ensures counted { IfOk result (λ it. (it.told.windows ≡ 0) × (it.told.sums ≡ nothing_for servers)) }
        ensures waiting { IfOk result (λ it. (it.waiting.items ≡ []) × (it.left_out ≡ 0) × (it.is_over ≡ false)) }
        ensures ended { IfOk result (λ it. it.ended ≡ 0) }
    {
        let sums = Sums::new(alloc, servers)?;
        let waiting = VecDeque::with_capacity(alloc, MOST)?;
        Ok(Handed {
            told: PrintedWindows::new(sums),
            waiting,
            left_out: 0,
            ended: Moment::zero(),
            is_over: false,
        })
    }

    /// Adds a window that ended at this moment: it is counted, and waits to be printed, after the
    /// others. Where 16 wait already, it is left out.
    pub fn hand_over(&mut self, window: EndedWindow, ended: Moment) -> HandedOver
        ensures shown { (result.window.value ≡ window) × (result.ended ≡ ended) }
        ensures windows { self.new.told.windows ≡ plus self.old.told.windows 1 }
        ensures sums { self.new.told.sums ≡ with_window window.servers.items self.old.told.sums }
        ensures room { length self.old.waiting.items < 16
            → (self.new.waiting.items ≡ self.old.waiting.items ++ record { number = self.new.told.windows; began = self.old.ended; ended = ended; reports = window.reports } ∷ []) × (self.new.left_out ≡ self.old.left_out) }
        ensures full { 16 ≤ length self.old.waiting.items → (self.new.waiting ≡ self.old.waiting) × (self.new.left_out ≡ plus self.old.left_out 1) }
        ensures ended { self.new.ended ≡ ended }
        ensures same { (self.new.told.fault ≡ self.old.told.fault) × (self.new.is_over ≡ self.old.is_over) }
    {
        let it = HandedOver {
            window: Snapshot::of(&window),
            ended,
        };
        let EndedWindow { reports, servers } = window;
        self.told.count(servers.as_slice());
        if self.waiting.len() < MOST {
            let number = self.told.windows;
            let began = self.ended;
            self.waiting.push_back_reserved(Numbered {
                number,
                began,
                ended,
                reports,
            });
        } else {
            self.left_out = self.left_out.saturating_add(1);
        }
        self.ended = ended;
        it
    }

    /// Takes the first one of those that wait.
    pub fn next(&mut self) -> Option<Numbered>
        ensures first { self.old.waiting.items ≡ option_to_list result ++ self.new.waiting.items }
        ensures same { (self.new.told ≡ self.old.told) × (self.new.left_out ≡ self.old.left_out) × (self.new.ended ≡ self.old.ended) × (self.new.is_over ≡ self.old.is_over) }
    {
        self.waiting.pop_front()
    }

    /// Says whether none waits, and more may come.
    pub fn rests(&self) -> bool
        ensures { IsTrue result ↔ ((length self.now.waiting.items ≡ 0) × (self.now.is_over ≡ false)) }
    {
        self.waiting.is_empty() && !self.is_over
    }

    /// Returns how many were left out since the last call.
    pub fn take_left_out(&mut self) -> u64
        ensures { (result ≡ self.old.left_out) × (self.new ≡ record self.old { left_out = 0 }) }
    {
        mem::replace(&mut self.left_out, 0)
    }

    /// Notes that a window that waited found no room where it was to be printed.
    pub fn leave_out(&mut self)
        ensures { self.new ≡ record self.old { left_out = plus self.old.left_out 1 } }
    {
        self.left_out = self.left_out.saturating_add(1);
    }

    /// Notes that a window that waited couldn't be printed.
    pub fn fail(&mut self, fault: PrintFault)
        ensures { self.new ≡ record self.old { told = record self.old.told { fault = Some fault } } }
    {
        self.told.fail(fault);
    }

    /// Notes that no more come.
    pub fn end(&mut self)
        ensures { self.new ≡ record self.old { is_over = true } }
    {
        self.is_over = true;
    }

    /// Returns all of them, in numbers.
    pub fn into_told(self) -> PrintedWindows
        ensures { result ≡ self.told }
    {
        let Handed {
            told,
            waiting: _,
            left_out: _,
            ended: _,
            is_over: _,
        } = self;
        told
    }
}
