//! From outside to a place.
//!
//! Whoever comes outside looks for a place afterwards, and whoever frees a place looks outside
//! afterwards, so one of the two should find the other. No clause says that; it is argued here
//! only.

ghost use Rattle.std.specs.Prelude.{◌≡◌, IfOk, IfErr, IfSome, IfNone};
ghost use Rattle.relay_workers.specs.Admissions.{arrival, IsAdmittedAs, IsRefusedFor};
ghost use Rattle.relay_workers.specs.Turning.{IsAnswered};
ghost use Rattle.shared_desk.specs.Answers.{AnswersArrival};
ghost use Rattle.loop_shared.specs.Admissions.{Admits};
ghost use Rattle.loop_shared.specs.Outsides.{HasGone};
ghost use Rattle.loop_table.specs.declared.subject.Subject.TheVariants as subjects;

use crate::first_outside::{NobodyOutside, NothingToAdmit, admit_one};
use crate::leaving::HasLeft;
use crate::outside::{Outside, Outsider};
use crate::owed_admission::OwedAdmission;
use crate::shared::Shared;
use crate::stopping::Refusing;
use crate::watching::watch_anew;
use dispatch_state::Ticketed;
use due_key::Moment;
use locked_book::DeskName;
use log_entries::Refusal;
use loop_table::{Subject, Token};
use mio::{Interest, Registry};
use prio_rules::Wish;
use proxy_config::Config;
use relay_workers::{Gate, arrive_as};
use std::os::fd::AsRawFd;
use std::sync::Wait;
use std::sync::atomic::Ordering;
use std::sync::ledger::Ledger;

/// What happened to the first request outside. Where it went, the next one may go too, so an
/// admission is still owed.
pub enum Admission {
    /// It has a place now.
    Admitted(Outsider, Ticketed, OwedAdmission),
    /// The dispatcher refuses it for another cause than want of places.
    Refused(Outsider, OwedAdmission),
    /// It waits on, or no request does.
    Rests(NothingToAdmit),
}

impl<N: DeskName + Ledger> Shared<'_, N> {
    /// Asks for a place for a request that comes now, with this wish. Refused as the dispatcher's
    /// `arrive` is.
    pub fn arrive<R: Wait, G: Gate>(
        &self,
        rt: &R,
        gate: &mut G,
        wish: &Wish,
        _nobody: NobodyOutside,
    ) -> Result<Ticketed, Refusal>
        ensures ok { IfOk result (λ it. IsAdmittedAs N.terms N.setup wish.now it) }
        ensures err { IfErr result (λ refusal. IsRefusedFor N.terms N.setup wish.now.pin refusal) }
        ensures answered { IsAnswered N.terms N.setup (AnswersArrival N.terms N.setup (arrival wish.now) wish.now.pin) result (G.notes gate.old) (G.notes gate.new) }
    {
        arrive_as(rt, self.proxy, gate, wish)
    }

    /// Returns the number of requests that wait for a place.
    pub fn outsiders(&self) -> u64 {
        self.outsiders.load(Ordering::SeqCst)
    }

    // Publishes the number of requests that wait for a place.
    fn note_outside(&self, outside: &Outside) {
        let requests = outside.len() as u64;
        self.outsiders.store(requests, Ordering::SeqCst);
        if let Some(log) = self.front.log {
            log.note_outside(requests);
        }
    }

    /// Says whether so many wait outside that no client is accepted.
    pub fn is_crowded(&self) -> bool {
        self.most_outside <= self.outsiders()
    }

    /// Gives the first request outside a place, where there is one. Taking it out and its arrival
    /// are one step for all threads, so no two loops reverse the order of two requests.
    pub fn admit_first<R: Wait, G: Gate>(
        &self,
        rt: &R,
        gate: &mut G,
        owed: OwedAdmission,
    ) -> Admission
        ensures { Admits N.terms N.setup result (G.notes gate.old) (G.notes gate.new) }
    {
        if let Some(nobody) = self.seen_nobody_outside() {
            let nothing = nobody.admit();
            owed.end(&nothing);
            return Admission::Rests(nothing);
        }
        let mut outside = self.outside.lock(rt);
        match admit_one(rt, self.proxy, gate, &mut *outside) {
            Err(nothing) => {
                owed.end(&nothing);
                Admission::Rests(nothing)
            }
            Ok((outsider, arrived)) => {
                self.note_outside(&outside);
                match arrived {
                    Ok(at) => Admission::Admitted(outsider, at, owed),
                    Err(_) => Admission::Refused(outsider, owed),
                }
            }
        }
    }

    /// Lets a request wait for a place, with its client watched by the poll of this registry. It
    /// comes back where there is no memory or no room for it.
    pub fn come_outside<R: Wait>(
        &self,
        rt: &R,
        registry: &Registry,
        wish: &Wish,
        outsider: Outsider,
    ) -> Result<OwedAdmission, Outsider>
        ensures { IfErr result (λ back. back ≡ outsider) }
    {
        let mut outside = self.outside.lock(rt);
        match outside.come(self.proxy.alloc, wish, outsider) {
            Err(outsider) => Err(outsider),
            Ok(token) => {
                self.note_outside(&outside);
                if let Some(live) = outside.client(token) {
                    let connection = live.stream().as_raw_fd();
                    let subject = Subject::Outside(token);
                    let _ = watch_anew(registry, connection, subject, Interest::READABLE);
                }
                Ok(OwedAdmission::new())
            }
        }
    }

    /// Takes out a request whose client left. `None`: it waits on, or is gone already.
    pub fn leave_outside<R: Wait>(&self, rt: &R, token: Token) -> Option<(Outsider, HasLeft)>
        ensures { IfSome result (λ it. it.1.subject ≡ subjects.Outside token) }
    {
        let mut outside = self.outside.lock(rt);
        let left = leave_one(&mut *outside, token, self.front.config)?;
        self.note_outside(&outside);
        Some(left)
    }

    /// Takes out the first request, since none is to be served.
    pub fn take_first<R: Wait>(&self, rt: &R, _refusing: Refusing) -> Option<Outsider> {
        let mut outside = self.outside.lock(rt);
        let first = outside.take_first();
        self.note_outside(&outside);
        first
    }

    /// Takes out a request that has waited too long at this moment.
    pub fn take_late<R: Wait>(&self, rt: &R, now: &Moment) -> Option<Outsider> {
        let mut outside = self.outside.lock(rt);
        let late = outside.take_late(*now);
        self.note_outside(&outside);
        late
    }
}

// Takes out the request of this token, where its client left.
fn leave_one(outside: &mut Outside, token: Token, config: &Config) -> Option<(Outsider, HasLeft)>
    ensures some { IfSome result (λ it. HasGone outside.old outside.new token it.0 × (it.1.subject ≡ subjects.Outside token)) }
    ensures none { IfNone result (outside.new ≡ outside.old) }
{
    let left = outside.left(token, config)?;
    let outsider = outside.take(token)?;
    Some((outsider, left))
}
