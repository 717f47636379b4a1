ghost use Rattle.std.specs.Prelude.{◌≡◌, ◌≢◌, ◌<◌, ◌≤◌, ℕ, IfOk, OnOk, IfErr, Ok, None, false};
ghost use Rattle.log_entries.specs.declared.refusal.Refusal.TheVariants.{NoSuchServer};
ghost use Rattle.relay_http.specs.Askings.{HasReadHead};
ghost use Rattle.relay_http.specs.States.{IsFresh, IsOpen};
ghost use Rattle.relay_http.specs.declared.exchange.Stage.TheVariants as stage;
ghost use Rattle.relay_http.specs.declared.exchange.Stage.TheVariants.{Asked};
ghost use Rattle.relay_workers.specs.Admissions.{arrival, late_arrival, IsAdmitted, IsAdmittedAs, IsAdmittedLate, IsRequestAt, WishIsTurnedAway, IsRefusedFor};
ghost use Rattle.shared_desk.specs.Answers.{AnswersArrival};
ghost use Rattle.relay_workers.specs.declared.outcome.Outcome.TheVariants.{Answered, Cut, Refused};
ghost use Rattle.prio_rules.specs.Wishes.{wish};
ghost use Rattle.relay_workers.specs.Carrying.{IsToldOutcome};
ghost use Rattle.relay_workers.specs.Turning.{IsAnswered};
ghost use Rattle.relay_workers.specs.Endings.{IsTurnedAway, IsSent};
ghost use Rattle.relay_workers.specs.Gates.{noted};
ghost use Rattle.relay_workers.specs.Gates.Notice.{Released};

use crate::gate::Gate;
use crate::outcome::Outcome;
use crate::proxy::{Proxy, Runner};
use dispatch_state::Ticketed;
use locked_book::{Deferred, DeskName, Wanted};
use log_entries::Refusal;
use prio_rules::{Wish, decide};
use relay_http::{Code, Exchange};
use req_view::View;
use shared_desk::Changed;
use std::io::{Read, Write};
use std::marker::PhantomData;
use std::sync::Wait;

/// A client whose request has arrived at the board that N names. It can't be dropped: its gate
/// takes the client back.
pub struct Admitted<N: DeskName, C: Read + Write> {
    pub client: C,
    pub view: View,
    /// Its place and its ticket.
    pub at: Ticketed,
    of: PhantomData<N>,
    pub ghost arrived: { IsRequestAt N.terms N.setup view at },
}

impl<N: DeskName, C: Read + Write> Admitted<N, C> {
    /// Gives the client back to its gate.
    pub fn release<G: Gate<Client = C>>(self, gate: &mut G)
        ensures { G.notes gate.new ≡ noted (Released self.client) (G.notes gate.old) }
    {
        let Admitted {
            client,
            view: _,
            at: _,
            of: _,
        } = self;
        gate.release(client);
    }
}

/// From a client to a place: reads the request's head, and lets the request arrive as the rules
/// wish. Where that fails, the client is told its refusal, where it is refused, and its gate takes
/// it back.
///
/// Refused with 400 where the head isn't one that the proxy accepts, and with 503 where there is no
/// memory, or the dispatcher refuses: all places are taken, the log is full, or the tickets are
/// spent.
pub fn admit<R: Wait, N: DeskName, G: Gate + Drop>(
    rt: &R,
    proxy: &Proxy<N>,
    runner: &mut Runner<G>,
    client: G::Client,
) -> Result<Admitted<N, G::Client>, Outcome>
    requires { IsFresh runner.old.exchange.most runner.old.exchange }
    ensures ok { IfOk result (λ it. IsAdmitted N.terms N.setup proxy.now.config it.view it.at) }
    ensures read { IfOk result (λ it. HasReadHead it.view runner.new.exchange.pipe.inbox (G.Client.remaining client) (G.Client.remaining it.client)) }
    ensures asked { OnOk result (runner.new.exchange.stage ≡ Asked) }
    ensures arrives { IfOk result (λ it. IsAnswered N.terms N.setup (AnswersArrival N.terms N.setup (arrival (wish proxy.now.config it.view)) (wish proxy.now.config it.view).pin) (Ok it.at) (G.notes runner.old.gate) (G.notes runner.new.gate)) }
    ensures begun { OnOk result (runner.new.exchange.begun ≡ false) }
    ensures err { IfErr result (λ outcome. outcome ≢ Answered) }
    ensures told { IfErr result (λ outcome. IsTurnedAway G.Client.remaining G.Client.contents N.terms N.setup proxy.now.config runner.new.exchange outcome client (G.notes runner.old.gate) (G.notes runner.new.gate)) }
    ensures sent { IfErr result (λ outcome. IsSent runner.new.exchange outcome) }
    ensures unclosed { OnOk result (IsOpen runner.new.exchange) }
    ensures turns { OnOk result (runner.new.exchange.pipe.turns ≤ runner.old.exchange.pipe.turns) }
    ensures most { runner.new.exchange.most ≡ runner.old.exchange.most }
{
    let mut client = client;
    match runner.exchange.read_request(proxy.alloc, &mut client) {
        Err(fault) => Err(turn_away(runner, client, Outcome::after_reading(fault))),
        Ok(view) => match arrive(rt, proxy, &mut runner.gate, &view) {
            Ok(at) => Ok(Admitted {
                client,
                view,
                at,
                of: PhantomData,
            }),
            Err(_) => {
                let outcome = Outcome::Refused(Code::Unavailable);
                Err(turn_away(runner, client, outcome))
            }
        },
    }
}

// Sends a client that has no place its refusal, where it is refused, and gives it back to its gate.
fn turn_away<G: Gate + Drop>(runner: &mut Runner<G>, client: G::Client, outcome: Outcome) -> Outcome
    requires begun { runner.old.exchange.begun ≡ false }
    requires unanswered { (outcome ≢ Answered) × (runner.old.exchange.stage ≢ stage.Answered) }
    requires unsent { runner.old.exchange.refused ≡ None }
    ensures same { result ≡ outcome }
    ensures unanswered { result ≢ Answered }
    ensures sent { IsSent runner.new.exchange result }
    ensures told { (client_then : G.Client) × IsToldOutcome G.Client.contents runner.new.exchange result client client_then
        × (G.notes runner.new.gate ≡ noted (Released client_then) (G.notes runner.old.gate)) }
    ensures closing { runner.new.exchange.closing ≡ runner.old.exchange.closing }
    ensures most { runner.new.exchange.most ≡ runner.old.exchange.most }
{
    let mut client = client;
    let outcome = answer_refusal(&mut runner.exchange, &mut client, outcome);
    runner.gate.release(client);
    outcome
}

/// Lets the request with this head arrive as the rules wish. Refused as the dispatcher's `arrive`
/// is; where the log is full only if there is no memory for the reports of its window, or the next
/// window is full as well.
pub fn arrive<R: Wait, N: DeskName, G: Gate>(
    rt: &R,
    proxy: &Proxy<N>,
    gate: &mut G,
    view: &View,
) -> Result<Ticketed, Refusal>
    ensures ok { IfOk result (λ it. IsAdmitted N.terms N.setup proxy.now.config view.now it) }
    ensures err { IfErr result (λ refusal. WishIsTurnedAway N.terms N.setup proxy.now.config view.now refusal) }
    // A pin is a server of the dispatcher.
    ensures known { IfErr result (λ refusal. refusal ≢ NoSuchServer) }
    ensures answered { IsAnswered N.terms N.setup (AnswersArrival N.terms N.setup (arrival (wish proxy.now.config view.now)) (wish proxy.now.config view.now).pin) result (G.notes gate.old) (G.notes gate.new) }
{
    let wish = decide(&proxy.config, view);
    arrive_as(rt, proxy, gate, &wish)
}

/// Lets a request arrive with this wish. Refused as `arrive` is.
pub fn arrive_as<R: Wait, N: DeskName, G: Gate>(
    rt: &R,
    proxy: &Proxy<N>,
    gate: &mut G,
    wish: &Wish,
) -> Result<Ticketed, Refusal>
    ensures ok { IfOk result (λ it. IsAdmittedAs N.terms N.setup wish.now it) }
    ensures err { IfErr result (λ refusal. IsRefusedFor N.terms N.setup wish.now.pin refusal) }
    ensures answered { IsAnswered N.terms N.setup (AnswersArrival N.terms N.setup (arrival wish.now) wish.now.pin) result (G.notes gate.old) (G.notes gate.new) }
{
    let moment = gate.moment();
    proxy.retry_in_new_window(
        rt,
        gate,
        || -> (Result<Ticketed, Refusal>, Changed<N>)
            ensures { AnswersArrival N.terms N.setup (arrival wish.entry.now) wish.entry.now.pin moment result.0 result.1 }
        {
            let wanted = Wanted {
                class: wish.class,
                offset: wish.offset,
                pin: wish.pin,
            };
            proxy.open().arrive(rt, proxy.alloc, moment, wanted)
        },
    )
}

/// Lets a request arrive that waited elsewhere: it keeps its due date, or gets the nearest one that
/// an arrival may have now. Refused as `arrive` is.
pub fn arrive_late<R: Wait, N: DeskName, G: Gate>(
    rt: &R,
    proxy: &Proxy<N>,
    gate: &mut G,
    deferred: Deferred,
) -> Result<Ticketed, Refusal>
    ensures ok { IfOk result (λ it. IsAdmittedLate N.terms N.setup deferred it) }
    ensures err { IfErr result (λ refusal. IsRefusedFor N.terms N.setup deferred.pin refusal) }
    ensures answered { IsAnswered N.terms N.setup (AnswersArrival N.terms N.setup (late_arrival deferred) deferred.pin) result (G.notes gate.old) (G.notes gate.new) }
{
    let moment = gate.moment();
    proxy.retry_in_new_window(
        rt,
        gate,
        || -> (Result<Ticketed, Refusal>, Changed<N>)
            ensures { AnswersArrival N.terms N.setup (late_arrival deferred) deferred.pin moment result.0 result.1 }
        { proxy.open().arrive_due(rt, proxy.alloc, moment, deferred) },
    )
}

/// Sends a client its refusal, where it is refused.
pub(crate) fn answer_refusal<W: Write>(
    exchange: &mut Exchange,
    client: &mut W,
    outcome: Outcome,
) -> Outcome
    requires begun { exchange.old.begun ≡ false }
    requires unanswered { (outcome ≢ Answered) × (exchange.old.stage ≢ stage.Answered) }
    requires unsent { exchange.old.refused ≡ None }
    ensures same { result ≡ outcome }
    ensures unanswered { (result ≢ Answered) × (exchange.new.stage ≢ stage.Answered) }
    ensures sent { IsSent exchange.new result }
    ensures cut { outcome ≡ Cut → exchange.new ≡ exchange.old }
    ensures told { IsToldOutcome W.contents exchange.new result client.old client.new }
    ensures closing { exchange.new.closing ≡ exchange.old.closing }
    ensures turns { exchange.new.refused ≡ None → exchange.new.pipe.turns ≤ exchange.old.pipe.turns }
    ensures most { exchange.new.most ≡ exchange.old.most }
{
    if let Outcome::Refused(code) = outcome {
        // A client that has left is told nothing.
        let _ = exchange.refuse(code, client);
    }
    outcome
}
