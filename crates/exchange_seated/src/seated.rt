ghost use Rattle.std.specs.Prelude.{◌≡◌, ◌↔◌, ℕ, None, ◌<◌, ◌≤◌, ◌++◌, ◌∷◌, [], true, false, length, is_some, IfOk, IfErr, IfSome, IsTrue, MatchOption};
ghost use Rattle.exchange_driver.specs.Drives.{Drives, IsDownAtRest, IsUpAtRest};
ghost use Rattle.exchange_driver.specs.Wires.{IsAsAnswered};
ghost use Rattle.exchange_driver.specs.Moves.{IsDriven, KeepsTurns};
ghost use Rattle.grant_board.specs.RelayCalls.{post_after};
ghost use Rattle.exchange_machine.specs.Histories.{ExchangeHistory};
ghost use Rattle.exchange_machine.specs.Wholes.{EndsClean};
ghost use Rattle.exchange_events.specs.Answers as answers;
ghost use Rattle.exchange_events.specs.Chains as chains;
ghost use Rattle.exchange_events.specs.Passes.{held_by, gone_with};
ghost use Rattle.exchange_events.specs.Steps as steps;
ghost use Rattle.exchange_events.specs.declared.exchange.Exchange.{Exchange};
ghost use Rattle.exchange_events.specs.declared.exchange.Outcome as outcomes;
ghost use Rattle.exchange_events.specs.Steps.{HasHistory};
ghost use Rattle.exchange_seated.specs.Connections.{StillHolds};
ghost use Rattle.exchange_seated.specs.Seats.{is_waiting, passes_at, board_at, terms_at, is_taken, all_serve, server_of, served_by, may_end, IsPosted, stage_of, has_asked};
ghost use Rattle.exchange_seated.specs.Notices.{event_of};
ghost use Rattle.exchange_seated.specs.declared.notice.Notice.{Notice};

use crate::notice::Notice;
use crate::queued::WaitingExchange;
use base_verdict::{Ending, Verdict};
use board_seats::{Lent, LentThing, Taken};
use exchange_driver::{Driven, Line, Moved, Rest, Settings, Socket, drive};
use exchange_events::{Exchange, Outcome, Step, TimeoutKind};
use grant_board::{Board, BoardName, Pass, RelaySeat};
use std::alloc::Global;
use std::marker::PhantomData;
use std::sync::ledger::Ledger;

/// An exchange, and the lent seat of the pass that it holds, where it holds one. It has no `Drop`,
/// since a pass has none.
pub struct Seated<N: BoardName + Ledger> {
    exchange: Exchange,
    seat: Option<RelaySeat>,
    out: Option<LentThing<N>>,
    name: PhantomData<N>,
    ghost named: { board_at N.board seat ≡ N.board },
    ghost terms: { terms_at N.terms seat ≡ N.terms },
    ghost holds: { passes_at seat ≡ held_by exchange },
    ghost taken: { is_taken seat ≡ true },
    ghost lent: { is_some out ≡ is_some seat },
    ghost serves: { all_serve (held_by exchange) ≡ true },
    ghost at: { HasHistory exchange },
}

/// The stage of an exchange.
#[derive(Clone, Copy, Debug, PartialEq, Eq)]
pub enum Stage {
    Asking,
    Waiting,
    Dialing,
    Forwarding,
    /// Its pass was posted, and its client is still to be sent bytes.
    Telling,
    Over,
}

/// A pass to be posted, with its seat, and how its exchange ended.
pub struct Posting<N: BoardName + Ledger> {
    taken: Taken<N>,
    ending: Ending,
    ghost may_end: { may_end taken.held.pass.verdict ending ≡ true },
}

/// What an exchange gives away.
pub enum Given<N: BoardName + Ledger> {
    Nothing,
    Posts(Posting<N>),
    /// The server's connection is to be given up, and another one opened on the same pass.
    Retries,
}

/// The result of an event: the exchange, what it gave away, the sides at which bytes moved, and
/// whether there is more to do.
pub struct Served<N: BoardName + Ledger> {
    pub seated: Seated<N>,
    pub given: Given<N>,
    pub client: Option<Moved>,
    pub server: Option<Moved>,
    pub rest: Rest,
}

impl<N: BoardName + Ledger> Posting<N> {
    /// Returns the place of the pass.
    pub fn place(&self) -> usize
        ensures { result ≡ self.now.taken.held.pass.place }
    {
        self.taken.place()
    }

    /// Posts the pass, with how its exchange ended. One step, without allocating. Its seat has to be given back.
    pub fn post(self, board: &Board) -> Lent<N>
        requires { board.now ≡ N.board }
        ensures { result.idle.seat.view ≡ post_after self.taken.held.seat.view self.taken.held.pass self.ending }
    {
        let Posting { taken, ending } = self;
        taken.post(board, ending)
    }
}

// An exchange after an outcome, and what that gives away.
struct Parted<N: BoardName + Ledger> {
    seated: Seated<N>,
    given: Given<N>,
}

impl<N: BoardName + Ledger> Seated<N> {
    /// Makes the exchange of a new client.
    pub fn new(alloc: Global) -> Seated<N>
        ensures none { held_by result.exchange ≡ [] }
        ensures silent { chains.is_silent result.exchange ≡ true }
    {
        Seated::of(Exchange::new(alloc), None, None)
    }

    pub(crate) fn of(
        exchange: Exchange,
        seat: Option<RelaySeat>,
        out: Option<LentThing<N>>,
    ) -> Seated<N>
        requires named { board_at N.board seat ≡ N.board }
        requires terms { terms_at N.terms seat ≡ N.terms }
        requires holds { passes_at seat ≡ held_by exchange }
        requires taken { is_taken seat ≡ true }
        requires lent { is_some out ≡ is_some seat }
        requires serves { all_serve (held_by exchange) ≡ true }
        requires at { HasHistory exchange }
        ensures { result.exchange ≡ exchange }
    {
        Seated {
            exchange,
            seat,
            out,
            name: PhantomData,
        }
    }

    /// Returns its stage.
    pub fn stage(&self) -> Stage
        ensures { result ≡ stage_of self.now.exchange }
    {
        match &self.exchange {
            Exchange::Asking(_) => Stage::Asking,
            Exchange::Waiting(_) => Stage::Waiting,
            Exchange::Dialing(_) => Stage::Dialing,
            Exchange::Forwarding(forwarding) => {
                if forwarding.is_dialing() {
                    Stage::Dialing
                } else {
                    Stage::Forwarding
                }
            }
            Exchange::Settling(_) | Exchange::Leaving(_) | Exchange::Telling(_) => Stage::Telling,
            Exchange::Over => Stage::Over,
        }
    }

    /// Returns the server of the pass that it holds, where it holds one.
    pub fn server(&self) -> Option<usize>
        ensures { result ≡ server_of (held_by self.now.exchange) }
    {
        match &self.exchange {
            Exchange::Dialing(dialing) => served_by(dialing.pass().verdict()),
            Exchange::Forwarding(forwarding) => served_by(forwarding.pass().verdict()),
            Exchange::Asking(_)
            | Exchange::Waiting(_)
            | Exchange::Settling(_)
            | Exchange::Leaving(_)
            | Exchange::Telling(_)
            | Exchange::Over => None,
        }
    }

    /// Says whether its request was read whole, or isn't read before a pass is there.
    pub fn has_asked(&self) -> bool
        ensures { result ≡ has_asked self.now.exchange }
    {
        match &self.exchange {
            Exchange::Waiting(_) | Exchange::Dialing(_) => true,
            Exchange::Forwarding(forwarding) => forwarding.is_asked(),
            Exchange::Asking(_)
            | Exchange::Settling(_)
            | Exchange::Leaving(_)
            | Exchange::Telling(_)
            | Exchange::Over => false,
        }
    }

    /// Returns the timeout that runs.
    pub fn clock(&self) -> Option<TimeoutKind>
        ensures { result ≡ steps.clock_of self.now.exchange }
    {
        self.exchange.wants().clock
    }

    /// Says whether more of the client's bytes are read now.
    pub fn reads_client(&self) -> bool
        ensures { result ≡ steps.reads_client self.now.exchange }
    {
        self.exchange.wants().reads_client
    }

    /// Says whether its client was sent all its bytes.
    pub fn has_told(&self) -> bool
        ensures { IsTrue result ↔ (steps.to_client self.now.exchange ≡ []) }
    {
        self.exchange.to_client().is_empty()
    }

    /// Says whether its client is or was sent the whole answer of its server, and not a refusal or
    /// an answer that broke off.
    pub fn is_answered(&self) -> bool
        ensures { result ≡ chains.is_answered self.now.exchange }
    {
        self.exchange.is_answered()
    }

    /// Says whether no byte has come from its client yet.
    pub fn is_silent(&self) -> bool
        ensures { result ≡ chains.is_silent self.now.exchange }
    {
        self.exchange.is_silent()
    }

    /// Says whether its server's connection can be used again, as in `exchange_events`.
    pub fn is_clean(&self) -> bool
        ensures clean { result ≡ chains.is_clean self.now.exchange }
        ensures ends { IsTrue result → (h : ExchangeHistory) → steps.IsAtItsStage self.now.exchange h → EndsClean h (steps.to_client self.now.exchange) }
    {
        self.exchange.is_clean()
    }

    /// Says whether its request may go out on a used connection of a server.
    pub fn takes_used(&self) -> bool
        ensures { result ≡ chains.takes_used self.now.exchange }
    {
        self.exchange.takes_used()
    }

    /// Says whether its client may ask again, as in `exchange_events`.
    pub fn may_ask_again(&self) -> bool
        ensures { result ≡ chains.may_ask_again self.now.exchange }
    {
        self.exchange.may_ask_again()
    }

    /// Makes the next exchange of a client that may ask again; it has no pass. It begins with the
    /// bytes after the request.
    pub fn ask_again(self, alloc: Global) -> Result<Seated<N>, Seated<N>>
        ensures next { IfOk result (λ next. (h : ExchangeHistory) → steps.IsAtItsStage self.exchange h → chains.IsNext h next.exchange) }
        ensures none { IfOk result (λ next. held_by next.exchange ≡ []) }
        ensures reads { IfOk result (λ next. answers.IsReadOn next.exchange) }
        ensures may { IfOk result (λ next. chains.may_ask_again self.exchange ≡ true) }
        ensures same { IfErr result (λ seated. (seated ≡ self) × (chains.may_ask_again self.exchange ≡ false)) }
    {
        if !self.exchange.may_ask_again() {
            return Err(self);
        }
        let Seated {
            exchange,
            seat: _,
            out,
            name: _,
        } = self;
        match out {
            None => {}
            Some(_) => unreachable!(),
        }
        match exchange.ask_again(alloc) {
            Ok(next) => Ok(Seated::of(next, None, None)),
            Err(_exchange) => unreachable!(),
        }
    }

    /// Returns the exchange that waits for a pass, if it does.
    pub fn into_queued(self) -> Result<WaitingExchange, Seated<N>>
        ensures waits { IfOk result (λ queued. self.exchange ≡ Exchange.Waiting queued.waiting) }
        ensures same { IfErr result (λ seated. (seated ≡ self) × (is_waiting self.exchange ≡ false)) }
    {
        if !self.is_waiting() {
            return Err(self);
        }
        let Seated {
            exchange,
            seat: _,
            out,
            name: _,
        } = self;
        match exchange {
            Exchange::Waiting(waiting) => match out {
                None => Ok(WaitingExchange::of(waiting)),
                Some(_) => unreachable!(),
            },
            _exchange => unreachable!(),
        }
    }

    /// Says whether it waits for a pass.
    pub fn is_waiting(&self) -> bool
        ensures { result ≡ is_waiting self.now.exchange }
    {
        match &self.exchange {
            Exchange::Waiting(_) => true,
            Exchange::Asking(_)
            | Exchange::Dialing(_)
            | Exchange::Forwarding(_)
            | Exchange::Settling(_)
            | Exchange::Leaving(_)
            | Exchange::Telling(_)
            | Exchange::Over => false,
        }
    }

    /// Reads and writes, as `exchange_driver::drive` does.
    pub fn drive<C: Socket, S: Socket>(
        self,
        settings: Settings,
        client: &mut Line<C>,
        server: &mut Line<S>,
        buffer: &mut [u8],
    ) -> Served<N>
        requires { 0 < length buffer.old }
        ensures at { (h : ExchangeHistory) → steps.IsAtItsStage self.exchange h → (outcome : outcomes.Outcome)
            × Drives client.old client.new server.old server.new (is_some result.client) (is_some result.server) h result.seated.exchange outcome
            × (outcome ≡ outcomes.Outcome.Retries → result.given ≡ Given.Retries)
            × (result.given ≡ Given.Retries → outcome ≡ outcomes.Outcome.Retries)
            × ((posting : _) → result.given ≡ Given.Posts posting → IsPosted outcome posting.taken.held.pass posting.ending) }
        ensures driven { (outcome : outcomes.Outcome) × (count : ℕ)
            × IsDriven count settings.rules.aborts client.old.answers client.new.answers server.old.answers server.new.answers self.exchange outcome result.seated.exchange
            × KeepsTurns settings.turns count result.rest outcome
            × (outcome ≡ outcomes.Outcome.Retries → result.given ≡ Given.Retries)
            × (result.given ≡ Given.Retries → outcome ≡ outcomes.Outcome.Retries)
            × ((posting : _) → result.given ≡ Given.Posts posting → IsPosted outcome posting.taken.held.pass posting.ending) }
        ensures holds { StillHolds (held_by self.exchange) (held_by result.seated.exchange) }
        ensures there { server.new.there ≡ server.old.there }
        ensures answered { IsAsAnswered client.old client.new × IsAsAnswered server.old server.new }
        ensures down { result.rest ≡ Rest.Waits → IsDownAtRest result.seated.exchange client.new server.new }
        ensures up { result.rest ≡ Rest.Waits → IsUpAtRest result.seated.exchange client.new server.new }
    {
        let Seated {
            exchange,
            seat,
            out,
            name: _,
        } = self;
        let Driven {
            exchange,
            outcome,
            client,
            server,
            rest,
        } = drive(exchange, settings, client, server, buffer);
        let Parted { seated, given } = part(exchange, seat, out, outcome);
        Served {
            seated,
            given,
            client,
            server,
            rest,
        }
    }

    /// Reports an event to it: by that no byte goes to a server, and none comes from one.
    pub fn notify(self, settings: Settings, notice: Notice) -> Served<N>
        ensures at { (h : ExchangeHistory) → steps.IsAtItsStage self.exchange h → (now : ExchangeHistory) × (outcome : outcomes.Outcome)
            × (now.to_server ≡ h.to_server) × (now.server_in ≡ h.server_in) × steps.IsAtItsStage result.seated.exchange (steps.ended outcome now)
            × (outcome ≡ outcomes.Outcome.Retries → result.given ≡ Given.Retries)
            × (result.given ≡ Given.Retries → outcome ≡ outcomes.Outcome.Retries)
            × ((posting : _) → result.given ≡ Given.Posts posting → IsPosted outcome posting.taken.held.pass posting.ending) }
        ensures event { (h : ExchangeHistory) → steps.IsAtItsStage self.exchange h → (used : ℕ) × (outcome : outcomes.Outcome)
            × steps.IsAtItsStage result.seated.exchange (steps.history_after self.exchange (event_of notice) used outcome h) }
        ensures does { (used : ℕ) × (outcome : outcomes.Outcome) × answers.Does settings.rules.aborts self.exchange (event_of notice) used outcome result.seated.exchange
            × (outcome ≡ outcomes.Outcome.Retries → result.given ≡ Given.Retries)
            × (result.given ≡ Given.Retries → outcome ≡ outcomes.Outcome.Retries)
            × ((posting : _) → result.given ≡ Given.Posts posting → IsPosted outcome posting.taken.held.pass posting.ending) }
        ensures leaves { notice ≡ Notice.ClientEnd → steps.is_left settings.rules.aborts self.exchange ≡ true → result.seated.exchange ≡ Exchange.Over }
        ensures stays { notice ≡ Notice.ClientEnd → steps.is_left settings.rules.aborts self.exchange ≡ false → result.seated.exchange ≡ self.exchange }
        ensures rest { (result.rest ≡ Rest.Again) × (result.client ≡ None) × (result.server ≡ None) }
        ensures holds { StillHolds (held_by self.exchange) (held_by result.seated.exchange) }
    {
        let Seated {
            exchange,
            seat,
            out,
            name: _,
        } = self;
        let Step {
            next,
            used: _,
            outcome,
        } = exchange.step(settings.alloc, settings.rules, notice.event());
        let Parted { seated, given } = part(next, seat, out, outcome);
        Served {
            seated,
            given,
            client: None,
            server: None,
            rest: Rest::Again,
        }
    }

    /// Ends it at any stage: its pass is to be posted as done, since the server isn't to blame.
    pub fn abandon(self) -> Option<Posting<N>>
        ensures done { IfSome result (λ posting. posting.ending ≡ Ending.Done) }
        ensures pass { MatchOption result (held_by self.exchange ≡ []) (λ posting. held_by self.exchange ≡ posting.taken.held.pass ∷ []) }
    {
        let Seated {
            exchange,
            seat,
            out,
            name: _,
        } = self;
        let pass = match exchange {
            Exchange::Dialing(dialing) => dialing.abandon(),
            Exchange::Forwarding(forwarding) => forwarding.abandon(),
            Exchange::Asking(_)
            | Exchange::Waiting(_)
            | Exchange::Settling(_)
            | Exchange::Leaving(_)
            | Exchange::Telling(_)
            | Exchange::Over => match out {
                None => return None,
                Some(_) => unreachable!(),
            },
        };
        Some(with_seat(seat, out, pass, Ending::Done))
    }
}

// Returns the server of a verdict.
fn served_by(verdict: Verdict) -> Option<usize>
    ensures { result ≡ served_by verdict }
{
    match verdict {
        Verdict::Serve(server) => Some(server),
        Verdict::Told(_) => None,
    }
}

// Returns what an outcome gives away, with the seat of its pass.
fn part<N: BoardName + Ledger>(
    exchange: Exchange,
    seat: Option<RelaySeat>,
    out: Option<LentThing<N>>,
    outcome: Outcome,
) -> Parted<N>
    requires named { board_at N.board seat ≡ N.board }
    requires terms { terms_at N.terms seat ≡ N.terms }
    requires taken { is_taken seat ≡ true }
    requires lent { is_some out ≡ is_some seat }
    requires holds { passes_at seat ≡ gone_with outcome ++ held_by exchange }
    requires serves { all_serve (gone_with outcome ++ held_by exchange) ≡ true }
    requires own { steps.IsOwn outcome }
    requires few { length (gone_with outcome ++ held_by exchange) ≤ 1 }
    requires at { HasHistory exchange }
    ensures exchange { result.seated.exchange ≡ exchange }
    ensures retries { outcome ≡ Outcome.Retries → result.given ≡ Given.Retries }
    ensures anew { result.given ≡ Given.Retries → outcome ≡ Outcome.Retries }
    ensures ends { (posting : _) → result.given ≡ Given.Posts posting → IsPosted outcome posting.taken.held.pass posting.ending }
{
    match outcome {
        Outcome::Quiet | Outcome::Starved => Parted {
            seated: Seated::of(exchange, seat, out),
            given: Given::Nothing,
        },
        Outcome::Retries => Parted {
            seated: Seated::of(exchange, seat, out),
            given: Given::Retries,
        },
        Outcome::Posts(pass, ending) | Outcome::StarvedPosts(pass, ending) => {
            let posting = with_seat(seat, out, pass, ending);
            posts(exchange, posting)
        }
        Outcome::Returns(_pass) => unreachable!(),
    }
}

// Gives the pass away with its seat.
fn posts<N: BoardName + Ledger>(exchange: Exchange, posting: Posting<N>) -> Parted<N>
    requires none { held_by exchange ≡ [] }
    requires at { HasHistory exchange }
    ensures exchange { result.seated.exchange ≡ exchange }
    ensures given { result.given ≡ Given.Posts posting }
{
    Parted {
        seated: Seated::of(exchange, None, None),
        given: Given::Posts(posting),
    }
}

fn with_seat<N: BoardName + Ledger>(
    seat: Option<RelaySeat>,
    out: Option<LentThing<N>>,
    pass: Pass,
    ending: Ending,
) -> Posting<N>
    requires named { board_at N.board seat ≡ N.board }
    requires terms { terms_at N.terms seat ≡ N.terms }
    requires holds { passes_at seat ≡ pass ∷ [] }
    requires lent { is_some out ≡ is_some seat }
    requires may_end { may_end pass.verdict ending ≡ true }
    ensures pass { result.taken.held.pass ≡ pass }
    ensures ending { result.ending ≡ ending }
{
    match (seat, out) {
        (Some(seat), Some(out)) => Posting {
            taken: Taken::new(seat, pass, out),
            ending,
        },
        _ => unreachable!(),
    }
}
