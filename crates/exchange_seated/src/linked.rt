ghost use Rattle.std.specs.Prelude.{◌≡◌, ◌≢◌, ◌<◌, ◌∷◌, ◌⊎◌, ℕ, List, Option, [], true, false, length, Some, IfOk, IfErr, IfSome, IfNone, MatchOption, is_some};
ghost use Rattle.std.specs.Bool.{OnTrue, OnFalse};
ghost use Rattle.exchange_driver.specs.Answers.{SocketAnswer, Heard, with_answers};
ghost use Rattle.exchange_driver.specs.Drives.{Drives, IsDownAtRest, IsUpAtRest};
ghost use Rattle.exchange_driver.specs.Moves.{IsDriven, KeepsTurns};
ghost use Rattle.exchange_driver.specs.Wires.{IsAsAnswered, Wire, is_still_at};
ghost use Rattle.exchange_driver.specs.declared.socket.ReadResult.TheVariants.{Nothing};
ghost use Rattle.exchange_machine.specs.Histories.{ExchangeHistory, granted};
ghost use Rattle.exchange_machine.specs.Stages.{IsWaiting};
ghost use Rattle.exchange_machine.specs.Wholes.{Whole};
ghost use Rattle.exchange_events.specs.Answers as answers;
ghost use Rattle.exchange_events.specs.Chains as chains;
ghost use Rattle.exchange_events.specs.Passes.{held_by};
ghost use Rattle.exchange_events.specs.Steps as steps;
ghost use Rattle.exchange_events.specs.declared.exchange.Exchange.{Exchange};
ghost use Rattle.exchange_events.specs.declared.exchange.Outcome as outcomes;
ghost use Rattle.exchange_seated.specs.Connections.{IsOn, IsBehind, IsLeft, IsFor, IsUnsentYet, HasSpoken, WantsNone, WantsNoUsed};
ghost use Rattle.relay_http.specs.States.{Serves};
ghost use Rattle.exchange_seated.specs.Seats.{is_waiting, server_of, IsDialingAt, IsPosted};
ghost use Rattle.exchange_seated.specs.Notices.{event_of};
ghost use Rattle.exchange_seated.specs.declared.notice.Notice.{Notice};

use crate::notice::Notice;
use crate::queued::WaitingExchange;
use crate::seated::{Given, Posting, Seated, Served, Stage};
use crate::unused::Unused;
use base_verdict::Ending;
use board_seats::Taken;
use exchange_driver::{Line, Moved, Rest, Settings, Socket};
use grant_board::BoardName;
use std::alloc::Global;
use std::mem;
use std::sync::ledger::Ledger;

/// An exchange and the connection to its server, where it has one. It gets a connection only before
/// anything was sent to a server for it, and keeps it until its pass is gone or it asks for another
/// one.
pub struct Linked<N: BoardName + Ledger, S: Socket> {
    seated: Seated<N>,
    line: Line<S>,
    /// The server of its connection.
    server: usize,
    ghost its: { line.there ≡ true → IsFor server (held_by seated.exchange) },
    ghost unsent: { line.there ≡ false → IsUnsentYet seated.exchange },
    ghost empty: { line.there ≡ false → line.waits ≡ [] },
}

/// The result of an event for an exchange and its server's connection: what it gave away, the sides
/// at which bytes moved, and whether there is more to do.
pub struct Carried<N: BoardName + Ledger, S: Socket> {
    pub linked: Linked<N, S>,
    pub given: Given<N>,
    pub client: Option<Moved>,
    pub server: Option<Moved>,
    pub rest: Rest,
}

impl<N: BoardName + Ledger, S: Socket> Linked<N, S> {
    /// Makes the exchange of a new client.
    pub fn new(alloc: Global) -> Linked<N, S>
        ensures none { held_by result.seated.exchange ≡ [] }
        ensures silent { chains.is_silent result.seated.exchange ≡ true }
        ensures unlinked { result.line.there ≡ false }
    {
        Linked::without_line(alloc, Seated::new(alloc))
    }

    /// Continues the exchange with its pass, which is for a slot of a server: it has no connection yet.
    pub fn granted(alloc: Global, queued: WaitingExchange, taken: Taken<N>) -> Linked<N, S>
        requires { Serves taken.held.pass.verdict }
        ensures pass { held_by result.seated.exchange ≡ taken.held.pass ∷ [] }
        ensures dials { (h : ExchangeHistory) → IsWaiting queued.waiting h → IsDialingAt result.seated.exchange (granted h taken.held.pass) }
        ensures unlinked { result.line.there ≡ false }
    {
        Linked::without_line(alloc, queued.grant(taken))
    }

    /// Continues the exchange without a pass: its client is told why.
    pub fn unseated(alloc: Global, queued: WaitingExchange) -> Linked<N, S>
        ensures none { held_by result.seated.exchange ≡ [] }
        ensures waits { result.seated.exchange ≡ Exchange.Waiting queued.waiting }
        ensures unlinked { result.line.there ≡ false }
    {
        Linked::without_line(alloc, queued.unseated())
    }

    fn without_line(alloc: Global, seated: Seated<N>) -> Linked<N, S>
        requires { IsUnsentYet seated.exchange }
        ensures seated { result.seated ≡ seated }
        ensures unlinked { result.line.there ≡ false }
    {
        Linked {
            seated,
            line: Line::without_socket(alloc),
            server: 0,
        }
    }

    /// Returns the exchange.
    pub fn seated(&self) -> &Seated<N>
        ensures { result.now ≡ self.now.seated }
    {
        &self.seated
    }

    /// Returns the socket of its connection, where it has one.
    pub fn socket(&self) -> Option<&S>
        ensures { is_some result ≡ self.now.line.there }
    {
        self.line.socket()
    }

    /// The poll reports its connection as ready to read or to write.
    pub fn wake(&mut self, reads: bool, writes: bool)
        ensures seated { self.new.seated ≡ self.old.seated }
        ensures server { self.new.server ≡ self.old.server }
        ensures dry { self.new.line.dry ≡ is_still_at self.old.line.there self.old.line.dry reads }
        ensures full { self.new.line.full ≡ is_still_at self.old.line.there self.old.line.full writes }
        ensures on { (opened : Wire) (before : List Whole) → IsOn opened before self.old.seated.exchange self.old.line
            → IsOn opened before self.new.seated.exchange self.new.line }
    {
        self.line.wake(reads, writes);
    }

    /// Makes a new socket the connection to the server of its pass. False where it has one already
    /// or waits for none: the socket is closed.
    pub fn open(&mut self, alloc: Global, socket: S) -> bool
        ensures linked { OnTrue result (self.new.line.there ≡ true) }
        ensures seated { self.new.seated ≡ self.old.seated }
        ensures its { OnTrue result (server_of (held_by self.old.seated.exchange) ≡ Some self.new.server) }
        ensures socket { OnTrue result ((self.new.line.left ≡ S.left socket) × (self.new.line.taken ≡ S.taken socket) × (self.new.line.answers ≡ S.answers socket)
            × (self.new.line.waits ≡ []) × (self.new.line.dry ≡ S.dry socket) × (self.new.line.full ≡ S.full socket)) }
        ensures on { OnTrue result (IsOn self.new.line [] self.new.seated.exchange self.new.line) }
        ensures refused { OnFalse result (self.new ≡ self.old) }
        ensures cause { OnFalse result (WantsNone self.old.seated.exchange self.old.line) }
    {
        let Some(server) = self.wanted() else {
            return false;
        };
        self.server = server;
        self.line = Line::new(alloc, socket);
        true
    }

    /// Makes a used connection its own, where that goes to the server of its pass, its request may
    /// go out on a used one, and nothing came on it meanwhile. Otherwise the connection comes back,
    /// to be closed.
    pub fn take_up(
        &mut self,
        alloc: Global,
        unused: Unused<S>,
        buffer: &mut [u8],
    ) -> Result<(), Unused<S>>
        requires { 0 < length buffer.old }
        ensures length { length buffer.new ≡ length buffer.old }
        ensures linked { IfOk result (λ _. self.new.line.there ≡ true) }
        ensures seated { self.new.seated ≡ self.old.seated }
        ensures its { IfOk result (λ _. (self.new.server ≡ unused.server) × (server_of (held_by self.old.seated.exchange) ≡ Some unused.server)) }
        ensures may { IfOk result (λ _. chains.takes_used self.old.seated.exchange ≡ true) }
        ensures dry { IfOk result (λ _. (self.new.line.dry ≡ true) × (self.new.line.waits ≡ [])) }
        ensures full { IfOk result (λ _. self.new.line.full ≡ S.full unused.socket) }
        ensures quiet { IfOk result (λ _. (self.new.line.answers ≡ with_answers (Heard Nothing ∷ []) (S.answers unused.socket)) × (self.new.line.taken ≡ S.taken unused.socket)) }
        ensures on { IfOk result (λ _. (opened : Wire) (before : List Whole) → IsBehind opened before (S.taken unused.socket) (S.left unused.socket)
            → IsOn opened before self.new.seated.exchange self.new.line) }
        ensures refused { IfErr result (λ _. self.new ≡ self.old) }
        ensures cause { IfErr result (λ back. (WantsNoUsed unused.server self.old.seated.exchange self.old.line × (back ≡ unused))
            ⊎ (HasSpoken (S.answers unused.socket) (S.answers back.socket) × (S.taken back.socket ≡ S.taken unused.socket) × (back.server ≡ unused.server))) }
    {
        let Some(server) = self.wanted() else {
            return Err(unused);
        };
        if server != unused.server() {
            return Err(unused);
        }
        if !self.seated.takes_used() {
            return Err(unused);
        }
        let mut unused = unused;
        if !unused.is_quiet(buffer) {
            return Err(unused);
        }
        self.server = server;
        self.line = Line::new(alloc, unused.into_socket());
        Ok(())
    }

    // Returns the server that it waits for a connection to.
    fn wanted(&self) -> Option<usize>
        ensures wanted { IfSome result (λ server. (server_of (held_by self.now.seated.exchange) ≡ Some server) × (self.now.line.there ≡ false)) }
        ensures none { IfNone result (WantsNone self.now.seated.exchange self.now.line) }
    {
        if self.line.socket().is_some() {
            return None;
        }
        self.seated.server()
    }

    /// Gives up its connection, where it holds no pass any more. The connection is returned for
    /// another exchange where this one ended clean, and otherwise closed.
    pub fn release(&mut self, alloc: Global) -> Option<Unused<S>>
        ensures seated { self.new.seated ≡ self.old.seated }
        ensures gone { held_by self.old.seated.exchange ≡ [] → self.new.line.there ≡ false }
        ensures held { held_by self.old.seated.exchange ≢ [] → self.new ≡ self.old }
        ensures server { IfSome result (λ unused. unused.server ≡ self.old.server) }
        ensures answers { IfSome result (λ unused. S.answers unused.socket ≡ self.old.line.answers) }
        ensures bytes { IfSome result (λ unused. (S.left unused.socket ≡ self.old.line.left) × (S.taken unused.socket ≡ self.old.line.taken)) }
        ensures empty { IfSome result (λ _. self.old.line.waits ≡ []) }
        ensures told { IfSome result (λ unused. (S.dry unused.socket ≡ self.old.line.dry) × (S.full unused.socket ≡ self.old.line.full)) }
        ensures clean { IfSome result (λ unused. chains.is_clean self.old.seated.exchange ≡ true) }
        ensures left { IfSome result (λ unused. (opened : Wire) (before : List Whole) → IsOn opened before self.old.seated.exchange self.old.line
            → IsLeft opened before self.old.seated.exchange (S.taken unused.socket) (S.left unused.socket)) }
        ensures stays { chains.is_clean self.old.seated.exchange ≡ true → self.old.line.waits ≡ [] → self.old.line.there ≡ true → is_some result ≡ true }
    {
        if self.seated.server().is_some() {
            return None;
        }
        let line = mem::replace(&mut self.line, Line::without_socket(alloc));
        if !self.seated.is_clean() || !line.waiting().is_empty() {
            return None;
        }
        let socket = line.into_socket()?;
        Some(Unused::new(self.server, socket))
    }

    /// Reads and writes, as `exchange_driver::drive` does. Where it asks for another connection,
    /// the old one is closed.
    pub fn drive<C: Socket>(
        self,
        settings: Settings,
        client: &mut Line<C>,
        buffer: &mut [u8],
    ) -> Carried<N, S>
        requires { 0 < length buffer.old }
        ensures server { result.linked.line.there ≡ true → (self.line.there ≡ true) × (result.linked.server ≡ self.server) }
        ensures on { result.linked.line.there ≡ true → (opened : Wire) (before : List Whole) → IsOn opened before self.seated.exchange self.line
            → IsOn opened before result.linked.seated.exchange result.linked.line }
        ensures retries { result.given ≡ Given.Retries → result.linked.line.there ≡ false }
        ensures stays { result.given ≢ Given.Retries → result.linked.line.there ≡ self.line.there }
        ensures down { result.rest ≡ Rest.Waits → IsDownAtRest result.linked.seated.exchange client.new result.linked.line }
        ensures up { result.rest ≡ Rest.Waits → IsUpAtRest result.linked.seated.exchange client.new result.linked.line }
        ensures answered { IsAsAnswered client.old client.new }
        ensures left { result.given ≢ Given.Retries → IsAsAnswered self.line result.linked.line }
        ensures driven { (outcome : outcomes.Outcome) × (count : ℕ) × (server : Option (List SocketAnswer))
            × IsDriven count settings.rules.aborts client.old.answers client.new.answers self.line.answers server self.seated.exchange outcome result.linked.seated.exchange
            × KeepsTurns settings.turns count result.rest outcome
            × (result.given ≢ Given.Retries → result.linked.line.answers ≡ server)
            × (outcome ≡ outcomes.Outcome.Retries → result.given ≡ Given.Retries)
            × (result.given ≡ Given.Retries → outcome ≡ outcomes.Outcome.Retries)
            × ((posting : _) → result.given ≡ Given.Posts posting → IsPosted outcome posting.taken.held.pass posting.ending) }
        ensures client { (h : ExchangeHistory) → steps.IsAtItsStage self.seated.exchange h → (outcome : outcomes.Outcome) × (server : Wire)
            × Drives client.old client.new self.line server (is_some result.client) (is_some result.server) h result.linked.seated.exchange outcome
            × (result.given ≢ Given.Retries → server ≡ result.linked.line) }
    {
        let Linked {
            seated,
            line,
            server,
        } = self;
        let mut line = line;
        let served = seated.drive(settings, client, &mut line, buffer);
        linked_anew(settings.alloc, served, line, server)
    }

    /// Reports an event to it. Where it asks for another connection, the old one is closed.
    pub fn notify(self, settings: Settings, notice: Notice) -> Carried<N, S>
        ensures event { (h : ExchangeHistory) → steps.IsAtItsStage self.seated.exchange h → (used : ℕ) × (outcome : outcomes.Outcome)
            × steps.IsAtItsStage result.linked.seated.exchange (steps.history_after self.seated.exchange (event_of notice) used outcome h) }
        ensures does { (used : ℕ) × (outcome : outcomes.Outcome) × answers.Does settings.rules.aborts self.seated.exchange (event_of notice) used outcome result.linked.seated.exchange
            × (outcome ≡ outcomes.Outcome.Retries → result.given ≡ Given.Retries)
            × (result.given ≡ Given.Retries → outcome ≡ outcomes.Outcome.Retries)
            × ((posting : _) → result.given ≡ Given.Posts posting → IsPosted outcome posting.taken.held.pass posting.ending) }
        ensures leaves { notice ≡ Notice.ClientEnd → steps.is_left settings.rules.aborts self.seated.exchange ≡ true → result.linked.seated.exchange ≡ Exchange.Over }
        ensures same { notice ≡ Notice.ClientEnd → steps.is_left settings.rules.aborts self.seated.exchange ≡ false → result.linked.seated.exchange ≡ self.seated.exchange }
        ensures rest { result.rest ≡ Rest.Again }
        ensures server { result.linked.line.there ≡ true → (self.line.there ≡ true) × (result.linked.server ≡ self.server) }
        ensures on { result.linked.line.there ≡ true → (opened : Wire) (before : List Whole) → IsOn opened before self.seated.exchange self.line
            → IsOn opened before result.linked.seated.exchange result.linked.line }
        ensures retries { result.given ≡ Given.Retries → result.linked.line.there ≡ false }
        ensures stays { result.given ≢ Given.Retries → result.linked.line ≡ self.line }
    {
        let Linked {
            seated,
            line,
            server,
        } = self;
        let served = seated.notify(settings, notice);
        linked_anew(settings.alloc, served, line, server)
    }

    /// Returns the exchange that waits for a pass, if it does.
    pub fn into_queued(self) -> Result<WaitingExchange, Linked<N, S>>
        ensures waits { IfOk result (λ queued. self.seated.exchange ≡ Exchange.Waiting queued.waiting) }
        ensures same { IfErr result (λ linked. (linked ≡ self) × (is_waiting self.seated.exchange ≡ false)) }
    {
        if !self.seated.is_waiting() {
            return Err(self);
        }
        let Linked {
            seated,
            line: _,
            server: _,
        } = self;
        match seated.into_queued() {
            Ok(queued) => Ok(queued),
            Err(_seated) => unreachable!(),
        }
    }

    /// Makes the next exchange of a client that may ask again; it has no pass. It begins with the
    /// bytes after the request, and without a connection.
    pub fn ask_again(self, alloc: Global) -> Result<Linked<N, S>, Linked<N, S>>
        ensures next { IfOk result (λ next. (h : ExchangeHistory) → steps.IsAtItsStage self.seated.exchange h → chains.IsNext h next.seated.exchange) }
        ensures none { IfOk result (λ next. held_by next.seated.exchange ≡ []) }
        ensures reads { IfOk result (λ next. answers.IsReadOn next.seated.exchange) }
        ensures unlinked { IfOk result (λ next. next.line.there ≡ false) }
        ensures may { IfOk result (λ next. chains.may_ask_again self.seated.exchange ≡ true) }
        ensures same { IfErr result (λ linked. (linked ≡ self) × (chains.may_ask_again self.seated.exchange ≡ false)) }
    {
        if !self.seated.may_ask_again() {
            return Err(self);
        }
        let Linked {
            seated,
            line: _,
            server: _,
        } = self;
        match seated.ask_again(alloc) {
            Ok(next) => Ok(Linked::without_line(alloc, next)),
            Err(_seated) => unreachable!(),
        }
    }

    /// Ends it at any stage: its connection is closed, and its pass is to be posted as done, since
    /// the server isn't to blame.
    pub fn abandon(self) -> Option<Posting<N>>
        ensures done { IfSome result (λ posting. posting.ending ≡ Ending.Done) }
        ensures pass { MatchOption result (held_by self.seated.exchange ≡ []) (λ posting. held_by self.seated.exchange ≡ posting.taken.held.pass ∷ []) }
    {
        let Linked {
            seated,
            line: _,
            server: _,
        } = self;
        seated.abandon()
    }
}

// An exchange that asks for another connection has none.
fn linked_anew<N: BoardName + Ledger, S: Socket>(
    alloc: Global,
    served: Served<N>,
    line: Line<S>,
    server: usize,
) -> Carried<N, S>
    requires its { line.there ≡ true → IsFor server (held_by served.seated.exchange) }
    requires unsent { line.there ≡ false → IsUnsentYet served.seated.exchange }
    requires anew { served.given ≡ Given.Retries → IsUnsentYet served.seated.exchange }
    requires empty { line.there ≡ false → line.waits ≡ [] }
    ensures seated { result.linked.seated ≡ served.seated }
    ensures rest { (result.rest ≡ served.rest) × (result.given ≡ served.given) }
    ensures moved { (result.client ≡ served.client) × (result.server ≡ served.server) }
    ensures retries { served.given ≡ Given.Retries → result.linked.line.there ≡ false }
    ensures stays { served.given ≢ Given.Retries → (result.linked.line ≡ line) × (result.linked.server ≡ server) }
{
    let Served {
        seated,
        given,
        client,
        server: moved,
        rest,
    } = served;
    let line = match &given {
        Given::Retries => Line::without_socket(alloc),
        Given::Nothing | Given::Posts(_) => line,
    };
    Carried {
        linked: Linked {
            seated,
            line,
            server,
        },
        given,
        client,
        server: moved,
        rest,
    }
}
