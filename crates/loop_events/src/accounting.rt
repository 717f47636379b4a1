//! A loop's records of its exchanges, where the operator wants lines of them.

ghost use Rattle.std.specs.Prelude.{◌≡◌, ◌&&◌, ℕ, Option, true, false, None, IsNone, IsSome, IfSome, IfOk, is_some, option_map, option_and_then};
ghost use Rattle.req_view.specs.Request.{version_of};
ghost use Rattle.loop_events.specs.Ends.{account_of, with_ticket, has_come, begun_at, answered_at, with_meter, learnt, end_of, queue_end, cause_end, time_end, notice_end, last_at, noticed, unanswered, has_line};
ghost use Rattle.log_lines.specs.Accounts.{ended_by, granted};

use crate::guest::{Guest, Resident, Visit};
use crate::looping::Looper;
use base_verdict::Cause;
use dispatch_state::Ticketed;
use due_key::{Class, Offset};
use exchange_driver::{Line, Live, Meter};
use exchange_events::TimeoutKind;
use exchange_seated::{Notice, Stage};
use locked_book::DeskName;
use log_lines::{Account, Asked, During, EndedBy, ExchangeEnd};
use loop_shared::{Gate, Presence};
use prio_rules::Wish;
use req_view::{Version, View};
use std::alloc::{AllocError, Global};
use std::net::{Net, SocketAddr, TcpListener, TcpStream};
use std::sync::Wait;
use std::sync::ledger::Ledger;
use std::time::Clock;

impl<
    'a,
    N: DeskName + Ledger,
    R: Net<Listener = TcpListener, Stream = TcpStream> + Clock + Print + Wait,
> Looper<'a, N, R> {
    /// Begins the record of an exchange at this client, on this line. There is none where no lines
    /// are wanted, or where there is no memory for it.
    pub(crate) fn begin_account(
        &mut self,
        presence: &mut Presence,
        line: &Line<Live>,
        client: Option<SocketAddr>,
    )
        ensures none { IsNone self.old.teller → presence.new ≡ presence.old }
        ensures others { presence.new ≡ record presence.old { account = presence.new.account } }
    {
        if self.teller.is_some() {
            presence.account = self.new_account(line, client);
        }
    }

    // Makes the record of an exchange that begins now; `None` where there is no memory for it.
    fn new_account(
        &mut self,
        line: &Line<Live>,
        client: Option<SocketAddr>,
    ) -> Option<Box<Account>> {
        if let Some(live) = line.socket() {
            live.count_anew();
        }
        let now = self.gate.moment();
        Box::new(self.settings.alloc, Account::new(client, now)).ok()
    }

    /// Notes that the exchange's head has come.
    pub(crate) fn note_asked(&mut self, visit: &mut Visit, view: &View, wish: Option<&Wish>)
        ensures wish { IfSome visit.new.presence.account (λ it. it.value.wish ≡ option_map (λ it. (it.now.class, it.now.offset)) wish.entry) }
        ensures others { visit.new ≡ record visit.old { presence = record visit.old.presence { account = visit.new.presence.account } } }
    {
        if let Some(account) = &mut visit.presence.account {
            account.moments.asked = Some(self.gate.moment());
            account.wish = wish_of(wish);
            account.asked = asked_of(self.settings.alloc, view).ok();
        }
    }

    /// Notes the server that the exchange was given to.
    pub(crate) fn note_granted(&mut self, visit: &mut Visit, server: usize)
        ensures account { (now : ℕ) × (account_of visit.new.presence ≡ option_map (granted server now) (account_of visit.old.presence)) }
        ensures others { visit.new ≡ record visit.old { presence = record visit.old.presence { account = visit.new.presence.account } } }
    {
        if let Some(account) = &mut visit.presence.account {
            account.grant(server, self.gate.moment());
        }
    }

    /// Notes that bytes moved: they may be the first ones of the request, or of its answer.
    pub(crate) fn note_bytes(&mut self, visit: &mut Visit, client: bool, answers: bool)
        ensures same { client ≡ false → answers ≡ false → account_of visit.new.presence ≡ account_of visit.old.presence }
        ensures kept { is_some visit.new.presence.account ≡ is_some visit.old.presence.account }
        ensures others { visit.new ≡ record visit.old { presence = record visit.old.presence { account = visit.new.presence.account } } }
    {
        let Some(account) = &mut visit.presence.account else {
            return;
        };
        self.note_begin(account, client);
        self.note_answer(account, answers);
    }

    // Notes when the first bytes of the request came, where some came.
    fn note_begin(&mut self, account: &mut Account, came: bool)
        ensures begun { came ≡ true → account.old.is_silent ≡ true → account.new ≡ begun_at account.new.moments.began account.old }
        ensures same { (came && account.old.is_silent) ≡ false → account.new ≡ account.old }
    {
        if came && account.is_silent {
            account.is_silent = false;
            account.moments.began = self.gate.moment();
        }
    }

    // Notes when the first bytes of the answer came, where some came.
    fn note_answer(&mut self, account: &mut Account, came: bool)
        ensures answered { came ≡ true → IsNone account.old.moments.answered → (now : ℕ) × (account.new ≡ answered_at now account.old) }
        ensures same { came ≡ false → account.new ≡ account.old }
        ensures kept { IsSome account.old.moments.answered → account.new ≡ account.old }
    {
        if came && account.moments.answered.is_none() {
            account.moments.answered = Some(self.gate.moment());
        }
    }

    /// Notes an event that may end the exchange.
    pub(crate) fn note_notice(&mut self, visit: &mut Visit, stage: Stage, notice: &Notice)
        ensures account { (received : ℕ) × (sent : ℕ) × (status : Option ℕ) × (now : ℕ) × (account_of visit.new.presence ≡ option_map (λ it. noticed notice.now stage now (learnt received sent status it)) (account_of visit.old.presence)) }
        ensures others { visit.new ≡ record visit.old { presence = record visit.old.presence { account = visit.new.presence.account } } }
    {
        let Visit {
            presence,
            client,
            ..
        } = visit;
        let Some(account) = &mut presence.account else {
            return;
        };
        learn(account, client);
        self.note_event(account, stage, notice);
    }

    // Notes an event that comes in this stage.
    fn note_event(&mut self, account: &mut Account, stage: Stage, notice: &Notice)
        ensures { (now : ℕ) × (account.new ≡ noticed notice.now stage now account.old) }
    {
        let during = last_at(stage).unwrap_or(account.under_way());
        match notice_end(notice, during) {
            None => account.moments.connected = Some(self.gate.moment()),
            Some(end) => account.end_by(end.by, end.during),
        }
    }

    /// Ends the record: with this cause where no other was noted. A client that asked for nothing has no line.
    pub(crate) fn tell_end(
        &mut self,
        presence: &mut Presence,
        client: &Line<Live>,
        by: EndedBy,
        during: Option<During>,
    )
        ensures { presence.new ≡ record presence.old { account = None } }
    {
        let Some(mut account) = presence.account.take() else {
            return;
        };
        learn(&mut account, client);
        let during = during.unwrap_or(account.under_way());
        account.end_by(by, during);
        account.blame_request();
        self.tell_of(account);
    }

    /// Ends the records of all exchanges in this loop's cells, when the proxy ends.
    pub(crate) fn tell_of_rest(&mut self) {
        if self.teller.is_none() {
            return;
        }
        for index in 0..self.room {
            self.tell_of_rest_at(index);
        }
    }

    fn tell_of_rest_at(&mut self, index: usize) {
        let Some(token) = self.guests.token_of(index) else {
            return;
        };
        let Some((resident, hole)) = self.guests.lend(token) else {
            return;
        };
        let mut resident = resident;
        if let Resident::Guest(guest) = &mut resident {
            let Guest { visit, .. } = &mut **guest;
            self.tell_end(&mut visit.presence, &visit.client, EndedBy::Proxy, None);
        }
        self.lay(resident, hole);
    }

    /// Hands on the record of an exchange that is over.
    pub(crate) fn tell_of(&mut self, account: Box<Account>) {
        let mut account = account;
        if !has_line(&account) {
            return;
        }
        if account.asked.is_none() && account.status == Some(400) {
            account.end_by(EndedBy::Proxy, During::Request);
        }
        account.moments.ended = self.gate.moment();
        account.clients = self.shared.clients();
        if let Some(teller) = &mut self.teller {
            teller.account_for(account);
        }
    }
}

/// Notes that the first bytes have already come.
pub(crate) fn note_come(presence: &mut Presence)
    ensures account { account_of presence.new ≡ option_map has_come (account_of presence.old) }
    ensures others { presence.new ≡ record presence.old { account = presence.new.account } }
{
    if let Some(begun) = &mut presence.account {
        begun.is_silent = false;
    }
}

// Adds the bytes that were read from the client and written to it so far.
fn learn(account: &mut Account, client: &Line<Live>)
    ensures { account.new ≡ learnt account.new.received account.new.sent account.new.status account.old }
{
    if let Some(meter) = client.socket().and_then(|live| live.meter()) {
        take_counts(account, &meter);
    }
}

// Takes a connection's counts over.
fn take_counts(account: &mut Account, meter: &Meter)
    ensures { account.new ≡ with_meter meter.now account.old }
{
    account.received = meter.received;
    account.sent = meter.sent;
    account.status = meter.status();
}

// Says whether an exchange has a line in the log: its client asked for something, or bytes went
// over its connection.
fn has_line(account: &Account) -> bool
    ensures { result ≡ has_line account.now }
{
    !(account.asked.is_none() && account.received == 0 && account.sent == 0)
}

/// Notes that the request waits, with this ticket.
pub(crate) fn note_ticket(presence: &mut Presence, at: Ticketed)
    ensures account { account_of presence.new ≡ option_map (with_ticket at.ticket) (account_of presence.old) }
    ensures others { presence.new ≡ record presence.old { account = presence.new.account } }
{
    if let Some(account) = &mut presence.account {
        account.ticket = Some(at.ticket);
    }
}

/// Notes that the request is told this cause, whether its client has left, and whether the proxy stops.
pub(crate) fn note_cause(presence: &mut Presence, cause: Cause, gone: bool, stops: bool)
    ensures account { account_of presence.new ≡ option_map (ended_by (cause_end cause gone stops)) (account_of presence.old) }
    ensures others { presence.new ≡ record presence.old { account = presence.new.account } }
{
    if let Some(account) = &mut presence.account {
        let end = cause_end(cause, gone, stops);
        account.end_by(end.by, end.during);
    }
}

/// Notes that the request gets no place, since it waited too long, or since the proxy stops.
pub(crate) fn note_refused(presence: &mut Presence, stops: bool)
    ensures account { account_of presence.new ≡ option_map (ended_by (queue_end stops)) (account_of presence.old) }
    ensures others { presence.new ≡ record presence.old { account = presence.new.account } }
{
    if let Some(account) = &mut presence.account {
        let end = queue_end(stops);
        account.end_by(end.by, end.during);
    }
}

// Returns how the exchange of a request ends that is told this cause.
fn cause_end(cause: Cause, gone: bool, stops: bool) -> ExchangeEnd
    ensures { result ≡ cause_end cause gone stops }
{
    match cause {
        Cause::Aborted if gone => end_of(EndedBy::Client, During::Queue),
        Cause::Aborted | Cause::Timeout => queue_end(stops),
        Cause::Retries | Cause::NoServer => end_of(EndedBy::Server, During::Connect),
    }
}

// Returns how the exchange of a request ends that has waited too long, or waits while the proxy stops.
fn queue_end(stops: bool) -> ExchangeEnd
    ensures { result ≡ queue_end stops }
{
    if stops {
        end_of(EndedBy::Proxy, During::Queue)
    } else {
        end_of(EndedBy::ServerTime, During::Queue)
    }
}

// Returns how an event ends an exchange of which this was under way; `None` where it doesn't.
fn notice_end(notice: &Notice, during: During) -> Option<ExchangeEnd>
    ensures { result ≡ notice_end notice.now during }
{
    match notice {
        Notice::Connected(_) => None,
        Notice::Unserved => Some(end_of(EndedBy::Shortage, During::Queue)),
        Notice::Unreachable => Some(end_of(EndedBy::Server, During::Connect)),
        Notice::ClientEnd | Notice::ClientFailed => Some(end_of(EndedBy::Client, during)),
        Notice::TimeOver(kind) => Some(time_end(*kind, during)),
    }
}

// Returns how a timeout ends an exchange of which this was under way.
fn time_end(kind: TimeoutKind, during: During) -> ExchangeEnd
    ensures { result ≡ time_end kind during }
{
    match kind {
        TimeoutKind::Client => end_of(EndedBy::ClientTime, during),
        TimeoutKind::Queue => end_of(EndedBy::ServerTime, During::Queue),
        TimeoutKind::Connect => end_of(EndedBy::ServerTime, During::Connect),
        TimeoutKind::Server => end_of(EndedBy::ServerTime, during),
    }
}

fn end_of(by: EndedBy, during: During) -> ExchangeEnd
    ensures { result ≡ end_of by during }
{
    ExchangeEnd { by, during }
}

/// Returns what was under way where the rest of an answer was being sent to the client.
pub(crate) fn last_at(stage: Stage) -> Option<During>
    ensures { result ≡ last_at stage }
{
    match stage {
        Stage::Telling => Some(During::Last),
        Stage::Asking | Stage::Waiting | Stage::Dialing | Stage::Forwarding | Stage::Over => None,
    }
}

/// Says whether a byte came from a server's connection whose bytes are counted.
pub(crate) fn has_received(server: Option<&Live>) -> bool {
    let came = server.and_then(|live| live.meter());
    came.map_or(0, |meter| meter.received) != 0
}

/// Notes that the server didn't answer, or not to the end.
pub(crate) fn note_unanswered(visit: &mut Visit)
    ensures account { (received : ℕ) × (sent : ℕ) × (status : Option ℕ) × (account_of visit.new.presence ≡ option_map (λ it. unanswered (learnt received sent status it)) (account_of visit.old.presence)) }
    ensures others { visit.new ≡ record visit.old { presence = record visit.old.presence { account = visit.new.presence.account } } }
{
    let Visit {
        presence,
        client,
        ..
    } = visit;
    if let Some(account) = &mut presence.account {
        learn(account, client);
        let during = account.under_way();
        account.end_by(EndedBy::Server, during);
    }
}

/// Returns the client's address.
pub(crate) fn client_of(presence: &Presence) -> Option<SocketAddr>
    ensures { result ≡ option_and_then (λ it. it.client) (account_of presence.now) }
{
    presence.account.as_ref().and_then(|account| account.client)
}

// Returns the class and the offset that the rules wish.
fn wish_of(wish: Option<&Wish>) -> Option<(Class, Offset)>
    ensures { result ≡ option_map (λ it. (it.now.class, it.now.offset)) wish.entry }
{
    let wish = wish?;
    Some((wish.class, wish.offset))
}

// Copies the first line of a request.
fn asked_of(alloc: Global, view: &View) -> Result<Asked, AllocError>
    ensures method { IfOk result (λ it. it.method.items ≡ view.now.method) }
    ensures target { IfOk result (λ it. it.target.items ≡ view.now.target) }
    ensures version { IfOk result (λ it. version_of it.minor ≡ view.now.version) }
{
    Ok(Asked {
        method: Vec::from_slice(alloc, view.method())?,
        target: Vec::from_slice(alloc, view.target())?,
        minor: match view.version() {
            Version::Http10 => 0,
            Version::Http11 => 1,
        },
    })
}
