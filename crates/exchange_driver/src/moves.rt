//! A single call of a socket, or a single look at its waiting bytes, and what the exchange makes of it.

ghost use Rattle.std.specs.Prelude.{◌≡◌, ◌≢◌, ◌<◌, ◌∷◌, ℕ, true, [], length, drop};
ghost use Rattle.exchange_driver.specs.Answers.{Said, with_answers};
ghost use Rattle.exchange_events.specs.Answers.{HearsClient, HearsServer};
ghost use Rattle.exchange_driver.specs.Drives.{Drives, at_client, at_server};
ghost use Rattle.exchange_driver.specs.Moves.{IsDriven};
ghost use Rattle.exchange_driver.specs.Wires.{IsAsAnswered};
ghost use Rattle.exchange_machine.specs.Histories.{ExchangeHistory};
ghost use Rattle.exchange_events.specs.Steps.{IsAtItsStage, IsOwn, reads_client, reads_server, to_client, to_server, writes_server};

use crate::driving::Settings;
use crate::line::Line;
use crate::socket::{ReadResult, Socket, WriteResult};
use exchange_events::{Event, Exchange, Outcome, Step};

/// The effect of a move.
#[derive(Clone, Copy, Debug, PartialEq, Eq)]
pub(crate) enum Did {
    /// There was nothing to do.
    Rests,
    /// Bytes came from the client, or went to it.
    Client,
    /// Bytes came from the server, or went to it.
    Server,
    /// No byte moved, but an event was reported.
    Tells,
}

/// An exchange after a move, and what it gave away.
pub(crate) struct Turned {
    pub(crate) exchange: Exchange,
    pub(crate) outcome: Outcome,
    pub(crate) did: Did,
}

fn behind(step: Step, did: Did) -> Turned
    ensures exchange { result.exchange ≡ step.next }
    ensures outcome { result.outcome ≡ step.outcome }
    ensures did { result.did ≡ did }
{
    let Step {
        next,
        used: _,
        outcome,
    } = step;
    Turned {
        exchange: next,
        outcome,
        did,
    }
}

fn unmoved(exchange: Exchange) -> Turned
    ensures exchange { result.exchange ≡ exchange }
    ensures outcome { result.outcome ≡ Outcome.Quiet }
    ensures did { result.did ≡ Did.Tells }
{
    Turned {
        exchange,
        outcome: Outcome::Quiet,
        did: Did::Tells,
    }
}

/// Writes to the client once.
pub(crate) fn write_client<C: Socket, S: Socket>(
    exchange: Exchange,
    settings: Settings,
    client: &mut Line<C>,
    server: &Line<S>,
) -> Turned
    requires { to_client exchange ≢ [] }
    ensures at { (h : ExchangeHistory) → IsAtItsStage exchange h → Drives client.old client.new server.now server.now (at_client result.did) (at_server result.did) h result.exchange result.outcome }
    ensures driven { IsDriven 1 settings.rules.aborts client.old.answers client.new.answers server.now.answers server.now.answers exchange result.outcome result.exchange }
    ensures answered { IsAsAnswered client.old client.new }
    ensures said { (said : WriteResult) × (client.new.answers ≡ with_answers (Said said ∷ []) client.old.answers) }
    ensures own { IsOwn result.outcome }
    ensures moves { result.did ≢ Did.Rests }
{
    let said = client.write_now(exchange.to_client());
    match said {
        WriteResult::Full => unmoved(exchange),
        WriteResult::Failed => behind(
            exchange.step(settings.alloc, settings.rules, Event::ClientFailed),
            Did::Tells,
        ),
        WriteResult::Bytes(count) => behind(
            exchange.step(settings.alloc, settings.rules, Event::ClientTook(count)),
            Did::Client,
        ),
    }
}

/// Writes to the server once.
pub(crate) fn write_server<C: Socket, S: Socket>(
    exchange: Exchange,
    settings: Settings,
    client: &Line<C>,
    server: &mut Line<S>,
) -> Turned
    requires some { to_server exchange ≢ [] }
    requires wanted { writes_server exchange ≡ true }
    ensures at { (h : ExchangeHistory) → IsAtItsStage exchange h → Drives client.now client.now server.old server.new (at_client result.did) (at_server result.did) h result.exchange result.outcome }
    ensures driven { IsDriven 1 settings.rules.aborts client.now.answers client.now.answers server.old.answers server.new.answers exchange result.outcome result.exchange }
    ensures answered { IsAsAnswered server.old server.new }
    ensures said { (said : WriteResult) × (server.new.answers ≡ with_answers (Said said ∷ []) server.old.answers) }
    ensures own { IsOwn result.outcome }
    ensures moves { result.did ≢ Did.Rests }
{
    let said = server.write_now(exchange.to_server());
    match said {
        WriteResult::Full => unmoved(exchange),
        WriteResult::Failed => behind(
            exchange.step(settings.alloc, settings.rules, Event::ServerDeaf),
            Did::Tells,
        ),
        WriteResult::Bytes(count) => behind(
            exchange.step(settings.alloc, settings.rules, Event::ServerTook(count)),
            Did::Server,
        ),
    }
}

/// Takes bytes of the client that wait.
pub(crate) fn use_client<C: Socket, S: Socket>(
    exchange: Exchange,
    settings: Settings,
    client: &mut Line<C>,
    server: &Line<S>,
) -> Turned
    requires some { 0 < length client.old.waits }
    requires wanted { reads_client exchange ≡ true }
    ensures at { (h : ExchangeHistory) → IsAtItsStage exchange h → Drives client.old client.new server.now server.now (at_client result.did) (at_server result.did) h result.exchange result.outcome }
    ensures driven { IsDriven 1 settings.rules.aborts client.old.answers client.new.answers server.now.answers server.now.answers exchange result.outcome result.exchange }
    ensures answered { IsAsAnswered client.old client.new }
    ensures looks { (used : ℕ) × HearsClient client.old.waits exchange used result.outcome result.exchange × (client.new.waits ≡ drop used client.old.waits) }
    ensures own { IsOwn result.outcome }
    ensures moves { result.did ≢ Did.Rests }
{
    let step = exchange.step(
        settings.alloc,
        settings.rules,
        Event::ClientBytes(client.waiting()),
    );
    client.taken(step.used);
    behind(step, Did::Tells)
}

/// Takes bytes of the server that wait.
pub(crate) fn use_server<C: Socket, S: Socket>(
    exchange: Exchange,
    settings: Settings,
    client: &Line<C>,
    server: &mut Line<S>,
) -> Turned
    requires some { 0 < length server.old.waits }
    requires wanted { reads_server exchange ≡ true }
    ensures at { (h : ExchangeHistory) → IsAtItsStage exchange h → Drives client.now client.now server.old server.new (at_client result.did) (at_server result.did) h result.exchange result.outcome }
    ensures driven { IsDriven 1 settings.rules.aborts client.now.answers client.now.answers server.old.answers server.new.answers exchange result.outcome result.exchange }
    ensures answered { IsAsAnswered server.old server.new }
    ensures looks { (used : ℕ) × HearsServer server.old.waits exchange used result.outcome result.exchange × (server.new.waits ≡ drop used server.old.waits) }
    ensures own { IsOwn result.outcome }
    ensures moves { result.did ≢ Did.Rests }
{
    let step = exchange.step(
        settings.alloc,
        settings.rules,
        Event::ServerBytes(server.waiting()),
    );
    server.taken(step.used);
    behind(step, Did::Tells)
}

/// Reads from the client once.
pub(crate) fn read_client<C: Socket, S: Socket>(
    exchange: Exchange,
    settings: Settings,
    client: &mut Line<C>,
    server: &Line<S>,
    buffer: &mut [u8],
) -> Turned
    requires some { 0 < length buffer.old }
    requires first { client.old.waits ≡ [] }
    requires wanted { reads_client exchange ≡ true }
    ensures at { (h : ExchangeHistory) → IsAtItsStage exchange h → Drives client.old client.new server.now server.now (at_client result.did) (at_server result.did) h result.exchange result.outcome }
    ensures driven { IsDriven 1 settings.rules.aborts client.old.answers client.new.answers server.now.answers server.now.answers exchange result.outcome result.exchange }
    ensures answered { IsAsAnswered client.old client.new }
    ensures own { IsOwn result.outcome }
    ensures moves { result.did ≢ Did.Rests }
    ensures buffer { length buffer.new ≡ length buffer.old }
{
    match client.read_now(buffer) {
        ReadResult::Nothing => unmoved(exchange),
        ReadResult::Ended { well: true } => behind(
            exchange.step(settings.alloc, settings.rules, Event::ClientEnd),
            Did::Tells,
        ),
        ReadResult::Ended { well: false } => behind(
            exchange.step(settings.alloc, settings.rules, Event::ClientFailed),
            Did::Tells,
        ),
        ReadResult::Bytes(count) => {
            let came = &buffer[..count];
            let step = exchange.step(settings.alloc, settings.rules, Event::ClientBytes(came));
            client.keep(&came[step.used..]);
            behind(step, Did::Client)
        }
    }
}

/// Reads from the server once.
pub(crate) fn read_server<C: Socket, S: Socket>(
    exchange: Exchange,
    settings: Settings,
    client: &Line<C>,
    server: &mut Line<S>,
    buffer: &mut [u8],
) -> Turned
    requires some { 0 < length buffer.old }
    requires first { server.old.waits ≡ [] }
    requires wanted { reads_server exchange ≡ true }
    ensures at { (h : ExchangeHistory) → IsAtItsStage exchange h → Drives client.now client.now server.old server.new (at_client result.did) (at_server result.did) h result.exchange result.outcome }
    ensures driven { IsDriven 1 settings.rules.aborts client.now.answers client.now.answers server.old.answers server.new.answers exchange result.outcome result.exchange }
    ensures answered { IsAsAnswered server.old server.new }
    ensures own { IsOwn result.outcome }
    ensures moves { result.did ≢ Did.Rests }
    ensures buffer { length buffer.new ≡ length buffer.old }
{
    match server.read_now(buffer) {
        ReadResult::Nothing => unmoved(exchange),
        ReadResult::Ended { well: true } => behind(
            exchange.step(settings.alloc, settings.rules, Event::ServerEnd),
            Did::Tells,
        ),
        ReadResult::Ended { well: false } => behind(
            exchange.step(settings.alloc, settings.rules, Event::ServerFailed),
            Did::Tells,
        ),
        ReadResult::Bytes(count) => {
            let came = &buffer[..count];
            let step = exchange.step(settings.alloc, settings.rules, Event::ServerBytes(came));
            server.keep(&came[step.used..]);
            behind(step, Did::Server)
        }
    }
}
