ghost use Rattle.std.specs.Prelude.{◌≡◌, ◌≢◌, ◌<◌, ◌≤◌, ◌||◌, ◌∷◌, ◌++◌, ◌⊎◌, ℕ, [], length, drop, true, false, is_some};
ghost use Rattle.exchange_driver.specs.Answers.{Said, with_answers};
ghost use Rattle.exchange_driver.specs.declared.socket.WriteResult.{WriteResult};
ghost use Rattle.exchange_events.specs.Answers.{HearsClient, HearsServer};
ghost use Rattle.exchange_driver.specs.Drives.{Drives, IsSame, IsDownAtRest, IsUpAtRest, at_client, at_server};
ghost use Rattle.exchange_driver.specs.Moves.{IsDriven, KeepsTurns};
ghost use Rattle.exchange_driver.specs.Wires.{IsAsAnswered};
ghost use Rattle.exchange_machine.specs.Histories.{ExchangeHistory};
ghost use Rattle.exchange_events.specs.Passes.{held_by, gone_with};
ghost use Rattle.exchange_events.specs.Steps.{IsAtItsStage, IsOwn, HasHistory, reads_client, reads_server, to_client, writes_server};

use crate::line::Line;
use crate::moved::Moved;
use crate::moves::{
    Did, Turned, read_client, read_server, use_client, use_server, write_client, write_server,
};
use crate::socket::Socket;
use exchange_events::{Exchange, Outcome, Rules};
use std::alloc::Global;

/// The settings with which an exchange is driven.
#[derive(Clone, Copy)]
pub struct Settings {
    pub alloc: Global,
    pub rules: Rules,
    /// The most moves of each direction before the others get their turn.
    pub turns: u32,
}

/// What a driver rests at.
#[derive(Clone, Copy, Debug, PartialEq, Eq)]
pub enum Rest {
    /// There is nothing to do before the poll reports one of the two sockets.
    Waits,
    /// There is more to do at once.
    Again,
}

/// The result of driving an exchange: what it gave away, the sides at which bytes moved, and
/// whether there is more to do.
pub struct Driven {
    pub exchange: Exchange,
    pub outcome: Outcome,
    pub client: Option<Moved>,
    pub server: Option<Moved>,
    pub rest: Rest,
}

// The sides at which bytes have moved so far.
#[derive(Clone, Copy)]
struct Moves {
    client: bool,
    server: bool,
}

/// Reads and writes until there is nothing to read and nothing to write, or the exchange gives
/// something away, or the turns are spent. The two directions alternate. Each turn is one or two
/// system calls.
pub fn drive<C: Socket, S: Socket>(
    exchange: Exchange,
    settings: Settings,
    client: &mut Line<C>,
    server: &mut Line<S>,
    buffer: &mut [u8],
) -> Driven
    requires { 0 < length buffer.old }
    ensures at { (h : ExchangeHistory) → IsAtItsStage exchange h
        → Drives client.old client.new server.old server.new (is_some result.client) (is_some result.server) h result.exchange result.outcome }
    ensures history { HasHistory exchange → HasHistory result.exchange }
    ensures passes { HasHistory exchange → held_by exchange ≡ gone_with result.outcome ++ held_by result.exchange }
    ensures driven { (count : ℕ) × IsDriven count settings.rules.aborts client.old.answers client.new.answers server.old.answers server.new.answers exchange result.outcome result.exchange
        × KeepsTurns settings.turns count result.rest result.outcome }
    ensures client { IsAsAnswered client.old client.new }
    ensures server { IsAsAnswered server.old server.new }
    ensures own { IsOwn result.outcome }
    ensures down { result.rest ≡ Rest.Waits → IsDownAtRest result.exchange client.new server.new }
    ensures up { result.rest ≡ Rest.Waits → IsUpAtRest result.exchange client.new server.new }
{
    drive_on(exchange, settings, client, server, buffer)
}

fn drive_on<C: Socket, S: Socket>(
    exchange: Exchange,
    settings: Settings,
    client: &mut Line<C>,
    server: &mut Line<S>,
    buffer: &mut [u8],
) -> Driven
    requires { 0 < length buffer.old }
    ensures at { (h : ExchangeHistory) → IsAtItsStage exchange h
        → Drives client.old client.new server.old server.new (is_some result.client) (is_some result.server) h result.exchange result.outcome }
    ensures driven { (count : ℕ) × IsDriven count settings.rules.aborts client.old.answers client.new.answers server.old.answers server.new.answers exchange result.outcome result.exchange
        × KeepsTurns settings.turns count result.rest result.outcome }
    ensures client { IsAsAnswered client.old client.new }
    ensures server { IsAsAnswered server.old server.new }
    ensures own { IsOwn result.outcome }
    ensures down { result.rest ≡ Rest.Waits → IsDownAtRest result.exchange client.new server.new }
    ensures up { result.rest ≡ Rest.Waits → IsUpAtRest result.exchange client.new server.new }
{
    let mut exchange = exchange;
    let mut moves = Moves::none();
    for _turn in 0..settings.turns {
        let Turned {
            exchange: between,
            outcome,
            did: down,
        } = move_down(exchange, settings, client, server, buffer);
        moves = moves.with(down);
        match outcome {
            Outcome::Quiet => {}
            given => return gave(between, given, moves),
        }
        let Turned {
            exchange: behind,
            outcome,
            did: up,
        } = move_up(between, settings, client, server, buffer);
        moves = moves.with(up);
        match outcome {
            Outcome::Quiet => {}
            given => return gave(behind, given, moves),
        }
        if both_rest(down, up) {
            return comes_to(behind, moves, Rest::Waits);
        }
        exchange = behind;
    }
    comes_to(exchange, moves, Rest::Again)
}

// Says whether neither direction had anything to do.
fn both_rest(down: Did, up: Did) -> bool
    ensures rest { result ≡ true → (down ≡ Did.Rests) × (up ≡ Did.Rests) }
    ensures moved { result ≡ false → (down ≢ Did.Rests) ⊎ (up ≢ Did.Rests) }
{
    matches!((down, up), (Did::Rests, Did::Rests))
}

fn gave(exchange: Exchange, outcome: Outcome, moves: Moves) -> Driven
    ensures exchange { result.exchange ≡ exchange }
    ensures outcome { result.outcome ≡ outcome }
    ensures rest { result.rest ≡ Rest.Again }
    ensures moves { (is_some result.client ≡ moves.client) × (is_some result.server ≡ moves.server) }
{
    Driven {
        exchange,
        outcome,
        client: Moved::told(moves.client),
        server: Moved::told(moves.server),
        rest: Rest::Again,
    }
}

fn comes_to(exchange: Exchange, moves: Moves, rest: Rest) -> Driven
    ensures exchange { result.exchange ≡ exchange }
    ensures outcome { result.outcome ≡ Outcome.Quiet }
    ensures rest { result.rest ≡ rest }
    ensures moves { (is_some result.client ≡ moves.client) × (is_some result.server ≡ moves.server) }
{
    Driven {
        exchange,
        outcome: Outcome::Quiet,
        client: Moved::told(moves.client),
        server: Moved::told(moves.server),
        rest,
    }
}

impl Moves {
    fn none() -> Moves
        ensures { (result.client ≡ false) × (result.server ≡ false) }
    {
        Moves {
            client: false,
            server: false,
        }
    }

    fn with(self, did: Did) -> Moves
        ensures { (result.client ≡ self.client || at_client did) × (result.server ≡ self.server || at_server did) }
    {
        Moves {
            client: self.client || did == Did::Client,
            server: self.server || did == Did::Server,
        }
    }
}

fn rests(exchange: Exchange) -> Turned
    ensures exchange { result.exchange ≡ exchange }
    ensures outcome { result.outcome ≡ Outcome.Quiet }
    ensures did { result.did ≡ Did.Rests }
{
    Turned {
        exchange,
        outcome: Outcome::Quiet,
        did: Did::Rests,
    }
}

// Writes what waits for the client, or else reads more of the answer.
fn move_down<C: Socket, S: Socket>(
    exchange: Exchange,
    settings: Settings,
    client: &mut Line<C>,
    server: &mut Line<S>,
    buffer: &mut [u8],
) -> Turned
    requires { 0 < length buffer.old }
    ensures at { (h : ExchangeHistory) → IsAtItsStage exchange h → Drives client.old client.new server.old server.new (at_client result.did) (at_server result.did) h result.exchange result.outcome }
    ensures driven { (count : ℕ) × IsDriven count settings.rules.aborts client.old.answers client.new.answers server.old.answers server.new.answers exchange result.outcome result.exchange
        × (count ≤ 1) × (result.did ≢ Did.Rests → count ≡ 1) }
    ensures client { IsAsAnswered client.old client.new }
    ensures server { IsAsAnswered server.old server.new }
    ensures writes { to_client exchange ≢ [] → client.old.full ≡ false → (said : WriteResult) × (client.new.answers ≡ with_answers (Said said ∷ []) client.old.answers) }
    ensures looks { (to_client exchange ≢ [] → client.old.full ≡ true) → reads_server exchange ≡ true → server.old.waits ≢ []
        → (used : ℕ) × HearsServer server.old.waits exchange used result.outcome result.exchange × (server.new.waits ≡ drop used server.old.waits) }
    ensures own { IsOwn result.outcome }
    ensures rests { result.did ≡ Did.Rests → IsSame exchange result.exchange client.old client.new server.old server.new }
    ensures quiet { result.did ≡ Did.Rests → IsDownAtRest exchange client.old server.old }
    ensures buffer { length buffer.new ≡ length buffer.old }
{
    let wants = exchange.wants();
    if wants.writes_client && !client.is_full() {
        return write_client(exchange, settings, client, server);
    }
    if !wants.reads_server {
        return rests(exchange);
    }
    if !server.waiting().is_empty() {
        return use_server(exchange, settings, client, server);
    }
    if server.is_dry() {
        return rests(exchange);
    }
    let most = exchange.answer_room().clamp(1, buffer.len());
    read_server(exchange, settings, client, server, &mut buffer[..most])
}

// Writes what waits for the server, or else reads more of the request.
fn move_up<C: Socket, S: Socket>(
    exchange: Exchange,
    settings: Settings,
    client: &mut Line<C>,
    server: &mut Line<S>,
    buffer: &mut [u8],
) -> Turned
    requires { 0 < length buffer.old }
    ensures at { (h : ExchangeHistory) → IsAtItsStage exchange h → Drives client.old client.new server.old server.new (at_client result.did) (at_server result.did) h result.exchange result.outcome }
    ensures driven { (count : ℕ) × IsDriven count settings.rules.aborts client.old.answers client.new.answers server.old.answers server.new.answers exchange result.outcome result.exchange
        × (count ≤ 1) × (result.did ≢ Did.Rests → count ≡ 1) }
    ensures client { IsAsAnswered client.old client.new }
    ensures server { IsAsAnswered server.old server.new }
    ensures writes { writes_server exchange ≡ true → server.old.full ≡ false → (said : WriteResult) × (server.new.answers ≡ with_answers (Said said ∷ []) server.old.answers) }
    ensures looks { (writes_server exchange ≡ true → server.old.full ≡ true) → reads_client exchange ≡ true → client.old.waits ≢ []
        → (used : ℕ) × HearsClient client.old.waits exchange used result.outcome result.exchange × (client.new.waits ≡ drop used client.old.waits) }
    ensures own { IsOwn result.outcome }
    ensures rests { result.did ≡ Did.Rests → IsSame exchange result.exchange client.old client.new server.old server.new }
    ensures quiet { result.did ≡ Did.Rests → IsUpAtRest exchange client.old server.old }
    ensures buffer { length buffer.new ≡ length buffer.old }
{
    let wants = exchange.wants();
    if wants.writes_server && !server.is_full() {
        return write_server(exchange, settings, client, server);
    }
    if !wants.reads_client {
        return rests(exchange);
    }
    if !client.waiting().is_empty() {
        return use_client(exchange, settings, client, server);
    }
    if client.is_dry() {
        return rests(exchange);
    }
    let most = exchange.request_room().clamp(1, buffer.len());
    read_client(exchange, settings, client, server, &mut buffer[..most])
}
