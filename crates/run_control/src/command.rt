ghost use Rattle.std.specs.Prelude.{◌≡◌};
ghost use Rattle.run_control.specs.Misfits.{Sees};
ghost use Rattle.run_control.specs.Commands as grammar;
ghost use Rattle.proxy_words.specs.Text.{words as words_of};

use crate::pieces::{Misfit, bad, end, fixed, intake, is, millis, name, name_below, word};
use log_entries::Intake;
use log_texts::Name;
use proxy_words::Words;

/// A command to a running proxy.
#[derive(Debug, Drop)]
pub enum Command<'a> {
    /// Tell the state of its servers and clients.
    State(Form),
    /// From now on a server serves at most this number of requests at once, or takes none.
    Limit { server: Name<'a>, intake: Intake },
    /// A server takes no more requests; `waits` says whether the answer waits until it serves none.
    Drain { server: Name<'a>, waits: bool },
    /// A server takes as many requests as the configuration says again.
    Ready { server: Name<'a> },
    /// No server takes requests.
    Pause,
    /// The servers take as many requests as before the pause.
    Resume,
    /// Tell the reports of the present window.
    Reports,
    /// Tell the number of clients.
    Clients,
    /// Open the log files again.
    Reopen,
    /// End once all present clients were served, or after this number of milliseconds.
    Stop { within: Option<u64> },
    /// List the commands.
    Help,
}

/// The form in which the state is told.
#[derive(Clone, Copy, Debug, PartialEq, Eq)]
pub enum Form {
    /// Text, a line for each server.
    Lines,
    /// One JSON value.
    Json,
    /// HAProxy's `show stat`.
    Stat,
    /// HAProxy's `show servers state`.
    Servers,
}

/// Reads the command of a line, or says why it isn't one.
pub fn command_of<'a>(line: &'a [u8]) -> Result<Command<'a>, Misfit<'a>>
    ensures { Sees (λ x. x) result (grammar.command_of (words_of line.now)) }
{
    let (first, words) = word(Words::new(line))?;
    by_first(first, words)
}

// Reads the command that begins with this word.
fn by_first<'a>(first: &'a [u8], words: Words<'a>) -> Result<Command<'a>, Misfit<'a>>
    ensures { Sees (λ x. x) result (grammar.first_of first.now words.entry) }
{
    if is(first, "state") {
        state(words)
    } else if is(first, "limit") {
        limit(words)
    } else if is(first, "drain") {
        drain(words)
    } else if is(first, "ready") {
        ready(words)
    } else if is(first, "stop") {
        stop(words)
    } else {
        other(first, words)
    }
}

// Reads a command that begins with one of HAProxy's words, or has one word.
fn other<'a>(first: &'a [u8], words: Words<'a>) -> Result<Command<'a>, Misfit<'a>>
    ensures { Sees (λ x. x) result (grammar.other_of first.now words.entry) }
{
    if is(first, "show") {
        show(words)
    } else if is(first, "set") {
        set(words)
    } else {
        single(first, words)
    }
}

// Reads a command of one word, with no word after it.
fn single<'a>(first: &'a [u8], words: Words<'a>) -> Result<Command<'a>, Misfit<'a>>
    ensures { Sees (λ x. x) result (grammar.single first.now words.entry (grammar.plain first.now)) }
{
    match plain(first) {
        Some(command) => alone(command, words),
        None => Err(bad(first)),
    }
}

// Returns the command of this word alone.
fn plain<'a>(word: &[u8]) -> Option<Command<'a>>
    ensures { result ≡ grammar.plain word.now }
{
    if is(word, "pause") {
        Some(Command::Pause)
    } else if is(word, "resume") {
        Some(Command::Resume)
    } else if is(word, "reports") {
        Some(Command::Reports)
    } else if is(word, "clients") {
        Some(Command::Clients)
    } else if is(word, "reopen") {
        Some(Command::Reopen)
    } else if is(word, "help") {
        Some(Command::Help)
    } else {
        None
    }
}

// Returns the command, where no word stands after it.
fn alone<'a>(command: Command<'a>, words: Words<'a>) -> Result<Command<'a>, Misfit<'a>>
    ensures { Sees (λ x. x) result (grammar.alone command.entry words.entry) }
{
    end(words)?;
    Ok(command)
}

// Reads `--json` or nothing, after `state`.
fn state<'a>(mut words: Words<'a>) -> Result<Command<'a>, Misfit<'a>>
    ensures { Sees (λ x. x) result (grammar.state_command words.entry) }
{
    match words.next() {
        None => Ok(Command::State(Form::Lines)),
        Some(b"--json") => alone(Command::State(Form::Json), words),
        Some(word) => Err(bad(word)),
    }
}

// Reads `SERVER N` or `SERVER closed`, after `limit`.
#[tactic(auto, unfolding(crate::specs::Commands::limit_command))]
fn limit<'a>(words: Words<'a>) -> Result<Command<'a>, Misfit<'a>>
    ensures { Sees (λ x. x) result (grammar.limit_command words.entry) }
{
    let (server, words) = name(words)?;
    let (intake, words) = intake(words)?;
    alone(Command::Limit { server, intake }, words)
}

// Reads `SERVER` or `SERVER --wait`, after `drain`.
#[tactic(auto, unfolding(crate::specs::Commands::drain_of))]
fn drain<'a>(words: Words<'a>) -> Result<Command<'a>, Misfit<'a>>
    ensures { Sees (λ x. x) result (grammar.drain_of words.entry) }
{
    let (server, words) = name(words)?;
    drain_one(server, words)
}

// Reads `--wait` or nothing, after `drain SERVER`.
fn drain_one<'a>(server: Name<'a>, mut words: Words<'a>) -> Result<Command<'a>, Misfit<'a>>
    ensures { Sees (λ x. x) result (grammar.drained server.entry words.entry) }
{
    match words.next() {
        None => Ok(drained(server, false)),
        Some(b"--wait") => alone(drained(server, true), words),
        Some(word) => Err(bad(word)),
    }
}

// Reads `SERVER`, after `ready`.
#[tactic(auto, unfolding(crate::specs::Commands::ready_of))]
fn ready<'a>(words: Words<'a>) -> Result<Command<'a>, Misfit<'a>>
    ensures { Sees (λ x. x) result (grammar.ready_of words.entry) }
{
    let (server, words) = name(words)?;
    alone(Command::Ready { server }, words)
}

// Reads `--within MS` or nothing, after `stop`.
fn stop<'a>(mut words: Words<'a>) -> Result<Command<'a>, Misfit<'a>>
    ensures { Sees (λ x. x) result (grammar.stop_of words.entry) }
{
    match words.next() {
        None => Ok(Command::Stop { within: None }),
        Some(word) if is(word, "--within") => within(words),
        Some(word) => Err(bad(word)),
    }
}

// Reads `MS`, after `stop --within`.
#[tactic(auto, unfolding(crate::specs::Commands::within_of))]
fn within<'a>(words: Words<'a>) -> Result<Command<'a>, Misfit<'a>>
    ensures { Sees (λ x. x) result (grammar.within_of words.entry) }
{
    let (number, words) = millis(words)?;
    let within = Some(number);
    alone(Command::Stop { within }, words)
}

// Reads `stat` or `servers state`, after `show`.
fn show<'a>(words: Words<'a>) -> Result<Command<'a>, Misfit<'a>>
    ensures { Sees (λ x. x) result (grammar.show_of words.entry) }
{
    let (what, words) = word(words)?;
    match what {
        b"stat" => alone(Command::State(Form::Stat), words),
        b"servers" => servers(words),
        _ => Err(bad(what)),
    }
}

// Reads `state`, after `show servers`.
#[tactic(auto, unfolding(crate::specs::Commands::servers_of))]
fn servers<'a>(words: Words<'a>) -> Result<Command<'a>, Misfit<'a>>
    ensures { Sees (λ x. x) result (grammar.servers_of words.entry) }
{
    let words = fixed("state", words)?;
    alone(Command::State(Form::Servers), words)
}

// Reads `maxconn server BACKEND/SERVER N` or `server BACKEND/SERVER state ..`, after `set`.
fn set<'a>(words: Words<'a>) -> Result<Command<'a>, Misfit<'a>>
    ensures { Sees (λ x. x) result (grammar.set_command words.entry) }
{
    let (what, words) = word(words)?;
    match what {
        b"maxconn" => set_limit(words),
        b"server" => set_state(words),
        _ => Err(bad(what)),
    }
}

#[tactic(auto, unfolding(crate::specs::Commands::set_limit_of))]
fn set_limit<'a>(words: Words<'a>) -> Result<Command<'a>, Misfit<'a>>
    ensures { Sees (λ x. x) result (grammar.set_limit_of words.entry) }
{
    let words = fixed("server", words)?;
    let (server, words) = name_below(words)?;
    let (intake, words) = intake(words)?;
    alone(Command::Limit { server, intake }, words)
}

#[tactic(auto, unfolding(crate::specs::Commands::set_state_of))]
fn set_state<'a>(words: Words<'a>) -> Result<Command<'a>, Misfit<'a>>
    ensures { Sees (λ x. x) result (grammar.set_state_of words.entry) }
{
    let (server, words) = name_below(words)?;
    let words = fixed("state", words)?;
    stand(server, words)
}

// Reads `ready`, `drain` or `maint`, after `set server BACKEND/SERVER state`.
fn stand<'a>(server: Name<'a>, words: Words<'a>) -> Result<Command<'a>, Misfit<'a>>
    ensures { Sees (λ x. x) result (grammar.stood server.entry words.entry) }
{
    let (state, words) = word(words)?;
    match state {
        b"ready" => alone(Command::Ready { server }, words),
        b"drain" | b"maint" => alone(drained(server, false), words),
        _ => Err(bad(state)),
    }
}

fn drained<'a>(server: Name<'a>, waits: bool) -> Command<'a>
    ensures { result ≡ Command.Drain server.entry waits }
{
    Command::Drain { server, waits }
}
