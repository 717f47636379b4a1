//! The lines of `defaults` and `listen`.

ghost use Rattle.std.specs.Prelude.{◌≡◌};
ghost use Rattle.proxy_config.specs.Outcomes.{Sees};
ghost use Rattle.proxy_config.specs.Values as grammar;

use crate::faults::FaultCause;
use crate::pieces::{end, is, word};
use proxy_words::{Words, milliseconds, number};

/// The values that `defaults` sets, and `listen` after it.
#[derive(Clone, Copy)]
pub(crate) struct Values {
    pub retries: u32,
    pub redispatch: bool,
    pub abortonclose: bool,
    /// In milliseconds; 0 where it isn't set.
    pub queue: u64,
    /// In milliseconds; 0 where it isn't set.
    pub connect: u64,
    /// In milliseconds; 0 where it isn't set.
    pub client: u64,
    /// In milliseconds; 0 where it isn't set.
    pub server: u64,
}

/// The first word of a line that both sections take.
#[derive(Clone, Copy)]
pub(crate) enum Shared {
    Mode,
    Balance,
    Retries,
    Option,
    Timeout,
    /// `log` and `description`, which have no effect.
    Note,
}

#[derive(Clone, Copy)]
pub(crate) enum Switch {
    Redispatch,
    Abortonclose,
    Unused,
}

#[derive(Clone, Copy)]
pub(crate) enum Timeout {
    Queue,
    Connect,
    Client,
    Server,
}

impl Values {
    pub(crate) fn built_in() -> Values
        ensures { result ≡ grammar.built_in }
    {
        Values {
            retries: 3,
            redispatch: false,
            abortonclose: false,
            queue: 0,
            connect: 0,
            client: 0,
            server: 0,
        }
    }

    /// Returns the longest stay in a queue, if there is a limit.
    pub(crate) fn queue_timeout(self) -> Option<u64>
        ensures { result ≡ grammar.queue_timeout self }
    {
        if self.queue > 0 {
            Some(self.queue)
        } else {
            set_time(self.connect)
        }
    }
}

/// Returns a time that is set; 0 is no limit.
pub(crate) fn set_time(time: u64) -> Option<u64>
    ensures { result ≡ grammar.set_time time }
{
    if time > 0 { Some(time) } else { None }
}

/// Returns the values after a line, by its first word and the others.
pub(crate) fn shared_line(
    shared: Shared,
    values: Values,
    words: Words,
) -> Result<Values, FaultCause>
    ensures { Sees (λ x. x) result (grammar.shared_line shared values words.entry) }
{
    match shared {
        Shared::Mode => fixed_line("http", values, words),
        Shared::Balance => fixed_line("leastconn", values, words),
        Shared::Retries => retries_line(values, words),
        Shared::Option => option_line(values, words),
        Shared::Timeout => timeout_line(values, words),
        Shared::Note => Ok(values),
    }
}

#[tactic(auto, unfolding(crate::specs::Values::fixed_line))]
fn fixed_line(only: &str, values: Values, words: Words) -> Result<Values, FaultCause>
    ensures { Sees (λ x. x) result (grammar.fixed_line only.now values words.entry) }
{
    let (word, words) = word(words)?;
    if !is(word, only) {
        return Err(FaultCause::Keyword);
    }
    end(words)?;
    Ok(values)
}

#[tactic(auto, unfolding(crate::specs::Values::retries_line))]
fn retries_line(values: Values, words: Words) -> Result<Values, FaultCause>
    ensures { Sees (λ x. x) result (grammar.retries_line values words.entry) }
{
    let (word, words) = word(words)?;
    let retries = number(word).ok_or(FaultCause::Number)?;
    end(words)?;
    Ok(Values { retries, ..values })
}

#[tactic(auto, unfolding(crate::specs::Values::option_line))]
fn option_line(values: Values, words: Words) -> Result<Values, FaultCause>
    ensures { Sees (λ x. x) result (grammar.option_line values words.entry) }
{
    let (word, words) = word(words)?;
    let switch = switch_of(word).ok_or(FaultCause::Keyword)?;
    end(words)?;
    Ok(switched(switch, values))
}

#[tactic(auto, unfolding(crate::specs::Values::timeout_line))]
fn timeout_line(values: Values, words: Words) -> Result<Values, FaultCause>
    ensures { Sees (λ x. x) result (grammar.timeout_line values words.entry) }
{
    let (first, words) = word(words)?;
    let timeout = timeout_of(first).ok_or(FaultCause::Keyword)?;
    let (second, words) = word(words)?;
    let time = milliseconds(second).ok_or(FaultCause::Number)?;
    end(words)?;
    Ok(with_timeout(timeout, time, values))
}

fn switch_of(word: &[u8]) -> Option<Switch>
    ensures { result ≡ grammar.switch_of word.now }
{
    if is(word, "redispatch") {
        Some(Switch::Redispatch)
    } else if is(word, "abortonclose") {
        Some(Switch::Abortonclose)
    } else if is(word, "httplog") || is(word, "dontlognull") {
        Some(Switch::Unused)
    } else {
        None
    }
}

fn switched(switch: Switch, values: Values) -> Values
    ensures { result ≡ grammar.switched switch values }
{
    match switch {
        Switch::Redispatch => Values {
            redispatch: true,
            ..values
        },
        Switch::Abortonclose => Values {
            abortonclose: true,
            ..values
        },
        Switch::Unused => values,
    }
}

fn timeout_of(word: &[u8]) -> Option<Timeout>
    ensures { result ≡ grammar.timeout_of word.now }
{
    if is(word, "queue") {
        Some(Timeout::Queue)
    } else if is(word, "connect") {
        Some(Timeout::Connect)
    } else if is(word, "client") {
        Some(Timeout::Client)
    } else if is(word, "server") {
        Some(Timeout::Server)
    } else {
        None
    }
}

fn with_timeout(timeout: Timeout, time: u64, values: Values) -> Values
    ensures { result ≡ grammar.with_timeout timeout time values }
{
    match timeout {
        Timeout::Queue => Values {
            queue: time,
            ..values
        },
        Timeout::Connect => Values {
            connect: time,
            ..values
        },
        Timeout::Client => Values {
            client: time,
            ..values
        },
        Timeout::Server => Values {
            server: time,
            ..values
        },
    }
}
