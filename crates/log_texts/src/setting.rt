ghost use Rattle.std.specs.Prelude.{◌≡◌, ◌<◌, ◌≤◌, IfSome, IsTrue};
ghost use Rattle.log_entries.specs.Setups.{has_rise_and_fall};
ghost use Rattle.log_texts.specs.Headers.{places_line, log_line, retries_line, redispatch_line, timeout_line, server_line, server_of, checks_of, set_by, setting_of, number_in};
ghost use Rattle.log_texts.specs.Reading.{SettingIsWithin};

use crate::name::Name;
use crate::step::only;
use log_entries::ServerSet;
use proxy_words::{Words, number};

/// The setting of a script's header line.
#[derive(Debug, Drop)]
pub enum Setting<'a> {
    /// `places N`: the most live requests.
    Places(usize),
    /// `log N`: the most log entries.
    LogRoom(usize),
    /// `retries N`: the number of further tries of a request whose connection fails.
    Retries(u32),
    /// `redispatch`: the last of them goes to another server.
    Redispatch,
    /// `queue-timeout N`: the longest wait of a request in a queue, in milliseconds.
    QueueTimeout(u64),
    /// `server NAME MAXCONN MAXQUEUE WEIGHT` or `server NAME MAXCONN MAXQUEUE WEIGHT RISE FALL`.
    Server(Name<'a>, ServerSet),
}

/// Returns the setting of a line, if it is a header line.
pub(crate) fn setting_of(line: &[u8]) -> Option<Setting>
    ensures value { result ≡ setting_of line.now }
    ensures within { IfSome result SettingIsWithin }
{
    let mut words = Words::new(line);
    let keyword = words.next()?;
    if keyword == b"places".as_slice() {
        places(words)
    } else if keyword == b"log".as_slice() {
        log_room(words)
    } else if keyword == b"retries".as_slice() {
        retries(words)
    } else if keyword == b"redispatch".as_slice() {
        redispatch(words)
    } else if keyword == b"queue-timeout".as_slice() {
        queue_timeout(words)
    } else if keyword == b"server".as_slice() {
        server(words)
    } else {
        None
    }
}

// Reads `N`, after `places`.
fn places(words: Words) -> Option<Setting>
    ensures value { result ≡ places_line words.entry }
    ensures within { IfSome result SettingIsWithin }
{
    let places = number_in(1, 4096, only(words)?)?;
    Some(Setting::Places(places as usize))
}

// Reads `N`, after `log`.
fn log_room(words: Words) -> Option<Setting>
    ensures value { result ≡ log_line words.entry }
    ensures within { IfSome result SettingIsWithin }
{
    let room = number_in(1, 262_144, only(words)?)?;
    Some(Setting::LogRoom(room as usize))
}

// Reads `N`, after `retries`.
fn retries(words: Words) -> Option<Setting>
    ensures value { result ≡ retries_line words.entry }
    ensures within { IfSome result SettingIsWithin }
{
    let retries = number(only(words)?)?;
    Some(Setting::Retries(retries))
}

// Reads nothing, after `redispatch`.
fn redispatch(mut words: Words) -> Option<Setting>
    ensures value { result ≡ redispatch_line words.entry }
    ensures within { IfSome result SettingIsWithin }
{
    match words.next() {
        None => Some(Setting::Redispatch),
        Some(_) => None,
    }
}

// Reads `N`, after `queue-timeout`.
fn queue_timeout(words: Words) -> Option<Setting>
    ensures value { result ≡ timeout_line words.entry }
    ensures within { IfSome result SettingIsWithin }
{
    let timeout = number(only(words)?)?;
    Some(Setting::QueueTimeout(timeout.into()))
}

// Reads `NAME MAXCONN MAXQUEUE WEIGHT` or `NAME MAXCONN MAXQUEUE WEIGHT RISE FALL`, after `server`.
fn server<'a>(mut words: Words<'a>) -> Option<Setting<'a>>
    ensures value { result ≡ server_line words.entry }
    ensures within { IfSome result SettingIsWithin }
{
    let name = words.next()?;
    let limit = words.next()?;
    let maxqueue = words.next()?;
    let weight = words.next()?;
    let Some(rise) = words.next() else {
        return server_of(name, limit, maxqueue, weight, None);
    };
    let fall = words.next()?;
    if words.next().is_some() {
        return None;
    }
    let checks = checks_of(rise, fall)?;
    server_of(name, limit, maxqueue, weight, Some(checks))
}

// Reads `RISE FALL`, after a server's weight.
fn checks_of(rise: &[u8], fall: &[u8]) -> Option<(u32, u32)>
    ensures value { result ≡ checks_of rise.now fall.now }
    ensures within { IsTrue (has_rise_and_fall result) }
{
    let rise = number_in(1, 999_999_999, rise)?;
    let fall = number_in(1, 999_999_999, fall)?;
    Some((rise, fall))
}

fn server_of<'a>(
    name: &'a [u8],
    limit: &[u8],
    maxqueue: &[u8],
    weight: &[u8],
    rise_fall: Option<(u32, u32)>,
) -> Option<Setting<'a>>
    requires { IsTrue (has_rise_and_fall rise_fall) }
    ensures value { result ≡ server_of name.now limit.now maxqueue.now weight.now rise_fall }
    ensures within { IfSome result SettingIsWithin }
{
    let name = Name::new(name)?;
    let set = ServerSet {
        limit: number(limit)?,
        maxqueue: number(maxqueue)?,
        weight: number_in(0, 256, weight)?,
        rise_fall,
    };
    Some(Setting::Server(name, set))
}

fn number_in(least: u32, most: u32, word: &[u8]) -> Option<u32>
    ensures value { result ≡ number_in least most word.now }
    ensures within { IfSome result (λ n. (least ≤ n) × (n ≤ most)) }
{
    let n = number(word)?;
    if n < least || most < n { None } else { Some(n) }
}
