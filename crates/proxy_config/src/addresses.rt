//! Addresses as words.

ghost use Rattle.std.specs.Prelude.{◌≡◌, ◌+◌, ◌==◌, ◌∷◌, [], ◌≤◌, ◌<◌, ok_or, position, if◌then◌else◌, IfNone, IfSome, Some, None, take, drop};
ghost use Rattle.std.specs.List.{slice_split};
ghost use Rattle.proxy_words.specs.Numerals.{value_of};
ghost use Rattle.proxy_config.specs.Outcomes.{Gives};
ghost use Rattle.proxy_config.specs.Addresses as addresses;
ghost use Rattle.proxy_config.specs.declared.faults.FaultCause.TheVariants as causes;

use crate::faults::{FaultCause, LineError};
use crate::names::is_host;
use crate::parts::{Address, Bind, Host};
use crate::pieces::{is, number_in};
use base_lists::Items;
use std::alloc::Global;

/// Reads the address to listen at: `A:PORT`, where A is empty, `*` or an IPv4 address.
pub(crate) fn bind(word: &[u8]) -> Option<Bind>
    ensures { result ≡ addresses.bind_of word.now }
{
    let (ip, port) = around_colon(word)?;
    let ip = bind_ip(ip)?;
    let port = port_of(port)?;
    Some(Bind { ip, port })
}

/// Reads an address to connect to: `A:PORT`, where A is an IPv4 address or a host name.
pub(crate) fn address(alloc: Global, word: &[u8]) -> Result<Address, LineError>
    ensures { Gives (λ x. x) result (ok_or (addresses.address_of word.now) causes.Address) }
{
    let (host, port) = around_colon(word).ok_or(FaultCause::Address)?;
    let ip = ip(host);
    if ip.is_none() && !is_host(host) {
        return Err(FaultCause::Address.into());
    }
    let port = port_of(port).ok_or(FaultCause::Address)?;
    let host = match ip {
        Some(ip) => Host::Ip(ip),
        None => Host::Name(Items::copied(alloc, host)?),
    };
    Ok(Address { host, port })
}

fn bind_ip(word: &[u8]) -> Option<Option<[u8; 4]>>
    ensures { result ≡ addresses.bind_ip word.now }
{
    if is(word, "") || is(word, "*") {
        return Some(None);
    }
    ip(word).map(Some)
}

fn port_of(word: &[u8]) -> Option<u16>
    ensures { result ≡ addresses.port word.now }
{
    Some(number_in(1, 65535, word)? as u16)
}

fn ip(word: &[u8]) -> Option<[u8; 4]>
    ensures { result ≡ addresses.ip word.now }
{
    let (first, rest) = around_dot(word)?;
    let (second, rest) = around_dot(rest)?;
    let (third, fourth) = around_dot(rest)?;
    if let Some((_, _)) = around_dot(fourth) {
        return None;
    }
    Some([octet(first)?, octet(second)?, octet(third)?, octet(fourth)?])
}

fn octet(part: &[u8]) -> Option<u8>
    ensures { result ≡ (if addresses.is_octet part.now then Some (value_of part.now) else None) }
{
    Some(number_in(0, 255, part)? as u8)
}

// Returns the text before the first dot, and the text after it.
fn around_dot(word: &[u8]) -> Option<(&[u8], &[u8])>
    ensures none { IfNone result (slice_split addresses.is_dot word.now ≡ word.now ∷ []) }
    ensures some { IfSome result (λ x.
        slice_split addresses.is_dot word.now ≡ x.0.now ∷ slice_split addresses.is_dot x.1.now) }
{
    match place_of(word, b'.') {
        None => None,
        Some(n) => Some((word.split_at(n).0, word.split_at(n + 1).1)),
    }
}

fn around_colon(word: &[u8]) -> Option<(&[u8], &[u8])>
    ensures none { IfNone result (addresses.around_colon word.now ≡ None) }
    ensures some { IfSome result (λ x. addresses.around_colon word.now ≡ Some (x.0.now, x.1.now)) }
{
    match place_of(word, b':') {
        None => None,
        Some(n) => Some((word.split_at(n).0, word.split_at(n + 1).1)),
    }
}

fn place_of(word: &[u8], byte: u8) -> Option<usize>
    ensures { result ≡ position (λ x. x == byte) word.now }
{
    word.iter().position(|x| *x == byte)
}
