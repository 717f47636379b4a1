//! The addresses where clients connect.

use crate::lines::Line;
use proxy_words::number;
use std::alloc::{AllocError, Global};

/// An address of a `bind` line.
#[derive(Debug, Drop)]
pub(crate) struct BindAddress {
    /// The address in the profile's form.
    pub(crate) text: Vec<u8>,
    pub(crate) port: u32,
}

/// Returns the first address of a `bind` line that the profile allows; `None` where it allows none.
pub(crate) fn bind_address_of(
    alloc: Global,
    line: &Line,
) -> Result<Option<BindAddress>, AllocError> {
    if line.is_odd {
        return Ok(None);
    }
    let families = line
        .words
        .iter()
        .any(|word| word.as_slice() == b"v4v6".as_slice());
    for address in line.word(1).split(|byte| *byte == b',') {
        if let Some(address) = bind_address_at(alloc, address, families)? {
            return Ok(Some(address));
        }
    }
    Ok(None)
}

/// Whether a `bind` line has several addresses.
pub(crate) fn is_list(line: &Line) -> bool {
    line.word(1).contains(&b',')
}

/// Says whether a `bind` line requires clients to speak TLS or the PROXY protocol.
pub(crate) fn is_wrapped(line: &Line) -> bool {
    line.words.iter().any(|word| is_wrapping(word.as_slice()))
}

fn is_wrapping(word: &[u8]) -> bool {
    matches!(word, b"ssl" | b"accept-proxy" | b"accept-netscaler-cip")
}

fn bind_address_at(
    alloc: Global,
    address: &[u8],
    families: bool,
) -> Result<Option<BindAddress>, AllocError> {
    let address = address.strip_prefix(b"ipv4@".as_slice()).unwrap_or(address);
    let Some(colon) = address.iter().rposition(|byte| *byte == b':') else {
        return Ok(None);
    };
    let host = address.get(..colon).unwrap_or(b"".as_slice());
    let digits = address
        .get(colon.saturating_add(1)..)
        .unwrap_or(b"".as_slice());
    let (Some(host), Some(port)) = (host_of(host, families), number(digits)) else {
        return Ok(None);
    };
    let mut text = Vec::from_slice(alloc, host)?;
    text.push(b':')?;
    text.extend_from_slice(digits)?;
    Ok(Some(BindAddress { text, port }))
}

// Returns an IPv4 address, or one that stands for all addresses.
fn host_of(host: &[u8], families: bool) -> Option<&[u8]> {
    match host {
        b"" | b"*" => Some(b"*".as_slice()),
        b"localhost" => Some(b"127.0.0.1".as_slice()),
        b"::" | b"[::]" if families => Some(b"*".as_slice()),
        _
            if host
                .iter()
                .all(|byte| byte.is_ascii_digit() || *byte == b'.') => Some(host),
        _ => None,
    }
}
