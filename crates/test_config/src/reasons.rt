//! Tests of the advice about a file that can't be read, or an address that can't be listened at.

use crate::assertions::holds;
use config_files::{address_remedy, remedy};
use std::io::ErrorKind;

/// A kind of failure, and a word of the advice for a file and for an address.
type RemedyRow = (ErrorKind, Option<&'static str>, Option<&'static str>);

static REMEDIES: [RemedyRow; 6] = [
    (ErrorKind::NotFound, Some("Is the name right?"), None),
    (
        ErrorKind::PermissionDenied,
        Some("ls -l"),
        Some("CAP_NET_BIND_SERVICE"),
    ),
    (ErrorKind::IsADirectory, Some("Name a file in it."), None),
    (ErrorKind::AddrInUse, None, Some("ss -ltnp")),
    (ErrorKind::AddrNotAvailable, None, Some("*:PORT")),
    (ErrorKind::BrokenPipe, None, None),
];

fn has(text: Option<&str>, word: Option<&str>) -> bool {
    match (text, word) {
        (Some(text), Some(word)) => text.contains(word),
        (None, None) => true,
        _ => false,
    }
}

#[test]
fn each_kind_of_failure_has_its_remedy(rt: HostRuntime) {
    for (kind, of_file, of_address) in &REMEDIES {
        holds(&rt, has(remedy(*kind), *of_file), "remedy", "of a file");
        let so = has(address_remedy(*kind), *of_address);
        holds(&rt, so, "remedy", "of an address");
    }
}
