//! The requests of the demo.

use log_texts::Names;
use std::alloc::{AllocError, Global};

/// A request: its class, and its due date in milliseconds after its arrival.
pub struct Visit {
    class: i32,
    due: i32,
}

/// The number of requests.
pub const VISITS: usize = 12;

/// The next request comes this number of milliseconds later.
pub const GAP: u64 = 40;

/// More requests than three servers can take at once: some that are due soon come after others
/// that aren't, two wait in a class that goes last, and one in a class that goes first.
pub static PLAN: [Visit; VISITS] = [
    Visit { class: 0, due: 600 },
    Visit { class: 0, due: 600 },
    Visit {
        class: 1,
        due: 2000,
    },
    Visit { class: 0, due: 700 },
    Visit { class: 0, due: 500 },
    Visit { class: 0, due: 150 },
    Visit { class: 1, due: 400 },
    Visit { class: 0, due: 500 },
    Visit {
        class: -1,
        due: 1000,
    },
    Visit { class: 0, due: 80 },
    Visit { class: 1, due: 100 },
    Visit { class: 0, due: 150 },
];

/// Returns the bytes of a request; its path is its number.
pub fn request_of(alloc: Global, number: usize, visit: &Visit) -> Result<String, AllocError> {
    let class = visit.class;
    let due = visit.due;
    format!(in alloc;
        "GET /{number} HTTP/1.1\r\nHost: demo\r\nX-Class: {class}\r\nX-Due: {due}\r\n\r\n"
    )
}

/// Returns the names of the servers.
pub fn names_of(alloc: Global) -> Result<Names, AllocError> {
    let mut names = Vec::new(alloc);
    for name in ["a", "b", "c"] {
        names.push(String::from_str(alloc, name)?)?;
    }
    Ok(Names::new(names))
}
