//! The state as one JSON value.

use crate::state::{ProxyState, ServerState, phase_of};
use log_entries::Intake;
use log_texts::Names;
use serde::Serialize;
use std::alloc::{AllocError, Global};

/// A server in JSON. `None` as the limit: it is closed.
#[derive(Drop, Serialize)]
struct ServerObject<'a> {
    name: &'a str,
    up: bool,
    limit: Option<u32>,
    served: usize,
    waiting: usize,
}

#[derive(Drop, Serialize)]
struct State<'a> {
    phase: &'a str,
    waiting: usize,
    places: usize,
    clients: u64,
    servers: Vec<ServerObject<'a>>,
}

/// Returns the state as one JSON value, on one line. A closed server has `null` as its limit.
pub fn json_of(alloc: Global, names: &Names, state: &ProxyState) -> Result<String, AllocError> {
    let mut servers = Vec::new(alloc);
    for (number, server) in state.servers.as_slice().iter().enumerate() {
        servers.push(server_of(names.of(number), server))?;
    }
    let value = State {
        phase: phase_of(state),
        waiting: state.waiting,
        places: state.places,
        clients: state.clients,
        servers,
    };
    match serde_json::to_string(alloc, &value) {
        Ok(text) => Ok(text),
        Err(_) => Err(AllocError),
    }
}

fn server_of<'a>(name: &'a str, server: &ServerState) -> ServerObject<'a> {
    ServerObject {
        name,
        up: server.up,
        limit: match server.intake {
            Intake::Open(limit) => Some(limit),
            Intake::Closed => None,
        },
        served: server.served,
        waiting: server.waiting,
    }
}
