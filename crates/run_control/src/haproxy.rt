//! The state in the forms of HAProxy's runtime API. Columns that the proxy doesn't know are empty.

use crate::state::{ProxyState, ServerState};
use log_entries::Intake;
use log_texts::Names;
use std::alloc::AllocError;

/// The columns of `show stat` up to the weight, in HAProxy's order.
const STAT: &str =
    "# pxname,svname,qcur,qmax,scur,smax,slim,stot,bin,bout,dreq,dresp,ereq,econ,eresp,wretr,wredis,status,weight,";

/// The columns of `show servers state` up to the weight.
const SERVERS: &str =
    "1\n# be_id be_name srv_id srv_name srv_addr srv_op_state srv_admin_state srv_uweight";

/// The proxy's name in both.
const PROXY: &str = "dueproxy";

/// Appends the lines of `show stat`: one for each server, and one for the requests in the backend's
/// queue. After an `Err` some of them may stand there.
pub fn push_stat(text: &mut String, names: &Names, state: &ProxyState) -> Result<(), AllocError> {
    writeln!(text, "{STAT}")?;
    for (number, server) in state.servers.as_slice().iter().enumerate() {
        push_stat_line(text, names.of(number), server)?;
    }
    let waiting = state.waiting;
    let clients = state.clients;
    writeln!(
        text,
        "{PROXY},BACKEND,{waiting},,{clients},,,,,,,,,,,,,UP,,"
    )
}

fn push_stat_line(text: &mut String, name: &str, server: &ServerState) -> Result<(), AllocError> {
    let served = server.served;
    let waiting = server.waiting;
    write!(text, "{PROXY},{name},{waiting},,{served},,")?;
    if let Intake::Open(limit) = server.intake {
        if limit != 0 {
            write!(text, "{limit}")?;
        }
    }
    let status = status_of(server);
    writeln!(text, ",,,,,,,,,,,{status},,")
}

// A closed server is shown as one that HAProxy drains.
fn status_of(server: &ServerState) -> &'static str {
    match (server.up, server.intake) {
        (false, _) => "DOWN",
        (true, Intake::Closed) => "DRAIN",
        (true, Intake::Open(_)) => "UP",
    }
}

/// Appends the lines of `show servers state`. After an `Err` some of them may stand there.
pub fn push_servers_state(
    text: &mut String,
    names: &Names,
    state: &ProxyState,
) -> Result<(), AllocError> {
    writeln!(text, "{SERVERS}")?;
    for (number, server) in state.servers.as_slice().iter().enumerate() {
        let name = names.of(number);
        let place = number.saturating_add(1);
        // In HAProxy's format 2 is up and 0 is down; 8 is a server drained by an operator.
        let runs = if server.up { 2 } else { 0 };
        let drained = if server.intake == Intake::Closed {
            8
        } else {
            0
        };
        writeln!(text, "1 {PROXY} {place} {name} - {runs} {drained} -")?;
    }
    Ok(())
}
