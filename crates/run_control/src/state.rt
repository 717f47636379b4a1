ghost use Rattle.std.specs.Prelude.{◌≡◌, ◌++◌, OnOk, string_bytes};
ghost use Rattle.log_texts.specs.Traces.{intake_text};
ghost use Rattle.run_control.specs.States.{head_text, counts_text, server_text, servers_text, sums_text, state_text, phase_word};

use log_entries::Intake;
use log_texts::Names;
use std::alloc::AllocError;

/// The state of a server.
#[derive(Clone, Copy, Debug, PartialEq, Eq)]
pub struct ServerState {
    /// It is up, by the results of its checks.
    pub up: bool,
    /// How many requests it takes.
    pub intake: Intake,
    /// The number of requests that it serves.
    pub served: usize,
    /// The number of requests in its own queue.
    pub waiting: usize,
}

/// The state of a proxy.
#[derive(Debug, Drop)]
pub struct ProxyState {
    /// The servers, in file order.
    pub servers: Vec<ServerState>,
    /// The number of requests in the backend's queue.
    pub waiting: usize,
    /// The most requests that may be served or wait.
    pub places: usize,
    /// The number of clients.
    pub clients: u64,
    /// A pause keeps all servers closed.
    pub paused: bool,
    /// The proxy accepts no more clients.
    pub stopping: bool,
}

/// Appends a line for each server in file order, and one for the proxy. After an `Err` some of them
/// may stand there.
pub fn push_state(text: &mut String, names: &Names, state: &ProxyState) -> Result<(), AllocError>
    ensures { OnOk result (string_bytes text.new ≡ string_bytes text.old ++ state_text names.now state.now) }
{
    push_servers(text, names, state.servers.as_slice())?;
    push_sums(text, state)
}

#[tactic(auto, unfolding(crate::specs::States::servers_text))]
fn push_servers(text: &mut String, names: &Names, servers: &[ServerState]) -> Result<(), AllocError>
    ensures { OnOk result (string_bytes text.new ≡ string_bytes text.old ++ servers_text names.now 0 servers.now) }
{
    for (number, server) in servers.iter().enumerate() {
        push_server(text, names.of(number), server)?;
    }
    Ok(())
}

fn push_server(text: &mut String, name: &str, server: &ServerState) -> Result<(), AllocError>
    ensures { OnOk result (string_bytes text.new ≡ string_bytes text.old ++ server_text name.now server.now) }
{
    push_head(text, name, server.up)?;
    push_intake(text, server.intake)?;
    push_counts(text, server)
}

fn push_head(text: &mut String, name: &str, up: bool) -> Result<(), AllocError>
    ensures { OnOk result (string_bytes text.new ≡ string_bytes text.old ++ head_text name.now up) }
{
    let health = if up { "up" } else { "down" };
    write!(text, "server {name} {health} limit ")
}

fn push_counts(text: &mut String, server: &ServerState) -> Result<(), AllocError>
    ensures { OnOk result (string_bytes text.new ≡ string_bytes text.old ++ counts_text server.now) }
{
    let served = server.served;
    let waiting = server.waiting;
    writeln!(text, " served {served} waiting {waiting}")
}

fn push_intake(text: &mut String, intake: Intake) -> Result<(), AllocError>
    ensures { OnOk result (string_bytes text.new ≡ string_bytes text.old ++ intake_text intake) }
{
    match intake {
        Intake::Open(limit) => write!(text, "{limit}"),
        Intake::Closed => write!(text, "closed"),
    }
}

fn push_sums(text: &mut String, state: &ProxyState) -> Result<(), AllocError>
    ensures { OnOk result (string_bytes text.new ≡ string_bytes text.old ++ sums_text state.now) }
{
    let phase = phase_of(state);
    let waiting = state.waiting;
    let places = state.places;
    let clients = state.clients;
    writeln!(
        text,
        "proxy {phase} waiting {waiting} places {places} clients {clients}"
    )
}

/// Returns the word for the proxy's phase.
pub(crate) fn phase_of(state: &ProxyState) -> &'static str
    ensures { result.now ≡ phase_word state.now.stopping state.now.paused }
{
    if state.stopping {
        "stopping"
    } else if state.paused {
        "paused"
    } else {
        "serving"
    }
}
