use crate::addresses::Addresses;
use crate::clients::Clients;
use crate::waits::duration;
use log_requests::RequestLog;
use proxy_config::Config;
use run_admin::Admin;
use run_control::Controls;
use run_windows::WindowPrinter;
use shared_desk::WakeKey;
use std::alloc::Global;
use std::net::{TcpListener, TcpStream};
use std::thread;
use std::time::{Clock, Duration, Instant};

const MOST_FAILURES: usize = 1000;

/// The data that the gates of all threads share.
#[derive(Drop)]
pub struct GateShared<'a> {
    pub alloc: Global,
    pub config: &'a Config,
    /// The listener for clients.
    pub listener: TcpListener,
    pub clients: Clients,
    /// Moments are milliseconds since this one.
    pub start: Instant,
    /// The addresses of the servers.
    pub addresses: &'a Addresses,
    /// The longest pause of a client between two requests, in milliseconds. `None`: a client's
    /// connection has one request.
    pub keeping: Option<u64>,
    /// The most unused connections of a server that stay open. `None`: a server's connection has one request.
    pub reusing: Option<u64>,
    /// Servers are told the client's address.
    pub forwarded_for: bool,
    /// The length of a window in milliseconds. `None`: a window ends once the log is full.
    pub window: Option<u64>,
    /// The key to what calls of the desk change.
    pub wakes: &'a WakeKey,
    /// The printer of windows that ended.
    pub windows: &'a WindowPrinter,
    /// The controls, where it is steered while it serves.
    pub controls: Option<&'a Controls>,
    /// The sink for records of ended exchanges, where that is wanted.
    pub log: Option<&'a RequestLog>,
    /// The admin listener, where there is one.
    pub admin: Option<&'a Admin>,
}

impl<'a> GateShared<'a> {
    /// Accepts the next client, where one more may come. After a failure it tries again a
    /// millisecond later, and gives up after a thousand failures in a row.
    pub(crate) fn next<R: Clock>(&self, rt: &R) -> Option<TcpStream> {
        if !self.clients.take() {
            return None;
        }
        for _ in 0..MOST_FAILURES {
            if let Ok((client, _)) = self.listener.accept() {
                return Some(within(client, self.config.client_timeout));
            }
            thread::sleep(rt, Duration::from_millis(1));
        }
        self.clients.give_up();
        None
    }
}

/// Makes the reads and writes of a connection fail where they take longer than this number of
/// milliseconds, and sends small writes at once (`TCP_NODELAY`). Where the system refuses either,
/// the connection stays as it is.
pub fn within(stream: TcpStream, limit: Option<u64>) -> TcpStream {
    let _ = stream.set_nodelay(true);
    if let Some(limit) = duration(limit) {
        let _ = stream.set_read_timeout(Some(limit));
        let _ = stream.set_write_timeout(Some(limit));
    }
    stream
}
