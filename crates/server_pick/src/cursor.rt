ghost use Rattle.std.specs.Prelude.{◌≡◌, ◌+◌, ◌-◌, ◌^◌, ◌<◌, nat_lt, if◌then◌else◌};

use std::marker::Model;

/// The server that balancing picked last. Of equal servers the first one after it in file order is next.
#[derive(Clone, Copy, Debug, PartialEq, Eq)]
pub struct Cursor {
    server: usize,
}

impl Model for Cursor {
    ghost use Rattle.std.specs.Prelude.{ℕ};

    ghost Value = { ℕ };

    ghost view = { λ cursor. cursor.server };

    ghost inverse = { λ server. record { server = server } };
}

impl Cursor {
    /// Makes the cursor before any pick: the last server counts as picked, so the first one is next.
    pub fn new(servers: usize) -> Cursor
        ensures { result ≡ servers - 1 }
    {
        Cursor {
            server: servers.saturating_sub(1),
        }
    }

    /// Returns the server that was picked last.
    pub fn server(&self) -> usize
        ensures { result ≡ self.now }
    {
        self.server
    }

    /// Returns the number of steps from the cursor to a server in file order, where the first
    /// server follows the last; its own server is the farthest.
    pub(crate) fn steps_to(&self, server: usize, servers: usize) -> usize
        requires { server + servers < 2 ^ 64 }
        ensures { result ≡ (if nat_lt self.now server then server - self.now else (server + servers) - self.now) }
    {
        if self.server < server {
            server - self.server
        } else {
            (server + servers).saturating_sub(self.server)
        }
    }

    /// Moves it to this server.
    pub(crate) fn move_to(&mut self, server: usize)
        ensures { self.new ≡ server }
    {
        self.server = server;
    }
}
