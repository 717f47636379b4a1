ghost use Rattle.std.specs.Prelude.{◌≡◌, ◌<◌, ◌∷◌, [], true, length};
ghost use Rattle.std.specs.Bool.{OnTrue, OnFalse};
ghost use Rattle.std.specs.Io.KnownBytes.{Consumes};
ghost use Rattle.exchange_driver.specs.Answers.{Heard, with_answers};
ghost use Rattle.exchange_driver.specs.declared.socket.ReadResult.TheVariants.{Nothing};
ghost use Rattle.exchange_seated.specs.Connections.{HasSpoken};

use exchange_driver::{ReadResult, Socket};

/// A server's connection between two exchanges. Only an exchange that ended clean leaves one: both
/// messages are at their ends, and both sides agreed to keep the connection open (RFC 9112, section
/// 9.3).
#[derive(Drop)]
pub struct Unused<S: Socket> {
    server: usize,
    socket: S,
}

impl<S: Socket> Unused<S> {
    pub(crate) fn new(server: usize, socket: S) -> Unused<S>
        ensures server { result.server ≡ server }
        ensures socket { result.socket ≡ socket }
    {
        Unused { server, socket }
    }

    /// Returns the number of its server.
    pub fn server(&self) -> usize
        ensures { result ≡ self.now.server }
    {
        self.server
    }

    /// Returns its socket, for registration with a poll.
    pub fn socket(&self) -> &S
        ensures { result.now ≡ self.now.socket }
    {
        &self.socket
    }

    // Reads once. True where nothing was there: no byte that no exchange asked for, and no end.
    pub(crate) fn is_quiet(&mut self, buffer: &mut [u8]) -> bool
        requires { 0 < length buffer.old }
        ensures length { length buffer.new ≡ length buffer.old }
        ensures server { self.new.server ≡ self.old.server }
        ensures left { OnTrue result (Consumes (S.left self.old.socket) (S.left self.new.socket) []) }
        ensures taken { S.taken self.new.socket ≡ S.taken self.old.socket }
        ensures full { S.full self.new.socket ≡ S.full self.old.socket }
        ensures dry { OnTrue result (S.dry self.new.socket ≡ true) }
        ensures quiet { OnTrue result (S.answers self.new.socket ≡ with_answers (Heard Nothing ∷ []) (S.answers self.old.socket)) }
        ensures spoke { OnFalse result (HasSpoken (S.answers self.old.socket) (S.answers self.new.socket)) }
    {
        match self.socket.read_now(buffer) {
            ReadResult::Nothing => true,
            ReadResult::Bytes(_) => false,
            ReadResult::Ended { well: _ } => false,
        }
    }

    pub(crate) fn into_socket(self) -> S
        ensures { result ≡ self.socket }
    {
        let Unused { server: _, socket } = self;
        socket
    }
}
