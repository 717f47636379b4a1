ghost use Rattle.std.specs.Prelude.{◌≡◌};
ghost use Rattle.http_texts.specs.Texts.{connection_text};

/// What a head says of its connection (RFC 9112, section 9.3).
#[derive(Clone, Copy, Debug, PartialEq, Eq)]
pub enum Persistence {
    /// It is closed after the message.
    Close,
    /// Nothing: a connection of version 1.1 stays open.
    Persist,
    /// It stays open, said to a client of version 1.0 that asked for that.
    KeepAlive,
}

/// Returns the Connection line, if there is one, and the empty line.
pub(crate) fn connection_text(persistence: Persistence) -> &'static [u8]
    ensures { result.now ≡ connection_text persistence }
{
    match persistence {
        Persistence::Close => b"Connection: close\r\n\r\n",
        Persistence::Persist => b"\r\n",
        Persistence::KeepAlive => b"Connection: keep-alive\r\n\r\n",
    }
}
