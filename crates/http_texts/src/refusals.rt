ghost use Rattle.std.specs.Prelude.{◌≡◌};
ghost use Rattle.http_texts.specs.Replies.{refusal_text};

/// The status of a refusal.
#[derive(Clone, Copy, Debug, PartialEq, Eq)]
pub enum Code {
    /// 400: the proxy doesn't accept the request.
    BadRequest,
    /// 502: the server gave no answer that the proxy accepts.
    BadGateway,
    /// 503: no server is free.
    Unavailable,
}

impl Code {
    /// Returns the text of the refusal.
    pub fn text(self) -> &'static [u8]
        ensures { result.now ≡ refusal_text self }
    {
        match self {
            Code::BadRequest => {
                b"HTTP/1.1 400 Bad Request\r\nContent-Length: 0\r\nConnection: close\r\n\r\n"
            }
            Code::BadGateway => {
                b"HTTP/1.1 502 Bad Gateway\r\nContent-Length: 0\r\nConnection: close\r\n\r\n"
            }
            Code::Unavailable => {
                b"HTTP/1.1 503 Service Unavailable\r\nContent-Length: 0\r\nConnection: close\r\n\r\n"
            }
        }
    }
}
