/// The framing of a body (RFC 9112, section 6).
#[derive(Clone, Copy, Debug, PartialEq, Eq)]
pub enum Framing {
    /// There is no body.
    Empty,
    /// This number of bytes.
    Length(u64),
    /// Chunks, up to one of size 0.
    Chunked,
    /// To the end of the input.
    ToEnd,
}
