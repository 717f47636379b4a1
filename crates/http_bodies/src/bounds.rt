/// The most bytes of a size line, with its end.
pub const SIZE_LINE_BYTES: usize = 256;

/// The most bytes of the trailers, with their line ends and the empty line.
pub const TRAILER_BYTES: usize = 16_384;
