//! Byte strings that are too long to be written out.
use std::alloc::Global;
use std::process::Abort;

/// A start, a unit this number of times, and an end.
pub(crate) struct Repeated {
    pub(crate) start: &'static [u8],
    pub(crate) unit: &'static [u8],
    pub(crate) count: usize,
    pub(crate) end: &'static [u8],
}

/// The bytes themselves.
pub(crate) fn bytes_of(rt: &impl Abort, alloc: Global, repeated: &Repeated) -> Vec<u8> {
    let mut bytes = Vec::from_slice(alloc, repeated.start).expect(rt, "memory");
    for _ in 0..repeated.count {
        bytes.extend_from_slice(repeated.unit).expect(rt, "memory");
    }
    bytes.extend_from_slice(repeated.end).expect(rt, "memory");
    bytes
}
