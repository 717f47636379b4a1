// The bytes that peers send, and those that they are sent.
use super::fakes::Scene;

pub(super) const FORWARDED: &[u8] = b"GET / HTTP/1.1\r\nHost: h\r\nConnection: close\r\n\r\n";

pub(super) const ANSWERED: &[u8] =
    b"HTTP/1.1 200 OK\r\nContent-Length: 2\r\nConnection: close\r\n\r\nab";

pub(super) const BAD_REQUEST: &[u8] =
    b"HTTP/1.1 400 Bad Request\r\nContent-Length: 0\r\nConnection: close\r\n\r\n";

pub(super) const BAD_GATEWAY: &[u8] =
    b"HTTP/1.1 502 Bad Gateway\r\nContent-Length: 0\r\nConnection: close\r\n\r\n";

pub(super) const UNAVAILABLE: &[u8] =
    b"HTTP/1.1 503 Service Unavailable\r\nContent-Length: 0\r\nConnection: close\r\n\r\n";

/// Six clients, two more than there are places, one after the other; each is answered.
pub(super) fn plain() -> Scene {
    Scene {
        clients: 6,
        request: b"GET / HTTP/1.1\r\nHost: h\r\n\r\n",
        answer: b"HTTP/1.1 200 OK\r\nContent-Length: 2\r\n\r\nab",
        to_server: FORWARDED,
        to_client: ANSWERED,
        taken: usize::MAX,
        failing: 0,
        patience: u32::MAX,
        answers_after: 0,
        up: true,
    }
}
