//! The counters of a connection.

ghost use Rattle.std.specs.Prelude.{◌≡◌, ◌+◌, ◌-◌, ◌^◌, ◌∷◌, ◌++◌, ℕ, List, [], min, length};
ghost use Rattle.exchange_driver.specs.Meters.{answer_status, tells, scan_tells};

/// The position of the status in the first line of an answer, after `HTTP/1.1 ` (RFC 9112, section 4).
const STATUS_AT: u8 = 9;

const STATUS_END: u8 = 12;

/// The numbers of bytes that went over a connection, and the status of the answer that was sent on it.
#[derive(Clone, Copy, Debug, PartialEq, Eq)]
pub struct Meter {
    /// The number of bytes that came.
    pub received: u64,
    /// The number of bytes that were sent.
    pub sent: u64,
    scan: Scan,
}

/// The state of the search for a status in the bytes that are sent.
#[derive(Clone, Copy, Debug, PartialEq, Eq)]
enum Scan {
    /// In the first line of a head: the number of its bytes that were sent, and the status so far.
    Line(u8, u16),
    /// In an interim head: the number of bytes of its end that were sent last.
    Interim(u8),
    Found(u16),
}

impl Meter {
    /// Makes the counters of a new connection.
    pub fn new() -> Meter
        ensures none { (result.received ≡ 0) × (result.sent ≡ 0) }
        ensures status { (more : List ℕ) → tells result more ≡ answer_status more }
    {
        Meter {
            received: 0,
            sent: 0,
            scan: Scan::Line(0, 0),
        }
    }

    /// Returns the status of the answer that was sent: the first one that isn't of an interim answer.
    pub fn status(&self) -> Option<u16>
        ensures { result ≡ tells self.now [] }
    {
        match self.scan {
            Scan::Found(status) => Some(status),
            Scan::Line(_, _) | Scan::Interim(_) => None,
        }
    }

    /// Counts bytes that came.
    pub(crate) fn note_received(&mut self, count: usize)
        ensures count { (self.new.received ≡ min (self.old.received + count) (2 ^ 64 - 1)) × (self.new.sent ≡ self.old.sent) }
        ensures status { (more : List ℕ) → tells self.new more ≡ tells self.old more }
    {
        self.received = self.received.saturating_add(count as u64);
    }

    /// Counts bytes that were sent.
    pub(crate) fn note_sent(&mut self, bytes: &[u8])
        ensures count { (self.new.sent ≡ min (self.old.sent + length bytes.now) (2 ^ 64 - 1)) × (self.new.received ≡ self.old.received) }
        ensures status { (more : List ℕ) → tells self.new more ≡ tells self.old (bytes.now ++ more) }
    {
        self.sent = self.sent.saturating_add(bytes.len() as u64);
        self.scan = scanned(self.scan, bytes);
    }
}

// Returns the state of the search after these bytes.
fn scanned(scan: Scan, bytes: &[u8]) -> Scan
    ensures { (more : List ℕ) → scan_tells result more ≡ scan_tells scan (bytes.now ++ more) }
{
    let mut scan = scan;
    for byte in bytes {
        if let Scan::Found(_) = scan {
            return scan;
        }
        scan = step(scan, *byte);
    }
    scan
}

fn step(scan: Scan, byte: u8) -> Scan
    ensures { (more : List ℕ) → scan_tells result more ≡ scan_tells scan (byte ∷ more) }
{
    match scan {
        Scan::Found(status) => Scan::Found(status),
        Scan::Interim(ended) => interim(ended, byte),
        Scan::Line(at, status) if at < STATUS_AT => Scan::Line(at + 1, status),
        Scan::Line(at, status) => {
            let next = at.saturating_add(1);
            let digit = byte.wrapping_sub(b'0').min(9);
            let status = status.saturating_mul(10).saturating_add(u16::from(digit));
            if next < STATUS_END {
                Scan::Line(next, status)
            } else if status < 200 && status != 101 {
                Scan::Interim(0)
            } else {
                Scan::Found(status)
            }
        }
    }
}

// A head ends with two line ends.
fn interim(ended: u8, byte: u8) -> Scan
    ensures { (more : List ℕ) → scan_tells result more ≡ scan_tells (Scan.Interim ended) (byte ∷ more) }
{
    match (ended, byte) {
        (0, b'\r') => Scan::Interim(1),
        (1, b'\n') => Scan::Interim(2),
        (2, b'\r') => Scan::Interim(3),
        (3, b'\n') => Scan::Line(0, 0),
        (_, b'\r') => Scan::Interim(1),
        (_, _) => Scan::Interim(0),
    }
}
