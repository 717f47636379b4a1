ghost use Rattle.std.specs.Prelude.{◌≡◌, ◌≤◌, length, true};
ghost use Rattle.run_control.specs.Scans.{length_before_end, has_end, starts_line};

/// The state of a reader of an answer, which ends with an empty line.
#[derive(Clone, Copy, Debug, PartialEq, Eq)]
pub struct Scan {
    /// The next byte begins a line.
    pub at_start: bool,
}

/// What the reader found in some bytes.
#[derive(Clone, Copy, Debug, PartialEq, Eq)]
pub struct Scanned {
    /// The number of bytes before the answer's end, or of all bytes.
    pub count: usize,
    /// The bytes contain the empty line that ends the answer.
    pub ended: bool,
}

impl Scan {
    /// Makes the state at the beginning of an answer.
    pub fn new() -> Scan
        ensures { result.at_start ≡ true }
    {
        Scan { at_start: true }
    }

    /// Reads the next bytes.
    pub fn read(&mut self, bytes: &[u8]) -> Scanned
        ensures count { result.count ≡ length_before_end self.old.at_start bytes.now }
        ensures within { result.count ≤ length bytes.now }
        ensures ended { result.ended ≡ has_end self.old.at_start bytes.now }
        ensures start { self.new.at_start ≡ starts_line self.old.at_start bytes.now }
    {
        let (scanned, at_start) = scanned_from(self.at_start, bytes);
        self.at_start = at_start;
        scanned
    }
}

// Returns what is found in the bytes, and whether the byte after them begins a line.
#[tactic(auto, unfolding(crate::specs::Scans::length_before_end, crate::specs::Scans::has_end, crate::specs::Scans::starts_line))]
fn scanned_from(at_start: bool, bytes: &[u8]) -> (Scanned, bool)
    ensures count { result.0.count ≡ length_before_end at_start bytes.now }
    ensures within { result.0.count ≤ length bytes.now }
    ensures ended { result.0.ended ≡ has_end at_start bytes.now }
    ensures start { result.1 ≡ starts_line at_start bytes.now }
{
    let Some((byte, rest)) = bytes.split_first() else {
        return (
            Scanned {
                count: 0,
                ended: false,
            },
            at_start,
        );
    };
    let feeds = *byte == b'\n';
    if feeds && at_start {
        return (
            Scanned {
                count: 0,
                ended: true,
            },
            at_start,
        );
    }
    let (Scanned { count, ended }, at_start) = scanned_from(feeds, rest);
    let count = count + 1;
    (Scanned { count, ended }, at_start)
}
