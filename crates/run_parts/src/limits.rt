ghost use Rattle.std.specs.Prelude.{◌≡◌, ◌<◌, ◌≤◌, ◌↔◌, IfSome, IsSome, IsTrue};
ghost use Rattle.run_parts.specs.Sizes.{IsOneTo, LimitsAreWithin};

/// The most loops.
pub const MOST_LOOPS: u32 = 64;

/// The most workers.
pub const MOST_WORKERS: u32 = 256;

/// The most requests that may wait outside before no client is accepted.
pub const MOST_WAITING: u32 = 65_536;

/// The sizes that the command line gives.
#[derive(Clone, Copy, Debug, PartialEq, Eq)]
pub struct RunLimits {
    pub workers: Option<u32>,
    pub loops: Option<u32>,
    pub waiting: Option<u32>,
    pub places: usize,
    pub requests: u64,
    ghost some: { 0 < places },
    ghost most: { places ≤ 4096 },
}

/// The number of loops, and of their places.
#[derive(Clone, Copy, Debug, PartialEq, Eq)]
pub struct LoopSizes {
    pub loops: usize,
    pub places: usize,
    /// The most requests that are at servers at a time.
    pub slots: usize,
    /// While this number of requests wait outside, no client is accepted.
    pub waiting: u64,
}

impl RunLimits {
    /// Checks the sizes: workers, 1 to 256, loops, 1 to 64, and requests that wait beyond the
    /// places, 1 to 65,536, where they are given; live requests, 1 to 4,096; and the number of
    /// clients after which it ends, at most 999,999,999, where 0 is never. `None` where one of them
    /// is out of its range.
    pub fn new(
        workers: Option<u32>,
        loops: Option<u32>,
        waiting: Option<u32>,
        places: u32,
        requests: u32,
    ) -> Option<RunLimits>
        ensures some { IfSome result (λ it. (it.workers ≡ workers) × (it.loops ≡ loops) × (it.waiting ≡ waiting) × (it.places ≡ places) × (it.requests ≡ requests)) }
        ensures variant { IsSome result ↔ LimitsAreWithin workers loops waiting places requests }
    {
        if is_within(workers, MOST_WORKERS)
            && is_within(loops, MOST_LOOPS)
            && is_within(waiting, MOST_WAITING)
            && 0 < places
            && places <= 4096
            && requests <= 999_999_999
        {
            Some(RunLimits {
                workers,
                loops,
                waiting,
                places: places as usize,
                requests: u64::from(requests),
            })
        } else {
            None
        }
    }
}

// Says whether a number that is given is from 1 to this one.
fn is_within(given: Option<u32>, most: u32) -> bool
    ensures { IsTrue result ↔ IsOneTo given most }
{
    match given {
        None => true,
        Some(number) => 0 < number && number <= most,
    }
}
