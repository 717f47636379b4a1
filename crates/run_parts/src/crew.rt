//! The threads that serve a proxy: by the command line, or by the configuration and the machine.

ghost use Rattle.std.specs.Prelude.{◌≡◌, ◌≤◌, IfSome, None, max, min};
ghost use Rattle.run_parts.specs.Sizes.{share_of, slots_of};

use crate::limits::{LoopSizes, MOST_LOOPS, MOST_WAITING, MOST_WORKERS, RunLimits};
use proxy_config::{Config, Server};
use std::thread;
use std::thread::Threads;

/// The threads of a proxy, and its number of clients.
#[derive(Clone, Copy)]
pub struct Crew {
    pub threads: LoopSizes,
    /// The number of workers that was asked for, which nothing depends on.
    pub workers: usize,
    pub requests: u64,
}

/// Returns the threads of a proxy. Where the command line says nothing, there are as many loops as
/// the machine has processors for them, and as many workers as requests may be at servers at a
/// time.
pub fn crew_of(rt: &impl Threads, config: &Config, sizes: RunLimits) -> Crew
    ensures places { result.threads.places ≡ sizes.places }
    ensures requests { result.requests ≡ sizes.requests }
    ensures loops { IfSome sizes.loops (λ loops. result.threads.loops ≡ loops) }
    ensures workers { IfSome sizes.workers (λ workers. result.workers ≡ workers) }
    ensures waiting { IfSome sizes.waiting (λ waiting. result.threads.waiting ≡ waiting) }
    ensures slots { result.threads.slots ≡ slots_of config.now.servers sizes.places }
    ensures few_loops { sizes.loops ≡ None → (1 ≤ result.threads.loops) × (result.threads.loops ≤ 64) }
    ensures a_worker_a_slot { sizes.workers ≡ None → result.workers ≡ max (min (slots_of config.now.servers sizes.places) 256) 1 }
    ensures all_wait { sizes.waiting ≡ None → result.threads.waiting ≡ 65536 }
{
    let slots = slots_of(config, sizes.places);
    let loops = match sizes.loops {
        Some(loops) => loops as usize,
        None => match thread::available_parallelism(rt) {
            Ok(processors) => processors.get().min(MOST_LOOPS as usize),
            Err(_) => 1,
        },
    };
    let workers = match sizes.workers {
        Some(workers) => workers as usize,
        None => slots.min(MOST_WORKERS as usize).max(1),
    };
    Crew {
        threads: LoopSizes {
            loops,
            places: sizes.places,
            slots,
            waiting: u64::from(sizes.waiting.unwrap_or(MOST_WAITING)),
        },
        workers,
        requests: sizes.requests,
    }
}

// Returns how many requests may be at servers at a time.
fn slots_of(config: &Config, places: usize) -> usize
    ensures sum { result ≡ slots_of config.now.servers places }
    ensures most { result ≤ places }
{
    let mut slots = 0;
    let servers = config.servers.as_slice();
    for server in servers {
        slots = places.min(share_of(server, places).saturating_add(slots));
    }
    slots
}

// Returns how many requests may be at a server at a time: its limit, or all live ones where it has
// none.
fn share_of(server: &Server, places: usize) -> usize
    ensures { result ≡ share_of places server.now }
{
    if server.maxconn == 0 {
        places
    } else {
        server.maxconn as usize
    }
}
