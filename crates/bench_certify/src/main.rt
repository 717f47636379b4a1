//! The program that `bench/certify.sh` times: it reads the reports of one log again and again.
//!
//! Its arguments are the number of rounds and the file of the script.
#![tactic(auto)]

use anyhow::{Context, Result, bail};
use binom_queue::BinomQueue;
use dispatch_core::Core;
use due_key::Key;
use replay::{replay_events, reports_of};
use std::alloc::Global;
use std::{env, fs};

fn main(rt: HostRuntime) -> Result<()> {
    let words = env::args(&rt)?.collect::<Vec<String>>(rt.alloc())?;
    let [_, times, file] = words.as_slice() else {
        bail!("how often, and a script");
    };
    let times = times.as_str().parse::<u32>().context("how often")?;
    let script = fs::read(&rt, file.as_str())?;
    certify(&rt, &script, times)
}

fn certify(rt: &HostRuntime, script: &[u8], times: u32) -> Result<()> {
    let replayed = replay_events::<BinomQueue<Key, usize>>(rt.alloc(), script)?;
    let done = report(rt, &replayed.core, times);
    // A call is proved faster than the drops of all parts of a dispatcher.
    drop(replayed);
    done
}

fn report(rt: &HostRuntime, core: &Core<BinomQueue<Key, usize>>, times: u32) -> Result<()> {
    let mut reports = 0;
    for _ in 0..times {
        reports = count(rt.alloc(), core)?;
    }
    let entries = core.log().len();
    let grants = core.log().grants().len();
    println!(rt; "entries {entries} grants {grants} reports {reports}")?;
    Ok(())
}

fn count(alloc: Global, core: &Core<BinomQueue<Key, usize>>) -> Result<usize> {
    Ok(reports_of(alloc, core)?.as_slice().len())
}
