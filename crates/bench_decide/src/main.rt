//! The program that `bench/decide.sh` times: it decides or parses one head again and again.
//!
//! Its arguments are `decide` or `view`, the number of rounds, and the files of the configuration and of the head.
#![tactic(auto)]

use anyhow::{Context, Result, bail};
use prio_rules::decide;
use proxy_config::{Config, read};
use req_view::{View, Viewed, view};
use std::alloc::Global;
use std::{env, fs};

fn main(rt: HostRuntime) -> Result<()> {
    let alloc = rt.alloc();
    let words = env::args(&rt)?.collect::<Vec<String>>(alloc)?;
    let [_, what, times, configuration, head] = words.as_slice() else {
        bail!("decide or view, how often, and two files");
    };
    let times = times.as_str().parse::<u32>().context("how often")?;
    let sum = sum_of(
        &rt,
        what.as_str(),
        times,
        configuration.as_str(),
        head.as_str(),
    )?;
    println!(rt; "{sum}")?;
    Ok(())
}

fn sum_of(
    rt: &HostRuntime,
    what: &str,
    times: u32,
    configuration: &str,
    head: &str,
) -> Result<usize> {
    let head = fs::read(rt, head)?;
    if what == "view" {
        return views(rt.alloc(), &head, times);
    }
    let configuration = fs::read(rt, configuration)?;
    decisions(rt.alloc(), &configuration, &head, times)
}

fn decisions(alloc: Global, configuration: &[u8], head: &[u8], times: u32) -> Result<usize> {
    let config = read(alloc, configuration)?;
    let sum = pins(alloc, &config, head, times);
    // A call is proved faster than the drops of all parts of a configuration.
    drop(config);
    sum
}

// Combines the answers by exclusive or, which can't overflow, so that each decision and each view counts.
fn pins(alloc: Global, config: &Config, head: &[u8], times: u32) -> Result<usize> {
    let head = whole(alloc, head)?;
    let mut pins = 0;
    for _ in 0..times {
        pins ^= decide(config, &head).pin.unwrap_or(usize::MAX);
    }
    Ok(pins)
}

fn views(alloc: Global, head: &[u8], times: u32) -> Result<usize> {
    let mut fields = 0;
    for _ in 0..times {
        fields ^= whole(alloc, head)?.field_count();
    }
    Ok(fields)
}

fn whole(alloc: Global, head: &[u8]) -> Result<View> {
    match view(alloc, head) {
        Viewed::Whole(head, _) => Ok(head),
        _ => bail!("not a head"),
    }
}
