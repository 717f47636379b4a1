//! The program whose output `bench/exchanges.py` compares with a model of its own: exchanges on
//! streams that follow a script.
//!
//! It reads scripts from standard input and prints the outcome of each. A script begins with a line
//! `exchange` and its terms, each further line is a move, and a line `end` ends it.
#![tactic(auto)]

mod playing;
mod record;
mod script;
mod sides;
mod site;
mod texts;
mod visits;

use anyhow::{Result, bail};
use proxy_words::{Lines, Words};
use script::Script;
use std::alloc::Global;
use std::io::{BufWriter, Read, Write};
use std::thread::Threads;
use std::{io, mem};
use visits::played;

fn main(rt: HostRuntime) -> Result<()> {
    let mut input = Vec::new(rt.alloc());
    rt.stdin().read_to_end(&mut input)?;
    let mut output = BufWriter::new(rt.alloc(), io::writer(&rt))?;
    play_all(&rt, input.as_slice(), &mut output)?;
    output.flush()?;
    Ok(())
}

fn play_all<W: Write>(
    rt: &(impl AllocGlobal + Threads),
    input: &[u8],
    output: &mut W,
) -> Result<()> {
    let alloc = rt.alloc();
    let mut script = Script::new(alloc);
    for line in Lines::new(input) {
        let mut words = Words::new(line);
        let is_one = match words.next() {
            None => true,
            Some(b"exchange") => {
                script = Script::new(alloc);
                script.set_terms(words)
            }
            Some(b"end") => {
                let whole = mem::replace(&mut script, Script::new(alloc));
                print(rt, whole, output)?;
                true
            }
            Some(_) => script.add(alloc, line)?,
        };
        if !is_one {
            bail!("no line of a script");
        }
    }
    Ok(())
}

// Plays a script and prints its outcome.
fn print<W: Write>(
    rt: &(impl AllocGlobal + Threads),
    script: Script,
    output: &mut W,
) -> Result<()> {
    let alloc = rt.alloc();
    let record = played(rt, alloc, script)?;
    let mut text = Vec::new(alloc);
    record.add_to(alloc, &mut text)?;
    output.write_all(text.as_slice())?;
    Ok(())
}
