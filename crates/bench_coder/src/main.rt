//! The program that `bench/coder.sh` times: it codes bodies from memory to memory.
//!
//! Its arguments are a size and the number of rounds. With size 0 the body has 1 MiB and a length;
//! with another size it is the same body in chunks of that size.
#![tactic(auto)]

ghost use Rattle.std.specs.Prelude.{◌<◌};

use anyhow::{Result, bail};
use http_bodies::{Coding, Framing, Outbox, State};
use std::alloc::{AllocError, Global};
use std::env;

const BODY_BYTES: usize = 1 << 20;

const PIECE_BYTES: usize = 65_536;

fn main(rt: HostRuntime) -> Result<()> {
    let words = env::args(&rt)?.collect::<Vec<String>>(rt.alloc())?;
    match words.as_slice() {
        [_, size, times] => {
            let body = body_of(rt.alloc(), size.as_str().parse::<usize>()?)?;
            let times = times.as_str().parse::<u32>()?;
            let given = run(rt.alloc(), &body, times)?;
            println!(rt; "{given}")?;
            Ok(())
        }
        _ => bail!("a size, and how often"),
    }
}

// A body and its framing.
#[derive(Drop)]
struct Body {
    bytes: Vec<u8>,
    framing: Framing,
}

fn body_of(alloc: Global, size: usize) -> Result<Body, AllocError> {
    if size == 0 {
        return Ok(Body {
            bytes: vec![in alloc; b'x'; BODY_BYTES]?,
            framing: Framing::Length(BODY_BYTES as u64),
        });
    }
    let mut bytes = Vec::new(alloc);
    let chunk = vec![in alloc; b'x'; size.min(BODY_BYTES)]?;
    let head = format!(in alloc; "{:x}\r\n", chunk.len())?;
    for _ in 0..BODY_BYTES / size {
        bytes.extend_from_slice(head.as_bytes())?;
        bytes.extend_from_slice(chunk.as_slice())?;
        bytes.extend_from_slice(b"\r\n")?;
    }
    bytes.extend_from_slice(b"0\r\n\r\n")?;
    Ok(Body {
        bytes,
        framing: Framing::Chunked,
    })
}

// Codes the body this many times, and returns the number of bytes written.
fn run(alloc: Global, body: &Body, times: u32) -> Result<u64, AllocError> {
    let mut out = Outbox::new(alloc)?;
    let mut given = 0u64;
    for _ in 0..times {
        let mut coding = Coding::new(body.framing, true);
        for piece in body.bytes.as_slice().chunks(PIECE_BYTES) {
            given = given.wrapping_add(pass(&mut coding, piece, &mut out));
        }
    }
    Ok(given)
}

// Codes the whole body once, and counts its output as sent at once.
fn pass(coding: &mut Coding, input: &[u8], out: &mut Outbox) -> u64 {
    let mut rest = input;
    let mut given = 0u64;
    for _ in 0..PIECE_BYTES {
        let fed = coding.feed(rest, out);
        rest = &rest[fed.used..];
        let count = out.as_slice().len();
        given = given.wrapping_add(count as u64);
        out.sent(count);
        if fed.state != State::Full {
            return given;
        }
    }
    given
}
