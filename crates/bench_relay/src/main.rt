//! The program that `bench/relay.sh` times: it hands a message on from one address to another.
//!
//! Its arguments are `forward` or `answer` and two addresses to connect to; without the addresses
//! it hands a small message on from memory to memory.
#![tactic(auto)]

ghost use Rattle.std.specs.Prelude.{◌≡◌, OnOk};
ghost use Rattle.relay_http.specs.States.{IsAtOrFailed, Serves, forwarded_on};

use anyhow::{Result, bail};
use base_verdict::{Ending, Verdict};
use grant_board::{Board, Pass, Taking};
use relay_http::{Exchange, Stage};
use req_view::View;
use std::alloc::Global;
use std::env;
use std::io::{Read, Write};
use std::net::{Net, TcpStream};
use std::thread::Threads;

const TURNS: u64 = 1_000_000_000;

const REQUEST: &[u8] = b"GET / HTTP/1.1\r\nHost: h\r\n\r\n";

const ANSWER: &[u8] = b"HTTP/1.1 200 OK\r\nContent-Length: 2\r\n\r\nab";

fn main(rt: HostRuntime) -> Result<()> {
    let words = env::args(&rt)?.collect::<Vec<String>>(rt.alloc())?;
    hand_on_as(&rt, words.as_slice())
}

fn hand_on_as(
    rt: &(impl Net<Stream = TcpStream> + Print + AllocGlobal + Threads),
    words: &[String],
) -> Result<()> {
    match words {
        [_, what] => println!(rt; "{}", in_memory(rt, what.as_str())?)?,
        [_, what, from, to] => between(rt, what.as_str(), from.as_str(), to.as_str())?,
        _ => bail!("forward or answer, and two addresses"),
    }
    Ok(())
}

// Hands a message on in memory, and returns the number of bytes written.
fn in_memory(rt: &(impl AllocGlobal + Threads), what: &str) -> Result<usize> {
    let alloc = rt.alloc();
    let mut message = if what == "forward" { REQUEST } else { ANSWER };
    let mut written = Vec::new(alloc);
    hand_on(rt, what, &mut message, &mut written)?;
    Ok(written.len())
}

fn between(
    rt: &(impl Net<Stream = TcpStream> + AllocGlobal + Threads),
    what: &str,
    from: &str,
    to: &str,
) -> Result<()> {
    let mut reader = TcpStream::connect(rt, from)?;
    let mut writer = TcpStream::connect(rt, to)?;
    hand_on(rt, what, &mut reader, &mut writer)
}

// Hands a message on under a pass, and posts it.
fn hand_on<R: Read, W: Write>(
    rt: &(impl AllocGlobal + Threads),
    what: &str,
    reader: &mut R,
    writer: &mut W,
) -> Result<()> {
    let alloc = rt.alloc();
    let (board, mut keeper, mut seat) = Board::open(rt, alloc, 1, &[1])?;
    keeper.offer(&board, 0, 1, Verdict::Serve(0));
    match seat.try_take(&board, 0, 1) {
        Taking::Taken(pass) => {
            let done = serve(alloc, &pass, what, reader, writer);
            seat.post(&board, pass, Ending::Done);
            done
        }
        Taking::NotYet => bail!("no pass"),
    }
}

fn serve<R: Read, W: Write>(
    alloc: Global,
    pass: &Pass,
    what: &str,
    reader: &mut R,
    writer: &mut W,
) -> Result<()> {
    let Verdict::Serve(_) = pass.verdict() else {
        return Ok(());
    };
    let mut exchange = Exchange::new(alloc, TURNS)?;
    if what == "forward" {
        forward(alloc, pass, &mut exchange, reader, writer)?;
        return Ok(());
    }
    answer(alloc, pass, &mut exchange, reader, writer)
}

fn answer<R: Read, W: Write>(
    alloc: Global,
    pass: &Pass,
    exchange: &mut Exchange,
    reader: &mut R,
    writer: &mut W,
) -> Result<()>
    requires new { IsAtOrFailed Stage.New exchange.old }
    requires serves { Serves pass.now.verdict }
{
    let view = ask(alloc, pass, exchange)?;
    exchange.answer(alloc, pass, &view, reader, writer)?;
    Ok(())
}

// Hands a small request on into memory.
fn ask(alloc: Global, pass: &Pass, exchange: &mut Exchange) -> Result<View>
    requires new { IsAtOrFailed Stage.New exchange.old }
    requires serves { Serves pass.now.verdict }
    ensures { OnOk result (exchange.new.stage ≡ forwarded_on pass.now) }
{
    let mut request = REQUEST;
    let mut server = Vec::new(alloc);
    forward(alloc, pass, exchange, &mut request, &mut server)
}

fn forward<R: Read, W: Write>(
    alloc: Global,
    pass: &Pass,
    exchange: &mut Exchange,
    reader: &mut R,
    writer: &mut W,
) -> Result<View>
    requires new { IsAtOrFailed Stage.New exchange.old }
    requires serves { Serves pass.now.verdict }
    ensures { OnOk result (exchange.new.stage ≡ forwarded_on pass.now) }
{
    let view = exchange.read_request(alloc, reader)?;
    exchange.forward(pass, &view, reader, writer)?;
    Ok(view)
}
