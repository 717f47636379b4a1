ghost use Rattle.std.specs.Prelude.{◌<◌};

use http_bodies::{Coding, Framing, Outbox, State};
use std::alloc::{AllocError, Global};
use std::test::Fail;

// chunks (RFC 9112, section 7.1) with an extension, with blanks and a trailer, and bytes after them
const INPUT: &[u8] = b"5;x=1\r\nhello\r\n00A \t\r\n0123456789\r\n0\r\nA: b\r\n\r\nnext";

const TEXT: &[u8] = b"5\r\nhello\r\na\r\n0123456789\r\n0\r\n\r\n";

// Returns the text for the input in pieces of this size, the number of bytes that were taken, and
// whether the body is whole.
fn given(
    alloc: Global,
    framed: bool,
    input: &[u8],
    piece: usize,
) -> Result<(Vec<u8>, usize, bool), AllocError>
    requires { 0 < piece }
{
    let mut coding = Coding::new(Framing::Chunked, framed);
    let mut out = Outbox::new(alloc)?;
    let mut text = Vec::new(alloc);
    let mut taken = 0usize;
    let mut done = false;
    for part in input.chunks(piece) {
        if !done {
            let fed = coding.feed(part, &mut out);
            taken = taken.wrapping_add(fed.used);
            done = fed.state == State::Done;
            text.extend_from_slice(out.as_slice())?;
            let count = out.as_slice().len();
            out.sent(count);
        }
    }
    Ok((text, taken, done))
}

#[test]
fn a_body_cut_anyhow_is_the_same(rt: HostRuntime) -> Result<(), Fail> {
    for piece in 1..60usize {
        let (text, taken, done) = given(rt.alloc(), true, INPUT, piece)?;
        assert_eq!(rt; text.as_slice(), TEXT);
        assert_eq!(rt; taken, INPUT.len() - 4);
        assert!(rt; done);
    }
    Ok(())
}

#[test]
fn an_old_client_gets_data_alone(rt: HostRuntime) -> Result<(), Fail> {
    let (text, _, done) = given(rt.alloc(), false, INPUT, 3)?;
    assert_eq!(rt; text.as_slice(), b"hello0123456789".as_slice());
    assert!(rt; done);
    Ok(())
}

#[test]
fn bad_lines_are_told(rt: HostRuntime) -> Result<(), Fail> {
    let mut out = Outbox::new(rt.alloc())?;
    for bad in [
        b"x\r\n".as_slice(),
        b"\r\n",
        b"5\n",
        b"5 x\r\n",
        b"11111111111111111\r\n",
        b"1\r\naXY",
    ] {
        let mut coding = Coding::new(Framing::Chunked, true);
        assert!(rt; coding.breaks(bad));
        let fed = coding.feed(bad, &mut out);
        assert_eq!(rt; fed.state, State::Bad);
    }
    Ok(())
}
