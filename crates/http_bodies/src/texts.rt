ghost use Rattle.std.specs.Prelude.{◌≡◌, ◌+◌, ◌<◌, ◌++◌, ◌∷◌, [], length, true, IsTrue, IsFalse};
ghost use Rattle.http_bodies.specs.Bodies.{last_text};
ghost use Rattle.http_bodies.specs.Chunks.{size_text, end_text};
ghost use Rattle.http_bodies.specs.Parts.{told, feed_text};

use crate::coding::{Line, Part};
use crate::outbox::{OUTBOX_BYTES, Outbox};
use http1::encode::Encoder;

// Appends the bytes, if there is room for all of them.
fn put(out: &mut Outbox, bytes: &[u8]) -> bool
    ensures fits { IsTrue result → out.new ≡ out.old ++ bytes.now }
    ensures full { IsFalse result → out.new ≡ out.old }
    ensures room { IsFalse result → OUTBOX_BYTES < length (out.old ++ bytes.now) }
{
    if out.room() < bytes.len() {
        return false;
    }
    out.push(bytes);
    true
}

fn put_size(framed: bool, size: u64, out: &mut Outbox) -> bool
    requires { 0 < size }
    ensures fits { IsTrue result → out.new ≡ out.old ++ size_text framed size }
    ensures full { IsFalse result → out.new ≡ out.old }
    ensures room { IsFalse result → OUTBOX_BYTES < length (out.old ++ size_text framed size) }
    ensures short { IsFalse result → OUTBOX_BYTES < length out.old + 18 }
{
    if !framed {
        return true;
    }
    let mut encoder = Encoder::Chunked;
    let Ok(frame) = encoder.frame(size as usize) else {
        unreachable!()
    };
    put(out, frame.prefix())
}

fn put_end(framed: bool, out: &mut Outbox) -> bool
    ensures fits { IsTrue result → out.new ≡ out.old ++ end_text framed }
    ensures full { IsFalse result → out.new ≡ out.old }
    ensures room { IsFalse result → OUTBOX_BYTES < length (out.old ++ end_text framed) }
    ensures short { IsFalse result → OUTBOX_BYTES < length out.old + 18 }
{
    if !framed {
        return true;
    }
    put(out, b"\r\n")
}

fn put_last(framed: bool, out: &mut Outbox) -> bool
    ensures fits { IsTrue result → out.new ≡ out.old ++ last_text framed }
    ensures full { IsFalse result → out.new ≡ out.old }
    ensures room { IsFalse result → OUTBOX_BYTES < length (out.old ++ last_text framed) }
    ensures short { IsFalse result → OUTBOX_BYTES < length out.old + 18 }
{
    if !framed {
        return true;
    }
    put(out, b"0\r\n\r\n")
}

fn put_feed(framed: bool, line: Line, out: &mut Outbox) -> bool
    ensures fits { IsTrue result → out.new ≡ out.old ++ feed_text framed line }
    ensures full { IsFalse result → out.new ≡ out.old }
    ensures room { IsFalse result → OUTBOX_BYTES < length (out.old ++ feed_text framed line) }
    ensures short { IsFalse result → OUTBOX_BYTES < length out.old + 18 }
{
    match line {
        Line::Fresh => put_last(framed, out),
        Line::Returned => put_last(framed, out),
        Line::Written => true,
    }
}

fn tell_line(framed: bool, size: u64, byte: u8, out: &mut Outbox) -> bool
    ensures fits { IsTrue result → out.new ≡ out.old ++ told framed (Part.Return size) byte }
    ensures full { IsFalse result → out.new ≡ out.old }
    ensures room { IsFalse result → OUTBOX_BYTES < length (out.old ++ told framed (Part.Return size) byte) }
    ensures short { IsFalse result → OUTBOX_BYTES < length out.old + 18 }
{
    if byte == b'\n' {
        if size == 0 {
            return true;
        }
        return put_size(framed, size, out);
    }
    true
}

fn tell_data(left: u64, byte: u8, out: &mut Outbox) -> bool
    ensures fits { IsTrue result → out.new ≡ out.old ++ told true (Part.Data left) byte }
    ensures full { IsFalse result → out.new ≡ out.old }
    ensures room { IsFalse result → OUTBOX_BYTES < length (out.old ++ told true (Part.Data left) byte) }
    ensures short { IsFalse result → OUTBOX_BYTES < length out.old + 18 }
{
    if left == 0 {
        return true;
    }
    put(out, [byte].as_slice())
}

fn tell_end(framed: bool, byte: u8, out: &mut Outbox) -> bool
    ensures fits { IsTrue result → out.new ≡ out.old ++ told framed Part.DataReturn byte }
    ensures full { IsFalse result → out.new ≡ out.old }
    ensures room { IsFalse result → OUTBOX_BYTES < length (out.old ++ told framed Part.DataReturn byte) }
    ensures short { IsFalse result → OUTBOX_BYTES < length out.old + 18 }
{
    if byte == b'\n' {
        return put_end(framed, out);
    }
    true
}

fn tell_trailer(framed: bool, left: u64, line: Line, byte: u8, out: &mut Outbox) -> bool
    ensures fits { IsTrue result → out.new ≡ out.old ++ told framed (Part.Trailers left line) byte }
    ensures full { IsFalse result → out.new ≡ out.old }
    ensures room { IsFalse result → OUTBOX_BYTES < length (out.old ++ told framed (Part.Trailers left line) byte) }
    ensures short { IsFalse result → OUTBOX_BYTES < length out.old + 18 }
{
    if left == 0 {
        return true;
    }
    if byte == b'\n' {
        return put_feed(framed, line, out);
    }
    true
}

// Appends the text of a byte, if there is room for all of it.
pub(crate) fn put_part(framed: bool, part: Part, byte: u8, out: &mut Outbox) -> bool
    ensures fits { IsTrue result → out.new ≡ out.old ++ told framed part byte }
    ensures full { IsFalse result → out.new ≡ out.old }
    ensures room { IsFalse result → OUTBOX_BYTES < length (out.old ++ told framed part byte) }
    ensures short { IsFalse result → OUTBOX_BYTES < length out.old + 18 }
{
    match part {
        Part::Digits(_, _) => true,
        Part::Blank(_, _) => true,
        Part::Extension(_, _) => true,
        Part::Return(size) => tell_line(framed, size, byte, out),
        Part::Data(left) => tell_data(left, byte, out),
        Part::DataReturn => tell_end(framed, byte, out),
        Part::Trailers(left, line) => tell_trailer(framed, left, line, byte, out),
        Part::Done => true,
        Part::Bad => true,
    }
}
