ghost use Rattle.std.specs.Prelude.{◌≡◌, ◌+◌, ◌<◌, ◌≤◌, ◌++◌, ◌∷◌, ◌⊎◌, [], ℕ, List, length, take, drop, false, IsTrue, IsFalse};
ghost use Rattle.http_bodies.specs.Parts as coded;
ghost use Rattle.http_bodies.specs.Readings.{Hands, read_parts};
ghost use Rattle.http_bodies.specs.Stops.{LacksRoom, is_whole, is_broken};

use crate::coding::{Coding, Part};
use crate::outbox::{OUTBOX_BYTES, Outbox};
use crate::parts::next;
use crate::texts::put_part;

// Takes a byte, if there is room for its text.
fn step_byte(framed: bool, part: &mut Part, byte: u8, out: &mut Outbox) -> bool
    ensures took { IsTrue result → part.new ≡ coded.next part.old byte }
    ensures told { IsTrue result → out.new ≡ out.old ++ coded.told framed part.old byte }
    ensures kept { IsFalse result → part.new ≡ part.old }
    ensures full { IsFalse result → out.new ≡ out.old }
    ensures room { IsFalse result → OUTBOX_BYTES < length (out.old ++ coded.told framed part.old byte) }
    ensures short { IsFalse result → OUTBOX_BYTES < length out.old + 18 }
{
    if put_part(framed, *part, byte, out) {
        *part = next(*part, byte);
        return true;
    }
    false
}

// Takes data of a chunk, as long as there is room for it.
fn step_data(framed: bool, left: &mut u64, input: &[u8], out: &mut Outbox) -> usize
    ensures within { result ≤ length input.now }
    ensures hands { Hands (Coding.Chunked framed (Part.Data left.old)) (Coding.Chunked framed (Part.Data left.new)) (take result input.now) out.old out.new }
    ensures room { result ≡ 0 → 0 < left.old → 0 < length input.now → LacksRoom (Coding.Chunked framed (Part.Data left.new)) out.new input.now }
    ensures short { result ≡ 0 → 0 < left.old → 0 < length input.now → OUTBOX_BYTES < length out.new + 18 }
{
    let most = input.len().min(out.room());
    let count = (most as u64).min(*left) as usize;
    out.push(&input[..count]);
    *left -= count as u64;
    count
}

fn step_one(framed: bool, part: &mut Part, input: &[u8], out: &mut Outbox) -> usize
    requires some { 0 < length input.now }
    requires going { coded.is_over part.old ≡ false }
    ensures within { result ≤ length input.now }
    ensures hands { Hands (Coding.Chunked framed part.old) (Coding.Chunked framed part.new) (take result input.now) out.old out.new }
    ensures room { result ≡ 0 → LacksRoom (Coding.Chunked framed part.new) out.new input.now }
    ensures short { result ≡ 0 → OUTBOX_BYTES < length out.new + 18 }
{
    if step_byte(framed, part, input[0], out) {
        return 1;
    }
    0
}

// Takes a byte, or data of a chunk, and returns the number of bytes taken: 0 where there is no room.
fn step(framed: bool, part: &mut Part, input: &[u8], out: &mut Outbox) -> usize
    requires some { 0 < length input.now }
    requires going { coded.is_over part.old ≡ false }
    ensures within { result ≤ length input.now }
    ensures hands { Hands (Coding.Chunked framed part.old) (Coding.Chunked framed part.new) (take result input.now) out.old out.new }
    ensures room { result ≡ 0 → LacksRoom (Coding.Chunked framed part.new) out.new input.now }
    ensures short { result ≡ 0 → OUTBOX_BYTES < length out.new + 18 }
{
    match *part {
        Part::Data(left) if left > 0 => {
            let mut rest = left;
            let count = step_data(framed, &mut rest, input, out);
            *part = Part::Data(rest);
            count
        }
        _ => step_one(framed, part, input, out),
    }
}

fn is_over(part: &Part) -> bool
    ensures { result ≡ coded.is_over part.now }
{
    match part {
        Part::Digits(_, _) => false,
        Part::Blank(_, _) => false,
        Part::Extension(_, _) => false,
        Part::Return(_) => false,
        Part::Data(_) => false,
        Part::DataReturn => false,
        Part::Trailers(_, _) => false,
        Part::Done => true,
        Part::Bad => true,
    }
}

// Takes bytes of a chunked body, as long as there is room for their text.
pub(crate) fn feed_chunked(framed: bool, part: &mut Part, input: &[u8], out: &mut Outbox) -> usize
    ensures within { result ≤ length input.now }
    ensures hands { Hands (Coding.Chunked framed part.old) (Coding.Chunked framed part.new) (take result input.now) out.old out.new }
    ensures room { is_whole part.new ≡ false → is_broken part.new ≡ false → (result ≡ length input.now) ⊎ LacksRoom (Coding.Chunked framed part.new) out.new (drop result input.now) }
    ensures all { length out.new + 18 ≤ OUTBOX_BYTES → is_whole part.new ≡ false → is_broken part.new ≡ false → result ≡ length input.now }
{
    let mut used = 0;
    'taking: while used < input.len() && !is_over(part) {
        let count = step(framed, part, &input[used..], out);
        if count == 0 {
            return used;
        }
        used += count;
    }
    used
}

// Returns the state after all of these bytes.
pub(crate) fn after_all(framed: bool, part: Part, input: &[u8]) -> Part
    ensures { (read_parts framed part input.now).coding ≡ Coding.Chunked framed result }
{
    let mut at = part;
    'reading: for index in 0..input.len() {
        at = next(at, input[index]);
    }
    at
}
