ghost use Rattle.std.specs.Prelude.{◌≡◌, ◌+◌, ◌^◌, ◌<◌, ◌≤◌, ◌++◌, [], length, take, OnOk, OnErr, IfOk, IfErr};
ghost use Rattle.http_bodies.specs.declared.outbox.TheConstants.{OUTBOX_BYTES};
ghost use Rattle.http_bodies.specs.Texts.{Emits, Remains, Stops, WaitsBehind};

use crate::fault::Fault;
use crate::outbox::Outbox;
use base_streams::Sink;

/// Writes the whole text, in as few writes as the sink allows.
pub(crate) fn write_text<K: Sink>(turns: &mut u64, sink: &mut K, text: &[u8]) -> Result<(), Fault>
    requires { (K.stream sink.old).calls + turns.old < 2 ^ 64 }
    ensures ok { OnOk result (Emits (K.stream sink.old) (K.stream sink.new) turns.old turns.new [] [] text.now) }
    ensures err { IfErr result (Stops (K.stream sink.old) (K.stream sink.new) turns.old turns.new text.now) }
    ensures some { OnErr result (0 < length text.now) }
{
    let mut rest = text;
    'writing: while !rest.is_empty() {
        let count = write_once(turns, sink, rest)?;
        rest = &rest[count..];
    }
    Ok(())
}

fn write_once<K: Sink>(turns: &mut u64, sink: &mut K, text: &[u8]) -> Result<usize, Fault>
    requires some { 0 < length text.now }
    requires countable { (K.stream sink.old).calls + turns.old < 2 ^ 64 }
    ensures bound { IfOk result (λ count. (0 < count) × (count ≤ length text.now)) }
    ensures ok { IfOk result (λ count. Emits (K.stream sink.old) (K.stream sink.new) turns.old turns.new [] [] (take count text.now)) }
    ensures err { IfErr result (Stops (K.stream sink.old) (K.stream sink.new) turns.old turns.new text.now) }
{
    if *turns == 0 {
        return Err(Fault::Turns);
    }
    *turns -= 1;
    match sink.put(text) {
        Ok(count) => Ok(count),
        Err(_) => Err(Fault::Write),
    }
}

/// Keeps the bytes until more come where they fit; otherwise writes them directly from where they are.
pub(crate) fn emit<K: Sink>(
    outbox: &mut Outbox,
    turns: &mut u64,
    sink: &mut K,
    bytes: &[u8],
) -> Result<(), Fault>
    requires { (K.stream sink.old).calls + turns.old < 2 ^ 64 }
    ensures ok { OnOk result (Emits (K.stream sink.old) (K.stream sink.new) turns.old turns.new outbox.old outbox.new bytes.now) }
    ensures late { OnOk result (WaitsBehind (K.stream sink.old) (K.stream sink.new) outbox.old outbox.new bytes.now) }
    ensures beyond { OnOk result (OUTBOX_BYTES < length (outbox.old ++ bytes.now) → outbox.new ≡ []) }
    ensures full { OnErr result (OUTBOX_BYTES < length (outbox.old ++ bytes.now)) }
    ensures err { IfErr result (λ fault. (stop : Stops (K.stream sink.old) (K.stream sink.new) turns.old turns.new (outbox.old ++ bytes.now) fault)
        × Remains stop.front.front outbox.old outbox.new) }
{
    if bytes.len() <= outbox.room() {
        outbox.push(bytes);
        return Ok(());
    }
    flush(outbox, turns, sink)?;
    write_text(turns, sink, bytes)?;
    Ok(())
}

/// Writes all that waits.
pub(crate) fn flush<K: Sink>(
    outbox: &mut Outbox,
    turns: &mut u64,
    sink: &mut K,
) -> Result<(), Fault>
    requires { (K.stream sink.old).calls + turns.old < 2 ^ 64 }
    ensures ok { OnOk result (Emits (K.stream sink.old) (K.stream sink.new) turns.old turns.new outbox.old outbox.new []) }
    ensures empty { OnOk result (outbox.new ≡ []) }
    ensures waiting { OnErr result (outbox.new ≡ outbox.old) }
    ensures some { OnErr result (0 < length outbox.old) }
    ensures err { IfErr result (Stops (K.stream sink.old) (K.stream sink.new) turns.old turns.new outbox.old) }
{
    write_text(turns, sink, outbox.as_slice())?;
    outbox.keep_front(0);
    Ok(())
}
