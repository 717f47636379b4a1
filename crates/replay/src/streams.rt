ghost use Rattle.std.specs.Prelude.{◌≡◌, ◌≢◌, ℕ, ◌+◌, ◌≤◌, Some, None, Err, IfOk, IfErr, IfSome, OnOk, OnErr, string_bytes, length};
ghost use Rattle.std.specs.Io.KnownBytes.{IsAtEnd, Keeps};
ghost use Rattle.log_texts.specs.Faults.{fault_of};
ghost use Rattle.replay.specs.Transfers.{read_failures, write_failures};
ghost use Rattle.replay.specs.Replays.{WritesTrace, WritesFrontOfTrace, AreFewWrites};
ghost use Rattle.replay.specs.TraceTexts.{IsTraceOf};

use crate::events::{Replayed, replay_events};
use crate::fault::Fault;
use crate::reports::report;
use crate::transfers::{read_whole, write_whole};
use base_streams::{Counted, Sink, Source};
use binom_queue::BinomQueue;
use due_key::Key;
use pend_queue::PendQueue;
use std::alloc::Global;
use std::io::{Read, Write};

/// Reads a script to its end, runs its events in order, and writes their trace and the reports of its log.
///
/// It makes at most 4,194,305 reads, of which each but the last returns at least one byte, and at
/// most as many writes as the trace has bytes. Nothing is written before the whole script was read
/// and run. The writer isn't flushed. For readers and writers whose bytes aren't known, such as the
/// standard streams, these clauses say nothing; `replay_between` has those on the calls.
pub fn replay<R: Read, W: Write>(alloc: Global, reader: &mut R, writer: &mut W) -> Result<(), Fault>
    ensures read { OnOk result (IsAtEnd (R.remaining reader.new)) }
    ensures ok { OnOk result (IfSome (R.remaining reader.old) (λ script. WritesTrace script (W.contents writer.old) (W.contents writer.new))) }

    // The fault is the script's first one, and nothing is written except where a write failed.
    ensures script { IfErr result (λ fault. (line : ℕ) → fault ≡ Fault.Script line
        → IfSome (R.remaining reader.old) (λ script. fault_of script ≡ Some line)) }
    ensures write { result ≡ Err Fault.Write
        → IfSome (R.remaining reader.old) (λ script. WritesFrontOfTrace script (W.contents writer.old) (W.contents writer.new)) }
    ensures nothing { result ≢ Err Fault.Write → OnErr result (Keeps (W.contents writer.old) (W.contents writer.new)) }
{
    let mut source = Counted::new(reader);
    let mut sink = Counted::new(writer);
    replay_between(alloc, &mut source, &mut sink)
}

/// `replay` from a source to a sink that count, on which no call was made before. A read failed
/// exactly where the fault is `Read`, and a write exactly where it is `Write`.
pub fn replay_between<S: Source, K: Sink>(
    alloc: Global,
    source: &mut S,
    sink: &mut K,
) -> Result<(), Fault>
    requires unread { (S.stream source.old).calls ≡ 0 }
    requires unwritten { (K.stream sink.old).calls ≡ 0 }
    ensures read { OnOk result (IsAtEnd (S.stream source.new).bytes) }
    ensures ok { OnOk result (IfSome (S.stream source.old).bytes (λ script. WritesTrace script (K.stream sink.old).bytes (K.stream sink.new).bytes)) }
    ensures script { IfErr result (λ fault. (line : ℕ) → fault ≡ Fault.Script line
        → IfSome (S.stream source.old).bytes (λ script. fault_of script ≡ Some line)) }
    ensures write { result ≡ Err Fault.Write
        → IfSome (S.stream source.old).bytes (λ script. WritesFrontOfTrace script (K.stream sink.old).bytes (K.stream sink.new).bytes) }
    ensures nothing { result ≢ Err Fault.Write → OnErr result (Keeps (K.stream sink.old).bytes (K.stream sink.new).bytes) }
    ensures read_failed { (S.stream source.new).failures ≡ (S.stream source.old).failures + read_failures result }
    ensures write_failed { (K.stream sink.new).failures ≡ (K.stream sink.old).failures + write_failures result }
    ensures few_reads { (S.stream source.new).calls ≤ 4194305 }
    ensures each_read { OnOk result (IfSome (S.stream source.old).bytes (λ script. (S.stream source.new).calls ≤ length script + 1)) }
    ensures few_writes { IfSome (S.stream source.old).bytes (λ script. AreFewWrites script (K.stream sink.new).calls) }
    ensures same_source { (S.stream source.new).name ≡ (S.stream source.old).name }
    ensures same_sink { (K.stream sink.new).name ≡ (K.stream sink.old).name }
{
    let script = read_whole(alloc, source)?;
    let trace = trace_of::<BinomQueue<Key, usize>>(alloc, &script)?;
    write_whole(sink, trace.as_bytes())
}

/// Returns the trace of a script and its reports, by a dispatcher over this kind of queue.
pub fn trace_of<Q: PendQueue<Key, usize>>(alloc: Global, script: &[u8]) -> Result<String, Fault>
    ensures faultless { OnOk result (fault_of script.now ≡ None) }
    ensures ok { IfOk result (λ trace. IsTraceOf script.now (string_bytes trace)) }
    ensures fault { IfErr result (λ fault. (line : ℕ) → fault ≡ Fault.Script line → fault_of script.now ≡ Some line) }
    ensures of_script { IfErr result (λ fault. fault ≢ Fault.Write) }
    ensures not_of_reading { IfErr result (λ fault. fault ≢ Fault.Read) }
{
    let Replayed {
        core,
        names,
        mut text,
    } = replay_events::<Q>(alloc, script)?;
    let done = report(alloc, &core, &names, &mut text);
    // A call is proved faster than the drops of all parts of a dispatcher.
    drop(core);
    drop(names);
    done?;
    Ok(text)
}
