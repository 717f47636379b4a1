ghost use Rattle.std.specs.Prelude.{◌≡◌, ◌≢◌, ℕ, List, ◌+◌, ◌<◌, ◌≤◌, length, Err, IfOk, IfErr, IfSome, OnOk, vec_len};
ghost use Rattle.std.specs.Io.KnownBytes.{Appends, Consumes, IsAtEnd};
ghost use Rattle.replay.specs.Transfers.{WritesFront, read_failures, write_failures};

use crate::fault::Fault;
use crate::reads::Reads;
use base_streams::{Sink, Source};
use log_texts::MOST_BYTES;
use std::alloc::Global;

/// The most reads of a script: as many as it takes to read one byte too many, one byte at a time.
pub const MOST_READS: usize = 4_194_305;

const PIECE: usize = 65_536;

/// Reads to the end, unless a script has too many bytes.
pub(crate) fn read_whole<S: Source>(alloc: Global, source: &mut S) -> Result<Vec<u8>, Fault>
    requires fresh { (S.stream source.old).calls ≡ 0 }
    ensures read { IfOk result (λ all. Consumes (S.stream source.old).bytes (S.stream source.new).bytes all.items) }
    ensures to_the_end { OnOk result (IsAtEnd (S.stream source.new).bytes) }

    // Each read but the last returned a byte.
    ensures each { IfOk result (λ all. (S.stream source.new).calls ≤ vec_len all + 1) }
    ensures short { IfOk result (λ all. vec_len all ≤ MOST_BYTES) }
    ensures too_long { IfErr result (λ fault. (line : ℕ) → fault ≡ Fault.Script line
        → (line ≡ 0) × IfSome (S.stream source.old).bytes (λ script. MOST_BYTES < length script)) }

    // A read failed while the script wasn't too long yet.
    ensures early { result ≡ Err Fault.Read → (taken : List ℕ) × Consumes (S.stream source.old).bytes (S.stream source.new).bytes taken × (length taken ≤ MOST_BYTES) }
    ensures of_reading { IfErr result (λ fault. fault ≢ Fault.Write) }
    ensures failed { (S.stream source.new).failures ≡ (S.stream source.old).failures + read_failures result }
    ensures few { (S.stream source.new).calls ≤ 4194305 }
    ensures same { (S.stream source.new).name ≡ (S.stream source.old).name }
{
    let mut all = Vec::new(alloc);
    let mut piece = [0u8; PIECE];
    let mut reads = Reads::new(source);
    'reading: for turn in 0..MOST_READS {
        let Ok(read) = reads.take(source, &mut piece) else {
            return Err(Fault::Read);
        };
        if read == 0 {
            return Ok(all);
        }
        if all.extend_from_slice(&piece[..read]).is_err() {
            return Err(Fault::NoMemory);
        }
        if MOST_BYTES < all.len() {
            return Err(Fault::Script { line: 0 });
        }
    }
    unreachable!()
}

/// Writes the text, in at most as many writes as it has bytes.
pub(crate) fn write_whole<K: Sink>(sink: &mut K, text: &[u8]) -> Result<(), Fault>
    requires fresh { (K.stream sink.old).calls ≡ 0 }
    ensures ok { OnOk result (Appends (K.stream sink.old).bytes (K.stream sink.new).bytes text.now) }
    ensures err { IfErr result (λ fault. (fault ≡ Fault.Write) × WritesFront (K.stream sink.old).bytes (K.stream sink.new).bytes text.now) }
    ensures failed { (K.stream sink.new).failures ≡ (K.stream sink.old).failures + write_failures result }
    ensures few { (K.stream sink.new).calls ≤ length text.now }
    ensures same { (K.stream sink.new).name ≡ (K.stream sink.old).name }
{
    let mut at = 0;
    'writing: for turn in 0..text.len() {
        if at == text.len() {
            return Ok(());
        }
        let Ok(count) = sink.put(&text[at..]) else {
            return Err(Fault::Write);
        };
        at += count;
    }
    Ok(())
}
