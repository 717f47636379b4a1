ghost use Rattle.std.specs.Prelude.{◌≡◌, ◌≢◌, ℕ, [], Some, take, IfOk, IfErr, OnOk, string_bytes};
ghost use Rattle.std.specs.Str.Lines.{lines};
ghost use Rattle.log_texts.specs.Faults.{fault_of, fault_behind};
ghost use Rattle.log_texts.specs.Headers.{settings_of};
ghost use Rattle.log_texts.specs.Reading.{IsHeader};
ghost use Rattle.replay.specs.TraceTexts.{AreReplayed};

use crate::defaults::script_setup;
use crate::fault::Fault;
use crate::run::run;
use dispatch_core::Core;
use due_key::Key;
use log_texts::{Header, Names, ScriptError, read};
use pend_queue::PendQueue;
use std::alloc::Global;

/// The result of a script's events.
#[derive(Drop)]
pub struct Replayed<Q: PendQueue<Key, usize>> {
    /// The dispatcher after the last event.
    pub core: Core<Q>,
    /// The names of its servers.
    pub names: Names,
    /// The lines of the events.
    pub text: String,
}

/// Runs the events of a script in order, on a dispatcher with the setup of its header lines, with
/// defaults where they set nothing. The first faulty line ends the run without a result; an event
/// that the dispatcher refuses gets a line that says so.
pub fn replay_events<Q: PendQueue<Key, usize>>(
    alloc: Global,
    script: &[u8],
) -> Result<Replayed<Q>, Fault>
    ensures ok { IfOk result (λ all. AreReplayed script.now all.names all.core (string_bytes all.text)) }
    ensures script { IfErr result (λ fault. (line : ℕ) → fault ≡ Fault.Script line → fault_of script.now ≡ Some line) }
    ensures of_script { IfErr result (λ fault. (fault ≢ Fault.Read) × (fault ≢ Fault.Write)) }
{
    let (header, before) = header_of(alloc, script)?;
    let Ok((setup, names)) = script_setup(alloc, header) else {
        return Err(Fault::NoMemory);
    };
    let Ok(mut core) = Core::<Q>::new(alloc, setup) else {
        return Err(Fault::NoMemory);
    };
    match run(alloc, &mut core, &names, script, before) {
        Ok(text) => Ok(Replayed { core, names, text }),
        Err(fault) => {
            // A call is proved faster than the drops of all parts of a dispatcher.
            drop(core);
            Err(fault)
        }
    }
}

// Reads the header lines of a script, and returns their number too.
fn header_of(alloc: Global, script: &[u8]) -> Result<(Header, usize), Fault>
    ensures short { OnOk result (fault_of script.now ≡ fault_behind [] (lines script.now)) }
    ensures header { IfOk result (λ read. IsHeader (lines script.now) read.1) }
    ensures settings { IfOk result (λ read. read.0 ≡ settings_of (take read.1 (lines script.now))) }
    ensures fault { IfErr result (λ fault. (line : ℕ) → fault ≡ Fault.Script line → fault_of script.now ≡ Some line) }
    ensures of_script { IfErr result (λ fault. (fault ≢ Fault.Read) × (fault ≢ Fault.Write)) }
{
    match read(alloc, script) {
        Ok(read) => Ok(read),
        Err(ScriptError::NoMemory) => Err(Fault::NoMemory),
        Err(ScriptError::Fault { line }) => Err(Fault::Script { line }),
    }
}
