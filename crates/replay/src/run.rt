ghost use Rattle.std.specs.Prelude.{◌≡◌, ◌≢◌, ◌≤◌, ◌++◌, ℕ, List, [], length, drop, Some, None, IfOk, IfErr, OnOk, IsOk, string_bytes};
ghost use Rattle.std.specs.Str.Lines.{lines};
ghost use Rattle.log_entries.specs.declared.refusal.Refusal.TheVariants.{NoMemory};
ghost use Rattle.log_texts.specs.Faults.{fault_behind};
ghost use Rattle.log_texts.specs.Reading.{IsHeader};
ghost use Rattle.log_texts.specs.Steps.{steps_of};
ghost use Rattle.log_texts.specs.ScriptTexts.{StepAnswers, IsScriptText};
ghost use Rattle.log_texts.specs.Traces.{entries_text, refusal_text};

use crate::call::{Call, by_numbers};
use crate::fault::Fault;
use crate::reports::roll;
use dispatch_core::Core;
use due_key::Key;
use log_entries::Refusal;
use log_texts::{Line, Names, Step, is_faulty, push_entries, push_refusal, step_in};
use pend_queue::PendQueue;
use proxy_words::Lines;
use std::alloc::{AllocError, Global};

/// Runs the steps of a script in order, and returns their lines. The first faulty line after the
/// header lines ends the run.
pub(crate) fn run<Q: PendQueue<Key, usize>>(
    alloc: Global,
    core: &mut Core<Q>,
    names: &Names,
    script: &[u8],
    header: usize,
) -> Result<String, Fault>
    requires { IsHeader (lines script.now) header }
    ensures ok { IfOk result (λ text. IsScriptText names.now core.old (steps_of script.now) core.new (string_bytes text)) }
    ensures faultless { OnOk result (fault_behind [] (lines script.now) ≡ None) }
    ensures fault { IfErr result (λ fault. (line : ℕ) → fault ≡ Fault.Script line → fault_behind [] (lines script.now) ≡ Some line) }
    ensures of_script { IfErr result (λ fault. (fault ≢ Fault.Read) × (fault ≢ Fault.Write)) }
{
    let mut text = String::new(alloc);
    let mut number = 0;
    let mut lines = Lines::new(script);
    'lines: while let Some(line) = lines.next() {
        number += 1;
        let kind = Line::of(line);
        let faulty = is_faulty(&kind);
        match step_in(kind) {
            Some(step) => take_step(alloc, core, names, step, &mut text)?,
            None => {
                if header < number && faulty {
                    return Err(Fault::Script { line: number });
                }
            }
        }
    }
    Ok(text)
}

// Runs one step, and appends its lines.
fn take_step<Q: PendQueue<Key, usize>>(
    alloc: Global,
    core: &mut Core<Q>,
    names: &Names,
    step: Step,
    text: &mut String,
) -> Result<(), Fault>
    ensures ok { OnOk result ((front : List ℕ) × StepAnswers names.now core.old core.new step.entry front
        × (string_bytes text.new ≡ string_bytes text.old ++ front)) }
    ensures err { IfErr result (λ fault. fault ≡ Fault.NoMemory) }
{
    let before = core.log().len();
    match by_numbers(names, step) {
        Call::Roll => roll(alloc, core, names, text),
        Call::Arrive {
            moment,
            class,
            offset,
            pin,
        } => {
            let answer = core.arrive(alloc, moment, class, offset, pin);
            tell(core, names, before, answer, text)
        }
        Call::Event(event) => {
            let answer = core.apply(event);
            tell(core, names, before, answer, text)
        }
    }
}

// Writes the lines of an event's answer at the end: of the entries behind so many, or of its refusal.
fn tell<T: Drop, Q: PendQueue<Key, usize>>(
    core: &Core<Q>,
    names: &Names,
    before: usize,
    answer: Result<T, Refusal>,
    text: &mut String,
) -> Result<(), Fault>
    requires { before ≤ length core.now.log }
    ensures accepted { OnOk result (OnOk answer (string_bytes text.new ≡ string_bytes text.old ++ entries_text names.now (drop before core.now.log))) }
    ensures refused { OnOk result (IfErr answer (λ refusal. (refusal ≢ NoMemory) × (string_bytes text.new ≡ string_bytes text.old ++ refusal_text refusal))) }
    ensures err { IfErr result (λ fault. fault ≡ Fault.NoMemory) }
{
    match answer {
        Ok(_) => kept(push_entries(text, names, &core.log().entries()[before..])),
        Err(Refusal::NoMemory) => Err(Fault::NoMemory),
        Err(refusal) => kept(push_refusal(text, refusal)),
    }
}

pub(crate) fn kept(written: Result<(), AllocError>) -> Result<(), Fault>
    ensures ok { OnOk result (IsOk written) }
    ensures err { IfErr result (λ fault. fault ≡ Fault.NoMemory) }
{
    match written {
        Ok(()) => Ok(()),
        Err(_) => Err(Fault::NoMemory),
    }
}
