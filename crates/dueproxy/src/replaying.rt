//! `dueproxy replay`.

ghost use Rattle.std.specs.Prelude.{◌≡◌};
ghost use Rattle.replay.specs.Statuses.{status_of};

use crate::inputs::{name_of, open};
use crate::reasons::{say_unopened, say_why, why_of};
use base_advice::Kept;
use config_command::Input;
use replay::{Fault, replay, status_of};
use std::io::{Read, Write};

/// Replays a script to standard output, and returns the exit status.
pub(crate) fn replay_input(rt: &HostRuntime, input: &Input) -> u8 {
    match open(rt, input, "a script") {
        Ok(mut opened) => replay_stream(rt, name_of(input), &mut opened, &mut rt.stdout()),
        Err(error) => say_unopened(rt, name_of(input), error),
    }
}

fn replay_stream<R: Read, W: Write>(
    rt: &(impl Eprint + AllocGlobal),
    name: &str,
    input: &mut R,
    output: &mut W,
) -> u8 {
    let mut kept = Kept::new(rt.alloc(), input);
    let ended = replay(rt.alloc(), &mut kept, output);
    let status = end(rt, ended);
    if let Err(fault) = ended {
        say_why(rt, name, &kept, why_of(fault));
    }
    status
}

// Prints what went wrong, and returns the exit status.
fn end(rt: &impl Eprint, ended: Result<(), Fault>) -> u8
    ensures { result ≡ status_of ended }
{
    if let Err(fault) = ended {
        let _ = rt.eprintln(fault);
    }
    status_of(ended)
}
