//! `dueproxy draw` and `dueproxy explain`.

use crate::inputs::{name_of, open};
use crate::reasons::{say_unopened, say_why, why_of_input};
use base_advice::Kept;
use config_command::{DrawnQueue, Input};
use std::io::{Read, Write};
use view_files::{DrawFault, InputFault, StoryFault, draw, waits_in, write_story};

/// The exit status for arguments that ask for something that isn't there.
const USAGE: u8 = 2;

/// Draws a script or a trace to standard output, and returns the exit status.
pub(crate) fn draw_input(rt: &HostRuntime, input: &Input, only: &Option<DrawnQueue>) -> u8 {
    match open(rt, input, "a script or a trace") {
        Ok(mut opened) => draw_stream(rt, name_of(input), &mut opened, &mut rt.stdout(), only),
        Err(error) => say_unopened(rt, name_of(input), error),
    }
}

fn draw_stream<R: Read, W: Write>(
    rt: &(impl Eprint + AllocGlobal),
    name: &str,
    input: &mut R,
    output: &mut W,
    only: &Option<DrawnQueue>,
) -> u8 {
    let mut kept = Kept::new(rt.alloc(), input);
    let Err(fault) = draw(rt.alloc(), &mut kept, output, only) else {
        return 0;
    };
    let _ = rt.eprintln(fault);
    match fault {
        DrawFault::Input(fault) => end(rt, name, &kept, fault),
        DrawFault::NoQueue | DrawFault::NoClass => {
            say_what_is_there(rt, kept.seen().unwrap_or(b"".as_slice()));
            USAGE
        }
    }
}

// Prints the queues and classes of which this input allows a picture.
fn say_what_is_there(rt: &(impl Eprint + AllocGlobal), input: &[u8]) {
    let mut rest = input;
    let Ok(waits) = waits_in(rt.alloc(), &mut rest) else {
        return;
    };
    let _ = if waits.is_empty() {
        rt.eprintln("  No request waits in a queue.")
    } else {
        eprintln!(rt; "  Requests wait in these queues, by their classes: {waits}")
    };
}

/// Tells the story of a ticket of a script or a trace on standard output, and returns the exit status.
pub(crate) fn tell_input(rt: &HostRuntime, input: &Input, ticket: u64) -> u8 {
    match open(rt, input, "a script or a trace") {
        Ok(mut opened) => tell_stream(rt, name_of(input), &mut opened, &mut rt.stdout(), ticket),
        Err(error) => say_unopened(rt, name_of(input), error),
    }
}

fn tell_stream<R: Read, W: Write>(
    rt: &(impl Eprint + AllocGlobal),
    name: &str,
    input: &mut R,
    output: &mut W,
    ticket: u64,
) -> u8 {
    let mut kept = Kept::new(rt.alloc(), input);
    let Err(fault) = write_story(rt.alloc(), &mut kept, output, ticket) else {
        return 0;
    };
    let _ = rt.eprintln(fault);
    match fault {
        StoryFault::Input(fault) => end(rt, name, &kept, fault),
        StoryFault::NoTicket => USAGE,
    }
}

// Prints further advice on a fault of the input, and returns the exit status.
fn end<R: Read>(
    rt: &(impl Eprint + AllocGlobal),
    name: &str,
    kept: &Kept<'_, R>,
    fault: InputFault,
) -> u8 {
    say_why(rt, name, kept, why_of_input(fault));
    fault.status()
}
