//! `dueproxy run`: a proxy as the command line asks for it.

use crate::admin::admin_of;
use crate::controls::{controls_of, end_controls};
use crate::logs::logs_of;
use crate::reasons::say_unopened;
use config_command::{AdminWords, ControlWords, LogWords, RANGES, RunNumbers, ServiceWords};
use config_files::{read_file, say_address_reason, say_faults};
use run_parts::RunLimits;
use run_service::{RunFault, RunOptions, ServeFault, run, status_of};
use std::io::Error;
use std::net::{Net, TcpListener, TcpStream};
use std::rt::Files;
use std::sync::Wait;
use std::thread::Threads;
use std::time::Clock;

/// Serves as the file with this name says, with these sizes, and returns the exit status: 2 where a
/// number is out of its range.
pub(crate) fn serve_file<
    R: Files
        + Net<Listener = TcpListener, Stream = TcpStream>
        + Clock
        + Print
        + Eprint
        + AllocGlobal
        + Threads
        + Wait
        + Sync
        + Copy
        + Send
        + 'static,
>(host: HostRuntime, rt: &R, file: &str, numbers: RunNumbers, beside: ServiceWords) -> u8 {
    let Some(sizes) = sizes_of(numbers) else {
        let _ = rt.eprintln(RANGES);
        return 2;
    };
    let bytes = match read_file(rt, file) {
        Ok(bytes) => bytes,
        Err(error) => return say_unopened(rt, file, error),
    };
    let ServiceWords {
        controls: words,
        logs,
        admin,
    } = beside;
    let options = match options_of(host, rt, numbers, (&words, logs, &admin)) {
        Ok(options) => options,
        Err(status) => return status,
    };
    let ended = run(rt, &bytes, options, sizes).map(|_asked| ());
    end_controls(rt, &words);
    if let Err(fault) = ended {
        say(rt, &bytes, fault);
    }
    status_of(ended)
}

fn sizes_of(numbers: RunNumbers) -> Option<RunLimits> {
    RunLimits::new(
        numbers.workers,
        numbers.loops,
        numbers.waiting,
        numbers.places,
        numbers.requests,
    )
}

// Makes the parts of the proxy beside its configuration. Where one can't be made, prints why and
// returns the exit status. The control socket is made last, since its file has to be removed
// afterwards.
fn options_of<
    R: Files
        + Net<Listener = TcpListener, Stream = TcpStream>
        + Eprint
        + AllocGlobal
        + Threads
        + Wait
        + Copy
        + Send
        + 'static,
>(
    host: HostRuntime,
    rt: &R,
    numbers: RunNumbers,
    words: (&ControlWords, LogWords, &AdminWords),
) -> Result<RunOptions, u8> {
    let (controls, logs, admin) = words;
    let admin = admin_of(rt, admin)?;
    let logs = logs_of(host, rt, logs)?;
    Ok(RunOptions {
        keeping: numbers.keeping.map(u64::from),
        reusing: numbers.reusing.map(u64::from),
        window: numbers.window.map(u64::from),
        forwarded_for: numbers.forwarded_for,
        controls: controls_of(rt, controls)?,
        logs,
        admin,
    })
}

// Prints what went wrong, and why. A fault of the configuration goes to standard output, since it
// is what the user asked for.
fn say(rt: &(impl Print + Eprint + AllocGlobal), bytes: &[u8], fault: RunFault) {
    if let RunFault::Config(_) = fault {
        let _ = rt.println(fault);
        say_faults(rt, bytes);
        return;
    }
    let _ = rt.eprintln(fault);
    if let RunFault::Serve(
        ServeFault::Listen {
            address,
            code: Some(code),
        },
    ) = fault
    {
        say_address_reason(rt, address, Error::from_raw_os_error(code));
    }
}
