//! The logs that the options ask for.

ghost use Rattle.std.specs.Prelude.{◌≡◌, ◌≢◌, codes, string_bytes};

use crate::reasons::say_unopened;
use config_command::LogWords;
use log_lines::Format;
use log_requests::{Access, Logs};
use log_sink::{Sink, Way};
use std::alloc::AllocError;
use std::sync::{Arc, Wait};
use std::thread;
use std::thread::Threads;

/// Makes the logs, with the threads that write their files. Where a file can't be opened, prints
/// why and returns the exit status.
pub(crate) fn logs_of<R: Threads + Wait + Copy + Send + 'static>(
    host: HostRuntime,
    rt: &R,
    words: LogWords,
) -> Result<Logs, u8> {
    let LogWords {
        access,
        is_json,
        events,
    } = words;
    let access = match access {
        None => None,
        Some(name) => {
            let has_windows = name.as_str() == "-";
            let format = if is_json { Format::Json } else { Format::Text };
            Some(Access {
                sink: sink_of(host, rt, access_way(name))?,
                format,
                has_windows,
            })
        }
    };
    let events = match events {
        None => None,
        Some(name) => Some(sink_of(host, rt, events_way(name))?),
    };
    Ok(Logs {
        access,
        events,
        numbers: None,
    })
}

fn access_way(name: String) -> Way
    ensures standard { string_bytes name ≡ codes "-" → result ≡ Way.Output }
    ensures file { string_bytes name ≢ codes "-" → result ≡ Way.File name }
{
    way_of(name, Way::Output)
}

fn events_way(name: String) -> Way
    ensures standard { string_bytes name ≡ codes "-" → result ≡ Way.Errors }
    ensures file { string_bytes name ≢ codes "-" → result ≡ Way.File name }
{
    way_of(name, Way::Errors)
}

fn way_of(name: String, standard: Way) -> Way
    ensures standard { string_bytes name ≡ codes "-" → result ≡ standard }
    ensures file { string_bytes name ≢ codes "-" → result ≡ Way.File name }
{
    if name.as_str() == "-" {
        standard
    } else {
        Way::File(name)
    }
}

fn sink_of<R: Threads + Wait + Copy + Send + 'static>(
    host: HostRuntime,
    rt: &R,
    way: Way,
) -> Result<Arc<Sink>, u8> {
    if let Err(error) = way.look(&host) {
        return Err(say_unopened(&host, way.name(), error));
    }
    match start(host, *rt, way) {
        Ok(sink) => Ok(sink),
        Err(_) => {
            let _ = host.eprintln("no memory");
            Err(1)
        }
    }
}

// The thread owns all that it works with: it may still wait for a reader when everything else has ended.
fn start<R: Threads + Wait + Copy + Send + 'static>(
    host: HostRuntime,
    rt: R,
    way: Way,
) -> Result<Arc<Sink>, AllocError> {
    let alloc = host.alloc();
    let sink = Arc::new(alloc, Sink::new(alloc, &way)?)?;
    let room = Sink::room(alloc)?;
    let own = Arc::try_clone(&sink)?;
    match thread::spawn(&rt, move || own.write_to(&host, &rt, way, room)) {
        Ok(_running) => Ok(sink),
        Err(_) => Err(AllocError),
    }
}
