ghost use Rattle.std.specs.Prelude.{◌≡◌, IfOk, Ok};
ghost use Rattle.proxy_config.specs.File.{reading};
ghost use Rattle.run_parts.specs.Crews.{IsCrewFor};
ghost use Rattle.run_service.specs.RunFaults.{IsEndOf};

use crate::fault::RunFault;
use crate::serving::listen_and_serve;
use proxy_config::{ReadError, read};
use run_parts::{Asked, RunLimits, RunOptions, ServeFault};
use std::net::{Net, TcpListener, TcpStream};
use std::sync::Wait;
use std::thread::Threads;
use std::time::Clock;

/// Serves as a configuration says, and prints the reports. It ends once this number of clients were
/// served, where they are counted, or once it is told to.
pub fn run<
    R: Net<Listener = TcpListener, Stream = TcpStream>
        + Clock
        + Print
        + Eprint
        + AllocGlobal
        + Threads
        + Wait
        + Sync
        + Copy
        + Send
        + 'static,
>(rt: &R, bytes: &[u8], options: RunOptions, sizes: RunLimits) -> Result<Asked, RunFault>
    ensures ended { IsEndOf (reading bytes.now) result }
    ensures asked { IfOk result (λ it. (reading bytes.now ≡ Ok it.config.value) × (it.options.value ≡ options)) }
    ensures sizes { IfOk result (λ it. IsCrewFor sizes it.crew) }
{
    let config = match read(rt.alloc(), bytes) {
        Ok(config) => config,
        Err(ReadError::Fault(fault)) => return Err(RunFault::Config(fault)),
        Err(ReadError::NoMemory) => return Err(RunFault::Serve(ServeFault::NoMemory)),
    };
    match listen_and_serve(rt, config, options, sizes) {
        Ok(asked) => Ok(asked),
        Err(fault) => Err(RunFault::Serve(fault)),
    }
}
