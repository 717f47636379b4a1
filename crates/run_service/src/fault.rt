ghost use Rattle.std.specs.Prelude.{◌≡◌};
ghost use Rattle.run_service.specs.Statuses.{status_of};

use proxy_config::ConfigFault;
use run_parts::ServeFault;
use thiserror::Error;

/// Why a proxy didn't run, or failed.
#[derive(Clone, Copy, Debug, PartialEq, Eq, Error)]
pub enum RunFault {
    /// The configuration's first faulty line.
    #[error("config {0}")]
    Config(ConfigFault),
    #[error("{0}")]
    Serve(ServeFault),
}

/// Returns the exit status of a program whose proxy ended so: 0; 3 where the configuration is
/// faulty; 1 where anything else went wrong.
pub fn status_of(ended: Result<(), RunFault>) -> u8
    ensures { result ≡ status_of ended }
{
    match ended {
        Ok(()) => 0,
        Err(RunFault::Config(_)) => 3,
        Err(RunFault::Serve(_)) => 1,
    }
}
