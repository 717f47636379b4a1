//! What is made before the threads.

ghost use Rattle.std.specs.Prelude.{◌≡◌, vec_len, IfOk};

use locked_book::DeskName;
use loop_events::{
    GateShared, Outside, Proxy, ServerConnections, SharedParts, UnstartedLoop, UnusedCounts,
    empty_cells, loops_of, most_connections, polls_of,
};
use run_parts::LoopSizes;
use std::alloc::AllocError;
use std::net::{Net, TcpListener, TcpStream};
use std::sync::ledger::Ledger;

/// Makes the state that the threads of a proxy share, and its loops, with its listener in each
/// loop's poll. Fails where memory is refused, or the system refuses a poll.
pub(crate) fn parts_of<R: Net<Listener = TcpListener, Stream = TcpStream>, N: DeskName + Ledger>(
    rt: &R,
    proxy: &Proxy<N>,
    front: &GateShared<'_>,
    sizes: LoopSizes,
) -> Result<(SharedParts, Vec<UnstartedLoop>), AllocError>
    ensures { IfOk result (λ made. vec_len made.0.cells ≡ sizes.places) }
{
    let alloc = proxy.alloc;
    let (polls, mail) = polls_of(rt, alloc, front, sizes.loops)?;
    let loops = loops_of(alloc, polls)?;
    let servers = proxy.config.servers.len();
    let each = front.reusing.map_or(0, |most| most as usize);
    let most = most_connections(
        sizes.loops,
        ServerConnections {
            used: sizes.slots,
            unused: servers.saturating_mul(each),
        },
    );
    let unused = UnusedCounts::none(alloc, servers, most.unused)?;
    let outside = Outside::new(alloc, most.clients, proxy.config.queue_timeout)?;
    match empty_cells(alloc, sizes.places) {
        Err(refused) => {
            outside.end();
            Err(refused)
        }
        Ok(cells) => {
            let parts = SharedParts {
                cells,
                mail,
                most,
                outside,
                most_outside: sizes.waiting,
                unused,
            };
            Ok((parts, loops))
        }
    }
}
