ghost use Rattle.std.specs.Prelude.{◌≡◌, IfOk, length};
ghost use Rattle.run_windows.specs.Sums.{nothing_for, with_window, with_line};

use dispatch_reports::ServerLine;
use std::alloc::{AllocError, Global};
use std::marker::Model;

/// The number of requests that each server was given in the windows so far, and whether it was up
/// at the end of the last one. Each number saturates at its greatest value.
#[derive(Debug, Drop)]
pub struct Sums {
    lines: Vec<ServerLine>,
}

impl Model for Sums {
    ghost use Rattle.std.specs.Prelude.{List};
    ghost use Rattle.dispatch_reports.specs.declared.lines.ServerLine.{ServerLine};

    ghost Value = { List ServerLine };

    ghost view = { λ sums. sums.lines.items };
}

impl Sums {
    /// Makes the sums over no window, for this number of servers.
    pub fn new(alloc: Global, servers: usize) -> Result<Sums, AllocError>
        ensures { IfOk result (λ sums. sums ≡ nothing_for servers) }
    {
        let nothing = ServerLine {
            up: true,
            direct: 0,
            granted: 0,
        };
        Ok(Sums {
            lines: vec![in alloc; nothing; servers]?,
        })
    }

    /// Returns a line for each server in file order.
    pub fn lines(&self) -> &[ServerLine]
        ensures { result.now ≡ self.now }
    {
        self.lines.as_slice()
    }

    /// Adds one more window with these lines of the servers.
    pub fn add(&mut self, lines: &[ServerLine])
        ensures { self.new ≡ with_window lines.now self.old }
    {
        add_each(self.lines.as_mut_slice(), lines);
    }
}

#[tactic(auto, unfolding(crate::specs::Sums::with_window))]
fn add_each(sums: &mut [ServerLine], lines: &[ServerLine])
    ensures { sums.new ≡ with_window lines.now sums.old }
{
    let Some((line, lines)) = lines.split_first() else {
        return;
    };
    let Some((sum, sums)) = sums.split_first_mut() else {
        return;
    };
    *sum = with_line(*line, *sum);
    add_each(sums, lines);
}

// Returns the sum of a server with one more line of it.
fn with_line(line: ServerLine, sum: ServerLine) -> ServerLine
    ensures { result ≡ with_line line sum }
{
    ServerLine {
        up: line.up,
        direct: sum.direct.saturating_add(line.direct),
        granted: sum.granted.saturating_add(line.granted),
    }
}
