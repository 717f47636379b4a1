//! The number of the process's descriptors.

ghost use Rattle.std.specs.Prelude.{◌≡◌, ◌++◌, OnOk, string_bytes};
ghost use Rattle.run_parts.specs.Gauges.{comment_text, gauge_text, value_text};

use libc::net as c;
use libc::types::{pollfd, rlimit};
use std::alloc::AllocError;

/// The number of descriptors in one question to the system.
const BLOCK: usize = 256;

/// After this number of blocks in a row without an open descriptor the count ends: the system gives
/// the lowest free number, and the limit may be a thousand million.
const CLOSED: u32 = 256;

/// The number of open descriptors, and the most that may be.
#[derive(Clone, Copy, Debug, PartialEq, Eq)]
pub(crate) struct Descriptors {
    pub(crate) open: u64,
    pub(crate) most: u64,
}

/// Counts the open descriptors: `O(n)` in the greatest one. `None` where the system doesn't tell the limit.
pub(crate) fn count_descriptors() -> Option<Descriptors> {
    let mut limit = rlimit {
        rlim_cur: 0,
        rlim_max: 0,
    };
    if libc::getrlimit(libc::RLIMIT_NOFILE, &mut limit) != 0 {
        return None;
    }
    let most = limit.rlim_cur;
    let mut open = 0u64;
    let mut closed = 0u32;
    for block in 0..most.div_ceil(BLOCK as u64) {
        let first = block.saturating_mul(BLOCK as u64);
        let found = open_in(first, most.saturating_sub(first));
        open = open.saturating_add(found);
        closed = if found == 0 {
            closed.saturating_add(1)
        } else {
            0
        };
        if CLOSED <= closed {
            break;
        }
    }
    Some(Descriptors { open, most })
}

// Returns how many of the block's first `count` numbers are open descriptors.
fn open_in(first: u64, count: u64) -> u64 {
    let mut asked = [pollfd {
        fd: -1,
        events: 0,
        revents: 0,
    }; BLOCK];
    for (question, number) in asked.iter_mut().zip(first..) {
        question.fd = i32::try_from(number).unwrap_or(-1);
    }
    let count = usize::try_from(count).unwrap_or(BLOCK).min(BLOCK);
    let Some(asked) = asked.get_mut(..count) else {
        return 0;
    };
    if c::poll(asked, 0) < 0 {
        return 0;
    }
    let open = asked.iter().filter(|question| is_open(question));
    open.count() as u64
}

// Says whether a number is an open descriptor; a negative one isn't.
fn is_open(question: &pollfd) -> bool {
    0 <= question.fd && question.revents & c::POLLNVAL == 0
}

/// Writes the number of open descriptors and the limit, under the names that Prometheus's own libraries use.
pub(crate) fn push_descriptors(text: &mut String, told: Descriptors) -> Result<(), AllocError> {
    push_gauge(
        text,
        "process_open_fds",
        "Open file descriptors.",
        told.open,
    )?;
    push_gauge(
        text,
        "process_max_fds",
        "Most open file descriptors.",
        told.most,
    )
}

fn push_gauge(text: &mut String, name: &str, help: &str, size: u64) -> Result<(), AllocError>
    ensures { OnOk result (string_bytes text.new ≡ string_bytes text.old ++ gauge_text name.now help.now size) }
{
    push_comment(text, name, help)?;
    push_value(text, name, size)
}

fn push_comment(text: &mut String, name: &str, help: &str) -> Result<(), AllocError>
    ensures { OnOk result (string_bytes text.new ≡ string_bytes text.old ++ comment_text name.now help.now) }
{
    writeln!(text, "# HELP {name} {help}\n# TYPE {name} gauge")
}

fn push_value(text: &mut String, name: &str, size: u64) -> Result<(), AllocError>
    ensures { OnOk result (string_bytes text.new ≡ string_bytes text.old ++ value_text name.now size) }
{
    writeln!(text, "{name} {size}")
}
