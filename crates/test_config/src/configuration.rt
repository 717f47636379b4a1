//! Tests of whole configuration files. The expected values follow from the rules of `docs/FORMATS.md` by hand.

mod accepted;
mod faults;
mod limits;
mod meanings;
mod memory;
mod pins;
mod rules;
mod sample;

use crate::assertions::holds;
use crate::texts::joined;
use proxy_config::*;
use std::alloc::Global;
use std::process::Abort;

/// A text, the line of the first fault, and its cause.
type FaultRow = (&'static str, u64, FaultCause);

/// Texts, each of which stands in a file of its own between this beginning and this end.
struct FaultTable {
    name: &'static str,
    front: &'static str,
    end: &'static str,
    rows: &'static [FaultRow],
}

fn is_faulty(rt: &impl Abort, alloc: Global, table: &FaultTable, row: &FaultRow) {
    let (text, line, cause) = *row;
    let file = joined(rt, alloc, &[table.front, text, table.end]);
    let fault = ReadError::Fault(ConfigFault { line, cause });
    holds(
        rt,
        read(alloc, &file).err() == Some(fault),
        table.name,
        text,
    );
}

fn is_each_faulty(rt: &impl Abort, alloc: Global, table: &FaultTable) {
    for row in table.rows {
        is_faulty(rt, alloc, table, row);
    }
}

// Says whether the configuration is read from the file.
fn is_read(alloc: Global, file: &[u8]) -> bool {
    let found = read(alloc, file);
    let is_read = found.is_ok();
    drop(found);
    is_read
}
