//! The system's answers to a read and to a write of a stream that doesn't block.

ghost use Rattle.std.specs.Prelude.{◌≡◌, ◌==◌, ◌↔◌, ◌⊎◌, true, false, None, Some, IfOk, IfErr, if◌then◌else◌};
ghost use Rattle.std.specs.IoError.{error_kind};
ghost use Rattle.std.specs.declared.io.ErrorKind.TheVariants as kinds;
ghost use Rattle.exchange_driver.specs.Calls as calls;

use crate::socket::{ReadResult, WriteResult};
use std::io::{self, ErrorKind};

/// What a read told. Only `heard_of` makes it, from the answer of a read.
#[derive(Clone, Copy)]
pub(crate) struct LastRead {
    result: ReadResult,
}

impl LastRead {
    fn new(told: ReadResult) -> LastRead
        ensures { result.result ≡ told }
    {
        LastRead { result: told }
    }
}

/// What a write told. Only `said_of` makes it, from the answer of a write.
#[derive(Clone, Copy)]
pub(crate) struct LastWrite {
    result: WriteResult,
}

impl LastWrite {
    fn new(told: WriteResult) -> LastWrite
        ensures { result.result ≡ told }
    {
        LastWrite { result: told }
    }
}

/// Returns what a read told. Without its word it counts as failed.
pub(crate) fn read_told(last: Option<LastRead>) -> ReadResult
    ensures { result ≡ calls.read_told last }
{
    match last {
        None => ReadResult::Ended { well: false },
        Some(last) => last.result,
    }
}

/// Returns what a write told. Without its word it counts as failed.
pub(crate) fn write_told(last: Option<LastWrite>) -> WriteResult
    ensures { result ≡ calls.write_told last }
{
    match last {
        None => WriteResult::Failed,
        Some(last) => last.result,
    }
}

/// Returns what the answer to a read says; `None` where a signal interrupted the call.
pub(crate) fn heard_of(answer: io::Result<usize>) -> Option<LastRead>
    ensures ok { IfOk answer (λ count. calls.heard result ≡ Some (if count == 0 then ReadResult.Ended true else ReadResult.Bytes count)) }
    ensures err { IfErr answer (λ _. (calls.heard result ≡ None) ⊎ ((calls.heard result ≡ Some ReadResult.Nothing) ⊎ (calls.heard result ≡ Some (ReadResult.Ended false)))) }
    ensures nothing { IfErr answer (λ error. (calls.heard result ≡ Some ReadResult.Nothing) ↔ (error_kind error ≡ kinds.WouldBlock)) }
    ensures again { IfErr answer (λ error. (calls.heard result ≡ None) ↔ (error_kind error ≡ kinds.Interrupted)) }
{
    match answer {
        Ok(0) => Some(LastRead::new(ReadResult::Ended { well: true })),
        Ok(count) => Some(LastRead::new(ReadResult::Bytes(count))),
        Err(error) => match error.kind() {
            ErrorKind::WouldBlock => Some(LastRead::new(ReadResult::Nothing)),
            ErrorKind::Interrupted => None,
            _ => Some(LastRead::new(ReadResult::Ended { well: false })),
        },
    }
}

/// Returns what the answer to a write says; `None` where a signal interrupted the call.
pub(crate) fn said_of(answer: io::Result<usize>) -> Option<LastWrite>
    ensures ok { IfOk answer (λ count. calls.said result ≡ Some (if count == 0 then WriteResult.Failed else WriteResult.Bytes count)) }
    ensures err { IfErr answer (λ _. (calls.said result ≡ None) ⊎ ((calls.said result ≡ Some WriteResult.Full) ⊎ (calls.said result ≡ Some WriteResult.Failed))) }
    ensures full { IfErr answer (λ error. (calls.said result ≡ Some WriteResult.Full) ↔ (error_kind error ≡ kinds.WouldBlock)) }
    ensures again { IfErr answer (λ error. (calls.said result ≡ None) ↔ (error_kind error ≡ kinds.Interrupted)) }
{
    match answer {
        Ok(0) => Some(LastWrite::new(WriteResult::Failed)),
        Ok(count) => Some(LastWrite::new(WriteResult::Bytes(count))),
        Err(error) => match error.kind() {
            ErrorKind::WouldBlock => Some(LastWrite::new(WriteResult::Full)),
            ErrorKind::Interrupted => None,
            _ => Some(LastWrite::new(WriteResult::Failed)),
        },
    }
}
