use run_control::{
    Answer, Awaited, Controls, Inbox, Scan, Scanned, Steers, Tended, attend, bound_at,
};
use std::alloc::{AllocError, Global};
use std::fs;
use std::io::{Read, Write};
use std::net::Shutdown;
use std::os::unix::net::UnixStream;
use std::test::Fail;

/// A service that answers each line with itself, and ends after this number of rounds.
#[derive(Drop)]
pub(crate) struct Echo {
    alloc: Global,
    rounds: u32,
    ended: bool,
}

impl Echo {
    pub(crate) fn new(alloc: Global, rounds: u32) -> Echo {
        Echo {
            alloc,
            rounds,
            ended: false,
        }
    }
}

impl Steers for Echo {
    fn obey(&mut self, line: &[u8]) -> Result<Answer, AllocError> {
        match line {
            b"later" => Ok(Answer::Later(Awaited::Drained(0))),
            b"end" => Ok(Answer::Then(String::from_str(self.alloc, "ending\n")?, Awaited::End)),
            _ => Ok(Answer::Now(String::from_str(self.alloc, "told\n")?)),
        }
    }

    fn look(&mut self, awaited: Awaited) -> Result<Option<String>, AllocError> {
        match awaited {
            Awaited::Drained(_) if self.rounds < 3 => Ok(Some(String::from_str(
                self.alloc,
                "drained\n",
            )?)),
            _ => Ok(None),
        }
    }

    fn end_of_input(&mut self) {
        self.ended = true;
    }

    fn tend(&mut self) -> Tended {
        match self.rounds.checked_sub(1) {
            Some(rounds) => {
                self.rounds = rounds;
                Tended::Soon
            }
            None => Tended::Over,
        }
    }
}

#[test]
fn lines_are_taken_one_by_one(rt: HostRuntime) -> Result<(), Fail> {
    let mut inbox = Inbox::new(rt.alloc());
    inbox.add(b"state\n\nli".as_slice())?;
    let first = inbox.take_line()?;
    assert_eq!(rt;
        first.map(|line| line.as_slice() == b"state".as_slice()),
        Some(true)
    );
    let second = inbox.take_line()?;
    assert_eq!(rt; second.map(|line| line.is_empty()), Some(true));
    let third = inbox.take_line()?;
    assert!(rt; third.is_none());
    assert!(rt; !inbox.is_too_long());
    Ok(())
}

#[test]
fn an_empty_line_ends_an_answer(rt: HostRuntime) {
    let mut scan = Scan::new();
    let all = Scanned {
        count: 3,
        ended: false,
    };
    assert_eq!(rt; scan.read(b"ok\n".as_slice()), all);
    let end = Scanned {
        count: 0,
        ended: true,
    };
    assert_eq!(rt; scan.read(b"\nrest".as_slice()), end);
}

#[test]
fn a_socket_is_attended_to(rt: HostRuntime) -> Result<(), Fail> {
    let alloc = rt.alloc();
    let path = "control_socket_test.sock";
    let _ = fs::remove_file(&rt, path);
    let listener = bound_at(&rt, alloc, path)?;
    let Some(controls) = Controls::new(&rt, alloc, Some(listener), false) else {
        return Err(Fail::from("no poll"));
    };
    let mut client = UnixStream::connect(&rt, path)?;
    client.write_all(b"one\nlater\ntwo\n".as_slice())?;
    client.shutdown(Shutdown::Write)?;
    let mut other = UnixStream::connect(&rt, path)?;
    other.write_all(b"end\n".as_slice())?;
    let mut echo = Echo::new(alloc, 6);
    attend(&rt, &controls, &mut echo)?;
    let mut got = Vec::new(alloc);
    client.read_to_end(&mut got)?;
    assert_eq!(rt; got.as_slice(), b"told\n\ndrained\n\ntold\n\n".as_slice());
    drop(controls);
    let mut got = Vec::new(alloc);
    other.read_to_end(&mut got)?;
    assert_eq!(rt; got.as_slice(), b"ending\n\n".as_slice());
    fs::remove_file(&rt, path)?;
    Ok(())
}
