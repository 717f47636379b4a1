use crate::steering::{Answer, Awaited, Steers, Tended};
use crate::{CommandExecutor, Standing, Steered};
use due_key::Moment;
use late_cert::Reports;
use log_entries::{Intake, Refusal};
use log_texts::Names;
use std::alloc::{AllocError, Global};
use std::test::Fail;

/// A fake proxy of two servers that notes what is done with it.
#[derive(Drop)]
struct Noted {
    alloc: Global,
    names: Names,
    intakes: [Option<Intake>; 2],
    served: usize,
    clients: u64,
    now: u64,
    stopped: bool,
    refused: bool,
    over: bool,
    has_logs: bool,
}

impl Steered for Noted {
    fn names(&self) -> &Names {
        &self.names
    }

    fn standing(&self, server: usize) -> Standing {
        Standing {
            up: server == 0,
            served: self.served,
            waiting: 0,
        }
    }

    fn waiting(&self) -> usize {
        3
    }

    fn places(&self) -> usize {
        1024
    }

    fn clients(&self) -> u64 {
        self.clients
    }

    fn reports(&self) -> Result<Reports, AllocError> {
        Ok(Reports::from_vec(Vec::new(self.alloc)))
    }

    fn limit(&mut self, server: usize, intake: Intake) -> Result<(), Refusal> {
        match self.intakes.get_mut(server) {
            Some(place) => {
                *place = Some(intake);
                Ok(())
            }
            None => Err(Refusal::NoSuchServer),
        }
    }

    fn reopen(&self) -> bool {
        self.has_logs
    }

    fn moment(&mut self) -> Moment {
        Moment::new(self.now).unwrap_or(Moment::zero())
    }

    fn stop(&mut self) {
        self.stopped = true;
    }

    fn is_empty(&self) -> bool {
        self.clients == 0
    }

    fn refuse(&mut self) {
        self.refused = true;
    }

    fn close(&mut self) {
        self.over = true;
    }

    fn is_over(&self) -> bool {
        self.over
    }
}

fn helm(alloc: Global) -> Result<CommandExecutor<Noted>, AllocError> {
    let mut list = Vec::new(alloc);
    list.push(String::from_str(alloc, "a")?)?;
    list.push(String::from_str(alloc, "b")?)?;
    let noted = Noted {
        alloc,
        names: Names::new(list),
        intakes: [None, None],
        served: 0,
        clients: 0,
        now: 0,
        stopped: false,
        refused: false,
        over: false,
        has_logs: false,
    };
    CommandExecutor::new(alloc, noted, &[4, 0])
}

// Returns what is answered at once.
fn answer(
    helm: &mut CommandExecutor<Noted>,
    alloc: Global,
    line: &str,
) -> Result<String, AllocError> {
    match helm.told(line.as_bytes())? {
        Answer::Now(text) | Answer::Then(text, _) => Ok(text),
        Answer::Later(_) => String::from_str(alloc, "later"),
    }
}

#[test]
fn servers_are_closed_and_opened(rt: HostRuntime) -> Result<(), Fail> {
    let alloc = rt.alloc();
    let mut helm = helm(alloc)?;
    let text = answer(&mut helm, alloc, "limit a 9")?;
    assert_eq!(rt; text.as_str(), "ok server a limit 9 served 0\n");
    let text = answer(&mut helm, alloc, "pause")?;
    assert_eq!(rt;
        text.as_str(),
        "server a up limit closed served 0 waiting 0\nserver b down limit closed served 0 waiting 0\nproxy paused waiting 3 places 1024 clients 0\n"
    );
    assert_eq!(rt;
        helm.proxy.intakes,
        [Some(Intake::Closed), Some(Intake::Closed)]
    );
    let _ = answer(&mut helm, alloc, "resume")?;
    assert_eq!(rt;
        helm.proxy.intakes,
        [Some(Intake::Open(9)), Some(Intake::Open(0))]
    );
    let text = answer(&mut helm, alloc, "ready a")?;
    assert_eq!(rt; text.as_str(), "ok server a limit 4 served 0\n");
    let text = answer(&mut helm, alloc, "drain c")?;
    assert_eq!(rt; text.as_str(), "error: there is no server c\n");
    Ok(())
}

#[test]
fn files_of_logs_are_opened_anew(rt: HostRuntime) -> Result<(), Fail> {
    let alloc = rt.alloc();
    let mut helm = helm(alloc)?;
    let text = answer(&mut helm, alloc, "reopen")?;
    assert_eq!(rt;
        text.as_str(),
        "error: no log goes to a file: --access-log FILE or --event-log FILE names one\n"
    );
    helm.proxy.has_logs = true;
    let text = answer(&mut helm, alloc, "reopen")?;
    assert_eq!(rt; text.as_str(), "ok reopening\n");
    Ok(())
}

#[test]
fn a_drain_is_waited_for(rt: HostRuntime) -> Result<(), Fail> {
    let alloc = rt.alloc();
    let mut helm = helm(alloc)?;
    helm.proxy.served = 1;
    let is_later = matches!(
        helm.told(b"drain b --wait".as_slice())?,
        Answer::Later(Awaited::Drained(1))
    );
    assert!(rt; is_later);
    let early = helm.look(Awaited::Drained(1))?;
    assert!(rt; early.is_none());
    helm.proxy.served = 0;
    match helm.look(Awaited::Drained(1))? {
        Some(text) => assert_eq!(rt; text.as_str(), "ok server b limit closed served 0\n"),
        None => assert!(rt; false),
    }
    Ok(())
}

#[test]
fn an_end_comes_in_its_time(rt: HostRuntime) -> Result<(), Fail> {
    let alloc = rt.alloc();
    let mut helm = helm(alloc)?;
    helm.proxy.clients = 2;
    assert_eq!(rt; helm.tend(), Tended::Rests);
    let text = answer(&mut helm, alloc, "stop --within 100")?;
    assert_eq!(rt; text.as_str(), "ok stopping clients 2\n");
    assert!(rt; helm.proxy.stopped);
    assert_eq!(rt; helm.tend(), Tended::Soon);
    assert!(rt; !helm.proxy.refused);
    helm.proxy.now = 100;
    assert_eq!(rt; helm.tend(), Tended::Soon);
    assert!(rt; helm.proxy.refused && !helm.proxy.over);
    helm.proxy.now = 600;
    assert_eq!(rt; helm.tend(), Tended::Soon);
    assert_eq!(rt; helm.tend(), Tended::Over);
    Ok(())
}
