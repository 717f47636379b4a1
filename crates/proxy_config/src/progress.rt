//! The knowledge after some lines.

ghost use Rattle.std.specs.Prelude.{◌≡◌, OnOk, IfErr};
ghost use Rattle.proxy_config.specs.File as file;
ghost use Rattle.proxy_config.specs.File.{FileAnswers};
ghost use Rattle.proxy_config.specs.Progress as grammar;

use crate::draft::Draft;
use crate::faults::{ConfigFault, FaultCause, LineError, ReadError};
use crate::parts::{Config, Pin};
use crate::values::set_time;
use crate::wishes::{UnresolvedUseServer, pins_of};
use base_lists::Items;
use std::alloc::Global;

#[derive(Drop)]
pub(crate) struct Progress {
    pub draft: Draft,
    /// The pins, with their servers by name.
    pub wishes: Items<UnresolvedUseServer>,
    /// The first line that is faulty whichever servers follow. After it only servers count.
    pub fault: Option<ConfigFault>,
}

impl Progress {
    pub(crate) fn new(alloc: Global) -> Progress
        ensures { result ≡ grammar.start }
    {
        Progress {
            draft: Draft::new(alloc),
            wishes: Items::new(alloc),
            fault: None,
        }
    }

    /// Takes a line, by its number and whether the file becomes too long in it.
    pub(crate) fn take(
        &mut self,
        alloc: Global,
        too_long: bool,
        number: u64,
        line: &[u8],
    ) -> Result<(), ReadError>
        ensures ok { OnOk result (self.new ≡ grammar.take_line too_long self.old number line.now) }
        ensures err { IfErr result (λ e. e ≡ ReadError.NoMemory) }
    {
        let pins = self.wishes.len();
        match self.draft.step(alloc, pins, too_long, number, line) {
            Ok(Some(wish)) if self.fault.is_none() => self.wishes.push(wish)?,
            Ok(_) => {}
            Err(LineError::NoMemory) => return Err(ReadError::NoMemory),
            Err(LineError::Fault(cause)) => {
                self.draft.leave_behind(line);
                if self.fault.is_none() {
                    self.fault = Some(ConfigFault {
                        line: number,
                        cause,
                    });
                }
            }
        }
        Ok(())
    }

    /// Returns the fault, if no later server can change it.
    pub(crate) fn decided(&self) -> Option<ConfigFault>
        ensures { result ≡ grammar.decided self.now.wishes self.now.fault }
    {
        if self.wishes.is_empty() {
            self.fault
        } else {
            None
        }
    }

    /// Returns the configuration or its first fault, once all lines are read.
    #[tactic(auto, using(crate::proofs::OnePass::settled_err))]
    pub(crate) fn finish(self, alloc: Global) -> Result<Config, ReadError>
        ensures { FileAnswers result (file.finished (grammar.settled self.draft.servers self)) }
    {
        let Progress {
            draft,
            wishes,
            fault,
        } = self;
        let pins = pins_of(alloc, &draft.servers, wishes)?;
        match fault {
            Some(fault) => Err(ReadError::Fault(fault)),
            None => whole(draft, pins),
        }
    }
}

// Returns the configuration, if the lines have all that it needs.
fn whole(draft: Draft, pins: Items<Pin>) -> Result<Config, ReadError>
    ensures { FileAnswers result (file.whole draft.listen draft.bind (record { draft = draft; pins = pins })) }
{
    let Draft {
        section: _,
        listen,
        defaults: _,
        values,
        bind,
        servers,
        acls,
        acl_lines: _,
        rules,
    } = draft;
    let Some(line) = listen else {
        return Err(missing(0));
    };
    let Some(bind) = bind else {
        return Err(missing(line));
    };
    if servers.is_empty() {
        return Err(missing(line));
    }
    Ok(Config {
        bind,
        servers,
        retries: values.retries,
        redispatch: values.redispatch,
        abortonclose: values.abortonclose,
        queue_timeout: values.queue_timeout(),
        connect_timeout: set_time(values.connect),
        client_timeout: set_time(values.client),
        server_timeout: set_time(values.server),
        acls,
        rules,
        pins,
    })
}

fn missing(line: u64) -> ReadError
    ensures { result ≡ ReadError.Fault (record { line = line; cause = FaultCause.Missing }) }
{
    ReadError::Fault(ConfigFault {
        line,
        cause: FaultCause::Missing,
    })
}
