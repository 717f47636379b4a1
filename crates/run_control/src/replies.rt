//! The texts of answers.

use crate::command::Form;
use crate::haproxy::{push_servers_state, push_stat};
use crate::helm::CommandExecutor;
use crate::json::json_of;
use crate::pieces::Misfit;
use crate::state::{ProxyState, ServerState, push_state};
use crate::steered::Steered;
use log_entries::{Intake, Refusal};
use log_texts::push_reports;
use std::alloc::{AllocError, Global};

pub(crate) const HELP: &str = "\
state [--json]            how the servers and the clients stand
limit SERVER N            SERVER serves at most N at once; 0: any number
limit SERVER closed       SERVER takes nobody
drain SERVER [--wait]     the same; with --wait answered once it serves nobody
ready SERVER              SERVER takes as many as the configuration says
pause                     no server takes anybody: requests wait, in their order
resume                    those take as many again that took some before
reports                   the reports of the window up to now
clients                   how many clients there are
reopen                    the files of the logs are opened anew by their names
stop [--within MS]        nobody new comes; all is over once who is there was
                          served, or after MS milliseconds
help                      this
";

/// Returns why a line wasn't a command.
pub(crate) fn misfit_text(alloc: Global, misfit: &Misfit) -> Result<String, AllocError> {
    match misfit {
        Misfit::Missing => String::from_str(
            alloc,
            "error: a word is missing at the end: see help\n",
        ),
        Misfit::Bad(word) => {
            let word = word.as_str().unwrap_or("(no text)");
            format!(in alloc; "error: {word:?} doesn't fit there: see help\n")
        }
    }
}

pub(crate) fn no_server(alloc: Global, name: &str) -> Result<String, AllocError> {
    format!(in alloc; "error: there is no server {name}\n")
}

/// Returns what the dispatcher refused.
pub(crate) fn refusal_text(alloc: Global, refusal: Refusal) -> Result<String, AllocError> {
    format!(in alloc; "error: refused: {refusal}: try it again\n")
}

impl<P: Steered + Drop> CommandExecutor<P> {
    /// Returns how many requests a server takes from now on.
    pub(crate) fn taking_text(&self, server: usize) -> Result<String, AllocError> {
        let mut text = String::new(self.alloc);
        let name = self.proxy.names().of(server);
        let served = self.proxy.standing(server).served;
        match self.wishes.intake(server) {
            Some(Intake::Open(limit)) => {
                writeln!(text, "ok server {name} limit {limit} served {served}")?;
            }
            _ if self.wishes.is_paused() => {
                writeln!(text, "ok server {name} limit closed served {served} paused")?;
            }
            _ => writeln!(text, "ok server {name} limit closed served {served}")?,
        }
        Ok(text)
    }

    /// Returns the state in a form.
    pub(crate) fn state_text(&self, form: Form) -> Result<String, AllocError> {
        let state = self.state()?;
        let names = self.proxy.names();
        let mut text = String::new(self.alloc);
        match form {
            Form::Lines => push_state(&mut text, names, &state)?,
            Form::Stat => push_stat(&mut text, names, &state)?,
            Form::Servers => push_servers_state(&mut text, names, &state)?,
            Form::Json => {
                text = json_of(self.alloc, names, &state)?;
                text.push('\n')?;
            }
        }
        Ok(text)
    }

    fn state(&self) -> Result<ProxyState, AllocError> {
        let mut servers = Vec::new(self.alloc);
        for server in 0..self.wishes.len() {
            let standing = self.proxy.standing(server);
            servers.push(ServerState {
                up: standing.up,
                intake: self.wishes.intake(server).unwrap_or(Intake::Closed),
                served: standing.served,
                waiting: standing.waiting,
            })?;
        }
        Ok(ProxyState {
            servers,
            waiting: self.proxy.waiting(),
            places: self.proxy.places(),
            clients: self.proxy.clients(),
            paused: self.wishes.is_paused(),
            stopping: self.is_stopping(),
        })
    }

    /// Returns the reports of the present window.
    pub(crate) fn reports_text(&self) -> Result<String, AllocError> {
        let reports = self.proxy.reports()?;
        let mut text = String::new(self.alloc);
        push_reports(&mut text, self.proxy.names(), reports.as_slice())?;
        Ok(text)
    }

    pub(crate) fn clients_text(&self) -> Result<String, AllocError> {
        let clients = self.proxy.clients();
        format!(in self.alloc; "clients {clients}\n")
    }

    /// Returns that the log files are being opened again, where there are any. A file that can't be
    /// opened is named on the proxy's standard error.
    pub(crate) fn reopened_text(&self) -> Result<String, AllocError> {
        let said = if self.proxy.reopen() {
            "ok reopening\n"
        } else {
            "error: no log goes to a file: --access-log FILE or --event-log FILE names one\n"
        };
        String::from_str(self.alloc, said)
    }

    pub(crate) fn stopping_text(&self) -> Result<String, AllocError> {
        let clients = self.proxy.clients();
        format!(in self.alloc; "ok stopping clients {clients}\n")
    }
}
