//! From a line to its effect and its answer.

ghost use Rattle.std.specs.Prelude.{◌≡◌};
ghost use Rattle.run_control.specs.NoCommands.{IsMisfit};
ghost use Rattle.run_control.specs.declared.pieces.Misfit.{Misfit};

use crate::command::{Command, Form, command_of};
use crate::helm::CommandExecutor;
use crate::replies::{HELP, misfit_text, no_server, refusal_text};
use crate::steered::Steered;
use crate::steering::{Answer, Awaited, Steers, Tended};
use log_entries::{Intake, Refusal};
use log_texts::Name;
use std::alloc::AllocError;

impl<P: Steered + Drop> Steers for CommandExecutor<P> {
    fn obey(&mut self, line: &[u8]) -> Result<Answer, AllocError> {
        self.told(line)
    }

    fn look(&mut self, awaited: Awaited) -> Result<Option<String>, AllocError> {
        match awaited {
            Awaited::End => Ok(None),
            Awaited::Drained(server) => {
                let is_over = self.proxy.standing(server).served == 0 || !self.is_closed(server);
                if is_over {
                    Ok(Some(self.taking_text(server)?))
                } else {
                    Ok(None)
                }
            }
        }
    }

    fn end_of_input(&mut self) {
        self.stop(None);
    }

    fn tend(&mut self) -> Tended {
        self.go_on_ending()
    }
}

impl<P: Steered + Drop> CommandExecutor<P> {
    /// Executes a line's command, and returns the answer. A line that isn't a command changes nothing.
    pub fn told(&mut self, line: &[u8]) -> Result<Answer, AllocError>
        ensures misfit { (misfit : Misfit) → IsMisfit line.now misfit → self.new ≡ self.old }
    {
        match command_of(line) {
            Ok(command) => self.carry_out(command),
            Err(misfit) => Ok(Answer::Now(misfit_text(self.alloc, &misfit)?)),
        }
    }

    fn carry_out(&mut self, command: Command) -> Result<Answer, AllocError> {
        match command {
            Command::State(form) => Ok(Answer::Now(self.state_text(form)?)),
            Command::Reports => Ok(Answer::Now(self.reports_text()?)),
            Command::Clients => Ok(Answer::Now(self.clients_text()?)),
            Command::Reopen => Ok(Answer::Now(self.reopened_text()?)),
            Command::Help => Ok(Answer::Now(String::from_str(self.alloc, HELP)?)),
            Command::Limit { server, intake } => self.set_intake(&server, intake),
            Command::Drain { server, waits } => self.drain(&server, waits),
            Command::Ready { server } => self.open(&server),
            Command::Pause => {
                self.wishes.pause();
                self.change_all()
            }
            Command::Resume => {
                self.wishes.resume();
                self.change_all()
            }
            Command::Stop { within } => {
                self.stop(within);
                Ok(Answer::Then(self.stopping_text()?, Awaited::End))
            }
        }
    }

    fn set_intake(&mut self, name: &Name, intake: Intake) -> Result<Answer, AllocError> {
        let Some(server) = self.proxy.names().find(name) else {
            return Ok(Answer::Now(no_server(self.alloc, name.as_str())?));
        };
        self.wishes.limit(server, intake);
        let applied = self.apply(server);
        self.told_of(server, applied)
    }

    fn drain(&mut self, name: &Name, waits: bool) -> Result<Answer, AllocError> {
        let Some(server) = self.proxy.names().find(name) else {
            return Ok(Answer::Now(no_server(self.alloc, name.as_str())?));
        };
        self.wishes.limit(server, Intake::Closed);
        let applied = self.apply(server);
        if waits && applied.is_ok() {
            return Ok(Answer::Later(Awaited::Drained(server)));
        }
        self.told_of(server, applied)
    }

    fn open(&mut self, name: &Name) -> Result<Answer, AllocError> {
        let Some(server) = self.proxy.names().find(name) else {
            return Ok(Answer::Now(no_server(self.alloc, name.as_str())?));
        };
        self.wishes.ready(server);
        let applied = self.apply(server);
        self.told_of(server, applied)
    }

    fn told_of(&self, server: usize, applied: Result<(), Refusal>) -> Result<Answer, AllocError> {
        match applied {
            Ok(()) => Ok(Answer::Now(self.taking_text(server)?)),
            Err(refusal) => Ok(Answer::Now(refusal_text(self.alloc, refusal)?)),
        }
    }

    // Sets the limits of all servers by their wishes, and returns their state.
    fn change_all(&mut self) -> Result<Answer, AllocError> {
        match self.apply_all() {
            Ok(()) => Ok(Answer::Now(self.state_text(Form::Lines)?)),
            Err(refusal) => Ok(Answer::Now(refusal_text(self.alloc, refusal)?)),
        }
    }
}
