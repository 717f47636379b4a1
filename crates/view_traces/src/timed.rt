ghost use Rattle.std.specs.Prelude.{◌≡◌, ◌≤◌, ◌<◌, [], ◌∷◌, ◌++◌, Some, None, IfOk, IfErr, OnOk, length};
ghost use Rattle.log_reading.specs.Grants.{moment_in, moment_of};
ghost use Rattle.view_traces.specs.Timed.{IsTimed};
ghost use Rattle.view_traces.specs.declared.fault.TraceCause.TheVariants as causes;
ghost use Rattle.view_traces.specs.declared.fault.LineError.TheVariants.{Faulty};

use crate::fault::{LineError, TraceCause};
use due_key::Moment;
use log_entries::Entry;
use std::alloc::Global;
use std::marker::Model;

/// The entries of a trace: they begin with an event, and moments never fall.
#[derive(Drop)]
pub(crate) struct Timed {
    list: Vec<Entry>,
    // The moment of the last event.
    moment: Moment,
}

impl Model for Timed {
    ghost use Rattle.std.specs.Prelude.{◌≡◌, List};
    ghost use Rattle.log_entries.specs.declared.entry.Entry.{Entry};
    ghost use Rattle.log_reading.specs.Grants.{moment_of};
    ghost use Rattle.view_traces.specs.Timed.{IsTimed};

    ghost Value = { List Entry };

    ghost view = { λ timed. timed.list.items };

    ghost invariant = { λ timed. IsTimed timed.list.items × (timed.moment ≡ moment_of timed.list.items) };
}

impl Timed {
    pub(crate) fn new(alloc: Global) -> Timed
        ensures { result ≡ [] }
    {
        Timed {
            list: Vec::new(alloc),
            moment: Moment::zero(),
        }
    }

    pub(crate) fn len(&self) -> usize
        ensures { result ≡ length self.now }
    {
        self.list.len()
    }

    pub(crate) fn into_entries(self) -> Vec<Entry>
        ensures same { result.items ≡ self }
        ensures timed { IsTimed result.items }
    {
        let Timed { list, moment: _ } = self;
        list
    }

    /// Adds an event at this moment, unless the moment is before the last event's.
    pub(crate) fn note_event(&mut self, moment: Moment, entry: Entry) -> Result<(), LineError>
        requires { moment_in entry ≡ Some moment }
        ensures ok { OnOk result (self.new ≡ self.old ++ entry ∷ []) }
        ensures later { OnOk result (moment_of self.old ≤ moment) }
        ensures err { IfErr result (λ error. error ≡ Faulty causes.Moment → moment < moment_of self.old) }
    {
        if moment < self.moment {
            return Err(LineError::Faulty(TraceCause::Moment));
        }
        let Ok(()) = self.list.push(entry) else {
            return Err(LineError::NoMemory);
        };
        self.moment = moment;
        Ok(())
    }

    /// Adds a decision, where an event stands before it.
    pub(crate) fn note_decision(&mut self, entry: Entry) -> Result<(), LineError>
        requires { moment_in entry ≡ None }
        ensures ok { OnOk result (self.new ≡ self.old ++ entry ∷ []) }
    {
        if self.list.is_empty() {
            return Err(LineError::Faulty(TraceCause::Place));
        }
        let Ok(()) = self.list.push(entry) else {
            return Err(LineError::NoMemory);
        };
        Ok(())
    }
}
