//! When requests arrived and when they got their slots.

ghost use Rattle.std.specs.Prelude.{◌≡◌, IfOk, filter_map};
ghost use Rattle.log_stretches.specs.Services.{service_in};
ghost use Rattle.log_stretches.specs.Stretches.{stretches_of};

use crate::course::Course;
use crate::stretch::{Lane, Stretch};
use due_key::{Class, Due, Moment};
use std::alloc::{AllocError, Global};

/// A request that got a slot, with its arrival.
#[derive(Clone, Copy, Debug, PartialEq, Eq)]
pub struct Served {
    pub ticket: u64,
    pub class: Class,
    pub due: Due,
    pub came: Moment,
    /// When it got its slot.
    pub slot_moment: Moment,
    pub server: usize,
}

/// Returns the requests of a log that got a slot, in the order in which they got them; a request
/// with two slots stands there twice.
pub fn services_in(alloc: Global, course: &Course) -> Result<Vec<Served>, AllocError>
    ensures { IfOk result (λ services. services.items ≡ filter_map (service_in course.now) (stretches_of course.now)) }
{
    course
        .stretches()
        .iter()
        .filter_map(|stretch| service_in(course, stretch))
        .collect(alloc)
}

fn service_in(course: &Course, stretch: &Stretch) -> Option<Served>
    ensures { result ≡ service_in course.now stretch.now }
{
    let Lane::Server(server) = stretch.lane else {
        return None;
    };
    let came = course.arrival(stretch.ticket)?;
    Some(Served {
        ticket: stretch.ticket,
        class: came.arrival.class,
        due: came.arrival.due,
        came: came.moment,
        slot_moment: course.moment(stretch.from),
        server,
    })
}
