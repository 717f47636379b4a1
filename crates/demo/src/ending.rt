//! What is printed and judged when all twelve requests are over.

use crate::acting::Played;
use crate::fault::DemoFault;
use crate::picture::write_picture;
use demo_words::{Looks, Tone, VISITS, names_of, push_reports, push_table};
use log_stretches::{Course, are_in_order, services_in, stays_in};
use std::alloc::Global;
use std::rt::Files;

/// The style of the text, and the file of the picture.
#[derive(Clone, Copy)]
pub(crate) struct Telling<'a> {
    pub(crate) looks: Looks,
    pub(crate) file: &'a str,
}

/// Prints who waited how long and what the proxy reports, draws the picture, and says whether all
/// went as it should.
pub(crate) fn tell_end<R: Files + Print + AllocGlobal>(
    rt: &R,
    played: &Played,
    telling: Telling<'_>,
) -> Result<(), DemoFault> {
    let alloc = rt.alloc();
    let Telling { looks, file } = telling;
    let course = Course::new(alloc, played.seen.entries.as_slice())?;
    print(rt, tables_of(alloc, played, &course, looks)?.as_str())?;
    judge(alloc, played, &course)?;
    let before = looks.before(Tone::Served);
    let after = looks.after();
    let praise = format!(in alloc;
        "\n{before}All {VISITS} were answered. Of any two that waited together the one with the smaller key,\nclass and then due date, got its slot first.{after}\n"
    )?;
    print(rt, praise.as_str())?;
    write_picture(rt, file, course.entries(), played.reports.as_slice())?;
    print(
        rt,
        format!(in alloc; "{file} is the picture of it: open it in a browser.\n")?.as_str(),
    )
}

fn print(rt: &impl Print, text: &str) -> Result<(), DemoFault> {
    match rt.print(text) {
        Ok(()) => Ok(()),
        Err(_) => Err(DemoFault::Write),
    }
}

fn tables_of(
    alloc: Global,
    played: &Played,
    course: &Course,
    looks: Looks,
) -> Result<String, DemoFault> {
    let names = names_of(alloc)?;
    let services = services_in(alloc, course)?;
    let mut text = String::new(alloc);
    push_table(&mut text, &names, services.as_slice(), looks)?;
    push_reports(&mut text, &names, played.reports.as_slice(), looks)?;
    Ok(text)
}

// Succeeds only where each request was answered, and those that waited together got their slots in
// the order of their keys.
fn judge(alloc: Global, played: &Played, course: &Course) -> Result<(), DemoFault> {
    let answered = played.seen.answered;
    if answered < VISITS {
        return Err(DemoFault::Unanswered(answered));
    }
    let stays = stays_in(alloc, course)?;
    if !are_in_order(stays.as_slice()) {
        return Err(DemoFault::OutOfOrder);
    }
    Ok(())
}
