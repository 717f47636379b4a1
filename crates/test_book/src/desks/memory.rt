ghost use Rattle.std.specs.Prelude.{◌≡◌, ◌<◌, IfOk};
ghost use Rattle.shared_desk.specs.Seats.{IsSameSeat};
ghost use Rattle.locked_book.specs.Books.{terms_for};

use super::*;
use crate::assertions::same;
use std::test::Fail;
use std::thread::Threads;

// The test succeeds whichever single allocation is refused: it makes the same call again.

fn open_once(rt: &impl Threads, alloc: Global) -> Result<Option<Opened>, AllocError> {
    let setup = setup_of_one(alloc, 1, 10, 1)?;
    open_sound(rt, alloc, setup, &[1])
}

fn open_in_the_end(rt: &impl Threads, alloc: Global) -> Result<Opened, Fail> {
    let opened = match open_once(rt, alloc) {
        Ok(opened) => opened,
        Err(_) => open_once(rt, alloc)?,
    };
    let Some(opened) = opened else {
        return Err(Fail::from("not a sound setup"));
    };
    Ok(opened)
}

fn come<N: DeskName, R: Wait>(
    rt: &R,
    alloc: Global,
    desk: (&Desk<N>, &DeskKeys<N>),
) -> Result<Ticketed, Refusal>
    ensures { IfOk result (λ it. it.place < N.terms.places) }
{
    match come_once(rt, alloc, desk) {
        Err(Refusal::NoMemory) => come_once(rt, alloc, desk),
        answer => answer,
    }
}

fn come_once<N: DeskName, R: Wait>(
    rt: &R,
    alloc: Global,
    desk: (&Desk<N>, &DeskKeys<N>),
) -> Result<Ticketed, Refusal>
    ensures { IfOk result (λ it. it.place < N.terms.places) }
{
    let (answer, changed) = desk
        .0
        .open(&desk.1.desk)
        .arrive(rt, alloc, Moment::zero(), offset(0));
    changed.take(&desk.1.wake);
    answer
}

// Returns the number of reports.
fn report<N: DeskName, R: Wait>(
    rt: &R,
    alloc: Global,
    desk: (&Desk<N>, &DeskKeys<N>),
) -> Result<usize, AllocError> {
    let told = desk.0.look(rt).book().report(alloc);
    match told {
        Ok(reports) => Ok(reports.len()),
        Err(_) => {
            let told = desk.0.look(rt).book().report(alloc);
            Ok(told?.len())
        }
    }
}

// Returns the number of servers' lines.
fn lines<N: DeskName, R: Wait>(
    rt: &R,
    alloc: Global,
    desk: (&Desk<N>, &DeskKeys<N>),
) -> Result<usize, AllocError> {
    let told = desk.0.look(rt).book().servers(alloc);
    match told {
        Ok(lines) => Ok(lines.len()),
        Err(_) => {
            let told = desk.0.look(rt).book().servers(alloc);
            Ok(told?.len())
        }
    }
}

// Says whether there was no room, so that a window ended.
fn room<N: DeskName, R: Wait>(
    rt: &R,
    alloc: Global,
    desk: (&Desk<N>, &DeskKeys<N>),
) -> Result<bool, AllocError> {
    match ask_room(rt, alloc, desk) {
        Ok(made) => Ok(has_ended(made)),
        Err(_) => Ok(has_ended(ask_room(rt, alloc, desk)?)),
    }
}

fn tell<N: DeskName, R: Wait>(
    rt: &R,
    alloc: Global,
    desk: (&Desk<N>, &DeskKeys<N>),
) -> Result<(usize, usize, bool), AllocError> {
    Ok((
        report(rt, alloc, desk)?,
        lines(rt, alloc, desk)?,
        room(rt, alloc, desk)?,
    ))
}

// A request arrives and is served, and its return waits on the board until there is room.
fn use_up<N: DeskName, R: Wait>(
    rt: &R,
    alloc: Global,
    desk: (&Desk<N>, &DeskKeys<N>),
    relay: &mut RelaySeat,
) -> Result<(usize, usize, bool), Fail>
    requires named { relay.old.board ≡ N.board }
    requires terms { relay.old.view.terms ≡ N.terms }
    ensures { IsSameSeat relay.old relay.new }
{
    let Ok(it) = come(rt, alloc, desk) else {
        return Err(Fail::from("refused"));
    };
    serve(desk.0.board(), relay, it);
    Ok(tell(rt, alloc, desk)?)
}

fn use_up_one<N: DeskName, R: Threads + Wait>(
    rt: &R,
    alloc: Global,
    opened: Opened,
) -> (Result<(usize, usize, bool), Fail>, Closing)
    requires named { opened.board ≡ N.board }
    requires terms { N.terms ≡ terms_for opened.core.setup }
    requires setup { N.setup ≡ opened.core.setup }
{
    let (desk, keys, mut relay) = start::<N, _>(rt, opened);
    let told = use_up(rt, alloc, (&desk, &keys), &mut relay);
    let (closing, _) = desk.close(relay);
    (told, closing)
}

#[test]
fn a_refused_growth_changes_no_desk(rt: HostRuntime) -> Result<(), Fail> {
    let opened = open_in_the_end(&rt, rt.alloc())?;
    let (told, closing) = use_up_one::<Brand, _>(&rt, rt.alloc(), opened);
    same(&rt, told?, (0, 1, true));
    same(&rt, closing, Closing { left: 1 });
    Ok(())
}
