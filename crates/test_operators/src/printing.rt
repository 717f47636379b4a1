use dispatch_reports::{EndedWindow, ServerLine};
use due_key::Moment;
use late_cert::Reports;
use log_texts::Names;
use run_windows::{Handed, WindowPrinter};
use std::alloc::Global;
use std::process::Abort;
use std::sync::Wait;
use std::thread;
use std::thread::Threads;

// A window in which the only server was given this number of requests on arrival.
pub(crate) fn window(rt: &impl Abort, alloc: Global, direct: usize) -> EndedWindow {
    let line = ServerLine {
        up: true,
        direct,
        granted: 0,
    };
    EndedWindow {
        reports: Reports::new(alloc),
        servers: vec![in alloc; line].expect(rt, "memory"),
    }
}

#[test]
fn a_full_queue_counts_what_it_leaves_out(rt: HostRuntime) {
    let mut handed = Handed::new(rt.alloc(), 1).expect(&rt, "memory");
    for number in 1..19 {
        let ended = Moment::new(10 * number).expect(&rt, "a moment");
        handed.hand_over(window(&rt, rt.alloc(), 2), ended);
    }
    assert_eq!(rt; handed.take_left_out(), 2);
    assert_eq!(rt; handed.take_left_out(), 0);
    let first = handed.next().expect(&rt, "a window");
    assert_eq!(rt; first.number, 1);
    assert_eq!(rt; first.began.get(), 0);
    assert_eq!(rt; first.ended.get(), 10);
    handed.hand_over(window(&rt, rt.alloc(), 2), Moment::zero());
    let mut last = 0;
    for _ in 0..16 {
        last = handed.next().expect(&rt, "a window").number;
    }
    assert_eq!(rt; last, 19);
    assert!(rt; handed.rests());
    handed.end();
    assert!(rt; !handed.rests());
    let told = handed.into_told();
    assert_eq!(rt; told.windows, 19);
    let line = told.sums.lines().first().expect(&rt, "a line");
    assert_eq!(rt; line.direct, 38);
}

// Hands three windows over while a thread prints them, and returns once the thread has ended.
fn print_three<R: Print + Eprint + Wait + Threads + Abort + Sync>(
    rt: &R,
    alloc: Global,
    printer: &WindowPrinter,
) {
    thread::scope(thread::scope_env(), rt, |scope| {
        let printing = scope.spawn(move || printer.print_all(rt)).ok();
        for _ in 0..3 {
            printer.hand_over(rt, window(rt, alloc, 1), Moment::zero());
        }
        printer.end(rt);
        if let Some(handle) = printing {
            handle.join(rt);
        }
    })
}

#[test]
fn a_thread_prints_all_before_it_ends(rt: HostRuntime) {
    let alloc = rt.alloc();
    let names = Names::new(Vec::new(alloc));
    let printer = WindowPrinter::new(alloc, names, 1).expect(&rt, "memory");
    print_three(&rt, alloc, &printer);
    let (_names, told, _sink) = printer.into_told();
    assert_eq!(rt; told.windows, 3);
    assert!(rt; told.fault.is_none());
}
