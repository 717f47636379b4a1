use crate::numbers::{arrive, moment};
use base_verdict::Cause;
use due_key::{Class, Offset};
use log_entries::{Entry, Queue};
use log_lines::{
    Account, Asked, Dates, During, EndedBy, Follower, Format, Line, Load, Numbers, push_line,
};
use log_texts::Names;
use std::alloc::Global;
use std::process::Abort;

// This gives all references one lifetime.
fn line_of<'x>(account: &'x Account, numbers: Option<&'x Numbers>, names: &'x Names) -> Line<'x> {
    let load = Load { all: 2, own: 1 };
    Line {
        account,
        numbers,
        names,
        load,
    }
}

#[test]
fn a_line_has_the_fields_of_httplog(rt: HostRuntime) {
    let alloc = rt.alloc();
    let mut list = Vec::new(alloc);
    list.push(String::from_str(alloc, "a").expect(&rt, "memory"))
        .expect(&rt, "memory");
    let names = Names::new(list);
    let mut account = Account::new(None, moment(&rt, 5));
    account.asked = Some(Asked {
        method: vec![in alloc; b'G', b'E', b'T'].expect(&rt, "memory"),
        target: vec![in alloc; b'/', b'"', b'a'].expect(&rt, "memory"),
        minor: 1,
    });
    account.wish = Some((Class::clamp(0), Offset::clamp(-3)));
    account.server = Some(0);
    account.moments.asked = Some(moment(&rt, 6));
    account.moments.granted = Some(moment(&rt, 26));
    account.moments.ended = moment(&rt, 40);
    account.status = Some(200);
    account.sent = 99;
    let line = line_of(&account, None, &names);
    let mut dates = Dates::new(alloc, 1_000_000_000_000);
    let mut text = String::new(alloc);
    push_line(alloc, &mut text, &mut dates, Format::Text, &line).expect(&rt, "memory");
    assert_eq!(rt;
        text.as_str(),
        "2001-09-09T01:46:40.040Z - dueproxy - request - [09/Sep/2001:01:46:40.005] in out/a 1/20/-1/-1/35 200 99 - - ---- 0/0/2/1/0 0/0 \"GET /#22a HTTP/1.1\" class=0 offset=-3 read=0\n"
    );
    let mut text = String::new(alloc);
    push_line(alloc, &mut text, &mut dates, Format::Json, &line).expect(&rt, "memory");
    assert!(rt;
        text.as_str()
            .starts_with("{\"time\":\"2001-09-09T01:46:40.040Z\"")
    );
    assert!(rt; text.as_str().contains("\"wait_ms\":20"));
}

// Returns the numbers of a request that was aborted while it waited.
fn aborted(rt: &impl Abort, alloc: Global) -> Numbers {
    let mut follower = Follower::new(alloc);
    for entry in [
        arrive(rt, 1, 0, 0),
        Entry::Joined(1, Queue::Backend),
        Entry::Abort(moment(rt, 9), 1),
        Entry::Left(1, Cause::Aborted),
    ] {
        follower.follow(entry).expect(rt, "memory");
    }
    follower.take(1).expect(rt, "numbers")
}

#[test]
fn who_was_aborted_since_its_time_was_over_left_by_a_timeout(rt: HostRuntime) {
    let alloc = rt.alloc();
    let numbers = aborted(&rt, alloc);
    let names = Names::new(Vec::new(alloc));
    let mut dates = Dates::new(alloc, 0);
    for (format, by, left) in [
        (Format::Text, EndedBy::ServerTime, " left=timeout\n"),
        (Format::Text, EndedBy::Client, " left=aborted\n"),
        (Format::Json, EndedBy::ServerTime, "\"left\":\"timeout\""),
        (Format::Json, EndedBy::Client, "\"left\":\"aborted\""),
    ] {
        let mut account = Account::new(None, moment(&rt, 0));
        account.end_by(by, During::Queue);
        let line = line_of(&account, Some(&numbers), &names);
        let mut text = String::new(alloc);
        push_line(alloc, &mut text, &mut dates, format, &line).expect(&rt, "memory");
        assert!(rt; text.as_str().contains(left), "{}", text.as_str());
    }
}
