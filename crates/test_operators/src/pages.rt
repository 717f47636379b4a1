use run_admin::{Answers, Method, NumberSource, Pages, Question, Readiness, Status};
use std::alloc::{AllocError, Global};
use std::cell::Cell;

#[derive(Drop)]
struct Fake {
    alloc: Global,
    now: Cell<u64>,
    health: Readiness,
}

impl NumberSource for Fake {
    fn now(&self) -> u64 {
        let now = self.now.get();
        self.now.set(now.saturating_add(60));
        now
    }

    fn health(&self) -> Readiness {
        self.health
    }

    fn metrics(&self) -> Result<String, AllocError> {
        let now = self.now.get();
        format!(in self.alloc; "made before {now}\n")
    }

    fn state(&self) -> Result<String, AllocError> {
        let now = self.now.get();
        format!(in self.alloc; "{{\"before\":{now}}}")
    }
}

fn asked(path: &[u8]) -> Question<'_> {
    Question {
        method: Method::Get,
        path,
    }
}

#[test]
fn each_path_has_its_answer(rt: HostRuntime) {
    let fake = Fake {
        alloc: rt.alloc(),
        now: Cell::new(0),
        health: Readiness::Stops,
    };
    let mut pages = Pages::new(rt.alloc(), fake);
    let health = pages
        .answer(&asked(b"/health".as_slice()))
        .expect(&rt, "memory");
    assert_eq!(rt;
        (health.status, health.body.as_str()),
        (Status::Unavailable, "stopping\n")
    );
    let page = pages.answer(&asked(b"/".as_slice())).expect(&rt, "memory");
    assert!(rt; page.body.as_str().starts_with("<!doctype html>"));
    let none = pages.answer(&asked(b"/x".as_slice())).expect(&rt, "memory");
    assert_eq!(rt; none.status, Status::NotFound);
    let state = pages
        .answer(&asked(b"/state.json".as_slice()))
        .expect(&rt, "memory");
    assert_eq!(rt; state.body.as_str(), "{\"before\":60}");
}

#[test]
fn a_text_is_made_anew_seldom(rt: HostRuntime) {
    let fake = Fake {
        alloc: rt.alloc(),
        now: Cell::new(0),
        health: Readiness::Serves,
    };
    let mut pages = Pages::new(rt.alloc(), fake);
    for wanted in ["made before 60\n", "made before 60\n", "made before 180\n"] {
        let page = pages
            .answer(&asked(b"/metrics".as_slice()))
            .expect(&rt, "memory");
        assert_eq!(rt; page.body.as_str(), wanted);
    }
}

#[test]
fn each_text_is_kept_for_its_own_path(rt: HostRuntime) {
    let fake = Fake {
        alloc: rt.alloc(),
        now: Cell::new(0),
        health: Readiness::Serves,
    };
    let mut pages = Pages::new(rt.alloc(), fake);
    for (path, wanted) in [
        (b"/state.json".as_slice(), "{\"before\":60}"),
        (b"/state.json".as_slice(), "{\"before\":60}"),
        (b"/metrics".as_slice(), "made before 180\n"),
        (b"/state.json".as_slice(), "{\"before\":240}"),
        (b"/metrics".as_slice(), "made before 300\n"),
    ] {
        let page = pages.answer(&asked(path)).expect(&rt, "memory");
        assert_eq!(rt; page.body.as_str(), wanted);
    }
}
