use run_admin::{AdminPage, Answers, Asked, Method, Question, Status, asked_of, push_answer};
use std::alloc::{AllocError, Global};

#[test]
fn a_head_is_a_question(rt: HostRuntime) {
    let head = b"GET /metrics?x=1 HTTP/1.1\r\nHost: a\r\n\r\n";
    let question = Question {
        method: Method::Get,
        path: b"/metrics".as_slice(),
    };
    assert_eq!(rt; asked_of(head.as_slice()), Asked::Whole(question));
    assert_eq!(rt; asked_of(b"GET /me".as_slice()), Asked::Part);
    assert_eq!(rt;
        asked_of(b"\x16\x03\x01 \r\n\r\n".as_slice()),
        Asked::Nothing
    );
}

#[derive(Drop)]
struct Echo {
    alloc: Global,
}

impl Answers for Echo {
    fn answer(&mut self, question: &Question) -> Result<AdminPage, AllocError> {
        let mut body = String::new(self.alloc);
        for byte in question.path {
            body.push(char::from(*byte))?;
        }
        Ok(AdminPage {
            status: Status::Good,
            kind: "text/plain",
            body,
        })
    }
}

#[test]
fn a_page_is_written(rt: HostRuntime) {
    let mut echo = Echo { alloc: rt.alloc() };
    let question = Question {
        method: Method::Get,
        path: b"/x".as_slice(),
    };
    let page = echo.answer(&question).expect(&rt, "memory");
    let mut text = String::new(rt.alloc());
    push_answer(&mut text, &page, true).expect(&rt, "memory");
    let head = "HTTP/1.1 200 OK\r\nContent-Type: text/plain\r\nContent-Length: 2\r\n";
    assert!(rt; text.as_str().starts_with(head));
    assert!(rt; text.as_str().ends_with("\r\n\r\n/x"));
}
