use crate::assertions::same;
use log_texts::{Line, step_in};

// Lines, and their steps in debug form.
static ASKED: [(&str, &str); 17] = [
    (
        "\t7  arrive 5000\t-600000 ",
        "Arrive { moment: Moment { number: 7 }, class: Class { number: 2047 }, offset: Offset { number: -524287 }, pin: None }",
    ),
    (
        "7 arrive 0 0 s-1.x",
        r#"Arrive { moment: Moment { number: 7 }, class: Class { number: 0 }, offset: Offset { number: 0 }, pin: Some(Name { text: "s-1.x" }) }"#,
    ),
    (
        "00 arrive -0 0",
        "Arrive { moment: Moment { number: 0 }, class: Class { number: 0 }, offset: Offset { number: 0 }, pin: None }",
    ),
    (
        "999999999999999999 done 000000000000000012",
        "Done { moment: Moment { number: 999999999999999999 }, ticket: 12 }",
    ),
    (
        "3 fail 1",
        "Fail { moment: Moment { number: 3 }, ticket: 1 }",
    ),
    (
        " 03\tabort  999999999999999999\t",
        "Abort { moment: Moment { number: 3 }, ticket: 999999999999999999 }",
    ),
    ("14 tick", "Tick { moment: Moment { number: 14 } }"),
    (
        "\t999999999999999999 tick ",
        "Tick { moment: Moment { number: 999999999999999999 } }",
    ),
    (
        "4 check a down",
        r#"Check { moment: Moment { number: 4 }, server: Name { text: "a" }, answered: false }"#,
    ),
    (
        "00  check\ts-1.x up ",
        r#"Check { moment: Moment { number: 0 }, server: Name { text: "s-1.x" }, answered: true }"#,
    ),
    (
        "5 check up down",
        r#"Check { moment: Moment { number: 5 }, server: Name { text: "up" }, answered: false }"#,
    ),
    (
        "3 limit a 1",
        r#"Limit { moment: Moment { number: 3 }, server: Name { text: "a" }, limit: Open(1) }"#,
    ),
    (
        "\t00 limit  limit 999999999 ",
        r#"Limit { moment: Moment { number: 0 }, server: Name { text: "limit" }, limit: Open(999999999) }"#,
    ),
    (
        "6 limit a 0",
        r#"Limit { moment: Moment { number: 6 }, server: Name { text: "a" }, limit: Open(0) }"#,
    ),
    (
        "7 limit a closed",
        r#"Limit { moment: Moment { number: 7 }, server: Name { text: "a" }, limit: Closed }"#,
    ),
    ("roll", "Roll"),
    (" \troll ", "Roll"),
];

// Lines without a step.
static NOTHING: [&str; 61] = [
    // Similar to limits and rolls.
    "1 limit",
    "1 limit s1",
    "1 limit 1",
    "1 limit s1 1 1",
    "1 limit s1 -1",
    "1 limit s1 1000000000",
    "1 limit 1 s1",
    "1 limit * 1",
    "-1 limit s1 1",
    "1000000000000000000 limit s1 1",
    "limit s1 1",
    "1 limits s1 1",
    "1 roll",
    "roll 1",
    "roll roll",
    "Roll",
    "rolls",
    // Similar to arrivals and ends, or to nothing.
    "1000000000000000000 done 1",
    "1 done 0000000000000000001",
    "1 done -1",
    "1 done",
    "1 done 1 1",
    "1 arrive 0",
    "1 arrive 0 0 *",
    "1 arrive 0 0 s1 s2",
    "-1 arrive 0 0",
    "1 Arrive 0 0",
    "places 3",
    "",
    // Similar to failures and aborts.
    "1 fail",
    "1 fail 1 2",
    "1 fail -1",
    "1 fail s1",
    "1 fail 1000000000000000000",
    "1000000000000000000 fail 1",
    "-1 fail 1",
    "1 failed 1",
    "fail 1",
    "1 abort",
    "1 abort 1 2",
    "1 abort -1",
    "1 abort 1000000000000000000",
    "1000000000000000000 abort 1",
    "1 aborted 1",
    // Similar to ticks and checks.
    "tick",
    "1 tick 1",
    "-1 tick",
    "1000000000000000000 tick",
    "1 ticks",
    "1 check",
    "1 check s1",
    "1 check up",
    "1 check s1 up up",
    "1 check s1 Up",
    "1 check s1 downs",
    "1 check s1 1",
    "1 check up s1",
    "1 check * up",
    "-1 check s1 up",
    "1000000000000000000 check s1 down",
    "check s1 up",
];

#[test]
fn each_line_asks_for_its_step(rt: HostRuntime) {
    for &(line, asked) in &ASKED {
        let step = step_in(Line::of(line.as_bytes())).expect(&rt, line);
        let text = format!(in rt.alloc(); "{step:?}").expect(&rt, "memory");
        same(&rt, (line, text.as_str()), (line, asked));
    }
}

#[test]
fn other_lines_ask_for_nothing(rt: HostRuntime) {
    for &line in &NOTHING {
        let step = step_in(Line::of(line.as_bytes()));
        same(&rt, (line, step.is_none()), (line, true));
    }
}
