use super::*;

/// After it comes line 4.
const LISTEN: &str = "listen w\nbind :80\nacl x path /\n";

static TABLES: [FaultTable; 6] = [
    FaultTable {
        name: "a refused section declares no server",
        front: LISTEN,
        end: "",
        rows: &[
            (
                "use-server b if x\nbackend y\nserver b h:80",
                4,
                FaultCause::Unknown,
            ),
            (
                "use-server b if x\nlisten y\nserver b h:80",
                4,
                FaultCause::Unknown,
            ),
            (
                "use-server b if x\nfrontend \"y\"\nserver b h:80",
                4,
                FaultCause::Unknown,
            ),
            (
                "use-server b if x\nbackend y\ncookie\nserver b h:80\ndefaults\nserver b h:80",
                4,
                FaultCause::Unknown,
            ),
        ],
    },
    FaultTable {
        name: "a server counts past a faulty line",
        front: LISTEN,
        end: "",
        rows: &[
            (
                "use-server b if x\ncookie\nserver b h:80",
                5,
                FaultCause::Keyword,
            ),
            (
                "use-server b if x\ncookie\ndefaults\nserver b h:80",
                4,
                FaultCause::Unknown,
            ),
            ("use-server b if x\nserver b h:80 x", 4, FaultCause::Unknown),
            (
                "use-server b if x\nbind :81\nserver b h:80 x\nserver b h:80",
                5,
                FaultCause::Twice,
            ),
        ],
    },
    FaultTable {
        name: "a faulty condition counts behind a declared server",
        front: LISTEN,
        end: "",
        rows: &[
            ("use-server b if y\nserver a h:80", 4, FaultCause::Unknown),
            (
                "use-server b if !!x\nserver b h:80",
                4,
                FaultCause::Condition,
            ),
            ("use-server b if !!x\nserver a h:80", 4, FaultCause::Unknown),
            (
                "use-server b if { path\nserver b h:80",
                4,
                FaultCause::Words,
            ),
            ("use-server b\ncookie\nserver b h:80", 4, FaultCause::Words),
        ],
    },
    FaultTable {
        name: "the first of pins and other lines is named",
        front: LISTEN,
        end: "",
        rows: &[
            (
                "use-server b if x\ncookie\nserver a h:80",
                4,
                FaultCause::Unknown,
            ),
            (
                "server a h:80\ncookie\nuse-server b if x",
                5,
                FaultCause::Keyword,
            ),
            (
                "use-server a if x\ncookie\nuse-server b if x\nserver a h:80",
                5,
                FaultCause::Keyword,
            ),
            (
                "use-server a if x\nuse-server b if x\nuse-server c if x\nserver a h:80\nserver c h:80",
                5,
                FaultCause::Unknown,
            ),
            (
                "use-server a if x\nretries x\ncookie\n\"\nserver a h:80",
                5,
                FaultCause::Number,
            ),
        ],
    },
    FaultTable {
        name: "a pin may end the file",
        front: LISTEN,
        end: "",
        rows: &[
            ("server a h:80\nuse-server b if x", 5, FaultCause::Unknown),
            ("use-server b if x", 4, FaultCause::Unknown),
        ],
    },
    FaultTable {
        name: "a pin may end a file without a bind",
        front: "",
        end: "",
        rows: &[(
            "listen w\nacl x path /\nserver a h:80\nuse-server a if x",
            1,
            FaultCause::Missing,
        )],
    },
];

#[test]
fn pins_of_no_server_are_found_past_other_faults(rt: HostRuntime) {
    for table in &TABLES {
        is_each_faulty(&rt, rt.alloc(), table);
    }
}

fn are_three(rt: &impl Abort, pins: &[Pin]) {
    let [third, first, second] = pins else {
        panic!(rt; "not three pins");
    };
    let servers = third.server == 2 && first.server == 0 && second.server == 1;
    holds(rt, servers, "pins", "their servers");
    let guards = matches!(third.guard, Guard::If(_)) && matches!(first.guard, Guard::Unless(_));
    holds(rt, guards, "pins", "their guards");
}

#[test]
fn a_pin_may_stand_before_its_server(rt: HostRuntime) {
    let text =
        b"listen w\nbind :80\nacl x path /\nuse-server c if x\nserver a h:80\nuse-server a unless x\nserver b h:80\nserver c h:80\nuse-server b if x";
    let config = read(rt.alloc(), text).expect(&rt, "a configuration");
    are_three(&rt, config.pins.as_slice());
    drop(config);
}
