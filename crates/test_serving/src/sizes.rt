use run_parts::RunLimits;

/// A name, the numbers of workers, loops, places and clients, and whether they are within the limits.
type Row = (&'static str, Option<u32>, Option<u32>, u32, u32, bool);

static ROWS: [Row; 10] = [
    ("seven workers", Some(7), None, 1024, 0, true),
    ("no worker", Some(0), None, 1024, 0, false),
    (
        "as many workers as there can be",
        Some(256),
        None,
        1024,
        0,
        true,
    ),
    ("a worker too many", Some(257), None, 1024, 0, false),
    ("no loop", None, Some(0), 1024, 0, false),
    ("a loop too many", None, Some(65), 1024, 0, false),
    ("no place", None, None, 0, 0, false),
    ("a place too many", None, None, 4097, 0, false),
    (
        "as many clients as there can be",
        None,
        None,
        1,
        999_999_999,
        true,
    ),
    ("a client too many", None, None, 1, 1_000_000_000, false),
];

#[test]
fn each_size_is_within_its_range(rt: HostRuntime) {
    for &(name, workers, loops, places, clients, answer) in &ROWS {
        let sizes = RunLimits::new(workers, loops, None, places, clients);
        assert_eq!(rt; sizes.is_some(), answer, "{name}");
    }
}

#[test]
fn so_many_wait_beyond_the_places(rt: HostRuntime) {
    for &(waiting, answer) in &[(0, false), (1, true), (65_536, true), (65_537, false)] {
        let sizes = RunLimits::new(None, None, Some(waiting), 1024, 0);
        assert_eq!(rt; sizes.is_some(), answer, "{waiting}");
    }
}
