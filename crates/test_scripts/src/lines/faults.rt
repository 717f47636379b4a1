use crate::assertions::same;
use log_texts::{Line, MOST_BYTES, ScriptError, is_faulty, read};
use proxy_words::Lines;
use std::alloc::Global;

// Scripts, and the first faulty line of each.
static FAULTS: [(&str, Option<usize>); 51] = [
    // Places, logs and servers.
    ("", None),
    ("# none\n\n \t\r\n0 arrive 0 0\r\n1 done 1", None),
    ("0 arrive 0 0\n # no comment\nnor this\n", Some(2)),
    ("\n\n1 done 1\r", Some(3)),
    (
        "places 4096\nlog 262144\nplaces 1\nserver a 0 0 256\n",
        None,
    ),
    ("places 0", Some(1)),
    ("places 4097", Some(1)),
    ("places 1 1", Some(1)),
    ("log", Some(1)),
    ("log 0", Some(1)),
    ("log 262145", Some(1)),
    ("server a 0 0 257", Some(1)),
    ("server a 0000000000 0 1", Some(1)),
    ("server a/b 0 0 1", Some(1)),
    ("server a 0 0 1\nserver a 0 0 2\n", Some(2)),
    ("server a 0 0 1\n0 done 1\nlog 9\n", Some(3)),
    ("log 9\nroll\nroll\n0 tick", None),
    ("roll\nlog 9\n", Some(2)),
    // Retries, redispatch and timeouts have their forms.
    ("retries 0\nretries 999999999", None),
    ("retries", Some(1)),
    ("retries 1 2", Some(1)),
    ("retries -1", Some(1)),
    ("retries 1000000000", Some(1)),
    ("retries one", Some(1)),
    (" redispatch\t\nredispatch\r\n", None),
    ("redispatch 1", Some(1)),
    ("Redispatch", Some(1)),
    ("queue-timeout 0\nqueue-timeout 999999999", None),
    ("queue-timeout", Some(1)),
    ("queue-timeout 1 2", Some(1)),
    ("queue-timeout -1", Some(1)),
    ("queue-timeout 10s", Some(1)),
    ("queue-timeout 1000000000", Some(1)),
    ("queue_timeout 1", Some(1)),
    // Checked servers have rise and fall.
    ("server a 0 0 1 1 1\nserver b 1 2 0 2 3", None),
    ("server a 0 0 1 999999999 999999999", None),
    ("server a 0 0 1 2", Some(1)),
    ("server a 0 0 1 2 3 4", Some(1)),
    ("server a 0 0 1 0 3", Some(1)),
    ("server a 0 0 1 2 0", Some(1)),
    ("server a 0 0 1 1000000000 3", Some(1)),
    ("server a 0 0 1 2 1000000000", Some(1)),
    ("server a 0 0 1 2 -3", Some(1)),
    ("server a 0 0 257 2 3", Some(1)),
    ("server a 0 0 1 2 3\nserver a 0 0 1", Some(2)),
    // A header line after an event is a fault.
    ("0 tick\nretries 3", Some(2)),
    ("0 fail 1\nredispatch", Some(2)),
    ("0 abort 1\n\nqueue-timeout 3", Some(3)),
    ("0 check a up\nserver a 0 0 1 2 3", Some(2)),
    ("redispatch\n0 tick\n1 tick\nplaces 3", Some(4)),
    // A name that no server has isn't a fault.
    ("retries 3\n0 tick\n0 check a up\n0 check b down", None),
];

// Returns the first faulty line of a script: of its header lines, or else of those after them.
fn fault(alloc: Global, script: &[u8]) -> Option<usize> {
    match read(alloc, script) {
        Err(ScriptError::Fault { line }) => Some(line),
        Err(ScriptError::NoMemory) => None,
        Ok((_, header)) => fault_from(script, header),
    }
}

fn fault_from(script: &[u8], header: usize) -> Option<usize> {
    let mut number = 0usize;
    for line in Lines::new(script) {
        number = number.saturating_add(1);
        if header < number && is_faulty(&Line::of(line)) {
            return Some(number);
        }
    }
    None
}

#[test]
fn the_first_fault_has_its_line(rt: HostRuntime) {
    for &(script, line) in &FAULTS {
        let found = fault(rt.alloc(), script.as_bytes());
        same(&rt, (script, found), (script, line));
    }
}

#[test]
fn a_script_has_four_mebibytes_at_most(rt: HostRuntime) {
    let mut script = vec![in rt.alloc(); b'#'; MOST_BYTES].expect(&rt, "memory");
    same(&rt, fault(rt.alloc(), &script), None);
    script.push(b'#').expect(&rt, "memory");
    same(&rt, fault(rt.alloc(), &script), Some(0));
}

#[test]
fn a_script_has_64_servers_at_most(rt: HostRuntime) {
    let mut script = String::new(rt.alloc());
    for server in 0..64u64 {
        writeln!(script, "server s{server} 1 0 1").expect(&rt, "memory");
    }
    same(&rt, fault(rt.alloc(), script.as_bytes()), None);
    script.push_str("server more 1 0 1\n").expect(&rt, "memory");
    same(&rt, fault(rt.alloc(), script.as_bytes()), Some(65));
}
