use crate::assertions::{holds, same};
use log_texts::MOST_BYTES;
use replay::{Fault, replay};
use std::alloc::Global;
use std::process::Abort;

// Scripts, and the first faulty line of each.
static ROWS: [(&str, usize); 9] = [
    ("0 arrive 0 0\n0 arrive 0\n0 done", 2),
    ("0 arrive 0 0\nno event\n", 2),
    (" # no comment\n", 1),
    ("\n\n1 done 1\r", 3),
    ("places 3\n0 done 1\nlog 9\n", 3),
    ("retry 3\n", 1),
    ("0 arrive 0 0 *\n", 1),
    ("1000000000000000000 done 1\n", 1),
    ("0 arrive 0 1000000000000000000\n", 1),
];

// Returns how the replay of a script ends that writes nothing.
fn end_of(rt: &impl Abort, alloc: Global, script: &[u8]) -> Result<(), Fault> {
    let mut reader = script;
    let mut trace = Vec::new(alloc);
    let end = replay(alloc, &mut reader, &mut trace);
    holds(rt, trace.is_empty());
    end
}

#[test]
fn a_faulty_script_names_its_line_and_leaves_nothing_written(rt: HostRuntime) {
    for &(script, line) in &ROWS {
        let end = end_of(&rt, rt.alloc(), script.as_bytes());
        same(&rt, (script, end), (script, Err(Fault::Script { line })));
    }
}

#[test]
fn a_script_has_four_mebibytes_at_most(rt: HostRuntime) {
    let mut script = vec![in rt.alloc(); b'#'; MOST_BYTES].expect(&rt, "memory");
    same(&rt, end_of(&rt, rt.alloc(), &script), Ok(()));
    script.push(b'#').expect(&rt, "memory");
    let end = end_of(&rt, rt.alloc(), &script);
    same(&rt, end, Err(Fault::Script { line: 0 }));
}
