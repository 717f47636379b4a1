//! Samples that several tests use.
use due_key::Moment;
use log_texts::Names;
use std::alloc::Global;
use std::process::Abort;

/// Makes a moment. A number out of range, which no test has, would give 0, so this can't fail.
pub fn moment(number: u64) -> Moment {
    Moment::new(number).unwrap_or(Moment::zero())
}

/// Makes servers with these names.
pub fn named(rt: &impl Abort, alloc: Global, names: &[&str]) -> Names {
    let mut list = Vec::new(alloc);
    for name in names {
        let name = String::from_str(alloc, name).expect(rt, "memory");
        list.push(name).expect(rt, "memory");
    }
    Names::new(list)
}
