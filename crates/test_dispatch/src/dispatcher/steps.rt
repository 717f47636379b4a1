use super::calls::{Call, OfLists, OfTrees, ask, made};
use super::facts::{Fact, same_at, tells};
use super::setups::Plan;
use dispatch_core::Refusal;
use log_entries::Entry;
use std::alloc::Global;
use std::process::Abort;

/// A step of a test, which runs on two dispatchers, one with each kind of queue.
#[derive(Clone, Copy)]
pub enum Step {
    /// The call is accepted at this moment.
    Call(u64, Call),
    /// The call is refused at this moment, and the log doesn't change.
    Refused(u64, Call, Refusal),
    /// The next window begins.
    Roll,
    /// The log has this entry at this position, counted from 0.
    Entry(usize, Entry),
    /// The log ends with this entry.
    LastEntry(Entry),
    /// The dispatchers tell this fact.
    Tells(Fact),
}

/// Runs the steps on dispatchers of a plan. An explicit `drop` is proved faster than the drops of
/// all parts of a dispatcher.
pub fn play(rt: &impl Abort, alloc: Global, plan: Plan, steps: &[Step]) {
    let mut lists = made(rt, alloc, plan);
    let mut trees = made(rt, alloc, plan);
    play_on(rt, alloc, &mut lists, &mut trees, steps);
    drop(lists);
    drop(trees);
}

fn play_on(
    rt: &impl Abort,
    alloc: Global,
    lists: &mut OfLists,
    trees: &mut OfTrees,
    steps: &[Step],
) {
    for (number, step) in steps.iter().enumerate() {
        play_one(rt, alloc, lists, trees, number, step);
    }
}

// Where it fails, it tells the number of the step, from 0.
fn play_one(
    rt: &impl Abort,
    alloc: Global,
    lists: &mut OfLists,
    trees: &mut OfTrees,
    number: usize,
    step: &Step,
) {
    match step {
        Step::Call(at, call) => {
            let refusal = ask(rt, alloc, lists, trees, *at, call);
            same_at(rt, number, refusal, None);
        }
        Step::Refused(at, call, expected) => {
            let before = lists.log().len();
            let refusal = ask(rt, alloc, lists, trees, *at, call);
            same_at(rt, number, refusal, Some(*expected));
            tells(rt, lists, number, &Fact::Entries(before));
        }
        Step::Roll => {
            lists.roll();
            trees.roll();
        }
        Step::Entry(position, entry) => has_entry(rt, lists, number, *position, entry),
        Step::LastEntry(entry) => {
            has_entry(
                rt,
                lists,
                number,
                lists.log().len().saturating_sub(1),
                entry,
            );
        }
        Step::Tells(fact) => {
            tells(rt, lists, number, fact);
            tells(rt, trees, number, fact);
        }
    }
}

fn has_entry(rt: &impl Abort, core: &OfLists, number: usize, position: usize, entry: &Entry) {
    let found = core.log().entries().get(position).copied();
    same_at(rt, number, found, Some(*entry));
}
