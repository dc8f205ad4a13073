// Lends lists of records to the lazy reckoning and prints what it answers: a refusal, or the tasks that have a pair, those from whose access a
// path leads here, as masks, and the records walked.
use crate::records::{BUMP, GIVE, JOIN, READ, START, TAKE, WRITE};
use crate::telling::{line, tell_pairs};

fn lent(kind: u8, task: u32, on: u32) -> [u32; 3] {
    [kind as u32, task, on]
}

fn walk(rt: &impl Print, name: &str, list: &[[u32; 3]]) {
    line(rt, name);
    tell_pairs(rt, lazy_sets::lazily(list));
}

// A join of a task that has acted, and of one that has not.
fn joined(rt: &impl Print) {
    let acted = [
        lent(START, 0, 2),
        lent(WRITE, 0, 5),
        lent(START, 0, 1),
        lent(READ, 1, 6),
        lent(JOIN, 2, 1),
        lent(READ, 2, 5),
    ];
    walk(rt, "lazy: a join", &acted);
    let idle = [
        lent(START, 0, 2),
        lent(WRITE, 0, 5),
        lent(START, 0, 1),
        lent(JOIN, 2, 1),
        lent(READ, 2, 5),
    ];
    walk(rt, "lazy: a join of a task that never acted", &idle);
}

// The acting task's own write spares the walk, and its own bump does not.
fn spared(rt: &impl Print) {
    let write = [
        lent(START, 0, 1),
        lent(WRITE, 0, 5),
        lent(GIVE, 0, 4),
        lent(TAKE, 1, 4),
        lent(WRITE, 1, 5),
        lent(READ, 1, 5),
    ];
    walk(rt, "lazy: after an own write", &write);
    let bump = [
        lent(START, 0, 1),
        lent(BUMP, 0, 5),
        lent(BUMP, 1, 5),
        lent(READ, 1, 5),
    ];
    walk(rt, "lazy: after an own bump", &bump);
}

// What has no pairs: another ending, a refused record, and a number that is no kind's although its low byte is.
fn without(rt: &impl Print) {
    let other = [lent(START, 0, 1), lent(WRITE, 0, 5), lent(GIVE, 0, 4)];
    walk(rt, "lazy: no access at the end", &other);
    let refused = [lent(START, 0, 1), lent(WRITE, 2, 5), lent(READ, 0, 5)];
    walk(rt, "lazy: refused", &refused);
    let kinds = [lent(START, 0, 1), [256, 0, 5], lent(READ, 0, 5)];
    walk(rt, "lazy: kind 256", &kinds);
}

pub(crate) fn lists(rt: &impl Print) {
    joined(rt);
    spared(rt);
    without(rt);
}
