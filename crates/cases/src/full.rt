// Two recordings that fill a table, and that no text holds: task 10 and above have two digits, and row 5 has five records more than a
// recording takes. Each gives its n-th record, from 0.
use crate::records::{LOST, READ, START, TAKE, record};
use crate::telling::tell_numbered;
use theory::{Answer, RECORDS, Record};

// With every task live the largest mask is accepted: 15 starts and a mark.
pub(crate) const STARTS: usize = 16;

// Row 5: so many records are accepted and no more.
const MOST: usize = RECORDS as usize;

pub(crate) const ROW_5: usize = MOST + 5;

// How many of its answers go before the first that is printed.
const SILENT: usize = MOST - 1;

// The places of those after the first that is one too many.
const SEMAPHORE_TOO_HIGH: usize = MOST + 1;

const MARK_OF_NOBODY: usize = MOST + 2;

const MARK_TOO_MANY: usize = MOST + 3;

const TASK_NOT_LIVE: usize = MOST + 4;

pub(crate) fn starts(n: usize) -> Record {
    match n {
        0..=14 => record(START, 0, n as u32 + 1),
        _ => record(LOST, 0, 65_535),
    }
}

// Reads of variable 1, of which one is too many. Then a semaphore and a mask that rows 3 and 4 refuse, as these come before row 5;
// then a mark and a task that is not live, as row 5 comes before row 6.
pub(crate) fn row_5(n: usize) -> Record {
    match n {
        SEMAPHORE_TOO_HIGH => record(TAKE, 0, 32),
        MARK_OF_NOBODY => record(LOST, 0, 0),
        MARK_TOO_MANY => record(LOST, 0, 1),
        TASK_NOT_LIVE => record(READ, 1, 1),
        _ => record(READ, 0, 1),
    }
}

pub(crate) fn tell_row_5(rt: &impl Print, n: usize, a: Answer) {
    if SILENT <= n {
        tell_numbered(rt, a);
    }
}
