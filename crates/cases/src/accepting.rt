// Takes entries of accepted faults in, and prints how a Race is reported beside them. The tables are made by hand: tasks 1, 3 and 7 have each
// written variable 5, and none knows of another's write.
use crate::records::{START, WRITE, record};
use crate::telling::{line, tell_excuse};
use theory::{
    CLOCK_CELLS, COLUMNS, Clocks, Control, HISTORY_CELLS, History, RecordNumber, VARIABLES,
};

// Where what a write of variable 5 asks of the tasks begins: a write is the second kind of access.
const ASKED: usize = (VARIABLES as usize + 5) * COLUMNS;

fn written() -> History {
    let mut last = [0u32; HISTORY_CELLS];
    last[ASKED + 1] = 11;
    last[ASKED + 3] = 13;
    last[ASKED + 7] = 12;
    last
}

fn apart() -> Clocks {
    let mut cells = [0u32; CLOCK_CELLS];
    cells[COLUMNS + 1] = 11;
    cells[3 * COLUMNS + 3] = 13;
    cells[7 * COLUMNS + 7] = 12;
    cells
}

// Its partner by document 01 is given as 11, that of task 1, whatever the record is.
fn ask(rt: &impl Print, control: &Control, kind: u8, task: u32, on: u32) {
    let last = written();
    let fullclocks = apart();
    tell_excuse(
        rt,
        checker::excuse(
            control,
            &last,
            &fullclocks,
            record(kind, task, on),
            RecordNumber(11),
        ),
    );
}

fn tell_room(rt: &impl Print, control: &Control) {
    let full = checker::entries_full(control);
    line(rt, if full { "full" } else { "room" });
}

fn take(rt: &impl Print, control: &mut Control, v: u32, low: u32, high: u32, accepted: bool) {
    let taken_in = checker::enter(control, v, low, high, accepted);
    line(rt, if taken_in { "taken in" } else { "left out" });
}

// An entry, and the Race of a write by task 3 after it.
fn after(
    rt: &impl Print,
    control: &mut Control,
    name: &str,
    v: u32,
    low: u32,
    high: u32,
    accepted: bool,
) {
    line(rt, name);
    take(rt, control, v, low, high, accepted);
    ask(rt, control, WRITE, 3, 5);
}

// Other records, beside the same entries.
fn others(rt: &impl Print, control: &Control) {
    line(rt, "the other task acts");
    ask(rt, control, WRITE, 1, 5);
    ask(rt, control, WRITE, 7, 5);
    line(rt, "no access, no such task, no such variable");
    ask(rt, control, START, 3, 5);
    ask(rt, control, WRITE, 16, 5);
    ask(rt, control, WRITE, 3, 64);
}

// An entry that replaces another is counted too.
fn replaced(control: &mut Control) {
    for n in 0..199u32 {
        checker::enter(control, 5, 1, 3, n % 2 == 0);
    }
}

fn most(rt: &impl Print) {
    line(rt, "199 entries");
    let mut control = checker::fresh().control;
    replaced(&mut control);
    tell_room(rt, &control);
    after(rt, &mut control, "200", 5, 3, 7, true);
    tell_room(rt, &control);
    after(rt, &mut control, "201", 5, 3, 7, false);
}

pub(crate) fn entries(rt: &impl Print) {
    let mut control = checker::fresh().control;
    line(rt, "no entries");
    ask(rt, &control, WRITE, 3, 5);
    after(
        rt,
        &mut control,
        "accepted for another variable",
        6,
        1,
        3,
        true,
    );
    after(rt, &mut control, "one of two accepted", 5, 1, 3, true);
    after(rt, &mut control, "all accepted", 5, 3, 7, true);
    others(rt, &control);
    after(rt, &mut control, "open again", 5, 3, 7, false);
    after(
        rt,
        &mut control,
        "an entry of no such variable",
        64,
        3,
        7,
        true,
    );
    after(rt, &mut control, "of no such task", 5, 16, 7, true);
    after(rt, &mut control, "of no such other task", 5, 3, 16, true);
    most(rt);
}
