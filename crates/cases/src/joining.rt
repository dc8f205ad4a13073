// Joins a semaphore's clock into a task's, as a take does, and prints whether any entry was newer, and some of the task's entries after it.
ghost use Rattle.std.specs.Prelude.{◌<◌};
ghost use Rattle.theory.specs.order.Limits.{tasks};

use crate::telling::line;
use theory::{CLOCK_CELLS, COLUMNS, Clocks, FIRST_SEMAPHORE};

// Where the clocks of task 1 and of semaphore 4 begin.
const TASK: usize = COLUMNS;

const SEMAPHORE: usize = (FIRST_SEMAPHORE + 4) * COLUMNS;

// The task's entries are all 5; the semaphore's are all `whole`, but for one.
fn clocks(whole: u32, at: usize, entry: u32) -> Clocks
    requires { at < tasks }
{
    let mut cells = [0u32; CLOCK_CELLS];
    for c in 0..COLUMNS {
        cells[TASK + c] = 5;
        cells[SEMAPHORE + c] = whole;
    }
    cells[SEMAPHORE + at] = entry;
    cells
}

fn tell_joined(rt: &impl Print, newer: Option<bool>) {
    let word = match newer {
        Some(true) => "newer",
        Some(false) => "none newer",
        None => "none",
    };
    line(rt, word);
}

fn tell_entry(rt: &impl Print, n: u32) {
    let _ = println!(rt; "entry {n}");
}

fn run_joining(rt: &impl Print, name: &str, whole: u32, at: usize, entry: u32)
    requires { at < tasks }
{
    line(rt, name);
    let mut cells = clocks(whole, at, entry);
    tell_joined(rt, checker::acquire(&mut cells, 1, 4));
    tell_entry(rt, cells[TASK]);
    tell_entry(rt, cells[TASK + 7]);
    tell_entry(rt, cells[TASK + 15]);
}

pub(crate) fn joins(rt: &impl Print) {
    run_joining(rt, "equal clocks", 5, 0, 5);
    run_joining(rt, "an older clock", 4, 7, 3);
    run_joining(rt, "newer in one entry", 4, 7, 6);
    run_joining(rt, "newer in the last", 5, 15, 6);
    run_joining(rt, "newer in the first", 0, 0, 6);
    line(rt, "no such task, no such semaphore");
    let mut cells = clocks(9, 0, 9);
    tell_joined(rt, checker::acquire(&mut cells, 16, 4));
    tell_joined(rt, checker::acquire(&mut cells, 1, 32));
    tell_entry(rt, cells[TASK]);
}
