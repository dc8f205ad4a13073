// Rows of the clocks' and the sets' tables: which row an act acquires and releases to, and which rows a mark does.
ghost use Rattle.std.specs.Prelude.{◌≡◌, cond};
ghost use Rattle.theory.proofs.tables.HandOver.{hands_over, passes_on, releases, object_row};
ghost use Rattle.theory.specs.tables.Rows.{task_row, semaphore_row, flag_row, acquired_row, released_row};

use crate::bools::picked;
use theory::{
    FIRST_FLAG, FIRST_SEMAPHORE, Flag, GIVE, JOIN, LOOK, SET, START, Semaphore, TAKE, Task,
};

pub fn task_row(t: Task) -> usize
    ensures { result ≡ task_row t.0 }
{
    t.0 as usize
}

pub fn semaphore_row(s: Semaphore) -> usize
    ensures { result ≡ semaphore_row s.0 }
{
    FIRST_SEMAPHORE + s.0 as usize
}

fn flag_row(f: Flag) -> usize
    ensures { result ≡ flag_row f.0 }
{
    FIRST_FLAG + f.0 as usize
}

// The row that an act acquires beside its own task's; that own row where there is none. A join reads the ended task's, if that has acted: `joins`.
pub fn acquired_row(kind: u8, task: Task, on: u32, joins: bool) -> usize
    ensures { result ≡ acquired_row kind task.0 on joins }
{
    match kind {
        TAKE => semaphore_row(Semaphore(on)),
        LOOK => flag_row(Flag(on)),
        _ => task_row(picked(joins, Task(on), task)),
    }
}

// The row that it releases to beside its own task's.
pub fn released_row(kind: u8, task: Task, on: u32) -> usize
    ensures { result ≡ released_row kind task.0 on }
{
    match kind {
        GIVE => semaphore_row(Semaphore(on)),
        SET => flag_row(Flag(on)),
        START => task_row(Task(on)),
        _ => task_row(task),
    }
}

// Whether a kind is a take, give, look or set.
pub fn hands_over(kind: u8) -> bool
    ensures { result ≡ hands_over kind }
{
    matches!(kind, TAKE | GIVE | LOOK | SET)
}

// Whether order comes from another row by an act of a kind, or goes to one: by these, a start and a join.
pub fn passes_on(kind: u8) -> bool
    ensures { result ≡ passes_on kind }
{
    matches!(kind, START | JOIN) || hands_over(kind)
}

// The row of its semaphore or flag.
pub fn object_row(kind: u8, on: u32) -> usize
    ensures { result ≡ object_row kind on }
{
    match kind {
        LOOK | SET => flag_row(Flag(on)),
        _ => semaphore_row(Semaphore(on)),
    }
}

// Whether it releases; else it acquires.
pub fn is_release(kind: u8) -> bool
    ensures { result ≡ releases kind }
{
    matches!(kind, GIVE | SET)
}

// Whether a task has acted, as a number, after a mark that names it or does not.
pub fn acted_after(named: bool, before: u32) -> u32
    ensures { result ≡ cond named 1 before }
{
    picked(named, 1, before)
}
