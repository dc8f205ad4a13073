// Clocks: a table with a row for each node and a column for each task, and one row more that says which tasks have acted. A cell has the
// number of the task's last record from which order has come to the row's node. One table is for the recording as it arrived, one for the
// fullest filling.
ghost use Rattle.std.specs.Prelude.{◌≡◌, true, false, ◌<◌, ◌≤◌, ◌+◌, max, ltb, get_or, refl};
ghost use Rattle.theory.specs.order.Limits.{tasks};
ghost use Rattle.theory.specs.acceptance.Table.{Fitting};
ghost use Rattle.theory.specs.history.History.{slots};
ghost use Rattle.theory.specs.tables.Rows.{any_newer, acted_row, cell_count, join_row, onward};
ghost use Rattle.theory.specs.tables.Joining.{acquired_by, after_acquiring};
ghost use Rattle.theory.specs.tables.Reckonings.{clock_own, mask_of, clock_mask};
ghost use Rattle.theory.proofs.tables.Bits.{twice};
ghost use Rattle.theory.proofs.tables.Rows.{gathers_max};
ghost use Rattle.theory.proofs.tables.HandOver.{HandOverKind};
ghost use Rattle.std.proofs.Common.{lit≤};

use crate::access::AccessInRange;
use crate::history::slot;
use crate::masks::{Words, added_weight};
use crate::rows::Reckoning;
use basics::{ask_at, is_release, lower_half, object_row, picked, semaphore_row, task_row};
use theory::{
    CLOCK_CELLS, COLUMNS, Clocks, HUB, History, RecordNumber, SEMAPHORES, Semaphore, TASKS, Task,
};

// The reckoning by clocks: of two record numbers the later is known.
pub(crate) struct ByClocks;

impl Reckoning<COLUMNS, CLOCK_CELLS> for ByClocks {
    ghost joined = { max };

    ghost gathers = { gathers_max };

    ghost sized = { (lit≤ tt, refl) };

    ghost access_mask = { clock_mask };

    fn join(a: u32, b: u32) -> u32 {
        a.max(b)
    }

    fn join_rows(cells: &mut Clocks, to: usize, from: usize) {
        join_newer(cells, to, from);
    }

    fn access_mask(cells: &Clocks, last: &History, access: AccessInRange) -> u16 {
        let row = task_row(access.task) * COLUMNS;
        let from = slot(ask_at(access.kind), access.variable, Task(0));
        lower_half(mask(cells, last, row, from))
    }
}

// What row `from` knows is known to row `to` as well, in one pass: each newer entry is copied, and the answer is whether any was newer. `join_row` (rows.rt)
// calls it and leaves the answer; `hand_over` calls it itself, without asking whether the rows are one.
fn join_newer(cells: &mut Clocks, to: usize, from: usize) -> bool
    requires { (to ≤ acted_row) × (from ≤ acted_row) }
    ensures { (result ≡ any_newer tasks to from cells.old)
        × (cells.new ≡ join_row max tasks to from cells.old) }
{
    let mut newer = false;
    for c in 0..COLUMNS {
        let at = to * COLUMNS + c;
        let told = cells[from * COLUMNS + c];
        newer |= cells[at] < told;
        cells[at] = ByClocks::join(cells[at], told);
    }
    newer
}

// Order over a take, give, look or set, in both tables: of the task's row and its object's the one is joined with the other, and what is released in the
// fullest filling comes to the hub as well. Which row is which is picked without a branch; where nothing is released, the hub is joined with itself.
pub(crate) fn hand_over(clocks: &mut Clocks, fullclocks: &mut Clocks, kind: u8, task: Task, on: u32)
    requires { HandOverKind kind × Fitting kind task.0 on }
    ensures { (clocks.new ≡ onward max tasks false kind task.0 on clocks.old)
        × (fullclocks.new ≡ onward max tasks true kind task.0 on fullclocks.old) }
{
    let own = task_row(task);
    let object = object_row(kind, on);
    let releases = is_release(kind);
    let to = picked(releases, object, own);
    let from = picked(releases, own, object);
    join_newer(clocks, to, from);
    join_newer(fullclocks, to, from);
    join_newer(fullclocks, HUB, picked(releases, own, HUB));
}

// An act's own part: the task's own cell is the act's number, and the task has acted.
pub(crate) fn own(cells: &mut Clocks, task: Task, number: RecordNumber)
    requires { task.0 < tasks }
    ensures { cells.new ≡ clock_own task.0 number.0 cells.old }
{
    cells[ByClocks::place(task_row(task), task.0 as usize)] = number.0;
    ByClocks::note_acted(cells, task);
}

// In both tables.
pub(crate) fn own_both(
    clocks: &mut Clocks,
    fullclocks: &mut Clocks,
    task: Task,
    number: RecordNumber,
)
    requires { task.0 < tasks }
    ensures { (clocks.new ≡ clock_own task.0 number.0 clocks.old)
        × (fullclocks.new ≡ clock_own task.0 number.0 fullclocks.old) }
{
    own(clocks, task, number);
    own(fullclocks, task, number);
}

// The mask of an access in one filling, twice in a word, from where the task's row of clocks begins and where what the history has for its kind
// does: the tasks whose latest conflicting access the row does not know. The loop is over columns, which are the tasks by their numbers.
fn mask(cells: &Clocks, last: &History, row: usize, from: usize) -> u32
    requires { (row + tasks ≤ cell_count tasks) × (from + tasks ≤ slots) }
    ensures { result ≡ twice (mask_of (λ u. ltb (get_or cells.now (row + u) 0) (get_or last.now (from + u) 0))) }
{
    let mut x: u32 = 0;
    for c in 0..COLUMNS {
        x |= added_weight(cells[row + c] < last[from + c], Task(c as u32));
    }
    x
}

// The masks of the tasks whose latest conflicting access has no path to this access, as words.
pub(crate) fn clock_words(
    clocks: &Clocks,
    fullclocks: &Clocks,
    last: &History,
    access: AccessInRange,
) -> Words
    ensures { (result.full ≡ twice (clock_mask fullclocks.now last.now access.kind access.task.0 access.variable.0))
        × (result.arrived ≡ twice (clock_mask clocks.now last.now access.kind access.task.0 access.variable.0)) }
{
    let row = task_row(access.task) * COLUMNS;
    let from = slot(ask_at(access.kind), access.variable, Task(0));
    Words {
        full: mask(fullclocks, last, row, from),
        arrived: mask(clocks, last, row, from),
    }
}

// What a take does to a table of clocks beside its own part: the semaphore's clock is joined into the task's, in one pass. Answers whether any
// entry was newer. Where there is no such task or semaphore nothing is changed.
pub fn acquire(cells: &mut Clocks, task: u32, semaphore: u32) -> Option<bool>
    ensures { (result ≡ acquired_by cells.old task semaphore)
        × (cells.new ≡ after_acquiring cells.old task semaphore) }
{
    if (task < TASKS) & (semaphore < SEMAPHORES) {
        return Some(join_newer(
            cells,
            task_row(Task(task)),
            semaphore_row(Semaphore(semaphore)),
        ));
    }
    None
}
