// Tables that have a row for each node, through which order is carried on, and one row more that says which tasks have acted. Both reckonings keep such
// tables, and do all of this alike. They differ in how many cells a row has and in what two cells know together: ByClocks has the later of two record
// numbers, BySets the accesses of both words.
// A row is a bare number, as basics gives it: a type of rows up to ACTED would take `row ≤ acted_row` from twelve contracts and ask the same proofs wherever
// a row is made. A task's number is below `tasks` by the contracts and not by its type: theory's Task is what hosts and records carry unchecked.
ghost use Rattle.std.specs.Prelude.{◌≡◌, ℕ, List, ◌<◌, ◌≤◌, ◌+◌, ◌*◌, ltb};
ghost use Rattle.theory.specs.order.Limits.{tasks};
ghost use Rattle.theory.specs.order.Recording.{Op, kind as number};
ghost use Rattle.theory.specs.acceptance.Table.{Fitting};
ghost use Rattle.theory.specs.tables.Rows.{acted_row, cell_count, cell, join_row, row_of, join_with, put_row, flow, note_acted, joins_acted, onward};
ghost use Rattle.theory.specs.tables.Reckonings.{masks_by};
ghost use Rattle.theory.proofs.tables.Rows.{Gathers};

use crate::access::AccessInRange;
use basics::{acquired_row, released_row, task_row};
use theory::{ACTED, FIRST_SEMAPHORE, HUB, History, JOIN, Masks, Task};

pub(crate) trait Reckoning<const WIDTH: usize, const CELLS: usize> {
    ghost joined: { ℕ → ℕ → ℕ };

    // What two cells know together.
    fn join(a: u32, b: u32) -> u32
        ensures { result ≡ joined a b };

    // What row `from` knows is known to row `to` as well, in a loop of the reckoning's own: that of clocks answers, too. It finds its cells without
    // `place`: to the prover an impl's method that comes to call a final one of its trait is a cycle of calls.
    fn join_rows(cells: &mut [u32; CELLS], to: usize, from: usize)
        requires { (to ≤ acted_row) × (from ≤ acted_row) }
        ensures { cells.new ≡ join_row joined WIDTH to from cells.old };

    ghost access_mask: { List ℕ → List ℕ → ℕ → ℕ → ℕ → ℕ };

    // The mask of an access in one filling: the tasks whose latest conflicting access has no path to it.
    fn access_mask(cells: &[u32; CELLS], last: &History, access: AccessInRange) -> u16
        ensures { result ≡ access_mask cells.now last.now access.kind access.task.0 access.variable.0 };

    // Cells may be joined in any order, and more than once.
    ghost gathers: { Gathers joined };

    // A row has a cell for each task at least, and the table has so many rows.
    ghost sized: { (tasks ≤ WIDTH) × (CELLS ≡ cell_count WIDTH) };

    // Where a row has the cell of a column.
    final fn place(row: usize, column: usize) -> usize
        requires { (row ≤ acted_row) × (column < WIDTH) }
        ensures { (result ≡ row * WIDTH + column) × (result < CELLS) }
    {
        row * WIDTH + column
    }

    // What row `from` knows is known to row `to` as well; for a row and itself no loop is run.
    final fn join_row(cells: &mut [u32; CELLS], to: usize, from: usize)
        requires { (to ≤ acted_row) × (from ≤ acted_row) }
        ensures { cells.new ≡ join_row joined WIDTH to from cells.old }
    {
        if to == from {
            return;
        }
        Self::join_rows(cells, to, from);
    }

    // A row by itself.
    final fn row_of(cells: &[u32; CELLS], from: usize) -> [u32; WIDTH]
        requires { from ≤ acted_row }
        ensures { result ≡ row_of WIDTH from cells.now }
    {
        let mut row = [0u32; WIDTH];
        for c in 0..WIDTH {
            row[c] = cells[Self::place(from, c)];
        }
        row
    }

    // What a row that stands by itself knows is known to row `to` as well.
    final fn join_with(cells: &mut [u32; CELLS], to: usize, row: &[u32; WIDTH])
        requires { to ≤ acted_row }
        ensures { cells.new ≡ join_with joined WIDTH to row.now cells.old }
    {
        for c in 0..WIDTH {
            let at = Self::place(to, c);
            cells[at] = Self::join(cells[at], row[c]);
        }
    }

    // Row `to` with the cells of a row that stands by itself.
    final fn put_row(cells: &mut [u32; CELLS], to: usize, row: &[u32; WIDTH])
        requires { to ≤ acted_row }
        ensures { cells.new ≡ put_row WIDTH to row.now cells.old }
    {
        for c in 0..WIDTH {
            cells[Self::place(to, c)] = row[c];
        }
    }

    // Order over an act: the task's next act knows what the acquired row knows; from a copy it is passed on, to an object and to the hub alike. Clocks
    // have that copy in registers; and of a copy the compiler can tell that it never overlaps a row, which it cannot of two rows. Whether the hub is asked
    // is a Bool of the definitions, and where tasks fill in alone it is known only as the program runs: it picks no way for a caller.
    final fn flow(
        cells: &mut [u32; CELLS],
        asked: bool,
        acquired: usize,
        released: usize,
        task: Task,
    )
        requires { (acquired ≤ acted_row) × (released ≤ acted_row) × (task.0 < tasks) }
        ensures { cells.new ≡ flow joined WIDTH asked acquired released task.0 cells.old }
    {
        let own = task_row(task);
        Self::join_row(cells, own, acquired);
        if released == own {
            return;
        }
        let row = Self::row_of(cells, own);
        Self::join_with(cells, released, &row);
        if (released < FIRST_SEMAPHORE) | !asked {
            return;
        }
        Self::join_with(cells, HUB, &row);
    }

    // Whether a task has acted.
    final fn has_acted(cells: &[u32; CELLS], task: Task) -> bool
        requires { task.0 < tasks }
        ensures { result ≡ ltb 0 (cell WIDTH cells.now acted_row task.0) }
    {
        0 < cells[Self::place(ACTED, task.0 as usize)]
    }

    // The task has acted.
    final fn note_acted(cells: &mut [u32; CELLS], task: Task)
        requires { task.0 < tasks }
        ensures { cells.new ≡ note_acted WIDTH task.0 cells.old }
    {
        cells[Self::place(ACTED, task.0 as usize)] = 1;
    }

    // An act joins a task that has acted.
    final fn joins_acted(cells: &[u32; CELLS], kind: u8, on: u32) -> bool
        requires { kind ≡ number Op.join → on < tasks }
        ensures { result ≡ joins_acted WIDTH cells.now kind on }
    {
        match kind {
            JOIN => Self::has_acted(cells, Task(on)),
            _ => false,
        }
    }

    // Order over an act of a kind.
    final fn pass_on(cells: &mut [u32; CELLS], asked: bool, kind: u8, task: Task, on: u32)
        requires { Fitting kind task.0 on }
        ensures { cells.new ≡ onward joined WIDTH asked kind task.0 on cells.old }
    {
        let joins = Self::joins_acted(cells, kind, on);
        Self::flow(
            cells,
            asked,
            acquired_row(kind, task, on, joins),
            released_row(kind, task, on),
            task,
        );
    }

    // The masks of an access in both fillings.
    final fn access_masks(
        arrived: &[u32; CELLS],
        full: &[u32; CELLS],
        last: &History,
        access: AccessInRange,
    ) -> Masks
        ensures { result ≡ masks_by (access_mask full.now last.now access.kind access.task.0 access.variable.0)
            (access_mask arrived.now last.now access.kind access.task.0 access.variable.0) }
    {
        Masks {
            full: Self::access_mask(full, last, access),
            arrived: Self::access_mask(arrived, last, access),
        }
    }
}
