// Sets: a table with a row for each node and a bit for each kept access, and one row more that says which tasks have acted. A bit is 1
// where order from the access has come to the row's node, so that a slot's bits are the set of tasks and objects that document 004 grows.
// One table is for the recording as it arrived, one for the fullest filling. All sets grow together, a row at a time.
ghost use Rattle.std.specs.Prelude.{◌≡◌, cond, ◌<◌, ◌≤◌, length, refl};
ghost use Rattle.std.specs.Int.Bits.{bit_or};
ghost use Rattle.theory.specs.order.Limits.{tasks, variables};
ghost use Rattle.theory.specs.order.Recording.{numbered_kind};
ghost use Rattle.theory.specs.history.History.{askers, asker, kind_clashes, slot as slot_of, slots, under_each};
ghost use Rattle.theory.specs.tables.Rows.{acted_row};
ghost use Rattle.theory.specs.tables.Reckonings.{known_slots, clear_slot, add_slot, set_own, set_mask};
ghost use Rattle.theory.proofs.tables.Reckoned.{apart_by};
ghost use Rattle.theory.proofs.tables.Rows.{gathers_or};
ghost use Rattle.std.proofs.Common.{lit≤};

use crate::access::AccessInRange;
use crate::history::{latest_number, slot};
use crate::masks::added_weight;
use crate::rows::Reckoning;
use basics::{all_but, ask_at, clashes, lower_half, task_row, weight};
use theory::{
    ACTED, ASKERS, History, SET_CELLS, SLOT_WORDS, Sets, TASKS, Task, Variable, WORD_BITS,
};

// The reckoning by sets: of two words the bits of both are known.
pub(crate) struct BySets;

impl Reckoning<SLOT_WORDS, SET_CELLS> for BySets {
    ghost joined = { bit_or };

    ghost gathers = { gathers_or };

    ghost sized = { (lit≤ tt, refl) };

    ghost access_mask = { set_mask };

    fn join(a: u32, b: u32) -> u32 {
        a | b
    }

    fn join_rows(cells: &mut Sets, to: usize, from: usize) {
        for c in 0..SLOT_WORDS {
            let at = to * SLOT_WORDS + c;
            cells[at] = Self::join(cells[at], cells[from * SLOT_WORDS + c]);
        }
    }

    fn access_mask(cells: &Sets, last: &History, access: AccessInRange) -> u16 {
        let known = known_slots(
            cells,
            task_row(access.task),
            ask_at(access.kind),
            access.variable,
        );
        let mut x: u32 = 0;
        for u in 0..TASKS {
            x |= added_weight(apart(known, last, access, Task(u)), Task(u));
        }
        lower_half(x)
    }
}

// No row knows of the slot's access.
fn clear_slot(cells: &mut Sets, s: usize)
    requires { s < slots }
    ensures { cells.new ≡ clear_slot s cells.old }
{
    let word = s / WORD_BITS;
    let others = all_but((s % WORD_BITS) as u32);
    for r in 0..ACTED {
        cells[BySets::place(r, word)] &= others;
    }
}

// Row r knows of it.
fn add_slot(cells: &mut Sets, r: usize, s: usize)
    requires { (r ≤ acted_row) × (s < slots) }
    ensures { cells.new ≡ add_slot r s cells.old }
{
    cells[BySets::place(r, s / WORD_BITS)] |= weight((s % WORD_BITS) as u32);
}

// A slot is kept anew: order has come to this row, and to no other.
fn begin_slot(cells: &mut Sets, r: usize, s: usize)
    requires { (r ≤ acted_row) × (s < slots) }
    ensures { cells.new ≡ add_slot r s (clear_slot s cells.old) }
{
    clear_slot(cells, s);
    add_slot(cells, r, s);
}

// An access kept anew under the kind of access with number a, if it clashes with that.
fn keep_under(cells: &mut Sets, a: usize, access: AccessInRange)
    requires { a < length askers }
    ensures { let s = slot_of a access.variable.0 access.task.0 in cells.new
        ≡ cond (kind_clashes (numbered_kind access.kind) (asker a)) (add_slot access.task.0 s (clear_slot s cells.old)) cells.old }
{
    if clashes(access.kind, a) {
        begin_slot(
            cells,
            task_row(access.task),
            slot(a, access.variable, access.task),
        );
    }
}

// An access is kept anew in each of its slots.
fn keep_in_slots(cells: &mut Sets, access: AccessInRange)
    ensures { cells.new ≡ under_each (λ s b. add_slot access.task.0 s (clear_slot s b)) access.kind access.variable.0 access.task.0 cells.old }
{
    for a in 0..ASKERS {
        keep_under(cells, a, access);
    }
}

// An access's own part: it takes its slots, and the task has acted.
pub(crate) fn own(cells: &mut Sets, access: AccessInRange)
    ensures { cells.new ≡ set_own access.kind access.task.0 access.variable.0 cells.old }
{
    keep_in_slots(cells, access);
    BySets::note_acted(cells, access.task);
}

// What row r knows of what the kind of access with number a asks of the tasks, for variable v: from bit 0 on a bit for each task.
fn known_slots(cells: &Sets, r: usize, a: usize, v: Variable) -> u32
    requires { (r ≤ acted_row) × (a < length askers) × (v.0 < variables) }
    ensures { result ≡ known_slots cells.now r a v.0 }
{
    let s = slot(a, v, Task(0));
    cells[r * SLOT_WORDS + s / WORD_BITS] >> (s % WORD_BITS) as u32
}

// Whether order from task u's latest conflicting access has not come to a row, by what the row knows of them. From its own it has.
fn apart(known: u32, last: &History, access: AccessInRange, u: Task) -> bool
    requires { u.0 < tasks }
    ensures { result ≡ apart_by last.now access.kind access.variable.0 known u.0 }
{
    (0 < latest_number(last, access, u).0) & (known & weight(u.0) == 0)
}
