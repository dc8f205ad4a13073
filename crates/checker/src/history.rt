// The kept accesses, by the kind that asks: for each kind of access, variable and task the task's latest access to the variable that clashes
// with one of that kind, by its record number.
ghost use Rattle.std.specs.Prelude.{◌≡◌, cond, ◌<◌, eqb, length};
ghost use Rattle.theory.specs.order.Limits.{tasks, variables};
ghost use Rattle.theory.specs.order.Recording.{Op, kind as number};
ghost use Rattle.theory.specs.acceptance.Table.{Proper};
ghost use Rattle.theory.specs.history.History.{askers, slot, slots, latest_number, with_access, emptied_under, emptied, last_after};
ghost use Rattle.theory.proofs.history.Accesses.{kept_under};

use crate::access::AccessInRange;
use basics::{ask_at, conflict, is_access, picked};
use theory::{
    ASKERS, ASKING_WRITE, COLUMNS, FRESH, History, Record, RecordNumber, Task, VARIABLES, Variable,
};

// Where it is kept what the kind of access with number a asks of task u, for variable v.
pub(crate) fn slot(a: usize, v: Variable, u: Task) -> usize
    requires { (a < length askers) × (v.0 < variables) × (u.0 < tasks) }
    ensures { (result ≡ slot a v.0 u.0) × (result < slots) }
{
    (a * VARIABLES as usize + v.0 as usize) * COLUMNS + u.0 as usize
}

// The number of task u's latest access to the same variable that conflicts with this one, 0 where there is none.
pub(crate) fn latest_number(last: &History, access: AccessInRange, u: Task) -> RecordNumber
    requires { u.0 < tasks }
    ensures { result.0 ≡ latest_number last.now access.kind access.variable.0 u.0 }
{
    RecordNumber(last[slot(ask_at(access.kind), access.variable, u)])
}

// Where an access of the kind with number `asks` is kept when that with number a is at hand: under a, or, where the two do not clash, under a write
// once more, with which every access clashes. So there is no branch on what it is.
fn kept_under(asks: usize, a: usize) -> usize
    requires { (asks < length askers) × (a < length askers) }
    ensures { (result ≡ kept_under asks a) × (result < length askers) }
{
    picked(conflict(asks, a), a, ASKING_WRITE)
}

// The history after an access: it is kept under each kind that it clashes with.
pub(crate) fn keep(last: &mut History, access: AccessInRange, number: RecordNumber)
    ensures { last.new ≡ with_access access.kind access.task.0 access.variable.0 number.0 last.old }
{
    let asks = ask_at(access.kind);
    for a in 0..ASKERS {
        last[slot(kept_under(asks, a), access.variable, access.task)] = number.0;
    }
}

// The kind of access with number a is told of no access to the variable any more, whoever made it. The loop is over the tasks by their numbers.
fn empty_under(last: &mut History, v: Variable, a: usize)
    requires { (a < length askers) × (v.0 < variables) }
    ensures { last.new ≡ emptied_under v.0 a last.old }
{
    let from = slot(a, v, Task(0));
    for u in 0..COLUMNS {
        last[from + u] = 0;
    }
}

// No access to the variable is kept any more.
fn empty(last: &mut History, v: Variable)
    requires { v.0 < variables }
    ensures { last.new ≡ emptied v.0 last.old }
{
    for a in 0..ASKERS {
        empty_under(last, v, a);
    }
}

// The history after an act that is no access: a fresh empties it for its variable.
pub(crate) fn renew(last: &mut History, kind: u8, on: u32)
    requires { kind ≡ number Op.fresh → on < variables }
    ensures { last.new ≡ cond (eqb kind (number Op.fresh)) (emptied on last.old) last.old }
{
    if kind == FRESH {
        empty(last, Variable(on));
    }
}

// The history after any accepted record.
pub(crate) fn keep_record(last: &mut History, r: Record, number: RecordNumber)
    requires { Proper r.kind r.task r.on }
    ensures { last.new ≡ last_after r.kind r.task r.on number.0 last.old }
{
    if is_access(r.kind) {
        keep(last, AccessInRange::of(r), number);
    } else {
        renew(last, r.kind, r.on);
    }
}
