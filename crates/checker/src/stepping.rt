// The step by the clocks, over all kinds of records: in place, on tables that the caller lends, and by value.
ghost use Rattle.std.specs.Prelude.{◌≡◌, false};
ghost use Rattle.theory.specs.order.Recording.{accesses};
ghost use Rattle.theory.specs.feeding.Step.{step_of};
ghost use Rattle.checker.specs.Tables.{SameTables, state_in};

use crate::fast_steps::{step_access, step_hand_over};
use crate::moving::move_clocks;
use crate::outcome::accept_other;
use crate::tables::Tables;
use acceptance::{admit, is_under};
use basics::{hands_over, is_access};
use theory::{Answer, Record, State, Stepped, Task};

// A record that is no access, of any other kind and none.
fn step_other(tables: &mut Tables<'_>, r: Record) -> Answer
    requires { accesses r.kind ≡ false }
    ensures same { SameTables tables.old tables.new }
    ensures stepped { record { state = state_in tables.new; answer = result } ≡ step_of (state_in tables.old) r }
{
    let admitted = match admit(tables.control, r.kind, r.task, r.on) {
        Ok(admitted) => admitted,
        Err(row) => return Answer::Refused(row),
    };
    let number = admitted.number;
    move_clocks(
        tables.clocks,
        tables.fullclocks,
        admitted.moves,
        Task(r.task),
        r.on,
        number,
    );
    accept_other(tables.last, r, number)
}

// Feeds a record. A refused record leaves every table as it was. An accepted one gets its number; the kind says what its other numbers are:
// an act has an acting task, and a mark none, but a mask. A take that is skipped is an act as a miss is, and is noted as a take. The two sorts that nearly
// all records are of come first.
pub fn step_in_place(tables: &mut Tables<'_>, r: Record) -> Answer
    ensures same { SameTables tables.old tables.new }
    ensures stepped { record { state = state_in tables.new; answer = result } ≡ step_of (state_in tables.old) r }
{
    let kind = r.kind;
    if is_access(kind) {
        return step_access(tables, r);
    }
    if hands_over(kind) & !is_under(tables.control) {
        return step_hand_over(tables, r);
    }
    step_other(tables, r)
}

// The same by value: state and record in, state and answer out.
pub fn step(s: State, r: Record) -> Stepped
    ensures { result ≡ step_of s r }
{
    let mut state = s;
    let answer = step_in_place(
        &mut Tables {
            control: &mut state.control,
            last: &mut state.last,
            clocks: &mut state.clocks,
            fullclocks: &mut state.fullclocks,
        },
        r,
    );
    Stepped { state, answer }
}
