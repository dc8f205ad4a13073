// The step by the sets, over all kinds of records: in place, on tables that the caller lends, and by value.
ghost use Rattle.std.specs.Prelude.{◌≡◌, false, ◌≢◌};
ghost use Rattle.theory.specs.order.Recording.{loss_mark, accesses};
ghost use Rattle.theory.specs.acceptance.Table.{Fitting, Proper};
ghost use Rattle.theory.specs.fillings.Completion.{arrived, full};
ghost use Rattle.theory.specs.tables.Reckonings.{next_sets};
ghost use Rattle.theory.specs.feeding.Step.{set_step_of};
ghost use Rattle.theory.specs.feeding.Lent.{seen, set_tables};

use crate::access::AccessInRange;
use crate::marks::Marking;
use crate::masks::Words;
use crate::outcome::{accept_access, accept_other};
use crate::rows::Reckoning;
use crate::sets::{self, BySets};
use acceptance::admit;
use basics::is_access;
use theory::{Answer, Control, History, LOST, Record, SetState, SetStepped, Sets, Task};

// An act that is no access passes order on.
fn act_by_sets(sets: &mut Sets, fullsets: &mut Sets, kind: u8, task: Task, on: u32)
    requires { Fitting kind task.0 on × (kind ≢ loss_mark) × (accesses kind ≡ false) }
    ensures { let s = seen sets in let f = seen fullsets in
        (s.exit ≡ next_sets arrived kind task.0 on s.entry) × (f.exit ≡ next_sets full kind task.0 on f.entry) }
{
    BySets::note_acted(sets, task);
    BySets::note_acted(fullsets, task);
    BySets::pass_on(sets, false, kind, task, on);
    BySets::pass_on(fullsets, true, kind, task, on);
}

// An access takes its slots anew.
fn access_by_sets(sets: &mut Sets, fullsets: &mut Sets, access: AccessInRange)
    ensures { let s = seen sets in let f = seen fullsets in
        (s.exit ≡ next_sets arrived access.kind access.task.0 access.variable.0 s.entry)
        × (f.exit ≡ next_sets full access.kind access.task.0 access.variable.0 f.entry) }
{
    sets::own(sets, access);
    sets::own(fullsets, access);
}

// Any other record; a mark fills in nothing as it arrived.
fn move_sets(sets: &mut Sets, fullsets: &mut Sets, r: Record)
    requires { (accesses r.kind ≡ false) × Proper r.kind r.task r.on }
    ensures { let s = seen sets in let f = seen fullsets in
        (s.exit ≡ next_sets arrived r.kind r.task r.on s.entry) × (f.exit ≡ next_sets full r.kind r.task r.on f.entry) }
{
    if r.kind == LOST {
        BySets::mix(fullsets, r.on);
    } else {
        act_by_sets(sets, fullsets, r.kind, Task(r.task), r.on);
    }
}

// Feeds a record. A refused record leaves every table as it was.
pub fn set_step_in_place(
    control: &mut Control,
    last: &mut History,
    sets: &mut Sets,
    fullsets: &mut Sets,
    r: Record,
) -> Answer
    ensures { let state = set_tables control last sets fullsets in record { state = state.exit; answer = result } ≡ set_step_of state.entry r }
{
    let admitted = match admit(control, r.kind, r.task, r.on) {
        Ok(admitted) => admitted,
        Err(row) => return Answer::Refused(row),
    };
    let number = admitted.number;
    if is_access(r.kind) {
        let access = AccessInRange::of(r);
        let words = Words::from(BySets::access_masks(sets, fullsets, last, access));
        access_by_sets(sets, fullsets, access);
        return accept_access(control, last, access, number, words);
    }
    move_sets(sets, fullsets, r);
    accept_other(last, r, number)
}

// The same by value: state and record in, state and answer out.
pub fn set_step(s: SetState, r: Record) -> SetStepped
    ensures { result ≡ set_step_of s r }
{
    let mut control = s.control;
    let mut last = s.last;
    let mut sets = s.sets;
    let mut fullsets = s.fullsets;
    let answer = set_step_in_place(&mut control, &mut last, &mut sets, &mut fullsets, r);
    SetStepped {
        state: SetState {
            control,
            last,
            sets,
            fullsets,
        },
        answer,
    }
}
