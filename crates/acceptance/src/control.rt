// The control table: each task's phase, the count of accepted records, the profile, each semaphore's holder and last giver, and the skipped
// takes. crates/theory/specs/acceptance/Control.antt says the same of the table as a list.
ghost use Rattle.std.specs.Prelude.{◌≡◌, ◌≢◌, ◌<◌, set};
ghost use Rattle.theory.specs.order.Limits.{tasks, semaphores, records};
ghost use Rattle.theory.specs.acceptance.Table.{Proper};
ghost use Rattle.theory.specs.feeding.Step.{clock_kind, fresh_control};
ghost use Rattle.theory.specs.acceptance.Control.{live_in, unseen_in, count_at, count_in, under_in, held_in, holds_in, gave_in, skipped_in, acceptance_cells, counted, taken_by, given_by, control_after};

use basics::raise;
use theory::{
    CONTROL_CELLS, COUNT, Control, GIVE, GIVERS, HOLDERS, JOIN, MISS, OWNED, PROFILE, SKIPPED,
    START, Semaphore, TAKE, Task,
};

// Phases, and what stands for the profile and for no holder, are numbers and no enums: they are cells of the table, which a host in C may lend.
const UNSEEN: u32 = 0;

const LIVE: u32 = 1;

const ENDED: u32 = 2;

// Under the profile.
const UNDER: u32 = 1;

// No holder. A task that holds a semaphore stands there as its number and one more.
const FREE: u32 = 0;

// Task 0 is live, the others are unseen, and no record is accepted yet.
pub fn fresh_control() -> Control
    ensures { result ≡ fresh_control }
{
    let mut control = [0u32; CONTROL_CELLS];
    control[0] = LIVE;
    control
}

pub(crate) fn is_live(control: &Control, t: Task) -> bool
    requires { t.0 < tasks }
    ensures { result ≡ live_in control.now t.0 }
{
    control[t.0 as usize] == LIVE
}

pub(crate) fn is_unseen(control: &Control, t: Task) -> bool
    requires { t.0 < tasks }
    ensures { result ≡ unseen_in control.now t.0 }
{
    control[t.0 as usize] == UNSEEN
}

// The recording is under the profile of owned semaphores.
pub fn is_under(control: &Control) -> bool
    ensures { result ≡ under_in control.now }
{
    control[PROFILE] == UNDER
}

// A semaphore has a holder.
pub(crate) fn is_held(control: &Control, s: Semaphore) -> bool
    requires { s.0 < semaphores }
    ensures { result ≡ held_in control.now s.0 }
{
    FREE < control[HOLDERS + s.0 as usize]
}

// The task is its holder. This and `gave` are one comparison each, by the words of the definitions; one over where the cells begin would be a third.
pub(crate) fn holds(control: &Control, s: Semaphore, t: Task) -> bool
    requires { (s.0 < semaphores) × (t.0 < tasks) }
    ensures { result ≡ holds_in control.now s.0 t.0 }
{
    control[HOLDERS + s.0 as usize] == t.0 + 1
}

// The task gave the semaphore last.
fn gave(control: &Control, s: Semaphore, t: Task) -> bool
    requires { (s.0 < semaphores) × (t.0 < tasks) }
    ensures { result ≡ gave_in control.now s.0 t.0 }
{
    control[GIVERS + s.0 as usize] == t.0 + 1
}

// The kind by which a record moves the clocks: under the profile a take that is skipped does so as a miss does, which makes no step.
pub(crate) fn clock_kind(control: &Control, kind: u8, task: u32, on: u32) -> u8
    requires { Proper kind task on }
    ensures { result ≡ clock_kind control.now kind task on }
{
    match kind {
        TAKE => {
            if is_under(control) & gave(control, Semaphore(on), Task(task)) {
                return MISS;
            }
            TAKE
        }
        _ => kind,
    }
}

// One more accepted record. The bound keeps the sum within its type.
pub(crate) fn count(control: &mut Control)
    requires { count_in control.old < records }
    ensures { control.new ≡ counted control.old }
{
    control[COUNT] += 1;
}

// One more accepted record, by which a cell gets a value: a phase, a holder, a giver, or the profile.
fn note_value(control: &mut Control, i: usize, value: u32)
    requires { (i < acceptance_cells) × (i ≢ count_at) × (count_in control.old < records) }
    ensures { control.new ≡ counted (set control.old i value) }
{
    control[i] = value;
    count(control);
}

// One more accepted record, a take. Under the profile its task is the holder, and it is counted if it is skipped.
#[tactic(auto, using(theory::proofs::tables::Counters::raise_other))]
fn note_take(control: &mut Control, s: Semaphore, t: Task)
    requires { (s.0 < semaphores) × (t.0 < tasks) × (count_in control.old < records) }
    ensures { control.new ≡ counted (taken_by t.0 s.0 control.old) }
{
    if !is_under(control) {
        return count(control);
    }
    if gave(control, s, t) {
        raise(control, SKIPPED);
    }
    note_value(control, HOLDERS + s.0 as usize, t.0 + 1);
}

// One more accepted record, a give. Under the profile nobody holds the semaphore, and its task is the last giver.
fn note_give(control: &mut Control, s: Semaphore, t: Task)
    requires { (s.0 < semaphores) × (t.0 < tasks) × (count_in control.old < records) }
    ensures { control.new ≡ counted (given_by t.0 s.0 control.old) }
{
    if is_under(control) {
        control[HOLDERS + s.0 as usize] = FREE;
        return note_value(control, GIVERS + s.0 as usize, t.0 + 1);
    }
    count(control);
}

// Notes an accepted record. Each arm returns by itself, so that the proof has one table at each return and no join of arms.
pub(crate) fn note(control: &mut Control, kind: u8, task: u32, on: u32)
    requires { Proper kind task on × (count_in control.old < records) }
    ensures { control.new ≡ control_after kind task on control.old }
{
    match kind {
        START => note_value(control, on as usize, LIVE),
        JOIN => note_value(control, on as usize, ENDED),
        TAKE => note_take(control, Semaphore(on), Task(task)),
        GIVE => note_give(control, Semaphore(on), Task(task)),
        OWNED => note_value(control, PROFILE, UNDER),
        _ => count(control),
    }
}

// How many takes were skipped so far.
pub fn skipped(control: &Control) -> u32
    ensures { result ≡ skipped_in control.now }
{
    control[SKIPPED]
}
