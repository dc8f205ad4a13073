// Which records are refused, and by which row of the refusal table. crates/theory/specs/acceptance/Table.antt has the rows, and each test here is one of them.
ghost use Rattle.std.specs.Prelude.{◌≡◌, cond, not, ◌&&◌, ◌||◌, ℕ, ◌<◌, ◌^◌, leb, eqb};
ghost use Rattle.theory.specs.order.Limits.{tasks, semaphores, records};
ghost use Rattle.theory.specs.order.Recording.{loss_mark, series_size};
ghost use Rattle.theory.proofs.acceptance.Rows.{OfAct};
ghost use Rattle.theory.specs.fillings.Completion.{names};
ghost use Rattle.theory.specs.basics.Turns.{any_below};
ghost use Rattle.theory.specs.acceptance.Table.{first_row};
ghost use Rattle.theory.specs.acceptance.Refusals.{refusal_in};
ghost use Rattle.theory.specs.acceptance.Control.{live_in, unseen_in, count_in, under_in, held_in, holds_in, control_standing, control_refusal};
ghost use Rattle.theory.specs.feeding.Step.{record_of};
ghost use Rattle.theory.proofs.acceptance.Plain.{common_rows};

use crate::control::{holds, is_held, is_live, is_under, is_unseen};
use basics::{MASKS, has_bit};
use theory::{
    COUNT, Control, FLAGS, GIVE, JOIN, KINDS, LOOK, LOST, MISS, OWNED, PROFILES, RECORDS, Record,
    Refusal, SEMAPHORES, SET, START, Semaphore, TAKE, TASKS, Task, VARIABLES,
};

// The last number of a kind, and the last mask.
const LAST_KIND: u8 = KINDS - 1;

const LAST_MASK: u32 = MASKS - 1;

// The number is outside a series of that size.
pub fn beyond<const SIZE: u32>(n: u32) -> bool
    ensures { result ≡ leb SIZE n }
{
    !(0..SIZE).contains(&n)
}

// Row 3: the number is none of the kind's series.
fn outside(kind: u8, on: u32) -> bool
    ensures { result ≡ leb (series_size kind) on }
{
    match kind {
        TAKE | GIVE | MISS => beyond::<SEMAPHORES>(on),
        LOOK | SET => beyond::<FLAGS>(on),
        START | JOIN => beyond::<TASKS>(on),
        OWNED => beyond::<PROFILES>(on),
        _ => beyond::<VARIABLES>(on),
    }
}

// Row 5: no further record is taken.
fn at_the_limit(control: &Control) -> bool
    ensures { result ≡ leb records (count_in control.now) }
{
    RECORDS <= control[COUNT]
}

// Row 7, for a start: the task that it names is not unseen.
fn start_refusal(control: &Control, named: Task) -> Result<(), Refusal>
    requires { named.0 < tasks }
    ensures { refusal_in result ≡ cond (not (unseen_in control.now named.0)) 7 0 }
{
    if !is_unseen(control, named) {
        return Err(Refusal::StartedBefore);
    }
    Ok(())
}

// Rows 8 and 9, for a join: of the acting task itself, and of a task that is not live.
fn join_refusal(control: &Control, task: Task, named: Task) -> Result<(), Refusal>
    requires { named.0 < tasks }
    ensures { refusal_in result ≡ cond (eqb named.0 task.0) 8 (cond (not (live_in control.now named.0)) 9 0) }
{
    if named.0 == task.0 {
        return Err(Refusal::JoinsItself);
    }
    if !is_live(control, named) {
        return Err(Refusal::NamedNotLive);
    }
    Ok(())
}

// Row 14, for `owned`: it is a second one.
fn owned_refusal(control: &Control) -> Result<(), Refusal>
    ensures { refusal_in result ≡ cond (under_in control.now) 14 0 }
{
    if is_under(control) {
        return Err(Refusal::OwnedBefore);
    }
    Ok(())
}

// Row 16, for a take: under the profile the semaphore is held.
fn take_refusal(control: &Control, s: Semaphore) -> Result<(), Refusal>
    requires { s.0 < semaphores }
    ensures { let c = control.now in refusal_in result ≡ cond (under_in c && held_in c s.0) 16 0 }
{
    if is_under(control) & is_held(control, s) {
        return Err(Refusal::AgainstHolder);
    }
    Ok(())
}

// Row 16, for a give: under the profile the task does not hold the semaphore.
fn give_refusal(control: &Control, s: Semaphore, task: Task) -> Result<(), Refusal>
    requires { (s.0 < semaphores) × (task.0 < tasks) }
    ensures { let c = control.now in refusal_in result ≡ cond (under_in c && not (holds_in c s.0 task.0)) 16 0 }
{
    if is_under(control) & !holds(control, s, task) {
        return Err(Refusal::AgainstHolder);
    }
    Ok(())
}

// The mask names the task, and it is not live.
fn names_dead(control: &Control, mask: u32, t: Task) -> bool
    requires { t.0 < tasks }
    ensures { result ≡ (names mask t.0 && not (live_in control.now t.0)) }
{
    has_bit(mask, t.0) & !is_live(control, t)
}

// Row 9: a mark that names a task that is not live. A loop over all and no `any`, which leaves at the first: no branch on what no processor guesses.
fn names_any_dead(control: &Control, mask: u32) -> bool
    ensures { result ≡ any_below tasks (λ t. names mask t && not (live_in control.now t)) }
{
    let mut found = false;
    for t in 0..TASKS {
        found |= names_dead(control, mask, Task(t));
    }
    found
}

// Row 4: a mark with no mask.
fn no_mask(on: u32) -> bool
    ensures { result ≡ (eqb on 0 || leb (2 ^ tasks) on) }
{
    !matches!(on, 1..=LAST_MASK)
}

// The rows that can apply to a mark, whatever its task, which is not looked at.
#[tactic(auto, unfolding(theory::specs::acceptance::Table::standing_refusal))]
fn mark_refusal(control: &Control, on: u32) -> Result<(), Refusal>
    ensures { (task : ℕ) → refusal_in result ≡ control_refusal control.now (record_of loss_mark task on) }
{
    if no_mask(on) {
        return Err(Refusal::NoSuchMask);
    }
    if at_the_limit(control) {
        return Err(Refusal::RecordingFull);
    }
    if names_any_dead(control, on) {
        return Err(Refusal::NamedNotLive);
    }
    if is_under(control) {
        return Err(Refusal::MarkUnderProfile);
    }
    Ok(())
}

// The rows that every act has: of its task, its number, which is outside its series or not, the limit, and whether the task is live.
pub(crate) fn common_refusal(control: &Control, task: u32, outside: bool) -> Result<(), Refusal>
    ensures { refusal_in result ≡ first_row (common_rows (control_standing control.now) task outside) }
{
    if beyond::<TASKS>(task) {
        return Err(Refusal::NoSuchTask);
    }
    if outside {
        return Err(Refusal::OutsideSeries);
    }
    if at_the_limit(control) {
        return Err(Refusal::RecordingFull);
    }
    if !is_live(control, Task(task)) {
        return Err(Refusal::TaskNotLive);
    }
    Ok(())
}

// The rows that can apply to an act. Those of every act come first, so that those after them find the tasks in the table.
#[tactic(auto, unfolding(theory::specs::acceptance::Table::standing_refusal))]
fn act_refusal(control: &Control, kind: u8, task: u32, on: u32) -> Result<(), Refusal>
    requires { OfAct (record_of kind task on) }
    ensures { refusal_in result ≡ control_refusal control.now (record_of kind task on) }
{
    common_refusal(control, task, outside(kind, on))?;
    match kind {
        START => start_refusal(control, Task(on)),
        JOIN => join_refusal(control, Task(task), Task(on)),
        TAKE => take_refusal(control, Semaphore(on)),
        GIVE => give_refusal(control, Semaphore(on), Task(task)),
        OWNED => owned_refusal(control),
        _ => Ok(()),
    }
}

// The first row that applies to a record, which comes as its three numbers, as it does to `admit`.
#[tactic(auto, unfolding(theory::specs::acceptance::Table::standing_refusal))]
pub(crate) fn refusal_of(control: &Control, kind: u8, task: u32, on: u32) -> Result<(), Refusal>
    ensures { refusal_in result ≡ control_refusal control.now (record_of kind task on) }
{
    match kind {
        0..=LAST_KIND => match kind {
            LOST => mark_refusal(control, on),
            _ => act_refusal(control, kind, task, on),
        },
        _ => Err(Refusal::UnknownKind),
    }
}

// The first row that applies to the record.
pub fn refusal(control: &Control, r: Record) -> Result<(), Refusal>
    ensures { refusal_in result ≡ control_refusal control.now r }
{
    refusal_of(control, r.kind, r.task, r.on)
}
