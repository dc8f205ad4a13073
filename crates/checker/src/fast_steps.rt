// The two sorts of records that nearly all are of: an access, and a take, give, look or set outside the profile. Which comes next no processor guesses, so
// each sort is told apart once, and from there on nothing branches on a kind, a verdict or a direction.
ghost use Rattle.std.specs.Prelude.{◌≡◌, true, false, leb};
ghost use Rattle.theory.specs.order.Recording.{accesses, series_size};
ghost use Rattle.theory.specs.acceptance.Control.{under_in};
ghost use Rattle.theory.specs.feeding.Step.{step_of};
ghost use Rattle.checker.specs.Tables.{SameTables, state_in};
ghost use Rattle.theory.proofs.tables.HandOver.{HandOverKind};

use crate::access::AccessInRange;
use crate::clocks;
use crate::outcome::{accept_access, accept_other};
use crate::tables::Tables;
use acceptance::{admit_plain, beyond};
use theory::{Answer, FLAGS, LOOK, Record, SEMAPHORES, SET, Task, VARIABLES};

// Feeds an access.
pub(crate) fn step_access(tables: &mut Tables<'_>, r: Record) -> Answer
    requires { accesses r.kind ≡ true }
    ensures same { SameTables tables.old tables.new }
    ensures stepped { record { state = state_in tables.new; answer = result } ≡ step_of (state_in tables.old) r }
{
    let admitted = match admit_plain(tables.control, r, beyond::<VARIABLES>(r.on)) {
        Ok(admitted) => admitted,
        Err(row) => return Answer::Refused(row),
    };
    let number = admitted.number;
    let access = AccessInRange::of(r);
    let words = clocks::clock_words(tables.clocks, tables.fullclocks, tables.last, access);
    clocks::own_both(tables.clocks, tables.fullclocks, access.task, number);
    accept_access(tables.control, tables.last, access, number, words)
}

// There is no such semaphore, or, where a flag is looked at or set, no such flag.
fn no_object(kind: u8, on: u32) -> bool
    requires { HandOverKind kind }
    ensures { result ≡ leb (series_size kind) on }
{
    match kind {
        LOOK | SET => beyond::<FLAGS>(on),
        _ => beyond::<SEMAPHORES>(on),
    }
}

// Feeds a take, give, look or set outside the profile.
pub(crate) fn step_hand_over(tables: &mut Tables<'_>, r: Record) -> Answer
    requires { HandOverKind r.kind × (under_in tables.old.control.now ≡ false) }
    ensures same { SameTables tables.old tables.new }
    ensures stepped { record { state = state_in tables.new; answer = result } ≡ step_of (state_in tables.old) r }
{
    let admitted = match admit_plain(tables.control, r, no_object(r.kind, r.on)) {
        Ok(admitted) => admitted,
        Err(row) => return Answer::Refused(row),
    };
    let number = admitted.number;
    let task = Task(r.task);
    clocks::own_both(tables.clocks, tables.fullclocks, task, number);
    clocks::hand_over(tables.clocks, tables.fullclocks, r.kind, task, r.on);
    accept_other(tables.last, r, number)
}
