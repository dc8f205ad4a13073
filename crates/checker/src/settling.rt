// Whether home's lost records can settle an access: the records are followed with one table of clocks, in which each mark is filled in by home's
// tasks that it names. And for each task by itself, beside a running state.
ghost use Rattle.std.specs.Prelude.{◌≡◌, cond, eqb, List, [], ◌∷◌, map, ℕ};
ghost use Rattle.theory.specs.order.Recording.{accesses};
ghost use Rattle.theory.specs.fillings.Completion.{fills};
ghost use Rattle.theory.specs.acceptance.Table.{Proper};
ghost use Rattle.theory.specs.acceptance.Refusals.{refusal_in};
ghost use Rattle.theory.specs.tables.Reckonings.{next_clocks, clock_mask};
ghost use Rattle.theory.specs.feeding.Step.{next_number};
ghost use Rattle.theory.specs.feeding.Lent.{seen};
ghost use Rattle.requests.specs.following.Following.{record_in, run_of, followed, ending};
ghost use Rattle.requests.specs.settling.Fold.{home_only, side_of, side_after, unsettled, forced_at, home_follower, settles, alone_mask, homes_after, alone_before, homes_fed};

use crate::access::AccessInRange;
use crate::asking::is_asked;
use crate::clocks::{self, ByClocks};
use crate::history::keep_record;
use crate::marks::Marking;
use crate::masks::added_weight;
use crate::rows::Reckoning;
use acceptance::{admit, fresh_control, refusal};
use basics::{is_access, lower_half, picked, record_at, weight};
use requests::Settled;
use theory::{
    CLOCK_CELLS, COUNT, Clocks, Control, HISTORY_CELLS, History, Homes, LOST, Record, RecordNumber,
    Refusal, Task,
};

// Home has a task at all.
fn has_task(home: u32) -> bool
    ensures { result ≡ fills (home_only home) }
{
    lower_half(home) != 0
}

// The clocks after an accepted record.
fn fill_by(cells: &mut Clocks, home: u32, r: Record, number: RecordNumber)
    requires { Proper r.kind r.task r.on }
    ensures { cells.new ≡ next_clocks (home_only home) r.kind r.task r.on number.0 cells.old }
{
    if r.kind == LOST {
        ByClocks::mark(cells, r.on & home);
        return;
    }
    clocks::own(cells, Task(r.task), number);
    ByClocks::pass_on(cells, has_task(home), r.kind, Task(r.task), r.on);
}

// An accepted record: it is kept and passed on.
fn take_in(last: &mut History, cells: &mut Clocks, home: u32, r: Record, number: RecordNumber)
    requires { Proper r.kind r.task r.on }
    ensures { let l = seen last in let s = seen cells in
        ((control : List ℕ) → number.0 ≡ next_number control → side_of l.exit s.exit ≡ side_after home control r (side_of l.entry s.entry)) }
{
    keep_record(last, r, number);
    fill_by(cells, home, r, number);
}

// The records of the list, up to the first that is refused.
fn follow_home(
    list: &[[u32; 3]],
    home: u32,
    control: &mut Control,
    last: &mut History,
    cells: &mut Clocks,
) -> Result<(), Refusal>
    ensures { let c = seen control in let l = seen last in let s = seen cells in
        run_of (refusal_in result) c.exit (side_of l.exit s.exit)
        ≡ followed (side_after home) c.entry (side_of l.entry s.entry) (map record_in list.now) }
{
    for i in 0..list.len() {
        let r = record_at(list, i);
        let admitted = admit(control, r.kind, r.task, r.on)?;
        take_in(last, cells, home, r, admitted.number);
    }
    Ok(())
}

// No task's latest conflicting access is without a path to this access.
fn is_ordered(last: &History, cells: &Clocks, q: AccessInRange) -> Settled
    ensures { result ≡ cond (eqb (clock_mask cells.now last.now q.kind q.task.0 q.variable.0) 0) Settled.Yes Settled.No }
{
    let apart = ByClocks::access_mask(cells, last, q);
    picked(apart == 0, Settled::Yes, Settled::No)
}

// The answer for an accepted record.
fn settled_at(last: &History, cells: &Clocks, q: Record) -> Settled
    requires { Proper q.kind q.task q.on }
    ensures { Ok result ≡ cond (accesses q.kind) (forced_at q (side_of last.now cells.now)) (unsettled 0) }
{
    if is_access(q.kind) {
        return is_ordered(last, cells, AccessInRange::of(q));
    }
    Settled::Neither
}

// The answer for the last record, where none of the records before it was refused.
fn settled_end(
    control: &Control,
    last: &History,
    cells: &Clocks,
    home: u32,
    q: Record,
) -> Result<Settled, Refusal>
    ensures { result ≡ ending (home_follower home) q (run_of 0 control.now (side_of last.now cells.now)) }
{
    refusal(control, q)?;
    Ok(settled_at(last, cells, q))
}

// Feeds one record more: the answer is that for the records so far with this one at their end. A refused record leaves every table as it was.
pub fn feed_home(
    control: &mut Control,
    last: &mut History,
    cells: &mut Clocks,
    home: u16,
    r: Record,
) -> Result<Settled, Refusal>
    ensures { let c = seen control in let l = seen last in let s = seen cells in
        (result ≡ ending (home_follower home) r (run_of 0 c.entry (side_of l.entry s.entry)))
        × (run_of (refusal_in result) c.exit (side_of l.exit s.exit) ≡ followed (side_after home) c.entry (side_of l.entry s.entry) (r ∷ [])) }
{
    let admitted = admit(control, r.kind, r.task, r.on)?;
    let settled = settled_at(last, cells, r);
    take_in(last, cells, home as u32, r, admitted.number);
    Ok(settled)
}

// The answer for a list of records, each of its kind, its task and its number; home has bit t for task t.
pub fn settle(list: &[[u32; 3]], home: u16) -> Result<Settled, Refusal>
    ensures { result ≡ settles home (map record_in list.now) }
{
    let [before @ .., _] = list else {
        return Ok(Settled::Neither);
    };
    let q = record_at(list, before.len());
    let home = home as u32;
    let mut control = fresh_control();
    let mut last = [0u32; HISTORY_CELLS];
    let mut cells = [0u32; CLOCK_CELLS];
    follow_home(before, home, &mut control, &mut last, &mut cells)?;
    settled_end(&control, &last, &cells, home, q)
}

// Which tasks could settle an access alone. The loop is over the tables, which are the tasks' by their numbers.
fn alone_mask(last: &History, homes: &Homes, access: AccessInRange) -> u16
    ensures { result ≡ alone_mask homes.now last.now access.kind access.task.0 access.variable.0 }
{
    let mut x: u32 = 0;
    for (t, cells) in homes.iter().enumerate() {
        let apart = ByClocks::access_mask(cells, last, access);
        x |= added_weight(apart == 0, Task(t as u32));
    }
    lower_half(x)
}

// Which tasks could settle the record r alone, as a mask, asked before r is fed: none where it is no access or would be refused.
pub fn alone(control: &Control, last: &History, homes: &Homes, r: Record) -> u16
    ensures { result ≡ alone_before control.now last.now homes.now r }
{
    if is_asked(control, r) {
        return alone_mask(last, homes, AccessInRange::of(r));
    }
    0
}

// The tables after an accepted record, each filled in by its own task.
fn fill_each(homes: &mut Homes, r: Record, number: RecordNumber)
    requires { Proper r.kind r.task r.on }
    ensures { homes.new ≡ homes_after r.kind r.task r.on number.0 homes.old }
{
    for (t, cells) in homes.iter_mut().enumerate() {
        fill_by(cells, weight(t as u32), r, number);
    }
}

// The tables as the record r is fed, by the control table before it; one that is refused leaves them as they were.
pub fn feed_homes(control: &Control, homes: &mut Homes, r: Record)
    ensures { homes.new ≡ homes_fed control.now r homes.old }
{
    if refusal(control, r).is_ok() {
        fill_each(homes, r, RecordNumber(control[COUNT] + 1));
    }
}
