// How many Doubts each task could settle alone, and how many Doubts there were.
ghost use Rattle.std.specs.Prelude.{◌≡◌, cond, ◌<◌, ◌≤◌};
ghost use Rattle.theory.specs.order.Limits.{tasks};
ghost use Rattle.theory.specs.fillings.Completion.{bit};
ghost use Rattle.theory.specs.tables.Counters.{raise};
ghost use Rattle.settle.specs.Table.{tallied};

use basics::{has_bit, one_more};
use theory::TASKS;

// One for each task, and one for all.
pub(crate) const ALL: usize = TASKS as usize;

pub(crate) const TALLIES: usize = ALL + 1;

pub(crate) type Tallies = [u32; TALLIES];

// One more at a place, as basics' `raise` has it for the control table alone.
fn raise(tallies: &mut Tallies, i: usize)
    requires { i ≤ tasks }
    ensures { tallies.new ≡ raise i tallies.old }
{
    tallies[i] = one_more(tallies[i]);
}

// Counts a Doubt for a task, if that is in the mask.
fn count_task(tallies: &mut Tallies, mask: u16, t: u32)
    requires { t < tasks }
    ensures { tallies.new ≡ cond (bit mask t) (raise t tallies.old) tallies.old }
{
    if has_bit(u32::from(mask), t) {
        raise(tallies, t as usize);
    }
}

// Counts a Doubt that the tasks of the mask could settle alone; what is none is not counted.
#[tactic(auto, unfolding(crate::specs::Table::tallied))]
pub(crate) fn tally(tallies: &mut Tallies, doubt: Option<u16>)
    ensures { tallies.new ≡ tallied doubt tallies.old }
{
    let Some(mask) = doubt else {
        return;
    };
    raise(tallies, ALL);
    for t in 0..TASKS {
        count_task(tallies, mask, t);
    }
}
