// What an accepted record that is no access does to the clocks. An access, and what hands over outside the profile, have ways of their own (fast_steps.rt).
ghost use Rattle.std.specs.Prelude.{◌≡◌, ◌≢◌};
ghost use Rattle.theory.specs.order.Recording.{loss_mark};
ghost use Rattle.theory.specs.acceptance.Table.{Fitting, Proper};
ghost use Rattle.theory.specs.fillings.Completion.{arrived, full};
ghost use Rattle.theory.specs.tables.Reckonings.{next_clocks};
ghost use Rattle.theory.specs.feeding.Lent.{seen};

use crate::clocks::{self, ByClocks};
use crate::marks::Marking;
use crate::rows::Reckoning;
use basics::passes_on;
use theory::{Clocks, LOST, RecordNumber, Task};

// An act that is no access, by the clocks. A take that is skipped, a miss, a fresh and an `owned` pass nothing on.
fn act_by_clocks(
    clocks: &mut Clocks,
    fullclocks: &mut Clocks,
    kind: u8,
    task: Task,
    on: u32,
    number: RecordNumber,
)
    requires { Fitting kind task.0 on × (kind ≢ loss_mark) }
    ensures { let c = seen clocks in let f = seen fullclocks in
        (c.exit ≡ next_clocks arrived kind task.0 on number.0 c.entry)
        × (f.exit ≡ next_clocks full kind task.0 on number.0 f.entry) }
{
    clocks::own_both(clocks, fullclocks, task, number);
    if !passes_on(kind) {
        return;
    }
    ByClocks::pass_on(clocks, false, kind, task, on);
    ByClocks::pass_on(fullclocks, true, kind, task, on);
}

// A record that is no access, by the clocks: an act, or a mark, which fills in nothing as it arrived.
pub(crate) fn move_clocks(
    clocks: &mut Clocks,
    fullclocks: &mut Clocks,
    kind: u8,
    task: Task,
    on: u32,
    number: RecordNumber,
)
    requires { Proper kind task.0 on }
    ensures { let c = seen clocks in let f = seen fullclocks in
        (c.exit ≡ next_clocks arrived kind task.0 on number.0 c.entry)
        × (f.exit ≡ next_clocks full kind task.0 on number.0 f.entry) }
{
    if kind == LOST {
        ByClocks::mix(fullclocks, on);
    } else {
        act_by_clocks(clocks, fullclocks, kind, task, on, number);
    }
}
