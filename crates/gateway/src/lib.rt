// One running state, lent whole by a host program in C; include/order.h has the same function for C, and `gateway_c` makes it an archive.
#![tactic(auto)]

ghost use Rattle.std.specs.Prelude.{◌≡◌};
ghost use Rattle.theory.specs.feeding.Step.{answer_numbers, record_of, step_of};

use checker::feed;
use host::answer_numbers;
use theory::{Record, State};

// Feeds a record to the running state and writes the answer as three numbers. The state is copied there and back: `order_feed` is faster.
pub fn order_step(state: &mut State, kind: u8, task: u32, on: u32, answer: &mut [u32; 3])
    ensures { let stepped = step_of state.old (record_of kind task on) in
        (state.new ≡ stepped.state) × (answer.new ≡ answer_numbers stepped.answer) }
{
    *answer = answer_numbers(feed(state, Record { kind, task, on }));
}
