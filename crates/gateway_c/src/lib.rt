// The function of `gateway` for a program in C; include/order.h has it for C. It is an archive of its own: in one with `order_feed` the step
// would have two callers, and the compiler would no longer make it part of either.
#![tactic(auto)]

ghost use Rattle.std.specs.Prelude.{◌≡◌};
ghost use Rattle.theory.specs.feeding.Step.{answer_numbers, record_of, step_of};

use theory::State;

// Feeds a record to the running state and writes the answer as three numbers. The state is copied there and back: `order_feed` is faster.
#[unsafe(no_mangle)]
pub extern "C" fn order_step(state: &mut State, kind: u8, task: u32, on: u32, answer: &mut [u32; 3])
    ensures { let stepped = step_of state.old (record_of kind task on) in
        (state.new ≡ stepped.state) × (answer.new ≡ answer_numbers stepped.answer) }
{
    gateway::order_step(state, kind, task, on, answer);
}
