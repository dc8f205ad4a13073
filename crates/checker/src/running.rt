// The gateway's one running state: lent to the step, and changed there.
ghost use Rattle.std.specs.Prelude.{◌≡◌};
ghost use Rattle.theory.specs.feeding.Step.{step_of};

use crate::stepping::step;
use theory::{Answer, Record, State};

// Feeds a record to the running state, which is changed where it stands. A refused record leaves it as it was.
pub fn feed(state: &mut State, r: Record) -> Answer
    ensures { record { state = state.exit.now; answer = result } ≡ step_of state.entry.now r }
{
    let stepped = step(*state, r);
    *state = stepped.state;
    stepped.answer
}
