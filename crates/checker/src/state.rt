// The states before any record. Those of the clocks and of the sets apart, as their steps are, by what may not change: `fresh_state`, `fresh_sets`, `step_of`
// and `set_step_of` are definitions under the demands, each over a state whose tables have names of their own.
ghost use Rattle.std.specs.Prelude.{◌≡◌};
ghost use Rattle.theory.specs.feeding.Step.{fresh_state, fresh_sets};
ghost use Rattle.theory.specs.feeding.Lent.{set_tables};
ghost use Rattle.checker.specs.Tables.{SameTables, state_in};

use crate::tables::Tables;
use acceptance::fresh_control;
use theory::{CLOCK_CELLS, Control, HISTORY_CELLS, History, SET_CELLS, SetState, Sets, State};

pub fn fresh() -> State
    ensures { result ≡ fresh_state }
{
    State {
        control: fresh_control(),
        last: [0; HISTORY_CELLS],
        clocks: [0; CLOCK_CELLS],
        fullclocks: [0; CLOCK_CELLS],
    }
}

pub fn fresh_sets() -> SetState
    ensures { result ≡ fresh_sets }
{
    SetState {
        control: fresh_control(),
        last: [0; HISTORY_CELLS],
        sets: [0; SET_CELLS],
        fullsets: [0; SET_CELLS],
    }
}

// Makes the lent tables those of a fresh state.
pub fn begin(tables: &mut Tables<'_>)
    ensures same { SameTables tables.old tables.new }
    ensures fresh { state_in tables.new ≡ fresh_state }
{
    *tables.control = fresh_control();
    *tables.last = [0; HISTORY_CELLS];
    *tables.clocks = [0; CLOCK_CELLS];
    *tables.fullclocks = [0; CLOCK_CELLS];
}

// Makes the lent tables those of a fresh state of the sets.
pub fn begin_sets(control: &mut Control, last: &mut History, sets: &mut Sets, fullsets: &mut Sets)
    ensures { (set_tables control last sets fullsets).exit ≡ fresh_sets }
{
    *control = fresh_control();
    *last = [0; HISTORY_CELLS];
    *sets = [0; SET_CELLS];
    *fullsets = [0; SET_CELLS];
}
