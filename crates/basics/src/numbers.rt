// Counting.
ghost use Rattle.std.specs.Prelude.{◌≡◌, cond, ltb};
ghost use Rattle.theory.specs.tables.Counters.{one_more, raise};
ghost use Rattle.theory.specs.totals.Totals.{control_cells};

use theory::{CONTROL_CELLS, Control};

// One more; at the end of its range a counter stays.
pub fn one_more(n: u32) -> u32
    ensures { result ≡ one_more n }
{
    n.saturating_add(1)
}

// One more in a cell of the control table; a place past its end has none.
#[tactic(auto, unfolding(theory::specs::tables::Counters::raise))]
pub fn raise(control: &mut Control, i: usize)
    ensures { control.new ≡ cond (ltb i control_cells) (raise i control.old) control.old }
{
    if i < CONTROL_CELLS {
        control[i] = one_more(control[i]);
    }
}
