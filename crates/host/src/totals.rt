// The totals of verdicts and the count of skipped takes, for a host program in C. They lie in the control table of a running state, that of the clocks or that of the sets.
ghost use Rattle.std.specs.Prelude.{◌≡◌, cond, [], ◌∷◌, ltb};
ghost use Rattle.theory.specs.order.Limits.{variables};
ghost use Rattle.theory.specs.acceptance.Control.{skipped_in};
ghost use Rattle.theory.specs.basics.Turns.{indicator};
ghost use Rattle.theory.specs.totals.Totals.{totals_in, any_race};

use acceptance::skipped;
use checker::{any_race, totals_of};
use theory::Control;

// Writes how many accesses of a variable were Clear, Race and Doubt so far, and returns 1: C has no Option. Where there is no such variable it returns 0, and
// the memory is as it was.
pub fn order_totals(control: &Control, v: u32, totals: &mut [u32; 3]) -> u32
    ensures { let known = ltb v variables in let t = totals_in control.now v in
        (result ≡ indicator known) × (totals.new ≡ cond known (t.clear ∷ t.race ∷ t.doubt ∷ []) totals.old) }
{
    let Some(t) = totals_of(control, v) else {
        return 0;
    };
    *totals = [t.clear, t.race, t.doubt];
    1
}

// Returns 1 where any access was a Race so far, and 0 where none was.
pub fn order_any_race(control: &Control) -> u32
    ensures { result ≡ indicator (any_race control.now) }
{
    u32::from(any_race(control))
}

// Returns how many takes were skipped so far.
pub fn order_skipped(control: &Control) -> u32
    ensures { result ≡ skipped_in control.now }
{
    skipped(control)
}
