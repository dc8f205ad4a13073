// Totals of verdicts, in the control table: read at any moment, and raised by the step.
ghost use Rattle.std.specs.Prelude.{◌≡◌, ◌<◌};
ghost use Rattle.theory.specs.order.Limits.{variables};
ghost use Rattle.theory.specs.totals.Totals.{totals_of, any_race, with_verdict};
ghost use Rattle.theory.proofs.totals.Counted.{verdict_by};

use basics::{picked, raise};
use theory::{
    CLEAR_TOTALS, Control, DOUBT_TOTALS, RACE_TOTALS, RACES, Totals, VARIABLES, Variable,
};

// How many accesses of a variable were answered by each verdict so far; nothing where there is no such variable.
pub fn totals_of(control: &Control, v: u32) -> Option<Totals>
    ensures { result ≡ totals_of control.now v }
{
    if VARIABLES <= v {
        return None;
    }
    let place = v as usize;
    Some(Totals {
        clear: control[CLEAR_TOTALS + place],
        race: control[RACE_TOTALS + place],
        doubt: control[DOUBT_TOTALS + place],
    })
}

// Whether any access was a Race so far.
pub fn any_race(control: &Control) -> bool
    ensures { result ≡ any_race control.now }
{
    0 < control[RACES]
}

// The verdict on an access of the variable is counted: a Race, else a Doubt, else Clear. Each total is found by its place, without a branch.
pub(crate) fn total(control: &mut Control, v: Variable, race: bool, doubt: bool)
    requires { v.0 < variables }
    ensures { control.new ≡ with_verdict (verdict_by race doubt) v.0 control.old }
{
    let place = picked(race, RACE_TOTALS, picked(doubt, DOUBT_TOTALS, CLEAR_TOTALS));
    raise(control, place + v.0 as usize);
    control[RACES] = control[RACES].saturating_add(race as u32);
}
