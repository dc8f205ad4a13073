// Which tasks' latest conflicting access has no path to an access, asked without feeding it: a mask for the fullest filling and one for
// the recording as it arrived. Empty for a record that is no access or would be refused.
ghost use Rattle.std.specs.Prelude.{◌≡◌, true, cond, eqb, ◌&&◌};
ghost use Rattle.theory.specs.order.Recording.{accesses};
ghost use Rattle.theory.specs.acceptance.Control.{control_refusal};
ghost use Rattle.theory.specs.tables.Reckonings.{masks_by};
ghost use Rattle.theory.specs.feeding.Step.{apart_by_clocks, apart_by_sets, masks_unless};
ghost use Rattle.theory.specs.feeding.Lent.{state_of, set_state_of};
ghost use Rattle.theory.proofs.history.Accesses.{OfAccess};

use crate::access::AccessInRange;
use crate::clocks::ByClocks;
use crate::rows::Reckoning;
use crate::sets::BySets;
use acceptance::refusal;
use basics::is_access;
use theory::{Clocks, Control, History, Masks, Record, Sets};

// Whether there is anything to ask: the record is an access, and would be accepted.
pub(crate) fn is_asked(control: &Control, r: Record) -> bool
    ensures { (result ≡ (eqb (control_refusal control.now r) 0 && accesses r.kind)) × (result ≡ true → OfAccess r.kind r.task r.on) }
{
    refusal(control, r).is_ok() && is_access(r.kind)
}

// By a reckoning.
fn apart_by<R: Reckoning<WIDTH, CELLS>, const WIDTH: usize, const CELLS: usize>(
    control: &Control,
    last: &History,
    arrived: &[u32; CELLS],
    full: &[u32; CELLS],
    r: Record,
) -> Masks
    ensures { let m = R.access_mask in result ≡ masks_unless (control_refusal control.now r)
        (cond (accesses r.kind) (masks_by (m full.now last.now r.kind r.task r.on) (m arrived.now last.now r.kind r.task r.on)) (masks_by 0 0)) }
{
    if is_asked(control, r) {
        return R::access_masks(arrived, full, last, AccessInRange::of(r));
    }
    Masks {
        full: 0,
        arrived: 0,
    }
}

// By the clocks.
pub fn apart_by_clocks(
    control: &Control,
    last: &History,
    clocks: &Clocks,
    fullclocks: &Clocks,
    r: Record,
) -> Masks
    ensures { result ≡ apart_by_clocks (state_of control.now last.now clocks.now fullclocks.now) r }
{
    apart_by::<ByClocks, _, _>(control, last, clocks, fullclocks, r)
}

// By the sets.
pub fn apart_by_sets(
    control: &Control,
    last: &History,
    sets: &Sets,
    fullsets: &Sets,
    r: Record,
) -> Masks
    ensures { result ≡ apart_by_sets (set_state_of control.now last.now sets.now fullsets.now) r }
{
    apart_by::<BySets, _, _>(control, last, sets, fullsets, r)
}
