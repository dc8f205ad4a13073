// What every step does first: a record is refused, or it is noted in the control table and gets its number.
ghost use Rattle.std.specs.Prelude.{◌≡◌};
ghost use Rattle.theory.specs.acceptance.Table.{first_row};
ghost use Rattle.theory.specs.acceptance.Control.{control_standing, control_refusal, counted, control_after};
ghost use Rattle.theory.specs.feeding.Step.{record_of, next_number, clock_kind};
ghost use Rattle.theory.specs.feeding.Lent.{seen};
ghost use Rattle.theory.proofs.acceptance.Plain.{common_rows};
ghost use Rattle.acceptance.specs.Admission.{admitted_as, unless};

use crate::control::{clock_kind, count, note};
use crate::refusals::{common_refusal, refusal_of};
use theory::{COUNT, Control, Record, RecordNumber, Refusal};

// An accepted record's number, and the kind by which it moves the clocks.
#[derive(Clone, Copy)]
pub struct Admitted {
    pub number: RecordNumber,
    pub moves: u8,
}

// Any record. A refused one leaves the table as it was. The three numbers come by themselves and not as a record, which would be copied here by wider
// loads than the caller's stores: a processor waits for those.
#[tactic(auto, using(theory::proofs::acceptance::Accepted::accepts))]
pub fn admit(control: &mut Control, kind: u8, task: u32, on: u32) -> Result<Admitted, Refusal>
    ensures { let c = seen control in let n = control_refusal c.entry (record_of kind task on) in
        (result ≡ admitted_as n (next_number c.entry) (clock_kind c.entry kind task on))
        × (c.exit ≡ unless n (control_after kind task on c.entry) c.entry) }
{
    refusal_of(control, kind, task, on)?;
    let number = RecordNumber(control[COUNT] + 1);
    let moves = clock_kind(control, kind, task, on);
    note(control, kind, task, on);
    Ok(Admitted { number, moves })
}

// An act that only the rows of every act can refuse, and that is counted and no more: its number is outside its series or not.
pub fn admit_plain(control: &mut Control, r: Record, outside: bool) -> Result<Admitted, Refusal>
    ensures { let c = seen control in let n = first_row (common_rows (control_standing c.entry) r.task outside) in
        (result ≡ admitted_as n (next_number c.entry) r.kind) × (c.exit ≡ unless n (counted c.entry) c.entry) }
{
    common_refusal(control, r.task, outside)?;
    let number = RecordNumber(control[COUNT] + 1);
    count(control);
    Ok(Admitted {
        number,
        moves: r.kind,
    })
}
