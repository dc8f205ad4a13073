// The accepted part of a step: what an accepted record is answered, and what it leaves in the control table and in the history. It is one for both
// reckonings, each of which moves its own tables (moving.rt, set_steps.rt), and two for an access and any other record, which the caller has told apart
// already: nothing here branches on which it is.
ghost use Rattle.std.specs.Prelude.{◌≡◌, false, ◌%◌, ◌^◌};
ghost use Rattle.theory.specs.order.Limits.{tasks};
ghost use Rattle.theory.specs.order.Recording.{accesses};
ghost use Rattle.theory.specs.acceptance.Table.{Proper};
ghost use Rattle.theory.specs.history.History.{last_after};
ghost use Rattle.theory.specs.tables.Reckonings.{masks_by};
ghost use Rattle.theory.specs.feeding.Step.{answered_by};
ghost use Rattle.theory.specs.feeding.Meaning.{meaning};
ghost use Rattle.theory.specs.totals.Totals.{totalled};
ghost use Rattle.theory.specs.feeding.Lent.{seen};
ghost use Rattle.theory.proofs.tables.Bits.{Halved};

use crate::access::AccessInRange;
use crate::history::{keep, renew};
use crate::masks::{Words, judged};
use crate::totals::total;
use theory::{Answer, Control, History, Record, RecordNumber};

// An accepted access, once it is noted in the control table and has its number: it is judged by what was kept before it, counted by its verdict, then
// kept itself.
pub(crate) fn accept_access(
    control: &mut Control,
    last: &mut History,
    access: AccessInRange,
    number: RecordNumber,
    words: Words,
) -> Answer
    requires { Halved words.full × Halved words.arrived }
    ensures { let c = seen control in let l = seen last in
        (result ≡ answered_by l.entry access.kind access.variable.0 number.0 (masks_by (words.full % 2 ^ tasks) (words.arrived % 2 ^ tasks)))
        × (c.exit ≡ totalled (meaning result) access.variable.0 c.entry)
        × (l.exit ≡ last_after access.kind access.task.0 access.variable.0 number.0 l.entry) }
{
    let answer = judged(last, access, number, words);
    total(
        control,
        access.variable,
        words.full != 0,
        words.arrived != 0,
    );
    keep(last, access, number);
    answer
}

// Any other: no more is done to the control table, and of what is kept only a fresh changes anything.
pub(crate) fn accept_other(last: &mut History, r: Record, number: RecordNumber) -> Answer
    requires { (accesses r.kind ≡ false) × Proper r.kind r.task r.on }
    ensures { (result ≡ Answer.Accepted number) × (last.new ≡ last_after r.kind r.task r.on number.0 last.old) }
{
    renew(last, r.kind, r.on);
    Answer::Accepted(number)
}
