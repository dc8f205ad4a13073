// An access whose numbers are in their ranges: what is kept of it, asked for it and counted wants no more than that.
ghost use Rattle.std.specs.Prelude.{◌≡◌};
ghost use Rattle.theory.proofs.history.Accesses.{OfAccess};

use theory::{Record, Task, Variable};

#[derive(Clone, Copy)]
pub(crate) struct AccessInRange {
    pub(crate) kind: u8,
    pub(crate) task: Task,
    pub(crate) variable: Variable,
    ghost in_range: { OfAccess kind task.0 variable.0 },
}

impl AccessInRange {
    // What a record says, where the caller has found it to be one; no `From`, since it asks for that.
    pub(crate) fn of(r: Record) -> AccessInRange
        requires { OfAccess r.kind r.task r.on }
        ensures { (result.kind ≡ r.kind) × (result.task.0 ≡ r.task) × (result.variable.0 ≡ r.on) }
    {
        AccessInRange {
            kind: r.kind,
            task: Task(r.task),
            variable: Variable(r.on),
        }
    }
}
