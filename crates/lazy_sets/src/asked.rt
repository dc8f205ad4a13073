// What is asked, and what is gone over for it, each with its numbers in their ranges.
ghost use Rattle.theory.specs.acceptance.Table.{Fitting};
ghost use Rattle.theory.proofs.history.Accesses.{OfAccess};

use theory::{Record, Task};

// The access that is asked about, as a record, which is what the definitions take; checker's `AccessInRange` has the three numbers. It goes beside what is kept, as in the definitions: as a part of it, each contract would have to say that it stays.
#[derive(Clone, Copy)]
pub(crate) struct EndingAccess {
    pub(crate) record: Record,
    ghost in_range: { OfAccess record.kind record.task record.on },
}

// An accepted act.
#[derive(Clone, Copy)]
pub(crate) struct Act {
    pub(crate) kind: u8,
    pub(crate) task: Task,
    pub(crate) on: u32,
    ghost in_range: { Fitting kind task.0 on },
}
