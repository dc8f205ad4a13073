use theory::RecordNumber;

// How a Race is reported beside the faults that a planner has accepted: as known, or not, and its partner. It has a partner either way, so that
// this is no Option.
#[derive(Clone, Copy)]
pub struct Excuse {
    pub known: bool,
    pub partner: RecordNumber,
}
