use crate::numbers::RecordNumber;
use crate::refusal::Refusal;

// What feeding a record answers.
#[derive(Clone, Copy)]
pub enum Answer {
    // The first row of the refusal table that applies; the state is as it was.
    Refused(Refusal),
    // Accepted, and no access: the record's number.
    Accepted(RecordNumber),
    // An access, by its record number: ordered, however the losses are filled in.
    Clear(RecordNumber),
    // Unordered with the partner, however they are filled in.
    Race(RecordNumber, RecordNumber),
    // Unordered with the partner as the recording arrived; it depends on what was lost.
    Doubt(RecordNumber, RecordNumber),
}
