// Why a record is refused: each row of the refusal table, by its number. Rows 10 to 13 are none: they are of lines, of a whole text and of entries.
#[derive(Clone, Copy)]
pub enum Refusal {
    UnknownKind = 1,
    NoSuchTask = 2,
    OutsideSeries = 3,
    NoSuchMask = 4,
    RecordingFull = 5,
    TaskNotLive = 6,
    StartedBefore = 7,
    JoinsItself = 8,
    NamedNotLive = 9,
    OwnedBefore = 14,
    MarkUnderProfile = 15,
    AgainstHolder = 16,
}
