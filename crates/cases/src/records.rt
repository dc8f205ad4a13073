// The kind numbers as document 01 has them, so that the checker's own are tested too; and a record of three numbers.
use theory::Record;

pub(crate) const READ: u8 = 0;

pub(crate) const WRITE: u8 = 1;

pub(crate) const TAKE: u8 = 2;

pub(crate) const GIVE: u8 = 3;

pub(crate) const LOOK: u8 = 4;

pub(crate) const SET: u8 = 5;

pub(crate) const START: u8 = 6;

pub(crate) const JOIN: u8 = 7;

pub(crate) const LOST: u8 = 8;

pub(crate) const FRESH: u8 = 9;

pub(crate) const MISS: u8 = 10;

pub(crate) const BUMP: u8 = 11;

pub(crate) const OWNED: u8 = 12;

// The first number of no kind.
pub(crate) const NONE: u8 = 13;

pub(crate) fn record(kind: u8, task: u32, on: u32) -> Record {
    Record { kind, task, on }
}
