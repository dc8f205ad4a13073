// Recordings as text: a record is its task, a sign for its kind and its number, as `0w5`, with one byte between two records.
ghost use Rattle.std.specs.Prelude.{◌+◌, ◌*◌, ◌≤◌, length};

use crate::records::{
    BUMP, FRESH, GIVE, JOIN, LOOK, LOST, MISS, NONE, OWNED, READ, SET, START, TAKE, WRITE, record,
};
use theory::Record;

fn kind_of(sign: u8) -> u8 {
    match sign {
        b'r' => READ,
        b'w' => WRITE,
        b't' => TAKE,
        b'g' => GIVE,
        b'l' => LOOK,
        b's' => SET,
        b'+' => START,
        b'-' => JOIN,
        b'?' => LOST,
        b'f' => FRESH,
        b'm' => MISS,
        b'b' => BUMP,
        b'o' => OWNED,
        _ => NONE,
    }
}

// Of a number, and of no task: a mark has none.
fn digit(b: u8) -> u32 {
    match b {
        b'0'..=b'9' => (b - b'0') as u32,
        _ => u32::MAX,
    }
}

// How many records a text has: the last one has no byte after it.
pub(crate) fn count(text: &[u8]) -> usize
    ensures { result * 4 ≤ length text.now + 1 }
{
    text.len() / 4 + text.len() % 4 / 3
}

// The n-th record, from 0, and one of no kind where there is none.
pub(crate) fn nth(text: &[u8], n: usize) -> Record {
    if n < count(text) {
        let i = n * 4;
        return record(kind_of(text[i + 1]), digit(text[i]), digit(text[i + 2]));
    }
    record(NONE, 0, 0)
}
