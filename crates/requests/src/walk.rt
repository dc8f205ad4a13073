use theory::{HUB, WORD_BITS};

// The lazy reckoning: what it keeps while it goes over a list, and what it answers. crates/requests/specs/lazy says which cells hold what.

// For each node a word with a bit for each column, that is, for each access from which order is followed.
pub const NODES: usize = HUB;

pub type Nodes = [u32; NODES];

// For each column a number of walked records.
pub type Counts = [u32; WORD_BITS];

// What is one word: the columns that follow an access, the tasks that have acted, the columns for which no walk is needed, and how many records
// there were that a walk counts.
#[derive(Clone, Copy, Default)]
pub struct Walk {
    pub pairs: u32,
    pub acted: u32,
    pub known: u32,
    pub walked: u32,
}

// The answer: the tasks that have a pair, those of them from whose access a path leads here, and the records walked.
#[derive(Clone, Copy)]
pub struct Pairs {
    pub pairs: u32,
    pub paths: u32,
    pub walked: u64,
}
