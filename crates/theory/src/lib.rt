// What the checker is judged by: specs/ says what order, completions and verdicts are and which demands follow, proofs/ what is known of them.
// No code stands here, only the types that the definitions speak of, and the numbers of kinds and limits for the code.
#![tactic(auto)]

mod answer;
mod kinds;
mod limits;
mod masks;
mod numbers;
mod record;
mod refusal;
mod state;
mod verdict_totals;

pub use answer::Answer;
pub use kinds::{
    ASKERS, ASKING, ASKING_WRITE, FRESH, GIVE, JOIN, KINDS, LOOK, LOST, MISS, OWNED, READ, SET,
    START, TAKE, WRITE,
};
pub use limits::{ENTRIES_MOST, FLAGS, PROFILES, RECORDS, SEMAPHORES, TASKS, VARIABLES};
pub use masks::Masks;
pub use numbers::{Flag, RecordNumber, Semaphore, Task, Variable};
pub use record::Record;
pub use refusal::Refusal;
pub use state::{
    ACTED, CLEAR_TOTALS, CLOCK_CELLS, COLUMNS, CONTROL_CELLS, COUNT, Clocks, Control, DOUBT_TOTALS,
    ENTRIES, FIRST_FLAG, FIRST_SEMAPHORE, GIVERS, HISTORY_CELLS, HOLDERS, HUB, History, Homes,
    PAIRED, PROFILE, RACE_TOTALS, RACES, ROWS, SET_CELLS, SKIPPED, SLOT_WORDS, SetState,
    SetStepped, Sets, State, Stepped, WORD_BITS,
};
pub use verdict_totals::Totals;
