use crate::answer::Answer;
use crate::kinds::ASKERS;
use crate::limits::{FLAGS, SEMAPHORES, TASKS, VARIABLES};

// The tables that a state is made of, by their sizes. crates/theory/specs says which cells hold what. They are plain arrays of numbers, and not
// structs of enums, since a host in C lends their memory (include/order.h).

// Each task's phase (0 unseen, 1 live, 2 ended), then the count of accepted records, whether they are under the profile of owned semaphores,
// each semaphore's holder and last giver, and the count of skipped takes; the count of Races, and for each verdict a total for each variable: Clear,
// Race, Doubt; then the faults that a planner has accepted.
pub const COUNT: usize = TASKS as usize;

pub const PROFILE: usize = COUNT + 1;

pub const HOLDERS: usize = PROFILE + 1;

pub const GIVERS: usize = HOLDERS + SEMAPHORES as usize;

pub const SKIPPED: usize = GIVERS + SEMAPHORES as usize;

pub const RACES: usize = SKIPPED + 1;

pub const CLEAR_TOTALS: usize = RACES + 1;

pub const RACE_TOTALS: usize = CLEAR_TOTALS + VARIABLES as usize;

pub const DOUBT_TOTALS: usize = RACE_TOTALS + VARIABLES as usize;

// How many entries of accepted faults were taken in, and for each variable and task the tasks that are paired with it, as a mask.
pub const ENTRIES: usize = DOUBT_TOTALS + VARIABLES as usize;

pub const PAIRED: usize = ENTRIES + 1;

pub const CONTROL_CELLS: usize = PAIRED + VARIABLES as usize * TASKS as usize;

pub type Control = [u32; CONTROL_CELLS];

// The kept accesses, by the kind that asks, variable and task.
pub const HISTORY_CELLS: usize = ASKERS * VARIABLES as usize * TASKS as usize;

pub type History = [u32; HISTORY_CELLS];

// The rows of clocks and sets: each task's next act, the semaphores, the flags, the hub, and one for who has acted.
pub const FIRST_SEMAPHORE: usize = TASKS as usize;

pub const FIRST_FLAG: usize = FIRST_SEMAPHORE + SEMAPHORES as usize;

pub const HUB: usize = FIRST_FLAG + FLAGS as usize;

pub const ACTED: usize = HUB + 1;

pub const ROWS: usize = ACTED + 1;

// Clocks have a column for each task.
pub const COLUMNS: usize = TASKS as usize;

pub const CLOCK_CELLS: usize = ROWS * COLUMNS;

pub type Clocks = [u32; CLOCK_CELLS];

// For each task the clocks that it alone fills in.
pub type Homes = [Clocks; COLUMNS];

// Sets have a bit for each kept access, so many to a word.
pub const WORD_BITS: usize = 32;

pub const SLOT_WORDS: usize = HISTORY_CELLS / WORD_BITS;

pub const SET_CELLS: usize = ROWS * SLOT_WORDS;

pub type Sets = [u32; SET_CELLS];

// The running state: the clocks of the recording as it arrived, and those of the fullest filling. A host in C may lend one whole.
#[repr(C)]
#[derive(Clone, Copy)]
pub struct State {
    pub control: Control,
    pub last: History,
    pub clocks: Clocks,
    pub fullclocks: Clocks,
}

#[derive(Clone, Copy)]
pub struct Stepped {
    pub state: State,
    pub answer: Answer,
}

// The state of the sets, which are a reckoning of their own: with sets in place of the clocks. A struct of its own and no `State<T>`: the definitions
// tell the two by their fields (`step_of` and `set_step_of`), which one name for both would hide.
#[derive(Clone, Copy)]
pub struct SetState {
    pub control: Control,
    pub last: History,
    pub sets: Sets,
    pub fullsets: Sets,
}

#[derive(Clone, Copy)]
pub struct SetStepped {
    pub state: SetState,
    pub answer: Answer,
}
