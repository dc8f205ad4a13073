// Small functions of numbers that acceptance, the reckonings and the walk over a list share: tests, bits of a word, kinds of access, rows of a table
// and the records of a lent list. Each is right for every number that it may be handed.
#![tactic(auto)]

mod accesses;
mod bits;
mod bools;
mod lists;
mod numbers;
mod rows;

pub use accesses::{ask_at, clashes, conflict, is_access};
pub use bits::{MASKS, all_but, has_bit, lower_half, lowest, weight};
pub use bools::picked;
pub use lists::record_at;
pub use numbers::{one_more, raise};
pub use rows::{
    acquired_row, acted_after, hands_over, is_release, object_row, passes_on, released_row,
    semaphore_row, task_row,
};
