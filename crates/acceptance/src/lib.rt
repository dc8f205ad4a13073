// Acceptance: which records are refused, by which row of the refusal table, and what an accepted one does to the control table.
#![tactic(auto)]

mod admission;
mod control;
mod refusals;

pub use admission::{Admitted, admit, admit_plain};
pub use control::{fresh_control, is_under, skipped};
pub use refusals::{beyond, refusal};
