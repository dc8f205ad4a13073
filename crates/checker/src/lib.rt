// The order checker below the text layer, over basics and acceptance: each function proved against a definition of crates/theory or crates/requests.
#![tactic(auto)]

mod access;
mod asking;
mod clocks;
mod entries;
mod fast_steps;
mod history;
mod marks;
mod masks;
mod moving;
mod outcome;
mod rows;
mod running;
mod set_steps;
mod sets;
mod settling;
mod state;
mod stepping;
mod tables;
mod totals;

pub use asking::{apart_by_clocks, apart_by_sets};
pub use clocks::acquire;
pub use entries::{enter, entries_full, excuse};
pub use running::feed;
pub use set_steps::{set_step, set_step_in_place};
pub use settling::{alone, feed_home, feed_homes, settle};
pub use state::{begin, begin_sets, fresh, fresh_sets};
pub use stepping::{step, step_in_place};
pub use tables::Tables;
pub use totals::{any_race, totals_of};
