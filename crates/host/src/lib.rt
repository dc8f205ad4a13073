// The functions for a host in C that keeps a running state. `host_c` makes them an archive.
#![tactic(auto)]

mod feeding;
mod lazy;
mod settling;
mod totals;

pub use feeding::{
    InNumbers, RefusedBy, answer_numbers, order_begin, order_feed, order_sets_begin,
    order_sets_feed, refusal_numbers,
};
pub use lazy::order_lazy;
pub use settling::order_settle;
pub use totals::{order_any_race, order_skipped, order_totals};
