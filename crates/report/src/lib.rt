// The text layer above the order checker: lines in, report lines out. It relies on the promises of the checker and of the reading of lines only.
#![tactic(auto)]

mod answering;
mod entries;
mod entry;
mod fast_writing;
mod page;
mod sizes;
mod streaming;
mod telling;
mod writing;

pub use entries::entries_piece;
pub use entry::order_report;
pub use page::last_digit;
pub use sizes::{HELD_MOST, LINE_ROOM};
pub use streaming::{REFUSED, report_piece};
