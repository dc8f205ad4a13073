// The reading of lines: those of a text as records, and those of the file of accepted faults as entries. It knows nothing of the checker.
#![tactic(auto)]

mod decimal;
mod entry_form;
mod fast_reading;
mod parsing;
mod reader;
mod scan;
mod short;
mod words;

pub use decimal::{DIGITS, read_decimal};
pub use entry_form::parse_entry;
pub use parsing::parse_line;
pub use reader::{LineReader, read_record};
pub use scan::{LF, line_count, line_end};
pub use words::little_endian;
