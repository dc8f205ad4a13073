// What the text layer is judged by: specs/ says what lines, records' text forms and reports are, proofs/ what is known of them.
// No code stands here, only the types that the definitions speak of.
#![tactic(auto)]

mod entry;
mod progress;

pub use entry::Entry;
pub use progress::Progress;
