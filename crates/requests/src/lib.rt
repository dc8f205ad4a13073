// What document 02 asks of whole lists of records, above the step: accepted faults, the lazy reckoning, swaps, and whose lost records could settle it.
// No code stands here: specs/ states it over the definitions of theory, proofs/ has what is known, src/ the types that the definitions speak of.
#![tactic(auto)]

mod excuse;
mod settled;
mod walk;

pub use excuse::Excuse;
pub use settled::Settled;
pub use walk::{Counts, NODES, Nodes, Pairs, Walk};
