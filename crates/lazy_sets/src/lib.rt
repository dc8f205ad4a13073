// The lazy reckoning: the sets worked out for the access that ends a list of records, and only as far as they are needed.
#![tactic(auto)]

mod asked;
mod columns;
mod following;
mod kept;
mod lazy;
mod walking;

pub use lazy::lazily;
