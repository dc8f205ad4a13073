// What the lazy reckoning keeps while it goes over a list: crates/requests/specs/lazy/Fold.antt says which cells hold what.
ghost use Rattle.std.specs.Prelude.{◌≡◌};
ghost use Rattle.requests.specs.lazy.Fold.{fresh_lazy};
ghost use Rattle.lazy_sets.specs.AsLazy.{as_lazy};

use requests::{Counts, NODES, Nodes, Walk};
use theory::WORD_BITS;

#[derive(Drop)]
pub(crate) struct LazySets {
    pub(crate) nodes: Nodes,
    pub(crate) counts: Counts,
    pub(crate) walk: Walk,
}

impl LazySets {
    pub(crate) fn new() -> Self
        ensures { as_lazy result ≡ fresh_lazy }
    {
        LazySets {
            nodes: [0; NODES],
            counts: [0; WORD_BITS],
            walk: Walk::default(),
        }
    }
}
