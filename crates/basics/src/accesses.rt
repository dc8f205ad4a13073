// Kinds of access: which kinds are accesses, and which two of them conflict.
// A kind is a number and no enum here and in rows.rt: each equation is promised for every number, also one that a host lends and that is no kind's.
ghost use Rattle.std.specs.Prelude.{◌≡◌, cond, not, ◌&&◌, ◌||◌, ◌<◌, ltb, eqb, length};
ghost use Rattle.theory.specs.order.Recording.{accesses, numbered_kind};
ghost use Rattle.theory.specs.order.Path.{clashes};
ghost use Rattle.theory.specs.history.History.{askers, asker, ask_at, kind_clashes};
ghost use Rattle.theory.proofs.history.Accesses.{write_asks};

use crate::bools::picked;
use theory::{ASKERS, ASKING, ASKING_WRITE};

// The number of a kind of access among those that ask, and ASKERS for any other kind. Picked and not returned, so that nothing branches on which it is.
// No Option: the equation is promised so, and each caller takes the number as it is, for every kind.
pub fn ask_at(kind: u8) -> usize
    ensures { (result ≡ cond (accesses kind) (ask_at kind) (length askers)) × (ltb result (length askers) ≡ accesses kind) }
{
    let mut asks = ASKERS;
    for (a, asking) in ASKING.iter().enumerate() {
        asks = picked(kind == *asking, a, asks);
    }
    asks
}

pub fn is_access(kind: u8) -> bool
    ensures { result ≡ accesses kind }
{
    ask_at(kind) < ASKERS
}

// The rule of conflict, of two kinds of access by their numbers among them: they clash, unless they are one kind and no writes.
pub fn conflict(one: usize, other: usize) -> bool
    ensures { (result ≡ (not (eqb one other) || eqb other write_asks)) × (one < length askers → other < length askers → result ≡ clashes (asker one) (asker other)) }
{
    (one != other) | (other == ASKING_WRITE)
}

// Whether a record of this kind clashes with the kind of access that has number a: only an access does, and with nothing past their numbers.
pub fn clashes(kind: u8, a: usize) -> bool
    ensures { result ≡ (ltb a (length askers) && kind_clashes (numbered_kind kind) (asker a)) }
{
    let own = ask_at(kind);
    (a < ASKERS) & (own < ASKERS) & conflict(own, a)
}
