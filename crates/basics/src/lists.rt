// The records of a lent list: each is three numbers, of its kind, its task and its number.
ghost use Rattle.std.specs.Prelude.{◌≡◌, [], get_or};
ghost use Rattle.requests.specs.following.Following.{record_in};
ghost use Rattle.requests.proofs.following.Listed.{clipped_kind, clipped};

use theory::{KINDS, Record};

// A number as a kind: those that are no kind's are all taken for the first of them.
fn kind_of(k: u32) -> u8
    ensures { result ≡ clipped_kind k }
{
    k.min(KINDS as u32) as u8
}

// The record at a place of the list; past its end all three numbers are 0. By the place, since that is promised of every place; so the loops over a list go
// by place too.
pub fn record_at(list: &[[u32; 3]], i: usize) -> Record
    ensures { result ≡ clipped (record_in (get_or list.now i [])) }
{
    let [kind, task, on] = list.get(i).copied().unwrap_or([0; 3]);
    Record {
        kind: kind_of(kind),
        task,
        on,
    }
}
