// The lazy reckoning for a host program in C. It keeps nothing between calls. include/order.h has the same function for C.
ghost use Rattle.std.specs.Prelude.{◌≡◌, map};
ghost use Rattle.requests.specs.following.Following.{record_in};
ghost use Rattle.requests.specs.lazy.Fold.{lazily, pairs_numbers};

use lazy_sets::lazily;

// Writes the answer for a list of records, each its kind, its task and its number: the refusal of its first refused record or 0, the tasks
// that have a pair with the access that ends it, those from whose access a path leads here, and the records walked.
pub fn order_lazy(list: &[[u32; 3]], answer: &mut [u64; 4])
    ensures { answer.new ≡ pairs_numbers (lazily (map record_in list.now)) }
{
    *answer = match lazily(list) {
        Ok(a) => [0, a.pairs as u64, a.paths as u64, a.walked],
        Err(row) => [row as u64, 0, 0, 0],
    };
}
