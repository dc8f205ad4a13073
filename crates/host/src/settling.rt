// Whether home can force Clear, for a host program in C. It keeps nothing between calls. include/order.h has the same function for C.
ghost use Rattle.std.specs.Prelude.{◌≡◌, map};
ghost use Rattle.requests.specs.following.Following.{record_in};
ghost use Rattle.requests.specs.settling.Fold.{settles, settling_numbers};

use checker::settle;

// Writes the answer for a list of records, each its kind, its task and its number, and a home set: the refusal of the first refused record or 0,
// and 0 for neither yes nor no, 1 for no, 2 for yes.
pub fn order_settle(list: &[[u32; 3]], home: u16, answer: &mut [u32; 2])
    ensures { answer.new ≡ settling_numbers (settles home (map record_in list.now)) }
{
    *answer = match settle(list, home) {
        Ok(settled) => [0, settled as u32],
        Err(row) => [row as u32, 0],
    };
}
