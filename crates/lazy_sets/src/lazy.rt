// The lazy reckoning: for the access that ends a list of records each other task's latest conflicting access, whether a path leads from it,
// and how many records were walked to know it.
ghost use Rattle.std.specs.Prelude.{◌≡◌, map, ◌<◌};
ghost use Rattle.theory.specs.order.Limits.{tasks};
ghost use Rattle.requests.specs.following.Following.{record_in, run_of, ending};
ghost use Rattle.requests.specs.lazy.Fold.{no_pairs, question, walk_by, walks, told, lazy_follower, lazily};
ghost use Rattle.lazy_sets.specs.AsLazy.{as_lazy};

use crate::asked::EndingAccess;
use crate::columns::only_in;
use crate::kept::LazySets;
use acceptance::{fresh_control, refusal};
use basics::{MASKS, has_bit, is_access, record_at, task_row};
use requests::Pairs;
use theory::{Control, READ, Record, Refusal, TASKS, Task, VARIABLES};

// The access that is asked about: where the list ends in none that is in range, one that says nothing. It is that and no `None`, since the definition
// goes over every list in one way, and has the same access there. The test stands in checker too (`access_in_range`): one line, by the same three words.
fn question(q: Record) -> EndingAccess
    ensures { result.record ≡ question q }
{
    if is_access(q.kind) && q.task < TASKS && q.on < VARIABLES {
        return EndingAccess { record: q };
    }
    EndingAccess {
        record: Record {
            kind: READ,
            task: 0,
            on: 0,
        },
    }
}

// The answer where there is no access to answer for.
fn no_pairs() -> Pairs
    ensures { Ok result ≡ no_pairs 0 }
{
    Pairs {
        pairs: 0,
        paths: 0,
        walked: 0,
    }
}

impl LazySets {
    // What task u's walk counts; `own` has the columns whose order has come to the acting task.
    fn walk_by(&self, own: u32, u: u32) -> u32
        requires { u < tasks }
        ensures { result ≡ walk_by own (as_lazy self.now) u }
    {
        if !only_in(self.walk.pairs, self.walk.known, u) {
            return 0;
        }
        let counted = self.counts[u as usize];
        if has_bit(own, u) {
            return counted;
        }
        self.walk.walked.saturating_sub(counted)
    }

    // What all walks count. By a loop: of a chain it stays open that the sum fits, since only what `walk_by` returns is known to be below 2 to the 32.
    fn walks(&self, own: u32) -> u64
        ensures { result ≡ walks own (as_lazy self.now) }
    {
        let mut sum = 0;
        for u in 0..TASKS {
            sum += u64::from(self.walk_by(own, u));
        }
        sum
    }

    // The answer for an access of the task.
    fn told(&self, q: Record) -> Pairs
        requires { q.task < tasks }
        ensures { result ≡ told q (as_lazy self.now) }
    {
        let own = self.nodes[task_row(Task(q.task))];
        Pairs {
            pairs: self.walk.pairs % MASKS,
            paths: (self.walk.pairs & own) % MASKS,
            walked: self.walks(own),
        }
    }

    // The answer for the last record, where none of the records before it was refused.
    fn ending(&self, control: &Control, q: Record) -> Result<Pairs, Refusal>
        ensures { result ≡ ending lazy_follower q (run_of 0 control.now (as_lazy self.now)) }
    {
        refusal(control, q)?;
        if is_access(q.kind) {
            return Ok(self.told(q));
        }
        Ok(no_pairs())
    }
}

// The answer for a list of records, each of its kind, its task and its number, or the row that refuses the first refused one.
pub fn lazily(list: &[[u32; 3]]) -> Result<Pairs, Refusal>
    ensures { result ≡ lazily (map record_in list.now) }
{
    let [before @ .., _] = list else {
        return Ok(no_pairs());
    };
    let q = record_at(list, before.len());
    let mut control = fresh_control();
    let mut reckoning = LazySets::new();
    reckoning.follow(before, question(q), &mut control)?;
    reckoning.ending(&control, q)
}
