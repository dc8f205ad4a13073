// The functions of `host` for a program in C that keeps a running state or the sets, or asks about a list; include/order.h has the same
// functions for C. They are an archive of their own: in one with `order_report` the step would have two callers, and the compiler would no
// longer make it part of the loop over lines.
#![tactic(auto)]

ghost use Rattle.std.specs.Prelude.{◌≡◌, cond, [], ◌∷◌, ltb, map};
ghost use Rattle.requests.specs.following.Following.{record_in};
ghost use Rattle.requests.specs.lazy.Fold.{lazily, pairs_numbers};
ghost use Rattle.requests.specs.settling.Fold.{settles, settling_numbers};
ghost use Rattle.theory.specs.acceptance.Control.{skipped_in};
ghost use Rattle.theory.specs.basics.Turns.{indicator};
ghost use Rattle.theory.specs.feeding.Lent.{tables, set_tables};
ghost use Rattle.theory.specs.feeding.Step.{answer_numbers, record_of, step_of, set_step_of, fresh_state, fresh_sets};
ghost use Rattle.theory.specs.order.Limits.{variables};
ghost use Rattle.theory.specs.totals.Totals.{totals_in, any_race};

use theory::{Clocks, Control, History, Sets};

// Makes the lent tables those of a fresh state.
#[unsafe(no_mangle)]
pub extern "C" fn order_begin(
    control: &mut Control,
    last: &mut History,
    clocks: &mut Clocks,
    fullclocks: &mut Clocks,
)
    ensures { (tables control last clocks fullclocks).exit ≡ fresh_state }
{
    host::order_begin(control, last, clocks, fullclocks);
}

// Feeds a record to the running state and writes the answer as three numbers.
#[unsafe(no_mangle)]
pub extern "C" fn order_feed(
    control: &mut Control,
    last: &mut History,
    clocks: &mut Clocks,
    fullclocks: &mut Clocks,
    kind: u8,
    task: u32,
    on: u32,
    answer: &mut [u32; 3],
)
    ensures { let state = tables control last clocks fullclocks in let stepped = step_of state.entry (record_of kind task on) in
        (state.exit ≡ stepped.state) × (answer.new ≡ answer_numbers stepped.answer) }
{
    host::order_feed(control, last, clocks, fullclocks, kind, task, on, answer);
}

// Makes the lent tables those of a fresh state of the sets.
#[unsafe(no_mangle)]
pub extern "C" fn order_sets_begin(
    control: &mut Control,
    last: &mut History,
    sets: &mut Sets,
    fullsets: &mut Sets,
)
    ensures { (set_tables control last sets fullsets).exit ≡ fresh_sets }
{
    host::order_sets_begin(control, last, sets, fullsets);
}

// Feeds a record to the sets and writes the answer as three numbers.
#[unsafe(no_mangle)]
pub extern "C" fn order_sets_feed(
    control: &mut Control,
    last: &mut History,
    sets: &mut Sets,
    fullsets: &mut Sets,
    kind: u8,
    task: u32,
    on: u32,
    answer: &mut [u32; 3],
)
    ensures { let state = set_tables control last sets fullsets in let stepped = set_step_of state.entry (record_of kind task on) in
        (state.exit ≡ stepped.state) × (answer.new ≡ answer_numbers stepped.answer) }
{
    host::order_sets_feed(control, last, sets, fullsets, kind, task, on, answer);
}

// Writes the answer for a list of records, each its kind, its task and its number: the refusal of its first refused record or 0, the tasks
// that have a pair with the access that ends it, those from whose access a path leads here, and the records walked.
#[unsafe(no_mangle)]
pub extern "C" fn order_lazy(list: &[[u32; 3]], answer: &mut [u64; 4])
    ensures { answer.new ≡ pairs_numbers (lazily (map record_in list.now)) }
{
    host::order_lazy(list, answer);
}

// Writes the answer for a list of records, each its kind, its task and its number, and a home set: the refusal of the first refused record or 0,
// and 0 for neither yes nor no, 1 for no, 2 for yes.
#[unsafe(no_mangle)]
pub extern "C" fn order_settle(list: &[[u32; 3]], home: u16, answer: &mut [u32; 2])
    ensures { answer.new ≡ settling_numbers (settles home (map record_in list.now)) }
{
    host::order_settle(list, home, answer);
}

// Writes how many accesses of a variable were Clear, Race and Doubt so far, and returns 1. Where there is no such variable it returns 0, and
// the memory is as it was.
#[unsafe(no_mangle)]
pub extern "C" fn order_totals(control: &Control, v: u32, totals: &mut [u32; 3]) -> u32
    ensures { let known = ltb v variables in let t = totals_in control.now v in
        (result ≡ indicator known) × (totals.new ≡ cond known (t.clear ∷ t.race ∷ t.doubt ∷ []) totals.old) }
{
    host::order_totals(control, v, totals)
}

// Returns 1 where any access was a Race so far, and 0 where none was.
#[unsafe(no_mangle)]
pub extern "C" fn order_any_race(control: &Control) -> u32
    ensures { result ≡ indicator (any_race control.now) }
{
    host::order_any_race(control)
}

// Returns how many takes were skipped so far.
#[unsafe(no_mangle)]
pub extern "C" fn order_skipped(control: &Control) -> u32
    ensures { result ≡ skipped_in control.now }
{
    host::order_skipped(control)
}
