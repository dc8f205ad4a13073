// The running state and the sets for a host program in C, which lends the tables. include/order.h has the same functions for C.
ghost use Rattle.std.specs.Prelude.{◌≡◌};
ghost use Rattle.theory.specs.feeding.Meaning.{Meaning, meaning, refuses};
ghost use Rattle.theory.specs.feeding.Step.{answer_numbers, three_numbers, record_of, step_of, set_step_of, fresh_state, fresh_sets};
ghost use Rattle.theory.specs.feeding.Lent.{tables, set_tables};

use checker::{Tables, begin, begin_sets, set_step_in_place, step_in_place};
use theory::{Answer, Clocks, Control, History, Record, Sets};

// What an answer is, as the first of its numbers: C has these, as include/order.h has them.
const REFUSED: u32 = 0;

const ACCEPTED: u32 = 1;

const CLEAR: u32 = 2;

const RACE: u32 = 3;

const DOUBT: u32 = 4;

// A refusal as three numbers, by its number: of any number, also one that no row of the table has.
pub fn refusal_numbers(number: u32) -> [u32; 3]
    ensures { result ≡ three_numbers (refuses number) }
{
    [REFUSED, number, 0]
}

// What comes to a host as three numbers, by what it means: what a record was answered, or a refusal by its number.
pub trait InNumbers {
    ghost meant: { Self → Meaning };

    fn numbers(self) -> [u32; 3]
        ensures { result ≡ three_numbers (meant self) };
}

impl InNumbers for Answer {
    ghost meant = { meaning };

    fn numbers(self) -> [u32; 3] {
        match self {
            Answer::Refused(row) => refusal_numbers(row as u32),
            Answer::Accepted(n) => [ACCEPTED, n.0, 0],
            Answer::Clear(n) => [CLEAR, n.0, 0],
            Answer::Race(n, w) => [RACE, n.0, w.0],
            Answer::Doubt(n, w) => [DOUBT, n.0, w.0],
        }
    }
}

// A refusal by any number, also one that no row of the table has, which an Answer cannot hold.
#[derive(Clone, Copy)]
pub struct RefusedBy(pub u32);

impl InNumbers for RefusedBy {
    ghost meant = { λ r. refuses r.0 };

    fn numbers(self) -> [u32; 3] {
        refusal_numbers(self.0)
    }
}

// An answer as three numbers: which case it is, the number of the refusal or of the record, and the partner's.
pub fn answer_numbers<A: InNumbers>(a: A) -> [u32; 3]
    ensures { result ≡ three_numbers (A.meant a) }
{
    a.numbers()
}

// Makes the lent tables those of a fresh state.
pub fn order_begin(
    control: &mut Control,
    last: &mut History,
    clocks: &mut Clocks,
    fullclocks: &mut Clocks,
)
    ensures { (tables control last clocks fullclocks).exit ≡ fresh_state }
{
    begin(&mut Tables {
        control,
        last,
        clocks,
        fullclocks,
    });
}

// Feeds a record to the running state and writes the answer as three numbers.
pub fn order_feed(
    control: &mut Control,
    last: &mut History,
    clocks: &mut Clocks,
    fullclocks: &mut Clocks,
    kind: u8,
    task: u32,
    on: u32,
    answer: &mut [u32; 3],
)
    ensures { let state = tables control last clocks fullclocks in let stepped = step_of state.entry (record_of kind task on) in
        (state.exit ≡ stepped.state) × (answer.new ≡ answer_numbers stepped.answer) }
{
    let a = step_in_place(
        &mut Tables {
            control,
            last,
            clocks,
            fullclocks,
        },
        Record { kind, task, on },
    );
    *answer = answer_numbers(a);
}

// Makes the lent tables those of a fresh state of the sets.
pub fn order_sets_begin(
    control: &mut Control,
    last: &mut History,
    sets: &mut Sets,
    fullsets: &mut Sets,
)
    ensures { (set_tables control last sets fullsets).exit ≡ fresh_sets }
{
    begin_sets(control, last, sets, fullsets);
}

// Feeds a record to the sets and writes the answer as three numbers.
pub fn order_sets_feed(
    control: &mut Control,
    last: &mut History,
    sets: &mut Sets,
    fullsets: &mut Sets,
    kind: u8,
    task: u32,
    on: u32,
    answer: &mut [u32; 3],
)
    ensures { let state = set_tables control last sets fullsets in let stepped = set_step_of state.entry (record_of kind task on) in
        (state.exit ≡ stepped.state) × (answer.new ≡ answer_numbers stepped.answer) }
{
    let a = set_step_in_place(control, last, sets, fullsets, Record { kind, task, on });
    *answer = answer_numbers(a);
}
