// Feeds the records of a source to a fresh state and prints the answers: by the clocks, by the sets, by value, and to a state that is lent.
use crate::records::record;
use crate::source::Source;
use checker::{Tables, fresh, fresh_sets};
use theory::{Answer, Record};

// Each record of a source is fed to a reckoning, and its answer is told.
fn answers<P: Print, F: FnMut(Record) -> Answer>(rt: &P, source: Source, mut feed: F)
    requires { F.IsAlwaysCallable feed }
{
    for n in 0..source.count() {
        let a = feed(source.nth(n));
        source.tell(rt, n, a);
    }
}

fn by_clocks(rt: &impl Print, source: Source) {
    let mut s = fresh();
    answers(rt, source, |r| {
        checker::step_in_place(
            &mut Tables {
                control: &mut s.control,
                last: &mut s.last,
                clocks: &mut s.clocks,
                fullclocks: &mut s.fullclocks,
            },
            r,
        )
    });
}

fn by_sets(rt: &impl Print, source: Source) {
    let mut s = fresh_sets();
    answers(rt, source, |r| {
        checker::set_step_in_place(&mut s.control, &mut s.last, &mut s.sets, &mut s.fullsets, r)
    });
}

fn by_value(rt: &impl Print, source: Source) {
    let mut state = fresh();
    answers(rt, source, |r| {
        let after = checker::step(state, r);
        state = after.state;
        after.answer
    });
}

fn sets_by_value(rt: &impl Print, source: Source) {
    let mut state = fresh_sets();
    answers(rt, source, |r| {
        let after = checker::set_step(state, r);
        state = after.state;
        after.answer
    });
}

fn lent(rt: &impl Print, source: Source) {
    let mut state = fresh();
    answers(rt, source, |r| checker::feed(&mut state, r));
}

// Twice over, so that the reckonings are seen to agree.
pub(crate) fn run_source(rt: &impl Print, name: &str, source: Source) {
    run_clocks(rt, name, source);
    let _ = println!(rt; "{name} sets");
    by_sets(rt, source);
}

pub(crate) fn run(rt: &impl Print, name: &str, text: &[u8]) {
    run_source(rt, name, Source::Text(text));
}

pub(crate) fn run_clocks(rt: &impl Print, name: &str, source: Source) {
    let _ = println!(rt; "{name}");
    by_clocks(rt, source);
}

// A state that is handed over whole: by value, the clocks and the sets, and lent.
pub(crate) fn run_whole(rt: &impl Print, name: &str, text: &[u8]) {
    let source = Source::Text(text);
    let _ = println!(rt; "{name} by value");
    by_value(rt, source);
    let _ = println!(rt; "{name} sets by value");
    sets_by_value(rt, source);
    let _ = println!(rt; "{name} lent");
    lent(rt, source);
}

// One record, of any numbers, fed to a fresh state.
pub(crate) fn once(rt: &impl Print, kind: u8, task: u32, on: u32) {
    by_clocks(rt, Source::One(record(kind, task, on)));
}
