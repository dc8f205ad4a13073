// Asks before each record, without feeding it, which row would refuse it and which tasks are apart, and prints both: by the clocks, then by
// the sets.
use crate::telling::tell_asked;
use crate::text;
use acceptance::refusal;
use checker::{apart_by_clocks, apart_by_sets, fresh, fresh_sets, set_step, step};

pub(crate) fn run_asking(rt: &impl Print, name: &str, text: &[u8]) {
    let _ = println!(rt; "{name} asked");
    let mut c = fresh();
    let mut s = fresh_sets();
    for n in 0..text::count(text) {
        let r = text::nth(text, n);
        let by_clocks = apart_by_clocks(&c.control, &c.last, &c.clocks, &c.fullclocks, r);
        tell_asked(rt, refusal(&c.control, r), by_clocks);
        let by_sets = apart_by_sets(&s.control, &s.last, &s.sets, &s.fullsets, r);
        tell_asked(rt, refusal(&s.control, r), by_sets);
        c = step(c, r).state;
        s = set_step(s, r).state;
    }
}
