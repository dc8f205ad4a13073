// The program `totals`: a recording on standard input, a table of the verdicts on each variable on standard output, at its end and, if a number is
// given, after every so many accepted records.
#![tactic(auto)]

mod argument;
mod running;
mod showing;
mod sums;
mod table;

use argument::asked_every;
use checker::fresh;
use input::is_given;
use running::run;
use showing::show;
use std::io::{Read, Write};

// Runs over the recording from fresh tables, and writes the table of its end.
fn tabulate<I: Read, O: Write, E: Write>(
    input: &mut I,
    stdout: &mut O,
    stderr: &mut E,
    every: Option<u32>,
) {
    let mut state = fresh();
    if run(input, stdout, stderr, every, &mut state) {
        show(stdout, &state.control, every.is_some());
    }
}

// Says how the program is called.
fn say_usage<E: Write>(stderr: &mut E) {
    let _ = stderr.write_all(b"totals: there is one argument at most, a number from 1 to 99999\n");
    let _ = stderr.write_all(b"usage: totals [N] <RECORDING\n");
    let _ = stderr.write_all(
        b"A table of verdicts at the end, and after every N accepted records.\n",
    );
}

fn main(rt: HostRuntime) {
    let mut recording = rt.stdin();
    let mut stdout = rt.stdout();
    let mut stderr = rt.stderr();
    if !is_given(&rt, 1) {
        tabulate(&mut recording, &mut stdout, &mut stderr, None);
        return;
    }
    let every = asked_every(&rt);
    if every.is_none() || is_given(&rt, 2) {
        say_usage(&mut stderr);
        return;
    }
    tabulate(&mut recording, &mut stdout, &mut stderr, every);
}
