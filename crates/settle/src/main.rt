// The program `settle`: a recording on standard input. With a home set, whether the lost records of its tasks could settle the access that ends the
// recording; without one, each Doubt with the single tasks that could settle it alone, and how many each of them could.
#![tactic(auto)]

mod argument;
mod asked;
mod lines;
mod showing;
mod table;
mod tally;

use argument::home_of;
use input::is_given;
use std::io::Write;

// Says how the program is called.
fn say_usage<E: Write>(stderr: &mut E) {
    let _ = stderr.write_all(
        b"settle: the arguments are task numbers, 0 to 15, or the one word none: settle [none | TASK..] <RECORDING\n",
    );
}

fn main(rt: HostRuntime) {
    let mut recording = rt.stdin();
    let mut stdout = rt.stdout();
    let mut stderr = rt.stderr();
    if !is_given(&rt, 1) {
        table::tabulate(&mut recording, &mut stdout, &mut stderr);
        return;
    }
    match home_of(&rt) {
        Some(home) => asked::answer(&mut recording, &mut stdout, &mut stderr, home),
        None => say_usage(&mut stderr),
    }
}
