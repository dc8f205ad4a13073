// The program `order`: a recording on standard input, its report on standard output, in fixed memory whatever the input. The faults that a planner
// has accepted come first, from the file accepted.txt where the program is started. `entries_piece` and `report_piece` are proved; here is
// only what moves the bytes.
#![tactic(auto)]

mod accepted;
mod output;
mod running;

use accepted::take_entries;
use checker::{Tables, fresh};
use input::BLOCK;
use output::OUT;
use report::{HELD_MOST, report_piece};
use running::{Memory, run};

fn main(rt: HostRuntime) {
    let mut state = fresh();
    let mut memory = Memory {
        out: [0u8; OUT],
        held: [0u8; HELD_MOST],
        block: [0u8; BLOCK],
    };
    let mut recording = rt.stdin();
    let mut stdout = rt.stdout();
    let mut stderr = rt.stderr();
    take_entries(
        &rt,
        &mut stdout,
        &mut stderr,
        &mut memory,
        &mut state.control,
    );
    run(
        &mut recording,
        &mut stdout,
        &mut stderr,
        b"order: the input cannot be read\n",
        &mut memory,
        |out, piece, held, begun| {
            report_piece(
                out,
                piece,
                held,
                begun,
                &mut Tables {
                    control: &mut state.control,
                    last: &mut state.last,
                    clocks: &mut state.clocks,
                    fullclocks: &mut state.fullclocks,
                },
            )
        },
    );
}
