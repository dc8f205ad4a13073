// The recording to its end, line by line, with the tables that are due on the way.
ghost use Rattle.std.specs.Prelude.{◌≡◌, ◌&&◌, ◌-◌, ◌^◌, cond, ltb, Some, None};

use crate::showing::show_due;
use checker::Tables;
use input::{BLOCK, PIECE, Span, next_piece};
use report::{HELD_MOST, LINE_ROOM, REFUSED, report_piece};
use std::io::{Read, Write};
use text::Progress;
use theory::{COUNT, State};

// Memory for the report of a piece, which is thrown away: the totals are what the records leave in the control table.
const REPORT: usize = LINE_ROOM * PIECE;

// Where the next report begins: at the start of its memory, since that of a piece is thrown away. None where the run breaks off: the piece was not
// taken in, or what was due could not be written.
fn next_place(at: usize, written: bool) -> Option<usize>
    ensures { result ≡ cond (written && ltb at (2 ^ 64 - 1)) (Some 0) None }
{
    (written && at < REFUSED).then_some(0)
}

// Piece by piece, in each of which at most one line ends. A table is written as soon as it is due: more input may be long in coming. Says whether it
// came to the end: it breaks off where a piece was not taken in, and where the output is closed.
pub(crate) fn run<I: Read, O: Write, E: Write>(
    input: &mut I,
    stdout: &mut O,
    stderr: &mut E,
    every: Option<u32>,
    state: &mut State,
) -> bool {
    let mut report = [0u8; REPORT];
    let mut held = [0u8; HELD_MOST];
    let mut block = [0u8; BLOCK];
    let mut piece = Span::START;
    let mut now = Progress {
        lines: 0,
        held: 0,
        at: 0,
    };
    // A proved loop has to end, and nothing says that an input does: no run uses up so many turns.
    for _ in 0..u64::MAX {
        piece = next_piece(
            input,
            &mut block,
            piece,
            true,
            now.held > 0,
            b"totals: the input cannot be read\n",
            stderr,
        );
        let before = state.control[COUNT];
        now = report_piece(
            &mut report,
            &block[piece.from..piece.end],
            &mut held,
            now,
            &mut Tables {
                control: &mut state.control,
                last: &mut state.last,
                clocks: &mut state.clocks,
                fullclocks: &mut state.fullclocks,
            },
        );
        // Nothing is due where the piece was not taken in.
        let written = now.at == REFUSED || show_due(stdout, &state.control, every, before);
        let Some(at) = next_place(now.at, written) else {
            return false;
        };
        now.at = at;
        if !piece.more {
            break;
        }
    }
    true
}
