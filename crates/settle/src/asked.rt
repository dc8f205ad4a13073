// Whether a home set could settle the access that ends the recording.
ghost use Rattle.std.specs.Prelude.{◌≡◌, cond, ◌+◌, ◌^◌, ◌-◌, ltb, unwrap_or};
ghost use Rattle.std.specs.Option.{is_some};

use crate::lines::{ROOM, nothing_read, read_on, said};
use checker::{feed_home, fresh};
use input::BLOCK;
use requests::Settled;
use std::io::{Read, Write};
use theory::Refusal;

// What is known after a line: where none was fed, what was known before.
fn known(
    fed: Option<Result<Settled, Refusal>>,
    before: Result<Settled, Refusal>,
) -> Result<Settled, Refusal>
    ensures { result ≡ unwrap_or fed before }
{
    fed.unwrap_or(before)
}

// How many lines there are, with one that has ended. No input has as many as 64 bits can count.
fn counted(lines: u64, ended: Option<usize>) -> u64
    ensures { result ≡ cond (is_some ended) (cond (ltb lines (2 ^ 64 - 1)) (lines + 1) lines) lines }
{
    match ended {
        Some(_) => lines.saturating_add(1),
        None => lines,
    }
}

// Writes the answer, or the refusal of the line that was the last to be read.
fn show<O: Write>(stdout: &mut O, told: Result<Settled, Refusal>, lines: u64) {
    let _ = match told {
        Ok(Settled::Neither) => writeln!(stdout, "settle=neither"),
        Ok(Settled::No) => writeln!(stdout, "settle=no"),
        Ok(Settled::Yes) => writeln!(stdout, "settle=yes"),
        Err(row) => writeln!(stdout, "line={lines} refused={}", row as u32),
    };
}

// Reads the recording up to its end or its first refused line, and answers.
pub(crate) fn answer<I: Read, O: Write, E: Write>(
    input: &mut I,
    stdout: &mut O,
    stderr: &mut E,
    home: u16,
) {
    let mut state = fresh();
    let mut block = [0u8; BLOCK];
    let mut line = [0u8; ROOM];
    let mut at = nothing_read();
    let mut told = Ok(Settled::Neither);
    let mut lines: u64 = 0;
    // A proved loop has to end, and nothing says that an input does: no run uses up so many turns.
    for _ in 0..u64::MAX {
        at = read_on(input, stderr, &mut block, &mut line, at);
        let fed = match at.ended {
            Some(n) => Some(feed_home(
                &mut state.control,
                &mut state.last,
                &mut state.clocks,
                home,
                said(&line[..n]),
            )),
            None => None,
        };
        told = known(fed, told);
        lines = counted(lines, at.ended);
        if !at.piece.more || told.is_err() {
            break;
        }
    }
    show(stdout, told, lines);
}
