// Each Doubt of a recording with the single tasks whose lost records could settle it alone, and how many each of them could.
ghost use Rattle.std.specs.Prelude.{◌≤◌};
ghost use Rattle.text.specs.Stream.{held_most};

use crate::lines::{LineMemory, ROOM, nothing_read, read_on, said};
use crate::showing::{show_counts, show_line};
use crate::tally::{TALLIES, Tallies, tally};
use checker::{Tables, alone, feed_homes, fresh, totals_of};
use input::BLOCK;
use report::{HELD_MOST, LINE_ROOM, report_piece};
use std::io::{Read, Write};
use text::Progress;
use theory::{CLOCK_CELLS, COLUMNS, COUNT, Control, Homes, State};

// Memory for the report of a line.
const REPORT: usize = LINE_ROOM * ROOM;

// What is kept between lines, and the memory for what the report has for one.
#[derive(Drop)]
struct Table {
    state: State,
    homes: Homes,
    tallies: Tallies,
    lines: u64,
    report: [u8; REPORT],
}

// Reports a line with its LF: the place after what the report has for it.
fn report_line(table: &mut Table, line: &[u8]) -> usize {
    let begun = Progress {
        lines: table.lines,
        held: 0,
        at: 0,
    };
    let mut held = [0u8; HELD_MOST];
    let read = report_piece(
        &mut table.report,
        line,
        &mut held,
        begun,
        &mut Tables {
            control: &mut table.state.control,
            last: &mut table.state.last,
            clocks: &mut table.state.clocks,
            fullclocks: &mut table.state.fullclocks,
        },
    );
    table.lines = read.lines;
    read.at
}

// How many Doubts a variable had so far. By a match: an Option has no `map_or` here.
fn doubts_of(control: &Control, v: u32) -> u32 {
    match totals_of(control, v) {
        Some(t) => t.doubt,
        None => 0,
    }
}

// A line of so many bytes and its LF is asked about, fed to the tables of the tasks, and then reported. Says whether more is to be read.
fn take_line<O: Write>(stdout: &mut O, table: &mut Table, line: &LineMemory, n: usize) -> bool
    requires { n ≤ held_most }
{
    let r = said(&line[..n]);
    let mask = alone(&table.state.control, &table.state.last, &table.homes, r);
    feed_homes(&table.state.control, &mut table.homes, r);
    let doubts = doubts_of(&table.state.control, r.on);
    let count = table.state.control[COUNT];
    let to = report_line(table, &line[..n + 1]);
    let is_doubt = doubts < doubts_of(&table.state.control, r.on);
    let doubt = is_doubt.then_some(mask);
    tally(&mut table.tallies, doubt);
    let refused = count == table.state.control[COUNT];
    match table.report.get(..to) {
        Some(text) => show_line(stdout, text, refused, doubt),
        None => false,
    }
}

// Reads the recording line by line.
pub(crate) fn tabulate<I: Read, O: Write, E: Write>(input: &mut I, stdout: &mut O, stderr: &mut E) {
    let mut table = Table {
        state: fresh(),
        homes: [[0u32; CLOCK_CELLS]; COLUMNS],
        tallies: [0u32; TALLIES],
        lines: 0,
        report: [0u8; REPORT],
    };
    let mut block = [0u8; BLOCK];
    let mut line = [0u8; ROOM];
    let mut at = nothing_read();
    // A proved loop has to end, and nothing says that an input does: no run uses up so many turns.
    for _ in 0..u64::MAX {
        at = read_on(input, stderr, &mut block, &mut line, at);
        let goes_on = match at.ended {
            Some(n) => take_line(stdout, &mut table, &line, n),
            None => true,
        };
        if !at.piece.more || !goes_on {
            show_counts(stdout, &table.tallies);
            return;
        }
    }
}
