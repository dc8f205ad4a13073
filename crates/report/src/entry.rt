// The C entry: a text and report memory in, the count of bytes written out. `report_c` makes it an archive.
ghost use Rattle.std.specs.Prelude.{◌≡◌, ◌≤◌, ◌*◌, length};
ghost use Rattle.text.specs.Lines.{line_room, lines_of};
ghost use Rattle.text.specs.Wrote.{Wrote};
ghost use Rattle.text.specs.Report.{report_of, returned_count, memory_of};

use crate::answering::put_lines;
use crate::sizes::LINE_ROOM;
use checker::{Tables, begin};
use reading::line_count;
use theory::{CLOCK_CELLS, CONTROL_CELLS, HISTORY_CELLS};

// Writes the report of a text: each of its lines is answered, a rest without LF too.
fn write_report(text: &[u8], report: &mut [u8]) -> usize
    requires { line_room * length (lines_of text.now) ≤ length report.old }
    ensures { Wrote report.old 0 (report_of text.now) report.new result }
{
    let mut control = [0u32; CONTROL_CELLS];
    let mut last = [0u32; HISTORY_CELLS];
    let mut clocks = [0u32; CLOCK_CELLS];
    let mut fullclocks = [0u32; CLOCK_CELLS];
    let mut tables = Tables {
        control: &mut control,
        last: &mut last,
        clocks: &mut clocks,
        fullclocks: &mut fullclocks,
    };
    begin(&mut tables);
    let answered = put_lines(report, 0, 0, text, 0, text.len(), &mut tables);
    answered.at
}

// Row 11's answer: 64 one-bits, and no None, since C gets this number.
const TOO_SMALL: u64 = u64::MAX;

// The report of a text into lent memory, from a fresh state: the count of bytes written, or 64 one-bits where the memory has under 64
// bytes for each line of the text; it is then untouched. Bytes after the written ones stay.
pub fn order_report(text: &[u8], report: &mut [u8]) -> u64
    ensures { (result ≡ returned_count text.now report.old)
        × (report.new ≡ memory_of text.now report.old) }
{
    if report.len() / LINE_ROOM < line_count(text) {
        return TOO_SMALL;
    }
    write_report(text, report) as u64
}
