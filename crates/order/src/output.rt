// The report on its way to standard output.
use input::PIECE;
use report::{LINE_ROOM, REFUSED};
use std::io::Write;
use text::Progress;

// So much of the report of one read waits at most before it is written.
const WAITING: usize = 65_536;

// The report memory: for what waits, and for a line of the report for each byte of a piece.
pub(crate) const OUT: usize = WAITING + LINE_ROOM * PIECE;

// Writes what waits. Once the output is closed, `at` stands past the memory, so that nothing more is taken in or written.
fn write_out<O: Write>(stdout: &mut O, out: &[u8], now: Progress) -> Progress {
    let Some(waiting) = out.get(..now.at) else {
        return now;
    };
    let written = stdout.write_all(waiting).is_ok();
    let at = if written { 0 } else { REFUSED };
    Progress { at, ..now }
}

// Writes what waits once it is a block, and before the next read: more input may be long in coming.
pub(crate) fn write_ready<O: Write>(
    stdout: &mut O,
    out: &[u8],
    now: Progress,
    read_next: bool,
) -> Progress {
    if now.at < WAITING && !read_next {
        return now;
    }
    write_out(stdout, out, now)
}
