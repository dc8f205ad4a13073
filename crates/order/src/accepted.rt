// The file of accepted faults, ahead of the recording.
use crate::running::{Memory, run};
use report::entries_piece;
use std::fs::File;
use std::io::{ErrorKind, Write};
use std::rt::Files;
use theory::Control;

const FAILED: &[u8] = b"order: accepted.txt cannot be read\n";

// Takes its entries into the control table, and writes what is said for the refused ones. Where there is no such file that is as an empty one;
// one that cannot be opened or read is said.
pub(crate) fn take_entries<R: Files, O: Write, E: Write>(
    rt: &R,
    stdout: &mut O,
    stderr: &mut E,
    memory: &mut Memory,
    control: &mut Control,
) {
    match File::open(rt, "accepted.txt") {
        Ok(mut file) => run(
            &mut file,
            stdout,
            stderr,
            FAILED,
            memory,
            |out, piece, held, begun| entries_piece(out, piece, held, begun, control),
        ),
        Err(e) if e.kind() == ErrorKind::NotFound => {}
        Err(_) => {
            let _ = stderr.write_all(FAILED);
        }
    }
}
