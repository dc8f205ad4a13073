// What a reader brings to its end: the file of accepted faults, or the recording.
use crate::output::{OUT, write_ready};
use input::{BLOCK, Span, next_piece};
use report::{HELD_MOST, REFUSED};
use std::io::{Read, Write};
use text::Progress;

// The memory of a run: for what is said, for the line that has begun, and for what a read brings.
#[derive(Drop)]
pub(crate) struct Memory {
    pub out: [u8; OUT],
    pub held: [u8; HELD_MOST],
    pub block: [u8; BLOCK],
}

// Piece by piece, each answered by `answer`: into the report memory, with the held bytes, from how far the text is answered. What is said is written
// before the next read: more input may be long in coming.
pub(crate) fn run<
    I: Read,
    O: Write,
    E: Write,
    A: FnMut(&mut [u8], &[u8], &mut [u8], Progress) -> Progress,
>(input: &mut I, stdout: &mut O, stderr: &mut E, failed: &[u8], memory: &mut Memory, mut answer: A)
    requires { A.IsAlwaysCallable answer }
{
    let Memory { out, held, block } = memory;
    let mut piece = Span::START;
    let mut now = Progress {
        lines: 0,
        held: 0,
        at: 0,
    };
    // A proved loop has to end, and nothing says that an input does: no run uses up so many turns.
    for _ in 0..u64::MAX {
        piece = next_piece(input, block, piece, false, now.held > 0, failed, stderr);
        let answered = answer(out, &block[piece.from..piece.end], held, now);
        now = write_ready(stdout, out, answered, piece.end == piece.len);
        if !piece.more || now.at == REFUSED {
            break;
        }
    }
}
