// The recording line by line: as much of a line as a record can have is held until its LF has come.
ghost use Rattle.std.specs.Prelude.{◌≤◌, ◌≡◌, None};
ghost use Rattle.std.specs.Option.{ForSome};
ghost use Rattle.text.specs.LineForm.{parse_of};
ghost use Rattle.text.specs.Stream.{held_most};
ghost use Rattle.settle.specs.Line.{record_or};

use input::{Span, next_piece};
use reading::{LF, parse_line};
use report::HELD_MOST;
use std::io::{Read, Write};
use theory::{KINDS, Record};

// Memory for a line and its LF.
pub(crate) const ROOM: usize = HELD_MOST + 1;

pub(crate) type LineMemory = [u8; ROOM];

// How far the input is read: the piece, how much is held of a line that has begun, and of a line that has just ended how long it is without its LF.
#[derive(Clone, Copy)]
pub(crate) struct Reading {
    pub piece: Span,
    pub held: usize,
    pub ended: Option<usize>,
    ghost fits: { (held ≤ held_most) × ForSome ended (λ n. n ≤ held_most) },
}

// Before the first line.
pub(crate) fn nothing_read() -> Reading
    ensures { (result.held ≡ 0) × (result.ended ≡ None) }
{
    // On a line of its own, so that a must-fail edit finds it.
    let held = 0;
    Reading {
        piece: Span::START,
        held,
        ended: None,
    }
}

// Holds bytes after the n that are held, as far as there is room. Report's `hold` is inside its crate and promises what is held, which nothing asks here.
fn hold(line: &mut LineMemory, n: usize, bytes: &[u8]) -> usize
    requires { n ≤ held_most }
    ensures { result ≤ held_most }
{
    let taken = bytes.len().min(HELD_MOST - n);
    line[n..n + taken].copy_from_slice(&bytes[..taken]);
    n + taken
}

// Reads one piece more, in which no LF stands but at its end. A line that ends in it stands in `line` then, with its LF.
pub(crate) fn read_on<I: Read, E: Write>(
    input: &mut I,
    stderr: &mut E,
    block: &mut [u8],
    line: &mut LineMemory,
    was: Reading,
) -> Reading {
    let piece = next_piece(
        input,
        block,
        was.piece,
        true,
        0 < was.held,
        b"settle: the input cannot be read\n",
        stderr,
    );
    let bytes = &block[piece.from..piece.end];
    let Some(body) = bytes.strip_suffix(&[LF]) else {
        return Reading {
            piece,
            held: hold(line, was.held, bytes),
            ended: None,
        };
    };
    let n = hold(line, was.held, body);
    line[n] = LF;
    Reading {
        piece,
        held: 0,
        ended: Some(n),
    }
}

// What a line says; where it says nothing, a record of no kind, which is refused as the line is.
pub(crate) fn said(line: &[u8]) -> Record
    ensures { result ≡ record_or (parse_of line.now) }
{
    parse_line(line).unwrap_or(Record {
        kind: KINDS,
        task: 0,
        on: 0,
    })
}
