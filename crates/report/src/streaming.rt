// A text that comes in pieces: each is answered as far as its lines have ended, and what is left of a line is held for the next.
ghost use Rattle.std.specs.Prelude.{◌≡◌, cond, ◌++◌, ◌<◌, ◌≤◌, ◌+◌, length, take};
ghost use Rattle.std.proofs.lemmas.List.Edits.{sets as written};
ghost use Rattle.theory.specs.feeding.Lent.{seen};
ghost use Rattle.checker.specs.Tables.{SameTables, lent_tables};
ghost use Rattle.text.specs.Lines.{line_end};
ghost use Rattle.text.specs.LineForm.{parse_of};
ghost use Rattle.text.specs.Reading.{LastLf};
ghost use Rattle.text.specs.Pieces.{held_most, from_memory, said_in, after_piece, progress_after, holds_open, fits, piece_refused};
ghost use Rattle.text.specs.Answers.{LineAnswered, PieceFits, EndedAnswered, PieceAnswered};

use crate::answering::{Reached, put_lines};
use crate::page::put_over;
use crate::sizes::{HELD_MOST, LINE_ROOM};
use checker::Tables;
use reading::{LF, line_end};
use text::Progress;

// Holds a part of a line after the n bytes that are held, as far as there is room.
pub(crate) fn hold(held: &mut [u8], n: usize, s: &[u8]) -> usize
    requires { (n ≤ held_most) × (held_most ≤ length held.old) }
    ensures { (result ≡ length (take held_most (take n held.old ++ s.now)))
        × (held.new ≡ written held.old 0 (take held_most (take n held.old ++ s.now))) }
{
    let m = (HELD_MOST - n).min(s.len());
    put_over(held, n, &s[..m])
}

// Answers the line that has begun with what is held and ends at e in a piece. It lies whole in no memory that was lent, so it is put together.
fn put_first(
    out: &mut [u8],
    piece: &[u8],
    e: usize,
    held: &[u8],
    begun: Progress,
    tables: &mut Tables<'_>,
) -> usize
    requires { PieceFits out.old piece.now held.now begun × (0 < begun.held) × (e ≡ line_end piece.now) × (e < length piece.now) }
    ensures same { SameTables tables.old tables.new }
    ensures answered { LineAnswered (seen out) begun.at (begun.lines + 1) (lent_tables tables.old tables.new)
        (parse_of (take begun.held held.now ++ take e piece.now)) result }
{
    let mut line = [0u8; HELD_MOST];
    let n = begun.held;
    let joined = put_over(&mut line, 0, &held[..n]);
    let end = hold(&mut line, joined, &piece[..e]);
    let answered = put_lines(out, begun.at, begun.lines, &line[..end], 0, end, tables);
    answered.at
}

// Answers the lines that end in a piece, the first going on from what is held; the last LF stands before `rest`. Where nothing is held, the first
// lies whole in the piece and is read there like the others.
fn put_ended(
    out: &mut [u8],
    piece: &[u8],
    rest: usize,
    held: &[u8],
    begun: Progress,
    tables: &mut Tables<'_>,
) -> Reached
    requires { PieceFits out.old piece.now held.now begun × LastLf piece.now rest × (0 < rest) }
    ensures same { SameTables tables.old tables.new }
    ensures answered { let state = lent_tables tables.old tables.new in
        EndedAnswered (seen out) begun.at (from_memory state.entry begun held.now) piece.now rest state.exit result.lines result.at }
{
    if begun.held == 0 {
        return put_lines(out, begun.at, begun.lines, piece, 0, rest, tables);
    }
    let e = line_end(piece);
    let at = put_first(out, piece, e, held, begun, tables);
    put_lines(out, at, begun.lines + 1, piece, e + 1, rest, tables)
}

// Where what follows the last LF of a text begins; 0 where it has none, since the rest is then the whole text, as `LastLf` has it.
fn rest_start(text: &[u8]) -> usize
    ensures { LastLf text.now result }
{
    for i in (0..text.len()).rev() {
        if text[i] == LF {
            return i + 1;
        }
    }
    0
}

// Answers the lines that end in a piece, and holds what is left.
fn put_piece(
    out: &mut [u8],
    piece: &[u8],
    held: &mut [u8],
    begun: Progress,
    tables: &mut Tables<'_>,
) -> Progress
    requires { PieceFits out.old piece.now held.old begun }
    ensures same { SameTables tables.old tables.new }
    ensures answered { PieceAnswered (seen out) (seen held) (lent_tables tables.old tables.new) begun piece.now result }
{
    let rest = rest_start(piece);
    if rest == 0 {
        let n = hold(held, begun.held, piece);
        return Progress { held: n, ..begun };
    }
    let answered = put_ended(out, piece, rest, held, begun, tables);
    let n = hold(held, 0, &piece[rest..]);
    Progress {
        lines: answered.lines,
        held: n,
        at: answered.at,
    }
}

// What `at` is where a piece was not taken in: 64 one-bits. A number and no Option, since C reads it so, and `piece_refused` says it (order_piece).
pub const REFUSED: usize = usize::MAX;

// There are n bytes of a line in memory that holds one, and no LF is among them.
fn holds_open(held: &[u8], n: usize) -> bool
    ensures { result ≡ holds_open held.now n }
{
    if held.len() < HELD_MOST {
        return false;
    }
    if HELD_MOST < n {
        return false;
    }
    n <= line_end(&held[..n])
}

// A piece of so many bytes can be answered into report memory of this size.
pub(crate) fn has_room(out: usize, piece: usize, held: &[u8], begun: Progress) -> bool
    ensures { result ≡ fits out piece held.now begun }
{
    if out < begun.at {
        return false;
    }
    if (out - begun.at) / LINE_ROOM < piece {
        return false;
    }
    if !holds_open(held, begun.held) {
        return false;
    }
    piece as u64 <= u64::MAX - begun.lines
}

// The report of a text that comes in pieces, into lent memory: answers the lines that end in a piece, the first of them going on from
// what is held, and holds what is left. The text begins with progress 0, 0, 0 and fresh tables; a rest without LF at its end is answered by
// one piece more, of LF alone. Where the memory has under 64 bytes for each byte of the piece, or cannot hold 65 bytes of a line, or an LF is among
// those that are held, or the lines could outgrow 64 bits, nothing is changed, and `at` is 64 one-bits.
pub fn report_piece(
    out: &mut [u8],
    piece: &[u8],
    held: &mut [u8],
    begun: Progress,
    tables: &mut Tables<'_>,
) -> Progress
    ensures same { SameTables tables.old tables.new }
    ensures answered { let state = lent_tables tables.old tables.new in
        let taken = fits (length out.old) (length piece.now) held.old begun in
        let before = from_memory state.entry begun held.old in
        let after = after_piece before piece.now in
        (result ≡ cond taken (progress_after before begun.at piece.now) (piece_refused begun))
        × (out.new ≡ cond taken (written out.old begun.at (said_in before piece.now)) out.old)
        × (state.exit ≡ cond taken after.state state.entry)
        × (held.new ≡ cond taken (written held.old 0 after.held) held.old) }
{
    if !has_room(out.len(), piece.len(), held, begun) {
        return Progress {
            at: REFUSED,
            ..begun
        };
    }
    put_piece(out, piece, held, begun, tables)
}
