// The file of accepted faults, a text that comes in pieces: each line is an entry that is taken into the control table, or is refused. It is
// short and read once, so that it is read byte by byte.
ghost use Rattle.std.specs.Prelude.{◌≡◌, cond, [], ◌∷◌, ◌≤◌, ◌+◌, length};
ghost use Rattle.std.proofs.lemmas.List.Edits.{sets as written};
ghost use Rattle.theory.specs.feeding.Lent.{seen};
ghost use Rattle.text.specs.Lines.{line_room};
ghost use Rattle.text.specs.Wrote.{Wrote};
ghost use Rattle.text.specs.Stream.{pending_in, piece_said, piece_kept, progress_to};
ghost use Rattle.text.specs.Pieces.{fits, piece_refused};
ghost use Rattle.text.specs.Answers.{PieceFits};
ghost use Rattle.text.specs.EntryForm.{entry_of};
ghost use Rattle.text.specs.Entries.{said_for_entry, control_with, entry_reader};
ghost use Rattle.text.specs.EntriesRead.{EntriesFit, EntriesRead, EntriesAnswered};

use crate::page::{Page, put_over};
use crate::sizes::HELD_MOST;
use crate::streaming::{REFUSED, has_room, hold};
use checker::{enter, entries_full};
use reading::{LF, parse_entry};
use text::Progress;
use theory::Control;

// Why a line of the file is refused, by the numbers that its report line says.
enum EntryRefusal {
    NoEntry = 12,
    NoRoom = 13,
}

// Takes the entry of a line in, or writes why not: refusal 12 is looked at first.
fn put_entry(out: &mut [u8], at: usize, number: u64, line: &[u8], control: &mut Control) -> usize
    requires { at + line_room ≤ length out.old }
    ensures { let entry = entry_of line.now in
        Wrote out.old at (said_for_entry number control.old entry) out.new result
        × (control.new ≡ control_with control.old entry) × (result ≤ at + line_room) }
{
    let mut page = Page { out, at };
    let Some(e) = parse_entry(line) else {
        page.put_refusal(b"entry=", number, EntryRefusal::NoEntry as u32);
        return page.at;
    };
    if entries_full(control) {
        page.put_refusal(b"entry=", number, EntryRefusal::NoRoom as u32);
        return page.at;
    }
    enter(control, e.var, e.low, e.high, e.accepted);
    page.at
}

// Reads a byte: LF ends the line that is held, any other is held after it, if there is room.
fn read_byte(
    out: &mut [u8],
    b: u8,
    line: &mut [u8],
    begun: Progress,
    control: &mut Control,
) -> Progress
    requires { EntriesFit out.old line.old begun 1 }
    ensures { EntriesRead (seen out) (seen line) (seen control) begun (b ∷ []) result }
{
    let n = begun.held;
    if b == LF {
        let number = begun.lines + 1;
        let at = put_entry(out, begun.at, number, &line[..n], control);
        return Progress {
            lines: number,
            held: 0,
            at,
        };
    }
    let held = hold(line, n, &[b]);
    Progress { held, ..begun }
}

// Reads bytes, one after the other.
fn read_entries(
    out: &mut [u8],
    piece: &[u8],
    line: &mut [u8],
    begun: Progress,
    control: &mut Control,
) -> Progress
    requires { EntriesFit out.old line.old begun (length piece.now) }
    ensures { EntriesRead (seen out) (seen line) (seen control) begun piece.now result }
{
    let mut reached = begun;
    for b in piece {
        reached = read_byte(out, *b, line, reached, control);
    }
    reached
}

// Reads a piece. Its lines are held in memory of their own, so that of `held` no more is written than what is held after it.
fn put_entries(
    out: &mut [u8],
    piece: &[u8],
    held: &mut [u8],
    begun: Progress,
    control: &mut Control,
) -> Progress
    requires { PieceFits out.old piece.now held.old begun }
    ensures { EntriesAnswered (seen out) (seen held) (seen control) begun piece.now result }
{
    let mut line = [0u8; HELD_MOST];
    let n = begun.held;
    put_over(&mut line, 0, &held[..n]);
    let ended = read_entries(out, piece, &mut line, begun, control);
    let m = ended.held;
    put_over(held, 0, &line[..m]);
    ended
}

// The file of accepted faults, in pieces, into the control table; what is said for its refused lines goes into lent memory. It begins with
// progress 0, 0, 0 and ahead of the recording; a rest without LF at its end is answered by one piece more, of LF alone. A piece is taken in
// where `report_piece` would take one in; else nothing is changed, and `at` is 64 one-bits.
pub fn entries_piece(
    out: &mut [u8],
    piece: &[u8],
    held: &mut [u8],
    begun: Progress,
    control: &mut Control,
) -> Progress
    ensures { let taken = fits (length out.old) (length piece.now) held.old begun in
        let before = pending_in control.old begun held.old in
        let after = piece_kept entry_reader before piece.now in
        (result ≡ cond taken (progress_to entry_reader before begun.at piece.now) (piece_refused begun))
        × (out.new ≡ cond taken (written out.old begun.at (piece_said entry_reader before piece.now)) out.old)
        × (control.new ≡ cond taken after.state control.old)
        × (held.new ≡ cond taken (written held.old 0 after.held) held.old) }
{
    if !has_room(out.len(), piece.len(), held, begun) {
        return Progress {
            at: REFUSED,
            ..begun
        };
    }
    put_entries(out, piece, held, begun, control)
}
