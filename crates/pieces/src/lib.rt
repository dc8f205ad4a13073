// A recording that comes in pieces, and the file of accepted faults ahead of it, for a host program in C that keeps what is between them;
// include/order.h has the same functions for C, and `pieces_c` makes them an archive.
#![tactic(auto)]

ghost use Rattle.std.specs.Prelude.{◌≡◌, cond, [], ◌∷◌, ◌-◌, ◌^◌, length};
ghost use Rattle.std.proofs.lemmas.List.Edits.{sets as written};
ghost use Rattle.theory.specs.feeding.Lent.{tables};
ghost use Rattle.text.specs.Stream.{pending_in, piece_said, piece_kept};
ghost use Rattle.text.specs.Entries.{entry_reader};
ghost use Rattle.text.specs.Pieces.{from_memory, fits, said_in, after_piece};
ghost use Rattle.pieces.specs.Begun.{begun, progress_numbers};

use checker::Tables;
use report::{HELD_MOST, entries_piece, report_piece};
use text::Progress;
use theory::{Clocks, Control, History};

// How far a text was answered before a piece, by the two numbers that a host keeps of it. What is said for the piece begins where the report memory does.
fn begun(progress: &[u64; 2]) -> Progress
    ensures { result ≡ begun progress.now }
{
    Progress {
        lines: progress[0],
        held: progress[1] as usize,
        at: 0,
    }
}

// Keeps how far it was answered after the piece; the count of bytes written, as C has it.
fn keep(progress: &mut [u64; 2], to: Progress) -> u64
    ensures { (result ≡ to.at) × (progress.new ≡ to.lines ∷ to.held ∷ []) }
{
    *progress = [to.lines, to.held as u64];
    to.at as u64
}

// Answers the lines that end in a piece of a text, into the report memory from its start on, and holds what is left. Returns the count of
// bytes written. Where the memory has under 64 bytes for each byte of the piece, or the lent numbers are none that a piece leaves, nothing
// is changed, and 64 one-bits are returned. A text begins with fresh tables and progress 0, 0; a rest without LF at its end is answered by
// one piece more, of LF alone.
pub fn order_piece(
    piece: &[u8],
    report: &mut [u8],
    held: &mut [u8; HELD_MOST],
    progress: &mut [u64; 2],
    control: &mut Control,
    last: &mut History,
    clocks: &mut Clocks,
    fullclocks: &mut Clocks,
) -> u64
    ensures { let state = tables control last clocks fullclocks in
        let from = begun progress.old in
        let k = from_memory state.entry from held.old in
        let said = said_in k piece.now in
        let after = after_piece k piece.now in
        let taken = fits (length report.old) (length piece.now) held.old from in
        (result ≡ cond taken (length said) (2 ^ 64 - 1))
        × (report.new ≡ cond taken (written report.old 0 said) report.old)
        × (progress.new ≡ cond taken (written progress.old 0 (progress_numbers after)) progress.old)
        × (state.exit ≡ cond taken after.state state.entry)
        × (held.new ≡ cond taken (written held.old 0 after.held) held.old) }
{
    let to = report_piece(
        report,
        piece,
        held,
        begun(progress),
        &mut Tables {
            control,
            last,
            clocks,
            fullclocks,
        },
    );
    keep(progress, to)
}

// The same for a piece of the file of accepted faults, into the control table; the report memory has what is said for its refused lines. Held
// bytes and progress are of that file alone. It is read with fresh tables, ahead of the recording.
pub fn order_entries(
    piece: &[u8],
    report: &mut [u8],
    held: &mut [u8; HELD_MOST],
    progress: &mut [u64; 2],
    control: &mut Control,
) -> u64
    ensures { let from = begun progress.old in
        let k = pending_in control.old from held.old in
        let said = piece_said entry_reader k piece.now in
        let after = piece_kept entry_reader k piece.now in
        let taken = fits (length report.old) (length piece.now) held.old from in
        (result ≡ cond taken (length said) (2 ^ 64 - 1))
        × (report.new ≡ cond taken (written report.old 0 said) report.old)
        × (progress.new ≡ cond taken (written progress.old 0 (progress_numbers after)) progress.old)
        × (control.new ≡ cond taken after.state control.old)
        × (held.new ≡ cond taken (written held.old 0 after.held) held.old) }
{
    let to = entries_piece(report, piece, held, begun(progress), control);
    keep(progress, to)
}
