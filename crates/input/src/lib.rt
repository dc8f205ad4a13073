// What a reader brings, standard input or a file, in pieces: each read brings a block, which is handed out piece by piece. No contract can say what
// came; which part of its block each piece is, is proved. And the arguments of a program.
#![tactic(auto)]

mod arguments;

ghost use Rattle.std.specs.Prelude.{◌≡◌, true, false, ◌<◌, ◌≤◌, length};
ghost use Rattle.input.specs.Prefix.{IsPrefixLen};
ghost use Rattle.input.specs.Pieces.{furthest, after_lf, piece_at, ending_piece, last_piece, ended, is_left, next_of};

pub use arguments::{argument, is_given};
use reading::{LF, line_end};
use std::io::{Read, Write};

// A piece has so many bytes at most.
pub const PIECE: usize = 4096;

// So many bytes a program asks of one read.
pub const BLOCK: usize = 65_536;

// Where a piece stands in its block, how many bytes of that were read, and whether there may be more input. No Option: the last piece has bytes too.
#[derive(Clone, Copy)]
pub struct Span {
    pub from: usize,
    pub end: usize,
    pub len: usize,
    pub more: bool,
}

impl Span {
    // Before the first piece.
    pub const START: Span = Span {
        from: 0,
        end: 0,
        len: 0,
        more: true,
    };

    // The last piece, of so many bytes.
    fn last(end: usize) -> Span
        ensures { result ≡ ending_piece end }
    {
        Span {
            from: 0,
            end,
            len: end,
            more: false,
        }
    }
}

// How far the piece that begins at a place may go.
fn furthest(from: usize, len: usize) -> usize
    requires { from < len }
    ensures { result ≡ furthest from len }
{
    from.saturating_add(PIECE).min(len)
}

// After the next LF, if that is not too far. Where none stands before the last byte, it is after that.
#[tactic(auto, using(crate::proofs::Parts::index_of_take))]
fn after_lf(block: &[u8], from: usize, most: usize) -> usize
    requires { (from < most) × (most ≤ length block.now) }
    ensures { result ≡ after_lf block.now from most }
{
    from + line_end(&block[from..most - 1]) + 1
}

// The piece that begins at a place of a block; where lines are asked for, it ends after the next LF. A flag asks, as in the clause of `next_piece`.
fn piece_at(block: &[u8], from: usize, len: usize, lines: bool) -> Span
    requires { (from < len) × (len ≤ length block.now) }
    ensures { (result ≡ piece_at lines block.now from len) × (from < result.end) × (result.end ≤ len) }
{
    let most = furthest(from, len);
    let end = if lines {
        after_lf(block, from, most)
    } else {
        most
    };
    Span {
        from,
        end,
        len,
        more: true,
    }
}

// The last piece: LF, where a line has begun that none ends, and else nothing.
fn last_piece(block: &mut [u8], begun: bool) -> Span
    ensures { (result ≡ last_piece begun block.new) × (block.new ≡ ended begun block.old) }
{
    if !begun || block.is_empty() {
        return Span::last(0);
    }
    block[0] = LF;
    Span::last(1)
}

// A part of the block was read and not handed out.
fn is_left(was: Span, block: &[u8]) -> bool
    ensures { result ≡ is_left was block.now }
{
    was.end < was.len && was.len <= block.len()
}

// Reads the next block, and says how many bytes came: 0 at the end of the input, as `Read` has it, and 0 where the read failed, which is said first.
fn read_block<R: Read, W: Write>(
    input: &mut R,
    block: &mut [u8],
    failed: &[u8],
    errors: &mut W,
) -> usize
    ensures { IsPrefixLen result block.new }
{
    match input.read(block) {
        Ok(n) => n,
        Err(_) => {
            let _ = errors.write_all(failed);
            0
        }
    }
}

// The piece after another, from the next block where that one is used up. A read may bring less than a block; none at all is the end of the input, and
// one that fails says so on `errors`, by the words for it, and is the end as well. `begun` says whether a line has begun, which the end of the input
// ends. What a read brought is known by `more` and `len` alone; where a part of the block is left, there is none, and the block stays as it is.
pub fn next_piece<R: Read, W: Write>(
    input: &mut R,
    block: &mut [u8],
    was: Span,
    lines: bool,
    begun: bool,
    failed: &[u8],
    errors: &mut W,
) -> Span
    ensures value { result ≡ next_of was lines begun block.new result.more result.len }
    ensures block_unchanged { (is_left was block.old ≡ true → block.new ≡ block.old)
        × (result.more ≡ false → block.new ≡ ended begun block.new) }
    ensures from_le_end { (result.from ≤ result.end) × (result.end ≤ result.len) × (result.len ≤ length block.new) × (result.more ≡ true → result.from < result.end) }
{
    if is_left(was, block) {
        return piece_at(block, was.end, was.len, lines);
    }
    let n = read_block(input, block, failed, errors);
    if n == 0 {
        return last_piece(block, begun);
    }
    piece_at(block, 0, n, lines)
}
