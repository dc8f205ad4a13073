// The words of a line: the op that its first one names, and the fields after it.
ghost use Rattle.std.specs.Prelude.{◌≡◌, ◌++◌, ◌+◌, ◌≤◌, ◌<◌, length, take, drop, IfSome};
ghost use Rattle.theory.specs.order.Recording.{loss_mark};
ghost use Rattle.reading.specs.Places.{IsPlace};
ghost use Rattle.text.specs.Bytes.{up_to, is_word, little};
ghost use Rattle.text.specs.LineForm.{field_of, named_kind, place_of, words, word_of, op_name, space};
ghost use Rattle.text.specs.Places.{OpAt, kind_opening, op_bytes};

use crate::decimal::read_decimal;
use crate::scan::place_of;
use theory::{KINDS, LOST};

pub(crate) const SPACE: u8 = b' ';

// The ops by their kinds, each with what follows it in the first eight bytes of an act: its space, and `task=` as far as there is room.
// This is the one table of words: a new word is a line here, and one of `words` in crates/text/specs/LineForm.antt.
const OPENINGS: [[u8; 8]; KINDS as usize] = [
    *b"op=read ",
    *b"op=write",
    *b"op=take ",
    *b"op=give ",
    *b"op=look ",
    *b"op=set t",
    *b"op=start",
    *b"op=join ",
    *b"op=lost ",
    *b"op=fresh",
    *b"op=miss ",
    *b"op=bump ",
    *b"op=owned",
];

// The part is the word. Not made part of its caller: the loop over the words is small without it, and the compiler unrolls it.
#[inline(never)]
fn same_bytes(word: &[u8], s: &[u8]) -> bool
    ensures { result ≡ is_word word.now s.now }
{
    s == word
}

// The same. Their lengths and first bytes are looked at first: most words differ there, and then no more is compared. By `==` alone, in the loop, a line
// whose op is none took 712.8 instructions in place of 379.7 (callgrind).
fn is_word(word: &[u8], s: &[u8]) -> bool
    requires { 0 < length word.now }
    ensures { result ≡ is_word word.now s.now }
{
    s.len() == word.len() && s[0] == word[0] && same_bytes(word, s)
}

// The kind that a word names, if it is one of the table.
fn kind_of(word: &[u8]) -> Option<u8>
    ensures { IsPlace result (place_of words word.now) (length words) }
{
    let openings = OPENINGS;
    for k in 0..KINDS {
        let o = openings[k as usize];
        if is_word(&o[3..op_bytes(&o)], word) {
            return Some(k);
        }
    }
    None
}

// The kind that a first word `op=W` names.
fn named_kind(s: &[u8]) -> Option<u8>
    ensures { IsPlace result (named_kind s.now) (length words) }
{
    kind_of(s.strip_prefix(b"op=")?)
}

// The kind that the first word of a line names. An op whose space is one of the first eight bytes, such as that of a loss mark, is known by them.
pub(crate) fn op(line: &[u8]) -> Option<u8>
    ensures { IsPlace result (named_kind (up_to space line.now)) (length words) }
{
    if 8 <= line.len() {
        let bytes = eight(line, 0);
        let o = guess(bytes);
        if bytes == o.bytes && o.len < 8 {
            return Some(o.kind);
        }
    }
    named_kind(&line[..place_of(line, 0, SPACE)])
}

// So many bytes from a place on: the compiler makes one load of eight or of four, and no test, since it sees the length of the part.
fn bytes_at<const N: usize>(s: &[u8], p: usize) -> [u8; N]
    requires { p + N ≤ length s.now }
    ensures { result ≡ take N (drop p s.now) }
{
    s[p..p + N].try_into().unwrap()
}

// Eight bytes as one number, the first counting least.
fn eight(s: &[u8], p: usize) -> u64
    requires { p + 8 ≤ length s.now }
    ensures { result ≡ little (take 8 (drop p s.now)) }
{
    u64::from_le_bytes(bytes_at(s, p))
}

// Four bytes likewise: another number type, so another method of the library.
pub(crate) fn four(s: &[u8], p: usize) -> u32
    requires { p + 4 ≤ length s.now }
    ensures { result ≡ little (take 4 (drop p s.now)) }
{
    u32::from_le_bytes(bytes_at(s, p))
}

// A word of eight bytes as one number, the first counting least: what the standard library makes of it, in the word of the definitions.
pub fn little_endian(bytes: &[u8; 8]) -> u64
    ensures { result ≡ little bytes.now }
{
    u64::from_le_bytes(*bytes)
}

// How many bytes of an opening are the op's, which has six at least.
fn op_bytes(o: &[u8; 8]) -> usize
    ensures { (result ≡ op_bytes o.now) × (6 ≤ result) × (result ≤ 8) }
{
    if o[6] == SPACE {
        return 6;
    }
    if o[7] == SPACE { 7 } else { 8 }
}

// An op by its kind, with its opening as one number, and how many bytes of that are the op's.
#[derive(Clone, Copy)]
pub(crate) struct Opening {
    pub(crate) kind: u8,
    pub(crate) bytes: u64,
    pub(crate) len: usize,
}

fn opened(kind: u8, o: &[u8; 8]) -> Opening
    ensures { result ≡ record { kind = kind; bytes = little o.now; len = op_bytes o.now } }
{
    Opening {
        kind,
        bytes: little_endian(o),
        len: op_bytes(o),
    }
}

// A number below 16 that differs from op to op, by the letters of the word. Of two words with one number the later would be read the slow way.
fn hash_slot(bytes: u64) -> u64 {
    bytes / 16_777_216 * 2665 / 4_294_967_296 % 16
}

// The one op that a line's first eight bytes can name. That it is so is not relied on. The compiler makes tables of it, by slots, since the
// entry is looked for by its slot and not by its place.
fn guess(bytes: u64) -> Opening
    ensures { (result.kind < length words) × (result.bytes ≡ little (kind_opening result.kind)) × (result.len ≡ op_bytes (kind_opening result.kind)) }
{
    let at = hash_slot(bytes);
    let openings = OPENINGS;
    for k in 0..KINDS {
        let o = opened(k, &openings[k as usize]);
        if hash_slot(o.bytes) == at {
            return o;
        }
    }
    opened(0, &openings[0])
}

// Where the op of a kind ends.
pub(crate) fn op_end(kind: u8) -> usize
    requires { kind < length words }
    ensures { result ≡ length (op_name ++ word_of kind) }
{
    let openings = OPENINGS;
    op_bytes(&openings[kind as usize])
}

// The act whose op stands at a place, by eight bytes.
pub(crate) fn known_op(s: &[u8], p: usize) -> Option<Opening>
    requires { p + 8 ≤ length s.now }
    ensures { IfSome result (λ o. (o.kind ≡ loss_mark → ⊥) × OpAt s.now p o.kind o.len × (o.len ≤ 8)) }
{
    let bytes = eight(s, p);
    let o = guess(bytes);
    if bytes == o.bytes && o.kind != LOST {
        return Some(o);
    }
    None
}

// The number after the name of a field.
pub(crate) fn field(name: &[u8], s: &[u8]) -> Option<u32>
    ensures { result ≡ field_of name.now s.now }
{
    read_decimal(s.strip_prefix(name)?)
}
