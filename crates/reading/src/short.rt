// Short lines, read in one pass: `op=W task=T on=N` with numbers of one or two digits, LF being found on the way. Nearly all lines are.
ghost use Rattle.std.specs.Prelude.{◌≡◌, true, List, ◌∷◌, ℕ, ◌+◌, ◌≤◌, ◌<◌, length, IfSome};
ghost use Rattle.text.specs.LineForm.{space, task_name, on_name, parse_of};
ghost use Rattle.text.specs.Places.{StandsAt, FieldAt};
ghost use Rattle.text.specs.Reading.{line_at, next_at};

use crate::decimal::read_short;
use crate::fast_reading::guess_task;
use crate::parsing::parse_line;
use crate::scan::{LF, line_at, place_after};
use crate::words::{four, known_op};
use theory::Record;

// A word of four bytes stands at a place: the compiler makes one comparison of it. By `starts_with` of the library a record took 353.0
// instructions in place of 345.1.
fn has_four(s: &[u8], p: usize, word: &[u8]) -> bool
    requires { (p + 4 ≤ length s.now) × (length word.now ≡ 4) }
    ensures { result ≡ true → StandsAt s.now p word.now }
{
    four(s, p) == four(word, 0)
}

fn one_or_two(b: u8, end: u8) -> usize
    ensures { (0 < result) × (result ≤ 2) }
{
    if b == end { 1 } else { 2 }
}

// The number of a field, and how many bytes the field has.
#[derive(Clone, Copy)]
struct Field {
    value: u32,
    len: usize,
}

// The field whose name stands at a place in so many bytes, if its number has one or two digits: one where the byte `end` follows the first.
fn field_after(s: &[u8], p: usize, name: usize, end: u8) -> Option<Field>
    requires { p + name + 2 ≤ length s.now }
    ensures { IfSome result (λ f. (f.len ≤ name + 2) × ((w : List ℕ) → length w ≡ name → StandsAt s.now p w → FieldAt s.now p w f.value f.len)) }
{
    let d = p + name;
    let n = one_or_two(s[d + 1], end);
    let value = read_short(&s[d..d + n])?;
    Some(Field {
        value,
        len: name + n,
    })
}

// `task=T` at a place, after a space, for the tasks that there are.
fn task_at(s: &[u8], p: usize) -> Option<Field>
    requires { p + 8 ≤ length s.now }
    ensures { IfSome result (λ f. (f.len ≤ 8) × FieldAt s.now p (space ∷ task_name) f.value f.len) }
{
    if !has_four(s, p, b" tas") {
        return None;
    }
    let bytes = four(s, p + 4);
    let t = guess_task(bytes);
    if bytes != t.bytes {
        return None;
    }
    Some(Field {
        value: t.task,
        len: 6 + t.len,
    })
}

// `on=N` at a place, after a space.
fn on_at(s: &[u8], p: usize) -> Option<Field>
    requires { p + 6 ≤ length s.now }
    ensures { IfSome result (λ f. (f.len ≤ 6) × FieldAt s.now p (space ∷ on_name) f.value f.len) }
{
    if !has_four(s, p, b" on=") {
        return None;
    }
    field_after(s, p, 4, LF)
}

// What a line says, and the place after it and its LF.
#[derive(Clone, Copy)]
pub(crate) struct LineTaken<T> {
    pub(crate) said: T,
    pub(crate) next: usize,
}

// So many bytes are enough for a short line: eight for the op, eight for the task, six for the number, and LF.
const SHORT: usize = 24;

// The line that begins at a place, if it is short and so many bytes can be read. A loss mark is no short line.
fn short_line(s: &[u8], p: usize) -> Option<LineTaken<Record>>
    ensures { IfSome result (λ t. (parse_of (line_at s.now p) ≡ Some t.said) × (next_at s.now p ≡ t.next)) }
{
    if s.len() < SHORT || s.len() - SHORT < p {
        return None;
    }
    let op = known_op(s, p)?;
    let e = p + op.len;
    let task = task_at(s, e)?;
    let q = e + task.len;
    let on = on_at(s, q)?;
    let end = q + on.len;
    if s[end] != LF {
        return None;
    }
    let said = Record {
        kind: op.kind,
        task: task.value,
        on: on.value,
    };
    Some(LineTaken {
        said,
        next: end + 1,
    })
}

// Reads the line that begins at a place: as a short line, or else as a part of the text that is taken apart. From the end of the text on it is empty.
pub(crate) fn line_taken(text: &[u8], at: usize) -> LineTaken<Option<Record>>
    ensures { result ≡ record { said = parse_of (line_at text.now at); next = next_at text.now at } }
{
    if let Some(short) = short_line(text, at) {
        return LineTaken {
            said: Some(short.said),
            next: short.next,
        };
    }
    let line = line_at(text, at);
    let next = place_after(text, at, line.len());
    LineTaken {
        said: parse_line(line),
        next,
    }
}
