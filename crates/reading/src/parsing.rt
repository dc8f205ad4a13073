// A line as a record: `op=W task=T on=N`, or `op=lost tasks=M`.
ghost use Rattle.std.specs.Prelude.{◌≡◌, suc, ◌≤◌, ◌<◌, length, drop};
ghost use Rattle.text.specs.LineForm.{parse_act, parse_mark, parse_of};

use crate::scan::place_of;
use crate::words::{SPACE, field, op, op_end};
use theory::{LOST, Record};

// The place after a space; the end where there is none. A sum that saturates, and the lesser of two, would say it no plainer.
pub(crate) fn past(s: &[u8], at: usize) -> usize
    requires { at ≤ length s.now }
    ensures { (drop result s.now ≡ drop (suc at) s.now) × (result ≤ length s.now) }
{
    if at < s.len() { at + 1 } else { at }
}

// What follows the op of an act: `task=T on=N`.
fn parse_act(kind: u8, s: &[u8]) -> Option<Record>
    ensures { result ≡ parse_act kind s.now }
{
    let e = place_of(s, 0, SPACE);
    let task = field(b"task=", &s[..e])?;
    let on = field(b"on=", &s[past(s, e)..])?;
    Some(Record { kind, task, on })
}

// What follows `op=lost`: `tasks=M`.
fn parse_mark(s: &[u8]) -> Option<Record>
    ensures { result ≡ parse_mark s.now }
{
    let on = field(b"tasks=", s)?;
    Some(Record {
        kind: LOST,
        task: 0,
        on,
    })
}

// The record that a line says, if it is of the text form.
pub fn parse_line(line: &[u8]) -> Option<Record>
    ensures { result ≡ parse_of line.now }
{
    let kind = op(line)?;
    let rest = &line[past(line, op_end(kind))..];
    if kind == LOST {
        parse_mark(rest)
    } else {
        parse_act(kind, rest)
    }
}
