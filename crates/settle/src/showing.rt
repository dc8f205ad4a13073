// What the table has, on its way to standard output. The tasks of a mask are written into memory first, by memory and place: of what a writer takes no
// contract can say a byte.
ghost use Rattle.std.specs.Prelude.{[], ◌∷◌, ◌+◌, ◌*◌, ◌<◌, ◌≤◌, length};
ghost use Rattle.theory.specs.order.Limits.{tasks};
ghost use Rattle.text.specs.Printing.{decimal};
ghost use Rattle.text.specs.Wrote.{Wrote};
ghost use Rattle.input.specs.Prefix.{IsPrefixLen};
ghost use Rattle.settle.specs.Table.{comma_task, named_below};

use crate::tally::{ALL, Tallies};
use basics::has_bit;
use std::io::Write;
use theory::TASKS;

// Room for the tasks of a mask: a comma and at most two digits each.
const TASKS_ROOM: usize = 3 * TASKS as usize;

// A byte.
fn put_byte(out: &mut [u8], at: usize, b: u8) -> usize
    requires { at < length out.old }
    ensures { Wrote out.old at (b ∷ []) out.new result }
{
    out[at] = b;
    at + 1
}

// A task's number: it has two digits at most.
fn put_task(out: &mut [u8], at: usize, t: u32) -> usize
    requires { (at + 2 ≤ length out.old) × (t < tasks) }
    ensures { Wrote out.old at (decimal t) out.new result × (result ≤ at + 2) }
{
    if t < 10 {
        return put_byte(out, at, b'0' + t as u8);
    }
    let last = put_byte(out, at, b'1');
    put_byte(out, last, b'0' + (t - 10) as u8)
}

// A task of the mask, behind a comma.
fn put_named(out: &mut [u8], at: usize, mask: u16, t: u32) -> usize
    requires { (at + 3 ≤ length out.old) × (t < tasks) }
    ensures { Wrote out.old at (comma_task mask t) out.new result × (result ≤ at + 3) }
{
    if has_bit(u32::from(mask), t) {
        let number = put_byte(out, at, b',');
        return put_task(out, number, t);
    }
    at
}

// The tasks of a mask.
fn put_tasks(out: &mut [u8], mask: u16) -> usize
    requires { 3 * tasks ≤ length out.old }
    ensures { Wrote out.old 0 (named_below mask tasks) out.new result × IsPrefixLen result out.new }
{
    let mut to = 0;
    for t in 0..TASKS {
        to = put_named(out, to, mask, t);
    }
    to
}

// Writes the tasks that could settle a Doubt alone, at the end of its line.
fn show_alone<O: Write>(stdout: &mut O, mask: u16) -> bool {
    if mask == 0 {
        return stdout.write_all(b" alone=none\n").is_ok();
    }
    let mut out = [0u8; TASKS_ROOM];
    let n = put_tasks(&mut out, mask);
    if n == 0 {
        return false;
    }
    let _ = stdout.write_all(b" alone=");
    let _ = stdout.write_all(&out[1..n]);
    stdout.write_all(b"\n").is_ok()
}

// Writes what the report has for a line: all of it where the line was refused, and a Doubt with the tasks that could settle it alone, by their mask.
// Says whether it could be written.
pub(crate) fn show_line<O: Write>(
    stdout: &mut O,
    text: &[u8],
    refused: bool,
    doubt: Option<u16>,
) -> bool {
    let Some((_, without_lf)) = text.split_last() else {
        return true;
    };
    if refused {
        return stdout.write_all(text).is_ok();
    }
    let Some(mask) = doubt else {
        return true;
    };
    let _ = stdout.write_all(without_lf);
    show_alone(stdout, mask)
}

// Writes how many Doubts a task could settle alone, where it could any.
fn show_task<O: Write>(stdout: &mut O, t: u32, n: u32) {
    if n != 0 {
        let _ = writeln!(stdout, "task={t} settles={n}");
    }
}

// The same for each task, and how many Doubts there were.
pub(crate) fn show_counts<O: Write>(stdout: &mut O, tallies: &Tallies) {
    for t in 0..TASKS {
        show_task(stdout, t, tallies[t as usize]);
    }
    let n = tallies[ALL];
    let _ = writeln!(stdout, "doubts={n}");
}
