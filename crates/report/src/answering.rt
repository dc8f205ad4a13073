// Lines answered: each is fed, and what the report has for it is written.
ghost use Rattle.std.specs.Prelude.{◌≡◌, true, Some, ◌≤◌, ◌<◌, ◌+◌, ◌^◌, length, take, drop};
ghost use Rattle.theory.specs.feeding.Lent.{seen};
ghost use Rattle.checker.specs.Tables.{SameTables, lent_tables};
ghost use Rattle.text.specs.Lines.{line_room, lines_of};
ghost use Rattle.text.specs.LineForm.{Sayable};
ghost use Rattle.text.specs.Answers.{LineAnswered, LinesFit, LinesAnswered};
ghost use Rattle.report.specs.Held.{HeldAnswered};

use crate::page::Page;
use checker::{Tables, step_in_place};
use reading::read_record;
use theory::{Record, Refusal};

// Feeds what a line says, and writes what the report has for it. One that says nothing is refused as a record of no known kind is.
pub(crate) fn put_parsed(
    out: &mut [u8],
    at: usize,
    number: u64,
    parsed: Option<Record>,
    tables: &mut Tables<'_>,
) -> usize
    requires { (at + line_room ≤ length out.old) × ((r : Record) → parsed ≡ Some r → Sayable r) }
    ensures same { SameTables tables.old tables.new }
    ensures answered { LineAnswered (seen out) at number (lent_tables tables.old tables.new) parsed result }
{
    let mut page = Page { out, at };
    let Some(r) = parsed else {
        page.put_refused(number, Refusal::UnknownKind as u32);
        return page.at;
    };
    let answer = step_in_place(tables, r);
    page.put_answer(
        number,
        r,
        answer,
        tables.control,
        tables.last,
        tables.fullclocks,
    );
    page.at
}

// How far a text is answered: the lines so far, and the next place in the report.
#[derive(Clone, Copy)]
pub(crate) struct Reached {
    pub lines: u64,
    pub at: usize,
}

// Answers the line that was read and not answered yet, if one is held. `before` is reached so far.
fn put_held(
    out: &mut [u8],
    before: Reached,
    held: bool,
    parsed: Option<Record>,
    tables: &mut Tables<'_>,
) -> Reached
    requires { held ≡ true → (before.at + line_room ≤ length out.old) × (before.lines + 1 < 2 ^ 64) × ((r : Record) → parsed ≡ Some r → Sayable r) }
    ensures same { SameTables tables.old tables.new }
    ensures answered { HeldAnswered (seen out) before held (lent_tables tables.old tables.new) parsed result }
{
    if !held {
        return before;
    }
    let lines = before.lines + 1;
    let at = put_parsed(out, before.at, lines, parsed, tables);
    Reached { lines, at }
}

// Answers the lines of a text from a place on and before `end`, each taken from a line reader. No line is cut there. `end` beside the text and no shorter
// slice: a short line is read by 24 bytes at once, which may lie past it.
// A line is read before the one ahead of it is fed: a step's branches are guessed wrong often, and reading goes on beside them. So the first turn has
// no line to answer yet, and what the last one reads is not used. Each call stands once, so that the compiler makes it part of the loop.
// What is held is a flag beside what it says: an Option of that, read where a line is left, was proved, and a record then takes 365.4 instructions in
// place of 351.5 (callgrind).
// The tables are lent anew from here, so that where they lie stays in registers: by the caller's struct a record takes 349.9 in place of 346.2
// in order_piece.
pub(crate) fn put_lines(
    out: &mut [u8],
    at: usize,
    lines: u64,
    text: &[u8],
    from: usize,
    end: usize,
    tables: &mut Tables<'_>,
) -> Reached
    requires { LinesFit out.old at lines text.now from end }
    ensures same { SameTables tables.old tables.new }
    ensures answered { LinesAnswered (seen out) at (lent_tables tables.old tables.new) lines (lines_of (drop from (take end text.now))) result.lines result.at }
{
    let mut here = Tables {
        control: tables.control,
        last: tables.last,
        clocks: tables.clocks,
        fullclocks: tables.fullclocks,
    };
    let mut reached = Reached { lines, at };
    let mut p = from;
    let mut going = from < end;
    let mut held = false;
    let mut parsed = None;
    while going {
        let more = p < end;
        let next = read_record(text, &mut p);
        reached = put_held(out, reached, held, parsed, &mut here);
        parsed = next;
        held = more;
        going = more;
    }
    reached
}
