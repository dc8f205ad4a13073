// The table of totals, written into lent memory. Each function writes at a place and returns the place after what it wrote: a struct of both, as report's
// `Page`, would ask one clause more of each, that the memory is the same.
ghost use Rattle.std.specs.Prelude.{◌+◌, ◌*◌, ◌-◌, ◌<◌, ◌≤◌, max, ◌≡◌, length};
ghost use Rattle.theory.specs.order.Limits.{variables};
ghost use Rattle.input.specs.Prefix.{IsPrefixLen};
ghost use Rattle.text.specs.Wrote.{Wrote};
ghost use Rattle.totals.specs.Table.{Small, line, sums_below, padded, right_aligned, count_columns, variable_line, lines_below, table_of, room, skipped_line, shown_of};

use crate::sums::Sums;
use acceptance::{is_under, skipped};
use checker::totals_of;
use report::last_digit;
use theory::{Control, Totals, VARIABLES};

// The widths of the first column and of the others, with the space before each number.
const NAME_WIDTH: usize = 3;

const COUNT_WIDTH: usize = 8;

// So much room is asked for a line: it has five numbers, each of 20 digits at most.
const LINE: usize = 128;

// The lines of a table: for each variable, its head, its sums and the skipped takes.
const LINES: usize = VARIABLES as usize + 3;

pub(crate) const TABLE: usize = LINES * LINE;

// Spaces, and then the bytes as they are.
fn put_padded(out: &mut [u8], at: usize, spaces: usize, bytes: &[u8]) -> usize
    requires { at + length (padded spaces bytes.now) ≤ length out.old }
    ensures { Wrote out.old at (padded spaces bytes.now) out.new result }
{
    let begin = at + spaces;
    let end = begin + bytes.len();
    out[at..begin].fill(b' ');
    out[begin..end].copy_from_slice(bytes);
    end
}

// What is left of a column's width beside one digit.
fn beside_digit(width: usize) -> usize
    ensures { result ≡ max 1 (width - 1) }
{
    width.saturating_sub(1).max(1)
}

// A number at the right end of a column: the digits of its tenth, if it has one, in what is left of the column, and the last.
fn put_aligned(out: &mut [u8], at: usize, width: usize, n: u64) -> usize
    requires { at + length (right_aligned width n) ≤ length out.old }
    ensures { Wrote out.old at (right_aligned width n) out.new result }
{
    let left = beside_digit(width);
    let last = [last_digit(n)];
    if n < 10 {
        return put_padded(out, at, left, &last);
    }
    let to = put_aligned(out, at, left, n / 10);
    put_padded(out, to, 0, &last)
}

// The counts of a line, and LF.
fn put_counts(out: &mut [u8], at: usize, s: Sums) -> usize
    requires { (at + length (count_columns s) ≤ length out.old) × Small s }
    ensures { Wrote out.old at (count_columns s) out.new result }
{
    let a = put_aligned(out, at, COUNT_WIDTH, s.clear);
    let b = put_aligned(out, a, COUNT_WIDTH, s.race);
    let c = put_aligned(out, b, COUNT_WIDTH, s.doubt);
    let d = put_aligned(out, c, COUNT_WIDTH, s.all());
    put_padded(out, d, 0, b"\n")
}

// The line of a variable, if it was accessed.
fn put_variable(out: &mut [u8], at: usize, v: u32, t: Totals) -> usize
    requires { at + line ≤ length out.old }
    ensures { Wrote out.old at (variable_line v t) out.new result × (result ≤ at + line) }
{
    let s = Sums::default().with(t);
    if s.all() == 0 {
        return at;
    }
    let a = put_aligned(out, at, NAME_WIDTH, v as u64);
    put_counts(out, a, s)
}

// The place after what was written, and the sums.
#[derive(Clone, Copy)]
struct WroteSums {
    to: usize,
    sums: Sums,
}

// The lines of all variables that were accessed.
fn put_variables(out: &mut [u8], at: usize, control: &Control) -> WroteSums
    requires { at + variables * line ≤ length out.old }
    ensures { Wrote out.old at (lines_below control.now variables) out.new result.to
        × (result.to ≤ at + variables * line) × (result.sums ≡ sums_below control.now variables) × Small result.sums }
{
    let mut to = at;
    let mut sums = Sums::default();
    for v in 0..VARIABLES {
        // There are totals of each number below that of variables.
        let t = totals_of(control, v).unwrap();
        to = put_variable(out, to, v, t);
        sums = sums.with(t);
    }
    WroteSums { to, sums }
}

// The whole table.
fn put_table(out: &mut [u8], control: &Control) -> usize
    requires { room ≤ length out.old }
    ensures { Wrote out.old 0 (table_of control.now) out.new result × (result ≤ room) }
{
    let a = put_padded(out, 0, 0, b"var   clear    race   doubt     all\n");
    let b = put_variables(out, a, control);
    let c = put_padded(out, b.to, 0, b"all");
    put_counts(out, c, b.sums)
}

// How many takes were skipped, where the recording is under the profile.
fn put_skipped(out: &mut [u8], at: usize, control: &Control) -> usize
    requires { at + line ≤ length out.old }
    ensures { Wrote out.old at (skipped_line control.now) out.new result × (result ≤ at + line) }
{
    if !is_under(control) {
        return at;
    }
    let a = put_padded(out, at, 0, b"skipped");
    let b = put_aligned(out, a, 0, skipped(control) as u64);
    put_padded(out, b, 0, b"\n")
}

// The table with the line of skipped takes, and an empty line after it where it is one of several.
pub(crate) fn put_shown(out: &mut [u8], control: &Control, several: bool) -> usize
    requires { room + line < length out.old }
    ensures { Wrote out.old 0 (shown_of several control.now) out.new result × IsPrefixLen result out.new }
{
    let table = put_table(out, control);
    let n = put_skipped(out, table, control);
    if !several {
        return n;
    }
    put_padded(out, n, 0, b"\n")
}
