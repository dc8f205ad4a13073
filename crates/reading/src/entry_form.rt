// A line as an entry of the faults already accepted: `rec=DDDDDDD var=V low=A high=B mark=accepted`, or `.. mark=open`.
ghost use Rattle.std.specs.Prelude.{◌≡◌};
ghost use Rattle.text.specs.EntryForm.{after_spaces, word_after, record_field, in_range, within_range, marked_entry, entry_of};
ghost use Rattle.text.specs.LineForm.{field_of};

use crate::decimal::read_record_number;
use crate::parsing::past;
use crate::scan::place_of;
use crate::words::{SPACE, field};
use text::Entry;
use theory::{RECORDS, TASKS, VARIABLES};

// What follows the first k spaces; nothing where there are fewer.
fn after_spaces(line: &[u8], k: usize) -> &[u8]
    ensures { result.now ≡ after_spaces k line.now }
{
    let mut at = 0;
    for _space in 0..k {
        at = past(line, place_of(line, at, SPACE));
    }
    &line[at..]
}

// The word that begins there.
fn word_after(line: &[u8], k: usize) -> &[u8]
    ensures { result.now ≡ word_after k line.now }
{
    let rest = after_spaces(line, k);
    &rest[..place_of(rest, 0, SPACE)]
}

// The number of the field that is the word after k spaces.
fn word_field(line: &[u8], k: usize, name: &[u8]) -> Option<u32>
    ensures { result ≡ field_of name.now (word_after k line.now) }
{
    field(name, word_after(line, k))
}

// The number of a field `rec=DDDDD` or `rec=DDDDDDD`.
fn record_number(s: &[u8]) -> Option<u32>
    ensures { result ≡ record_field s.now }
{
    read_record_number(s.strip_prefix(b"rec=")?)
}

// The numbers of an entry are within their ranges.
#[tactic(auto, unfolding(text::specs::EntryForm::in_range))]
fn in_range(e: Entry) -> bool
    ensures { result ≡ in_range e }
{
    0 < e.rec && e.rec <= RECORDS && e.var < VARIABLES && e.low < e.high && e.high < TASKS
}

// An entry, if its numbers are within their ranges.
#[tactic(auto, unfolding(text::specs::EntryForm::within_range))]
fn within_range(e: Entry) -> Option<Entry>
    ensures { result ≡ within_range e }
{
    in_range(e).then_some(e)
}

// The entry of four numbers and the last word, `mark=accepted` or `mark=open`.
fn marked_entry(rec: u32, var: u32, low: u32, high: u32, mark: &[u8]) -> Option<Entry>
    ensures { result ≡ marked_entry rec var low high mark.now }
{
    let accepted = mark == b"mark=accepted".as_slice();
    let open = mark == b"mark=open".as_slice();
    if accepted || open {
        return within_range(Entry {
            rec,
            var,
            low,
            high,
            accepted,
        });
    }
    None
}

// What a line says as an entry.
pub fn parse_entry(line: &[u8]) -> Option<Entry>
    ensures { result ≡ entry_of line.now }
{
    let rec = record_number(word_after(line, 0))?;
    let var = word_field(line, 1, b"var=")?;
    let low = word_field(line, 2, b"low=")?;
    let high = word_field(line, 3, b"high=")?;
    marked_entry(rec, var, low, high, after_spaces(line, 4))
}
