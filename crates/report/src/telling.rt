// What the report says of an access's verdict: its word, and its partner.
ghost use Rattle.std.specs.Prelude.{ℕ, ◌≤◌, ◌≡◌, ◌++◌, get_or};
ghost use Rattle.text.specs.Printing.{bytes};
ghost use Rattle.theory.specs.declared.record.Record.{Record};
ghost use Rattle.theory.specs.feeding.Meaning.{meaning};
ghost use Rattle.theory.specs.feeding.Step.{answer_numbers};
ghost use Rattle.requests.specs.entries.Table.{tables_excuse};
ghost use Rattle.text.specs.ReportLines.{report_line, race_word, excused_for, partner_in};
ghost use Rattle.text.specs.Bytes.{little};
ghost use Rattle.text.specs.Words.{Opens};
ghost use Rattle.report.specs.Verdicts.{TellsVerdict};

use checker::excuse;
use reading::little_endian;
use requests::Excuse;
use std::hint::select_unpredictable;
use theory::{Answer, Clocks, Control, ENTRIES, History, Record};

// What an accepted access's line says of its verdict: the access's record number, `=` and the verdict's word as eight bytes, how many of them these are,
// and the partner's record number. A word and a count, and no slice: the eight bytes are one store, and what follows is written over the rest.
#[derive(Clone, Copy)]
pub(crate) struct VerdictTold {
    pub(crate) number: u32,
    pub(crate) word: u64,
    pub(crate) len: usize,
    pub(crate) partner: u32,
}

// The cases of an answer that are looked for, as they are numbered for a host in C: by a number, since a `match` on the case is a branch.
const RACE: u32 = 3;

const DOUBT: u32 = 4;

// Which case an answer is, as a number: the first of the three that it comes to for a host in C. One function that gives all three was tried: 351.5
// instructions a record in place of 345.2 (callgrind).
fn case_of(a: Answer) -> u32
    ensures { result ≡ get_or (answer_numbers a) 0 0 }
{
    match a {
        Answer::Refused(_) => 0,
        Answer::Accepted(_) => 1,
        Answer::Clear(_) => 2,
        Answer::Race(_, _) => RACE,
        Answer::Doubt(_, _) => DOUBT,
    }
}

// The second: the number of the refusal, or of the record.
fn number_of(a: Answer) -> u32
    ensures { result ≡ get_or (answer_numbers a) 1 0 }
{
    match a {
        Answer::Refused(row) => row as u32,
        Answer::Accepted(n) => n.0,
        Answer::Clear(n) => n.0,
        Answer::Race(n, _) => n.0,
        Answer::Doubt(n, _) => n.0,
    }
}

// The third: the partner's record number, 0 where there is none.
fn partner_of(a: Answer) -> u32
    ensures { result ≡ get_or (answer_numbers a) 2 0 }
{
    match a {
        Answer::Refused(_) => 0,
        Answer::Accepted(_) => 0,
        Answer::Clear(_) => 0,
        Answer::Race(_, w) => w.0,
        Answer::Doubt(_, w) => w.0,
    }
}

fn told_by_word(number: u32, word: &[u8; 8], len: usize, partner: u32) -> VerdictTold
    ensures { result ≡ record { number = number; word = little word.now; len = len; partner = partner } }
{
    VerdictTold {
        number,
        word: little_endian(word),
        len,
        partner,
    }
}

// A Race as it is excused.
fn told_race(number: u32, x: Excuse) -> VerdictTold
    ensures { (result.number ≡ number) × Opens (bytes "=" ++ race_word x.known) result.word result.len × (result.partner ≡ x.partner.0) }
{
    if x.known {
        return told_by_word(number, b"=known  ", 6, x.partner.0);
    }
    told_by_word(number, b"=race   ", 5, x.partner.0)
}

// The verdict of an access, by document 01. The compiler makes no branch of it, as it does of a `match` that tells each verdict's word: which verdict
// an access gets is as good as random, so that a branch on it is guessed wrong often.
fn told_plain(a: Answer) -> VerdictTold
    requires { 2 ≤ get_or (answer_numbers a) 0 0 }
    ensures { (line : ℕ) (r : Record) → TellsVerdict (report_line line r a) r.task r.on result }
{
    let case = case_of(a);
    let race = case == RACE;
    let other = select_unpredictable(
        case == DOUBT,
        little_endian(b"=doubt  "),
        little_endian(b"=clear  "),
    );
    VerdictTold {
        number: number_of(a),
        word: select_unpredictable(race, little_endian(b"=race   "), other),
        len: select_unpredictable(race, 5, 6),
        partner: partner_of(a),
    }
}

// The same with a Race as it is excused; where no entry was taken in, none is, and no verdict needs to be looked for.
pub(crate) fn told_answer(
    r: Record,
    a: Answer,
    control: &Control,
    last: &History,
    fullclocks: &Clocks,
) -> VerdictTold
    requires { 2 ≤ get_or (answer_numbers a) 0 0 }
    ensures { let excused = tables_excuse control.now last.now fullclocks.now r (partner_in (meaning a)) in
        ((line : ℕ) → TellsVerdict (excused_for line r excused (meaning a)) r.task r.on result) }
{
    if control[ENTRIES] == 0 {
        return told_plain(a);
    }
    let Answer::Race(number, partner) = a else {
        return told_plain(a);
    };
    told_race(number.0, excuse(control, last, fullclocks, r, partner))
}
