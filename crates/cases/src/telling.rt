// What is printed of an answer: a line each. The types are of other crates, so that none of them has a Display of its own here.
use requests::{Excuse, Pairs};
use theory::{Answer, Masks, RecordNumber, Refusal};

pub(crate) fn line(rt: &impl Print, text: &str) {
    let _ = println!(rt; "{text}");
}

pub(crate) fn tell_pairs(rt: &impl Print, told: Result<Pairs, Refusal>) {
    let _ = match told {
        Ok(p) => println!(rt; "pairs {}\npaths {}\nwalked {}", p.pairs, p.paths, p.walked),
        Err(row) => println!(rt; "refused {}", row as u32),
    };
}

pub(crate) fn tell(rt: &impl Print, a: Answer) {
    let _ = match a {
        Answer::Refused(row) => println!(rt; "refused {}", row as u32),
        Answer::Accepted(_) => println!(rt; "accepted"),
        Answer::Clear(_) => println!(rt; "clear"),
        Answer::Race(_, with) => println!(rt; "race {}", with.0),
        Answer::Doubt(_, with) => println!(rt; "doubt {}", with.0),
    };
}

// A refused record has no number.
fn number_of(a: Answer) -> Option<RecordNumber> {
    match a {
        Answer::Refused(_) => None,
        Answer::Accepted(n) | Answer::Clear(n) | Answer::Race(n, _) | Answer::Doubt(n, _) => Some(
            n,
        ),
    }
}

// The same after the record's own number.
pub(crate) fn tell_numbered(rt: &impl Print, a: Answer) {
    if let Some(n) = number_of(a) {
        let _ = print!(rt; "{} ", n.0);
    }
    tell(rt, a);
}

// What is known of a record before it is fed: the row that would refuse it, and the masks of tasks apart from it.
pub(crate) fn tell_asked(rt: &impl Print, told: Result<(), Refusal>, m: Masks) {
    let row = match told {
        Ok(()) => 0,
        Err(row) => row as u32,
    };
    let _ = println!(rt; "row {row} full {} arrived {}", m.full, m.arrived);
}

// How a Race is reported beside accepted faults.
pub(crate) fn tell_excuse(rt: &impl Print, e: Excuse) {
    let word = if e.known { "known" } else { "race" };
    let _ = println!(rt; "{word} {}", e.partner.0);
}
