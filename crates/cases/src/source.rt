// Where the records of a run come from, and how its answers are told.
use crate::full::{ROW_5, STARTS, row_5, starts, tell_row_5};
use crate::telling::{tell, tell_numbered};
use crate::text;
use theory::{Answer, Record};

// The records of a text, told without their numbers or with them; one record; the recordings of full.rt. Cases and no trait: each goes three ways, and
// no other comes from outside.
#[derive(Clone, Copy)]
pub(crate) enum Source<'a> {
    Text(&'a [u8]),
    Numbered(&'a [u8]),
    One(Record),
    Starts,
    Row5,
}

impl<'a> Source<'a> {
    pub(crate) fn count(self) -> usize {
        match self {
            Source::Text(text) | Source::Numbered(text) => text::count(text),
            Source::One(_) => 1,
            Source::Starts => STARTS,
            Source::Row5 => ROW_5,
        }
    }

    pub(crate) fn nth(self, n: usize) -> Record {
        match self {
            Source::Text(text) | Source::Numbered(text) => text::nth(text, n),
            Source::One(r) => r,
            Source::Starts => starts(n),
            Source::Row5 => row_5(n),
        }
    }

    // Prints the answer to the n-th record as its source wants it.
    pub(crate) fn tell(self, rt: &impl Print, n: usize, a: Answer) {
        match self {
            Source::Numbered(_) => tell_numbered(rt, a),
            Source::Row5 => tell_row_5(rt, n, a),
            _ => tell(rt, a),
        }
    }
}
