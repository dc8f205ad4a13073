// The line reader: it holds the text that it was lent and how far it has read, and every line of a text comes through it.
ghost use Rattle.std.specs.Prelude.{◌≡◌};
ghost use Rattle.text.specs.LineForm.{parse_of};
ghost use Rattle.text.specs.Reading.{line_at, next_at};

use crate::short::line_taken;
use theory::Record;

#[derive(Clone, Copy)]
pub struct LineReader<'a> {
    text: &'a [u8],
    at: usize,
}

impl<'a> LineReader<'a> {
    // A reader of a text that has read up to a place.
    pub fn new(text: &'a [u8], at: usize) -> Self
        ensures { result ≡ record { text = text.entry; at = at } }
    {
        LineReader { text, at }
    }

    // What the next line says. The reader moves past it and its LF.
    pub fn next_record(&mut self) -> Option<Record>
        ensures { (result ≡ parse_of (line_at self.old.text.now self.old.at))
            × (self.new ≡ record { text = self.old.text; at = next_at self.old.text.now self.old.at }) }
    {
        let taken = line_taken(self.text, self.at);
        self.at = taken.next;
        taken.said
    }
}

// What the next line of a text says from a place on, by a reader that is set there. The place moves past the line and its LF.
pub fn read_record(text: &[u8], at: &mut usize) -> Option<Record>
    ensures { (result ≡ parse_of (line_at text.now at.old))
        × (at.new ≡ next_at text.now at.old) }
{
    let mut reader = LineReader::new(text, *at);
    let said = reader.next_record();
    *at = reader.at;
    said
}
