// What the program is asked by its argument: a table after every so many accepted records.
ghost use Rattle.std.specs.Prelude.{◌≡◌};
ghost use Rattle.totals.specs.Argument.{every_of};

use input::argument;
use reading::{DIGITS, read_decimal};
use std::rt::Env;

// After so many accepted records each a table is asked for; none where the word is no number of the text form above 0.
fn every_of(word: &[u8]) -> Option<u32>
    ensures { result ≡ every_of word.now }
{
    match read_decimal(word) {
        Some(every) if every != 0 => Some(every),
        _ => None,
    }
}

// The same of the program's argument.
pub(crate) fn asked_every<R: Env>(rt: &R) -> Option<u32> {
    let mut word = [0u8; DIGITS];
    let n = argument(rt, 1, &mut word)?;
    every_of(&word[..n])
}
