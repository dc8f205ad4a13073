// The tasks that are apart from an access, as masks, and the verdict that they make.
ghost use Rattle.std.specs.Prelude.{◌≡◌, cond, ◌||◌, ◌<◌, ◌+◌, ◌*◌, ◌%◌, ◌^◌};
ghost use Rattle.theory.specs.order.Limits.{tasks};
ghost use Rattle.theory.specs.basics.Turns.{indicator};
ghost use Rattle.theory.specs.feeding.Step.{answer_by_masks};
ghost use Rattle.theory.proofs.tables.Bits.{Halved};

use crate::access::AccessInRange;
use crate::history::latest_number;
use basics::{MASKS, lower_half, lowest, picked, weight};
use theory::{Answer, History, Masks, RecordNumber, Task};

// The lowest bit of a word and that of its upper half.
const TWICE: u32 = MASKS + 1;

// What task u adds to a mask that it is in or not: its bit, and again in the upper half of the word. A loop that gathers such weights by `|` is
// made vector code of; one of single bits, or of sums, is not. The lower half, each task's bit once, is taken outside that loop, whose function is called
// twice and so stays a function: else the compiler drops the upper half from the weights, and makes no vector code.
pub(crate) fn added_weight(b: bool, u: Task) -> u32
    requires { u.0 < tasks }
    ensures { result ≡ indicator b * (2 ^ u.0 * 2 ^ tasks + 2 ^ u.0) }
{
    if b { weight(u.0) * TWICE } else { 0 }
}

// The masks of an access as words: the lower half of each is the mask, and the word is 0 only where that is.
#[derive(Clone, Copy)]
pub(crate) struct Words {
    pub(crate) full: u32,
    pub(crate) arrived: u32,
}

impl From<Masks> for Words {
    fn from(masks: Masks) -> Words
        ensures { (result.full ≡ masks.full) × (result.arrived ≡ masks.arrived) }
    {
        Words {
            full: masks.full as u32,
            arrived: masks.arrived as u32,
        }
    }
}

fn race_or_doubt(race: bool, number: RecordNumber, partner: RecordNumber) -> Answer
    ensures { result ≡ cond race (Answer.Race number partner) (Answer.Doubt number partner) }
{
    if race {
        return Answer::Race(number, partner);
    }
    Answer::Doubt(number, partner)
}

// Two functions and not one: where all three verdicts are made in one, the compiler branches on which it is.
fn answer_by(race: bool, doubt: bool, number: RecordNumber, partner: RecordNumber) -> Answer
    ensures { result ≡ cond (race || doubt) (cond race (Answer.Race number partner) (Answer.Doubt number partner)) (Answer.Clear number) }
{
    if race | doubt {
        return race_or_doubt(race, number, partner);
    }
    Answer::Clear(number)
}

// The answer to an accepted access. Its partner is looked up whatever the verdict is, so that no branch on the one decides about the other.
pub(crate) fn judged(
    last: &History,
    access: AccessInRange,
    number: RecordNumber,
    words: Words,
) -> Answer
    requires { Halved words.full × Halved words.arrived }
    ensures { result ≡ answer_by_masks last.now access.kind access.variable.0 number.0 (words.full % 2 ^ tasks) (words.arrived % 2 ^ tasks) }
{
    let race = words.full != 0;
    let mask = picked(race, lower_half(words.full), lower_half(words.arrived));
    let partner = latest_number(last, access, lowest(mask));
    answer_by(race, words.arrived != 0, number, partner)
}
