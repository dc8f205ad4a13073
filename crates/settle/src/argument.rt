// The home set that the arguments name.
ghost use Rattle.std.specs.Prelude.{◌≡◌};
ghost use Rattle.settle.specs.Argument.{bit_of, task_in, says_none};

use input::{argument, is_given};
use reading::{DIGITS, read_decimal};
use std::rt::Env;
use theory::TASKS;

// The bit of a task, none for what is no task.
fn bit_of(t: u32) -> Option<u16>
    ensures { result ≡ bit_of t }
{
    if t < TASKS { Some(1 << t) } else { None }
}

// The bit of the task that a word names.
fn task_in(word: &[u8]) -> Option<u16>
    ensures { result ≡ task_in word.now }
{
    bit_of(read_decimal(word)?)
}

// The word is `none`.
fn says_none(w: &[u8]) -> bool
    ensures { result ≡ says_none w.now }
{
    w == b"none".as_slice()
}

// The bit of the task that an argument names.
fn task_at<R: Env>(rt: &R, i: usize) -> Option<u16> {
    let mut word = [0u8; DIGITS];
    let n = argument(rt, i, &mut word)?;
    task_in(&word[..n])
}

// The word `none` is the only argument.
fn none_alone<R: Env>(rt: &R) -> bool {
    let mut word = [0u8; DIGITS];
    let Some(n) = argument(rt, 1, &mut word) else {
        return false;
    };
    !is_given(rt, 2) && says_none(&word[..n])
}

// The set of the tasks that the arguments name; none where one of them names no task.
pub(crate) fn home_of<R: Env>(rt: &R) -> Option<u16> {
    let mut home = 0;
    if none_alone(rt) {
        return Some(home);
    }
    // Nothing says how many arguments there are.
    for i in 1..usize::MAX {
        if !is_given(rt, i) {
            break;
        }
        home |= task_at(rt, i)?;
    }
    Some(home)
}
