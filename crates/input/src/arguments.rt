// The words that a program is started with, behind its name.
ghost use Rattle.std.specs.Prelude.{IfSome};
ghost use Rattle.input.specs.Prefix.{IsPrefixLen};

use std::env::FillError;
use std::rt::Env;

// There is an argument of this number, from 1.
pub fn is_given<R: Env>(rt: &R, i: usize) -> bool {
    !matches!(rt.arg(i, &mut []), Err(FillError::NotPresent))
}

// Puts an argument at the start of `word`, and says how long it is; none where it does not fit there, as where it is not given.
pub fn argument<R: Env>(rt: &R, i: usize, word: &mut [u8]) -> Option<usize>
    ensures { IfSome result (λ n. IsPrefixLen n word.new) }
{
    rt.arg(i, word).ok()
}
