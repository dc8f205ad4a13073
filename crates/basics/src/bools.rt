// A choice with no branch. Tests that are joined by `&` and `|` leave none either, where `&&` and `||` may.
ghost use Rattle.std.specs.Prelude.{◌≡◌, cond};

// The one value or the other, by a conditional move where an `if` would be a branch.
pub fn picked<T: Copy>(first: bool, one: T, other: T) -> T
    ensures { result ≡ cond first one other }
{
    if first { one } else { other }
}
