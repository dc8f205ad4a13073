// Where a byte stands, and the lines of a text: each is ended by LF, and a non-empty rest without LF is a line too.
ghost use Rattle.std.specs.Prelude.{◌≡◌, cond, ◌+◌, ◌-◌, ◌≤◌, ◌<◌, eqb, ◌==◌, length, drop};
ghost use Rattle.std.specs.List.{position};
ghost use Rattle.text.specs.Bytes.{index_of};
ghost use Rattle.text.specs.Lines.{line_end, lines_of, lf_bit, lf_count};
ghost use Rattle.text.specs.Reading.{line_at, place_after};

pub const LF: u8 = b'\n';

fn one_if_lf(b: u8) -> u8
    ensures { (result ≡ lf_bit b) × (result ≤ 1) }
{
    u8::from(b == LF)
}

// The first place of b.
fn position(part: &[u8], b: u8) -> Option<usize>
    ensures { result ≡ position (λ x. x == b) part.now }
{
    part.iter().position(|x| *x == b)
}

// Where the first b stands, from a place on; the length where there is none. Byte by byte.
fn place_in(text: &[u8], from: usize, b: u8) -> usize
    requires { from ≤ length text.now }
    ensures { (result ≡ from + index_of b (drop from text.now)) × (result ≤ length text.now) }
{
    let rest = &text[from..];
    from + position(rest, b).unwrap_or(rest.len())
}

fn still(other: usize, x: u8, b: u8) -> usize
    ensures { (result ≡ cond (eqb x b) 0 other) × (result ≤ other) }
{
    if x == b { 0 } else { other }
}

// Where the first b stands in a part; its length where there is none. There is no branch on a byte.
fn index_in(part: &[u8], b: u8) -> usize
    ensures { result ≡ index_of b part.now }
{
    let mut other = 1;
    let mut n = 0;
    for x in part {
        other = still(other, *x, b);
        n += other;
    }
    n
}

// Where the first b stands, from a place on; the length where there is none. Most lines are from sixteen to twenty-three bytes long.
pub(crate) fn place_of(text: &[u8], from: usize, b: u8) -> usize
    requires { from ≤ length text.now }
    ensures { (result ≡ from + index_of b (drop from text.now)) × (result ≤ length text.now) }
{
    if text.len() - from < 24 {
        return place_in(text, from, b);
    }
    if text[from..from + 16].contains(&b) {
        return place_in(text, from, b);
    }
    let n = index_in(&text[from + 16..from + 24], b);
    if n < 8 {
        return from + 16 + n;
    }
    place_in(text, from + 24, b)
}

// Where the first line of a text ends: its LF, or the end of the text.
pub fn line_end(text: &[u8]) -> usize
    ensures { result ≡ line_end text.now }
{
    place_of(text, 0, LF)
}

// How many LFs a part has. A byte is enough for the count, so that the compiler takes sixteen of them at a time.
fn lfs_in(part: &[u8]) -> u8
    requires { length part.now ≤ 64 }
    ensures { (result ≡ lf_count part.now) × (result ≤ length part.now) }
{
    let mut n = 0;
    for b in part {
        n += one_if_lf(*b);
    }
    n
}

// How many LFs a text has.
fn lfs(text: &[u8]) -> usize
    ensures { result ≡ lf_count text.now }
{
    let (parts, rest) = text.as_chunks::<64>();
    let mut n = 0;
    for part in parts {
        n += usize::from(lfs_in(part));
    }
    n + usize::from(lfs_in(rest))
}

// How many lines a text has: each LF ends one, and a rest after the last LF is one.
pub fn line_count(text: &[u8]) -> usize
    ensures { result ≡ length (lines_of text.now) }
{
    match text.last() {
        None => 0,
        Some(&LF) => lfs(text),
        Some(_) => lfs(text) + 1,
    }
}

// The line that begins at a place, without its LF: a part of the text. From the end of the text on it is empty.
pub(crate) fn line_at(text: &[u8], at: usize) -> &[u8]
    ensures { result.now ≡ line_at text.now at }
{
    let at = at.min(text.len());
    &text[at..place_of(text, at, LF)]
}

// The place after n bytes from a place on and the byte that ends them, or the end of the text.
pub(crate) fn place_after(text: &[u8], at: usize, n: usize) -> usize
    ensures { result ≡ place_after text.now at n }
{
    at.saturating_add(n).saturating_add(1).min(text.len())
}
