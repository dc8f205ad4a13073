// Numbers in base ten: 1 to 5 digits and no needless leading zero.
ghost use Rattle.std.specs.Prelude.{◌≡◌, ◌≤◌, ◌<◌, length};
ghost use Rattle.text.specs.EntryForm.{record_wide, read_record_number};
ghost use Rattle.text.specs.LineForm.{is_plain, read_digits, read_decimal};
ghost use Rattle.text.specs.Printing.{record_digits};

pub const DIGITS: usize = 5;

// So many digits has a record number, leading zeros included, and so many it may have in an entry instead.
const RECORD_DIGITS: usize = 7;

const FEWER_DIGITS: usize = 5;

// 1 to 5 bytes, of which the first is `0` only where it is alone.
#[tactic(auto, unfolding(text::specs::LineForm::is_plain))]
fn is_plain(s: &[u8]) -> bool
    ensures { result ≡ is_plain s.now }
{
    match s {
        [] => false,
        [_] => true,
        [first, ..] => s.len() <= DIGITS && *first != b'0',
    }
}

// The number that is read from digits.
fn read_digits(s: &[u8]) -> Option<u32>
    requires { length s.now ≤ record_digits }
    ensures { result ≡ read_digits 0 s.now }
{
    let mut v = 0;
    for b in s {
        if !b.is_ascii_digit() {
            return None;
        }
        v = v * 10 + u32::from(*b - b'0');
    }
    Some(v)
}

// What one or two bytes say as a decimal: the first counts ten times where it is not the last, and the number is then at least ten. There is
// no branch on how many they are.
pub(crate) fn read_short(s: &[u8]) -> Option<u32>
    requires { (0 < length s.now) × (length s.now ≤ 2) }
    ensures { result ≡ read_decimal s.now }
{
    let first = s[0];
    let last = s[s.len() - 1];
    if !first.is_ascii_digit() {
        return None;
    }
    if !last.is_ascii_digit() {
        return None;
    }
    let least = (s.len() - 1) as u32 * 10;
    let v = least * u32::from(first - b'0') + u32::from(last - b'0');
    if v < least {
        return None;
    }
    Some(v)
}

// What a part of a line says as a decimal.
pub fn read_decimal(s: &[u8]) -> Option<u32>
    ensures { result ≡ read_decimal s.now }
{
    if is_plain(s) { read_digits(s) } else { None }
}

// A record number may have so many digits.
#[tactic(auto, unfolding(text::specs::EntryForm::record_wide))]
fn record_wide(k: usize) -> bool
    ensures { result ≡ record_wide k }
{
    k == FEWER_DIGITS || k == RECORD_DIGITS
}

// What a part of a line says as a record number.
pub(crate) fn read_record_number(s: &[u8]) -> Option<u32>
    ensures { result ≡ read_record_number s.now }
{
    if record_wide(s.len()) {
        read_digits(s)
    } else {
        None
    }
}
