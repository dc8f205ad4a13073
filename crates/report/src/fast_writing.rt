// Words of eight bytes, which the compiler stores whole: record numbers are most of what a report has, and their digits come about all at once.
ghost use Rattle.std.specs.Prelude.{◌+◌, ◌^◌, ◌<◌, ◌≡◌, ◌++◌};
ghost use Rattle.text.specs.Printing.{bytes, record_digits, record_text};
ghost use Rattle.text.specs.Words.{little_bytes, digit_pairs, number_word};
ghost use Rattle.report.specs.Pages.{HasRoom, Put};

use crate::page::Page;
use reading::little_endian;

// The first number that a record number's digits do not hold: ten to the power RECORD_DIGITS, written out, as constants have no powers. With a
// greater one `put_number` does not meet what `number_word` requires, which is said by `record_digits`.
const TOO_LONG: u32 = 10_000_000;

// The digits of a number in four pairs, 16 bits for each. Both halves of four digits are divided by 100 at once, as a product that leaves each its room.
fn in_pairs(n: u64) -> u64
    requires { n < 10 ^ record_digits }
    ensures { result ≡ digit_pairs n }
{
    let halves = n / 10_000 + n % 10_000 * 4_294_967_296;
    let q = halves * 5243 / 524_288;
    let hundreds = q % 128 + q / 4_294_967_296 % 128 * 4_294_967_296;
    halves * 65_536 - hundreds * 6_553_599
}

// `=` and the seven digits of a number. All four pairs are divided by 10 at once.
fn number_word(n: u64) -> u64
    requires { n < 10 ^ record_digits }
    ensures { result ≡ number_word n }
{
    let pairs = in_pairs(n);
    let q = pairs * 103 / 1024;
    let tens = q % 16
        + q / 65_536 % 16 * 65_536
        + q / 4_294_967_296 % 16 * 4_294_967_296
        + q / 281_474_976_710_656 % 16 * 281_474_976_710_656;
    pairs * 256 + little_endian(b"=0000000") - tens * 2559
}

impl<'a> Page<'a> {
    // The bytes of a number, the first counting least.
    #[tactic(auto, unfolding(text::specs::Words::little_bytes))]
    pub(crate) fn put_eight(&mut self, w: u64)
        requires { HasRoom self.old (little_bytes 8 w) }
        ensures { Put self.old (little_bytes 8 w) self.new }
    {
        self.put_bytes(&w.to_le_bytes());
    }

    // A record number after its `=`, leading zeros included. Made part of its caller, so that a page stays in registers: else 397.4 instructions a record
    // in place of 356.5 (callgrind).
    #[tactic(auto, unfolding(text::specs::Printing::last_digits, text::specs::Words::little_bytes))]
    #[inline(always)]
    pub(crate) fn put_number(&mut self, n: u32)
        requires { HasRoom self.old (bytes "=" ++ record_text n) }
        ensures { Put self.old (bytes "=" ++ record_text n) self.new }
    {
        if n < TOO_LONG {
            self.put_eight(number_word(n as u64));
        } else {
            self.put_plain_number(n);
        }
    }
}
