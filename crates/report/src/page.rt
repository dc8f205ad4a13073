// Memory that a report is written into, with the next place in it: a page is made for each line. The functions over lines and pieces are lent the memory
// and take and return the place by itself, as C does (`at` of order_piece and order_entries).
ghost use Rattle.std.specs.Prelude.{◌+◌, ◌*◌, ◌/◌, ◌<◌, ◌≤◌, ◌≡◌, cond, [], ◌∷◌, ◌++◌, ltb, length};
ghost use Rattle.text.specs.Printing.{bytes, last_digit, decimal, record_text};
ghost use Rattle.text.specs.Wrote.{Wrote};
ghost use Rattle.report.specs.Pages.{HasRoom, Put};

#[derive(Drop)]
pub(crate) struct Page<'a> {
    pub(crate) out: &'a mut [u8],
    pub(crate) at: usize,
}

// The byte of a number's last digit.
pub fn last_digit(n: u64) -> u8
    ensures { result ≡ last_digit n }
{
    (n % 10) as u8 + b'0'
}

// How many digits a number below 100 has before its last.
fn before_last(n: u64) -> usize
    ensures { result ≡ cond (ltb n 10) 0 1 }
{
    usize::from(n >= 10)
}

// A number without leading zeros: the digits of its tenth, if it has one, and the last. It is lent the memory and not the page, so that a page stays in
// registers.
fn put_long(out: &mut [u8], at: usize, n: u64) -> usize
    requires { at + length (decimal n) ≤ length out.old }
    ensures { Wrote out.old at (decimal n) out.new result }
{
    if n < 10 {
        out[at] = last_digit(n);
        return at + 1;
    }
    let last = put_long(out, at, n / 10);
    out[last] = last_digit(n);
    last + 1
}

// The bytes as they are. Not `copy_from_slice`: it asks at each call whether the two overlap, 353.0 instructions a record in place of 346.2 (callgrind).
// It is lent the memory and not a page, so that the compiler makes one store of a word's bytes.
pub(crate) fn put_over(out: &mut [u8], at: usize, bytes: &[u8]) -> usize
    requires { at + length bytes.now ≤ length out.old }
    ensures { Wrote out.old at bytes.now out.new result }
{
    for (i, b) in bytes.iter().enumerate() {
        out[at + i] = *b;
    }
    at + bytes.len()
}

impl<'a> Page<'a> {
    // The bytes as they are.
    pub(crate) fn put_bytes(&mut self, bytes: &[u8])
        requires { HasRoom self.old bytes.now }
        ensures { Put self.old bytes.now self.new }
    {
        self.at = put_over(self.out, self.at, bytes);
    }

    // The last digit of a number.
    fn put_digit(&mut self, n: u64)
        requires { HasRoom self.old (last_digit n ∷ []) }
        ensures { Put self.old (last_digit n ∷ []) self.new }
    {
        self.out[self.at] = last_digit(n);
        self.at += 1;
    }

    // A number below 100, without a branch on how many digits it has: the last is written over the other where that would be a leading zero.
    fn put_short(&mut self, n: u64)
        requires { (n < 100) × HasRoom self.old (decimal n) }
        ensures { Put self.old (decimal n) self.new }
    {
        let last = self.at + before_last(n);
        self.put_digit(n / 10);
        self.at = last;
        self.put_digit(n);
    }

    // A number without leading zeros.
    pub(crate) fn put_decimal(&mut self, n: u64)
        requires { HasRoom self.old (decimal n) }
        ensures { Put self.old (decimal n) self.new }
    {
        if n < 100 {
            self.put_short(n);
        } else {
            self.at = put_long(self.out, self.at, n);
        }
    }

    // The last digit of a number whose tenth is at hand: no other division is needed for it.
    fn put_last(&mut self, n: u32, tenth: u32)
        requires { HasRoom self.old (last_digit n ∷ []) × (tenth ≡ n / 10) }
        ensures { Put self.old (last_digit n ∷ []) self.new }
    {
        self.out[self.at] = (n - tenth * 10) as u8 + b'0';
        self.at += 1;
    }

    // A record number, leading zeros included.
    #[tactic(auto, unfolding(text::specs::Printing::last_digits))]
    fn put_record(&mut self, n: u32)
        requires { HasRoom self.old (record_text n) }
        ensures { Put self.old (record_text n) self.new }
    {
        self.put_last(n / 1_000_000, n / 10_000_000);
        self.put_last(n / 100_000, n / 1_000_000);
        self.put_last(n / 10_000, n / 100_000);
        self.put_last(n / 1000, n / 10_000);
        self.put_last(n / 100, n / 1000);
        self.put_last(n / 10, n / 100);
        self.put_last(n, n / 10);
    }

    // The same after its `=`.
    pub(crate) fn put_plain_number(&mut self, n: u32)
        requires { HasRoom self.old (bytes "=" ++ record_text n) }
        ensures { Put self.old (bytes "=" ++ record_text n) self.new }
    {
        self.put_bytes(b"=");
        self.put_record(n);
    }
}
