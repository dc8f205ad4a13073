// How many accesses were answered by each verdict, of one variable or of several.
ghost use Rattle.std.specs.Prelude.{◌≡◌};
ghost use Rattle.totals.specs.Table.{Small, added, all_of};

use theory::Totals;

// That they are small is no ghost field: each record that specs/Table.antt computes with would have one too, and sums of small sums need not be small.
#[derive(Clone, Copy, Default)]
pub(crate) struct Sums {
    pub clear: u64,
    pub race: u64,
    pub doubt: u64,
}

impl Sums {
    // With those of one variable more.
    pub(crate) fn with(self, t: Totals) -> Sums
        requires { Small self }
        ensures { result ≡ added self t }
    {
        Sums {
            clear: self.clear + u64::from(t.clear),
            race: self.race + u64::from(t.race),
            doubt: self.doubt + u64::from(t.doubt),
        }
    }

    // All of them together.
    pub(crate) fn all(self) -> u64
        requires { Small self }
        ensures { result ≡ all_of self }
    {
        self.clear + self.race + self.doubt
    }
}
