// How many accesses of a variable were answered by each verdict.
#[derive(Clone, Copy)]
pub struct Totals {
    pub clear: u32,
    pub race: u32,
    pub doubt: u32,
}
