// How far a text is answered: the lines so far, how many bytes are held of the line that has begun, and the next place in the report.
#[derive(Clone, Copy)]
pub struct Progress {
    pub lines: u64,
    pub held: usize,
    pub at: usize,
}
