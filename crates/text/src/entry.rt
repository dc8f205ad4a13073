// What a line of the file of accepted faults says: the record where the fault was seen, its variable and the two tasks, and whether the planner
// has accepted it or has opened it again.
#[derive(Clone, Copy)]
pub struct Entry {
    pub rec: u32,
    pub var: u32,
    pub low: u32,
    pub high: u32,
    pub accepted: bool,
}
