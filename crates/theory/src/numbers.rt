// One type for each series of numbers, so that a number of one is never taken for a number of another. A record that is fed has bare
// numbers, of any size. Once it is accepted its kind says which series each is of: there it is wrapped, and goes so through the step.
#[derive(Clone, Copy)]
pub struct Task(pub u32);

#[derive(Clone, Copy)]
pub struct Semaphore(pub u32);

#[derive(Clone, Copy)]
pub struct Flag(pub u32);

#[derive(Clone, Copy)]
pub struct Variable(pub u32);

// The number of an accepted record, counted from 1; 0 is no record. No Option: the cells that a host in C lends hold it, and are 0 at first.
#[derive(Clone, Copy)]
pub struct RecordNumber(pub u32);
