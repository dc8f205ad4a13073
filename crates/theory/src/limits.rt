// How many numbers each series has, and how many records a recording takes: specs/order/Limits.antt has the same names.
pub const TASKS: u32 = 16;

pub const SEMAPHORES: u32 = 32;

pub const FLAGS: u32 = 32;

pub const VARIABLES: u32 = 64;

// The profiles that a recording can be put under.
pub const PROFILES: u32 = 1;

pub const RECORDS: u32 = 4_000_000;

// So many entries of accepted faults are taken in.
pub const ENTRIES_MOST: u32 = 200;
