// The kinds of records. The number of each, as `kind` and `loss_mark` of specs/order/Recording.antt have it.
// Numbers and no enum: a record is fed with any number (`Record`, row 1 of `rows`), and the functions of basics that go by a kind, as `ask_at`,
// `acquired_row` and `passes_on`, promise their equations of every number.
pub const READ: u8 = 0;

pub const WRITE: u8 = 1;

pub const TAKE: u8 = 2;

pub const GIVE: u8 = 3;

pub const LOOK: u8 = 4;

pub const SET: u8 = 5;

pub const START: u8 = 6;

pub const JOIN: u8 = 7;

pub const LOST: u8 = 8;

pub const FRESH: u8 = 9;

pub const MISS: u8 = 10;

pub const BUMP: u8 = 11;

pub const OWNED: u8 = 12;

// How many of the kinds are accesses: each asks the history.
pub const ASKERS: usize = 3;

// Which these are, by their numbers among them, as `askers` of specs/history/History.antt has it.
pub const ASKING: [u8; ASKERS] = [READ, WRITE, BUMP];

// The number of a write among them.
pub const ASKING_WRITE: usize = 1;

// How many kinds there are.
pub const KINDS: u8 = OWNED + 1;
