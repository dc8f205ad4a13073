// The refusal table's examples and the edges of the series. A record is its kind number, task and number.
ghost use Rattle.std.specs.Prelude.{◌<◌};

use crate::feeding::once;
use crate::records::{GIVE, JOIN, LOOK, LOST, NONE, OWNED, READ, SET, START, TAKE, WRITE};
use crate::telling::line;

const HUGE: u32 = u32::MAX;

fn row(rt: &impl Print, name: &str, kind: u8, task: u32, on: u32) {
    line(rt, name);
    once(rt, kind, task, on);
}

// The rows up to 9 but row 5, which full.rt has; recordings.rt has those of the profile.
pub(crate) fn rows(rt: &impl Print) {
    row(rt, "row 1", NONE, 0, 1);
    once(rt, 255, 0, 1);
    row(rt, "row 2", READ, 16, 1);
    row(rt, "row 3", TAKE, 0, 32);
    row(rt, "row 4", LOST, 0, 0);
    row(rt, "row 6", READ, 1, 1);
    row(rt, "row 7", START, 0, 0);
    row(rt, "row 8", JOIN, 0, 0);
    row(rt, "row 9", LOST, 0, 2);
}

// Rows 1, 2 and 3 each before all after it; row 6 before 7 and 8; a join of an unseen task.
pub(crate) fn first_row(rt: &impl Print) {
    line(rt, "the first row that applies");
    once(rt, NONE, 16, 64);
    once(rt, READ, 16, 64);
    once(rt, TAKE, 1, 32);
    once(rt, START, 1, 0);
    once(rt, JOIN, 1, 1);
    once(rt, JOIN, 0, 1);
}

// The last number of a series and the one after it.
fn last_and_next(rt: &impl Print, kind: u8, last: u32)
    requires { last < u32.MAX }
{
    once(rt, kind, 0, last);
    once(rt, kind, 0, last + 1);
}

pub(crate) fn series(rt: &impl Print) {
    line(rt, "variables 63 and 64");
    last_and_next(rt, READ, 63);
    last_and_next(rt, WRITE, 63);
    line(rt, "semaphores 31 and 32");
    last_and_next(rt, TAKE, 31);
    last_and_next(rt, GIVE, 31);
    line(rt, "flags 31 and 32");
    last_and_next(rt, LOOK, 31);
    last_and_next(rt, SET, 31);
    line(rt, "profiles 0 and 1");
    last_and_next(rt, OWNED, 0);
    line(rt, "tasks 15 and 16");
    last_and_next(rt, START, 15);
    last_and_next(rt, JOIN, 15);
    once(rt, READ, 15, 1);
    once(rt, READ, 16, 1);
}

pub(crate) fn huge(rt: &impl Print) {
    line(rt, "4294967295");
    once(rt, READ, HUGE, 1);
    once(rt, READ, 0, HUGE);
    once(rt, JOIN, 0, HUGE);
    once(rt, LOST, 0, HUGE);
    once(rt, 255, HUGE, HUGE);
}

pub(crate) fn masks(rt: &impl Print) {
    line(rt, "masks 0, 65535 and 65536");
    once(rt, LOST, 0, 0);
    last_and_next(rt, LOST, 65_535);
    line(rt, "a mark looks at no task");
    once(rt, LOST, HUGE, 1);
}
