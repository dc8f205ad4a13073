// The task of a short line by four bytes: the compiler makes tables of the sixteen endings that a task has, and no digit is read by itself.
ghost use Rattle.std.specs.Prelude.{◌≡◌, ◌<◌, length};
ghost use Rattle.theory.specs.order.Limits.{tasks};
ghost use Rattle.text.specs.Bytes.{little};
ghost use Rattle.text.specs.Places.{task_ending};
ghost use Rattle.text.specs.Printing.{decimal};

use crate::words::four;
use theory::TASKS;

// The four bytes after the first four of ` task=T`, as one number, and how many digits the task has.
#[derive(Clone, Copy)]
pub(crate) struct Ending {
    pub(crate) task: u32,
    pub(crate) bytes: u32,
    pub(crate) len: usize,
}

fn ended(task: u32) -> Ending
    requires { task < tasks }
    ensures { result ≡ record { task = task; bytes = little (task_ending task); len = length (decimal task) } }
{
    if task < 10 {
        return Ending {
            task,
            bytes: four(b"k=0 ", 0) + task * 65_536,
            len: 1,
        };
    }
    Ending {
        task,
        bytes: four(b"k=10", 0) + (task - 10) * 16_777_216,
        len: 2,
    }
}

fn from_ten(digits: u32) -> u32
    ensures { result < 10 }
{
    if digits < 12_288 { 0 } else { 9 }
}

// A number below 16 that is the task where four bytes are an ending: both digits, and nine where there are two, the first of which is then 1.
fn task_slot(bytes: u32) -> u32 {
    let digits = bytes / 65_536;
    (digits * 257 / 256 + from_ten(digits)) % 16
}

// The one task that four bytes can end. That it is so is not relied on. As `guess` of the words, and a function for both would have more
// parameters and clauses than the loop has lines.
pub(crate) fn guess_task(bytes: u32) -> Ending
    ensures { (result.task < tasks) × (result.bytes ≡ little (task_ending result.task)) × (result.len ≡ length (decimal result.task)) }
{
    let at = task_slot(bytes);
    for t in 0..TASKS {
        let e = ended(t);
        if task_slot(e.bytes) == at {
            return e;
        }
    }
    ended(0)
}
