// Bits of a word, and masks of tasks, which have one for each task.
ghost use Rattle.std.specs.Prelude.{◌≡◌, ◌<◌, ◌-◌, ◌%◌, ◌^◌};
ghost use Rattle.theory.specs.order.Limits.{tasks};
ghost use Rattle.theory.specs.fillings.Completion.{bit};
ghost use Rattle.theory.specs.tables.Reckonings.{word_bits, lowest_task};

use theory::{TASKS, Task, WORD_BITS};

// Every mask is below this.
pub const MASKS: u32 = 1 << TASKS;

const WIDTH: u32 = WORD_BITS as u32;

// The bit of weight 2 to the power k; a word has no bit past its last, so that k is taken within it.
pub fn weight(k: u32) -> u32
    ensures { (k < word_bits → result ≡ 2 ^ k) × (result < 2 ^ word_bits) × (result ≡ 2 ^ (k % word_bits)) }
{
    1u32.wrapping_shl(k)
}

// All bits of a word but that one.
pub fn all_but(k: u32) -> u32
    ensures { (k < word_bits → result ≡ 2 ^ word_bits - 1 - 2 ^ k) × (result ≡ 2 ^ word_bits - 1 - 2 ^ (k % word_bits)) }
{
    !weight(k)
}

// Whether a word has the bit of weight 2 to the power k.
pub fn has_bit(word: u32, k: u32) -> bool
    ensures { result ≡ bit word k }
{
    k < WIDTH && (word >> k) % 2 == 1
}

// The lower half of a word, as a mask.
pub fn lower_half(x: u32) -> u16
    ensures { result ≡ x % 2 ^ tasks }
{
    (x % MASKS) as u16
}

// The lowest-numbered task of a mask, and 0 for an empty one.
pub fn lowest(mask: u16) -> Task
    ensures { ((mask ≡ 0 → ⊥) → result.0 ≡ lowest_task mask) × (result.0 < tasks) × (result.0 ≡ lowest_task mask % tasks) }
{
    Task(mask.trailing_zeros() % TASKS)
}
