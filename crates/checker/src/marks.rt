// Loss marks in a table of rows: what the lost records of the tasks that a mark names can acquire and release.
ghost use Rattle.std.specs.Prelude.{◌≡◌, ◌<◌, ◌≤◌, ◌-◌};
ghost use Rattle.std.specs.Int.Bits.{bit_and};
ghost use Rattle.theory.specs.tables.Rows.{acted_row, acquired_with, gather, spread, note_named, mix, mark};

use crate::clocks::ByClocks;
use crate::rows::Reckoning;
use crate::sets::BySets;
use basics::{acted_after, has_bit, lower_half, lowest, task_row};
use theory::{ACTED, CLOCK_CELLS, COLUMNS, FIRST_SEMAPHORE, HUB, SET_CELLS, SLOT_WORDS, TASKS};

// A mask without the lowest task that it names.
fn without_lowest(mask: u16) -> u16
    requires { mask ≡ 0 → ⊥ }
    ensures { (result ≡ bit_and mask (mask - 1)) × (result < mask) }
{
    mask & (mask - 1)
}

pub(crate) trait Marking<const WIDTH: usize, const CELLS: usize>: Reckoning<WIDTH, CELLS> {
    // A row by itself with what row `from` knows, too.
    final fn acquired_with(cells: &[u32; CELLS], from: usize, row: &[u32; WIDTH]) -> [u32; WIDTH]
        requires { from ≤ acted_row }
        ensures { result ≡ acquired_with Self.joined WIDTH from row.now cells.now }
    {
        let mut next = [0u32; WIDTH];
        for c in 0..WIDTH {
            next[c] = Self::join(row[c], cells[Self::place(from, c)]);
        }
        next
    }

    // What a mark's lost records can acquire comes to the hub, by way of a row that by the clocks stays in registers. The loop is over the named tasks
    // alone, lowest first: for any other the hub would be joined with itself. It counts nothing, but ends as the mask that is left does.
    final fn gather(cells: &mut [u32; CELLS], mask: u32)
        ensures { cells.new ≡ gather Self.joined WIDTH mask cells.old }
    {
        let mut known = [0u32; WIDTH];
        let mut left = lower_half(mask);
        while left != 0 {
            known = Self::acquired_with(cells, task_row(lowest(left)), &known);
            left = without_lowest(left);
        }
        Self::join_with(cells, HUB, &known);
    }

    // What the hub knows, all that they can release to knows, from one copy: the named tasks, and every object, so that nothing is asked of the rows after
    // the tasks'.
    final fn spread(cells: &mut [u32; CELLS], mask: u32)
        ensures { cells.new ≡ spread WIDTH mask cells.old }
    {
        let hub = Self::row_of(cells, HUB);
        let mut left = lower_half(mask);
        while left != 0 {
            Self::put_row(cells, task_row(lowest(left)), &hub);
            left = without_lowest(left);
        }
        for r in FIRST_SEMAPHORE..HUB {
            Self::put_row(cells, r, &hub);
        }
    }

    // The tasks that the mask names have acted.
    final fn note_named(cells: &mut [u32; CELLS], mask: u32)
        ensures { cells.new ≡ note_named WIDTH mask cells.old }
    {
        for t in 0..TASKS {
            let at = Self::place(ACTED, t as usize);
            cells[at] = acted_after(has_bit(mask, t), cells[at]);
        }
    }

    // The fullest filling of a mark.
    #[tactic(auto, unfolding(theory::specs::tables::Rows::mix))]
    final fn mix(cells: &mut [u32; CELLS], mask: u32)
        ensures { cells.new ≡ mix Self.joined WIDTH mask cells.old }
    {
        Self::gather(cells, mask);
        Self::spread(cells, mask);
        Self::note_named(cells, mask);
    }

    // A mark of which the lost records of these tasks are filled in; where they are nobody's, nothing is released.
    final fn mark(cells: &mut [u32; CELLS], mask: u32)
        ensures { cells.new ≡ mark Self.joined WIDTH mask cells.old }
    {
        if mask == 0 {
            return;
        }
        Self::mix(cells, mask);
    }
}

impl Marking<COLUMNS, CLOCK_CELLS> for ByClocks {}

impl Marking<SLOT_WORDS, SET_CELLS> for BySets {}
