// Columns of the lazy reckoning: a table with a word for each node, in which each bit is a column, that is, an access from which order is
// followed. A bit is 1 where order from its column's access has come to the word's node. Beside it a number for each column.
ghost use Rattle.std.specs.Prelude.{◌≡◌, cond, not, ◌&&◌, ◌<◌, ◌-◌, get_or, set};
ghost use Rattle.theory.specs.order.Limits.{tasks};
ghost use Rattle.theory.specs.fillings.Completion.{bit};
ghost use Rattle.theory.specs.tables.Reckonings.{word_bits};
ghost use Rattle.requests.specs.lazy.Fold.{clear_column, begin_column, flowed, arrived_now};
ghost use Rattle.lazy_sets.specs.AsLazy.{as_lazy};

use crate::asked::Act;
use crate::kept::LazySets;
use basics::{acquired_row, all_but, has_bit, released_row, task_row, weight};
use requests::Nodes;
use theory::{JOIN, Task, WORD_BITS};

// Whether a word has the bit of a column and the other word has not.
pub(crate) fn only_in(word: u32, other: u32, c: u32) -> bool
    ensures { result ≡ (bit word c && not (bit other c)) }
{
    has_bit(word, c) && !has_bit(other, c)
}

// Order from the column's access has come to no node.
fn clear_column(nodes: &mut Nodes, c: u32)
    requires { c < word_bits }
    ensures { nodes.new ≡ clear_column c nodes.old }
{
    let others = all_but(c);
    for word in nodes.iter_mut() {
        *word &= others;
    }
}

impl LazySets {
    // A column begins anew, with an access of the task: order has come to the task's next act alone, and no record is walked yet.
    pub(crate) fn begin_column(&mut self, c: u32, task: Task)
        requires { (c < word_bits) × (task.0 < tasks) }
        ensures { as_lazy self.new ≡ begin_column c task.0 (as_lazy self.old) }
    {
        clear_column(&mut self.nodes, c);
        self.nodes[task_row(task)] |= weight(c);
        self.counts[c as usize] = self.walk.walked;
        self.walk.pairs |= weight(c);
        self.walk.known &= all_but(c);
    }

    // Order over an act, for all columns at once: what has come to the one node has come to the other as well. A join reads the ended task's, if that
    // has acted.
    pub(crate) fn flow(&mut self, a: Act)
        ensures { self.new ≡ record self.old { nodes = flowed self.old.walk.acted a.kind a.task.0 a.on self.old.nodes } }
    {
        let own = task_row(a.task);
        let joins = a.kind == JOIN && has_bit(self.walk.acted, a.on);
        let acquired = acquired_row(a.kind, a.task, a.on, joins);
        let released = released_row(a.kind, a.task, a.on);
        self.nodes[own] |= self.nodes[acquired];
        self.nodes[released] |= self.nodes[own];
    }

    // Where order from a column's access has come to a word just now, the records that were walked for it are counted.
    fn arrive(&mut self, c: u32, before: u32, after: u32)
        requires { c < word_bits }
        ensures { let l = self.old.counts in self.new
            ≡ record self.old { counts = cond (bit after c && not (bit before c)) (set l c (self.old.walk.walked - get_or l c 0)) l } }
    {
        if only_in(after, before, c) {
            self.counts[c as usize] = self.walk.walked.saturating_sub(self.counts[c as usize]);
        }
    }

    // The same for all columns. Most acts bring nothing to the word.
    pub(crate) fn arrive_now(&mut self, before: u32, after: u32)
        ensures { self.new ≡ record self.old { counts = arrived_now before after self.old.walk.walked self.old.counts } }
    {
        if before == after {
            return;
        }
        for c in 0..WORD_BITS as u32 {
            self.arrive(c, before, after);
        }
    }
}
