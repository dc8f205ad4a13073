// What an accepted record does to what the lazy reckoning keeps. The access that ends the list, q, is known before: its task is the acting
// task, and its variable the only one that is looked at. Tasks have two columns each, for what q asks of them and for what a write asks.
ghost use Rattle.std.specs.Prelude.{◌≡◌, cond, ◌||◌, ◌<◌, eqb, length};
ghost use Rattle.theory.specs.order.Limits.{tasks, records};
ghost use Rattle.theory.specs.order.Recording.{Op, kind as number, accesses, numbered_kind};
ghost use Rattle.theory.specs.acceptance.Table.{Proper};
ghost use Rattle.theory.specs.history.History.{askers, asker, kind_clashes};
ghost use Rattle.theory.specs.tables.Reckonings.{word_bits};
ghost use Rattle.requests.specs.lazy.Fold.{by_write, column, begin_column, keep_anew, unordered, accessed, walked_over, of_variable, acted, recorded};
ghost use Rattle.lazy_sets.specs.AsLazy.{as_lazy};

use crate::asked::{Act, EndingAccess};
use crate::columns::only_in;
use crate::kept::LazySets;
use basics::{ask_at, clashes, is_access, passes_on, task_row, weight};
use theory::{FRESH, LOST, Record, TASKS, Task, WRITE};

// The column for what a write asks of a task; the one for what q asks of it has the task's number.
fn write_column(u: u32) -> u32
    requires { u < tasks }
    ensures { result ≡ column by_write u }
{
    TASKS + u
}

// Whether some pair of a write has no path: order from its column's access is not in the word.
fn unordered(pairs: u32, own: u32) -> bool
    ensures { result ≡ unordered pairs own }
{
    (0..TASKS).any(|u| only_in(pairs, own, write_column(u)))
}

impl LazySets {
    // An access begins a column anew if it clashes with the kind of access that asks there, which has number `asks`.
    fn keep_on(&mut self, c: u32, asks: usize, a: Act)
        requires { (c < word_bits) × (asks < length askers) }
        ensures { let s = as_lazy self.old in as_lazy self.new ≡ cond (kind_clashes (numbered_kind a.kind) (asker asks)) (begin_column c a.task.0 s) s }
    {
        if clashes(a.kind, asks) {
            self.begin_column(c, a.task);
        }
    }

    // It does so with both columns of its task.
    fn keep_anew(&mut self, q: EndingAccess, a: Act)
        ensures { as_lazy self.new ≡ keep_anew q.record a.kind a.task.0 (as_lazy self.old) }
    {
        self.keep_on(a.task.0, ask_at(q.record.kind), a);
        self.keep_on(write_column(a.task.0), ask_at(WRITE), a);
    }

    // An access to the variable. Where each pair of a write by the acting task had a path, no walk is needed for the accesses before it.
    fn access(&mut self, q: EndingAccess, a: Act)
        ensures { as_lazy self.new ≡ accessed q.record a.kind a.task.0 (as_lazy self.old) }
    {
        if a.task.0 != q.record.task {
            self.keep_anew(q, a);
        } else if a.kind == WRITE && !unordered(self.walk.pairs, self.nodes[task_row(a.task)]) {
            self.walk.known = self.walk.pairs;
        }
    }

    // An act that no walk counts: an access to the variable and its fresh do something. Most are of another variable.
    fn other_act(&mut self, q: EndingAccess, a: Act)
        ensures { let s = as_lazy self.old in as_lazy self.new
            ≡ cond (accesses a.kind || eqb a.kind (number Op.fresh)) (of_variable q.record a.kind a.task.0 a.on s) s }
    {
        if a.on != q.record.on {
            return;
        }
        if a.kind == FRESH {
            // nothing is followed any more
            self.walk.pairs = 0;
            self.walk.known = 0;
        } else if is_access(a.kind) {
            self.access(q, a);
        }
    }

    // One more record that a walk counts. Where nothing is followed, order over it is not either. That there is room for one more is asked for down to
    // here, and is no part of the struct: it follows from the control table, by which the record was accepted.
    fn walk_over(&mut self, q: EndingAccess, a: Act)
        requires { self.old.walk.walked < records }
        ensures { as_lazy self.new ≡ walked_over q.record a.kind a.task.0 a.on (as_lazy self.old) }
    {
        self.walk.walked += 1;
        if self.walk.pairs == 0 {
            return;
        }
        let acting = task_row(Task(q.record.task));
        let before = self.nodes[acting];
        self.flow(a);
        self.arrive_now(before, self.nodes[acting]);
    }

    // Any act.
    fn act(&mut self, q: EndingAccess, a: Act)
        requires { self.old.walk.walked < records }
        ensures { as_lazy self.new ≡ acted q.record a.kind a.task.0 a.on (as_lazy self.old) }
    {
        self.walk.acted |= weight(a.task.0);
        if passes_on(a.kind) {
            self.walk_over(q, a);
        } else {
            self.other_act(q, a);
        }
    }

    // Any record. A mark does nothing.
    pub(crate) fn follow_record(&mut self, q: EndingAccess, r: Record)
        requires { Proper r.kind r.task r.on × (self.old.walk.walked < records) }
        ensures { as_lazy self.new ≡ recorded q.record r (as_lazy self.old) }
    {
        if r.kind == LOST {
            return;
        }
        self.act(
            q,
            Act {
                kind: r.kind,
                task: Task(r.task),
                on: r.on,
            },
        );
    }
}
