// The faults that a planner has accepted, in the control table: taken in before a recording is fed, and looked at beside each Race.
ghost use Rattle.std.specs.Prelude.{◌≡◌, true, ◌<◌};
ghost use Rattle.theory.specs.order.Limits.{tasks, variables, entries};
ghost use Rattle.theory.specs.totals.Totals.{control_cells};
ghost use Rattle.requests.specs.entries.Table.{paired_at, entry_count, marked, pairs, entries_full, entered, pair_in_range, enters, after_entry, access_in_range, open_tasks, excuse_open, tables_excuse};

use crate::access::AccessInRange;
use crate::clocks::ByClocks;
use crate::history::latest_number;
use crate::rows::Reckoning;
use basics::{all_but, is_access, lower_half, lowest, weight};
use requests::Excuse;
use theory::{
    COLUMNS, Clocks, Control, ENTRIES, ENTRIES_MOST, History, PAIRED, Record, RecordNumber, TASKS,
    Task, VARIABLES, Variable,
};

// Whether as many entries were taken in as there is room for.
pub fn entries_full(control: &Control) -> bool
    ensures { result ≡ entries_full control.now }
{
    control[ENTRIES] >= ENTRIES_MOST
}

// Where the tasks that are paired with task t for variable v are kept.
fn paired_at(v: Variable, t: Task) -> usize
    requires { (v.0 < variables) × (t.0 < tasks) }
    ensures { (result ≡ paired_at v.0 t.0) × (result < control_cells) }
{
    PAIRED + (v.0 as usize * COLUMNS + t.0 as usize)
}

// A mask with task u in it or out of it.
fn marked(accepted: bool, u: Task, mask: u32) -> u32
    requires { u.0 < tasks }
    ensures { result ≡ marked accepted u.0 mask }
{
    if accepted {
        mask | weight(u.0)
    } else {
        mask & all_but(u.0)
    }
}

// Task u is paired with task t, or is not any more.
fn pair(control: &mut Control, accepted: bool, v: Variable, t: Task, u: Task)
    requires { (v.0 < variables) × (t.0 < tasks) × (u.0 < tasks) }
    ensures { control.new ≡ pairs accepted v.0 t.0 u.0 control.old }
{
    let at = paired_at(v, t);
    control[at] = marked(accepted, u, control[at]);
}

// An entry is taken in: the two tasks are paired whichever of them acts, and it is counted.
fn enter_pair(control: &mut Control, v: Variable, low: Task, high: Task, accepted: bool)
    requires { (v.0 < variables) × (low.0 < tasks) × (high.0 < tasks) × (entry_count control.old < entries) }
    ensures { control.new ≡ entered v.0 low.0 high.0 accepted control.old }
{
    let taken = control[ENTRIES];
    pair(control, accepted, v, low, high);
    pair(control, accepted, v, high, low);
    control[ENTRIES] = taken + 1;
}

fn pair_in_range(v: u32, low: u32, high: u32) -> bool
    ensures { result ≡ pair_in_range v low high }
{
    v < VARIABLES && low < TASKS && high < TASKS
}

// Takes an entry in, and answers whether it did: where there is no such variable or task, or no room, nothing is changed.
pub fn enter(control: &mut Control, v: u32, low: u32, high: u32, accepted: bool) -> bool
    ensures { (result ≡ enters v low high control.old) × (control.new ≡ after_entry v low high accepted control.old) }
{
    let taken = pair_in_range(v, low, high) && !entries_full(control);
    if taken {
        enter_pair(control, Variable(v), Task(low), Task(high), accepted);
    }
    taken
}

// The tasks whose latest conflicting access has no path here, however the losses are filled in, and that are not accepted.
fn open_mask(control: &Control, last: &History, fullclocks: &Clocks, access: AccessInRange) -> u16
    ensures { result ≡ open_tasks control.now last.now fullclocks.now access.kind access.task.0 access.variable.0 }
{
    let apart = ByClocks::access_mask(fullclocks, last, access);
    apart & !lower_half(control[paired_at(access.variable, access.task)])
}

fn access_in_range(r: Record) -> bool
    ensures { result ≡ access_in_range r }
{
    is_access(r.kind) && r.task < TASKS && r.on < VARIABLES
}

// Known where no task is open; else the partner is that of the lowest open one. A Race that is known is printed with its partner, too: both fields of the
// answer always mean something.
fn excuse_open(last: &History, access: AccessInRange, mask: u16, partner: RecordNumber) -> Excuse
    ensures { result ≡ excuse_open last.now access.kind access.variable.0 mask partner.0 }
{
    if mask == 0 {
        return Excuse {
            known: true,
            partner,
        };
    }
    Excuse {
        known: false,
        partner: latest_number(last, access, lowest(mask)),
    }
}

// How a Race is reported: that of an access that was fed just now, with its partner by document 01. Every Race of every recording comes by
// here, so that where no entry was taken in nothing else is looked at.
pub fn excuse(
    control: &Control,
    last: &History,
    fullclocks: &Clocks,
    r: Record,
    partner: RecordNumber,
) -> Excuse
    ensures { result ≡ tables_excuse control.now last.now fullclocks.now r partner.0 }
{
    if control[ENTRIES] != 0 && access_in_range(r) {
        let access = AccessInRange::of(r);
        let open = open_mask(control, last, fullclocks, access);
        return excuse_open(last, access, open, partner);
    }
    Excuse {
        known: false,
        partner,
    }
}
