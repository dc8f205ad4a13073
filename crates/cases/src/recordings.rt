// The recordings of document 01, and a few more.
use crate::asking::run_asking;
use crate::feeding::{run, run_clocks, run_source, run_whole};
use crate::source::Source;

// Short recordings without loss.
pub(crate) fn short(rt: &impl Print) {
    run(rt, "K1", b"");
    run(rt, "K2", b"0+1 0w5 1r5");
    run(rt, "K3", b"0w5 0+1 1r5");
    run(rt, "K4", b"0+1 1w5 0-1 0w5");
    run(rt, "K5", b"0+1 0r5 1r5");
    run(rt, "K6", b"0+1 0w5 0l3 1s3 1w5");
    run(rt, "K7", b"0+1 0+2 1w5 1g4 2g4 0t4 0r5");
}

// Short recordings with loss.
pub(crate) fn lossy(rt: &impl Print) {
    run(rt, "K8", b"0+1 0w5 1w5 _?3");
    run(rt, "K9", b"0+1 0w5 _?3 1w5");
    run(rt, "K10", b"0+1 0w5 _?2 1w5");
    run(rt, "K11", b"0+1 0w5 _?1 1w5");
    run(rt, "K11 with a take", b"0+1 0w5 _?1 1t9 1w5");
    run(rt, "K12", b"0+1 0w5 _?1 _?2 1w5");
    run(rt, "K12 reversed", b"0+1 0w5 _?2 _?1 1w5");
}

// A task that is joined without having acted passes no order on, but a lost act of it may have. An older access is not forgotten.
// The report's example of document 01.
pub(crate) fn longer(rt: &impl Print) {
    run(rt, "idle task", b"0+2 0w5 0+1 2-1 2r5");
    run(rt, "idle task with a loss", b"0+2 0w5 0+1 _?2 2-1 2r5");
    run(rt, "older access", b"0+1 0+2 1w5 2w5 2g4 0t4 0w5");
    run(rt, "report", b"0+1 0w5 0g2 0w6 _?2 1r5 1r6 1t2 1w5 2r5");
}

// States that are handed over whole, and asked before each record.
pub(crate) fn whole(rt: &impl Print) {
    run_whole(rt, "K9", b"0+1 0w5 _?3 1w5");
    run_whole(rt, "K12", b"0+1 0w5 _?1 _?2 1w5");
    run_whole(rt, "K12 reversed", b"0+1 0w5 _?2 _?1 1w5");
    run_asking(rt, "K9", b"0+1 0w5 _?3 1w5");
    run_asking(rt, "K10", b"0+1 0w5 _?2 1w5");
    run_asking(rt, "refused", b"0+1 0w5 2r5 1-1");
}

// A fresh empties the history of its variable, whoever acts, and is an act of its task.
pub(crate) fn renewed(rt: &impl Print) {
    run(rt, "fresh", b"0+1 0w5 0f5 1w5");
    run(rt, "fresh of another variable", b"0+1 0w5 0f6 1w5");
    run(rt, "fresh by a third task", b"0+1 0+2 0w5 2f5 1w5");
    run(rt, "fresh before a mark", b"0+1 0w5 1f5 _?3 1w5");
    run(rt, "partner since the fresh", b"0+1 0+2 1w5 0f5 2w5 0w5");
    run(
        rt,
        "join of a task that acted by a fresh",
        b"0+2 0w5 0+1 1f6 2-1 2r5",
    );
}

// A wait that ran out acquires and releases nothing, and is an act of its task.
pub(crate) fn missed(rt: &impl Print) {
    run(rt, "miss", b"0+1 0w5 0g4 1m4 1r5");
    run(rt, "take after a miss", b"0+1 0w5 0g4 1m4 1t4 1r5");
    run(rt, "miss and take", b"0+1 0w5 0m4 1t4 1w5");
    run(
        rt,
        "join of a task that acted by a miss",
        b"0+2 0w5 0+1 1m4 2-1 2r5",
    );
}

// Two bumps never conflict; a bump conflicts with a read and with a write.
pub(crate) fn bumped(rt: &impl Print) {
    run(rt, "two bumps", b"0+1 0b5 1b5");
    run(rt, "bump after a write", b"0+1 0w5 1b5");
    run(rt, "write after a bump", b"0+1 0b5 1w5");
    run(rt, "read after a bump", b"0+1 0b5 1r5");
    run(rt, "bump after a read", b"0+1 0r5 1b5");
    run(rt, "bump handed over", b"0+1 0b5 0g4 1t4 1w5");
    run(rt, "older read behind a bump", b"0+1 0r5 0b5 1b5");
    run(rt, "bump across a mark", b"0+1 0w5 _?3 1b5");
}

// Under the profile a take needs a free semaphore and a give its holder, there are no marks, and a join frees nothing. A recording comes under it once, at
// any record: all semaphores are free there, and order and marks from before stay.
pub(crate) fn owned(rt: &impl Print) {
    run(rt, "owned hand-over", b"0o0 0+1 0w5 0t4 0g4 1t4 1r5");
    run(rt, "owned twice", b"0o0 0o0");
    run(rt, "owned late", b"1o0 0o1 0+1 0o0 0t4 1t4");
    run(rt, "mark under the profile", b"0o0 0+1 _?2 _?4 _?0");
    run(
        rt,
        "take of a held semaphore",
        b"0o0 0+1 0t4 1t4 0t4 1m4 0g4 1t4",
    );
    run(rt, "give without holding", b"0o0 0+1 0g4 0t4 1g4 0g4 0g4");
    run(rt, "join of a holder", b"0o0 0+1 1t4 0-1 0t4 0g4");
    run(
        rt,
        "taken before the change",
        b"0+1 0t4 1o0 0g4 1g4 1t4 0t4 1g4",
    );
    run(
        rt,
        "given before the change",
        b"0+1 0w5 0g4 1g4 0o0 1t4 1r5",
    );
    run(rt, "mark before the change", b"0+1 0w5 _?3 0o0 1w5 _?3");
    run(rt, "changed twice", b"0+1 1o0 0t4 0o0 1o0 1t4");
}

// Refused records between accepted ones.
pub(crate) fn refused(rt: &impl Print) {
    run_clocks(
        rt,
        "refused records are not counted",
        Source::Numbered(b"0+1 2r5 0w5 0+1 _?4 1r5"),
    );
    run_clocks(
        rt,
        "an ended task",
        Source::Text(b"0+1 0-1 1r5 0+1 0-1 _?2"),
    );
}

pub(crate) fn full(rt: &impl Print) {
    run_clocks(rt, "every task, then a mark of all", Source::Starts);
    run_source(rt, "row 5", Source::Row5);
}
