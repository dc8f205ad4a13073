// When a table is due, and its way to standard output.
ghost use Rattle.std.specs.Prelude.{◌≡◌};
ghost use Rattle.totals.specs.Argument.{table_due};

use crate::table::{TABLE, put_shown};
use std::io::Write;
use theory::{COUNT, Control};

// Writes the table, as one of several where some are asked for on the way. Says whether it could be written.
pub(crate) fn show<O: Write>(stdout: &mut O, control: &Control, several: bool) -> bool {
    let mut out = [0u8; TABLE + 1];
    let n = put_shown(&mut out, control, several);
    stdout.write_all(&out[..n]).is_ok()
}

// A table is due: a record was accepted, and their count is a multiple of what was asked for. `table_due` asks it of every number, also of 0, of which none is.
fn is_due(every: Option<u32>, before: u32, count: u32) -> bool
    ensures { result ≡ table_due every before count }
{
    match every {
        Some(n) => n != 0 && before < count && count % n == 0,
        None => false,
    }
}

// Writes a table if one is due after a piece in which at most one line ended, so many records having been accepted before it. Says whether it could
// be written.
pub(crate) fn show_due<O: Write>(
    stdout: &mut O,
    control: &Control,
    every: Option<u32>,
    before: u32,
) -> bool {
    !is_due(every, before, control[COUNT]) || show(stdout, control, true)
}
