// The report of a whole text for a program in C; include/order.h has the function for C. It is an archive of its own: in one with `order_feed`
// the step would have two callers, and the compiler would no longer make it part of the loop over lines.
#![tactic(auto)]

ghost use Rattle.std.specs.Prelude.{◌≡◌};
ghost use Rattle.text.specs.Report.{returned_count, memory_of};

// The report of a text into lent memory, from a fresh state: the count of bytes written, or 64 one-bits where the memory has under 64
// bytes for each line of the text; it is then untouched. Bytes after the written ones stay.
#[unsafe(no_mangle)]
pub extern "C" fn order_report(text: &[u8], report: &mut [u8]) -> u64
    ensures { (result ≡ returned_count text.now report.old)
        × (report.new ≡ memory_of text.now report.old) }
{
    report::order_report(text, report)
}
