// The report program: one text from standard input, its report to standard output.
// It sees `report_text`, the longest text of `report_input`, and `console`.
// Proved: it ends, and stays within its memory; `report_text::report`, which `console::filter` is handed, writes the
// report of the bytes that it is handed.
// By inspection and test: that `console::filter` hands it what was read, and writes what it wrote; what `console` says
// of reading and writing. The tests are the texts with stored outputs and the comparison with the second
// implementation.
#![tactic(auto)]

use report_input::LONGEST_TEXT;
use report_text::REPORT_ROOM;

fn main(rt: HostRuntime) {
    // one byte more than an accepted text can have
    let mut text = [0; LONGEST_TEXT + 1];
    let mut out = [0; REPORT_ROOM];
    console::filter(&rt, b"report", &mut text, &mut out, report_text::report);
}
