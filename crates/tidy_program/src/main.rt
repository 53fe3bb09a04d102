// The tidy program: one text from standard input, its tidy form to standard output.
// It sees `tidy_text`, the longest texts of `report_input` and `report_writer`, and `console`.
// Proved: it ends, and stays within its memory; `tidy_text::tidy`, which `console::filter` is handed, writes the
// tidy form of the bytes that it is handed.
// By inspection and test: that `console::filter` hands it what was read, and writes what it wrote; what `console` says
// of reading and writing. The tests are the texts with stored outputs and the comparison with the second
// implementation.
#![tactic(auto)]

use report_input::LONGEST_TEXT;
use report_writer::LONGEST_TIDY_TEXT;

fn main(rt: HostRuntime) {
    // one byte more than an accepted text can have
    let mut text = [0; LONGEST_TEXT + 1];
    let mut out = [0; LONGEST_TIDY_TEXT];
    console::filter(&rt, b"tidy", &mut text, &mut out, tidy_text::tidy);
}
