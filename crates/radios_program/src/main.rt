// The program on lists of tallies: one list from standard input, its summary to standard output.
// It sees `radios_text`, the longest texts of `radio_list` and `radio_summary`, and `console`.
// Proved: it ends, and stays within its memory; `radios_text::summary`, which `console::filter` is handed, writes the
// summary of the bytes that it is handed.
// By inspection and test: that `console::filter` hands it what was read, and writes what it wrote; what `console` says
// of reading and writing. The tests are the lists with stored outputs and the comparison with the second
// implementation.
#![tactic(auto)]

use radio_list::LONGEST_LIST;
use radio_summary::LONGEST_SUMMARY;

fn main(rt: HostRuntime) {
    // one byte more than an accepted list can have
    let mut text = [0; LONGEST_LIST + 1];
    let mut out = [0; LONGEST_SUMMARY];
    console::filter(&rt, b"radios", &mut text, &mut out, radios_text::summary);
}
