// Small blocks through the coder, the read-out and the fronts for one antenna and for two, as they are compiled, with
// an example of each of their refusals.
// A line for each call gives what it is handed, the number of its answer, and the slice afterwards.
#![tactic(auto)]

mod coding_twice;
mod encoding;
mod front;
mod reading;
mod say;
mod two_antennas;

use console::IgnoringErrors;
use std::io;
use std::io::Print;

// The blocks, one after the other.
fn all(rt: &impl Print) -> io::Result<()> {
    encoding::small_blocks(rt)?;
    encoding::longer(rt)?;
    encoding::refused(rt)?;
    coding_twice::blocks(rt)?;
    reading::blocks(rt)?;
    reading::refused(rt)?;
    front::gaussian(rt)?;
    front::signs(rt)?;
    front::refused_settings(rt)?;
    front::refused_channel(rt)?;
    two_antennas::sums(rt)?;
    two_antennas::cuts(rt)?;
    two_antennas::refused(rt)
}

// A write that fails shows in the stored output, which misses that piece: the program goes on, and says no more of it.
fn main(rt: HostRuntime) {
    let _ = all(&IgnoringErrors(&rt));
}
