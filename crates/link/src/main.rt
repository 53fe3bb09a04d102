// Blocks through the decoder as it is compiled: document 01's blocks worked by hand, an example of each refusal, and
// one message the whole way.
// A line for each call gives what it is handed, its answer, and the slices afterwards.
#![tactic(auto)]

mod refused;
mod say;
mod small;
mod whole;

use console::IgnoringErrors;
use std::io;
use std::io::Print;

// The blocks, one after the other.
fn all(rt: &impl Print) -> io::Result<()> {
    small::first_blocks(rt)?;
    small::other_criteria(rt)?;
    small::four_positions(rt)?;
    small::longer(rt)?;
    refused::ranges(rt)?;
    refused::blocks(rt)?;
    whole::link(rt)
}

// A write that fails shows in the stored output, which misses that piece: the program goes on, and says no more of it.
fn main(rt: HostRuntime) {
    let _ = all(&IgnoringErrors(&rt));
}
