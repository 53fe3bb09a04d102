// Texts through the report, as it is compiled: document 01's input and the blocks that it works by hand, other ways to
// write the same values, and an example of each refusal that a text can cause.
// For each text a line says what it shows; the report's output follows.
#![tactic(auto)]

mod accepted;
mod refused;
mod say;

use console::IgnoringErrors;
use std::io;
use std::io::Print;

// The texts, one after the other.
fn all(rt: &impl Print) -> io::Result<()> {
    accepted::printed(rt)?;
    accepted::worked(rt)?;
    accepted::other_criteria(rt)?;
    accepted::spellings(rt)?;
    refused::settings(rt)?;
    refused::positions(rt)
}

// A write that fails shows in the stored output, which misses that piece: the program goes on, and says no more of it.
fn main(rt: HostRuntime) {
    let _ = all(&IgnoringErrors(&rt));
}
