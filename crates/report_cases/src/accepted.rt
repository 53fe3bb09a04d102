// Accepted texts: document 01's input, the blocks that it works by hand, and other ways to write the same values.
use crate::say;
use std::io;

// P1 as document 01 prints it, whole.
pub fn printed(rt: &impl Print) -> io::Result<()> {
    say::report(
        rt,
        "document 01's input",
        "m ceiling scale limit criterion operand\n1 31 16 10 1 0\nposition frozen llr\n0 1 5\n1 0 -3\n",
    )
}

// P2 to P5. P4 ends at the limit with ties.
pub fn worked(rt: &impl Print) -> io::Result<()> {
    say::positions(rt, "P2", "0 1 -5\n1 0 3\n")?;
    say::settings(rt, "P3", "1 31 15 10 1 0")?;
    say::positions(rt, "P4", "0 1 3\n1 0 -3\n")?;
    say::positions(rt, "P5", "0 0 7\n1 1 -31\n")
}

// P6 to P8: the least size, of every position and of information positions (2026-04), steady marks, and four positions.
pub fn other_criteria(rt: &impl Print) -> io::Result<()> {
    say::settings(rt, "P6, operand 2", "1 31 16 10 2 2")?;
    say::settings(rt, "P6, operand 3", "1 31 16 10 2 3")?;
    say::settings(rt, "P6, criterion 4, operand 2", "1 31 16 10 4 2")?;
    say::settings(rt, "P6, criterion 4, operand 3", "1 31 16 10 4 3")?;
    say::settings(rt, "P7, limit 10", "1 31 16 10 3 1")?;
    say::settings(rt, "P7, limit 1", "1 31 16 1 3 1")?;
    say::block(rt, "P8", "2 31 16 10 1 0", "0 1 1\n1 1 2\n2 1 3\n3 0 4\n")
}

// The values of P1, written otherwise: the output is P1's.
pub fn spellings(rt: &impl Print) -> io::Result<()> {
    say::block(
        rt,
        "leading zeros",
        "01 031 0016 00010 000001 00",
        "00 01 005\n01 000000 -000003\n",
    )?;
    say::block(rt, "minus zero", "1 31 16 10 1 -0", "-0 1 5\n1 -0 -3\n")?;
    say::block(
        rt,
        "several spaces",
        "1  31   16 10    1 0",
        "0  1   5\n1     0 -3\n",
    )
}
