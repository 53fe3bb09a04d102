// Refused texts, an example for each number: document 01's input with one thing changed.
use crate::say;
use std::io;

// 1 to 6.
pub fn settings(rt: &impl Print) -> io::Result<()> {
    say::settings(rt, "m = 11", "11 31 16 10 1 0")?;
    say::settings(rt, "ceiling 2048", "1 2048 16 10 1 0")?;
    say::settings(rt, "scale 17", "1 31 17 10 1 0")?;
    say::settings(rt, "limit 65", "1 31 16 65 1 0")?;
    say::settings(rt, "criterion 5", "1 31 16 10 5 0")?;
    say::settings(rt, "criterion 2, operand 32", "1 31 16 10 2 32")?;
    say::settings(rt, "criterion 4, operand 32", "1 31 16 10 4 32")
}

// 8, 9 and 10; then 14, twice.
pub fn positions(rt: &impl Print) -> io::Result<()> {
    say::positions(rt, "mask value 2", "0 1 5\n1 2 -3\n")?;
    say::positions(rt, "no information position", "0 1 5\n1 1 -3\n")?;
    say::positions(rt, "LLR 32", "0 1 32\n1 0 -3\n")?;
    say::positions(rt, "letter", "0 1 5\n1 0 a\n")?;
    say::positions(rt, "one line too few", "0 1 5\n")
}
