// The coder, and the coder again on its block.
ghost use Rattle.std.specs.Prelude.{◌≤◌};

use crate::say;
use console::Spaced;
use polar::Code;
use std::io;

// With m = 3 and every position an information position; N elements for the block, and M for the block of the block.
fn encode_twice<const N: usize, const M: usize, R: Print>(rt: &R, message: &[u8]) -> io::Result<()>
    requires { (N ≤ 10) × (M ≤ 10) }
{
    let mask = [0; 8];
    let mut block = [9; N];
    let mut again = [9; M];
    say::handed(rt, "encode twice", 3, &mask, "message", message)?;
    let answer = twice::encode_twice(Code { m: 3 }, &mask, message, &mut block, &mut again);
    console::answer(rt, answer);
    print!(rt; " block{}", Spaced(&block))?;
    say::lent(rt, "again", &again)
}

// The message comes back; then the second slice is one element too short, and neither is written.
pub fn blocks(rt: &impl Print) -> io::Result<()> {
    let message = [1, 0, 1, 1, 0, 0, 1, 0];
    encode_twice::<9, 9, _>(rt, &message)?;
    encode_twice::<8, 7, _>(rt, &message)
}
