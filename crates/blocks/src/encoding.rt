// The coder's blocks: messages that it codes, then its refusals.
// A block is longer than its 2^m elements where a line ends in 9; a refused call leaves all its nines.
ghost use Rattle.std.specs.Prelude.{◌≤◌};

use crate::say;
use polar::Code;
use std::io;

// One call of the coder: what it is handed, its answer, and the block of N elements afterwards.
fn encode<const N: usize, R: Print>(rt: &R, m: u32, mask: &[u8], message: &[u8]) -> io::Result<()>
    requires { N ≤ 10 }
{
    let mut block = [9; N];
    say::handed(rt, "encode", m, mask, "message", message)?;
    console::answer(rt, polar::encode(Code { m }, mask, message, &mut block));
    say::lent(rt, "block", &block)
}

// Document 01's two blocks of m = 2, and the shortest block.
pub fn small_blocks(rt: &impl Print) -> io::Result<()> {
    encode::<5, _>(rt, 2, &[1, 1, 1, 0], &[1])?;
    encode::<5, _>(rt, 2, &[1, 0, 1, 1], &[1])?;
    encode::<2, _>(rt, 1, &[0, 0], &[0, 1])
}

// Mask and message are longer than needed, and the rest is no bit: it is not read.
pub fn longer(rt: &impl Print) -> io::Result<()> {
    encode::<10, _>(rt, 3, &[1, 1, 1, 0, 1, 0, 0, 0, 7], &[1, 0, 1, 1, 7])
}

// 1, with slices that would be too short as well; 7, of the mask, and of a message that has a byte that is no bit; 8,
// 9 and 13. The message is too short for the mask of 8 as well; with 9 any message is long enough.
pub fn refused(rt: &impl Print) -> io::Result<()> {
    encode::<2, _>(rt, 11, &[0, 0], &[1, 1])?;
    encode::<4, _>(rt, 2, &[1, 1, 0], &[1])?;
    encode::<4, _>(rt, 2, &[1, 1, 0, 0], &[2])?;
    encode::<4, _>(rt, 2, &[0, 0, 2, 0], &[1])?;
    encode::<4, _>(rt, 2, &[1, 1, 1, 1], &[])?;
    encode::<5, _>(rt, 2, &[1, 1, 0, 0], &[1, 2])
}
