// The read-out's blocks: bytes at the information positions, whatever they are, then its refusals.
ghost use Rattle.std.specs.Prelude.{◌≤◌};

use crate::say;
use polar::Code;
use std::io;

// One call of the read-out: what it is handed, its answer, and the message of N elements afterwards.
fn read_out<const N: usize, R: Print>(rt: &R, m: u32, mask: &[u8], bytes: &[u8]) -> io::Result<()>
    requires { N ≤ 10 }
{
    let mut message = [9; N];
    say::handed(rt, "read_out", m, mask, "bytes", bytes)?;
    console::answer(rt, polar::read_out(Code { m }, mask, bytes, &mut message));
    say::lent(rt, "message", &message)
}

pub fn blocks(rt: &impl Print) -> io::Result<()> {
    read_out::<4, _>(rt, 2, &[0, 1, 1, 0], &[5, 6, 7, 2])?;
    let mask = [1, 1, 1, 0, 1, 0, 0, 0, 7];
    read_out::<5, _>(rt, 3, &mask, &[0, 1, 0, 1, 0, 0, 1, 2, 8])
}

// 1; 8; 9; 7, of the bytes.
pub fn refused(rt: &impl Print) -> io::Result<()> {
    read_out::<2, _>(rt, 11, &[0, 0], &[1, 1])?;
    read_out::<4, _>(rt, 2, &[0, 0, 2, 0], &[1, 0, 1, 0])?;
    read_out::<4, _>(rt, 2, &[1, 1, 1, 1], &[1, 0, 1, 0])?;
    read_out::<4, _>(rt, 2, &[0, 0, 0, 0], &[1, 0, 1])
}
