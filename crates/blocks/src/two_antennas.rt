// The blocks of the front for two antennas: its cut and its roundings, then its refusals.
// The text of a line says what the factors and the samples are; an LLR slice is longer than its 2^m elements where a
// line ends in 9.
ghost use Rattle.std.specs.Prelude.{◌≤◌};

use crate::say;
use antennas::Receiver;
use std::io;

// One call of the front, on what the text names: m and C, its answer, and the N LLRs afterwards.
fn front_two<const N: usize, R: Print>(
    rt: &R,
    text: &str,
    m: u32,
    ceiling: u32,
    receiver: Receiver,
    first: &[f32],
    second: &[f32],
) -> io::Result<()>
    requires { N ≤ 10 }
{
    let mut llr = [9; N];
    print!(rt; "front_two {text} m={m} C={ceiling}")?;
    let answer = antennas::front_two(m, ceiling, receiver, first, second, &mut llr);
    console::answer(rt, answer);
    say::lent(rt, "llr", &llr)
}

fn receiver(first: f32, second: f32) -> Receiver {
    Receiver { first, second }
}

// Each factor is its own branch's, and halves of the sum go away from zero. A NaN after the block is not read.
pub fn sums(rt: &impl Print) -> io::Result<()> {
    let text = "1 2 samples 1 0 0.25 -0.25 (nan), 0 -1 0.125 -0.125";
    let first = [1.0, 0.0, 0.25, -0.25, f32::NAN];
    let second = [0.0, -1.0, 0.125, -0.125];
    front_two::<5, _>(rt, text, 2, 31, receiver(1.0, 2.0), &first, &second)
}

// Products are cut at 4096 before they are added, also those too large for the format: opposite ones give 0.
pub fn cuts(rt: &impl Print) -> io::Result<()> {
    let cut = "1 1 samples 100000 3000 -100000 100000, -4095 -2990 1 -100000";
    let first = [100000.0, 3000.0, -100000.0, 100000.0];
    let second = [-4095.0, -2990.0, 1.0, -100000.0];
    front_two::<4, _>(rt, cut, 2, 31, receiver(1.0, 1.0), &first, &second)?;
    let largest = "3e38 3e38 samples 3e38 3e38, -3e38 3e38";
    let first = [3.0e38, 3.0e38];
    let second = [-3.0e38, 3.0e38];
    front_two::<2, _>(
        rt,
        largest,
        1,
        31,
        receiver(3.0e38, 3.0e38),
        &first,
        &second,
    )
}

// 1, 2 and 7, of the second branch; 11, of the second factor; 12, of the second branch.
pub fn refused(rt: &impl Print) -> io::Result<()> {
    let plain = receiver(1.0, 1.0);
    let zero = receiver(1.0, 0.0);
    let ones = [1.0, 1.0];
    let infinite = [1.0, f32::INFINITY];
    let text = "1 1 samples 1 1, 1 inf";
    front_two::<3, _>(rt, text, 11, 31, plain, &ones, &infinite)?;
    front_two::<3, _>(rt, text, 1, 2048, plain, &ones, &infinite)?;
    front_two::<3, _>(rt, "1 0 samples 1 1, 1", 1, 31, zero, &ones, &[1.0])?;
    front_two::<3, _>(rt, "1 0 samples 1 1, 1 inf", 1, 31, zero, &ones, &infinite)?;
    front_two::<3, _>(rt, text, 1, 31, plain, &ones, &infinite)
}
