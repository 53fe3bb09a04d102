// The channel front's blocks: the three kinds, with halves and both zeros, then its refusals.
// The text of a line says what the samples are; an LLR slice is longer than its 2^m elements where a line ends in 9.
ghost use Rattle.std.specs.Prelude.{◌≤◌};

use crate::say;
use channel::Channel;
use std::io;

// One call of the front, on the samples that the text names: m and C, its answer, and the N LLRs afterwards.
fn front<const N: usize, R: Print>(
    rt: &R,
    text: &str,
    m: u32,
    ceiling: u32,
    channel: Channel,
    samples: &[f32],
) -> io::Result<()>
    requires { N ≤ 10 }
{
    let mut llr = [9; N];
    print!(rt; "front {text} m={m} C={ceiling}")?;
    console::answer(rt, channel::front(m, ceiling, channel, samples, &mut llr));
    say::lent(rt, "llr", &llr)
}

pub fn gaussian(rt: &impl Print) -> io::Result<()> {
    let paper = "gaussian 1.5 samples 1 -1";
    front::<3, _>(rt, paper, 1, 31, Channel::Gaussian(1.5), &[1.0, -1.0])?;
    let halves = [0.5, -0.5, 2.5, -2.5, 0.0, -0.0, 30.5, 0.499];
    let text = "gaussian 1 samples 0.5 -0.5 2.5 -2.5 0 -0 30.5 0.499";
    front::<8, _>(rt, text, 3, 31, Channel::Gaussian(1.0), &halves)
}

// Either zero gives 0. A NaN after the block is not read.
pub fn signs(rt: &impl Print) -> io::Result<()> {
    let samples = [0.1, -7.0, 0.0, -0.0, f32::NAN];
    let flipping = "flipping 2.5 samples 0.1 -7 0 -0 (nan)";
    front::<5, _>(rt, flipping, 2, 31, Channel::Flipping(2.5), &samples)?;
    let erasing = "erasing samples 0.1 -7 0 -0 (nan)";
    front::<5, _>(rt, erasing, 2, 31, Channel::Erasing, &samples)
}

// 1 and 2, though 7 would apply as well; 7, though a factor of 0 would be refused with 11.
pub fn refused_settings(rt: &impl Print) -> io::Result<()> {
    let erasing = "erasing samples 1 -1";
    front::<1, _>(rt, erasing, 11, 31, Channel::Erasing, &[1.0, -1.0])?;
    front::<1, _>(rt, erasing, 1, 0, Channel::Erasing, &[1.0, -1.0])?;
    let gaussian = "gaussian 0 samples 1 -1 1";
    front::<4, _>(
        rt,
        gaussian,
        2,
        31,
        Channel::Gaussian(0.0),
        &[1.0, -1.0, 1.0],
    )
}

// 11, a factor that is not above zero, with a sample that is not finite either; then that sample alone, 12.
pub fn refused_channel(rt: &impl Print) -> io::Result<()> {
    let samples = [f32::INFINITY, 1.0];
    let zero = "gaussian 0 samples inf 1";
    front::<2, _>(rt, zero, 1, 31, Channel::Gaussian(0.0), &samples)?;
    let one = "gaussian 1 samples inf 1";
    front::<3, _>(rt, one, 1, 31, Channel::Gaussian(1.0), &samples)
}
