// One message the whole way, over 64 positions: coder, samples with six errors, front, decoder, read-out; then the same
// block as two antennas receive it, each with its own errors.
ghost use Rattle.std.specs.Prelude.{◌≤◌};

use crate::say;
use antennas::Receiver;
use channel::Channel;
use console::Spaced;
use polar::Code;
use settings::Settings;
use std::{array, io};

// The amplitude for a bit of 0, and minus the amplitude for a bit of 1. At the first error and at every eleventh
// position from there on the sign is wrong and the size a quarter.
fn sample(i: usize, bit: u8, amplitude: f32, error: usize) -> f32 {
    let size = if i % 11 == error {
        -0.25 * amplitude
    } else {
        amplitude
    };
    if bit == 0 { size } else { -size }
}

// A sample for each bit of the block, which is one element longer than needed.
fn samples(block: &[u8; 65], amplitude: f32, error: usize) -> [f32; 64] {
    array::from_fn(|i| sample(i, block[i], amplitude, error))
}

// The message is coded, in a block that is one element longer than needed.
fn code(rt: &impl Print, mask: &[u8], message: &[u8], block: &mut [u8]) -> io::Result<()> {
    print!(rt; "link m=6 message{}", Spaced(message))?;
    console::answer(rt, polar::encode(Code { m: 6 }, mask, message, block));
    println!(rt; " block{}", Spaced(block))
}

// The block as one antenna receives it.
fn front(rt: &impl Print, block: &[u8; 65], llr: &mut [i16]) -> io::Result<()> {
    let samples = samples(block, 1.0, 5);
    print!(rt; "link gaussian 8 m=6 C=127")?;
    console::answer(
        rt,
        channel::front(6, 127, Channel::Gaussian(8.0), &samples, llr),
    );
    println!(rt; " llr{}", Spaced(llr))
}

// The block as two antennas receive it, the second three quarters as strong.
fn front_two(rt: &impl Print, block: &[u8; 65], llr: &mut [i16]) -> io::Result<()> {
    let first = samples(block, 1.0, 5);
    let second = samples(block, 0.75, 2);
    let receiver = Receiver {
        first: 8.0,
        second: 6.0,
    };
    print!(rt; "link two 8 6 m=6 C=127")?;
    console::answer(
        rt,
        antennas::front_two(6, 127, receiver, &first, &second, llr),
    );
    println!(rt; " llr{}", Spaced(llr))
}

// What the decoder makes of the LLRs: its answer, and its marks.
fn decode(
    rt: &impl Print,
    settings: Settings,
    mask: &[u8],
    llr: &[i16],
    mark: &mut [u8],
) -> io::Result<()> {
    let mut soft = [9; 65];
    let mut coded_soft = [9; 65];
    let mut coded_mark = [9; 65];
    let mut work = [9; 897];
    let outcome = decoder::decode(
        settings,
        mask,
        llr,
        &mut soft,
        mark,
        &mut coded_soft,
        &mut coded_mark,
        &mut work,
    );
    say::outcome(rt, outcome)
}

// How many of the message's bits are read out otherwise than sent.
fn differences(sent: &[u8], read: &[u8]) -> usize {
    sent.iter()
        .zip(read)
        .filter(|(sent, read)| sent != read)
        .count()
}

// The read-out of the marks, beside the message.
fn read_out(rt: &impl Print, mask: &[u8], mark: &[u8], message: &[u8]) -> io::Result<()> {
    let mut read = [9; 33];
    print!(rt; " read_out")?;
    console::answer(rt, polar::read_out(Code { m: 6 }, mask, mark, &mut read));
    println!(rt;
        " message{} wrong {}",
        Spaced(&read),
        differences(message, &read)
    )
}

// Settings of the block, with a limit and a criterion of the caller's.
fn ending_by(limit: u32, criterion: u32, operand: u32) -> Settings {
    Settings {
        m: 6,
        ceiling: 127,
        scale: 15,
        limit,
        criterion,
        operand,
    }
}

// Decoder and read-out on the LLRs.
fn receive(
    rt: &impl Print,
    settings: Settings,
    mask: &[u8],
    message: &[u8],
    llr: &[i16],
) -> io::Result<()> {
    let mut mark = [9; 65];
    print!(rt; "link")?;
    say::settings(rt, settings)?;
    decode(rt, settings, mask, llr, &mut mark)?;
    read_out(rt, mask, &mark, message)
}

// Each criterion from 1 on; then the limit, before the criterion can hold.
fn criteria(rt: &impl Print, mask: &[u8], message: &[u8], llr: &[i16]) -> io::Result<()> {
    receive(rt, ending_by(40, 1, 0), mask, message, llr)?;
    receive(rt, ending_by(40, 2, 20), mask, message, llr)?;
    receive(rt, ending_by(40, 3, 8), mask, message, llr)?;
    receive(rt, ending_by(40, 4, 20), mask, message, llr)?;
    receive(rt, ending_by(1, 1, 0), mask, message, llr)
}

// The bits that the digits 0 and 1 write.
fn bits<const N: usize>(digits: &[u8; N]) -> [u8; N]
    requires { N ≤ 64 }
{
    digits.map(|digit| u8::from(digit == b'1'))
}

// 32 of the 64 positions are frozen.
pub fn link(rt: &impl Print) -> io::Result<()> {
    let mask = bits(b"1111111011101000111010001010100011101010111010001110100010000000");
    let message = bits(b"11000110001100011000110001100011");
    let mut block = [9; 65];
    code(rt, &mask, &message, &mut block)?;
    let mut llr = [9; 65];
    front(rt, &block, &mut llr)?;
    criteria(rt, &mask, &message, &llr)?;
    let mut both = [9; 65];
    front_two(rt, &block, &mut both)?;
    receive(rt, ending_by(40, 1, 0), &mask, &message, &both)
}
