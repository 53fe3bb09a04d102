// The channel front: 32-bit float samples of a Gaussian, a flipping or an erasing channel become whole LLRs of size at
// most the ceiling. It sees `calls` alone. It promises document 01's LLR for each of the first 2^m samples, for every
// float there is, and the number and the exact condition of each refusal.
#![tactic(auto)]

ghost use Rattle.std.specs.Prelude.{◌≡◌, ℕ, pos, not, ◌<◌, ◌≤◌, T, nat_abs, length, get_or};
ghost use Rattle.std.specs.Float.{nan};
ghost use Rattle.std.specs.Float.Ieee.{is_nan};
ghost use Rattle.calls.specs.Bounds.{largest_ceiling};
ghost use Rattle.calls.specs.Numbers.{number_of};
ghost use Rattle.calls.specs.LentMemory.{overwrite};
ghost use Rattle.channel.specs.Front.{
  quantised,
  is_above_zero,
  is_usable,
  all_finite,
  llr_of,
  front_number,
  front_llrs,
};
ghost use Rattle.channel.specs.Ranges.{IsBlockLength};
ghost use Rattle.channel.specs.Private.{is_within, whole_of, by_sign};

mod ceiling;

use calls::{LARGEST_M, Refusal};
pub use ceiling::Ceiling;

// The kind of channel: Gaussian with its factor, flipping with its weight, erasing.
#[derive(Clone, Copy)]
pub enum Channel {
    Gaussian(f32),
    Flipping(f32),
    Erasing,
}

// Finite and above zero, as a factor or a weight has to be.
#[tactic(auto, using(crate::proofs::Comparisons::above_zero_is))]
pub fn above_zero(x: f32) -> bool
    ensures { result ≡ is_above_zero x }
{
    0.0 < x && x < f32::INFINITY
}

impl Channel {
    // Whether the factor or the weight is usable; erasing has none.
    fn is_usable(self) -> bool
        ensures { result ≡ is_usable self }
    {
        match self {
            Channel::Gaussian(factor) => above_zero(factor),
            Channel::Flipping(weight) => above_zero(weight),
            Channel::Erasing => true,
        }
    }
}

// Whether the samples are finite.
fn all_finite(samples: &[f32]) -> bool
    ensures { result ≡ all_finite (length samples.now) samples.now }
{
    samples.iter().all(|x| x.is_finite())
}

// 1.5 * 2^23: from 2^22 below it to 2^22 above it the floats are the whole numbers, so that a sum with it is rounded to
// the nearest one.
const ROUNDING: f32 = 12582912.0;

// The nearest whole number, halves away from zero. A sum leaves a half to the even whole number, so the last digit is
// set first: it takes a half away from zero and, as a half ends in a 0 here, no other value to a half or past one.
// Without a branch or a shift, so that a loop over it is vectorised.
#[tactic(auto, using(crate::proofs::Fields::whole_rules))]
fn nearest_whole(value: f32) -> i16
    requires { T (is_within largest_ceiling value) }
    ensures { result ≡ whole_of value }
{
    let off_half = f32::from_bits(value.to_bits() | 1);
    ((off_half + ROUNDING) - ROUNDING) as i16
}

// The exact value, cut to the ceiling on either side, and its whole number.
#[tactic(auto, using(crate::proofs::Cuts::cut_rules))]
pub fn quantise(value: f32, ceiling: Ceiling) -> i16
    requires { T (not (is_nan value)) }
    ensures { result ≡ quantised ceiling.value value }
{
    let top = ceiling.value as f32;
    let cut = value.clamp(-top, top);
    nearest_whole(cut)
}

// A size with the sign of a sample; a sample of either zero gives 0.
#[tactic(auto, using(crate::proofs::Comparisons::sign_rules))]
fn by_sign(sample: f32, size: i16) -> i16
    requires { nat_abs size ≤ largest_ceiling }
    ensures { result ≡ by_sign sample size }
{
    if sample < 0.0 {
        -size
    } else if 0.0 < sample {
        size
    } else {
        0
    }
}

// Each LLR by its position. Inlined, so that what the closure captures stays in registers.
#[inline(always)]
pub fn fill_each<F: Fn(usize) -> i16>(llr: &mut [i16], llr_at: F)
    requires { (i : ℕ) → i < length llr.old → F.pre llr_at i }
    ensures { (i : ℕ) → i < length llr.old → F.post llr_at i (get_or llr.new i (pos 0)) }
{
    for (i, place) in llr.iter_mut().enumerate() {
        *place = llr_at(i);
    }
}

// The LLRs of the first samples, by the kind of channel.
fn fill(channel: Channel, ceiling: Ceiling, samples: &[f32], llr: &mut [i16])
    requires usable { T (is_usable channel) }
    requires long_enough { length llr.old ≤ length samples.now }
    requires finite { T (all_finite (length llr.old) samples.now) }
    ensures { llr.new
        ≡ overwrite (length llr.old) (λ i. llr_of ceiling.value channel (get_or samples.now i nan))
        llr.old }
{
    match channel {
        Channel::Gaussian(factor) => fill_each(llr, |i| quantise(samples[i] * factor, ceiling)),
        Channel::Flipping(weight) => {
            let size = quantise(weight, ceiling);
            fill_each(llr, |i| by_sign(samples[i], size))
        }
        Channel::Erasing => {
            let size = ceiling.value as i16;
            fill_each(llr, |i| by_sign(samples[i], size))
        }
    }
}

// How many positions a block has.
pub fn block_length(m: u32) -> Result<usize, Refusal>
    ensures { IsBlockLength m result }
{
    if !(1..=LARGEST_M).contains(&m) {
        return Err(Refusal::BlockLength);
    }
    Ok(1 << m)
}

// The first 2^m samples become the first 2^m LLRs.
#[tactic(auto, using(crate::proofs::Samples::finite_firsts))]
pub fn front(
    m: u32,
    ceiling: u32,
    channel: Channel,
    samples: &[f32],
    llr: &mut [i16],
) -> Result<(), Refusal>
    ensures result_value { number_of result ≡ front_number m ceiling channel samples.now (length llr.old) }
    ensures llr_after { llr.new ≡ front_llrs m ceiling channel samples.now llr.old }
{
    let n = block_length(m)?;
    let ceiling = Ceiling::try_from(ceiling)?;
    if samples.len() < n || llr.len() < n {
        return Err(Refusal::ShortSlice);
    }
    if !channel.is_usable() {
        return Err(Refusal::ChannelFactor);
    }
    if !all_finite(&samples[..n]) {
        return Err(Refusal::SampleNotFinite);
    }
    fill(channel, ceiling, samples, &mut llr[..n]);
    Ok(())
}
