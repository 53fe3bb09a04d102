// The front for two antennas: each branch has its 32-bit float samples and its factor, and each pair of samples becomes
// one whole LLR of size at most the ceiling. It sees `calls` and `channel`. It promises request 2026-06's LLR for each
// of the first 2^m pairs, for every two floats there are, and the number and the exact condition of each refusal.
#![tactic(auto)]

ghost use Rattle.std.specs.Prelude.{◌≡◌, ◌&&◌, ◌≤◌, T, length};
ghost use Rattle.std.specs.Float.{binary32};
ghost use Rattle.std.specs.Float.Ieee.{mul};
ghost use Rattle.calls.specs.Numbers.{number_of};
ghost use Rattle.channel.specs.Front.{is_finite};
ghost use Rattle.antennas.specs.FrontTwo.{
  largest_product,
  cut_to,
  llr_of_two,
  are_usable,
  branches,
  are_finite,
  front_two_number,
  front_two_llrs,
};

use calls::Refusal;
use channel::Ceiling;

// The largest size of a branch's product.
const LARGEST_PRODUCT: f32 = 4096.0;

// The factor of each branch.
#[derive(Clone, Copy)]
pub struct Receiver {
    pub first: f32,
    pub second: f32,
}

// What a branch adds to the sum: one product, rounded once, and cut.
#[tactic(auto, using(crate::proofs::Sums::branch_cut))]
fn branch(sample: f32, factor: f32) -> f32
    ensures { result ≡ cut_to largest_product (mul binary32 sample factor) }
{
    (sample * factor).clamp(-LARGEST_PRODUCT, LARGEST_PRODUCT)
}

// The LLR of a pair of samples: one sum, rounded once, and quantised as for one antenna.
#[tactic(auto, using(crate::proofs::Sums::sum_of_branches))]
fn llr_of_two(ceiling: Ceiling, receiver: Receiver, x: f32, y: f32) -> i16
    requires usable { T (are_usable receiver) }
    requires finite { T (is_finite x) × T (is_finite y) }
    ensures { result ≡ llr_of_two ceiling.value receiver x y }
{
    channel::quantise(
        branch(x, receiver.first) + branch(y, receiver.second),
        ceiling,
    )
}

impl Receiver {
    fn is_usable(self) -> bool
        ensures { result ≡ are_usable self }
    {
        channel::above_zero(self.first) && channel::above_zero(self.second)
    }
}

// Whether both samples are finite: a finite value less itself is zero, and any other a NaN, which equals nothing. One
// comparison for the two.
#[tactic(auto, using(channel::proofs::Comparisons::both_finite_is))]
fn pair_finite(x: f32, y: f32) -> bool
    ensures { result ≡ is_finite x && is_finite y }
{
    x - x == y - y
}

// Whether the samples of both branches are finite.
fn both_finite(first: &[f32], second: &[f32]) -> bool
    requires { length first.now ≡ length second.now }
    ensures { result ≡ are_finite (length first.now) (branches first.now second.now) }
{
    first.iter().zip(second).all(|(x, y)| pair_finite(*x, *y))
}

// The first 2^m samples of both branches become the first 2^m LLRs.
pub fn front_two(
    m: u32,
    ceiling: u32,
    receiver: Receiver,
    first: &[f32],
    second: &[f32],
    llr: &mut [i16],
) -> Result<(), Refusal>
    ensures result_value { number_of result
        ≡ front_two_number m ceiling receiver (branches first.now second.now)
        (length llr.old) }
    ensures llr_after { llr.new
        ≡ front_two_llrs m ceiling receiver (branches first.now second.now) llr.old }
{
    let n = channel::block_length(m)?;
    let ceiling = Ceiling::try_from(ceiling)?;
    if first.len() < n || second.len() < n || llr.len() < n {
        return Err(Refusal::ShortSlice);
    }
    if !receiver.is_usable() {
        return Err(Refusal::ChannelFactor);
    }
    if !both_finite(&first[..n], &second[..n]) {
        return Err(Refusal::SampleNotFinite);
    }
    channel::fill_each(&mut llr[..n], |i| {
        llr_of_two(ceiling, receiver, first[i], second[i])
    });
    Ok(())
}
