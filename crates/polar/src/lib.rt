// The polar code: a message becomes a block of N = 2^m coded bits, and bytes at the information positions are read out
// again. It sees `calls` alone. It promises document 01's closed form for every coded bit, and the number and the exact
// condition of each refusal.
#![tactic(auto)]

ghost use Rattle.std.specs.Prelude.{◌≡◌, ℕ, ◌+◌, ◌-◌, ◌<◌, ◌≤◌, ◌^◌, leb, length, get_or};
ghost use Rattle.calls.specs.Every.{every};
ghost use Rattle.calls.specs.Bounds.{largest_m};
ghost use Rattle.calls.specs.Numbers.{number_of};
ghost use Rattle.calls.specs.LentMemory.{overwrite};
ghost use Rattle.calls.specs.Bits.{byte_of};
ghost use Rattle.polar.specs.Mask.{is_mask_byte, is_information, frozen_bit, mask_accepted};
ghost use Rattle.polar.specs.Code.{
  information_count,
  u_bit,
  coded,
  information_bytes,
  are_bits,
  code_number,
  message_number,
  encode_number,
  encode_block,
  read_out_number,
  read_out_message,
};
ghost use Rattle.polar.specs.Columns.{column_step, column};
ghost use Rattle.polar.specs.Private.{sixteens_coded};
ghost use Rattle.polar.specs.CodeLaws.{MessageAccepted};
ghost use Rattle.polar.specs.BlockLaws.{bits_of, Bits};
ghost use Rattle.std.specs.Int.Bits.{bit_xor};

use calls::{LARGEST_M, Refusal};

// The settings of a code. Coder and read-out take them by value, so that a later setting joins them here.
#[derive(Clone, Copy)]
pub struct Code {
    pub m: u32,
}

// N from m, and a distance from the digit that it stands for. Offered to the crates above, which have tested m. The
// shift is of 32 bits and widened afterwards: of `p < 1 << m` at one width LLVM makes `p >> m == 0`, no longer sees how
// often a loop runs, and does not vectorise it.
pub fn power_of_two(k: u32) -> usize
    requires { k ≤ largest_m }
    ensures { result ≡ 2 ^ k }
{
    (1u32 << k) as usize
}

// The largest of the bytes, 0 of none: it is at most b where each of them is. It needs no branch.
fn largest(bytes: &[u8]) -> u8
    ensures { (b : ℕ) → leb result b ≡ every (length bytes.now) (λ i. leb (get_or bytes.now i 0) b) }
{
    bytes.iter().fold(0, |most, byte| most.max(*byte))
}

// Whether the bytes are 0 or 1.
fn are_bits(bytes: &[u8]) -> bool
    ensures { result ≡ are_bits (length bytes.now) bytes.now }
{
    largest(bytes) <= 1
}

// What a byte of the mask means is asked here alone: whether it may stand in a mask, whether it marks an information
// position, and which bit a frozen position carries, 0 whatever its byte.
fn is_mask_byte(kind: u8) -> bool
    ensures { result ≡ is_mask_byte kind }
{
    kind <= 1
}

pub fn is_information(kind: u8) -> bool
    ensures { result ≡ is_information kind }
{
    kind == 0
}

fn frozen_bit(kind: u8) -> u8
    ensures { result ≡ byte_of (frozen_bit kind) }
{
    0
}

// Whether the bytes are a mask's. A byte that is at most the largest one may stand in a mask where that one may.
fn mask_accepted(mask: &[u8]) -> bool
    ensures { result ≡ mask_accepted (length mask.now) mask.now }
{
    is_mask_byte(largest(mask))
}

// How many positions are information positions. The counter has 16 bits, so that eight fill a register.
fn information_count(mask: &[u8]) -> usize
    requires { length mask.now ≤ 2 ^ largest_m }
    ensures { result ≡ information_count mask.now (length mask.now) }
{
    let mut count = 0u16;
    for kind in mask {
        if is_information(*kind) {
            count += 1;
        }
    }
    count as usize
}

// The tests that the coder and the read-out share: 1; 7, the mask or the slice of N elements beside it; 8; 9.
#[tactic(auto, using(crate::proofs::Firsts::code_firsts))]
pub fn code_refusal(code: Code, mask: &[u8], room: usize) -> Result<(), Refusal>
    ensures { number_of result ≡ code_number code mask.now room }
{
    let m = code.m;
    if !(1..=LARGEST_M).contains(&m) {
        return Err(Refusal::BlockLength);
    }
    let n = power_of_two(m);
    if mask.len() < n {
        return Err(Refusal::ShortSlice);
    }
    if room < n {
        return Err(Refusal::ShortSlice);
    }
    let mask = &mask[..n];
    if !mask_accepted(mask) {
        return Err(Refusal::MaskValue);
    }
    if information_count(mask) == 0 {
        return Err(Refusal::NoInformation);
    }
    Ok(())
}

// The tests of a message for K information positions: 7; 13.
#[tactic(auto, using(crate::proofs::Firsts::bits_firsts))]
fn message_refusal(message: &[u8], count: usize) -> Result<(), Refusal>
    ensures { number_of result ≡ message_number message.now count }
{
    if message.len() < count {
        return Err(Refusal::ShortSlice);
    }
    if !are_bits(&message[..count]) {
        return Err(Refusal::MessageBit);
    }
    Ok(())
}

// Every test of the coder. It writes nothing. Offered to the crates above, which test before they write.
pub fn encode_refusal(code: Code, mask: &[u8], message: &[u8], room: usize) -> Result<(), Refusal>
    ensures { number_of result ≡ encode_number code mask.now message.now room }
{
    code_refusal(code, mask, room)?;
    let m = code.m;
    message_refusal(message, information_count(&mask[..power_of_two(m)]))
}

// u: the message bits in the information positions, the frozen bits in the others.
fn place(mask: &[u8], message: &[u8], block: &mut [u8])
    requires mask_in_bounds { length mask.now ≤ length block.old }
    requires message_accepted { MessageAccepted message.now (information_count mask.now (length mask.now)) }
    ensures { block.new
        ≡ overwrite (length mask.now) (λ i. byte_of (u_bit mask.now message.now i)) block.old }
{
    let mut used = 0;
    for (i, kind) in mask.iter().enumerate() {
        if is_information(*kind) {
            block[i] = message[used];
            used += 1;
        } else {
            block[i] = frozen_bit(*kind);
        }
    }
}

// Each of the first d positions takes the exclusive-or with the one d after it. The two runs are slices of their own,
// so that the compiler knows them apart and needs no test of overlap.
fn join(runs: &mut [u8], d: usize)
    requires { d + d ≤ length runs.old }
    ensures { runs.new
        ≡ overwrite d (λ i. bit_xor (get_or runs.old i 0) (get_or runs.old (d + i) 0)) runs.old }
{
    let (upper, lower) = runs.split_at_mut(d);
    for (i, bit) in upper.iter_mut().enumerate() {
        *bit ^= lower[i];
    }
}

// One step, over the distance d = 2^t. The positions go in runs of d, and the mask test chooses the upper ones.
fn butterflies(block: &mut [u8], m: u32, t: u32)
    requires m_le_largest_m { (m ≤ largest_m) × (t < m) }
    requires bits { Bits (2 ^ m) block.old }
    ensures { block.new
        ≡ overwrite (2 ^ m) (λ i. byte_of (column_step t (bits_of block.old) i)) block.old }
{
    let n = power_of_two(m);
    let d = power_of_two(t);
    for p in (0..n).step_by(d) {
        if p & d == 0 {
            join(&mut block[p..], d);
        }
    }
}

// The first steps of the transform, over the distances 2^(m-1), 2^(m-2), and so on. Neither this nor the next is
// inlined, so that the loop over the sixteens has the registers to itself.
#[inline(never)]
fn first_steps(block: &mut [u8], m: u32, count: u32)
    requires m_le_largest_m { (m ≤ largest_m) × (count ≤ m) }
    requires bits { Bits (2 ^ m) block.old }
    ensures { block.new
        ≡ overwrite (2 ^ m) (λ i. byte_of (column m (bits_of block.old) count i)) block.old }
{
    for s in 0..count {
        butterflies(block, m, m - 1 - s);
    }
}

// The steps down to the distance 16. That of the last is written out, so that the compiler joins a run at once.
#[inline(never)]
fn steps_to_sixteen(block: &mut [u8], m: u32)
    requires m_le_largest_m { (m ≤ largest_m) × (4 ≤ m) }
    requires bits { Bits (2 ^ m) block.old }
    ensures { block.new
        ≡ overwrite (2 ^ m) (λ i. byte_of (column m (bits_of block.old) (m - 4) i)) block.old }
{
    if 4 < m {
        first_steps(block, m, m - 5);
        butterflies(block, m, 4);
    }
}

// The coded bits of the first sixteen elements. With the literals of each call the compiler unrolls its loops and drops
// the mask tests, and a bit is read and written once for all four steps.
fn transform_sixteen(block: &mut [u8])
    requires { Bits 16 block.old }
    ensures { block.new
        ≡ overwrite 16 (λ i. byte_of (coded 4 (bits_of block.old) i)) block.old }
{
    butterflies(block, 4, 3);
    butterflies(block, 4, 2);
    butterflies(block, 4, 1);
    butterflies(block, 4, 0);
}

// The last four steps, over the distances 8, 4, 2 and 1, in one pass: they join no position with one outside its
// sixteen, so that each sixteen is a block of its own.
#[tactic(auto, using(crate::proofs::Sixteens::sixteens))]
fn last_steps(block: &mut [u8], m: u32)
    requires m_le_largest_m { (m ≤ largest_m) × (4 ≤ m) }
    requires bits { Bits (2 ^ m) block.old }
    ensures { block.new
        ≡ overwrite (2 ^ m) (λ i. byte_of (sixteens_coded (bits_of block.old) i)) block.old }
{
    for k in 0..power_of_two(m - 4) {
        transform_sixteen(&mut block[16 * k..]);
    }
}

// The coded bits of the first 2^m elements, in place: m steps, from the distance 2^(m-1) down to 1.
// It is offered to the crates above, which lend it bits.
pub fn transform(block: &mut [u8], m: u32)
    requires m_le_largest_m { m ≤ largest_m }
    requires bits { Bits (2 ^ m) block.old }
    ensures { block.new
        ≡ overwrite (2 ^ m) (λ i. byte_of (coded m (bits_of block.old) i)) block.old }
{
    if m < 4 {
        first_steps(block, m, m);
    } else {
        steps_to_sixteen(block, m);
        last_steps(block, m);
    }
}

// The message, coded, in the first 2^m elements of the block.
pub fn encode(code: Code, mask: &[u8], message: &[u8], block: &mut [u8]) -> Result<(), Refusal>
    ensures result_value { number_of result
        ≡ encode_number code mask.now message.now (length block.old) }
    ensures block_after { block.new
        ≡ encode_block code mask.now message.now block.old }
{
    encode_refusal(code, mask, message, block.len())?;
    let m = code.m;
    place(&mask[..power_of_two(m)], message, block);
    transform(block, m);
    Ok(())
}

// Every test of the read-out. It writes nothing.
fn read_out_refusal(code: Code, mask: &[u8], bytes: &[u8], room: usize) -> Result<(), Refusal>
    ensures { number_of result ≡ read_out_number code mask.now bytes.now room }
{
    code_refusal(code, mask, bytes.len())?;
    let m = code.m;
    if room < information_count(&mask[..power_of_two(m)]) {
        Err(Refusal::ShortSlice)
    } else {
        Ok(())
    }
}

// The bytes at the information positions, one after the other.
fn gather(mask: &[u8], bytes: &[u8], message: &mut [u8])
    requires { (length mask.now ≤ length bytes.now)
        × (information_count mask.now (length mask.now) ≤ length message.old) }
    ensures { message.new
        ≡ overwrite (information_count mask.now (length mask.now))
        (λ k. get_or (information_bytes mask.now bytes.now (length mask.now)) k 0) message.old }
{
    let mut count = 0;
    for (i, kind) in mask.iter().enumerate() {
        if is_information(*kind) {
            message[count] = bytes[i];
            count += 1;
        }
    }
}

// The bytes at the information positions, in rising order, in the first K elements of the message.
pub fn read_out(code: Code, mask: &[u8], bytes: &[u8], message: &mut [u8]) -> Result<(), Refusal>
    ensures result_value { number_of result
        ≡ read_out_number code mask.now bytes.now (length message.old) }
    ensures message_after { message.new
        ≡ read_out_message code mask.now bytes.now message.old }
{
    read_out_refusal(code, mask, bytes, message.len())?;
    let m = code.m;
    gather(&mask[..power_of_two(m)], bytes, message);
    Ok(())
}
