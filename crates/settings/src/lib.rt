// The decoder's settings, and every test that a call of the decoder makes before it writes.
// It sees `calls` and `polar`. It promises the number and the exact condition of each refusal from 1 to 10.
#![tactic(auto)]

ghost use Rattle.std.specs.Prelude.{◌≡◌, ◌&&◌, ◌≤◌, ◌^◌, length};
ghost use Rattle.std.specs.Int.Signed.{le_z};
ghost use Rattle.calls.specs.Bounds.{largest_m, largest_ceiling};
ghost use Rattle.calls.specs.Numbers.{number_of, between};
ghost use Rattle.settings.specs.Settings.{operand_fits, settings_number, slices_fit, within_ceiling, decode_number};
ghost use Rattle.settings.specs.Private.{mask_and_llr_number};

use calls::{LARGEST_CEILING, LARGEST_M, LARGEST_SCALE, Refusal};

// The largest limit T.
const LARGEST_LIMIT: u32 = 64;

// The criteria are numbered from 0 to this one.
const LARGEST_CRITERION: u32 = 4;

// The settings travel as one struct by value, so that a later setting joins them here.
#[derive(Clone, Copy)]
pub struct Settings {
    pub m: u32,
    pub ceiling: u32,
    pub scale: u32,
    pub limit: u32,
    pub criterion: u32,
    pub operand: u32,
}

// The lengths of the slices that are lent to be written.
#[derive(Clone, Copy)]
pub struct Lengths {
    pub soft: usize,
    pub mark: usize,
    pub coded_soft: usize,
    pub coded_mark: usize,
    pub work: usize,
}

// The operand's range is its criterion's.
fn operand_fits(ceiling: u32, criterion: u32, operand: u32) -> bool
    ensures { result ≡ operand_fits ceiling criterion operand }
{
    match criterion {
        0 | 1 => operand == 0,
        2 => (1..=ceiling).contains(&operand),
        3 => (1..=8).contains(&operand),
        _ => (1..=ceiling).contains(&operand),
    }
}

// 1 to 6.
fn settings_refusal(settings: Settings) -> Result<(), Refusal>
    ensures { number_of result ≡ settings_number settings }
{
    if !(1..=LARGEST_M).contains(&settings.m) {
        return Err(Refusal::BlockLength);
    }
    if !(1..=LARGEST_CEILING).contains(&settings.ceiling) {
        return Err(Refusal::Ceiling);
    }
    if !(1..=LARGEST_SCALE).contains(&settings.scale) {
        return Err(Refusal::Scale);
    }
    if !(1..=LARGEST_LIMIT).contains(&settings.limit) {
        return Err(Refusal::Limit);
    }
    if LARGEST_CRITERION < settings.criterion {
        return Err(Refusal::Criterion);
    }
    if !operand_fits(settings.ceiling, settings.criterion, settings.operand) {
        return Err(Refusal::Operand);
    }
    Ok(())
}

// 7, of the lengths of the mask, of the LLRs and of the slices that are written.
fn slices_fit(m: u32, mask: usize, llr: usize, lengths: Lengths) -> bool
    requires { m ≤ largest_m }
    ensures { result ≡ slices_fit m mask llr lengths }
{
    let n = polar::power_of_two(m);
    n <= mask
        && n <= llr
        && n <= lengths.soft
        && n <= lengths.mark
        && n <= lengths.coded_soft
        && n <= lengths.coded_mark
        && 2 * (m as usize + 1) * n <= lengths.work
}

// Whether a value lies from low to high. No value is negated, so -32768 is tested as any other.
fn lies_within(low: i16, high: i16, value: i16) -> bool
    ensures { result ≡ le_z low value && le_z value high }
{
    (low..=high).contains(&value)
}

// 10. It looks at every LLR and keeps one flag: a loop with an early exit, as the library's `all`, is not vectorised.
fn within_ceiling(llr: &[i16], ceiling: u32) -> bool
    requires { ceiling ≤ largest_ceiling }
    ensures { result ≡ within_ceiling (length llr.now) ceiling llr.now }
{
    let high = ceiling as i16;
    let low = -high;
    llr.iter().fold(
        true,
        |within, value| within & lies_within(low, high, *value),
    )
}

// 8 to 10, where the tests before have passed.
#[tactic(auto, using(crate::proofs::Firsts::llr_firsts))]
fn block_refusal(m: u32, ceiling: u32, mask: &[u8], llr: &[i16]) -> Result<(), Refusal>
    requires le_m { (1 ≤ m) × (m ≤ largest_m) × (ceiling ≤ largest_ceiling) }
    requires m_in_bounds { (2 ^ m ≤ length mask.now) × (2 ^ m ≤ length llr.now) }
    ensures { number_of result ≡ mask_and_llr_number m ceiling mask.now llr.now }
{
    polar::code_refusal(polar::Code { m }, mask, llr.len())?;
    let n = polar::power_of_two(m);
    if !within_ceiling(&llr[..n], ceiling) {
        return Err(Refusal::LlrAboveCeiling);
    }
    Ok(())
}

// Every test of the decoder. It writes nothing.
pub fn refusal(
    settings: Settings,
    mask: &[u8],
    llr: &[i16],
    lengths: Lengths,
) -> Result<(), Refusal>
    ensures { number_of result ≡ decode_number settings mask.now llr.now lengths }
{
    settings_refusal(settings)?;
    if !slices_fit(settings.m, mask.len(), llr.len(), lengths) {
        return Err(Refusal::ShortSlice);
    }
    block_refusal(settings.m, settings.ceiling, mask, llr)
}
