// A step over the distance 2 or 4, sixteen positions at a time, for blocks of sixteen positions and more. The upper
// positions are gathered in one register and the lower ones in another, and the new messages are merged again. The
// distance d is 2^T, a constant, so that the compiler shuffles registers. Pair i has its upper position at i + (i &
// mask), where the mask is 8 - d: the digits of i from that of weight d on count twice.
ghost use Rattle.std.specs.Prelude.{◌≡◌, ◌+◌, ◌^◌, ◌≤◌, ◌<◌, length};
ghost use Rattle.calls.specs.LentMemory.{overwrite_from};
ghost use Rattle.message.specs.Message.{add, f};
ghost use Rattle.sweeps.specs.Private.{
  message_at,
  Within,
  ReadableRun,
  merged_at,
  new_run,
  row_step,
};
ghost use Rattle.sweeps.specs.IterationLaws.{WorkspaceValid};

use crate::step::Step;
use crate::{arrays, messages};
use message::MinSum;

// The new messages of pair i: of its upper position, and of its lower one.
fn upper_of(rule: MinSum, own: &[i16; 8], x: &[i16; 8], y: &[i16; 8], i: usize) -> i16
    requires i_in_bounds { i < 8 }
    requires within { Within rule own.now i × Within rule x.now i × Within rule y.now i }
    ensures { result ≡ f rule (message_at own.now i)
        (add rule (message_at x.now i) (message_at y.now i)) }
{
    messages::upper(rule, own[i], x[i], y[i])
}

fn lower_of(rule: MinSum, own: &[i16; 8], x: &[i16; 8], y: &[i16; 8], i: usize) -> i16
    requires i_in_bounds { i < 8 }
    requires within { Within rule own.now i × Within rule x.now i × Within rule y.now i }
    ensures { result ≡ add rule (f rule (message_at x.now i) (message_at y.now i))
        (message_at own.now i) }
{
    messages::lower(rule, own[i], x[i], y[i])
}

// The new messages of eight pairs over the distance 2^T, in the order of their positions.
#[tactic(auto, using(crate::proofs::Merged::merging, crate::proofs::Rows::run_filling))]
fn put_merged<const T: u32>(upper: &[i16; 8], lower: &[i16; 8], at: usize, work: &mut [i16])
    requires distance { (1 ≤ T) × (T ≤ 2) }
    requires at_in_bounds { at + 16 ≤ length work.old }
    ensures { work.new
        ≡ overwrite_from at 16 (merged_at (2 ^ T) upper.now lower.now) work.old }
{
    let d = polar::power_of_two(T);
    for (i, message) in work[at..at + 16].iter_mut().enumerate() {
        let pair = (i & (d - 1)) + (i >> 1 & (8 - d));
        *message = messages::pick(i & d == 0, upper[pair], lower[pair]);
    }
}

// The new messages of sixteen positions. One loop fills both arrays: the compiler would call an `array::from_fn` of
// each, and an iteration take half as long again.
#[tactic(auto, using(crate::proofs::Merged::distance_le))]
fn chunk<const T: u32>(rule: MinSum, to: usize, x: usize, y: usize, work: &mut [i16])
    requires distance { (1 ≤ T) × (T ≤ 2) }
    requires readable_run { ReadableRun rule 16 (2 ^ T) x y work.old }
    requires to_in_bounds { to + 16 ≤ length work.old }
    ensures { work.new ≡ new_run rule (2 ^ T) to x y 16 work.old }
{
    let d = polar::power_of_two(T);
    let x_upper = arrays::gather(work, x, 8 - d);
    let x_lower = arrays::gather(work, x + d, 8 - d);
    let y_upper = arrays::gather(work, y, 8 - d);
    let y_lower = arrays::gather(work, y + d, 8 - d);
    let mut upper = [0i16; 8];
    let mut lower = [0i16; 8];
    for i in 0..8 {
        upper[i] = upper_of(rule, &x_upper, &x_lower, &y_lower, i);
        lower[i] = lower_of(rule, &x_lower, &x_upper, &y_upper, i);
    }
    put_merged::<T>(&upper, &lower, to, work);
}

#[tactic(auto, using(crate::proofs::Digits::sixteens))]
pub fn by_chunks<const T: u32>(rule: MinSum, step: Step, work: &mut [i16])
    requires workspace_valid { WorkspaceValid rule step.m work.old }
    requires t_is { (step.t ≡ T) × (1 ≤ T) × (T ≤ 2) × (4 ≤ step.m) }
    ensures { work.new
        ≡ row_step rule step.m step.t step.k step.x step.y work.old }
{
    let n = polar::power_of_two(step.m);
    for c in 0..n >> 4 {
        let p = 16 * c;
        chunk::<T>(rule, step.k * n + p, step.x * n + p, step.y * n + p, work);
    }
}
