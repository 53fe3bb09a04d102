// A step in runs of W upper positions and their partners: pair by pair for blocks of fewer than eight positions, where
// W is 1, and eight pairs at a time for distances of eight and more.
ghost use Rattle.std.specs.Prelude.{◌≡◌, ◌+◌, ◌^◌, ◌<◌, ◌≤◌, length};
ghost use Rattle.std.specs.Int.{trailing_zeros, w64};
ghost use Rattle.sweeps.specs.Private.{ReadableRun, pair_runs, row_step};
ghost use Rattle.sweeps.specs.IterationLaws.{WorkspaceValid};

use crate::step::Step;
use crate::{arrays, messages};
use message::MinSum;

// The new messages of the W upper positions from the places x, y and `to` on, and of their partners. One loop fills
// both arrays: with an `array::from_fn` for each, an iteration took up to a tenth longer.
fn join<const W: usize>(rule: MinSum, d: usize, to: usize, x: usize, y: usize, work: &mut [i16])
    requires readable_run { ReadableRun rule W d x y work.old }
    requires d_in_bounds { to + d + W ≤ length work.old }
    ensures { work.new ≡ pair_runs rule d to x y W work.old }
{
    let mut upper = [0i16; W];
    let mut lower = [0i16; W];
    for i in 0..W {
        upper[i] = messages::upper_message(rule, work, i, d, x, y);
        lower[i] = messages::lower_message(rule, work, i, d, x, y);
    }
    arrays::put(&upper, to, work);
    arrays::put(&lower, to + d, work);
}

// The mask test chooses the upper runs. The last run is of lower positions.
pub fn by_runs<const W: usize>(rule: MinSum, step: Step, work: &mut [i16])
    requires workspace_valid { WorkspaceValid rule step.m work.old }
    requires width { (W ≡ 2 ^ trailing_zeros w64 W) × (trailing_zeros w64 W ≤ step.t) }
    ensures { work.new
        ≡ row_step rule step.m step.t step.k step.x step.y work.old }
{
    let n = polar::power_of_two(step.m);
    let d = polar::power_of_two(step.t);
    for r in 0..(n - d) >> W.trailing_zeros() {
        let p = W * r;
        if p & d == 0 {
            join::<W>(
                rule,
                d,
                step.k * n + p,
                step.x * n + p,
                step.y * n + p,
                work,
            );
        }
    }
}
