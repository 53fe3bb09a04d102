// A step over the distance 1, eight positions at a time, for blocks of sixteen positions and more. Upper and lower
// positions take turns, so both formulas are one for all eight, and the partners are read beside them.
ghost use Rattle.std.specs.Prelude.{◌≡◌, ◌≤◌};
ghost use Rattle.sweeps.specs.Private.{MaskTable, NewEight, ReadableRun, row_step};
ghost use Rattle.sweeps.specs.IterationLaws.{WorkspaceValid};

use crate::step::Step;
use crate::{arrays, messages};
use message::MinSum;
use std::array;

// The new messages of the eight positions from the places x and y on.
fn eight_beside(rule: MinSum, masks: &[i16; 8], work: &[i16], x: usize, y: usize) -> [i16; 8]
    requires mask_table { MaskTable 1 masks.now }
    requires readable_run { ReadableRun rule 8 1 x y work.now }
    ensures { NewEight rule 1 x y work.now result }
{
    array::from_fn(|i| messages::new_message(rule, masks[i] == 0, work, i, 1, x, y))
}

#[tactic(auto, using(crate::proofs::Digits::eights))]
pub fn by_neighbours(rule: MinSum, step: Step, work: &mut [i16])
    requires workspace_valid { WorkspaceValid rule step.m work.old }
    requires t_is { (step.t ≡ 0) × (4 ≤ step.m) }
    ensures { work.new
        ≡ row_step rule step.m step.t step.k step.x step.y work.old }
{
    let n = polar::power_of_two(step.m);
    let masks = arrays::mask_table(1);
    for e in 0..n >> 3 {
        let p = 8 * e;
        let values = eight_beside(rule, &masks, work, step.x * n + p, step.y * n + p);
        arrays::put(&values, step.k * n + p, work);
    }
}
