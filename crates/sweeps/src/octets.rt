// A step of a block of eight positions: one register holds a whole row, and a position finds its partner inside it.
ghost use Rattle.std.specs.Prelude.{◌≡◌, ◌^◌, ◌≤◌};
ghost use Rattle.sweeps.specs.Private.{MaskTable, NewEight, ReadableRun, row_step};
ghost use Rattle.sweeps.specs.IterationLaws.{WorkspaceValid};

use crate::step::Step;
use crate::{arrays, messages};
use message::MinSum;
use std::array;

// The new messages of a row over the distance 2^T: a constant, so that the compiler shuffles the register.
fn octet<const T: u32>(rule: MinSum, masks: &[i16; 8], work: &[i16], x: usize, y: usize) -> [i16; 8]
    requires distance { T ≤ 2 }
    requires mask_table { MaskTable (2 ^ T) masks.now }
    requires readable_run { ReadableRun rule 8 (2 ^ T) x y work.now }
    ensures { NewEight rule (2 ^ T) x y work.now result }
{
    let d = polar::power_of_two(T);
    array::from_fn(|i| messages::partnered(rule, masks[i] == 0, work, i, i ^ d, x, y))
}

#[tactic(auto, using(crate::proofs::Merged::distance_le))]
pub fn by_octet(rule: MinSum, step: Step, work: &mut [i16])
    requires workspace_valid { WorkspaceValid rule step.m work.old }
    requires m_is { step.m ≡ 3 }
    ensures { work.new
        ≡ row_step rule step.m step.t step.k step.x step.y work.old }
{
    let masks = arrays::mask_table(polar::power_of_two(step.t));
    let x = step.x * 8;
    let y = step.y * 8;
    let to = step.k * 8;
    match step.t {
        0 => arrays::put(&octet::<0>(rule, &masks, work, x, y), to, work),
        1 => arrays::put(&octet::<1>(rule, &masks, work, x, y), to, work),
        _ => arrays::put(&octet::<2>(rule, &masks, work, x, y), to, work),
    }
}
