// Messages in local arrays. All of them are computed before the first is written, so that the compiler needs no
// test whether what is read and what is written overlap, and keeps the array in a register.
ghost use Rattle.std.specs.Prelude.{◌≡◌, ◌+◌, ◌<◌, ◌≤◌, length};
ghost use Rattle.calls.specs.LentMemory.{overwrite_from};
ghost use Rattle.sweeps.specs.Private.{message_at, MaskTable, Gathered};

use std::array;

// The mask tests of eight positions: i & d for each. The compiler is not to know them: it would compute each position
// by a formula of its own.
pub fn mask_table(d: usize) -> [i16; 8]
    requires { d < 8 }
    ensures { MaskTable d result }
{
    array::from_fn(|i| (i & d) as i16)
}

// The eight messages at the places i + (i & mask) after `at`.
pub fn gather(work: &[i16], at: usize, mask: usize) -> [i16; 8]
    requires { at + 16 ≤ length work.now }
    ensures { Gathered at mask work.now result }
{
    array::from_fn(|i| work[at + (i + (i & mask))])
}

// The values, from element `at` on. (`copy_from_slice` would put the register into memory first, to test whether what
// it reads and what it writes overlap.)
#[tactic(auto, using(crate::proofs::Rows::run_filling))]
pub fn put<const W: usize>(values: &[i16; W], at: usize, work: &mut [i16])
    requires { at + W ≤ length work.old }
    ensures { work.new ≡ overwrite_from at W (message_at values.now) work.old }
{
    for (i, message) in work[at..at + W].iter_mut().enumerate() {
        *message = values[i];
    }
}
