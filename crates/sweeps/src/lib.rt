// The workspace and the sweeps: the start, and one iteration of message passing over the columns of L and R. It sees
// `message` and `polar`, and no criterion. It promises that the workspace at exit is document 01's function of the
// workspace at entry, the rest of the slice untouched. Its functions are offered to the crate above, which has tested
// settings, mask and LLRs.
//
// A step writes one row from two others (`step`). It has four shapes, a file each, all with one promise, `row_step`:
// `row_step` chooses by the distance and the block length. `messages` has the formulas, and `arrays` what the shapes
// share. Their loops over a row count its turns, and a turn takes its position from that: `step_by` takes up to three
// instructions more a turn.
#![tactic(auto)]

ghost use Rattle.std.specs.Prelude.{◌≡◌, ◌+◌, ◌*◌, ◌<◌, ◌≤◌, ◌^◌, pos, length, get_or};
ghost use Rattle.calls.specs.Bounds.{largest_m, largest_ceiling, workspace_length};
ghost use Rattle.calls.specs.LentMemory.{overwrite};
ghost use Rattle.sweeps.specs.Workspace.{set_l, set_r};
ghost use Rattle.sweeps.specs.Iteration.{left_steps, right_steps, iteration, prior, start};
ghost use Rattle.sweeps.specs.Private.{message_at, row_step};
ghost use Rattle.sweeps.specs.IterationLaws.{WorkspaceValid};

mod arrays;
mod chunks;
mod messages;
mod neighbours;
mod octets;
mod runs;
mod step;

use message::MinSum;
use step::Step;

// The message at position i of the row that starts at `at`.
pub fn get(work: &[i16], at: usize, i: usize) -> i16
    requires { at + i < length work.now }
    ensures { result ≡ message_at work.now (at + i) }
{
    work[at + i]
}

// One step. Eight messages fill a register: runs of eight and more go eight pairs at a time; over shorter distances a
// register holds both sides of its pairs, and each distance has the shape that reads and writes whole registers; blocks
// of fewer than eight positions go pair by pair. Inlined, so that a step's numbers stay in registers.
#[inline(always)]
fn row_step(rule: MinSum, step: Step, work: &mut [i16])
    requires { WorkspaceValid rule step.m work.old }
    ensures { work.new
        ≡ row_step rule step.m step.t step.k step.x step.y work.old }
{
    if step.m < 3 {
        runs::by_runs::<1>(rule, step, work);
    } else if 3 <= step.t {
        runs::by_runs::<8>(rule, step, work);
    } else if step.m == 3 {
        octets::by_octet(rule, step, work);
    } else if step.t == 0 {
        neighbours::by_neighbours(rule, step, work);
    } else if step.t == 1 {
        chunks::by_chunks::<1>(rule, step, work);
    } else {
        chunks::by_chunks::<2>(rule, step, work);
    }
}

// L by steps m - 1 down to 0.
#[tactic(auto, using(crate::proofs::Steps::left_turn))]
fn left_sweep(rule: MinSum, m: u32, work: &mut [i16])
    requires { WorkspaceValid rule m work.old }
    ensures { work.new ≡ left_steps rule m m work.old }
{
    let columns = m as usize;
    for t in 0..m {
        let s = (m - 1 - t) as usize;
        let step = Step {
            m,
            t,
            k: s,
            x: s + 1,
            y: columns + 1 + s,
        };
        row_step(rule, step, work);
    }
}

// R by steps 0 up to m - 1.
#[tactic(auto, using(crate::proofs::Steps::right_turn))]
fn right_sweep(rule: MinSum, m: u32, work: &mut [i16])
    requires { WorkspaceValid rule m work.old }
    ensures { work.new ≡ right_steps rule m m work.old }
{
    let columns = m as usize;
    for t in 0..m {
        let s = t as usize;
        let step = Step {
            m,
            t: m - 1 - t,
            k: columns + 1 + (s + 1),
            x: columns + 1 + s,
            y: s + 1,
        };
        row_step(rule, step, work);
    }
}

// One iteration.
#[tactic(auto, using(crate::proofs::Steps::left_turn))]
pub fn iterate(rule: MinSum, m: u32, work: &mut [i16])
    requires { WorkspaceValid rule m work.old }
    ensures { work.new ≡ iteration rule m work.old }
{
    left_sweep(rule, m, work);
    right_sweep(rule, m, work);
}

// The first n elements become 0.
fn clear(work: &mut [i16], n: usize)
    requires { n ≤ length work.old }
    ensures { work.new ≡ overwrite n (λ j. pos 0) work.old }
{
    work[..n].fill(0);
}

// Column 0 of R: the ceiling where frozen, since every frozen bit is 0, and 0 elsewhere.
#[tactic(auto, using(crate::proofs::Rows::row_filling))]
fn set_prior(m: u32, ceiling: u16, mask: &[u8], work: &mut [i16])
    requires { (m ≤ largest_m) × (ceiling ≤ largest_ceiling) × (2 ^ m ≤ length mask.now)
        × (workspace_length m ≤ length work.old) }
    ensures { work.new ≡ set_r m 0 (prior ceiling mask.now) work.old }
{
    let n = polar::power_of_two(m);
    let at = (m as usize + 1) * n;
    let top = ceiling as i16;
    for (i, message) in work[at..at + n].iter_mut().enumerate() {
        *message = messages::pick(polar::is_information(mask[i]), 0, top);
    }
}

// Column m of L: the LLRs. (`copy_from_slice` would call memmove, which the library for C does not.)
#[tactic(auto, using(crate::proofs::Rows::row_filling))]
fn set_llr(m: u32, llr: &[i16], work: &mut [i16])
    requires { (m ≤ largest_m) × (2 ^ m ≤ length llr.now) × (workspace_length m ≤ length work.old) }
    ensures { work.new ≡ set_l m m (λ i. get_or llr.now i (pos 0)) work.old }
{
    let n = polar::power_of_two(m);
    let at = m as usize * n;
    for (i, message) in work[at..at + n].iter_mut().enumerate() {
        *message = llr[i];
    }
}

// The start.
#[tactic(auto, unfolding(crate::specs::Iteration::start))]
pub fn begin(ceiling: u16, m: u32, mask: &[u8], llr: &[i16], work: &mut [i16])
    requires { (m ≤ largest_m) × (ceiling ≤ largest_ceiling) × (2 ^ m ≤ length mask.now)
        × (2 ^ m ≤ length llr.now) × (workspace_length m ≤ length work.old) }
    ensures { work.new
        ≡ start m ceiling mask.now llr.now work.old }
{
    let n = polar::power_of_two(m);
    clear(work, 2 * (m as usize + 1) * n);
    set_prior(m, ceiling, mask, work);
    set_llr(m, llr, work);
}
