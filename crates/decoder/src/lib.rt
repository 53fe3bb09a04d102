// The decoder: LLRs become soft outputs, marks, an iteration and a reason.
// It sees the promises of `settings`, `sweeps`, `criteria`, `message` and `polar`. It promises that the answer, the
// four outputs and the workspace equal document 01's definitions as 2026-02 and 2026-04 amend them, that nothing else
// is written, and nothing at all after a refusal.
#![tactic(auto)]

ghost use Rattle.std.specs.Prelude.{◌≡◌, ◌<◌, ◌≤◌, ◌^◌, nat_abs, length};
ghost use Rattle.calls.specs.Bounds.{largest_ceiling};
ghost use Rattle.calls.specs.LentMemory.{overwrite};
ghost use Rattle.message.specs.Rule.{RuleInRange};
ghost use Rattle.sweeps.specs.Iteration.{iteration, iterations};
ghost use Rattle.sweeps.specs.IterationLaws.{WorkspaceValid};
ghost use Rattle.criteria.specs.Private.{MemoryInRange};
ghost use Rattle.settings.specs.Settings.{largest_limit};
ghost use Rattle.settings.specs.Slices.{slices};
ghost use Rattle.settings.specs.SlicesLaws.{OutputsFit};
ghost use Rattle.decoder.specs.Decoder.{
  reason_number,
  rule_of,
  soft_of,
  soft_at,
  coded_soft_at,
  coded_mark_at,
  criterion_of,
  outputs_of,
  Decoded,
  end_of,
  ended,
  result_of,
};
ghost use Rattle.decoder.specs.Run.{OneIteration, limit_of, EndsAs};

use calls::Refusal;
use criteria::{Criterion, Memory, Progress};
use message::MinSum;
use settings::{Lengths, Settings};

// Why the decoder ended, in the order of the numbers: the criterion held, or the limit was reached.
#[derive(Clone, Copy)]
pub enum Reason {
    Criterion = 1,
    Limit = 2,
}

// The iteration at which it ended, and the reason.
#[derive(Clone, Copy)]
pub struct Ending {
    pub iterations: u32,
    pub reason: Reason,
}

// The number of a reason, for callers that print it or hand it to C.
pub fn reason_number(reason: Reason) -> u32
    ensures { result ≡ reason_number reason }
{
    reason as u32
}

// The settings of the message arithmetic.
fn rule_of(settings: Settings) -> MinSum
    requires { RuleInRange (rule_of settings) }
    ensures { result ≡ rule_of settings }
{
    MinSum {
        ceiling: settings.ceiling as u16,
        scale: settings.scale as u16,
    }
}

// The criterion that the settings name, with its operand.
fn criterion_of(settings: Settings) -> Criterion
    requires { settings.operand ≤ largest_ceiling }
    ensures { result ≡ criterion_of settings }
{
    let operand = settings.operand;
    match settings.criterion {
        0 => Criterion::Never,
        1 => Criterion::GMatrix,
        2 => Criterion::LeastSize(operand as u16),
        3 => Criterion::Steady(operand),
        _ => Criterion::LeastInformationSize(operand as u16),
    }
}

// The soft output of a position by its mask byte: the sum of the messages of both directions, or the ceiling where the
// bit is frozen, since every frozen bit is 0. Both are computed, so that the loop around it chooses without a branch.
fn soft_output(rule: MinSum, kind: u8, left: i16, right: i16) -> i16
    requires { (nat_abs left ≤ rule.ceiling) × (nat_abs right ≤ rule.ceiling) }
    ensures { result ≡ soft_of rule kind left right }
{
    let sum = message::add_cut(rule, left, right);
    let top = rule.ceiling as i16;
    if polar::is_information(kind) {
        sum
    } else {
        top
    }
}

// A workspace to read outputs from, with the settings that it was made under.
#[derive(Clone, Copy)]
struct Workspace<'a> {
    settings: Settings,
    work: &'a [i16],
    ghost valid: { WorkspaceValid (rule_of settings) settings.m work.now },
}

// Each loop reads by index beside the slice that it writes: as zips of all of them they took 1.2 to 2.6 times as long,
// at m = 4, 7 and 10.
impl Workspace<'_> {
    // The soft outputs, from column 0.
    #[tactic(auto, using(crate::proofs::Loops::written_first))]
    fn soft_outputs(&self, mask: &[u8], soft: &mut [i16])
        requires { (2 ^ self.now.settings.m ≤ length mask.now) × (2 ^ self.now.settings.m ≤ length soft.old) }
        ensures { soft.new
            ≡ overwrite (2 ^ self.now.settings.m) (soft_at self.now.settings mask.now self.now.work.now) soft.old }
    {
        let work = self.work;
        let rule = rule_of(self.settings);
        let m = self.settings.m;
        let n = polar::power_of_two(m);
        let right = (m as usize + 1) * n;
        for (i, place) in soft[..n].iter_mut().enumerate() {
            *place = soft_output(
                rule,
                mask[i],
                sweeps::get(work, 0, i),
                sweeps::get(work, right, i),
            );
        }
    }

    // The coded soft outputs, from column m.
    #[tactic(auto, using(crate::proofs::Loops::written_first))]
    fn coded_soft_outputs(&self, coded_soft: &mut [i16])
        requires { 2 ^ self.now.settings.m ≤ length coded_soft.old }
        ensures { coded_soft.new
            ≡ overwrite (2 ^ self.now.settings.m) (coded_soft_at self.now.settings self.now.work.now) coded_soft.old }
    {
        let work = self.work;
        let rule = rule_of(self.settings);
        let m = self.settings.m;
        let n = polar::power_of_two(m);
        let left = m as usize * n;
        let right = (m as usize + 1 + m as usize) * n;
        for (i, place) in coded_soft[..n].iter_mut().enumerate() {
            *place = message::add_cut(
                rule,
                sweeps::get(work, left, i),
                sweeps::get(work, right, i),
            );
        }
    }

    // The coded soft outputs and their marks.
    fn coded_outputs(&self, coded_soft: &mut [i16], coded_mark: &mut [u8])
        requires { (2 ^ self.now.settings.m ≤ length coded_soft.old)
            × (2 ^ self.now.settings.m ≤ length coded_mark.old) }
        ensures coded_soft_after { coded_soft.new
            ≡ overwrite (2 ^ self.now.settings.m) (coded_soft_at self.now.settings self.now.work.now) coded_soft.old }
        ensures coded_mark_after { coded_mark.new
            ≡ overwrite (2 ^ self.now.settings.m) (coded_mark_at self.now.settings self.now.work.now) coded_mark.old }
    {
        self.coded_soft_outputs(coded_soft);
        criteria::mark_all(polar::power_of_two(self.settings.m), coded_soft, coded_mark);
    }
}

// The four outputs of a workspace.
pub fn outputs(
    settings: Settings,
    mask: &[u8],
    work: &[i16],
    soft: &mut [i16],
    mark: &mut [u8],
    coded_soft: &mut [i16],
    coded_mark: &mut [u8],
)
    requires workspace_valid { WorkspaceValid (rule_of settings) settings.m work.now }
    requires m_in_bounds { 2 ^ settings.m ≤ length mask.now }
    requires outputs_fit { OutputsFit (2 ^ settings.m)
        (slices soft.old mark.old coded_soft.old coded_mark.old work.now) }
    ensures { slices soft.new mark.new coded_soft.new coded_mark.new
        work.now
        ≡ outputs_of settings mask.now work.now
        (slices soft.old mark.old coded_soft.old coded_mark.old
        work.now) }
{
    let m = settings.m;
    let workspace = Workspace { settings, work };
    workspace.soft_outputs(mask, soft);
    criteria::mark_all(polar::power_of_two(m), soft, mark);
    workspace.coded_outputs(coded_soft, coded_mark);
}

// One iteration, its soft outputs, and its coded outputs.
#[tactic(auto, using(crate::proofs::Loops::iterated_valid))]
fn iterate(
    settings: Settings,
    mask: &[u8],
    soft: &mut [i16],
    coded_soft: &mut [i16],
    coded_mark: &mut [u8],
    work: &mut [i16],
)
    requires workspace_valid { WorkspaceValid (rule_of settings) settings.m work.old }
    requires m_in_bounds { (2 ^ settings.m ≤ length mask.now) × (2 ^ settings.m ≤ length soft.old)
        × (2 ^ settings.m ≤ length coded_soft.old) × (2 ^ settings.m ≤ length coded_mark.old) }
    ensures work_after { work.new ≡ iteration (rule_of settings) settings.m work.old }
    ensures soft_after { soft.new
        ≡ overwrite (2 ^ settings.m) (soft_at settings mask.now work.new) soft.old }
    ensures coded_soft_after { coded_soft.new
        ≡ overwrite (2 ^ settings.m) (coded_soft_at settings work.new) coded_soft.old }
    ensures coded_mark_after { coded_mark.new
        ≡ overwrite (2 ^ settings.m) (coded_mark_at settings work.new) coded_mark.old }
{
    let m = settings.m;
    sweeps::iterate(rule_of(settings), m, work);
    let workspace = Workspace { settings, work };
    workspace.soft_outputs(mask, soft);
    workspace.coded_outputs(coded_soft, coded_mark);
}

// One iteration, its outputs, and the criterion. Unless this is the first iteration, `mark` holds the marks of the
// workspace as it stands, which are those of the iteration before: `outputs` writes them, so that who makes one step at
// a time keeps the workspace alone.
pub fn step(
    settings: Settings,
    memory: Memory,
    mask: &[u8],
    soft: &mut [i16],
    mark: &mut [u8],
    coded_soft: &mut [i16],
    coded_mark: &mut [u8],
    work: &mut [i16],
) -> Progress
    requires workspace_valid { WorkspaceValid (rule_of settings) settings.m work.old }
    requires operand_le_largest_ceiling { (settings.operand ≤ largest_ceiling) × MemoryInRange memory }
    requires m_in_bounds { 2 ^ settings.m ≤ length mask.now }
    requires outputs_fit { OutputsFit (2 ^ settings.m)
        (slices soft.old mark.old coded_soft.old coded_mark.old work.old) }
    ensures { OneIteration settings memory mask.now
        (slices soft.old mark.old
        coded_soft.old coded_mark.old work.old)
        (slices soft.new mark.new
        coded_soft.new coded_mark.new work.new)
        result }
{
    let m = settings.m;
    iterate(settings, mask, soft, coded_soft, coded_mark, work);
    criteria::try_criterion(
        m,
        criterion_of(settings),
        memory,
        mask,
        soft,
        mark,
        coded_mark,
    )
}

// The ending of a run that goes to the limit.
fn limit_of(limit: u32) -> Ending
    ensures { result_of (Ok result) ≡ ended limit 2 }
{
    Ending {
        iterations: limit,
        reason: Reason::Limit,
    }
}

// Steps until the criterion holds, or to the limit.
fn run(
    settings: Settings,
    mask: &[u8],
    soft: &mut [i16],
    mark: &mut [u8],
    coded_soft: &mut [i16],
    coded_mark: &mut [u8],
    work: &mut [i16],
) -> Ending
    requires workspace_valid { WorkspaceValid (rule_of settings) settings.m work.old }
    requires operand_le_largest_ceiling { (settings.operand ≤ largest_ceiling) × (1 ≤ settings.limit)
        × (settings.limit ≤ largest_limit) }
    requires m_in_bounds { 2 ^ settings.m ≤ length mask.now }
    requires outputs_fit { OutputsFit (2 ^ settings.m)
        (slices soft.old mark.old coded_soft.old coded_mark.old work.old) }
    ensures { EndsAs settings mask.now (end_of settings mask.now work.old)
        (slices soft.old mark.old
        coded_soft.old coded_mark.old work.old)
        (slices soft.new mark.new
        coded_soft.new coded_mark.new work.new)
        result }
{
    let limit = settings.limit;
    let mut memory = Memory::new();
    for done in 0..limit {
        let progress = step(
            settings, memory, mask, soft, mark, coded_soft, coded_mark, work,
        );
        if progress.holds {
            return Ending {
                iterations: done + 1,
                reason: Reason::Criterion,
            };
        }
        memory = progress.memory;
    }
    limit_of(limit)
}

// As many iterations.
#[tactic(auto, using(crate::proofs::Loops::iterated_times_valid))]
fn iterate_times(rule: MinSum, m: u32, count: u32, work: &mut [i16])
    requires { WorkspaceValid rule m work.old }
    ensures { work.new ≡ iterations rule m count work.old }
{
    for _ in 0..count {
        sweeps::iterate(rule, m, work);
    }
}

// Criterion 0 never holds, so only the last iteration's outputs are wanted.
#[tactic(auto, using(crate::proofs::Loops::iterated_times_valid))]
fn run_to_limit(
    settings: Settings,
    mask: &[u8],
    soft: &mut [i16],
    mark: &mut [u8],
    coded_soft: &mut [i16],
    coded_mark: &mut [u8],
    work: &mut [i16],
) -> Ending
    requires workspace_valid { WorkspaceValid (rule_of settings) settings.m work.old }
    requires m_in_bounds { 2 ^ settings.m ≤ length mask.now }
    requires outputs_fit { OutputsFit (2 ^ settings.m)
        (slices soft.old mark.old coded_soft.old coded_mark.old work.old) }
    ensures { EndsAs settings mask.now (limit_of settings)
        (slices soft.old mark.old
        coded_soft.old coded_mark.old work.old)
        (slices soft.new mark.new
        coded_soft.new coded_mark.new work.new)
        result }
{
    let m = settings.m;
    iterate_times(rule_of(settings), m, settings.limit, work);
    outputs(settings, mask, work, soft, mark, coded_soft, coded_mark);
    limit_of(settings.limit)
}

// Every check comes before the first write.
pub fn decode(
    settings: Settings,
    mask: &[u8],
    llr: &[i16],
    soft: &mut [i16],
    mark: &mut [u8],
    coded_soft: &mut [i16],
    coded_mark: &mut [u8],
    work: &mut [i16],
) -> Result<Ending, Refusal>
    ensures { Decoded settings mask.now llr.now
        (slices soft.old mark.old
        coded_soft.old coded_mark.old work.old)
        (slices soft.new mark.new
        coded_soft.new coded_mark.new work.new)
        result }
{
    let lengths = Lengths {
        soft: soft.len(),
        mark: mark.len(),
        coded_soft: coded_soft.len(),
        coded_mark: coded_mark.len(),
        work: work.len(),
    };
    settings::refusal(settings, mask, llr, lengths)?;
    let m = settings.m;
    sweeps::begin(settings.ceiling as u16, m, mask, llr, work);
    let ending = match criterion_of(settings) {
        Criterion::Never => {
            run_to_limit(settings, mask, soft, mark, coded_soft, coded_mark, work)
        }
        _ => run(settings, mask, soft, mark, coded_soft, coded_mark, work),
    };
    Ok(ending)
}
