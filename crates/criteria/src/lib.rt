// The criteria: marks of soft values, and whether the criterion holds after an iteration.
// It sees `calls` and `polar`, and reads marks, soft values and the mask, never a message. It promises document 01's
// marks and criteria, and the criterion of 2026-04. Its functions are offered to the crates above, which have tested
// the settings and the lengths.
#![tactic(auto)]

ghost use Rattle.std.specs.Prelude.{◌≡◌, true, ◌+◌, ◌<◌, ◌≤◌, ◌^◌, eqb, pos, nat_abs, length, get_or};
ghost use Rattle.calls.specs.Bounds.{largest_m};
ghost use Rattle.polar.specs.Mask.{by_kind};
ghost use Rattle.calls.specs.LentMemory.{overwrite};
ghost use Rattle.criteria.specs.Marks.{mark_of};
ghost use Rattle.calls.specs.Every.{every};
ghost use Rattle.criteria.specs.Criteria.{untied, g_matrix, least_size, same_marks, least_information_size};
ghost use Rattle.criteria.specs.Memory.{steady_next, count_for, nothing, memory_next, holds_now};
ghost use Rattle.criteria.specs.Private.{SoftValues, MarkBytes, most_remembered, MemoryInRange, CriterionTried};

use calls::MOST_POSITIONS;

// The criterion that ends the decoding. A later criterion joins them here.
#[derive(Clone, Copy)]
pub enum Criterion {
    Never,
    GMatrix,
    LeastSize(u16),
    Steady(u32),
    LeastInformationSize(u16),
}

// The mark of a soft value.
fn mark(value: i16) -> u8
    ensures { result ≡ mark_of value }
{
    if value < 0 {
        1
    } else if 0 < value {
        0
    } else {
        2
    }
}

// The marks of the first n soft values.
#[tactic(auto, using(calls::specs::WrittenLaws::written_next))]
pub fn mark_all(n: usize, soft: &[i16], marks: &mut [u8])
    requires { (n ≤ length soft.now) × (n ≤ length marks.old) }
    ensures { marks.new
        ≡ overwrite n (λ i. mark_of (get_or soft.now i (pos 0))) marks.old }
{
    for i in 0..n {
        marks[i] = mark(soft[i]);
    }
}

// Whether no tie is among the marks. Like every test of all positions here it looks at each of them, since a loop with
// an early exit is not vectorised.
fn untied(marks: &[u8]) -> bool
    ensures { result ≡ untied (length marks.now) (λ i. get_or marks.now i 0) }
{
    marks.iter().fold(true, |clear, mark| clear & (*mark != 2))
}

// Criterion 2. It keeps the least size, which needs no branch.
fn least_size(operand: u16, soft: &[i16]) -> bool
    ensures { result ≡ least_size (length soft.now) operand (λ i. get_or soft.now i (pos 0)) }
{
    let sizes = soft.iter().map(|value| value.unsigned_abs());
    operand <= sizes.fold(u16::MAX, u16::min)
}

// The size that criterion 4 compares at a position: that of the soft value, or at a frozen position, which it leaves
// out, the largest number, which no operand is above. Both are computed first, so that the loop has no branch.
fn information_size(kind: u8, value: i16) -> u16
    ensures { result ≡ by_kind kind (nat_abs value) (λ bit. 65535) }
{
    let size = value.unsigned_abs();
    if polar::is_information(kind) {
        size
    } else {
        u16::MAX
    }
}

// Criterion 4.
fn least_information_size(operand: u16, mask: &[u8], soft: &[i16]) -> bool
    requires { length mask.now ≡ length soft.now }
    ensures { result
        ≡ least_information_size (length mask.now) operand mask.now (λ i. get_or soft.now i (pos 0)) }
{
    let information_sizes = mask
        .iter()
        .zip(soft)
        .map(|(kind, value)| information_size(*kind, *value));
    operand <= information_sizes.fold(u16::MAX, u16::min)
}

// Whether a position allows criterion 3: it is frozen, or its mark is that of the iteration before.
fn keeps_mark(kind: u8, before: u8, now: u8) -> bool
    ensures { result ≡ by_kind kind (eqb before now) (λ bit. true) }
{
    !polar::is_information(kind) || before == now
}

// Whether the marks of the soft values are those of the iteration before, at the information positions.
fn same_marks(mask: &[u8], before: &[u8], soft: &[i16]) -> bool
    requires { (length mask.now ≡ length before.now) × (length mask.now ≡ length soft.now) }
    ensures { result ≡ same_marks (length mask.now) mask.now (λ i. get_or before.now i 0)
        (λ i. mark_of (get_or soft.now i (pos 0))) }
{
    mask.iter().zip(before).zip(soft).fold(
        true,
        |same, ((kind, before), value)| same & keeps_mark(*kind, *before, mark(*value)),
    )
}

// Copies the marks to the first elements.
#[tactic(auto, using(crate::proofs::Matrix::copied))]
fn copy(marks: &[u8], bits: &mut [u8])
    requires { length marks.now ≤ length bits.old }
    ensures { bits.new ≡ overwrite (length marks.now) (λ i. get_or marks.now i 0) bits.old }
{
    bits[..marks.len()].copy_from_slice(marks);
}

// Whether the bytes begin with these. The library's method of this name exits early, and takes longer.
fn starts_with(bytes: &[u8], first: &[u8]) -> bool
    requires { length first.now ≤ length bytes.now }
    ensures { result ≡ every (length first.now) (λ i. eqb (get_or bytes.now i 0) (get_or first.now i 0)) }
{
    bytes[..first.len()]
        .iter()
        .zip(first)
        .fold(true, |same, (x, y)| same & (*x == *y))
}

// What a criterion reads of an iteration beside the marks: the mask, the soft values and the coded marks, an element
// of each for each of the block's N = 2^m positions.
#[derive(Clone, Copy)]
struct Outputs<'a> {
    m: u32,
    mask: &'a [u8],
    soft: &'a [i16],
    coded: &'a [u8],
    ghost m_in_range: { m ≤ largest_m },
    ghost mask_length: { length mask.now ≡ 2 ^ m },
    ghost soft_length: { length soft.now ≡ 2 ^ m },
    ghost coded_length: { length coded.now ≡ 2 ^ m },
    ghost coded_marks: { MarkBytes (2 ^ m) coded.now },
}

// Criterion 1: no tie, and the marks coded give the coded marks.
#[tactic(auto, using(crate::proofs::Matrix::room))]
fn g_matrix(outputs: &Outputs, marks: &[u8]) -> bool
    requires marks_length { length marks.now ≡ 2 ^ outputs.now.m }
    requires mark_bytes { MarkBytes (2 ^ outputs.now.m) marks.now }
    ensures { result ≡ g_matrix outputs.now.m (λ i. get_or marks.now i 0) (λ i. get_or outputs.now.coded.now i 0) }
{
    if !untied(marks) {
        return false;
    }
    if !untied(outputs.coded) {
        return false;
    }
    let mut bits = [0u8; MOST_POSITIONS];
    copy(marks, &mut bits);
    polar::transform(&mut bits, outputs.m);
    starts_with(&bits, outputs.coded)
}

// The steady count after one iteration more: the first iteration has none before it, and a change of the marks starts
// the count again.
fn steady_after(iterations: u32, steady: u32, same: bool) -> u32
    requires { steady < most_remembered }
    ensures { result ≡ steady_next iterations steady same }
{
    if iterations == 0 {
        return 0;
    }
    if same { steady + 1 } else { 0 }
}

// What a criterion remembers between iterations: how many there were, and under criterion 3 how many of the last ones
// kept the marks at the information positions. The decoder hands it on and takes no part of it; what a later
// criterion remembers joins it here.
#[derive(Clone, Copy, Default)]
pub struct Memory {
    iterations: u32,
    steady: u32,
}

// What is left of an iteration beside the marks: what the criterion remembers from now on, and whether it holds.
#[derive(Clone, Copy)]
pub struct Progress {
    pub memory: Memory,
    pub holds: bool,
}

impl Memory {
    // Before the first iteration.
    pub fn new() -> Memory
        ensures { result ≡ nothing }
    {
        Memory::default()
    }

    // The steady count after an iteration with these outputs, where `before` holds the marks of the iteration before.
    fn steady_next(self, criterion: Criterion, outputs: &Outputs, before: &[u8]) -> u32
        requires in_range { MemoryInRange self }
        requires before_length { length before.now ≡ 2 ^ outputs.now.m }
        ensures { result ≡ count_for criterion (steady_next self.iterations self.steady
            (same_marks (2 ^ outputs.now.m) outputs.now.mask.now (λ i. get_or before.now i 0)
            (λ i. mark_of (get_or outputs.now.soft.now i (pos 0))))) }
    {
        match criterion {
            Criterion::Never
            | Criterion::GMatrix
            | Criterion::LeastSize(_)
            | Criterion::LeastInformationSize(_) => 0,
            Criterion::Steady(_) => {
                let same = same_marks(outputs.mask, before, outputs.soft);
                steady_after(self.iterations, self.steady, same)
            }
        }
    }

    // After an iteration with these outputs.
    fn next(self, criterion: Criterion, outputs: &Outputs, before: &[u8]) -> Memory
        requires in_range { MemoryInRange self }
        requires before_length { length before.now ≡ 2 ^ outputs.now.m }
        ensures { result ≡ memory_next outputs.now.m criterion outputs.now.mask.now self (λ i. get_or before.now i 0)
            (λ i. get_or outputs.now.soft.now i (pos 0)) (λ i. get_or outputs.now.coded.now i 0) }
    {
        Memory {
            iterations: self.iterations + 1,
            steady: self.steady_next(criterion, outputs, before),
        }
    }
}

// Whether the criterion holds after the iteration whose outputs and marks these are.
fn holds_now(criterion: Criterion, memory: Memory, outputs: &Outputs, marks: &[u8]) -> bool
    requires marks_length { length marks.now ≡ 2 ^ outputs.now.m }
    requires mark_bytes { MarkBytes (2 ^ outputs.now.m) marks.now }
    ensures { result ≡ holds_now outputs.now.m criterion outputs.now.mask.now memory
        (λ i. get_or outputs.now.soft.now i (pos 0)) (λ i. get_or marks.now i 0)
        (λ i. get_or outputs.now.coded.now i 0) }
{
    match criterion {
        Criterion::Never => false,
        Criterion::GMatrix => g_matrix(outputs, marks),
        Criterion::LeastSize(operand) => least_size(operand, outputs.soft),
        Criterion::Steady(iterations) => iterations <= memory.steady,
        Criterion::LeastInformationSize(operand) => {
            least_information_size(operand, outputs.mask, outputs.soft)
        }
    }
}

// The criterion, tried after an iteration with these soft values and coded marks. `marks` holds the marks of the
// iteration before, unless this is the first, and afterwards those of this one.
pub fn try_criterion(
    m: u32,
    criterion: Criterion,
    memory: Memory,
    mask: &[u8],
    soft: &[i16],
    marks: &mut [u8],
    coded: &[u8],
) -> Progress
    requires m_le_largest_m { (m ≤ largest_m) × MemoryInRange memory }
    requires m_in_bounds { (2 ^ m ≤ length mask.now) × (2 ^ m ≤ length marks.old) }
    requires soft_values { SoftValues (2 ^ m) soft.now × MarkBytes (2 ^ m) coded.now }
    ensures { CriterionTried m criterion memory mask.now (λ i. get_or soft.now i (pos 0))
        (λ i. get_or coded.now i 0) marks.old marks.new result }
{
    let n = polar::power_of_two(m);
    let outputs = Outputs {
        m,
        mask: &mask[..n],
        soft: &soft[..n],
        coded: &coded[..n],
    };
    let next = memory.next(criterion, &outputs, &marks[..n]);
    mark_all(n, soft, marks);
    let holds = holds_now(criterion, next, &outputs, &marks[..n]);
    Progress {
        memory: next,
        holds,
    }
}
