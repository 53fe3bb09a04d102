// What every call of the library shares: its answer, the number that document 01 gives a refusal, the ranges, and (in
// specs/) bits, signs, tests of many places, and what lent memory holds after the call. It sees no other crate. It
// promises that each answer has one number, 0 or a refusal's.
#![tactic(auto)]

ghost use Rattle.std.specs.Prelude.{◌≡◌};
ghost use Rattle.calls.specs.Numbers.{number_of};

// The largest m, ceiling and scale, as document 01 has them.
pub const LARGEST_M: u32 = 10;

pub const LARGEST_CEILING: u32 = 2047;

pub const LARGEST_SCALE: u32 = 16;

// The positions of the largest block, and the elements of its workspace.
pub const MOST_POSITIONS: usize = 1024;

pub const MOST_WORKSPACE: usize = 22528;

// Why a call is refused, in the order of the numbers.
#[derive(Clone, Copy)]
pub enum Refusal {
    BlockLength = 1,
    Ceiling = 2,
    Scale = 3,
    Limit = 4,
    Criterion = 5,
    Operand = 6,
    ShortSlice = 7,
    MaskValue = 8,
    NoInformation = 9,
    LlrAboveCeiling = 10,
    ChannelFactor = 11,
    SampleNotFinite = 12,
    MessageBit = 13,
    MalformedText = 14,
    UnusableTally = 15,
    RadioNumber = 16,
}

// The number of an answer, for callers in other languages: 0, or the refusal's number.
pub fn number(answer: Result<(), Refusal>) -> u32
    ensures { result ≡ number_of answer }
{
    match answer {
        Ok(()) => 0,
        Err(refusal) => refusal as u32,
    }
}
