// The ceiling of LLRs, the largest size that a call asks for.
ghost use Rattle.std.specs.Prelude.{◌≤◌};
ghost use Rattle.calls.specs.Bounds.{largest_ceiling};

use calls::{LARGEST_CEILING, Refusal};

// From 1 to 2047.
#[derive(Clone, Copy)]
pub struct Ceiling {
    pub value: u32,
    pub ghost in_range: { (1 ≤ value) × (value ≤ largest_ceiling) },
}

impl TryFrom<u32> for Ceiling {
    ghost use Rattle.channel.specs.Ranges.{IsCeiling};

    type Error = Refusal;

    ghost try_from_gives = { IsCeiling };

    fn try_from(value: u32) -> Result<Self, Refusal> {
        if !(1..=LARGEST_CEILING).contains(&value) {
            return Err(Refusal::Ceiling);
        }
        Ok(Ceiling { value })
    }
}
